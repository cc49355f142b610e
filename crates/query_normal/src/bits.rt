//! The bits of a page, eight in a byte: bit j is bit `j mod 8`, the least first, of byte `j / 8`.
ghost use Rattle.std.specs.Prelude.{◌≡◌, ◌<◌, ◌-◌, ◌/◌, ◌%◌, ◌^◌, true, false, length, slice_index, slice_set, bit_and, bit_or};
ghost use Rattle.query_normal.specs.Bits.{is_bit_set, flat_bits};

/// Whether the bit at an index is set.
pub fn is_set(bytes: &[u8], index: usize) -> bool
    requires { index / 8 < length bytes.now }
    ensures { result ≡ is_bit_set bytes.now index }
{
    (bytes[index / 8] >> (index % 8)) & 1 == 1
}

/// Sets the bit at an index.
pub fn set(bytes: &mut [u8], index: usize)
    requires { index / 8 < length bytes.old }
    ensures bits { flat_bits bytes.new ≡ slice_set (flat_bits bytes.old) index true }
    ensures byte { bytes.new ≡ slice_set bytes.old (index / 8) (bit_or (slice_index bytes.old (index / 8)) (2 ^ (index % 8))) }
{
    bytes[index / 8] |= 1u8 << (index % 8);
}

/// Clears the bit at an index.
pub fn clear(bytes: &mut [u8], index: usize)
    requires { index / 8 < length bytes.old }
    ensures bits { flat_bits bytes.new ≡ slice_set (flat_bits bytes.old) index false }
    ensures byte { bytes.new ≡ slice_set bytes.old (index / 8) (bit_and (slice_index bytes.old (index / 8)) (2 ^ 8 - 1 - 2 ^ (index % 8))) }
{
    bytes[index / 8] &= !(1u8 << (index % 8));
}
