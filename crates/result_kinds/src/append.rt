//! Writing into a buffer that has room for what is written.
ghost use Rattle.std.specs.Prelude.{◌≡◌, ◌+◌, ◌≤◌, ◌++◌, length, decimal, vec_len, vec_capacity};

use itoa::Buffer;

/// Writes a piece at the end of a buffer.
pub(crate) fn append(buffer: &mut Vec<u8>, piece: &[u8])
    requires { vec_len buffer.old + length piece.now ≤ vec_capacity buffer.old }
    ensures items { buffer.new.items ≡ buffer.old.items ++ piece.now }
    ensures len { vec_len buffer.new ≡ vec_len buffer.old + length piece.now }
    ensures capacity { vec_capacity buffer.old ≤ vec_capacity buffer.new }
{
    match buffer.extend_from_slice(piece) {
        Ok(()) => {}
        Err(_) => unreachable!(),
    }
}

/// Writes a decimal number at the end of a buffer.
pub(crate) fn append_number(buffer: &mut Vec<u8>, number: u64)
    requires { vec_len buffer.old + length (decimal number) ≤ vec_capacity buffer.old }
    ensures items { buffer.new.items ≡ buffer.old.items ++ decimal number }
    ensures len { vec_len buffer.new ≡ vec_len buffer.old + length (decimal number) }
    ensures capacity { vec_capacity buffer.old ≤ vec_capacity buffer.new }
{
    let mut digits = Buffer::new();
    append(buffer, digits.format(number).as_bytes());
}

/// How many digits a number has.
pub(crate) fn digit_count(number: u64) -> usize
    ensures digits { result ≡ length (decimal number) }
    ensures few { result ≤ 40 }
{
    Buffer::new().format(number).len()
}
