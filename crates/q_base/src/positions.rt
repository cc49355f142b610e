//! The positions of a text among the bits of a Bloom filter (Bloom 1970).
ghost use Rattle.std.specs.Prelude.{◌≡◌, ◌+◌, ◌^◌, ◌<◌, ◌≤◌, length, take, drop, map, All};
ghost use Rattle.std.specs.Int.{w64, from_be_bytes};
ghost use Rattle.std.specs.List.{range_with_len};
ghost use Rattle.q_base.specs.Positions.{position, positions_of};

use sha2::{Digest, Sha256};
use std::marker::Model;

/// The positions of a text, at most 16. They are stored inline.
#[derive(Debug, Drop)]
pub struct Positions {
    values: [u32; 16],
    count: usize,
}

impl Model for Positions {
    ghost use Rattle.std.specs.Prelude.{ℕ, ◌≤◌, List, take};

    ghost Value = { List ℕ };

    ghost view = { λ p. take p.count p.values };

    ghost invariant = { λ p. p.count ≤ 16 };
}

impl Positions {
    /// The positions in order.
    pub fn as_slice(&self) -> &[u32]
        ensures same { result.now ≡ self.now }
        ensures few { length self.now ≤ 16 }
    {
        &self.values[..self.count]
    }
}

/// The positions of a text among `2^log2_bits` bits, one for each hash. Two halves of one SHA-256
/// (FIPS 180-4) give all of them, by double hashing (Kirsch and Mitzenmacher 2006).
pub fn positions_of(text: &[u8], log2_bits: u8, hashes: u8) -> Positions
    requires bits { log2_bits ≤ 32 }
    requires few { hashes ≤ 16 }
    ensures same { result ≡ positions_of text.now log2_bits hashes }
    ensures within { All (λ p. p < 2 ^ log2_bits) result }
    ensures count { length result ≡ hashes }
{
    let digest = Sha256::digest(text);
    steps_from(
        word_at(&digest, 0),
        word_at(&digest, 8),
        log2_bits,
        hashes as usize,
    )
}

/// Eight bytes as a number, the high byte first.
fn word_at(bytes: &[u8], from: usize) -> u64
    requires { from + 8 ≤ length bytes.now }
    ensures { result ≡ from_be_bytes w64 (take 8 (drop from bytes.now)) }
{
    match <[u8; 8]>::try_from(&bytes[from..from + 8]) {
        Ok(word) => u64::from_be_bytes(word),
        Err(_) => unreachable!(),
    }
}

/// The positions that begin at the first hash and step by the second.
fn steps_from(first: u64, step: u64, log2_bits: u8, count: usize) -> Positions
    requires bits { log2_bits ≤ 32 }
    requires few { count ≤ 16 }
    ensures same { result ≡ map (position log2_bits first step) (range_with_len 0 count) }
    ensures within { All (λ p. p < 2 ^ log2_bits) result }
    ensures count { length result ≡ count }
{
    let mask = (1u64 << log2_bits) - 1;
    let mut values = [0; 16];
    let mut at = first;
    for i in 0..count {
        values[i] = (at & mask) as u32;
        at = at.wrapping_add(step);
    }
    Positions { values, count }
}
