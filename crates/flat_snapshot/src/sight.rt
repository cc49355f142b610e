//! What a page says of a key: its front, its moment, and whether all bits of the key are set.
//!
//! A page is looked into where its bytes lie, and nothing is allocated. A caller that asks often of the
//! same key keeps the key's mark, so that the key's text is hashed once.
ghost use Rattle.std.specs.Prelude.{◌≡◌, ◌<◌, ◌≤◌, ◌^◌, List, ℕ, length};
ghost use Rattle.std.specs.List.{list_all};
ghost use Rattle.q_base.specs.Positions.{position};
ghost use Rattle.query_normal.specs.Bits.{is_bit_set, flat_bits};
ghost use Rattle.flat_snapshot.specs.PageText.{IsPage};
ghost use Rattle.flat_snapshot.specs.Reading.{read_page};
ghost use Rattle.flat_snapshot.specs.Sight.{head_page, sight_of, sight_in, mark_of, marked_sight, marked_positions};

use crate::page::all_set;
use crate::read::{HEAD_BYTES, PageHead, PageRefusal, head_in, word_at};
use q_base::{Commit, positions_of};
use query_normal::bits;
use sha2::{Digest, Sha256};

/// What a page says of a key.
#[derive(Clone, Copy, Debug, PartialEq, Eq)]
pub struct Sight {
    /// The front: the commits up to it were matched.
    pub front: Commit,
    /// The clock at which the page was made, in seconds since 1970.
    pub moment: u64,
    /// Whether all bits of the key are set, so that its copies may be outdated.
    pub is_held: bool,
}

/// The two hashes of a key's text, from which its positions follow in pages of any size.
#[derive(Clone, Copy, Debug, PartialEq, Eq)]
#[repr(C)]
pub struct KeyMark {
    /// The first hash.
    pub first: u64,
    /// The second hash, by which positions step.
    pub second: u64,
}

impl KeyMark {
    /// The mark of a key's text, by one SHA-256 (FIPS 180-4).
    pub fn of(text: &[u8]) -> KeyMark
        ensures { result ≡ mark_of text.now }
    {
        let digest = Sha256::digest(text);
        KeyMark {
            first: word_at(&digest, 0),
            second: word_at(&digest, 8),
        }
    }
}

/// What the page in these bytes says of a text.
pub fn look_into(page: &[u8], text: &[u8]) -> Result<Sight, PageRefusal>
    ensures { result ≡ sight_in text.now (read_page page.now) }
{
    let head = head_in(page)?;
    let positions = positions_of(text, head.log2_bits, head.hashes);
    Ok(Sight {
        front: head.front,
        moment: head.moment,
        is_held: all_set(&page[HEAD_BYTES..], positions.as_slice()),
    })
}

/// What a page says of a mark: its head was read before, and these are its bits.
pub fn sight_at(head: PageHead, bits: &[u8], mark: KeyMark) -> Sight
    requires { IsPage (head_page head bits.now) }
    ensures marked { result ≡ marked_sight (head_page head bits.now) mark }
    ensures same { (text : List ℕ) → mark ≡ mark_of text → result ≡ sight_of (head_page head bits.now) text }
{
    Sight {
        front: head.front,
        moment: head.moment,
        is_held: has_mark_set(bits, head.log2_bits, head.hashes, mark),
    }
}

/// Whether the bits at all positions of a mark are set.
pub(crate) fn has_mark_set(bits: &[u8], log2_bits: u8, hashes: u8, mark: KeyMark) -> bool
    requires few { log2_bits ≤ 32 }
    requires size { length (flat_bits bits.now) ≡ 2 ^ log2_bits }
    ensures { result ≡ list_all (is_bit_set bits.now) (marked_positions mark log2_bits hashes) }
{
    for i in 0..hashes {
        if !bits::is_set(bits, position_of(mark, log2_bits, i)) {
            return false;
        }
    }
    true
}

/// A position of a mark (double hashing, Kirsch and Mitzenmacher 2006).
fn position_of(mark: KeyMark, log2_bits: u8, i: u8) -> usize
    requires { log2_bits ≤ 32 }
    ensures same { result ≡ position log2_bits mark.first mark.second i }
    ensures within { result < 2 ^ log2_bits }
{
    let sum = mark
        .first
        .wrapping_add(u64::from(i).wrapping_mul(mark.second));
    let mask = (1u64 << log2_bits) - 1;
    (sum & mask) as usize
}
