//! Writing the text of a page into a buffer.
ghost use Rattle.std.specs.Prelude.{◌≡◌, ◌+◌, ◌/◌, ◌%◌, ◌^◌, ◌<◌, ◌≤◌, ◌++◌, List, ℕ, true, length, drop, slice_index, slice_set, bit_or};
ghost use Rattle.query_normal.specs.Pages.{Page as APage, most_log2_bits};
ghost use Rattle.flat_snapshot.specs.PageText.{head_bytes, head_text, page_text, page_with, blank_page, IsPage};

use crate::read::HEAD_BYTES;
use q_base::{Commit, Moment};

/// Writes a page without any bit to the start of the buffer and returns its length.
pub fn write_head(
    buffer: &mut [u8],
    log2_bits: u8,
    hashes: u8,
    front: Commit,
    commits: Commit,
    moment: Moment,
) -> usize
    requires least { 3 ≤ log2_bits }
    requires most { log2_bits ≤ most_log2_bits }
    requires buffer { head_bytes + 2 ^ log2_bits / 8 ≤ length buffer.old }
    ensures length { result ≡ head_bytes + 2 ^ log2_bits / 8 }
    ensures written { buffer.new ≡ page_text (blank_page log2_bits hashes front commits moment) ++ drop result buffer.old }
{
    write_fields(buffer, log2_bits, hashes, front, commits, moment);
    let end = HEAD_BYTES + (1usize << log2_bits) / 8;
    buffer[HEAD_BYTES..end].fill(0);
    end
}

/// Writes a page with these bytes as its bits to the start of the buffer and returns its length.
pub fn write_page(
    buffer: &mut [u8],
    log2_bits: u8,
    hashes: u8,
    front: Commit,
    commits: Commit,
    moment: Moment,
    bits: &[u8],
) -> usize
    requires { head_bytes + length bits.now ≤ length buffer.old }
    ensures length { result ≡ head_bytes + length bits.now }
    ensures written { buffer.new ≡ page_text (page_with log2_bits hashes front commits moment bits.now) ++ drop result buffer.old }
{
    write_fields(buffer, log2_bits, hashes, front, commits, moment);
    let end = HEAD_BYTES + bits.len();
    buffer[HEAD_BYTES..end].copy_from_slice(bits);
    end
}

/// Sets a bit of the page at the start of these bytes.
pub fn set_bit(page: &mut [u8], position: u32)
    requires { head_bytes + position / 8 < length page.old }
    ensures byte { page.new ≡ slice_set page.old (head_bytes + position / 8) (bit_or (slice_index page.old (head_bytes + position / 8)) (2 ^ (position % 8))) }
    ensures page { (p : APage) (rest : List ℕ) → IsPage p → position < 2 ^ p.log2_bits → page.old ≡ page_text p ++ rest →
        page.new ≡ page_text (record p { bits = slice_set p.bits position true }) ++ rest }
{
    page[HEAD_BYTES + position as usize / 8] |= 1u8 << (position % 8);
}

/// Writes the head of a page to the start of the buffer.
fn write_fields(
    buffer: &mut [u8],
    log2_bits: u8,
    hashes: u8,
    front: Commit,
    commits: Commit,
    moment: Moment,
)
    requires { head_bytes ≤ length buffer.old }
    ensures { buffer.new ≡ head_text log2_bits hashes front commits moment ++ drop head_bytes buffer.old }
{
    let head = head_of(log2_bits, hashes, front, commits, moment);
    buffer[..HEAD_BYTES].copy_from_slice(&head);
}

/// The bytes of a page's head.
fn head_of(log2_bits: u8, hashes: u8, front: Commit, commits: Commit, moment: Moment) -> [u8; 30]
    ensures { result ≡ head_text log2_bits hashes front commits moment }
{
    let f = front.to_be_bytes();
    let c = commits.to_be_bytes();
    let m = moment.seconds().to_be_bytes();
    [
        b'Q', b'S', b'F', b'1', hashes, log2_bits, f[0], f[1], f[2], f[3], f[4], f[5], f[6], f[7],
        c[0], c[1], c[2], c[3], c[4], c[5], c[6], c[7], m[0], m[1], m[2], m[3], m[4], m[5], m[6],
        m[7],
    ]
}
