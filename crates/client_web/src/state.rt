//! The state of a session as bytes, which a host keeps where the session is to outlive it.
//!
//! | Bytes | Content |
//! |---|---|
//! | 4 | `QSS1` |
//! | 8 | the floor of all keys: the session's own writes, and what was forgotten |
//! | 8 | the number of entries |
//! | 25 each | the two hashes of a mark, the commit of its key's reads, 1 where it is whitelisted, else 0 |
//!
//! Numbers of eight bytes have the high byte first. Entries stand in the order of their marks, each mark
//! once, and each says something: a commit, or that the key is whitelisted. So a state has one text, and a
//! text that is otherwise is refused. Whoever can write a text can write one of lower floors: the text is the
//! session's own memory, and proves nothing to others.
ghost use Rattle.std.specs.Prelude.{◌≡◌, ◌↔◌, ◌+◌, ◌*◌, ◌≤◌, ◌<◌, max, IsTrue, length};
ghost use Rattle.flat_snapshot.specs.Reading.{word_at};
ghost use Rattle.client_web.specs.State.{AreEntries, has_head, head_bytes, entry_bytes, IsState, is_entry, mark_at, is_before, entry_text, says, Loads, WritesEntry};

use crate::answer::{BAD_STATE, DONE, NO_ENTRY, NO_ROOM};
use crate::table::{list, note_read};
use client_core::{FloorRow, Floors};
use flat_snapshot::KeyMark;
use q_base::Commit;

/// The number of bytes before the entries.
const HEAD_BYTES: usize = 20;

/// The number of bytes of an entry.
const ENTRY_BYTES: usize = 25;

/// Takes up the session of a text: floors and rows are those of what it tells. A text that is none is refused
/// (21), and the session is one that has done nothing yet.
#[unsafe(no_mangle)]
pub extern "C" fn client_web_load(text: &[u8], floors: &mut Floors, rows: &mut [FloorRow]) -> u32
    ensures { Loads text.now floors.new rows.new result }
{
    *floors = Floors::new(rows);
    if !is_state(text) {
        return BAD_STATE;
    }
    floors.note_write(word_at(text, 4));
    for i in 0..(text.len() - HEAD_BYTES) / ENTRY_BYTES {
        let mark = mark_at(text, i);
        let at = HEAD_BYTES + ENTRY_BYTES * i;
        note_read(floors, rows, mark, word_at(text, at + 16));
        if text[at + 24] == 1 {
            list(floors, rows, mark);
        }
    }
    DONE
}

/// Writes the entry of row `i` to the start of the buffer. 22 where there is no such row or it says nothing,
/// 23 where the buffer has fewer than 25 bytes.
#[unsafe(no_mangle)]
pub extern "C" fn client_web_entry(
    floors: &Floors,
    rows: &[FloorRow],
    i: usize,
    buffer: &mut [u8],
) -> u32
    ensures { WritesEntry floors.now rows.now i buffer.old buffer.new result }
{
    if i >= rows.len() || !says(*floors, rows[i]) {
        return NO_ENTRY;
    }
    if buffer.len() < ENTRY_BYTES {
        return NO_ROOM;
    }
    let entry = entry_text(*floors, rows[i]);
    buffer[..ENTRY_BYTES].copy_from_slice(&entry);
    DONE
}

/// The floor of all keys that a state tells: the session's own writes, and what was forgotten.
#[unsafe(no_mangle)]
pub extern "C" fn client_web_least(floors: &Floors) -> Commit
    ensures { result ≡ max floors.now.writes floors.now.common }
{
    floors.writes.max(floors.common)
}

/// Whether a row says something: its key was read after the first commit, or is whitelisted.
fn says(floors: Floors, row: FloorRow) -> bool
    ensures { result ≡ says floors row }
{
    row.is_taken && (row.commit > 0 || row.listed_at == floors.pages)
}

/// The bytes of a row's entry.
fn entry_text(floors: Floors, row: FloorRow) -> [u8; 25]
    ensures { result ≡ entry_text floors row }
{
    let a = row.mark.first.to_be_bytes();
    let b = row.mark.second.to_be_bytes();
    let c = row.commit.to_be_bytes();
    let flag = if row.listed_at == floors.pages { 1 } else { 0 };
    [
        a[0], a[1], a[2], a[3], a[4], a[5], a[6], a[7], b[0], b[1], b[2], b[3], b[4], b[5], b[6],
        b[7], c[0], c[1], c[2], c[3], c[4], c[5], c[6], c[7], flag,
    ]
}

/// Whether bytes are the text of a state.
fn is_state(text: &[u8]) -> bool
    ensures { IsTrue result ↔ IsState text.now }
{
    has_head(text) && has_entries(text)
}

/// Whether bytes begin as the text of a state, and there are as many as it says.
fn has_head(text: &[u8]) -> bool
    ensures { result ≡ has_head text.now }
{
    text.len() >= HEAD_BYTES
        && &text[..4] == b"QSS1".as_slice()
        && (text.len() - HEAD_BYTES) % ENTRY_BYTES == 0
        && ((text.len() - HEAD_BYTES) / ENTRY_BYTES) as u64 == word_at(text, 12)
}

/// Whether each entry is one.
fn has_entries(text: &[u8]) -> bool
    requires { head_bytes ≤ length text.now }
    ensures { IsTrue result ↔ AreEntries text.now }
{
    for i in 0..(text.len() - HEAD_BYTES) / ENTRY_BYTES {
        if !is_entry(text, i) {
            return false;
        }
    }
    true
}

/// Whether an entry says something, and comes after the one before it.
fn is_entry(text: &[u8], i: usize) -> bool
    requires { head_bytes + entry_bytes * (i + 1) ≤ length text.now }
    ensures { result ≡ is_entry text.now i }
{
    let at = HEAD_BYTES + ENTRY_BYTES * i;
    let flag = text[at + 24];
    let commit = word_at(text, at + 16);
    flag <= 1
        && (commit > 0 || flag == 1)
        && (i == 0 || is_before(mark_at(text, i - 1), mark_at(text, i)))
}

/// The mark of an entry.
fn mark_at(text: &[u8], i: usize) -> KeyMark
    requires { head_bytes + entry_bytes * (i + 1) ≤ length text.now }
    ensures { result ≡ mark_at text.now i }
{
    let at = HEAD_BYTES + ENTRY_BYTES * i;
    KeyMark {
        first: word_at(text, at),
        second: word_at(text, at + 8),
    }
}

/// Whether a mark comes before another.
fn is_before(a: KeyMark, b: KeyMark) -> bool
    ensures { result ≡ is_before a b }
{
    a.first < b.first || (a.first == b.first && a.second < b.second)
}

/// Eight bytes as a number, the high byte first.
fn word_at(bytes: &[u8], offset: usize) -> u64
    requires { offset + 8 ≤ length bytes.now }
    ensures { result ≡ word_at bytes.now offset }
{
    match <[u8; 8]>::try_from(&bytes[offset..offset + 8]) {
        Ok(word) => u64::from_be_bytes(word),
        Err(_) => unreachable!(),
    }
}
