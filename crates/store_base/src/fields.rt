//! What stands in a base: numbers, names and changes, each at the beginning of bytes.
ghost use Rattle.std.specs.Prelude.{◌≡◌, ◌<◌, ◌++◌, length, None, IfSome};
ghost use Rattle.std.specs.Int.{w32, w64, to_be_bytes};
ghost use Rattle.record_log.specs.Records.{named, document_in, change_in};
ghost use Rattle.store_base.specs.Read.{Gives};
ghost use Rattle.store_base.specs.Tails.{tail_in};
ghost use Rattle.store_base.specs.Texts.{row_start};

use crate::base::RecordName;
use commit_book::Change;
use q_base::{Name, NameRefusal};
use q_doc::{Doc, DocRefusal};
use std::alloc::Global;

/// Why something is not read.
#[derive(Clone, Copy, Debug, PartialEq, Eq)]
pub(crate) enum Unread {
    /// There is none.
    Bad,
    Memory,
}

/// What stands before a row's body.
#[derive(Clone, Copy, Debug, PartialEq, Eq)]
pub(crate) struct RowStart {
    pub commit: u64,
    pub clock: u64,
    pub size: u32,
}

/// Eight bytes as a number, the high byte first, and the bytes behind them.
pub(crate) fn take_u64(bytes: &[u8]) -> Option<(u64, &[u8])>
    ensures short { result ≡ None → length bytes.now < 8 }
    ensures number { IfSome result (λ taken. bytes.now ≡ to_be_bytes w64 taken.0 ++ taken.1.now) }
{
    let (number, rest) = bytes.split_first_chunk::<8>()?;
    Some((u64::from_be_bytes(*number), rest))
}

/// Four bytes as a number, the high byte first, and the bytes behind them.
fn take_u32(bytes: &[u8]) -> Option<(u32, &[u8])>
    ensures short { result ≡ None → length bytes.now < 4 }
    ensures number { IfSome result (λ taken. bytes.now ≡ to_be_bytes w32 taken.0 ++ taken.1.now) }
{
    let (number, rest) = bytes.split_first_chunk::<4>()?;
    Some((u32::from_be_bytes(*number), rest))
}

/// What stands before a row's body, and the bytes behind it.
pub(crate) fn row_start_in(bytes: &[u8]) -> Option<(RowStart, &[u8])>
    ensures short { result ≡ None → length bytes.now < 20 }
    ensures start { IfSome result (λ s. bytes.now ≡ row_start s.0.commit s.0.clock s.0.size ++ s.1.now) }
{
    let (commit, rest) = take_u64(bytes)?;
    let (clock, rest) = take_u64(rest)?;
    let (size, rest) = take_u32(rest)?;
    let start = RowStart {
        commit,
        clock,
        size,
    };
    Some((start, rest))
}

/// The change that a body spells, as a log does.
#[tactic(auto, unfolding(record_log::specs::Records::change_in))]
pub(crate) fn change_in(alloc: Global, body: &[u8]) -> Result<Change, Unread>
    ensures { Gives (λ c. c) result (change_in body.now) }
{
    let (collection, rest) = named(alloc, body)?;
    let (id, text) = named(alloc, rest)?;
    let document = document_in(alloc, text)?;
    Ok(Change {
        collection,
        id,
        document,
    })
}

/// The tail of a base, and the bytes behind it.
pub(crate) fn tail_in(alloc: Global, bytes: &[u8]) -> Result<(Option<RecordName>, &[u8]), Unread>
    ensures { Gives (λ t. (t.0, t.1.now)) result (tail_in bytes.now) }
{
    if let [0, 0, rest @ ..] = bytes {
        return Ok((None, rest));
    }
    let (collection, rest) = named(alloc, bytes)?;
    let (id, rest) = named(alloc, rest)?;
    Ok((Some(RecordName { collection, id }), rest))
}

/// The name that stands behind its length in one byte, and the bytes behind it.
fn named(alloc: Global, bytes: &[u8]) -> Result<(Name, &[u8]), Unread>
    ensures { Gives (λ x. (x.0, x.1.now)) result (named bytes.now) }
{
    let [size, rest @ ..] = bytes else {
        return Err(Unread::Bad);
    };
    let size = *size as usize;
    if rest.len() < size {
        return Err(Unread::Bad);
    }
    match Name::read(alloc, &rest[..size]) {
        Ok(name) => Ok((name, &rest[size..])),
        Err(NameRefusal::Memory) => Err(Unread::Memory),
        Err(_) => Err(Unread::Bad),
    }
}

/// The document that a text spells. No byte is no document.
fn document_in(alloc: Global, text: &[u8]) -> Result<Option<Doc>, Unread>
    ensures { Gives (λ d. d) result (document_in text.now) }
{
    if text.is_empty() {
        return Ok(None);
    }
    match Doc::read(alloc, text) {
        Ok(document) => Ok(Some(document)),
        Err(DocRefusal::Memory) => Err(Unread::Memory),
        Err(_) => Err(Unread::Bad),
    }
}
