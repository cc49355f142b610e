//! What a record says, and reading it from its kind, its clock and its body.
ghost use Rattle.std.specs.Prelude.{◌≡◌, Some};
ghost use Rattle.record_log.specs.Read.{Gives};
ghost use Rattle.record_log.specs.Records.{named, document_in, change_in, record_by, record_of};

use commit_book::Change;
use q_base::{GREATEST_SECONDS, Name, NameRefusal};
use q_doc::{Doc, DocRefusal};
use std::alloc::Global;

/// The latest clock of a record, in seconds since 1970: a moment is kept up to a minute ahead.
pub const GREATEST_CLOCK: u64 = GREATEST_SECONDS + 60;

/// The kind of a commit.
pub const COMMIT: u8 = 1;

/// The kind of a kept moment.
pub const MOMENT: u8 = 2;

/// What a record says.
#[derive(Drop)]
pub enum LogRecord {
    /// This change is a commit.
    Commit {
        /// When the commit was made, in seconds since 1970.
        clock: u64,
        change: Change,
    },
    /// No read is answered at this clock or later before a later moment is kept.
    Moment {
        /// In seconds since 1970.
        clock: u64,
    },
}

/// Why a record is not read.
#[derive(Clone, Copy, Debug, PartialEq, Eq)]
pub(crate) enum Unread {
    /// There is none.
    Bad,
    Memory,
}

/// What a record of this kind and this clock says.
#[tactic(auto, unfolding(crate::specs::Records::record_of, crate::specs::Records::record_by))]
pub(crate) fn record_in(
    alloc: Global,
    kind: u8,
    clock: u64,
    body: &[u8],
) -> Result<LogRecord, Unread>
    ensures { Gives (λ r. r) result (record_of (record { kind = kind; clock = clock; body = body.now })) }
{
    if clock > GREATEST_CLOCK {
        return Err(Unread::Bad);
    }
    if kind == COMMIT {
        let change = change_in(alloc, body)?;
        return Ok(LogRecord::Commit { clock, change });
    }
    if kind == MOMENT && body.is_empty() {
        return Ok(LogRecord::Moment { clock });
    }
    Err(Unread::Bad)
}

/// The change that a body spells.
#[tactic(auto, unfolding(crate::specs::Records::change_in))]
fn change_in(alloc: Global, body: &[u8]) -> Result<Change, Unread>
    ensures { Gives (λ c. c) result (change_in body.now) }
{
    let (collection, rest) = named(alloc, body)?;
    let (id, text) = named(alloc, rest)?;
    let document = document_in(alloc, text)?;
    Ok(Change {
        collection,
        id,
        document,
    })
}

/// The name that stands behind its length in one byte, and the bytes behind it.
fn named(alloc: Global, bytes: &[u8]) -> Result<(Name, &[u8]), Unread>
    ensures { Gives (λ x. (x.0, x.1.now)) result (named bytes.now) }
{
    let [size, rest @ ..] = bytes else {
        return Err(Unread::Bad);
    };
    let size = *size as usize;
    if rest.len() < size {
        return Err(Unread::Bad);
    }
    match Name::read(alloc, &rest[..size]) {
        Ok(name) => Ok((name, &rest[size..])),
        Err(NameRefusal::Memory) => Err(Unread::Memory),
        Err(_) => Err(Unread::Bad),
    }
}

/// The document that a text spells. No byte is no document.
fn document_in(alloc: Global, text: &[u8]) -> Result<Option<Doc>, Unread>
    ensures { Gives (λ d. d) result (document_in text.now) }
{
    if text.is_empty() {
        return Ok(None);
    }
    match Doc::read(alloc, text) {
        Ok(document) => Ok(Some(document)),
        Err(DocRefusal::Memory) => Err(Unread::Memory),
        Err(_) => Err(Unread::Bad),
    }
}
