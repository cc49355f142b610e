//! What the tests of queries, lifetimes and drops do to a hub: each function does one thing. Keys are
//! written as texts.
ghost use Rattle.std.specs.Prelude.{◌+◌, ◌^◌, ◌<◌, OnOk};

use hub_core::{Config, Hub};
use hub_model::{Change, Commits, Condition, Outcome, Tags};
use q_base::{Memory, Moment, Name};
use q_doc::Doc;
use query_lang::read_key;
use query_normal::Key;
use std::alloc::Global;
use std::test::Fail;

/// A new hub whose replies may be kept for a minute, in a box, so that letting it go is one call wherever
/// a function may end.
pub fn new_hub(alloc: Global) -> Result<Box<Hub>, Fail> {
    let config = Config::new(17, 6, 60, 60, 10_000, 134_217_728)?;
    Ok(Box::new(alloc, Hub::new(alloc, config)?)?)
}

/// The key of a text.
pub fn key(alloc: Global, text: &[u8]) -> Result<Box<Key>, Fail> {
    Ok(Box::new(alloc, read_key(alloc, text)?)?)
}

/// The document of a text; an empty text is a deletion.
fn document(alloc: Global, text: &[u8]) -> Result<Option<Doc>, Fail> {
    if text.is_empty() {
        Ok(None)
    } else {
        Ok(Some(Doc::read(alloc, text)?))
    }
}

/// That there are so few commits that there is a number for the next. No test makes as many as that.
pub fn has_few(hub: &Hub) -> Result<(), Memory>
    ensures { OnOk result (hub.now.commits + 1 < 2 ^ 64) }
{
    if hub.commits() > 9_999 {
        return Err(Memory);
    }
    Ok(())
}

/// Changes a record of the collection shop; an empty text is a deletion.
pub fn write(alloc: Global, hub: &mut Hub, id: &[u8], text: &[u8]) -> Result<(), Fail> {
    let change = Change {
        collection: Name::read(alloc, b"shop")?,
        id: Name::read(alloc, id)?,
        document: document(alloc, text)?,
    };
    has_few(hub)?;
    hub.write(Moment::of(100), &change, &Condition::Always)?;
    Ok(())
}

/// Changes a record, and matches all commits.
pub fn write_and_match(alloc: Global, hub: &mut Hub, id: &[u8], text: &[u8]) -> Result<(), Fail> {
    write(alloc, hub, id, text)?;
    match_all(hub)
}

/// Changes records in turn, each by its id and text.
pub fn write_all(
    alloc: Global,
    hub: &mut Hub,
    writes: &[(&'static [u8], &'static [u8])],
) -> Result<(), Fail> {
    for (id, text) in writes {
        write(alloc, hub, id, text)?;
    }
    Ok(())
}

/// Matches all commits, where the front is behind.
pub fn match_all(hub: &mut Hub) -> Result<(), Fail> {
    let to = hub.commits();
    if hub.front() < to {
        hub.match_to(Moment::of(100), to)?;
    }
    Ok(())
}

/// Whether the result of a key is read as this text.
pub fn reads(alloc: Global, hub: &mut Hub, key: &Key, text: &[u8]) -> Result<bool, Fail> {
    let answer = hub.read(Moment::of(100), key, &Tags::Listed(Commits::new(alloc)))?;
    Ok(is_text(alloc, &answer.result, text)?)
}

/// Whether the outcome is a result of this text.
fn is_text(alloc: Global, outcome: &Outcome, text: &[u8]) -> Result<bool, Memory> {
    match outcome {
        Outcome::Whole { text: found, .. } => Ok(found.to_shared(alloc)?.as_slice() == text),
        Outcome::Same { .. } | Outcome::Absent => Ok(false),
    }
}

/// How many purges there are.
pub fn purges(hub: &mut Hub) -> Result<u64, Fail> {
    Ok(hub.purges(Moment::of(100), 1)?.last)
}
