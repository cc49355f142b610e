//! Drops of old changes: worked histories, whose answers come from the definitions.

use crate::acts::{has_few, key, match_all, new_hub, reads, write, write_all};
use hub_core::{Config, Hub};
use hub_model::{Change, Commits, Condition, Found, Outcome, Tags, Written};
use q_base::{Commit, Moment, Name};
use q_doc::Doc;
use std::alloc::Global;
use std::test::Fail;

/// Matches all commits, and drops the changes up to the last; whether that is told, and the kept bytes.
fn drops_all(hub: &mut Hub, bytes: u64) -> Result<bool, Fail> {
    match_all(hub)?;
    let to = hub.front();
    if to <= hub.horizon() {
        return Ok(false);
    }
    let dropped = hub.drop_to(Moment::of(100), to);
    Ok(
        dropped.horizon == to
            && dropped.clock.seconds() == 100
            && hub.horizon() == to
            && hub.bytes() == bytes,
    )
}

/// What the reply to a put of `{"a":1}` says.
fn put(alloc: Global, hub: &mut Hub, id: &[u8]) -> Result<Written, Fail> {
    let change = Change {
        collection: Name::read(alloc, b"shop")?,
        id: Name::read(alloc, id)?,
        document: Some(Doc::read(alloc, br#"{"a":1}"#)?),
    };
    has_few(hub)?;
    Ok(hub.write(Moment::of(100), &change, &Condition::Always)?)
}

/// Whether a put of a record is this commit, and found this.
fn is_done(alloc: Global, hub: &mut Hub, id: &[u8], want: (Commit, Found)) -> Result<bool, Fail> {
    Ok(match put(alloc, hub, id)? {
        Written::Done { commit, before, .. } => (commit, before) == want,
        Written::Precondition { .. } | Written::Full { .. } => false,
    })
}

/// Whether a put of a record is refused, since with it so many bytes would be kept.
fn is_full(alloc: Global, hub: &mut Hub, id: &[u8], want: u64) -> Result<bool, Fail> {
    Ok(match put(alloc, hub, id)? {
        Written::Full { bytes, .. } => bytes == want,
        Written::Done { .. } | Written::Precondition { .. } => false,
    })
}

/// Puts a document whose change takes 65,606 bytes.
fn put_large(alloc: Global, hub: &mut Hub) -> Result<(), Fail> {
    let mut text = Vec::new(alloc);
    text.extend_from_slice(br#"{"a":""#)?;
    for _ in 0..65_528 {
        text.push(b'x')?;
    }
    text.extend_from_slice(br#""}"#)?;
    write(alloc, hub, b"p1", &text)
}

#[test]
fn a_full_store_takes_writes_behind_a_drop(rt: HostRuntime) -> Result<(), Fail> {
    let alloc = rt.alloc();
    let config = Config::new(10, 6, 1, 3_600, 10_000, 65_792)?;
    let mut hub = Box::new(alloc, Hub::new(alloc, config)?)?;
    put_large(alloc, &mut hub)?;
    assert!(rt; is_done(alloc, &mut hub, b"p2", (2, Found::Missing))?);
    assert!(rt; is_done(alloc, &mut hub, b"p2", (3, Found::At(2)))?);
    assert!(rt; is_full(alloc, &mut hub, b"p2", 65_837)?);
    // The change that commit 3 replaced is gone, and the two documents that live are kept.
    assert!(rt; drops_all(&mut hub, 65_683)?);
    assert!(rt; is_done(alloc, &mut hub, b"p2", (4, Found::At(3)))?);
    Ok(())
}

/// Whether a reader of a key that lists a commit is told that it knows the result.
fn knows(alloc: Global, hub: &mut Hub, text: &[u8], commit: Commit) -> Result<bool, Fail> {
    let key = key(alloc, text)?;
    let mut tags = Commits::new(alloc);
    if !tags.is_full() {
        tags.push(commit)?;
    }
    let answer = hub.read(Moment::of(100), &key, &Tags::Listed(tags))?;
    Ok(match answer.result {
        Outcome::Same { tag, .. } => tag == commit,
        Outcome::Whole { .. } | Outcome::Absent => false,
    })
}

/// The ids of the documents of the collection shop whose `a` is above 0.
const ABOVE_ZERO: &[u8] = b"q/shop/ids/f=a > 0;o=;s=0;n=100";

#[test]
fn a_tag_below_the_horizon_is_not_known(rt: HostRuntime) -> Result<(), Fail> {
    let alloc = rt.alloc();
    let mut hub = new_hub(alloc)?;
    for id in [b"p1", b"p2", b"p2", b"p1", b"p2", b"p2", b"p2"] {
        write(alloc, &mut hub, id, br#"{"a":1}"#)?;
    }
    assert!(rt; knows(alloc, &mut hub, b"r/shop/p1", 5)?);
    assert!(rt; knows(alloc, &mut hub, ABOVE_ZERO, 5)?);
    assert!(rt; drops_all(&mut hub, 154)?);
    assert!(rt; !knows(alloc, &mut hub, b"r/shop/p1", 5)?);
    assert!(rt; knows(alloc, &mut hub, b"r/shop/p1", 7)?);
    assert!(rt; !knows(alloc, &mut hub, ABOVE_ZERO, 5)?);
    assert!(rt; knows(alloc, &mut hub, ABOVE_ZERO, 7)?);
    Ok(())
}

#[test]
fn what_lives_is_read_behind_a_drop(rt: HostRuntime) -> Result<(), Fail> {
    let alloc = rt.alloc();
    let mut hub = new_hub(alloc)?;
    let record = key(alloc, b"r/shop/p2")?;
    let query = key(alloc, ABOVE_ZERO)?;
    write_all(
        alloc,
        &mut hub,
        &[
            (b"p1", br#"{"a":1}"#),
            (b"p2", br#"{"a":2}"#),
            (b"p3", br#"{"a":3}"#),
            (b"p3", b""),
            (b"p2", br#"{"a":4}"#),
        ],
    )?;
    // Of p3 nothing is kept, and the query starts from what is.
    assert!(rt; drops_all(&mut hub, 154)?);
    assert!(rt; reads(alloc, &mut hub, &record, br#"{"a":4}"#)?);
    assert!(rt; reads(alloc, &mut hub, &query, br#"["p1","p2"]"#)?);
    // A record that was dropped whole comes again, and what is put behind the horizon is seen.
    assert!(rt; is_done(alloc, &mut hub, b"p3", (6, Found::Missing))?);
    assert!(rt; reads(alloc, &mut hub, &query, br#"["p1","p2","p3"]"#)?);
    // A second drop goes on from the first.
    write(alloc, &mut hub, b"p1", b"")?;
    assert!(rt; drops_all(&mut hub, 154)?);
    assert!(rt; reads(alloc, &mut hub, &query, br#"["p2","p3"]"#)?);
    assert!(rt; is_done(alloc, &mut hub, b"p1", (8, Found::Missing))?);
    Ok(())
}
