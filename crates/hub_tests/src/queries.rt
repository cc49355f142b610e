//! Queries: worked histories of their results, whose answers come from the definitions, and readers that
//! know an earlier commit.

use crate::acts::{key, match_all, new_hub, purges, reads, write, write_all, write_and_match};
use hub_core::Hub;
use hub_model::{Commits, Outcome, Tags};
use q_base::{Commit, Moment};
use query_normal::Key;
use std::alloc::Global;
use std::test::Fail;

/// The ids of the documents whose a is 1.
const IDS_OF_ONE: &[u8] = b"q/shop/ids/f=a = 1;o=;s=0;n=100";

/// The ids of the documents by a.
const IDS_BY_A: &[u8] = b"q/shop/ids/f=true;o=a;s=0;n=100";

/// The documents whose a is 1.
const OBJECTS_OF_ONE: &[u8] = b"q/shop/objects/f=a = 1;o=;s=0;n=100";

/// The first two documents by a.
const FIRST_BY_A: &[u8] = b"q/shop/objects/f=true;o=a;s=0;n=2";

/// Five documents, of which a query for a = 1 has none.
const FIVE: &[(&[u8], &[u8])] = &[
    (b"p1", br#"{"a":0}"#),
    (b"p2", br#"{"a":0}"#),
    (b"p3", br#"{"a":0}"#),
    (b"p4", br#"{"a":0}"#),
    (b"p5", br#"{"a":0}"#),
];

/// The commits that a reader of a result lists, and the one by which it is told that it knows the result.
type Told = (&'static [Commit], Option<Commit>);

/// Behind seven commits, of which 6 makes one document the result of a query, and 7 none again.
const TOLD: &[Told] = &[
    (&[5], Some(5)),
    (&[6], None),
    (&[3, 5, 6], Some(5)),
    (&[6, 4], Some(4)),
    (&[2], Some(2)),
    (&[5, 7], Some(7)),
    (&[8], None),
    (&[], None),
];

/// By which commit a reader that lists these knows the result of a key at the last commit.
fn known(
    alloc: Global,
    hub: &mut Hub,
    key: &Key,
    listed: &[Commit],
) -> Result<(Commit, Option<Commit>), Fail> {
    let mut tags = Commits::new(alloc);
    for commit in listed {
        if !tags.is_full() {
            tags.push(*commit)?;
        }
    }
    let answer = hub.read(Moment::of(100), key, &Tags::Listed(tags))?;
    Ok(match answer.result {
        Outcome::Same { tag, .. } => (answer.commit, Some(tag)),
        Outcome::Whole { .. } | Outcome::Absent => (answer.commit, None),
    })
}

/// Whether each reader is told at commit 7 what it knows.
fn are_told(alloc: Global, hub: &mut Hub, key: &Key, cases: &[Told]) -> Result<bool, Fail> {
    for (listed, tag) in cases {
        if known(alloc, hub, key, listed)? != (7, *tag) {
            return Ok(false);
        }
    }
    Ok(true)
}

/// Whether the seven commits are made, with a read behind the fifth and the sixth.
fn is_undone(alloc: Global, hub: &mut Hub, ids: &Key) -> Result<bool, Fail> {
    write_all(alloc, hub, FIVE)?;
    let none = reads(alloc, hub, ids, b"[]")?;
    write(alloc, hub, b"p1", br#"{"a":1}"#)?;
    let one = reads(alloc, hub, ids, br#"["p1"]"#)?;
    write(alloc, hub, b"p1", br#"{"a":0}"#)?;
    Ok(none && one)
}

/// The results at 5 and 7 are equal, and both copies are outdated.
#[test]
fn an_earlier_commit_is_known_by_an_equal_result(rt: HostRuntime) -> Result<(), Fail> {
    let alloc = rt.alloc();
    let mut hub = new_hub(alloc)?;
    let ids = key(alloc, IDS_OF_ONE)?;
    assert!(rt; is_undone(alloc, &mut hub, &ids)?);
    assert!(rt; are_told(alloc, &mut hub, &ids, TOLD)?);
    match_all(&mut hub)?;
    assert!(rt; hub.holds(&ids));
    assert!(rt; are_told(alloc, &mut hub, &ids, TOLD)?);
    Ok(())
}

/// Whether a member that a query does not ask for outdates its objects, and not its ids.
fn is_told_apart(alloc: Global, hub: &mut Hub, ids: &Key, objects: &Key) -> Result<bool, Fail> {
    let first = reads(alloc, hub, ids, br#"["p1","p2"]"#)?;
    let both =
        br#"[{"doc":{"a":1,"b":0},"id":"p1","version":1},{"doc":{"a":1,"b":0},"id":"p2","version":2}]"#;
    let second = reads(alloc, hub, objects, both)?;
    write_and_match(alloc, hub, b"p1", br#"{"a":1,"b":5}"#)?;
    Ok(first && second && hub.holds(objects) && !hub.holds(ids))
}

#[test]
fn a_member_beside_the_condition_outdates_objects_alone(rt: HostRuntime) -> Result<(), Fail> {
    let alloc = rt.alloc();
    let mut hub = new_hub(alloc)?;
    write(alloc, &mut hub, b"p1", br#"{"a":1,"b":0}"#)?;
    write(alloc, &mut hub, b"p2", br#"{"a":1,"b":0}"#)?;
    let ids = key(alloc, IDS_OF_ONE)?;
    let objects = key(alloc, OBJECTS_OF_ONE)?;
    assert!(rt; is_told_apart(alloc, &mut hub, &ids, &objects)?);
    Ok(())
}

/// Whether the purges from the first on are this key alone, and the front is there.
fn is_purged(hub: &mut Hub, key: &Key, front: Commit) -> Result<bool, Fail> {
    let reply = hub.purges(Moment::of(100), 1)?;
    let is_key = match reply.keys.as_slice() {
        [purged] => purged == key,
        _ => false,
    };
    Ok(is_key && reply.last == 1 && reply.front == front)
}

/// Whether a deletion among the first two purges their query once, and lets the third slide in.
fn slides(alloc: Global, hub: &mut Hub, first: &Key) -> Result<bool, Fail> {
    let both = br#"[{"doc":{"a":1},"id":"p1","version":1},{"doc":{"a":2},"id":"p2","version":2}]"#;
    let read = reads(alloc, hub, first, both)?;
    write_and_match(alloc, hub, b"p1", b"")?;
    let purged = hub.holds(first) && is_purged(hub, first, 4)?;
    write_and_match(alloc, hub, b"p2", br#"{"a":2}"#)?;
    Ok(read && purged && is_purged(hub, first, 5)?)
}

#[test]
fn a_deletion_purges_a_window_once(rt: HostRuntime) -> Result<(), Fail> {
    let alloc = rt.alloc();
    let mut hub = new_hub(alloc)?;
    write(alloc, &mut hub, b"p1", br#"{"a":1}"#)?;
    write(alloc, &mut hub, b"p2", br#"{"a":2}"#)?;
    write(alloc, &mut hub, b"p3", br#"{"a":3}"#)?;
    let first = key(alloc, FIRST_BY_A)?;
    assert!(rt; slides(alloc, &mut hub, &first)?);
    let behind =
        br#"[{"doc":{"a":2},"id":"p2","version":5},{"doc":{"a":3},"id":"p3","version":3}]"#;
    assert!(rt; reads(alloc, &mut hub, &first, behind)?);
    Ok(())
}

/// Whether a document that changes places outdates the ids.
fn moves(alloc: Global, hub: &mut Hub, ids: &Key) -> Result<bool, Fail> {
    let before = reads(alloc, hub, ids, br#"["p1","p2"]"#)?;
    write_and_match(alloc, hub, b"p1", br#"{"a":2}"#)?;
    let moved = hub.holds(ids) && purges(hub)? == 1;
    Ok(before && moved && reads(alloc, hub, ids, br#"["p2","p1"]"#)?)
}

#[test]
fn a_document_that_moves_outdates_the_ids(rt: HostRuntime) -> Result<(), Fail> {
    let alloc = rt.alloc();
    let mut hub = new_hub(alloc)?;
    write(alloc, &mut hub, b"p1", br#"{"a":1}"#)?;
    write(alloc, &mut hub, b"p2", br#"{"a":1}"#)?;
    let ids = key(alloc, IDS_BY_A)?;
    assert!(rt; moves(alloc, &mut hub, &ids)?);
    Ok(())
}

/// A document whose one text has 65,528 letters, as the greatest that may be put has.
fn long_text(alloc: Global) -> Result<Vec<u8>, Fail> {
    let mut text = Vec::new(alloc);
    text.extend_from_slice(br#"{"a":""#)?;
    for _ in 0..65_528 {
        text.push(b'x')?;
    }
    text.extend_from_slice(br#""}"#)?;
    Ok(text)
}

/// The result of two such documents.
fn long_result(alloc: Global, document: &[u8]) -> Result<Vec<u8>, Fail> {
    let mut text = Vec::new(alloc);
    text.extend_from_slice(br#"[{"doc":"#)?;
    text.extend_from_slice(document)?;
    text.extend_from_slice(br#","id":"p1","version":1},{"doc":"#)?;
    text.extend_from_slice(document)?;
    text.extend_from_slice(br#","id":"p2","version":2}]"#)?;
    Ok(text)
}

#[test]
fn a_result_is_longer_than_any_document(rt: HostRuntime) -> Result<(), Fail> {
    let alloc = rt.alloc();
    let mut hub = new_hub(alloc)?;
    let document = long_text(alloc)?;
    write(alloc, &mut hub, b"p1", &document)?;
    write(alloc, &mut hub, b"p2", &document)?;
    let objects = key(alloc, b"q/shop/objects/f=true;o=;s=0;n=100")?;
    let result = long_result(alloc, &document)?;
    assert!(rt; result.len() == 131_135);
    assert!(rt; reads(alloc, &mut hub, &objects, &result)?);
    Ok(())
}
