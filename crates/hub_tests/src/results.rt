//! What no clause says of the results of queries: that they are answered by the kept texts, and worked
//! changes that outdate them.

use crate::acts::key;
use crate::hubs::{Asks, is_text, match_all, new_hub, write, write_all};
use hub_core::{Config, Hub};
use hub_model::{Commits, Outcome, Tags};
use q_base::{Moment, Name};
use q_doc::Doc;
use query_normal::Key;
use std::alloc::Global;
use std::test::Fail;

/// The key of the query for the first two documents of the collection shop.
const OBJECTS: &[u8] = b"q/shop/objects/f=true;o=;s=0;n=2";

/// The same of the query for their ids.
const IDS: &[u8] = b"q/shop/ids/f=true;o=;s=0;n=2";

/// Whether a query's result has this text, which may be kept, and is known by its commit after a
/// further one that does not change it.
fn is_queried(alloc: Global, hub: &mut Hub, key: &Key, text: &[u8]) -> Result<bool, Fail> {
    let mut tags = Commits::new(alloc);
    let first = hub.read(Moment::of(100), key, &Tags::Listed(tags.clone()?))?;
    write(alloc, hub, b'3', None, Asks::Nothing)?;
    tags.push(first.commit)?;
    let next = hub.read(Moment::of(100), key, &Tags::Listed(tags))?;
    let is_known = match next.result {
        Outcome::Same { tag, version: None } => tag == first.commit,
        _ => false,
    };
    Ok(first.ttl > 0 && is_text(alloc, &first.result, text)? && is_known)
}

#[test]
fn queries_are_answered_by_the_kept_texts(rt: HostRuntime) -> Result<(), Fail> {
    let alloc = rt.alloc();
    let mut hub = new_hub(alloc, Config::default())?;
    write_all(alloc, &mut hub, b"1")?;
    let objects = br#"[{"doc":{"a":1},"id":"p1","version":1}]"#;
    let key_of_objects = key(alloc, OBJECTS)?;
    assert!(rt; is_queried(alloc, &mut hub, &key_of_objects, objects)?);
    let key_of_ids = key(alloc, IDS)?;
    assert!(rt; is_queried(alloc, &mut hub, &key_of_ids, br#"["p1"]"#)?);
    Ok(())
}

/// Puts a document of this text to the record of a digit.
fn put(alloc: Global, hub: &mut Hub, digit: u8, text: &[u8]) -> Result<(), Fail> {
    let document = Doc::read(alloc, text)?;
    write(alloc, hub, digit, Some(document), Asks::Nothing)?;
    Ok(())
}

/// Reads a key at 100; whether the result has this text.
fn reads(alloc: Global, hub: &mut Hub, key: &Key, text: &[u8]) -> Result<bool, Fail> {
    let answer = hub.read(Moment::of(100), key, &Tags::Listed(Commits::new(alloc)))?;
    Ok(is_text(alloc, &answer.result, text)?)
}

/// Whether a key whose result is read is in the record after the match of a further put.
fn is_outdated(
    alloc: Global,
    hub: &mut Hub,
    key: &Key,
    digit: u8,
    text: &[u8],
) -> Result<bool, Fail> {
    hub.read(Moment::of(100), key, &Tags::Any)?;
    put(alloc, hub, digit, text)?;
    match_all(hub)?;
    Ok(hub.holds(key))
}

/// Whether a key is in the record after the match of the deletion of p1.
fn is_outdated_by_deletion(alloc: Global, hub: &mut Hub, key: &Key) -> Result<bool, Fail> {
    write(alloc, hub, b'1', None, Asks::Nothing)?;
    match_all(hub)?;
    Ok(hub.holds(key))
}

/// Whether a change of a document changes the objects of a result alone, and a deletion the ids.
fn are_shown(alloc: Global, hub: &mut Hub, objects: &Key, ids: &Key) -> Result<bool, Fail> {
    let first = reads(alloc, hub, ids, br#"["p1","p2"]"#)?;
    let changed = is_outdated(alloc, hub, objects, b'1', br#"{"a":2}"#)? && !hub.holds(ids);
    let deleted = is_outdated_by_deletion(alloc, hub, ids)?;
    Ok(first && changed && deleted && reads(alloc, hub, ids, br#"["p2"]"#)?)
}

#[test]
fn a_change_outdates_the_results_that_show_it(rt: HostRuntime) -> Result<(), Fail> {
    let alloc = rt.alloc();
    let mut hub = new_hub(alloc, Config::default())?;
    write_all(alloc, &mut hub, b"12")?;
    let objects = key(alloc, OBJECTS)?;
    let ids = key(alloc, IDS)?;
    assert!(rt; are_shown(alloc, &mut hub, &objects, &ids)?);
    Ok(())
}

/// Whether a document takes the room that the deletion of p1 leaves.
fn slides(alloc: Global, hub: &mut Hub, ids: &Key) -> Result<bool, Fail> {
    let first = reads(alloc, hub, ids, br#"["p1","p2"]"#)?;
    let outdated = is_outdated_by_deletion(alloc, hub, ids)?;
    Ok(first && outdated && reads(alloc, hub, ids, br#"["p2","p3"]"#)?)
}

#[test]
fn a_document_slides_into_a_window(rt: HostRuntime) -> Result<(), Fail> {
    let alloc = rt.alloc();
    let mut hub = new_hub(alloc, Config::default())?;
    write_all(alloc, &mut hub, b"123")?;
    let ids = key(alloc, IDS)?;
    assert!(rt; slides(alloc, &mut hub, &ids)?);
    Ok(())
}

/// Whether both copies of a result are outdated, although the last result is that of the first.
fn is_undone(alloc: Global, hub: &mut Hub, ids: &Key) -> Result<bool, Fail> {
    let none = reads(alloc, hub, ids, b"[]")?;
    write_all(alloc, hub, b"1")?;
    let one = reads(alloc, hub, ids, br#"["p1"]"#)?;
    Ok(none && one && is_outdated_by_deletion(alloc, hub, ids)?)
}

#[test]
fn a_change_that_is_undone_outdates_a_result(rt: HostRuntime) -> Result<(), Fail> {
    let alloc = rt.alloc();
    let mut hub = new_hub(alloc, Config::default())?;
    let ids = key(alloc, IDS)?;
    assert!(rt; is_undone(alloc, &mut hub, &ids)?);
    hub.tick(Moment::of(3_700));
    assert!(rt; !hub.holds(&ids));
    Ok(())
}

/// Puts the same document so many times.
fn put_often(alloc: Global, hub: &mut Hub, times: u32) -> Result<(), Fail> {
    for _ in 0..times {
        put(alloc, hub, b'1', br#"{"a":1}"#)?;
    }
    Ok(())
}

/// The last write matches the commits before it.
#[test]
fn a_write_is_helped_where_1024_commits_are_not_matched(rt: HostRuntime) -> Result<(), Fail> {
    let alloc = rt.alloc();
    let mut hub = new_hub(alloc, Config::default())?;
    let ids = key(alloc, IDS)?;
    assert!(rt; reads(alloc, &mut hub, &ids, b"[]")?);
    put_often(alloc, &mut hub, 1_024)?;
    assert!(rt; hub.front() == 0 && !hub.holds(&ids));
    put_often(alloc, &mut hub, 1)?;
    assert!(rt; hub.front() == 1_024 && hub.commits() == 1_025 && hub.holds(&ids));
    Ok(())
}
