//! Lifetimes of replies, and purges: worked histories, whose answers come from the definitions.

use crate::acts::{has_few, key};
use hub_core::{Config, Hub};
use hub_model::{Change, Commits, Condition, Tags};
use q_base::{Moment, Name};
use q_doc::Doc;
use query_normal::Key;
use std::alloc::Global;
use std::test::Fail;

/// The key of the query for all documents of the collection shop.
const ALL: &[u8] = b"q/shop/objects/f=true;o=;s=0;n=100";

/// A new hub with these least and greatest lifetimes, and so many active keys, in a box, so that letting it
/// go is one call wherever a function may end.
fn new_hub(alloc: Global, low: u32, high: u32, active: u32) -> Result<Box<Hub>, Fail> {
    let config = Config::new(10, 6, low, high, active, 65_792)?;
    Ok(Box::new(alloc, Hub::new(alloc, config)?)?)
}

/// A new hub whose lifetimes are all 60 seconds, but as these say of absent records and for shared caches.
fn new_hub_with(alloc: Global, active: u32, absent: u32, shared: u32) -> Result<Box<Hub>, Fail> {
    let config = Config::new(10, 6, 60, 60, active, 65_792)?.with_ttls(absent, shared)?;
    Ok(Box::new(alloc, Hub::new(alloc, config)?)?)
}

/// Puts a document of the collection shop at a second.
fn put(alloc: Global, hub: &mut Hub, second: u64, id: &[u8], text: &[u8]) -> Result<(), Fail> {
    let change = Change {
        collection: Name::read(alloc, b"shop")?,
        id: Name::read(alloc, id)?,
        document: Some(Doc::read(alloc, text)?),
    };
    has_few(hub)?;
    hub.write(Moment::of(second), &change, &Condition::Always)?;
    Ok(())
}

/// Matches all commits at a second.
fn match_all(hub: &mut Hub, second: u64) -> Result<(), Fail> {
    let to = hub.commits();
    if hub.front() < to {
        hub.match_to(Moment::of(second), to)?;
    }
    Ok(())
}

/// The key of a record of the collection shop.
fn record_key(alloc: Global, id: &[u8]) -> Result<Key, Fail> {
    let collection = Name::read(alloc, b"shop")?;
    Ok(Key::record(alloc, collection, Name::read(alloc, id)?)?)
}

/// The lifetime of a reply for a key at a second.
fn lifetime(alloc: Global, hub: &mut Hub, second: u64, key: &Key) -> Result<u32, Fail> {
    let tags = Tags::Listed(Commits::new(alloc));
    Ok(hub.read(Moment::of(second), key, &tags)?.ttl)
}

/// The lifetime of a reply for a record.
fn record_lifetime(alloc: Global, hub: &mut Hub, second: u64, id: &[u8]) -> Result<u32, Fail> {
    lifetime(alloc, hub, second, &record_key(alloc, id)?)
}

/// Puts p1 at 100, 200 and 300, and p2 at 100.
fn put_four(alloc: Global, hub: &mut Hub) -> Result<(), Fail> {
    put(alloc, hub, 100, b"p1", br#"{"a":1}"#)?;
    put(alloc, hub, 100, b"p2", br#"{"a":1}"#)?;
    put(alloc, hub, 200, b"p1", br#"{"a":2}"#)?;
    put(alloc, hub, 300, b"p1", br#"{"a":3}"#)
}

#[test]
fn lifetimes_follow_the_writes_of_a_record(rt: HostRuntime) -> Result<(), Fail> {
    let alloc = rt.alloc();
    let mut hub = new_hub(alloc, 1, 3_600, 10)?;
    put_four(alloc, &mut hub)?;
    assert_eq!(rt; record_lifetime(alloc, &mut hub, 400, b"p1")?, 69);
    assert_eq!(rt; record_lifetime(alloc, &mut hub, 400, b"p2")?, 207);
    assert_eq!(rt; record_lifetime(alloc, &mut hub, 400, b"p3")?, 3_600);
    let mut none = new_hub(alloc, 1, 3_600, 0)?;
    assert_eq!(rt; record_lifetime(alloc, &mut none, 400, b"p3")?, 0);
    Ok(())
}

#[test]
fn absent_keys_take_a_quarter_of_the_places(rt: HostRuntime) -> Result<(), Fail> {
    let alloc = rt.alloc();
    let mut hub = new_hub_with(alloc, 7, 30, 0)?;
    put(alloc, &mut hub, 100, b"p1", br#"{"a":1}"#)?;
    // Of seven places one goes to an absent key. It keeps it, and another absent key gets none.
    assert_eq!(rt; record_lifetime(alloc, &mut hub, 100, b"p2")?, 30);
    assert_eq!(rt; record_lifetime(alloc, &mut hub, 101, b"p3")?, 0);
    assert_eq!(rt; record_lifetime(alloc, &mut hub, 102, b"p2")?, 30);
    // A present one does, and so does a query.
    assert_eq!(rt; record_lifetime(alloc, &mut hub, 102, b"p1")?, 60);
    let all = key(alloc, ALL)?;
    assert_eq!(rt; lifetime(alloc, &mut hub, 102, &all)?, 60);
    // The last copy of p2 expires at 132, and its place is free.
    assert_eq!(rt; record_lifetime(alloc, &mut hub, 131, b"p3")?, 0);
    assert_eq!(rt; record_lifetime(alloc, &mut hub, 132, b"p3")?, 30);
    assert_eq!(rt; record_lifetime(alloc, &mut hub, 132, b"p2")?, 0);
    // As a document p3 has the longer lifetime, and its absent copy has its place until 162 still.
    put(alloc, &mut hub, 140, b"p3", br#"{"a":1}"#)?;
    assert_eq!(rt; record_lifetime(alloc, &mut hub, 140, b"p3")?, 60);
    assert_eq!(rt; record_lifetime(alloc, &mut hub, 161, b"p2")?, 0);
    assert_eq!(rt; record_lifetime(alloc, &mut hub, 162, b"p2")?, 30);
    Ok(())
}

#[test]
fn absent_keys_are_as_others_where_nothing_is_said(rt: HostRuntime) -> Result<(), Fail> {
    let alloc = rt.alloc();
    let mut hub = new_hub_with(alloc, 3, 0, 0)?;
    assert_eq!(rt; record_lifetime(alloc, &mut hub, 100, b"p1")?, 60);
    assert_eq!(rt; record_lifetime(alloc, &mut hub, 100, b"p2")?, 60);
    assert_eq!(rt; record_lifetime(alloc, &mut hub, 100, b"p3")?, 60);
    assert_eq!(rt; record_lifetime(alloc, &mut hub, 100, b"p4")?, 0);
    Ok(())
}

/// Whether the record of a hub has p1 at a second.
fn is_recorded(alloc: Global, hub: &mut Hub, second: u64) -> Result<bool, Fail> {
    hub.tick(Moment::of(second));
    Ok(hub.holds(&record_key(alloc, b"p1")?))
}

#[test]
fn a_shared_copy_is_recorded_as_long_as_it_may_be_kept(rt: HostRuntime) -> Result<(), Fail> {
    let alloc = rt.alloc();
    let rows = [(0, 160), (20, 160), (90, 190)];
    for (shared, end) in rows {
        let mut hub = new_hub_with(alloc, 10, 0, shared)?;
        put(alloc, &mut hub, 100, b"p1", br#"{"a":1}"#)?;
        // The second read changes nothing.
        for _ in 0..2 {
            let tags = Tags::Listed(Commits::new(alloc));
            let answer = hub.read(Moment::of(100), &record_key(alloc, b"p1")?, &tags)?;
            assert_eq!(rt; answer.ttl, 60);
            assert_eq!(rt; answer.shared, shared);
        }
        put(alloc, &mut hub, 110, b"p1", br#"{"a":2}"#)?;
        match_all(&mut hub, 110)?;
        assert!(rt; is_recorded(alloc, &mut hub, end - 1)?);
        assert!(rt; !is_recorded(alloc, &mut hub, end)?);
    }
    let mut none = new_hub_with(alloc, 0, 0, 90)?;
    let tags = Tags::Listed(Commits::new(alloc));
    assert_eq!(rt;
        none.read(Moment::of(100), &record_key(alloc, b"p1")?, &tags)?
            .shared,
        0
    );
    Ok(())
}

#[test]
fn lifetimes_are_at_most_a_year(rt: HostRuntime) -> Result<(), Fail> {
    assert!(rt; Config::default().with_ttls(31_536_000, 31_536_000).is_ok());
    assert!(rt; Config::default().with_ttls(31_536_001, 0).is_err());
    assert!(rt; Config::default().with_ttls(0, 31_536_001).is_err());
    Ok(())
}

#[test]
fn the_estimate_of_a_query_learns_from_a_purge(rt: HostRuntime) -> Result<(), Fail> {
    let alloc = rt.alloc();
    let mut hub = new_hub(alloc, 1, 3_600, 10)?;
    let key = key(alloc, ALL)?;
    put_four(alloc, &mut hub)?;
    assert_eq!(rt; lifetime(alloc, &mut hub, 400, &key)?, 51);
    put(alloc, &mut hub, 420, b"p2", br#"{"a":4}"#)?;
    match_all(&mut hub, 420)?;
    // The mean of 51 and 20, seven to three; it stays until the copies expire.
    assert_eq!(rt; lifetime(alloc, &mut hub, 420, &key)?, 41);
    assert_eq!(rt; lifetime(alloc, &mut hub, 430, &key)?, 41);
    assert!(rt; lifetime(alloc, &mut hub, 471, &key)? != 41);
    Ok(())
}

/// How many purges there are, and how many of them are told from a number on.
fn purged(hub: &mut Hub, from: u64) -> Result<(u64, usize), Fail> {
    let reply = hub.purges(Moment::of(100), from)?;
    Ok((reply.last, reply.keys.len()))
}

/// Puts another document as p1, and matches it.
fn change(alloc: Global, hub: &mut Hub, text: &[u8]) -> Result<(), Fail> {
    put(alloc, hub, 100, b"p1", text)?;
    match_all(hub, 100)
}

#[test]
fn a_key_is_purged_once_for_the_same_copies(rt: HostRuntime) -> Result<(), Fail> {
    let alloc = rt.alloc();
    let mut hub = new_hub(alloc, 60, 60, 10)?;
    assert!(rt; purged(&mut hub, 1)? == (0, 0));
    put(alloc, &mut hub, 100, b"p1", br#"{"a":1}"#)?;
    record_lifetime(alloc, &mut hub, 100, b"p1")?;
    change(alloc, &mut hub, br#"{"a":2}"#)?;
    assert!(rt; purged(&mut hub, 0)? == (1, 1));
    // The copy is outdated already.
    change(alloc, &mut hub, br#"{"a":3}"#)?;
    assert!(rt; purged(&mut hub, 1)? == (1, 1));
    // A newer one is not.
    record_lifetime(alloc, &mut hub, 100, b"p1")?;
    change(alloc, &mut hub, br#"{"a":4}"#)?;
    assert!(rt; purged(&mut hub, 1)? == (2, 2));
    assert!(rt; purged(&mut hub, 2)? == (2, 1));
    assert!(rt; purged(&mut hub, 3)? == (2, 0));
    Ok(())
}
