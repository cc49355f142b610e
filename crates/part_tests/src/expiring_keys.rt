//! What no clause says: that calls succeed where there is memory.

use expiring_map::ExpiringMap;
use q_base::{Moment, Name};
use query_normal::Key;
use std::alloc::Global;
use std::test::Fail;

/// The key of r/shop/p1.
fn record_key(alloc: Global) -> Result<Key, Fail> {
    let collection = Name::read(alloc, b"shop")?;
    let id = Name::read(alloc, b"p1")?;
    Ok(Key::record(alloc, collection, id)?)
}

#[test]
fn a_reserved_key_is_added_where_there_is_memory(rt: HostRuntime) -> Result<(), Fail> {
    let key = record_key(rt.alloc())?;
    let mut map = ExpiringMap::<u8>::new(rt.alloc());
    map.reserve(&key)?;
    if !map.contains(&key) && map.reserves(&key) {
        map.put(&key, 10, 7);
    }
    assert!(rt; map.next_expired(Moment::of(9)).is_none());
    assert!(rt; map.next_expired(Moment::of(10)).is_some());
    assert!(rt; map.next_expired(Moment::of(10)).is_none());
    Ok(())
}
