//! What no clause says: that calls succeed where there is memory.

use purge_list::{LastChanges, Purges, sort_by_text};
use q_base::Name;
use query_normal::Key;
use std::alloc::Global;
use std::test::Fail;

fn key(alloc: Global, id: &[u8]) -> Result<Key, Fail> {
    let collection = Name::read(alloc, b"shop")?;
    let id = Name::read(alloc, id)?;
    Ok(Key::record(alloc, collection, id)?)
}

fn two_keys(alloc: Global) -> Result<Vec<Key>, Fail> {
    let mut keys = Vec::new(alloc);
    keys.push(key(alloc, b"p2")?)?;
    keys.push(key(alloc, b"p1")?)?;
    Ok(keys)
}

#[test]
fn a_purge_is_listed_where_there_is_memory(rt: HostRuntime) -> Result<(), Fail> {
    let mut purges = Purges::new(rt.alloc());
    purges.reserve(1)?;
    purges.push(key(rt.alloc(), b"p1")?);
    assert_eq!(rt; purges.last(), 1);
    assert_eq!(rt; purges.after(rt.alloc(), 1, 1000)?.len(), 1);
    assert_eq!(rt; purges.after(rt.alloc(), 2, 1000)?.len(), 0);
    Ok(())
}

#[test]
fn keys_are_sorted_where_there_is_memory(rt: HostRuntime) -> Result<(), Fail> {
    let mut keys = two_keys(rt.alloc())?;
    sort_by_text(&mut keys)?;
    assert_eq!(rt; keys.first().map(Key::text), Some(b"r/shop/p1".as_slice()));
    Ok(())
}

#[test]
fn a_last_change_is_kept_where_there_is_memory(rt: HostRuntime) -> Result<(), Fail> {
    let mut changes = LastChanges::new(rt.alloc());
    let key = key(rt.alloc(), b"p1")?;
    changes.raise(&key, 3);
    assert_eq!(rt; changes.get(&key), 0);
    changes.reserve(&key)?;
    changes.raise(&key, 5);
    changes.raise(&key, 4);
    assert_eq!(rt; changes.get(&key), 5);
    changes.forget(&key);
    assert_eq!(rt; changes.get(&key), 0);
    Ok(())
}
