//! What no clause says: that calls succeed where there is memory.

use issued_expiries::Expiries;
use q_base::{Moment, Name};
use query_normal::Key;
use std::alloc::Global;
use std::test::Fail;

/// The key of a record of the collection `shop`.
fn key_of(alloc: Global, id: &[u8]) -> Result<Key, Fail> {
    let collection = Name::read(alloc, b"shop")?;
    let id = Name::read(alloc, id)?;
    Ok(Key::record(alloc, collection, id)?)
}

/// Reserves a key and issues a copy of it, if few keys are active.
fn hold(expiries: &mut Expiries, key: &Key, commit: u64, until: u64) -> Result<(), Fail> {
    expiries.reserve(key)?;
    if expiries.active_count() < 1_000_000 {
        expiries.issue(key, commit, until);
    }
    Ok(())
}

/// Whether a key, whose copies have expired by a moment, is the one that becomes idle then.
fn goes_idle(expiries: &mut Expiries, key: &Key, moment: Moment) -> bool {
    expiries.advance(moment);
    let gone = !expiries.active(key);
    let idle = match expiries.next_idle() {
        Some(other) => other == *key,
        None => false,
    };
    gone && idle
}

#[test]
fn a_reserved_copy_is_issued_where_there_is_memory(rt: HostRuntime) -> Result<(), Fail> {
    let key = key_of(rt.alloc(), b"p1")?;
    let mut expiries = Expiries::new(rt.alloc())?;
    for commit in 1..4 {
        hold(&mut expiries, &key, commit, 100 + commit)?;
    }
    assert!(rt; expiries.latest(&key, 0, 3) == Some(102));
    assert!(rt; goes_idle(&mut expiries, &key, Moment::of(103)));
    Ok(())
}

#[test]
fn keys_are_reserved_beside_each_other_where_there_is_memory(rt: HostRuntime) -> Result<(), Fail> {
    let mut expiries = Expiries::new(rt.alloc())?;
    let ids: [&[u8]; 3] = [b"p1", b"p2", b"p3"];
    for id in ids {
        reserve(&mut expiries, rt.alloc(), id)?;
    }
    Ok(())
}

/// Reserves the key of a record.
fn reserve(expiries: &mut Expiries, alloc: Global, id: &[u8]) -> Result<(), Fail> {
    let key = key_of(alloc, id)?;
    Ok(expiries.reserve(&key)?)
}

/// All memory is allocated before the calls, and some more after them: so a run in which the allocation
/// after them is refused shows that they allocated nothing.
#[test]
fn issue_advance_and_next_idle_take_no_memory(rt: HostRuntime) -> Result<(), Fail> {
    let key = key_of(rt.alloc(), b"p1")?;
    let mut expiries = Expiries::new(rt.alloc())?;
    hold(&mut expiries, &key, 1, 100)?;
    assert!(rt; ends_idle(&mut expiries, &key));
    assert!(rt;
        Vec::<u8>::with_capacity(rt.alloc(), 1).is_ok(),
        "the next allocation was refused"
    );
    Ok(())
}

/// Whether a key with a copy until 100 has it and becomes idle then. At the end nothing is idle or
/// reserved.
fn ends_idle(expiries: &mut Expiries, key: &Key) -> bool {
    let held = expiries.latest(key, 0, 2) == Some(100);
    let idle = goes_idle(expiries, key, Moment::of(100));
    expiries.forget_idle();
    expiries.forget_reserved();
    held && idle
}
