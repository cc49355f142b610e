//! What no clause says: that calls succeed where there is memory.

use q_base::{Moment, Name};
use query_core::{Filter, Form, Kind, Order, Query};
use query_normal::{Key, normal};
use std::alloc::Global;
use std::test::Fail;
use ttl_estimator::{Estimator, Limits};

fn name(alloc: Global, bytes: &[u8]) -> Result<Name, Fail> {
    Ok(Name::read(alloc, bytes)?)
}

fn estimator(alloc: Global) -> Estimator {
    let limits = Limits {
        low: 1,
        high: 3600,
        active: 10,
    };
    Estimator::new(alloc, limits)
}

/// Notes a write at a second.
fn write(estimator: &mut Estimator, shop: &Name, id: &Name, second: u64) -> Result<(), Fail> {
    estimator.reserve_record(shop, id)?;
    estimator.note_write(shop, id, Moment::of(second));
    Ok(())
}

/// The key of the query for all records of the shop.
fn query_key(alloc: Global) -> Result<Key, Fail> {
    let query = Query {
        collection: name(alloc, b"shop")?,
        filter: Filter {
            form: Form::Constant(true),
        },
        order: Order::of(Vec::new(alloc)),
        skip: 0,
        take: 100,
    };
    Ok(Key::query(alloc, Kind::Objects, normal(alloc, query)?)?)
}

#[test]
fn a_reserved_record_is_written_where_there_is_memory(rt: HostRuntime) -> Result<(), Fail> {
    let mut estimator = estimator(rt.alloc());
    let shop = name(rt.alloc(), b"shop")?;
    let id = name(rt.alloc(), b"p1")?;
    write(&mut estimator, &shop, &id, 100)?;
    write(&mut estimator, &shop, &id, 200)?;
    write(&mut estimator, &shop, &id, 300)?;
    let key = Key::record(rt.alloc(), shop, id)?;
    assert_eq!(rt; estimator.ttl(&key, &[], Moment::of(400), false, 0), 69);
    Ok(())
}

/// All memory is allocated before the notes, and some more after them: so a run in which the allocation
/// after them is refused shows that they allocated nothing.
#[test]
fn notes_take_no_memory(rt: HostRuntime) -> Result<(), Fail> {
    let mut estimator = estimator(rt.alloc());
    let shop = name(rt.alloc(), b"shop")?;
    let id = name(rt.alloc(), b"p1")?;
    let key = query_key(rt.alloc())?;
    estimator.reserve_record(&shop, &id)?;
    estimator.reserve(&key)?;
    estimator.note_write(&shop, &id, Moment::of(100));
    estimator.note_issue(&key, 51, Moment::of(400));
    estimator.note_outdated(&key, Moment::of(420));
    assert_eq!(rt; estimator.ttl(&key, &[], Moment::of(420), true, 1), 41);
    estimator.note_idle(&key);
    estimator.forget(&key);
    assert_eq!(rt; estimator.ttl(&key, &[], Moment::of(451), false, 0), 3600);
    assert!(rt;
        Vec::<u8>::with_capacity(rt.alloc(), 1).is_ok(),
        "the next allocation was refused"
    );
    Ok(())
}
