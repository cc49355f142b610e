//! What no clause says: that calls succeed where there is memory, and a key whose positions repeat.
ghost use Rattle.std.specs.Prelude.{◌≡◌};

use expiring_filter::CountingFilter;
use q_base::{Moment, Name, positions_of};
use query_normal::Key;
use std::alloc::Global;
use std::test::Fail;

/// The number of times that a number is in a list.
fn times_in(number: u32, numbers: &[u32]) -> u32 {
    let mut times = 0u32;
    for other in numbers {
        if *other == number {
            times = times.saturating_add(1);
        }
    }
    times
}

/// Whether a number is twice in a list.
fn repeats(numbers: &[u32]) -> bool {
    for number in numbers {
        if times_in(*number, numbers) > 1 {
            return true;
        }
    }
    false
}

/// The key of a record of the collection `shop`.
fn key_of(alloc: Global, id: &[u8]) -> Result<Key, Fail> {
    let collection = Name::read(alloc, b"shop")?;
    let id = Name::read(alloc, id)?;
    Ok(Key::record(alloc, collection, id)?)
}

/// The first of r/shop/p0, r/shop/p1, .. with a repeated position at 1,024 bits and 8 hashes.
fn first_repeated(alloc: Global) -> Result<Key, Fail> {
    for i in 0..1000u32 {
        let id = format!(in alloc; "p{i}")?;
        let key = key_of(alloc, id.as_bytes())?;
        if repeats(positions_of(key.text(), 10, 8).as_slice()) {
            return Ok(key);
        }
    }
    Err("no position repeats")?
}

/// Whether the one key of a filter counts twice at position 913, which is bit 1 of byte 114.
fn counts_twice(filter: &CountingFilter) -> bool
    requires { filter.now.log2_bits ≡ 10 }
{
    filter.keys() == 1 && filter.count(913) == 2 && filter.bits().get(114).copied() == Some(2)
}

/// Whether no position counts.
fn counts_nothing(filter: &CountingFilter) -> bool
    requires { filter.now.log2_bits ≡ 10 }
{
    for position in 0..1024 {
        if filter.count(position) != 0 {
            return false;
        }
    }
    filter.bits().iter().all(|byte| *byte == 0)
}

/// Its positions are 913, 145, 401 and 657, each twice.
#[test]
fn a_key_with_repeated_positions_leaves_no_count(rt: HostRuntime) -> Result<(), Fail> {
    let key = first_repeated(rt.alloc())?;
    assert!(rt; key.text() == b"r/shop/p41".as_slice());
    let mut filter = CountingFilter::new(rt.alloc(), 10, 8)?;
    filter.reserve(&key)?;
    filter.add(&key, 100);
    assert!(rt; counts_twice(&filter));
    filter.remove(&key);
    assert!(rt; !filter.holds(&key) && counts_nothing(&filter));
    Ok(())
}

/// Whether a held key stays until the later of its seconds, and goes when it is removed.
fn is_held_and_removed(filter: &mut CountingFilter, key: &Key) -> bool {
    filter.advance(Moment::of(99));
    if filter.holds(key) {
        filter.add(key, 200);
    }
    filter.advance(Moment::of(150));
    let held = filter.holds(key);
    filter.remove(key);
    filter.forget_reserved();
    held && !filter.holds(key)
}

/// All memory is allocated before the calls, and some more after them: so a run in which the allocation
/// after them is refused shows that they allocated nothing.
#[test]
fn add_advance_and_remove_take_no_memory(rt: HostRuntime) -> Result<(), Fail> {
    let key = key_of(rt.alloc(), b"p1")?;
    let mut filter = CountingFilter::new(rt.alloc(), 10, 8)?;
    filter.reserve(&key)?;
    filter.add(&key, 100);
    assert!(rt; is_held_and_removed(&mut filter, &key));
    assert!(rt;
        Vec::<u8>::with_capacity(rt.alloc(), 1).is_ok(),
        "the next allocation was refused"
    );
    Ok(())
}
