//! Openings: a new store, what is refused, and a stop or a fault at each call of an opening.
ghost use Rattle.std.specs.Prelude.{◌≡◌, ◌<◌};

use crate::worked::{PUT, config, open};
use disks::MemoryDisk;
use durable_book::OpenRefusal;
use q_base::Memory;
use std::alloc::Global;
use std::marker::Brand;
use std::sync::ledger::{Blank, Ledger};
use std::test::Fail;

/// What an opening gives: its commits and its guard, or why it is refused; and the bytes of the disk.
#[derive(Debug, Drop, PartialEq, Eq)]
struct Found {
    opened: Result<(u64, u64), OpenRefusal>,
    bytes: Vec<u8>,
}

/// An opening of these bytes, which stops after so many calls, and then crashes so that each byte that may
/// be any is the drawn one.
fn found_counted<L: Ledger>(
    alloc: Global,
    bytes: &[u8],
    stop: Option<(u64, u8)>,
    blank: Blank,
) -> Result<Found, Memory>
    requires name { blank.name ≡ L.name }
    requires parts { blank.parts ≡ L.parts }
    requires some { 0 < L.parts }
{
    let bytes = bytes.to_vec(alloc)?;
    let mut disk = MemoryDisk::<L>::new(alloc, bytes, Vec::new(alloc), blank);
    if let Some((calls, _)) = stop {
        disk.stop_after(calls);
    }
    let (opened, mut disk) = match open(alloc, config(), disk, 110) {
        Ok(store) => (
            Ok((store.hub().commits(), store.guard())),
            store.into_disk(),
        ),
        Err((disk, refusal)) => (Err(refusal), disk),
    };
    if let Some((_, draw)) = stop {
        let draws = vec![in alloc; draw; disk.open_bytes()]?;
        disk.crash(&draws);
    }
    Ok(Found {
        opened,
        bytes: disk.bytes().to_vec(alloc)?,
    })
}

/// The same with a ledger of its own.
fn found_in(alloc: Global, bytes: &[u8], stop: Option<(u64, u8)>) -> Result<Found, Memory> {
    found_counted::<Brand>(alloc, bytes, stop, Blank::new(1))
}

#[test]
fn a_new_store_is_a_mark_and_a_closed_gate(rt: HostRuntime) -> Result<(), Fail> {
    let found = found_in(rt.alloc(), &[], None)?;
    assert_eq!(rt; found.opened, Ok((0, 0)));
    assert_eq!(rt; found.bytes.as_slice(), b"QSJ1\0".as_slice());
    Ok(())
}

#[test]
fn what_is_no_store_is_refused(rt: HostRuntime) -> Result<(), Fail> {
    let found = found_in(rt.alloc(), &[0; 6], None)?;
    assert_eq!(rt; found.opened, Err(OpenRefusal::BadMark));
    let found = found_in(rt.alloc(), &PUT[..33], None)?;
    assert_eq!(rt; found.opened, Err(OpenRefusal::BadRecord { place: 33 }));
    Ok(())
}

#[test]
fn more_commits_than_the_capacity_are_refused(rt: HostRuntime) -> Result<(), Fail> {
    // A put of 29 bytes takes 64 + 4 + 2 + 7 of the capacity of 65,792, so 854 puts fit.
    let mut bytes = Vec::from_slice(rt.alloc(), b"QSJ1")?;
    for _put in 0..855 {
        bytes.extend_from_slice(&PUT[4..33])?;
    }
    bytes.push(0)?;
    let found = found_in(rt.alloc(), &bytes, None)?;
    assert_eq!(rt; found.opened, Err(OpenRefusal::TooSmall { bytes: 65_835 }));
    Ok(())
}

#[test]
fn an_opening_that_stops_loses_nothing(rt: HostRuntime) -> Result<(), Fail> {
    // The put waits behind a gate that is neither open nor closed.
    let mut torn = PUT;
    torn[4] = 7;
    // After how many calls the opening stops, what is drawn, the gate behind the crash, and the commits that
    // the next one finds.
    let table = [
        (0, 1, 7, 0),
        (1, 1, 7, 0),
        (2, 1, 7, 0),
        (3, 1, 7, 0),
        (4, 1, 1, 1),
        (4, 0, 0, 0),
        (4, 9, 9, 0),
        (5, 1, 0, 0),
    ];
    for (calls, draw, gate, commits) in table {
        let found = found_in(rt.alloc(), &torn, Some((calls, draw)))?;
        assert_eq!(rt; found.opened.is_ok(), calls == 5, "after {calls} calls");
        let mut left = torn;
        left[4] = gate;
        assert_eq!(rt;
            found.bytes.as_slice(),
            left.as_slice(),
            "after {calls} calls, {draw}"
        );
        let next = found_in(rt.alloc(), &found.bytes, None)?;
        assert_eq!(rt;
            next.opened,
            Ok((commits, 0)),
            "after {calls} calls, {draw}"
        );
    }
    Ok(())
}

#[test]
fn a_new_store_that_stops_is_a_new_store(rt: HostRuntime) -> Result<(), Fail> {
    for calls in 0..4 {
        for draw in [0, 1, 81] {
            let found = found_in(rt.alloc(), &[], Some((calls, draw)))?;
            let drawn = [draw; 5];
            let left = match calls {
                0 | 1 => b"".as_slice(),
                2 => drawn.as_slice(),
                _ => b"QSJ1\0".as_slice(),
            };
            assert_eq!(rt; found.bytes.as_slice(), left, "after {calls} calls, {draw}");
            let next = found_in(rt.alloc(), &found.bytes, None)?;
            assert_eq!(rt; next.opened, Ok((0, 0)));
        }
    }
    Ok(())
}
