//! What is opened, and what is refused: a log that is cut off, and bytes that are none.
ghost use Rattle.std.specs.Prelude.{◌≡◌, ◌<◌};

use disks::MemoryDisk;
use q_base::Memory;
use record_log::{LogRecord, LogRefusal, open_log};
use std::alloc::Global;
use std::marker::Brand;
use std::sync::ledger::{Blank, Ledger};
use std::test::Fail;

/// A log of two records: a put of shop/p1 at 100, and the kept moment 160.
const TWO: [u8; 48] = [
    81, 83, 74, 49, 1, 1, 0, 0, 0, 0, 0, 0, 0, 100, 0, 0, 0, 15, 4, 115, 104, 111, 112, 2, 112, 49,
    123, 34, 97, 34, 58, 49, 125, 1, 2, 0, 0, 0, 0, 0, 0, 0, 160, 0, 0, 0, 0, 0,
];

/// What came of an opening: the number of records and the last clock among them; or why it is refused.
#[derive(Clone, Copy, Debug, PartialEq, Eq)]
enum Found {
    Records { count: usize, clock: u64 },
    Refused(LogRefusal),
}

/// What opening a disk with these bytes gives.
fn found_counted<L: Ledger>(alloc: Global, bytes: &[u8], blank: Blank) -> Result<Found, Memory>
    requires name { blank.name ≡ L.name }
    requires parts { blank.parts ≡ L.parts }
    requires some { 0 < L.parts }
{
    let bytes = bytes.to_vec(alloc)?;
    let disk = MemoryDisk::<L>::new(alloc, bytes, Vec::new(alloc), blank);
    match open_log(alloc, disk) {
        Ok(opened) => {
            let clock = match opened.records.last() {
                Some(LogRecord::Commit { clock, .. }) => *clock,
                Some(LogRecord::Moment { clock }) => *clock,
                None => 0,
            };
            Ok(Found::Records {
                count: opened.records.len(),
                clock,
            })
        }
        Err((_, refusal)) => Ok(Found::Refused(refusal)),
    }
}

/// The same with a ledger of its own.
fn found_in(alloc: Global, bytes: &[u8]) -> Result<Found, Memory> {
    found_counted::<Brand>(alloc, bytes, Blank::new(1))
}

/// What is found in a log of two records that is cut off behind so many bytes: at most 5 are a new log.
fn wanted_at(size: usize) -> Found {
    if size <= 5 {
        return Found::Records { count: 0, clock: 0 };
    }
    if size <= 33 {
        let place = if size == 33 { 33 } else { 4 };
        return Found::Refused(LogRefusal::BadRecord { place });
    }
    if size < 48 {
        let place = if size == 47 { 47 } else { 33 };
        return Found::Refused(LogRefusal::BadRecord { place });
    }
    Found::Records {
        count: 2,
        clock: 160,
    }
}

#[test]
fn a_log_that_is_cut_off_is_refused_where_it_is(rt: HostRuntime) -> Result<(), Fail> {
    for size in 0..49 {
        assert_eq!(rt; found_in(rt.alloc(), &TWO[..size])?, wanted_at(size));
    }
    Ok(())
}

#[test]
fn the_first_gate_that_is_not_open_ends_a_log(rt: HostRuntime) -> Result<(), Fail> {
    for gate in [0, 2, 255] {
        let mut bytes = TWO;
        bytes[33] = gate;
        let wanted = Found::Records {
            count: 1,
            clock: 100,
        };
        assert_eq!(rt; found_in(rt.alloc(), &bytes)?, wanted);
        bytes[4] = gate;
        let wanted = Found::Records { count: 0, clock: 0 };
        assert_eq!(rt; found_in(rt.alloc(), &bytes)?, wanted);
    }
    Ok(())
}

#[test]
fn what_is_no_record_is_refused(rt: HostRuntime) -> Result<(), Fail> {
    // Which byte is another, and which; each spoils the first record.
    let table = [
        (5, 3),
        (6, 1),
        (14, 1),
        (17, 16),
        (18, 0),
        (18, 200),
        (19, 33),
        (23, 9),
        (26, 91),
        (32, 32),
    ];
    for (place, byte) in table {
        let mut bytes = TWO;
        if let Some(there) = bytes.get_mut(place) {
            *there = byte;
        }
        let wanted = Found::Refused(LogRefusal::BadRecord { place: 4 });
        assert_eq!(rt; found_in(rt.alloc(), &bytes)?, wanted, "at {place}");
    }
    Ok(())
}

#[test]
fn what_does_not_begin_with_the_mark_is_refused(rt: HostRuntime) -> Result<(), Fail> {
    let wanted = Found::Refused(LogRefusal::BadMark);
    assert_eq!(rt; found_in(rt.alloc(), &[0; 6])?, wanted);
    for place in 0..4 {
        let mut bytes = TWO;
        bytes[place] = 80;
        assert_eq!(rt; found_in(rt.alloc(), &bytes)?, wanted);
    }
    Ok(())
}
