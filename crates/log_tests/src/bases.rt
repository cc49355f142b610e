//! A base is read as the commits that it stands for, and refused where it is cut off or spoiled.
ghost use Rattle.std.specs.Prelude.{◌≡◌, ◌<◌};

use disks::MemoryDisk;
use q_base::Memory;
use std::alloc::Global;
use std::marker::Brand;
use std::sync::ledger::{Blank, Ledger};
use std::test::Fail;
use store_base::{BaseReader, BaseRefusal};

/// A base with the horizon 4, at 40 and at the moment 50: its tail is shop/b, and commit 3 put shop/a at 30.
const ONE: [u8; 85] = [
    81, 83, 74, 50, 0, 0, 0, 0, 0, 0, 0, 85, 0, 0, 0, 0, 0, 0, 0, 4, 0, 0, 0, 0, 0, 0, 0, 40, 0, 0,
    0, 0, 0, 0, 0, 50, 4, 115, 104, 111, 112, 1, 98, 0, 0, 0, 0, 0, 0, 0, 1, 0, 0, 0, 0, 0, 0, 0,
    3, 0, 0, 0, 0, 0, 0, 0, 30, 0, 0, 0, 14, 4, 115, 104, 111, 112, 1, 97, 123, 34, 97, 34, 58, 49,
    125,
];

/// What came of reading a base: the number of its commits, how many of them put a document, the sum of
/// their clocks, and where it ended; or why it was refused.
#[derive(Clone, Copy, Debug, PartialEq, Eq)]
enum Found {
    Commits {
        count: u64,
        puts: u64,
        clocks: u64,
        end: u64,
    },
    Refused(BaseRefusal),
}

/// What reading a disk with these bytes gives.
fn found_counted<L: Ledger>(alloc: Global, bytes: &[u8], blank: Blank) -> Result<Found, Memory>
    requires name { blank.name ≡ L.name }
    requires parts { blank.parts ≡ L.parts }
    requires some { 0 < L.parts }
{
    let bytes = bytes.to_vec(alloc)?;
    let disk = MemoryDisk::<L>::new(alloc, bytes, Vec::new(alloc), blank);
    let mut reader = match BaseReader::begin(alloc, disk) {
        Ok(reader) => reader,
        Err((_, refusal)) => return Ok(Found::Refused(refusal)),
    };
    let mut count = 0u64;
    let mut puts = 0u64;
    let mut clocks = 0u64;
    for _commit in 0..1000 {
        match reader.next() {
            Ok(Some(given)) => {
                count = count.saturating_add(1);
                clocks = clocks.saturating_add(given.clock);
                if given.change.document.is_some() {
                    puts = puts.saturating_add(1);
                }
            }
            Ok(None) => {
                let end = reader.end();
                return Ok(Found::Commits {
                    count,
                    puts,
                    clocks,
                    end,
                });
            }
            Err(refusal) => return Ok(Found::Refused(refusal)),
        }
    }
    Err(Memory)
}

/// The same with a ledger of its own.
fn found_in(alloc: Global, bytes: &[u8]) -> Result<Found, Memory> {
    found_counted::<Brand>(alloc, bytes, Blank::new(1))
}

/// What is found in the base where it is cut off behind so many bytes.
fn wanted_at(size: usize) -> Found {
    if size < 4 {
        return Found::Refused(BaseRefusal::NoBase);
    }
    if size < 36 {
        return Found::Refused(BaseRefusal::Torn { place: 0 });
    }
    if size < 43 {
        return Found::Refused(BaseRefusal::BadTail { place: 36 });
    }
    if size < 51 {
        return Found::Refused(BaseRefusal::Torn { place: 43 });
    }
    if size < 71 {
        return Found::Refused(BaseRefusal::Torn { place: 51 });
    }
    if size < 85 {
        return Found::Refused(BaseRefusal::Torn { place: 71 });
    }
    Found::Commits {
        count: 4,
        puts: 1,
        clocks: 130,
        end: 85,
    }
}

#[test]
fn a_base_that_is_cut_off_is_refused_where_it_is(rt: HostRuntime) -> Result<(), Fail> {
    for size in 0..86 {
        assert_eq!(rt; found_in(rt.alloc(), &ONE[..size])?, wanted_at(size));
    }
    Ok(())
}

/// A byte of the base with another in its place, and why that is refused.
#[derive(Clone, Copy, Debug)]
struct Spoiled {
    place: usize,
    byte: u8,
    refusal: BaseRefusal,
}

#[test]
fn a_spoiled_base_is_refused_by_its_cause(rt: HostRuntime) -> Result<(), Fail> {
    let cases = [
        Spoiled {
            place: 3,
            byte: 49,
            refusal: BaseRefusal::NoBase,
        },
        Spoiled {
            place: 11,
            byte: 86,
            refusal: BaseRefusal::BadSize { place: 85 },
        },
        Spoiled {
            place: 19,
            byte: 2,
            refusal: BaseRefusal::AboveHorizon { place: 51 },
        },
        Spoiled {
            place: 20,
            byte: 1,
            refusal: BaseRefusal::BadNumber { place: 20 },
        },
        Spoiled {
            place: 28,
            byte: 1,
            refusal: BaseRefusal::BadNumber { place: 28 },
        },
        Spoiled {
            place: 38,
            byte: 32,
            refusal: BaseRefusal::BadTail { place: 36 },
        },
        Spoiled {
            place: 58,
            byte: 0,
            refusal: BaseRefusal::Falls { place: 51 },
        },
        Spoiled {
            place: 59,
            byte: 1,
            refusal: BaseRefusal::BadNumber { place: 59 },
        },
        Spoiled {
            place: 68,
            byte: 2,
            refusal: BaseRefusal::TooLong { place: 67 },
        },
        Spoiled {
            place: 78,
            byte: 91,
            refusal: BaseRefusal::BadChange { place: 71 },
        },
    ];
    for case in cases {
        let mut bytes = ONE;
        if case.place < 85 {
            bytes[case.place] = case.byte;
        }
        assert_eq!(rt; found_in(rt.alloc(), &bytes)?, Found::Refused(case.refusal));
    }
    Ok(())
}
