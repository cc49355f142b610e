//! A put on a new log: its bytes, and what is found after a stop, a crash or a fault at each call.
ghost use Rattle.std.specs.Prelude.{◌≡◌, ◌<◌};

use commit_book::Change;
use disks::MemoryDisk;
use q_base::{Memory, Name};
use q_doc::Doc;
use record_log::{Batch, LogRecord, open_log};
use std::alloc::Global;
use std::marker::Brand;
use std::sync::ledger::{Blank, Ledger};
use std::test::Fail;

/// The calls of opening an empty disk: a sync, a new log that is written and synced, and a read of its
/// gate.
const OPENING: u64 = 4;

/// A put of which something stops, and what is found then.
#[derive(Clone, Copy, Debug)]
struct Case {
    /// The number of the call that fails, counted from 0 at the opening.
    failing: Option<u64>,
    /// The machine stops after this many calls of the put.
    stop: Option<u64>,
    /// A crash draws this for each byte that may be any.
    draw: Option<u8>,
}

/// What came of a put.
#[derive(Debug, Drop, PartialEq, Eq)]
struct Outcome {
    /// Whether it was told stored.
    done: bool,
    /// The bytes of the disk behind it.
    size: usize,
    /// The number of commits that are found when it is opened again.
    commits: usize,
}

/// The change that puts `{"a":1}` at shop/p1.
fn put(alloc: Global) -> Result<Change, Memory> {
    let collection = Name::read(alloc, b"shop");
    let id = Name::read(alloc, b"p1");
    let document = Doc::read(alloc, b"{\"a\":1}");
    match (collection, id, document) {
        (Ok(collection), Ok(id), Ok(document)) => Ok(Change {
            collection,
            id,
            document: Some(document),
        }),
        _ => Err(Memory),
    }
}

/// The number of commits among records.
fn commits_of(records: &[LogRecord]) -> usize {
    records
        .iter()
        .filter(|record| matches!(record, LogRecord::Commit { .. }))
        .count()
}

/// The bytes of a log after the put at 100.
fn bytes_counted<L: Ledger>(alloc: Global, blank: Blank) -> Result<Vec<u8>, Memory>
    requires name { blank.name ≡ L.name }
    requires parts { blank.parts ≡ L.parts }
    requires some { 0 < L.parts }
{
    let disk = MemoryDisk::<L>::new(alloc, Vec::new(alloc), Vec::new(alloc), blank);
    let mut log = match open_log(alloc, disk) {
        Ok(opened) => opened.log,
        Err(_) => return Err(Memory),
    };
    let mut batch = Batch::new(alloc)?;
    batch.add_commit(100, &put(alloc)?)?;
    if log.append(&batch).is_err() {
        return Err(Memory);
    }
    Ok(log.into_disk().bytes().to_vec(alloc)?)
}

/// What comes of the put in a case.
fn outcome_counted<L: Ledger>(alloc: Global, case: &Case, blank: Blank) -> Result<Outcome, Memory>
    requires name { blank.name ≡ L.name }
    requires parts { blank.parts ≡ L.parts }
    requires some { 0 < L.parts }
{
    let mut failing = Vec::new(alloc);
    if let Some(call) = case.failing {
        failing.push(call)?;
    }
    let mut disk = MemoryDisk::<L>::new(alloc, Vec::new(alloc), failing, blank);
    if let Some(calls) = case.stop {
        disk.stop_after(calls.saturating_add(OPENING));
    }
    let mut log = match open_log(alloc, disk) {
        Ok(opened) => opened.log,
        Err(_) => return Err(Memory),
    };
    let mut batch = Batch::new(alloc)?;
    batch.add_commit(100, &put(alloc)?)?;
    let done = log.append(&batch).is_ok();
    let mut disk = log.into_disk();
    if let Some(draw) = case.draw {
        let draws = vec![in alloc; draw; disk.open_bytes()]?;
        disk.crash(&draws);
    }
    let size = disk.bytes().len();
    match open_log(alloc, disk) {
        Ok(opened) => Ok(Outcome {
            done,
            size,
            commits: commits_of(&opened.records),
        }),
        Err(_) => Err(Memory),
    }
}

/// The same with a ledger of its own.
fn outcome_of(alloc: Global, case: &Case) -> Result<Outcome, Memory> {
    outcome_counted::<Brand>(alloc, case, Blank::new(1))
}

/// The bytes, with a ledger of their own.
fn bytes_of(alloc: Global) -> Result<Vec<u8>, Memory> {
    bytes_counted::<Brand>(alloc, Blank::new(1))
}

#[test]
fn a_put_has_the_bytes_of_the_format(rt: HostRuntime) -> Result<(), Fail> {
    let bytes = bytes_of(rt.alloc())?;
    let wanted = b"QSJ1\x01\x01\0\0\0\0\0\0\0\x64\0\0\0\x0f\x04shop\x02p1{\"a\":1}\0";
    assert_eq!(rt; bytes.as_slice(), wanted.as_slice());
    Ok(())
}

#[test]
fn a_stop_leaves_the_put_or_nothing_of_it(rt: HostRuntime) -> Result<(), Fail> {
    // After how many calls it stops, what is drawn, the length behind it, and the commits.
    let table = [
        (0, 9, 5, 0),
        (1, 9, 34, 0),
        (1, 1, 34, 0),
        (2, 9, 34, 0),
        (3, 0, 34, 0),
        (3, 9, 34, 0),
        (3, 1, 34, 1),
        (4, 9, 34, 1),
    ];
    for (calls, draw, size, commits) in table {
        let outcome = outcome_of(
            rt.alloc(),
            &Case {
                failing: None,
                stop: Some(calls),
                draw: Some(draw),
            },
        )?;
        assert_eq!(rt;
            outcome,
            Outcome {
                done: calls == 4,
                size,
                commits
            }
        );
    }
    Ok(())
}

#[test]
fn a_fault_is_told_and_the_log_opens_again(rt: HostRuntime) -> Result<(), Fail> {
    // Which call fails, the length behind it, and the commits that an opening without a crash finds.
    let table = [(4, 19, 0), (5, 34, 0), (6, 34, 0), (7, 34, 1)];
    for (call, size, commits) in table {
        let outcome = outcome_of(
            rt.alloc(),
            &Case {
                failing: Some(call),
                stop: None,
                draw: None,
            },
        )?;
        assert_eq!(rt;
            outcome,
            Outcome {
                done: false,
                size,
                commits
            }
        );
    }
    Ok(())
}
