//! A put that stops or fails at each call of the disk, and what is found then.
ghost use Rattle.std.specs.Prelude.{◌≡◌, ◌<◌};

use crate::worked::{OPENING, PUT, config, open, put};
use disks::MemoryDisk;
use durable_book::KeptRefusal;
use q_base::{Memory, Moment};
use std::alloc::Global;
use std::marker::Brand;
use std::sync::ledger::{Blank, Ledger};
use std::test::Fail;

/// A put of which something stops or fails, and what is found then.
#[derive(Clone, Copy, Debug)]
struct Case {
    /// The number of the call that fails, counted from 0 at the opening.
    failing: Option<u64>,
    /// The machine stops after this many calls of the put.
    stop: Option<u64>,
    /// A crash draws this for each byte that may be any.
    draw: Option<u8>,
}

/// What came of a put.
#[derive(Debug, Drop, PartialEq, Eq)]
struct Outcome {
    /// Why it was not told done, where it was not.
    refusal: Option<KeptRefusal>,
    /// Whether the store was broken behind it.
    broken: bool,
    /// What a further call answered.
    next: Option<KeptRefusal>,
    /// The bytes of the disk behind it, and behind the crash.
    bytes: Vec<u8>,
    /// The number of commits that are found when it is opened again.
    commits: u64,
    /// The same behind a further crash.
    later: u64,
}

/// What a put told.
#[derive(Clone, Copy, Debug)]
struct Told {
    refusal: Option<KeptRefusal>,
    broken: bool,
    next: Option<KeptRefusal>,
}

/// The empty disk of a case.
fn disk_of<L: Ledger>(alloc: Global, case: &Case, blank: Blank) -> Result<MemoryDisk<L>, Memory>
    requires name { blank.name ≡ L.name }
    requires parts { blank.parts ≡ L.parts }
    requires some { 0 < L.parts }
{
    let mut failing = Vec::new(alloc);
    if let Some(call) = case.failing {
        failing.push(call)?;
    }
    let mut disk = MemoryDisk::<L>::new(alloc, Vec::new(alloc), failing, blank);
    if let Some(calls) = case.stop {
        disk.stop_after(calls.saturating_add(OPENING));
    }
    Ok(disk)
}

/// Opens a store on an empty disk, and puts at 100.
fn put_on<L: Ledger>(alloc: Global, disk: MemoryDisk<L>) -> Result<(Told, MemoryDisk<L>), Memory>
    requires { 0 < L.parts }
{
    let store = match open(alloc, config(), disk, 100) {
        Ok(store) => store,
        Err(_) => return Err(Memory),
    };
    // In a box, so that letting it go is one call wherever the function may end.
    let mut store = Box::new(alloc, store)?;
    if store.hub().commits() > 0 {
        return Err(Memory);
    }
    let refusal = put(alloc, &mut store)?;
    let broken = store.broken();
    let next = store.tick(Moment::of(101)).err();
    let told = Told {
        refusal,
        broken,
        next,
    };
    Ok((told, Box::into_inner(store).into_disk()))
}

/// Crashes a disk: each byte that may be any is this one.
fn crash<L: Ledger>(alloc: Global, disk: &mut MemoryDisk<L>, draw: u8) -> Result<(), Memory> {
    let draws = vec![in alloc; draw; disk.open_bytes()]?;
    disk.crash(&draws);
    Ok(())
}

/// The number of commits that are found on a disk, which is handed back.
fn found_on<L: Ledger>(alloc: Global, disk: MemoryDisk<L>) -> Result<(u64, MemoryDisk<L>), Memory>
    requires { 0 < L.parts }
{
    match open(alloc, config(), disk, 100) {
        Ok(store) => {
            let commits = store.hub().commits();
            Ok((commits, store.into_disk()))
        }
        Err(_) => Err(Memory),
    }
}

/// What comes of the put at 100 in a case.
fn outcome_counted<L: Ledger>(alloc: Global, case: &Case, blank: Blank) -> Result<Outcome, Memory>
    requires name { blank.name ≡ L.name }
    requires parts { blank.parts ≡ L.parts }
    requires some { 0 < L.parts }
{
    let disk = disk_of::<L>(alloc, case, blank)?;
    let (told, mut disk) = put_on(alloc, disk)?;
    if let Some(draw) = case.draw {
        crash(alloc, &mut disk, draw)?;
    }
    let bytes = disk.bytes().to_vec(alloc)?;
    let (commits, mut disk) = found_on(alloc, disk)?;
    crash(alloc, &mut disk, 7)?;
    let (later, _disk) = found_on(alloc, disk)?;
    Ok(Outcome {
        refusal: told.refusal,
        broken: told.broken,
        next: told.next,
        bytes,
        commits,
        later,
    })
}

/// Whether these bytes are left of a put that stops after so many calls, where this is drawn for each byte
/// that may be any: the first call writes all behind the gate, and the third the gate.
fn is_left(bytes: &[u8], calls: u64, draw: u8) -> bool {
    let put = PUT.as_slice();
    let gate = match calls {
        3 => draw,
        4 => 1,
        _ => 0,
    };
    bytes.starts_with(&put[..4])
        && bytes.get(4).copied() == Some(gate)
        && match calls {
            0 => bytes.len() == 5,
            1 => bytes.len() == 34 && bytes[5..].iter().all(|byte| *byte == draw),
            _ => bytes.len() == 34 && bytes[5..] == put[5..],
        }
}

/// The same with a ledger of its own.
fn outcome_of(alloc: Global, case: &Case) -> Result<Outcome, Memory> {
    outcome_counted::<Brand>(alloc, case, Blank::new(1))
}

#[test]
fn a_put_has_the_bytes_of_the_format(rt: HostRuntime) -> Result<(), Fail> {
    let case = Case {
        failing: None,
        stop: None,
        draw: None,
    };
    let outcome = outcome_of(rt.alloc(), &case)?;
    assert_eq!(rt; outcome.refusal, None);
    assert!(rt; !outcome.broken);
    assert_eq!(rt; outcome.next, None);
    assert_eq!(rt; outcome.bytes.as_slice(), PUT.as_slice());
    assert_eq!(rt; outcome.commits, 1);
    Ok(())
}

#[test]
fn a_stop_leaves_the_put_or_nothing_of_it(rt: HostRuntime) -> Result<(), Fail> {
    // After how many calls it stops, what is drawn, and the commits.
    let table = [
        (0, 9, 0),
        (1, 9, 0),
        (1, 1, 0),
        (2, 9, 0),
        (3, 0, 0),
        (3, 9, 0),
        (3, 1, 1),
        (4, 9, 1),
    ];
    for (calls, draw, commits) in table {
        let case = Case {
            failing: None,
            stop: Some(calls),
            draw: Some(draw),
        };
        let outcome = outcome_of(rt.alloc(), &case)?;
        assert_eq!(rt; outcome.refusal.is_none(), calls == 4);
        assert_eq!(rt; outcome.broken, calls < 4);
        assert!(rt;
            is_left(&outcome.bytes, calls, draw),
            "after {calls} calls, {draw}"
        );
        assert_eq!(rt; outcome.commits, commits, "after {calls} calls, {draw}");
        assert_eq!(rt; outcome.later, commits, "after {calls} calls, {draw}");
    }
    Ok(())
}

#[test]
fn a_put_whose_last_sync_fails_is_found_by_an_opening(rt: HostRuntime) -> Result<(), Fail> {
    // Which call of the put fails, and the commits that are found without a crash.
    let table = [(0, 0), (1, 0), (2, 0), (3, 1)];
    for (call, commits) in table {
        let case = Case {
            failing: Some(OPENING + call),
            stop: None,
            draw: None,
        };
        let outcome = outcome_of(rt.alloc(), &case)?;
        assert_eq!(rt; outcome.refusal, Some(KeptRefusal::DiskFault));
        assert!(rt; outcome.broken);
        assert_eq!(rt; outcome.next, Some(KeptRefusal::Reopen));
        assert_eq!(rt; outcome.commits, commits, "call {call}");
        assert_eq!(rt; outcome.later, commits, "call {call}");
    }
    Ok(())
}
