//! A put by a desk over a disk in memory: what is told, and what a log fills a store with.
ghost use Rattle.std.specs.Prelude.{◌≡◌, ◌<◌, true, IfOk};

use commit_book::Change;
use disks::{MemoryDisk, SyncPolicy};
use hub_desk::{Condition, Config, Desk, Owned, Unkept, Written};
use kept_desk::{Keeper, Keeping, KeptDesk, LogKeeper, Notes, Unfilled};
use q_base::{Memory, Moment, Name};
use q_doc::Doc;
use record_log::{Batch, open_log};
use std::alloc::Global;
use std::marker::Brand;
use std::rt::Clock;
use std::sync::Wait;
use std::sync::ledger::{Blank, Ledger};
use std::test::Fail;

/// The calls of opening an empty disk, which is read twice: each time a sync, a new log that is written and
/// synced, and a read of its gate.
const OPENING: u64 = 8;

/// For how long caches may keep a reply.
const LONGEST: u64 = 3_600;

/// Nobody hears.
#[derive(Clone, Copy, Debug)]
struct NoNotes;

impl Notes for NoNotes {
    fn note(&self, _commits: u64) {}

    fn opened(&self, _commits: u64) {}

    fn refused(&self, _refusal: Unfilled) {}
}

/// The change that puts `{"a":1}` at shop/p1.
fn put(alloc: Global) -> Result<Change, Memory> {
    let collection = Name::read(alloc, b"shop");
    let id = Name::read(alloc, b"p1");
    let document = Doc::read(alloc, b"{\"a\":1}");
    match (collection, id, document) {
        (Ok(collection), Ok(id), Ok(document)) => Ok(Change {
            collection,
            id,
            document: Some(document),
        }),
        _ => Err(Memory),
    }
}

/// What two puts were told, and whether each was kept.
#[derive(Clone, Copy, Debug, PartialEq, Eq)]
struct Told {
    first: Result<(), Unkept>,
    second: Result<(), Unkept>,
    commits: Option<u64>,
}

/// A keeper over a disk in memory.
type KeeperInMemory<L, R> = LogKeeper<R, MemoryDisk<L>, NoNotes>;

/// A keeper over the log of a disk.
fn keeper_over<L: Ledger + 'static, R: Wait + Clock + Copy + Send + Drop + 'static>(
    rt: R,
    alloc: Global,
    disk: MemoryDisk<L>,
) -> Result<Box<KeeperInMemory<L, R>>, Memory> {
    match LogKeeper::begin(rt, alloc, disk, SyncPolicy::Always, LONGEST, NoNotes) {
        Ok(keeper) => Ok(Box::new(alloc, keeper)?),
        Err(_) => Err(Memory),
    }
}

/// A new store, whose commits are to be kept.
fn new_store(alloc: Global) -> Result<Box<Owned>, Memory>
    ensures { IfOk result (λ store. store.value.setting.keeps ≡ true) }
{
    let store = Owned::new(alloc, Config::default().kept(0))?;
    Ok(Box::new(alloc, store)?)
}

/// Puts, and waits until that is kept.
fn put_and_keep<D: Desk>(alloc: Global, desk: &mut D) -> Result<Result<(), Unkept>, Memory> {
    desk.ready()?;
    let written = desk.write(Moment::of(3_000), put(alloc)?, Condition::Always)?;
    match written {
        Written::Done { .. } => Ok(desk.keep()),
        _ => Err(Memory),
    }
}

/// Puts twice.
fn put_twice<D: Desk>(alloc: Global, desk: &mut D) -> Result<Told, Memory> {
    let first = put_and_keep(alloc, desk)?;
    let second = put_and_keep(alloc, desk)?;
    Ok(Told {
        first,
        second,
        commits: desk.commits(),
    })
}

/// A new store that a keeper has filled.
fn filled<L: Ledger + 'static, R: Wait + Clock + Copy + Send + Drop + 'static>(
    alloc: Global,
    keeper: &mut KeeperInMemory<L, R>,
) -> Result<Box<Owned>, Memory>
    ensures { IfOk result (λ store. store.value.setting.keeps ≡ true) }
{
    let mut store = new_store(alloc)?;
    match keeper.fill(&mut *store, Moment::of(2_000)) {
        Ok(()) => Ok(store),
        Err(_) => Err(Memory),
    }
}

/// Puts twice by a desk over this store, whose commits a hand keeps.
fn put_twice_by<H: Keeping + Drop>(
    alloc: Global,
    store: Box<Owned>,
    hand: H,
) -> Result<Told, Memory>
    requires { store.value.setting.keeps ≡ true }
{
    let mut desk = KeptDesk::new(Box::into_inner(store), hand);
    put_twice(alloc, &mut desk)
}

/// Puts twice by a desk whose commits a keeper keeps.
fn told_by<L: Ledger + 'static, R: Wait + Clock + Copy + Send + Drop + 'static>(
    alloc: Global,
    keeper: &mut KeeperInMemory<L, R>,
) -> Result<Told, Memory> {
    let store = filled(alloc, keeper)?;
    let hand = keeper.hand()?;
    put_twice_by(alloc, store, hand)
}

/// A disk of whose calls one may fail, counted from 0 behind the opening.
fn failing_disk<L: Ledger>(
    alloc: Global,
    failing: Option<u64>,
    blank: Blank,
) -> Result<MemoryDisk<L>, Memory>
    requires name { blank.name ≡ L.name }
    requires parts { blank.parts ≡ L.parts }
    requires some { 0 < L.parts }
{
    let mut calls = Vec::new(alloc);
    if let Some(call) = failing {
        calls.push(OPENING.saturating_add(call))?;
    }
    Ok(MemoryDisk::<L>::new(alloc, Vec::new(alloc), calls, blank))
}

/// Puts twice over a new log, of whose disk one call may fail.
fn told_counted<L: Ledger + 'static, R: Wait + Clock + Copy + Send + Drop + 'static>(
    rt: R,
    alloc: Global,
    failing: Option<u64>,
    blank: Blank,
) -> Result<Told, Memory>
    requires name { blank.name ≡ L.name }
    requires parts { blank.parts ≡ L.parts }
    requires some { 0 < L.parts }
{
    let disk = failing_disk::<L>(alloc, failing, blank)?;
    let mut keeper = keeper_over(rt, alloc, disk)?;
    told_by(alloc, &mut *keeper)
}

/// The same with a ledger of its own.
fn told_of<R: Wait + Clock + Copy + Send + Drop + 'static>(
    rt: R,
    alloc: Global,
    failing: Option<u64>,
) -> Result<Told, Memory> {
    told_counted::<Brand, R>(rt, alloc, failing, Blank::new(1))
}

/// A batch of so many puts.
fn puts_in_a_batch(alloc: Global, puts: u64) -> Result<Batch, Memory> {
    let mut batch = Batch::new(alloc)?;
    for clock in 0..puts {
        batch.add_commit(clock.min(1_000), &put(alloc)?)?;
    }
    Ok(batch)
}

/// The disk of a log of so many puts.
fn disk_with<L: Ledger + 'static>(
    alloc: Global,
    puts: u64,
    disk: MemoryDisk<L>,
) -> Result<MemoryDisk<L>, Memory> {
    let batch = puts_in_a_batch(alloc, puts)?;
    let Ok(opened) = open_log(alloc, disk) else {
        return Err(Memory);
    };
    let mut log = Box::new(alloc, opened.log)?;
    match log.append(&batch) {
        Ok(_) => Ok(Box::into_inner(log).into_disk()),
        Err(_) => Err(Memory),
    }
}

/// The number of commits with which a log of so many puts fills a store.
fn found_counted<L: Ledger + 'static, R: Wait + Clock + Copy + Send + Drop + 'static>(
    rt: R,
    alloc: Global,
    puts: u64,
    blank: Blank,
) -> Result<Option<u64>, Memory>
    requires name { blank.name ≡ L.name }
    requires parts { blank.parts ≡ L.parts }
    requires some { 0 < L.parts }
{
    let disk = MemoryDisk::<L>::new(alloc, Vec::new(alloc), Vec::new(alloc), blank);
    let disk = disk_with(alloc, puts, disk)?;
    let mut keeper = keeper_over(rt, alloc, disk)?;
    let store = filled(alloc, &mut *keeper)?;
    Ok(store.commits())
}

/// The same with a ledger of its own.
fn found_of<R: Wait + Clock + Copy + Send + Drop + 'static>(
    rt: R,
    alloc: Global,
    puts: u64,
) -> Result<Option<u64>, Memory> {
    found_counted::<Brand, R>(rt, alloc, puts, Blank::new(1))
}

#[test]
fn what_is_shown_is_kept(rt: HostRuntime) -> Result<(), Fail> {
    let told = told_of(rt, rt.alloc(), None)?;
    assert_eq!(rt; (told.first, told.second), (Ok(()), Ok(())));
    assert_eq!(rt; told.commits, Some(2));
    Ok(())
}

#[test]
fn behind_a_fault_nothing_is_kept(rt: HostRuntime) -> Result<(), Fail> {
    for call in 0..4 {
        let told = told_of(rt, rt.alloc(), Some(call))?;
        assert_eq!(rt; (told.first, told.second), (Err(Unkept), Err(Unkept)));
        assert_eq!(rt; told.commits, Some(2));
    }
    let told = told_of(rt, rt.alloc(), Some(4))?;
    assert_eq!(rt; (told.first, told.second), (Ok(()), Err(Unkept)));
    Ok(())
}

#[test]
fn a_store_has_the_commits_of_its_log(rt: HostRuntime) -> Result<(), Fail> {
    for puts in [0, 1, 3] {
        let found = found_of(rt, rt.alloc(), puts)?;
        assert_eq!(rt; found, Some(puts));
    }
    Ok(())
}
