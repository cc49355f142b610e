//! A machine with a store on its disk, which steps change, and which a step may crash.
//!
//! Beside the store the machine counts what it must have: its commits, and the last moment that it kept. Each
//! opening is held against that. A disk in memory fails where a step stops it, and for want of memory; where
//! it has failed for that, the store has something else, and the run ends.
ghost use Rattle.std.specs.Prelude.{◌≡◌, ◌<◌, IfOk, OnOk};
ghost use Rattle.crash_core.specs.Machine.{IsOpenedAs, IsRestarted, IsStopped, IsQuietStep, IsStoreFetch, IsStoreMatch, IsStorePut, IsStoreRead};
ghost use Rattle.crash_core.specs.Steps.{bytes_from};
ghost use Rattle.crash_core.specs.Stops.{written_bytes};
ghost use Rattle.disks.specs.Histories.{HasCrashed};
ghost use Rattle.hub_core.specs.PageRoom.{IsRoomFor};
ghost use Rattle.hub_model.specs.Setting.{default_setting};
ghost use Rattle.world_core.specs.Draws.{after};

use crate::expected::Expected;
use crate::lines::OpenLine;
use crate::product::{key_of, put_of};
use crate::step::{QuietStep, Stopped};
use disks::MemoryDisk;
use durable_book::{KeptHub, guard_of};
use hub_core::{Config, PageRoom};
use hub_model::{Change, Commits, Condition, Tags};
use q_base::{Commit, Memory, Moment};
use record_log::Body;
use std::alloc::Global;
use std::marker::Model;
use std::sync::ledger::Ledger;
use world_core::Generator;

/// The clock at the beginning, in seconds since 1970.
pub const FIRST_CLOCK: u64 = 1_000_000;

/// What stands around the body of a record: its gate, its kind, its clock and the length of the body.
const HEAD_BYTES: u64 = 14;

/// A store on a disk in memory, the buffer for its pages, the clock of its calls, and what the store must
/// have.
#[derive(Drop)]
pub(crate) struct Machine<L: Ledger> {
    alloc: Global,
    /// In a box, so that letting it go is one call wherever a function may end.
    store: Box<KeptHub<MemoryDisk<L>>>,
    room: PageRoom,
    seconds: u64,
    expected: Expected,
}

/// What a put that stopped takes of the capacity, and how many bytes of the disk may be any behind it.
#[derive(Clone, Copy, Debug)]
pub(crate) struct Stop {
    pub cost: u64,
    pub count: u64,
}

impl<L: Ledger> Model for Machine<L> {
    ghost use Rattle.std.specs.Coded.{codes};
    ghost use Rattle.q_doc.specs.Code.{tree_code};
    ghost use Rattle.query_core.specs.Code.{filter_code};
    ghost use Rattle.crash_core.specs.Machine.{IsMachine, MachineView};

    ghost Value = { MachineView };

    ghost coded = { Prim.hlevel (codes, tree_code, filter_code) };

    ghost view = { λ m. record { store = m.store.value; clock = m.seconds; expected = m.expected } };

    ghost invariant = { λ m. IsMachine m.store.value m.room };
}

impl<L: Ledger> Machine<L> {
    /// Opens the store on a disk, which must have what is expected, and tells what was found, as of a step.
    pub fn open(
        alloc: Global,
        disk: MemoryDisk<L>,
        room: PageRoom,
        seconds: u64,
        expected: Expected,
        step: u32,
    ) -> Result<(Machine<L>, OpenLine), Memory>
        requires room { IsRoomFor default_setting room }
        requires some { 0 < L.parts }
        ensures { IfOk result (λ m. IsOpenedAs step seconds expected disk.history m.0 m.1) }
    {
        let config = Config::default();
        let guard = guard_of(&config, expected.kept);
        let Ok(store) = KeptHub::open(alloc, config, disk, Moment::of(seconds)) else {
            return Err(Memory);
        };
        let store = Box::new(alloc, store)?;
        let line = OpenLine {
            step,
            commits: store.hub().commits(),
            guard: store.guard(),
        };
        if line.commits != expected.commits || line.guard != guard {
            return Err(Memory);
        }
        let machine = Machine {
            alloc,
            store,
            room,
            seconds,
            expected,
        };
        Ok((machine, line))
    }

    /// Makes a step without a crash.
    pub fn make(&mut self, step: QuietStep) -> Result<(), Memory>
        ensures { OnOk result (IsQuietStep step self.old self.new) }
    {
        match step {
            QuietStep::Put { product, price } => self.put(product, price),
            QuietStep::Read { product } => self.read(product),
            QuietStep::Fetch => self.fetch(),
            QuietStep::Advance { seconds } => {
                self.seconds = self.seconds.saturating_add(seconds as u64);
                Ok(())
            }
            QuietStep::Match => self.match_all(),
        }
    }

    /// Puts the document of a product.
    fn put(&mut self, product: u32, price: u32) -> Result<(), Memory>
        ensures { OnOk result (IsStorePut product price self.old self.new) }
    {
        let change = put_of(self.alloc, product, price)?;
        if self.store.hub().commits() == u64::MAX {
            return Err(Memory);
        }
        self.expected.put(change.cost())?;
        let Ok(_) = self
            .store
            .write(Moment::of(self.seconds), &change, &Condition::Always)
        else {
            return Err(Memory);
        };
        Ok(())
    }

    /// Reads the record of a product.
    fn read(&mut self, product: u32) -> Result<(), Memory>
        ensures { OnOk result (IsStoreRead product self.old self.new) }
    {
        let key = key_of(self.alloc, product)?;
        let tags = Tags::Listed(Commits::new(self.alloc));
        let moment = Moment::of(self.seconds);
        self.expected.read(moment);
        let Ok(_) = self.store.read(moment, &key, &tags) else {
            return Err(Memory);
        };
        Ok(())
    }

    /// Fetches the page.
    fn fetch(&mut self) -> Result<(), Memory>
        ensures { OnOk result (IsStoreFetch self.old self.new) }
    {
        let Ok(()) = self.store.fetch(Moment::of(self.seconds), &mut self.room) else {
            return Err(Memory);
        };
        Ok(())
    }

    /// Matches all commits, where one is not matched.
    fn match_all(&mut self) -> Result<(), Memory>
        ensures { OnOk result (IsStoreMatch self.old self.new) }
    {
        let to = self.store.hub().commits();
        if self.store.hub().front() >= to {
            return Ok(());
        }
        let Ok(_) = self.store.match_to(Moment::of(self.seconds), to) else {
            return Err(Memory);
        };
        Ok(())
    }

    /// Begins a put, which stops after so many calls of the disk. What it answers is seen on the disk.
    pub fn stop(&mut self, step: Stopped) -> Result<Stop, Memory>
        ensures { IfOk result (IsStopped step self.old self.new) }
    {
        let change = put_of(self.alloc, step.product, step.price)?;
        if self.store.hub().commits() == u64::MAX {
            return Err(Memory);
        }
        let size = written_bytes(self.alloc, &change)?;
        let cost = change.cost();
        self.store.stop_after(step.calls as u64);
        let _answer = self
            .store
            .write(Moment::of(self.seconds), &change, &Condition::Always);
        Ok(Stop {
            cost,
            count: self.expected.open_bytes(cost, size, step.calls),
        })
    }

    /// Crashes behind a put that stopped after so many calls, and opens the store again: each byte that may
    /// be any is drawn.
    pub fn restart(
        self,
        generator: &mut Generator,
        number: u32,
        stop: Stop,
        calls: u32,
    ) -> Result<(Machine<L>, OpenLine), Memory>
        requires { 0 < L.parts }
        ensures { IfOk result (λ m. IsRestarted number calls stop self generator.old.number generator.new.number m.0 m.1) }
    {
        let mut disk = Box::into_inner(self.store).into_disk();
        let draws = crash_disk(self.alloc, &mut disk, generator, stop.count)?;
        let mut expected = self.expected;
        expected.stop(stop.cost, calls, &draws)?;
        Machine::open(self.alloc, disk, self.room, self.seconds, expected, number)
    }

    /// The number of commits, which must be as expected.
    pub fn commits(&self) -> Result<Commit, Memory>
        ensures { IfOk result (λ n. n ≡ self.now.expected.commits) }
    {
        let commits = self.store.hub().commits();
        if commits != self.expected.commits {
            return Err(Memory);
        }
        Ok(commits)
    }
}

/// Crashes a disk of which so many bytes may be any, and draws them.
fn crash_disk<L: Ledger>(
    alloc: Global,
    disk: &mut MemoryDisk<L>,
    generator: &mut Generator,
    count: u64,
) -> Result<Vec<u8>, Memory>
    ensures crashed { OnOk result (HasCrashed disk.old disk.new (bytes_from count generator.old.number)) }
    ensures bytes { IfOk result (λ draws. draws.items ≡ bytes_from count generator.old.number) }
    ensures number { OnOk result (generator.new.number ≡ after count generator.old.number) }
{
    let open = disk.open_bytes();
    if open as u64 != count {
        return Err(Memory);
    }
    let draws = drawn_bytes(alloc, generator, open)?;
    disk.crash(&draws);
    Ok(draws)
}

/// How many bytes a put of a change writes at first: its record behind its gate, and the next gate.
fn written_bytes(alloc: Global, change: &Change) -> Result<u64, Memory>
    ensures { IfOk result (λ size. size ≡ written_bytes change.now) }
{
    let body = Body::of(alloc, change)?;
    let bytes = body.as_slice();
    Ok(HEAD_BYTES + bytes.len() as u64)
}

/// So many bytes, each drawn.
fn drawn_bytes(alloc: Global, generator: &mut Generator, count: usize) -> Result<Vec<u8>, Memory>
    ensures bytes { IfOk result (λ draws. draws.items ≡ bytes_from count generator.old.number) }
    ensures number { OnOk result (generator.new.number ≡ after count generator.old.number) }
{
    let mut draws = Vec::new(alloc);
    for _place in 0..count {
        draws.push(generator.draw(256) as u8)?;
    }
    Ok(draws)
}
