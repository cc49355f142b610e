//! A hub whose commits are kept on a disk.
//!
//! ```text
//!   write   foresee --accepted--> append the commit --> the hub's write
//!                   --refused--> the hub's write alone
//!   read    clock not below the kept moment --> append clock + 60 --> the hub's read
//!   fetch   the hub's fetch --clock below the guard--> every bit is set
//! ```
//!
//! 1. A commit is on the disk before the hub makes it. So what was told done is there after any crash, and
//!    nothing is there but that and at most one commit more, of the write that a crash cut off.
//! 2. The kept moment on the disk is above the clock of each read, and no copy is issued but by a read. So a
//!    later store, whose guard is that moment and the longest lifetime, knows by when all copies of this one
//!    have expired, though it knows none of them; until then its pages have every bit set.
//! 3. Where the disk fails, or memory ends between the record and the hub's entry, the hub may be behind the
//!    disk. The store is broken then, makes no further call of the disk, and is to be opened again.
ghost use Rattle.std.specs.Prelude.{◌≡◌, ◌+◌, ◌^◌, ◌<◌, ◌≤◌, max, option_map, is_some, true, false, Some, IfOk, IfErr, OnOk, OnErr, MatchResult};
ghost use Rattle.durable_book.specs.declared.refusal.KeptRefusal.TheVariants.{DiskFault as Fault};
ghost use Rattle.durable_book.specs.Calls.{AddsChange, AddsMoment, AddsRecord, GoesBy, GoesByWrite, HasStoredChange, HasStoredMoment, LastsRead, LastsWrite, LeavesChange, LeavesMoment, LeavesRead, LeavesRecord, LeavesWrite, RefusesRecord, StoresRead, StoresWrite, Tells, TellsWrite};
ghost use Rattle.durable_book.specs.KeptHub.{IsSameStore, IsUsable, RefusesCall, RefusesDiskless, RefusesQuiet, WroteNothing};
ghost use Rattle.durable_book.specs.Moments.{guarded, kept_behind, moment_to_keep};
ghost use Rattle.durable_book.specs.Opened.{HasReplayed, IsChance, IsSoundDisk, LeavesFound, Opens, RefusesStore};
ghost use Rattle.hub_core.specs.Foreseen.{tells_done};
ghost use Rattle.hub_core.specs.HubState.{IsAt};
ghost use Rattle.hub_core.specs.PageRoom.{IsRoomFor};
ghost use Rattle.hub_model.specs.declared.entry.Entry.TheVariants.{Read, Match, Fetch, Tick};
ghost use Rattle.hub_model.specs.Record.{page_of};
ghost use Rattle.hub_model.specs.Reply.{read, matched, counted};
ghost use Rattle.hub_model.specs.State.{State};
ghost use Rattle.hub_model.specs.Step.{after};
ghost use Rattle.record_log.specs.declared.log_record.LogRecord.TheVariants.{Commit as ACommit, Moment as AMoment};
ghost use Rattle.record_log.specs.Images.{IsReady};
ghost use Rattle.record_log.specs.Logs.{HasAppended, LeavesAppended};
ghost use Rattle.record_log.specs.Records.{greatest_clock};

use crate::laws::{
    openings_have_their_journal, openings_leave_what_was_found, sound_disks_are_opened,
};
use crate::moments::moment_to_keep;
use crate::opening::open_store;
use crate::refusal::{KeptRefusal, OpenRefusal};
use disks::{Disk, MemoryDisk};
use hub_core::{Config, Hub, PageRoom};
use hub_model::{Answer, Change, Condition, Matched, Stats, Tags, Written};
use q_base::{Commit, Memory, Moment};
use query_normal::Key;
use record_log::{Batch, Log};
use std::alloc::Global;
use std::marker::Model;
use std::sync::ledger::Ledger;

/// A hub whose commits are kept on a disk.
#[derive(Drop)]
pub struct KeptHub<K: Disk> {
    alloc: Global,
    hub: Hub,
    log: Log<K>,
    /// The last kept moment in seconds since 1970, and 0 without one.
    kept: u64,
    guard: u64,
    broken: bool,
}

impl<K: Disk> Model for KeptHub<K> {
    ghost use Rattle.std.specs.Coded.{codes};
    ghost use Rattle.q_doc.specs.Code.{tree_code};
    ghost use Rattle.query_core.specs.Code.{filter_code};
    ghost use Rattle.durable_book.specs.KeptHub.{KeptView, IsUsable};

    ghost Value = { KeptView };

    ghost coded = { Prim.hlevel (codes, tree_code, filter_code) };

    ghost view = { λ k. record {
      hub = k.hub;
      log = k.log;
      kept = k.kept;
      guard = k.guard;
      broken = k.broken;
    } };

    ghost invariant = { λ k. IsUsable k.log k.broken };
}

impl<K: Disk> KeptHub<K> {
    /// Opens the store on a disk, and repairs what a crash left. Its history begins with its commits, each
    /// as a write at its clock, a match of all where there is one, and a tick at the moment.
    pub fn open(
        alloc: Global,
        config: Config,
        disk: K,
        moment: Moment,
    ) -> Result<KeptHub<K>, (K, OpenRefusal)>
        // What Ok means.
        ensures opened { IfOk result (λ k. HasReplayed config moment (K.at disk).history k.hub k.log k.kept k.guard) }
        ensures stands { IfOk result (Opens config moment (K.at disk).history) }
        ensures sound { IfOk result (λ k. k.broken ≡ false) }

        // When each refusal comes: of a sound disk for want of memory or a fault alone.
        ensures refused { IfErr result (λ e. RefusesStore config (K.at disk) (K.at e.0) e.1) }
        ensures chance { IsSoundDisk config.capacity (K.at disk).history → IfErr result (λ e. IsChance e.1) }

        // A crash at any moment leaves what was there before, or the journal that was found.
        ensures leaves { MatchResult result (λ k. LeavesFound (K.at disk).history k.log.history) (λ e. LeavesFound (K.at disk).history (K.at e.0).history) }
    {
        openings_have_their_journal();
        openings_leave_what_was_found();
        sound_disks_are_opened();
        match open_store(alloc, config, disk, moment) {
            Ok(store) => Ok(KeptHub {
                alloc,
                hub: store.hub,
                log: store.log,
                kept: store.kept,
                guard: store.guard,
                broken: false,
            }),
            Err(refused) => Err(refused),
        }
    }

    /// Writes, as one entry. An accepted change is stored before the hub makes it.
    pub fn write(
        &mut self,
        moment: Moment,
        change: &Change,
        condition: &Condition,
    ) -> Result<Written, KeptRefusal>
        requires { self.old.hub.commits + 1 < 2 ^ 64 }

        // What Ok means.
        ensures told { IfOk result (TellsWrite self.old moment change.now condition.now) }
        ensures after { OnOk result (GoesByWrite self.old self.new moment change.now condition.now) }
        ensures stores { IfOk result (StoresWrite self.old self.new change.now) }

        // A crash at any moment leaves the journal, with the change or without it; once it is done, with it.
        ensures leaves { LeavesWrite self.old self.new change.now }
        ensures lasts { OnOk result (LastsWrite self.old self.new moment change.now condition.now) }

        // When each refusal comes, and what stays.
        ensures refused { IfErr result (RefusesCall self.old self.new (HasStoredChange self.old self.new change.now)) }
        ensures sound { OnOk result (self.old.broken ≡ false) }
        ensures unbroken { OnOk result (self.new.broken ≡ false) }
        ensures same { IsSameStore self.old self.new }
        ensures kept { self.new.kept ≡ self.old.kept }
    {
        if self.broken {
            return Err(KeptRefusal::Reopen);
        }
        let foreseen = self.hub.foresee(moment, change, condition);
        let stored = store_change(
            self.alloc,
            &mut self.log,
            &mut self.broken,
            foreseen,
            change,
        )?;
        match self.hub.write(moment, change, condition) {
            Ok(written) => Ok(written),
            Err(Memory) => {
                // Where the record stands on the disk the hub is behind it.
                self.broken = stored;
                Err(KeptRefusal::Memory)
            }
        }
    }

    /// Reads the result of a key at the last commit, as one entry. Where its clock is not below the kept
    /// moment, a later one is stored first.
    pub fn read(&mut self, moment: Moment, key: &Key, tags: &Tags) -> Result<Answer, KeptRefusal>
        // What Ok means.
        ensures last { IfOk result (λ a. a.commit ≡ self.old.hub.commits) }
        ensures told { IfOk result (λ a. Tells self.old (Read moment key.now tags.now a.commit) (read a)) }
        ensures after { IfOk result (λ a. GoesBy self.old self.new (Read moment key.now tags.now a.commit)) }
        ensures stores { OnOk result (StoresRead self.old self.new moment) }
        ensures later { OnOk result (max self.old.hub.clock moment < self.new.kept) }

        // A crash at any moment leaves the journal, and the kept moment or the later one; once the read is
        // answered, the later one.
        ensures leaves { LeavesRead self.old self.new }
        ensures lasts { OnOk result (LastsRead self.old self.new) }
        ensures kept { self.old.kept ≤ self.new.kept }

        // When each refusal comes, and what stays.
        ensures refused { IfErr result (RefusesCall self.old self.new (HasStoredMoment self.old self.new moment)) }
        ensures sound { OnOk result (self.old.broken ≡ false) }
        ensures unbroken { OnOk result (self.new.broken ≡ false) }
        ensures same { IsSameStore self.old self.new }
    {
        if self.broken {
            return Err(KeptRefusal::Reopen);
        }
        let clock = self.hub.clock_at(moment);
        let wrote = keep(
            self.alloc,
            &mut self.log,
            &mut self.broken,
            &mut self.kept,
            clock,
        )?;
        match self.hub.read(moment, key, tags) {
            Ok(answer) => Ok(answer),
            Err(Memory) => {
                self.broken = wrote;
                Err(KeptRefusal::Memory)
            }
        }
    }

    /// Matches the commits up to one against the issued copies, as one entry. It makes no call of the disk.
    pub fn match_to(&mut self, moment: Moment, to: Commit) -> Result<Matched, KeptRefusal>
        requires above { self.old.hub.front < to }
        requires within { to ≤ self.old.hub.commits }

        // What Ok means.
        ensures told { IfOk result (λ m. Tells self.old (Match moment to) (matched m)) }
        ensures after { OnOk result (GoesBy self.old self.new (Match moment to)) }

        // When each refusal comes, and what stays.
        ensures refused { IfErr result (RefusesDiskless self.old self.new) }
        ensures sound { OnOk result (self.old.broken ≡ false) }
        ensures same { IsSameStore self.old self.new }
        ensures still { WroteNothing self.old self.new }
    {
        if self.broken {
            return Err(KeptRefusal::Reopen);
        }
        let matched = self.hub.match_to(moment, to)?;
        Ok(matched)
    }

    /// Writes the page into the buffer, as one entry. While the clock is below the guard, every bit is set.
    /// It takes no memory, and makes no call of the disk.
    pub fn fetch(&mut self, moment: Moment, room: &mut PageRoom) -> Result<(), KeptRefusal>
        requires { IsRoomFor self.old.hub.setting room.old }

        // What Ok means.
        ensures page { OnOk result ((s : State) → IsAt self.old.hub s → room.new.page ≡ Some (guarded self.old.guard (page_of self.old.hub.setting (after self.old.hub.setting s (Fetch moment))))) }
        ensures after { OnOk result (GoesBy self.old self.new (Fetch moment)) }
        ensures sizes { IsRoomFor self.old.hub.setting room.new }

        // When each refusal comes, and what stays.
        ensures refused { IfErr result (RefusesQuiet self.old self.new) }
        ensures room { OnErr result (room.new ≡ room.old) }
        ensures sound { OnOk result (self.old.broken ≡ false) }
        ensures same { IsSameStore self.old self.new }
        ensures still { WroteNothing self.old self.new }
    {
        if self.broken {
            return Err(KeptRefusal::Reopen);
        }
        self.hub.fetch(moment, room);
        cover(room, self.guard);
        Ok(())
    }

    /// Lets time pass, as one entry. It takes no memory, and makes no call of the disk.
    pub fn tick(&mut self, moment: Moment) -> Result<Stats, KeptRefusal>
        // What Ok means.
        ensures told { IfOk result (λ n. Tells self.old (Tick moment) (counted n)) }
        ensures after { OnOk result (GoesBy self.old self.new (Tick moment)) }

        // When each refusal comes, and what stays.
        ensures refused { IfErr result (RefusesQuiet self.old self.new) }
        ensures sound { OnOk result (self.old.broken ≡ false) }
        ensures same { IsSameStore self.old self.new }
        ensures still { WroteNothing self.old self.new }
    {
        if self.broken {
            Err(KeptRefusal::Reopen)
        } else {
            Ok(self.hub.tick(moment))
        }
    }

    /// Whether the store is to be opened again: the disk failed, or memory ended once something was written.
    pub fn broken(&self) -> bool
        ensures { result ≡ self.now.broken }
    {
        self.broken
    }

    /// The clock from which on no copy is unexpired that was issued before the opening, and 0 where no read
    /// was answered before.
    pub fn guard(&self) -> u64
        ensures { result ≡ self.now.guard }
    {
        self.guard
    }

    /// The hub: its numbers, and what it answers without an entry.
    pub fn hub(&self) -> &Hub
        ensures { result.now ≡ self.now.hub }
    {
        &self.hub
    }

    /// The disk, that of a broken store too.
    pub fn into_disk(self) -> K
        ensures history { (K.at result).history ≡ self.log.history }
        ensures faults { (K.at result).faults ≡ self.log.faults }
    {
        self.log.into_disk()
    }
}

/// Stores a change that the hub will accept, at the clock that it will tell; whether it did.
fn store_change<K: Disk>(
    alloc: Global,
    log: &mut Log<K>,
    broken: &mut bool,
    foreseen: Written,
    change: &Change,
) -> Result<bool, KeptRefusal>
    requires { IsReady log.old.history log.old.gate }
    ensures adds { OnOk result (AddsChange log.old log.new change.now foreseen) }
    ensures leaves { LeavesChange log.old log.new change.now foreseen }
    ensures stored { IfOk result (λ stored. stored ≡ tells_done foreseen) }
    ensures whole { OnOk result (broken.new ≡ broken.old) }
    ensures usable { IsUsable log.new broken.new }
    ensures refused { IfErr result (RefusesRecord log.old log.new broken.old broken.new) }
{
    match foreseen {
        Written::Done { clock, .. } => {
            store_commit(alloc, log, broken, clock, change)?;
            Ok(true)
        }
        Written::Precondition { .. } => Ok(false),
        Written::Full { .. } => Ok(false),
    }
}

/// Stores a later moment before a read at a clock, where this is not below the kept one; whether it did.
fn keep<K: Disk>(
    alloc: Global,
    log: &mut Log<K>,
    broken: &mut bool,
    kept: &mut u64,
    clock: Moment,
) -> Result<bool, KeptRefusal>
    requires { IsReady log.old.history log.old.gate }
    ensures adds { OnOk result (AddsMoment log.old log.new (moment_to_keep clock kept.old)) }
    ensures kept { OnOk result (kept.new ≡ kept_behind clock kept.old) }
    ensures unkept { OnErr result (kept.new ≡ kept.old) }
    ensures leaves { LeavesMoment log.old log.new (moment_to_keep clock kept.old) }
    ensures stored { IfOk result (λ stored. stored ≡ is_some (moment_to_keep clock kept.old)) }
    ensures whole { OnOk result (broken.new ≡ broken.old) }
    ensures usable { IsUsable log.new broken.new }
    ensures refused { IfErr result (RefusesRecord log.old log.new broken.old broken.new) }
{
    // A moment's seconds leave room for a minute more.
    let _seconds = clock.seconds();
    match moment_to_keep(clock, *kept) {
        None => Ok(false),
        Some(later) => {
            store_moment(alloc, log, broken, later)?;
            *kept = later;
            Ok(true)
        }
    }
}

/// Stores the record that a change is a commit, made at a clock.
fn store_commit<K: Disk>(
    alloc: Global,
    log: &mut Log<K>,
    broken: &mut bool,
    clock: Moment,
    change: &Change,
) -> Result<(), KeptRefusal>
    requires { IsReady log.old.history log.old.gate }
    ensures adds { OnOk result (AddsRecord log.old log.new (ACommit clock change.now)) }
    ensures leaves { LeavesRecord log.old log.new (ACommit clock change.now) }
    ensures whole { OnOk result (broken.new ≡ broken.old) }
    ensures usable { IsUsable log.new broken.new }
    ensures refused { IfErr result (RefusesRecord log.old log.new broken.old broken.new) }
{
    let seconds = clock.seconds();
    let mut record = Batch::new(alloc)?;
    record.add_commit(seconds, change)?;
    append(log, broken, &record)
}

/// Stores the record that a moment is kept, in seconds since 1970.
fn store_moment<K: Disk>(
    alloc: Global,
    log: &mut Log<K>,
    broken: &mut bool,
    later: u64,
) -> Result<(), KeptRefusal>
    requires ready { IsReady log.old.history log.old.gate }
    requires clock { later ≤ greatest_clock }
    ensures adds { OnOk result (AddsRecord log.old log.new (AMoment later)) }
    ensures leaves { LeavesRecord log.old log.new (AMoment later) }
    ensures whole { OnOk result (broken.new ≡ broken.old) }
    ensures usable { IsUsable log.new broken.new }
    ensures refused { IfErr result (RefusesRecord log.old log.new broken.old broken.new) }
{
    let mut record = Batch::new(alloc)?;
    record.add_moment(later)?;
    append(log, broken, &record)
}

/// Adds a batch to the log. A fault breaks the store.
fn append<K: Disk>(log: &mut Log<K>, broken: &mut bool, batch: &Batch) -> Result<(), KeptRefusal>
    requires { IsReady log.old.history log.old.gate }
    ensures appended { OnOk result (HasAppended log.old log.new batch.now) }
    ensures leaves { LeavesAppended log.old log.new batch.now }
    ensures whole { OnOk result (broken.new ≡ broken.old) }
    ensures usable { IsUsable log.new broken.new }
    ensures refused { IfErr result (λ e. (e ≡ Fault) × (broken.new ≡ true) × (log.old.faults < log.new.faults)) }
{
    match log.append(batch) {
        Ok(()) => Ok(()),
        Err(_) => {
            *broken = true;
            Err(KeptRefusal::DiskFault)
        }
    }
}

/// Sets every bit of the last page where its moment is below the guard.
fn cover(room: &mut PageRoom, guard: u64)
    ensures { room.new ≡ record room.old { page = option_map (guarded guard) room.old.page } }
{
    let seconds = room.moment().seconds();
    if guard <= seconds {
        return;
    }
    room.set_all();
}

impl<L: Ledger> KeptHub<MemoryDisk<L>> {
    /// The machine stops after this many calls of the disk more: each call after them fails and changes
    /// nothing.
    pub fn stop_after(&mut self, calls: u64)
        ensures { self.new ≡ self.old }
    {
        self.log.stop_after(calls);
    }
}
