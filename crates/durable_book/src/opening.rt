//! Opening a store: the log of a disk is read, and a hub makes its commits again.
//!
//! ```text
//!   disk --open_log--> log, records --costs within the capacity--> Write, Write, ..  Match  Tick
//! ```
//!
//! The hub that comes of it has the journal of the disk and no copy. All commits are matched, so a copy that
//! it issues is of none below any front of an earlier store on this disk. Of copies that were issued before,
//! the guard says by when none of them is unexpired.
ghost use Rattle.std.specs.Prelude.{◌≡◌, ◌<◌, ◌≤◌, ◌+◌, ◌-◌, ◌^◌, min, IfOk, IfErr, OnOk, MatchResult};
ghost use Rattle.durable_book.specs.declared.refusal.OpenRefusal.TheVariants.{TooSmall, Memory as NoMemory};
ghost use Rattle.durable_book.specs.Journals.{journal_of, costs_of};
ghost use Rattle.durable_book.specs.Opened.{HasReplayed, IsChance, IsSoundDisk, RefusesReplay, RefusesStore};
ghost use Rattle.durable_book.specs.Replay.{all_replayed, end_of, opened_state, replayed};
ghost use Rattle.hub_core.specs.HubState.{IsAt};
ghost use Rattle.hub_model.specs.declared.entry.Entry.TheVariants.{Match};
ghost use Rattle.hub_model.specs.State.{State, start};
ghost use Rattle.hub_model.specs.Step.{after, after_all};
ghost use Rattle.record_log.specs.Opened.{LeavesOpening};

use crate::moments::guard_of;
use crate::records::{costs_of, last_moment};
use crate::refusal::{OpenRefusal, refusal_of_log};
use disks::Disk;
use hub_core::{Config, Hub};
use hub_model::Condition;
use q_base::{Memory, Moment};
use record_log::{Log, LogRecord, open_log};
use std::alloc::Global;

/// A store as it was read from a disk: its hub, and the log to which further records are added.
#[derive(Drop)]
pub struct Store<K: Disk> {
    pub hub: Hub,
    pub log: Log<K>,
    /// The last kept moment in seconds since 1970, and 0 without one.
    pub kept: u64,
    /// The clock from which on no copy is unexpired that was issued before this opening, and 0 where none
    /// was.
    pub guard: u64,
}

/// Opens the store on a disk, and repairs what a crash left. Its history begins with its commits, each as a
/// write at its clock, a match of all where there is one, and a tick at the moment.
pub fn open_store<K: Disk>(
    alloc: Global,
    config: Config,
    disk: K,
    moment: Moment,
) -> Result<Store<K>, (K, OpenRefusal)>
    ensures opened { IfOk result (λ o. HasReplayed config moment (K.at disk).history o.hub o.log o.kept o.guard) }
    ensures refused { IfErr result (λ e. RefusesStore config (K.at disk) (K.at e.0) e.1) }

    // The disk is as it was until it is synced. From then on a crash at any moment leaves what was read, or
    // a repaired log.
    ensures leaves { MatchResult result (λ o. LeavesOpening (K.at disk).history o.log.history) (λ e. LeavesOpening (K.at disk).history (K.at e.0).history) }
{
    let opened = match open_log(alloc, disk) {
        Ok(opened) => opened,
        Err((disk, refusal)) => return Err((disk, refusal_of_log(refusal))),
    };
    let last = last_moment(&opened.records);
    let guard = guard_of(&config, last);
    match replay(alloc, config, &opened.records, moment) {
        Ok(hub) => Ok(Store {
            hub,
            log: opened.log,
            kept: last.unwrap_or(0),
            guard,
        }),
        Err(refusal) => Err((opened.log.into_disk(), refusal)),
    }
}

/// A hub that has made the commits of these records, matched all and ticked, where their costs are within
/// the capacity.
fn replay(
    alloc: Global,
    config: Config,
    records: &[LogRecord],
    moment: Moment,
) -> Result<Hub, OpenRefusal>
    ensures setting { IfOk result (λ hub. hub.setting ≡ config) }
    ensures state { IfOk result (λ hub. IsAt hub (opened_state config records.now moment)) }
    ensures fits { IfOk result (λ _. costs_of (journal_of records.now) ≤ config.capacity) }
    ensures refused { IfErr result (RefusesReplay config records.now) }
{
    let bytes = costs_of(records);
    if bytes > config.capacity() {
        return Err(OpenRefusal::TooSmall { bytes });
    }
    match made_hub(alloc, config, records, moment) {
        Ok(hub) => Ok(hub),
        Err(Memory) => Err(OpenRefusal::Memory),
    }
}

/// A hub that has made the commits of these records, matched all and ticked.
fn made_hub(
    alloc: Global,
    config: Config,
    records: &[LogRecord],
    moment: Moment,
) -> Result<Hub, Memory>
    ensures setting { IfOk result (λ hub. hub.setting ≡ config) }
    ensures state { IfOk result (λ hub. IsAt hub (opened_state config records.now moment)) }
{
    let mut hub = Hub::new(alloc, config)?;
    make_all(&mut hub, records)?;
    finish(&mut hub, moment)?;
    Ok(hub)
}

/// Makes the commits of records, in order, on a hub that has made no entry.
fn make_all(hub: &mut Hub, records: &[LogRecord]) -> Result<(), Memory>
    requires { IsAt hub.old start }
    ensures made { OnOk result (IsAt hub.new (all_replayed hub.old.setting start records.now)) }
    ensures setting { hub.new.setting ≡ hub.old.setting }
{
    for said in records {
        make(hub, said)?;
    }
    Ok(())
}

/// Makes what a record says: a commit is a write at its clock, and a moment is nothing.
fn make(hub: &mut Hub, said: &LogRecord) -> Result<(), Memory>
    requires { hub.old.commits + 1 < 2 ^ 64 }
    ensures made { OnOk result ((s : State) → IsAt hub.old s → IsAt hub.new (replayed hub.old.setting s said.now)) }
    ensures setting { hub.new.setting ≡ hub.old.setting }
{
    match said {
        LogRecord::Commit { clock, change } => {
            hub.write(Moment::of(*clock), change, &Condition::Always)?;
            Ok(())
        }
        LogRecord::Moment { .. } => Ok(()),
    }
}

/// Matches all commits where they are not matched, and lets time pass up to the moment.
fn finish(hub: &mut Hub, moment: Moment) -> Result<(), Memory>
    ensures made { OnOk result ((s : State) → IsAt hub.old s → IsAt hub.new (after_all hub.old.setting s (end_of s moment))) }
    ensures setting { hub.new.setting ≡ hub.old.setting }
{
    match_all(hub, moment)?;
    hub.tick(moment);
    Ok(())
}

/// Matches all commits where they are not matched.
fn match_all(hub: &mut Hub, moment: Moment) -> Result<(), Memory>
    ensures matched { OnOk result (hub.old.front < hub.old.commits → (s : State) → IsAt hub.old s → IsAt hub.new (after hub.old.setting s (Match moment hub.old.commits))) }
    ensures level { hub.old.commits ≤ hub.old.front → hub.new ≡ hub.old }
    ensures setting { hub.new.setting ≡ hub.old.setting }
{
    let to = hub.commits();
    if to <= hub.front() {
        return Ok(());
    }
    hub.match_to(moment, to)?;
    Ok(())
}
