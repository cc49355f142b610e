//! The turns at a shared log: each does one thing, and makes one entry at most.
ghost use Rattle.std.specs.Prelude.{◌≤◌, List, OnOk};
ghost use Rattle.record_log.specs.Records.{greatest_clock};
ghost use Rattle.shared_log.specs.Shared.{IsSeated, KnowsStill, KnowsQueued, Finds, FindsIn, HasDone};
ghost use Rattle.shared_log.specs.LogValues.{StandsFor, StandsStill, opened_of};
ghost use Rattle.shared_log.specs.Notes.{LogNote};

use crate::gives::{give_queued, give_stored, give_unchanged};
use crate::log_value::{LogValue, Unqueued, Work};
use crate::mark::Mark;
use crate::shared::SharedLog;
use disks::{Disk, SyncPolicy};
use q_base::Commit;
use q_outside::Failed;
use record_log::{Body, COMMIT, MOMENT};
use std::snapshot::Snapshot;
use std::sync::Wait;
use turnstile::Seat;

/// What one who waits finds.
#[derive(Drop)]
pub(crate) enum Found<K: Disk + Drop> {
    /// So much is stored.
    Stored(Mark),
    /// The disk failed.
    Broken,
    /// Records are queued and nobody stores: it is to store these.
    Work(Work<K>),
    /// Nobody stores, and it is to wait for others before it does.
    Gather,
    /// Another stores, or is about to; what is waited for is not stored before this batch is.
    Nothing { batch: u64 },
}

impl<K: Disk + Drop> SharedLog<K> {
    /// Queues a commit, in one turn.
    pub(crate) fn queue<R: Wait>(
        &self,
        rt: &R,
        seat: &mut Seat<LogValue<K>>,
        commit: Commit,
        clock: u64,
        body: &Body,
    ) -> Result<(), Unqueued>
        requires seat { IsSeated self.now.turnstile seat.old }
        requires clock { clock ≤ greatest_clock }
        ensures seat { IsSeated self.now.turnstile seat.new }
        ensures known { KnowsStill self.now.turnstile seat.old seat.new }
        ensures queued { OnOk result (KnowsQueued self.now.turnstile seat.new commit (record { kind = 1; clock = clock; body = body.now })) }
    {
        let mut turn = self.turnstile.take(rt, seat);
        let mut value = turn.value();
        match value.queue(commit, clock, body) {
            Ok(()) => {
                give_queued(turn, value, COMMIT, clock, body.as_slice());
                self.wake_early();
                Ok(())
            }
            Err(refusal) => {
                give_unchanged(turn, value);
                Err(refusal)
            }
        }
    }

    /// Queues the record that a moment is kept, in one turn, where none that is queued is beyond a clock.
    pub(crate) fn queue_moment<R: Wait>(
        &self,
        rt: &R,
        seat: &mut Seat<LogValue<K>>,
        clock: u64,
        moment: u64,
    ) -> Result<(), Unqueued>
        requires seat { IsSeated self.now.turnstile seat.old }
        requires clock { moment ≤ greatest_clock }
        ensures seat { IsSeated self.now.turnstile seat.new }
        ensures known { KnowsStill self.now.turnstile seat.old seat.new }
    {
        let mut turn = self.turnstile.take(rt, seat);
        let mut value = turn.value();
        let kept = value.queued().moment;
        if clock < kept {
            give_unchanged(turn, value);
            return Ok(());
        }
        match value.queue_moment(moment) {
            Ok(()) => {
                give_queued(turn, value, MOMENT, moment, &[]);
                Ok(())
            }
            Err(refusal) => {
                give_unchanged(turn, value);
                Err(refusal)
            }
        }
    }

    /// The store is at its end: a commit was made for whose record there is no memory.
    pub(crate) fn give_up<R: Wait>(&self, rt: &R, seat: &mut Seat<LogValue<K>>)
        requires { IsSeated self.now.turnstile seat.old }
        ensures seat { IsSeated self.now.turnstile seat.new }
        ensures known { KnowsStill self.now.turnstile seat.old seat.new }
    {
        let mut turn = self.turnstile.take(rt, seat);
        let mut value = turn.value();
        value.give_up();
        give_unchanged(turn, value);
        self.bells.ring_all();
        self.queued.ring();
    }

    /// Looks, in one turn, whether so many commits are stored and this moment is kept, and else what there is
    /// to do. One who has waited for others takes the work.
    pub(crate) fn look<R: Wait>(
        &self,
        rt: &R,
        seat: &mut Seat<LogValue<K>>,
        commits: Commit,
        moment: u64,
        has_waited: bool,
    ) -> Found<K>
        requires { IsSeated self.now.turnstile seat.old }
        ensures seat { IsSeated self.now.turnstile seat.new }
        ensures known { KnowsStill self.now.turnstile seat.old seat.new }
        ensures found { Finds self.now.turnstile seat.new commits moment result }
    {
        let mut turn = self.turnstile.take(rt, seat);
        let mut value = turn.value();
        let found = found_in(&mut value, self.sync, commits, moment, has_waited);
        give_unchanged(turn, value);
        found
    }

    /// Gives back the log with what was taken of it stored, or failed, in one turn.
    pub(crate) fn put_back<R: Wait>(
        &self,
        rt: &R,
        seat: &mut Seat<LogValue<K>>,
        work: Work<K>,
        stored: Result<(), Failed>,
    ) -> Result<(), Failed>
        requires seat { IsSeated self.now.turnstile seat.old }
        requires done { HasDone self.now.turnstile seat.old work.log work.from work.to stored }
        ensures seat { IsSeated self.now.turnstile seat.new }
        ensures known { KnowsStill self.now.turnstile seat.old seat.new }
    {
        let frames = work.to.frames;
        let log = Snapshot::of(&work.log);
        let mut turn = self.turnstile.take(rt, seat);
        let mut value = turn.value();
        match value.put_back(work, stored) {
            Ok(()) => {
                give_stored(turn, value, frames, log);
                Ok(())
            }
            Err(failed) => {
                give_unchanged(turn, value);
                Err(failed)
            }
        }
    }
}

/// What one who waits for so many commits and this moment finds.
#[tactic(auto, using(crate::proofs::StandLemmas::found_stored))]
fn found_in<K: Disk + Drop>(
    value: &mut LogValue<K>,
    sync: SyncPolicy,
    commits: Commit,
    moment: u64,
    has_waited: bool,
) -> Found<K>
    ensures stands { StandsStill value.old value.new }
    ensures found { (notes : List LogNote) → StandsFor value.old notes → FindsIn (opened_of value.old) notes commits moment result }
{
    let stored = value.stored();
    if commits <= stored.commits && moment <= stored.moment {
        return Found::Stored(stored);
    }
    if value.is_broken() {
        return Found::Broken;
    }
    let batch = value.batch_of(commits, moment);
    if !value.has_work() || (value.is_gathering() && !has_waited) {
        return Found::Nothing { batch };
    }
    if sync != SyncPolicy::Always && !has_waited {
        value.gather();
        return Found::Gather;
    }
    match value.take_out() {
        Some(work) => Found::Work(work),
        None => Found::Nothing { batch },
    }
}
