//! One who hands records to a shared log and waits until they are stored.
//!
//! The first of those who wait takes the log and all that is queued, stores it outside of the turn, and
//! puts the log back. The others sleep meanwhile; what they queued since is stored by the next of them.
ghost use Rattle.std.specs.Prelude.{◌≡◌, ◌<◌, ◌≤◌, ◌⊎◌, true, false, min, Some, OnOk, OnErr};
ghost use Rattle.std.specs.Arc.{arc_value};
ghost use Rattle.q_base.specs.Moment.{greatest_moment};
ghost use Rattle.record_log.specs.Records.{body_of};
ghost use Rattle.shared_log.specs.Shared.{IsSeated, Knows, KnowsStill, KnowsHandedIn};

use crate::log_value::LogValue;
use crate::lost::Lost;
use crate::shared::SharedLog;
use crate::steps::Found;
use commit_book::Change;
use disks::{Disk, SyncPolicy};
use q_base::{Commit, GREATEST_SECONDS, Memory};
use record_log::Body;
use std::alloc::Global;
use std::rt::Clock;
use std::sync::{Arc, Wait};
use std::time::Duration;
use std::{mem, thread};
use turnstile::Seat;

/// How long a kept moment reaches beyond the one that a read wants, in seconds: so one record serves for a
/// minute.
const AHEAD: u64 = 60;

/// One who hands records to a shared log, at a seat of its own.
#[derive(Drop)]
pub struct LogHand<R: Wait + Clock + Copy + Drop, K: Disk + Drop> {
    rt: R,
    alloc: Global,
    shared: Arc<SharedLog<K>, Global>,
    seat: Seat<LogValue<K>>,
    /// The body of the record of a change that is being written.
    body: Option<Body>,
    /// What is stored, as far as is known.
    commits: Commit,
    moment: u64,
    /// The moment that is to be kept before the next reply is shown.
    wanted: u64,
    /// The number of the batch that the last commit of its own waits for, or an earlier one; 0 where it
    /// has none that waits. No clause reads it.
    batch: u64,
    /// A commit of its own could not be queued.
    has_lost: bool,
    ghost seated: { IsSeated (arc_value shared).turnstile seat },
    ghost known: { Knows (arc_value shared).turnstile seat commits moment },
}

impl<R: Wait + Clock + Copy + Drop, K: Disk + Drop> LogHand<R, K> {
    /// One at this seat.
    pub fn new(
        rt: R,
        alloc: Global,
        shared: Arc<SharedLog<K>, Global>,
        seat: Seat<LogValue<K>>,
    ) -> LogHand<R, K>
        requires { IsSeated (arc_value shared).turnstile seat }
        ensures same { (arc_value result.shared).turnstile ≡ (arc_value shared).turnstile }
        ensures seat { result.seat ≡ seat }
        ensures whole { result.has_lost ≡ false }
    {
        LogHand {
            rt,
            alloc,
            shared,
            seat,
            body: None,
            commits: 0,
            moment: 0,
            wanted: 0,
            batch: 0,
            has_lost: false,
        }
    }

    /// Makes the record of a change that is about to be written.
    pub fn prepare_record(&mut self, change: &Change) -> Result<(), Memory>
        ensures body { OnOk result (self.new.body ≡ Some (body_of change.now)) }
        ensures none { OnErr result (self.new.body ≡ self.old.body) }
        ensures same { (arc_value self.new.shared).turnstile ≡ (arc_value self.old.shared).turnstile }
        ensures seat { self.new.seat ≡ self.old.seat }
        ensures lost { self.new.has_lost ≡ self.old.has_lost }
        ensures wanted { self.new.wanted ≡ self.old.wanted }
    {
        self.body = Some(Body::of(self.alloc, change)?);
        Ok(())
    }

    /// Hands in the record of the change that was prepared last: it is this commit, made at a clock in
    /// seconds since 1970. It waits only for the commits before it to be handed in. Where it cannot be
    /// queued the store is at its end.
    pub fn hand_in(&mut self, commit: Commit, clock: u64)
        ensures queued { (self.new.has_lost ≡ true) ⊎ KnowsHandedIn (arc_value self.new.shared).turnstile self.new.seat self.old.body commit (min clock greatest_moment) }
        ensures known { KnowsStill (arc_value self.new.shared).turnstile self.old.seat self.new.seat }
        ensures same { (arc_value self.new.shared).turnstile ≡ (arc_value self.old.shared).turnstile }
        ensures lost { self.old.has_lost ≡ true → self.new.has_lost ≡ true }
        ensures wanted { self.new.wanted ≡ self.old.wanted }
    {
        let clock = clock.min(GREATEST_SECONDS);
        if let Some(body) = self.body.take() {
            self.batch = self.shared.bells.next_batch();
            let queued = self
                .shared
                .queue_in_order(&self.rt, &mut self.seat, commit, clock, &body);
            if queued.is_ok() {
                return;
            }
        }
        self.has_lost = true;
        self.shared.give_up(&self.rt, &mut self.seat);
    }

    /// Hears that a copy of a read's reply may be kept until this moment, in seconds since 1970, and hands
    /// in, where it is to be, that a later moment is kept: `wait_for` ends only once it is.
    pub fn note_read(&mut self, until: u64)
        ensures wanted { min until greatest_moment < self.new.wanted }
        ensures more { self.old.wanted ≤ self.new.wanted }
        ensures known { KnowsStill (arc_value self.new.shared).turnstile self.old.seat self.new.seat }
        ensures same { (arc_value self.new.shared).turnstile ≡ (arc_value self.old.shared).turnstile }
        ensures lost { self.old.has_lost ≡ true → self.new.has_lost ≡ true }
    {
        let until = until.min(GREATEST_SECONDS);
        self.wanted = self.wanted.max(until + 1);
        if self.wanted <= self.moment {
            return;
        }
        let queued = self
            .shared
            .queue_moment(&self.rt, &mut self.seat, until, until + AHEAD);
        if queued.is_err() {
            self.has_lost = true;
        }
    }

    /// Waits until so many commits are stored, and the moment that a read wanted.
    pub fn wait_for(&mut self, commits: Commit) -> Result<(), Lost>
        ensures kept { OnOk result (Knows (arc_value self.new.shared).turnstile self.new.seat commits 0) }
        ensures read { OnOk result (Knows (arc_value self.new.shared).turnstile self.new.seat 0 self.old.wanted) }
        ensures whole { OnOk result (self.old.has_lost ≡ false) }
        ensures known { KnowsStill (arc_value self.new.shared).turnstile self.old.seat self.new.seat }
        ensures same { (arc_value self.new.shared).turnstile ≡ (arc_value self.old.shared).turnstile }
        ensures lost { self.new.has_lost ≡ self.old.has_lost }
        ensures wanted { self.new.wanted ≡ self.old.wanted }
    {
        if self.has_lost {
            return Err(Lost);
        }
        let mut has_waited = false;
        let mut batch = mem::replace(&mut self.batch, 0);
        let rt = self.rt;
        for _ in rt.forever() {
            if commits <= self.commits && self.wanted <= self.moment {
                return Ok(());
            }
            let heard = self.shared.bells.hear(batch);
            if self.shared.bells.is_under_way(batch) {
                self.shared.bells.sleep(&self.rt, batch, heard);
                continue;
            }
            match self
                .shared
                .look(&self.rt, &mut self.seat, commits, self.wanted, has_waited)
            {
                Found::Stored(mark) => {
                    self.commits = mark.commits;
                    self.moment = mark.moment;
                }
                Found::Broken => return Err(Lost),
                Found::Work(work) => {
                    has_waited = false;
                    self.shared.store(&self.rt, &mut self.seat, work);
                }
                Found::Gather => {
                    self.gather();
                    has_waited = true;
                }
                Found::Nothing { batch: found } if found == batch => {
                    self.shared.bells.sleep(&self.rt, batch, heard);
                }
                Found::Nothing { batch: found } => batch = found,
            }
        }
        unreachable!()
    }

    /// The seat, once nothing more is handed in.
    pub fn into_seat(self) -> Seat<LogValue<K>>
        ensures own { IsSeated (arc_value self.shared).turnstile result }
        ensures seat { result ≡ self.seat }
    {
        self.seat
    }

    /// Waits for others who share the next sync.
    fn gather(&self) {
        if let SyncPolicy::Batch { millis } = self.shared.sync {
            thread::sleep(&self.rt, Duration::from_millis(millis));
        }
    }
}
