//! The value of the log's turnstile: the log with what is queued for it.
//!
//! ```text
//!   a turn of each writer       queue:     .. record | record record *record*
//!   a turn of one who stores    take_out:  the log and the pending records leave the value
//!   no turn                                they are written and synced, while others queue
//!   a turn of the same          put_back:  the log is there again, and so many records are stored
//! ```
//!
//! 1. While the log is out nobody else takes it, so what is stored is always a beginning of what was queued.
//! 2. The pending batch is what was queued behind what was taken.
//! 3. A commit is queued only as the next one, so the commits of the log have the numbers that the hub
//!    gave them. A writer whose predecessor is between its two turns waits for it.
//! 4. Once the disk failed the log is not used again. What was stored before stays so: a crash later on
//!    leaves at least that.
ghost use Rattle.std.specs.Prelude.{◌≡◌, ◌≤◌, ◌<◌, ◌+◌, ◌^◌, true, false, [], None, Ok, IfOk, IfErr, IfSome, OnOk, OnErr};
ghost use Rattle.record_log.specs.Frames.{batch_of};
ghost use Rattle.record_log.specs.Images.{IsReady};
ghost use Rattle.record_log.specs.Records.{greatest_clock};
ghost use Rattle.shared_log.specs.LogValues.{StandsFor, StandsStill, HasQueued, RefusesToQueue, IsPutBack, IsPutLost, IsTaken, mark_of, opened_of};

use crate::mark::{AtOpening, Mark};
use crate::noted::{Noted, OpenedLog};
use disks::Disk;
use q_base::{Commit, Memory};
use q_outside::Failed;
use record_log::{Batch, Body, Log};
use std::alloc::Global;
use std::marker::Model;
use std::mem;
use std::snapshot::Snapshot;
use turnstile::Stands;

/// The log, unless one who stores has it, and what is queued for it.
#[derive(Drop)]
pub struct LogValue<K: Disk + Drop> {
    log: Option<Log<K>>,
    /// What was queued and not taken.
    pending: Batch,
    /// A batch without records, which takes its place.
    spare: Option<Batch>,
    /// The number of the batch that was taken last. No clause reads it.
    batch: u64,
    /// The number of entries of the history.
    count: u64,
    queued: Mark,
    taken: Mark,
    stored: Mark,
    /// Whether one who is to store waits for others, so that they share its sync. No clause reads it.
    is_gathering: bool,
    is_broken: bool,
    opened: OpenedLog<K>,
}

impl<K: Disk + Drop> Model for LogValue<K> {
    ghost use Rattle.shared_log.specs.LogValues.{LogValueView, mark_of};

    ghost Value = { LogValueView };

    ghost view = { λ v. record {
      opened = v.opened;
      log = v.log;
      pending = v.pending;
      count = v.count;
      queued = mark_of v.queued;
      taken = mark_of v.taken;
      stored = mark_of v.stored;
      broken = v.is_broken;
    } };
}

impl<K: Disk + Drop> Stands for LogValue<K> {
    ghost use Rattle.shared_log.specs.LogValues.{StandsFor, AreFew, opened_of};
    ghost use Rattle.std.proofs.Common.{subst};

    type Entry = Noted;

    type Setting = OpenedLog<K>;

    ghost setting = { opened_of };

    ghost legal = { AreFew };

    ghost stands = { StandsFor };

    ghost is_legal = { λ value notes stands. subst (λ n. n < 2 ^ 64) stands.counted stands.small };

    fn entries(&self) -> u64 {
        self.count
    }
}

/// Why a record was not queued.
#[derive(Clone, Copy, Debug, PartialEq, Eq)]
pub enum Unqueued {
    /// A commit before it is not queued yet.
    Early,
    Memory,
    /// The disk failed, or the record of a commit was lost.
    Broken,
}

/// What one who stores has in hand: the log, and the records to add to it.
#[derive(Drop)]
pub struct Work<K: Disk + Drop> {
    pub log: Log<K>,
    pub batch: Batch,
    /// The number of the batch. No clause reads it.
    pub number: u64,
    /// How far the log has come without them.
    pub from: Mark,
    /// How far it has come with them.
    pub to: Mark,
}

impl<K: Disk + Drop> LogValue<K> {
    /// The value of a log that was opened, with nothing queued.
    pub fn new(alloc: Global, log: Log<K>, at: AtOpening) -> Result<LogValue<K>, Memory>
        requires { IsReady log.history log.gate }
        ensures stands { IfOk result (λ v. StandsFor v []) }
        ensures opened { IfOk result (λ v. opened_of v ≡ record { log = log; commits = at.commits; moment = at.moment }) }
    {
        let mark = Mark {
            frames: 0,
            commits: at.commits,
            moment: at.moment,
        };
        let shown = Snapshot::of(&log);
        let opened = OpenedLog { log: shown, at };
        Ok(LogValue {
            log: Some(log),
            pending: Batch::new(alloc)?,
            spare: Some(Batch::new(alloc)?),
            batch: 0,
            count: 0,
            queued: mark,
            taken: mark,
            stored: mark,
            is_gathering: false,
            is_broken: false,
            opened,
        })
    }

    /// How far the queue has come.
    pub fn queued(&self) -> Mark
        ensures { mark_of result ≡ self.now.queued }
    {
        self.queued
    }

    /// What is stored.
    pub fn stored(&self) -> Mark
        ensures { mark_of result ≡ self.now.stored }
    {
        self.stored
    }

    /// Whether the disk failed.
    pub fn is_broken(&self) -> bool
        ensures { result ≡ self.now.broken }
    {
        self.is_broken
    }

    /// Whether records are queued and nobody has the log.
    pub fn has_work(&self) -> bool
        ensures whole { result ≡ true → self.now.broken ≡ false }
        ensures some { result ≡ true → self.now.pending ≡ batch_of [] → ⊥ }
    {
        self.log.is_some() && !self.is_broken && !self.pending.is_empty()
    }

    /// The number of the batch behind which so many commits are stored and a moment is kept, as far as they
    /// were queued: the one that was taken last, or the next.
    pub fn batch_of(&self, commits: Commit, moment: u64) -> u64 {
        if commits <= self.taken.commits && moment <= self.taken.moment {
            return self.batch;
        }
        self.batch.saturating_add(1)
    }

    /// Whether one who is to store waits for others.
    pub fn is_gathering(&self) -> bool {
        self.is_gathering
    }

    /// Notes that one who is to store waits for others first.
    pub fn gather(&mut self)
        ensures { self.new ≡ self.old }
    {
        self.is_gathering = true;
    }

    /// Queues a commit, where it is the next one. It was made at a clock in seconds since 1970.
    pub fn queue(&mut self, commit: Commit, clock: u64, body: &Body) -> Result<(), Unqueued>
        requires clock { clock ≤ greatest_clock }
        requires count { self.old.count + 1 < 2 ^ 64 }
        ensures queued { OnOk result (HasQueued self.old self.new (record { kind = 1; clock = clock; body = body.now })) }
        ensures next { OnOk result (commit ≡ self.old.queued.commits + 1) }
        ensures refused { IfErr result (RefusesToQueue self.old commit) }
        ensures same { OnErr result (self.new ≡ self.old) }
    {
        if self.is_broken {
            return Err(Unqueued::Broken);
        }
        if commit == 0 || commit - 1 != self.queued.commits {
            return Err(Unqueued::Early);
        }
        if self.pending.add_body(clock, body).is_err() {
            return Err(Unqueued::Memory);
        }
        self.queued.frames = self.queued.frames.saturating_add(1);
        self.queued.commits = commit;
        self.count += 1;
        Ok(())
    }

    /// Queues the record that a moment is kept, in seconds since 1970.
    pub fn queue_moment(&mut self, moment: u64) -> Result<(), Unqueued>
        requires clock { moment ≤ greatest_clock }
        requires count { self.old.count + 1 < 2 ^ 64 }
        ensures queued { OnOk result (HasQueued self.old self.new (record { kind = 2; clock = moment; body = [] })) }
        ensures same { OnErr result (self.new ≡ self.old) }
    {
        if self.is_broken {
            return Err(Unqueued::Broken);
        }
        if self.pending.add_moment(moment).is_err() {
            return Err(Unqueued::Memory);
        }
        self.queued.frames = self.queued.frames.saturating_add(1);
        self.queued.moment = self.queued.moment.max(moment);
        self.count += 1;
        Ok(())
    }

    /// Takes the log and what is queued, where both are there.
    pub fn take_out(&mut self) -> Option<Work<K>>
        ensures taken { IfSome result (λ w. IsTaken self.old self.new w.log w.batch (mark_of w.from) (mark_of w.to)) }
        ensures none { result ≡ None → self.new ≡ self.old }
    {
        if !self.has_work() {
            return None;
        }
        let mut spare = self.spare.take()?;
        spare.clear();
        let Some(log) = self.log.take() else {
            self.spare = Some(spare);
            return None;
        };
        let batch = mem::replace(&mut self.pending, spare);
        self.taken = self.queued;
        self.is_gathering = false;
        self.batch = self.batch.saturating_add(1);
        Some(Work {
            log,
            batch,
            number: self.batch,
            from: self.stored,
            to: self.queued,
        })
    }

    /// Takes the log back, with what came of storing what was taken with it. Where it was stored, and is
    /// told so, that is one entry. What comes in is known by its type alone, so it is looked at whether it is
    /// what was taken last. It always is; else it would be let go.
    pub fn put_back(&mut self, work: Work<K>, stored: Result<(), Failed>) -> Result<(), Failed>
        requires { self.old.count + 1 < 2 ^ 64 }
        ensures back { OnOk result (IsPutBack self.old self.new work.log (mark_of work.from) (mark_of work.to)) }
        ensures done { OnOk result (stored ≡ Ok tt) }
        ensures lost { OnErr result (IsPutLost self.old self.new work.log (mark_of work.from)) }
    {
        let Work {
            log,
            batch,
            from,
            to,
            ..
        } = work;
        let mut batch = batch;
        batch.clear();
        self.spare = Some(batch);
        if self.log.is_some() || self.stored != from || self.taken != to {
            self.is_broken = true;
            return Err(Failed);
        }
        self.log = Some(log);
        if stored.is_err() {
            self.is_broken = true;
            return Err(Failed);
        }
        self.stored = to;
        self.count += 1;
        Ok(())
    }

    /// The log, where nobody has it.
    pub fn into_log(self) -> Option<Log<K>>
        ensures { result ≡ self.log }
    {
        self.log
    }

    /// The store is at its end for writes: a commit was made that cannot be queued.
    pub fn give_up(&mut self)
        ensures broken { self.new ≡ record self.old { broken = true } }
        ensures stands { StandsStill self.old self.new }
    {
        self.is_broken = true;
    }
}
