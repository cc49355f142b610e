//! A log behind its turnstile, with bells for those who wait.
ghost use Rattle.std.specs.Prelude.{◌≡◌, ℕ, ◌+◌, IfOk};
ghost use Rattle.record_log.specs.Images.{IsReady};
ghost use Rattle.shared_log.specs.LogValues.{opened_of};
ghost use Rattle.shared_log.specs.Shared.{IsSeated};
ghost use Rattle.turnstile.specs.Seats.{setting_of, seen, HasOut, IsPart};

use crate::bells::{Bell, Bells};
use crate::log_value::LogValue;
use crate::mark::AtOpening;
use disks::{Disk, SyncPolicy};
use q_base::Memory;
use record_log::Log;
use std::alloc::Global;
use std::sync::atomic::{AtomicU64, Ordering};
use turnstile::{Seat, Turnstile};

/// A log that many share.
#[derive(Drop)]
pub struct SharedLog<K: Disk + Drop> {
    pub(crate) turnstile: Turnstile<LogValue<K>>,
    pub(crate) sync: SyncPolicy,
    /// Those ring where a batch was stored, or the disk failed.
    pub(crate) bells: Bells,
    /// It rings where a commit was queued for which another waits.
    pub(crate) queued: Bell,
    /// How many wait for a commit to be queued.
    pub(crate) early: AtomicU64,
}

impl<K: Disk + Drop> SharedLog<K> {
    /// The shared log over one that was opened, and its first seat.
    pub fn open(
        alloc: Global,
        log: Log<K>,
        at: AtOpening,
        sync: SyncPolicy,
    ) -> Result<(SharedLog<K>, Seat<LogValue<K>>), Memory>
        requires { IsReady log.history log.gate }
        ensures seat { IfOk result (λ r. IsSeated r.0.turnstile r.1) }
        ensures out { IfOk result (λ r. HasOut 0 r.1) }
        ensures opened { IfOk result (λ r. setting_of opened_of r.0.turnstile ≡ record { log = log; commits = at.commits; moment = at.moment }) }
    {
        let (turnstile, seat) = Turnstile::open(alloc, LogValue::new(alloc, log, at)?)?;
        let shared = SharedLog {
            turnstile,
            sync,
            bells: Bells::new(),
            queued: Bell::new(),
            early: AtomicU64::new(0),
        };
        Ok((shared, seat))
    }

    /// A further seat.
    pub fn split(&self, seat: &mut Seat<LogValue<K>>) -> Seat<LogValue<K>>
        requires { IsSeated self.now.turnstile seat.old }
        ensures seat { IsSeated self.now.turnstile seat.new }
        ensures own { IsSeated self.now.turnstile result }
        ensures known { seen seat.new ≡ seen seat.old }
        ensures same { seen result ≡ seen seat.old }
        ensures out { (n : ℕ) → HasOut n seat.old → HasOut (n + 1) seat.new × IsPart result }
    {
        self.turnstile.split(seat)
    }

    /// Wakes those who came early with a commit, where there are any.
    pub(crate) fn wake_early(&self) {
        if self.early.load(Ordering::SeqCst) != 0 {
            self.queued.ring();
        }
    }
}
