//! One who keeps the commits of a desk in a log on a disk.
ghost use Rattle.std.specs.Prelude.{◌≡◌};

use crate::keeping::Keeping;
use disks::Disk;
use hub_desk::{Change, Unkept};
use q_base::{Commit, Memory, Moment};
use shared_log::{LogHand, LogValue};
use std::rt::Clock;
use std::sync::Wait;
use turnstile::Turnstile;

/// One who keeps the commits of a desk in a log on a disk, and for each read a moment behind the end of all
/// copies of its reply: so a store that is opened later, with whatever lifetimes of its own, knows how long
/// they may be kept.
#[derive(Drop)]
pub struct LogKeeping<R: Wait + Clock + Copy + Drop, K: Disk + Drop> {
    hand: LogHand<R, K>,
    /// For how long caches may keep a reply, in seconds.
    longest: u64,
}

impl<R: Wait + Clock + Copy + Drop, K: Disk + Drop> LogKeeping<R, K> {
    /// One who hands records to a shared log, of a store whose replies caches may keep for so many seconds.
    pub(crate) fn new(hand: LogHand<R, K>, longest: u64) -> LogKeeping<R, K>
        ensures hand { result.hand ≡ hand }
        ensures longest { result.longest ≡ longest }
    {
        LogKeeping { hand, longest }
    }
}

impl<R: Wait + Clock + Copy + Drop, K: Disk + Drop> Keeping for LogKeeping<R, K> {
    ghost use Rattle.std.specs.Prelude.{◌+◌, ◌<◌, true, min};
    ghost use Rattle.std.specs.Arc.{arc_value};
    ghost use Rattle.q_base.specs.Moment.{greatest_moment};
    ghost use Rattle.shared_log.specs.Shared.{Knows};

    type Log = Turnstile<LogValue<K>>;

    ghost log = { λ h. (arc_value h.hand.shared).turnstile };

    ghost keeps = { λ h n. Knows (arc_value h.hand.shared).turnstile h.hand.seat n 0 };

    ghost longest = { λ h. h.longest };

    ghost asks = { λ h until. min until greatest_moment < h.hand.wanted };

    ghost covers = { λ h until. Knows (arc_value h.hand.shared).turnstile h.hand.seat 0 (min until greatest_moment + 1) };

    ghost may_fail = { λ _. true };

    fn prepare(&mut self, change: &Change) -> Result<(), Memory> {
        self.hand.prepare_record(change)
    }

    fn take(&mut self, commit: Commit, clock: Moment) {
        self.hand.hand_in(commit, clock.seconds());
    }

    fn hear_read(&mut self, clock: Moment) {
        self.hand
            .note_read(clock.seconds().saturating_add(self.longest));
    }

    fn keep(&mut self, commits: Option<Commit>) -> Result<(), Unkept> {
        let Some(commits) = commits else {
            return Err(Unkept);
        };
        match self.hand.wait_for(commits) {
            Ok(()) => Ok(()),
            Err(_) => Err(Unkept),
        }
    }
}
