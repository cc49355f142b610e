//! One who keeps the commits of a server in a log on a disk.
ghost use Rattle.std.specs.Prelude.{◌≡◌, ℕ, ◌+◌, ◌<◌, ◌^◌, List, Option, Some, true, IfOk, OnOk};
ghost use Rattle.commit_book.specs.declared.change.Change.{Change as AChange};
ghost use Rattle.disks.specs.Histories.{History};
ghost use Rattle.record_log.specs.Images.{IsReady};
ghost use Rattle.record_log.specs.Openings.{HasBegun};
ghost use Rattle.kept_desk.specs.Filling.{Fills, Writes};
ghost use Rattle.kept_desk.specs.Kept.{HasCommits, HasMoment, IsOpenedOn};
ghost use Rattle.kept_desk.specs.Main.{LogTurnstile, log_in};
ghost use Rattle.kept_desk.specs.Optional.{kept_with, opened_with};
ghost use Rattle.shared_log.specs.LogValues.{opened_of};
ghost use Rattle.turnstile.specs.Seats.{setting_of};

use crate::filling::fill;
use crate::keeper::{Keeper, fill_with_none};
use crate::log_keeping::LogKeeping;
use crate::looking::look_through;
use crate::main_log::Main;
use crate::unfilled::Unfilled;
use disks::{Disk, SyncPolicy};
use hub_desk::Desk;
use q_base::{Memory, Moment};
use record_log::{LogRefusal, Opening};
use shared_log::{AtOpening, LogHand, LogValue, SharedLog};
use std::alloc::Global;
use std::rt::Clock;
use std::sync::{Arc, Wait};

/// Who hears how the opening of a log goes. It has no part in what is served.
pub trait Notes {
    /// Hears that so many commits were read so far.
    fn note(&self, commits: u64);

    /// Hears that a log was opened, with so many commits.
    fn opened(&self, commits: u64);

    /// Hears why a log is refused.
    fn refused(&self, refusal: Unfilled);
}

/// One who keeps the commits of a server in a log on a disk.
///
/// The log is read twice: once before the store is made, which is to know how long its pages need every bit,
/// and then to fill the store.
#[derive(Drop)]
pub struct LogKeeper<R: Wait + Clock + Copy + Drop, K: Disk + Drop, N: Notes + Drop> {
    rt: R,
    alloc: Global,
    sync: SyncPolicy,
    notes: N,
    /// The latest moment that the log keeps, in seconds since 1970, and 0 where it keeps none.
    moment: u64,
    /// For how long caches may keep a reply of the store, in seconds.
    longest: u64,
    /// The disk with the log, until the store is filled.
    disk: Option<K>,
    main: Option<Main<K>>,
}

impl<R: Wait + Clock + Copy + Drop, K: Disk + Drop, N: Notes + Drop> LogKeeper<R, K, N> {
    /// One who keeps them in the log of a disk, which is read to its end, of a store whose replies caches may
    /// keep for so many seconds. Where there is none a new log is written. A disk that has something else
    /// comes back, and so does one whose log is not sound.
    pub fn begin(
        rt: R,
        alloc: Global,
        disk: K,
        sync: SyncPolicy,
        longest: u64,
        notes: N,
    ) -> Result<LogKeeper<R, K, N>, (K, LogRefusal)>
        ensures moment { IfOk result (λ keeper. HasMoment (K.at disk).history keeper.moment) }
        ensures longest { IfOk result (λ keeper. keeper.longest ≡ longest) }
    {
        match look_through(alloc, disk) {
            Ok((disk, moment)) => Ok(LogKeeper {
                rt,
                alloc,
                sync,
                notes,
                moment,
                longest,
                disk: Some(disk),
                main: None,
            }),
            Err((disk, refusal)) => {
                notes.refused(Unfilled::Log(refusal));
                Err((disk, refusal))
            }
        }
    }

    /// Shares a log that was read to its end.
    fn share(&mut self, opening: Opening<K>, at: AtOpening) -> Result<(), Unfilled>
        requires ready { IsReady opening.history opening.gate }
        requires room { opening.gate + 1 < 2 ^ 64 }
        ensures longest { self.new.longest ≡ self.old.longest }
        ensures opened { OnOk result ((place : LogTurnstile) → log_in self.new.main ≡ Some place → setting_of opened_of place ≡ record { log = opening; commits = at.commits; moment = at.moment }) }
    {
        let opened = SharedLog::open(self.alloc, opening.into_log(), at, self.sync);
        let Ok((shared, seat)) = opened else {
            return Err(Unfilled::Memory);
        };
        match Arc::new(self.alloc, shared) {
            Ok(shared) => {
                self.main = Some(Main { shared, seat });
                self.notes.opened(at.commits);
                Ok(())
            }
            Err(_) => Err(Unfilled::Memory),
        }
    }

    /// Fills a store, and shares the log.
    #[tactic(auto, using(crate::proofs::ResultLemmas::kept_taken, crate::proofs::ResultLemmas::opened_taken))]
    fn fill_from<D: Desk>(&mut self, desk: &mut D, moment: Moment) -> Result<(), Unfilled>
        ensures fills { Fills (D.setting desk.old) (D.seen desk.old) (D.seen desk.new) (D.mine desk.old) (D.mine desk.new) }
        ensures written { OnOk result ((changes : List (ℕ × AChange)) × kept_with (λ disk. HasCommits (K.at disk).history) self.old.disk changes × Writes (D.mine desk.old) (D.mine desk.new) changes) }
        ensures opened { OnOk result ((place : LogTurnstile) → log_in self.new.main ≡ Some place → opened_with (λ disk. IsOpenedOn (K.at disk).history) self.old.disk place) }
        ensures anchor { D.anchor desk.new ≡ D.anchor desk.old }
        ensures setting { D.setting desk.new ≡ D.setting desk.old }
        ensures longest { self.new.longest ≡ self.old.longest }
    {
        match self.disk.take() {
            Some(disk) => self.fill_with(desk, disk, moment),
            None => {
                fill_with_none(desk);
                Err(Unfilled::Memory)
            }
        }
    }

    /// The same with the log of a disk.
    fn fill_with<D: Desk>(&mut self, desk: &mut D, disk: K, moment: Moment) -> Result<(), Unfilled>
        ensures fills { Fills (D.setting desk.old) (D.seen desk.old) (D.seen desk.new) (D.mine desk.old) (D.mine desk.new) }
        ensures written { OnOk result ((changes : List (ℕ × AChange)) × HasCommits (K.at disk).history changes × Writes (D.mine desk.old) (D.mine desk.new) changes) }
        ensures opened { OnOk result ((place : LogTurnstile) → log_in self.new.main ≡ Some place → IsOpenedOn (K.at disk).history place) }
        ensures anchor { D.anchor desk.new ≡ D.anchor desk.old }
        ensures setting { D.setting desk.new ≡ D.setting desk.old }
        ensures longest { self.new.longest ≡ self.old.longest }
    {
        match Opening::begin(self.alloc, disk) {
            Ok(opening) => self.fill_by(desk, opening, moment),
            Err((_disk, refusal)) => {
                fill_with_none(desk);
                Err(Unfilled::Log(refusal))
            }
        }
    }

    /// The same with a log that is to be read, whatever disk it was begun with.
    fn fill_by<D: Desk>(
        &mut self,
        desk: &mut D,
        opening: Opening<K>,
        moment: Moment,
    ) -> Result<(), Unfilled>
        requires { (found : Option History) × HasBegun found opening.history opening.gate }
        ensures fills { Fills (D.setting desk.old) (D.seen desk.old) (D.seen desk.new) (D.mine desk.old) (D.mine desk.new) }
        ensures written { OnOk result ((found : Option History) → HasBegun found opening.history opening.gate → (changes : List (ℕ × AChange)) × HasCommits found changes × Writes (D.mine desk.old) (D.mine desk.new) changes) }
        ensures opened { OnOk result ((found : Option History) → HasBegun found opening.history opening.gate → (place : LogTurnstile) → log_in self.new.main ≡ Some place → IsOpenedOn found place) }
        ensures anchor { D.anchor desk.new ≡ D.anchor desk.old }
        ensures setting { D.setting desk.new ≡ D.setting desk.old }
        ensures longest { self.new.longest ≡ self.old.longest }
    {
        let mut opening = opening;
        let at = fill(desk, &mut opening, &self.notes, moment)?;
        self.share(opening, at)
    }
}

impl<R, K, N> Keeper for LogKeeper<R, K, N>
where
    R: Wait + Clock + Copy + Send + Drop + 'static,
    K: Disk + Send + Drop + 'static,
    N: Notes + Drop,
{
    type Hand = LogKeeping<R, K>;

    ghost use Rattle.std.specs.Prelude.{true};
    ghost use Rattle.kept_desk.specs.Kept.{HasCommits, IsOpenedOn};
    ghost use Rattle.kept_desk.specs.Main.{log_in};
    ghost use Rattle.kept_desk.specs.Optional.{kept_with, opened_with};

    ghost may_fail = { λ _. true };

    ghost kept = { λ keeper changes. kept_with (λ disk. HasCommits (K.at disk).history) keeper.disk changes };

    ghost moment = { λ keeper. keeper.moment };

    ghost longest = { λ keeper. keeper.longest };

    ghost log = { λ keeper. log_in keeper.main };

    ghost opens = { λ keeper place. opened_with (λ disk. IsOpenedOn (K.at disk).history) keeper.disk place };

    fn guard(&self) -> u64 {
        self.moment
    }

    fn fill<D: Desk>(&mut self, desk: &mut D, up_to: Moment) -> Result<(), Unfilled> {
        match self.fill_from(desk, up_to) {
            Ok(()) => Ok(()),
            Err(refusal) => {
                self.notes.refused(refusal);
                Err(refusal)
            }
        }
    }

    fn hand(&mut self) -> Result<LogKeeping<R, K>, Memory> {
        let Some(main) = &mut self.main else {
            return Err(Memory);
        };
        let shared = Arc::try_clone(&main.shared)?;
        let seat = main.shared.split(&mut main.seat);
        let hand = LogHand::new(self.rt, self.alloc, shared, seat);
        Ok(LogKeeping::new(hand, self.longest))
    }
}
