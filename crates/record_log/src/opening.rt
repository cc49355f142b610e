//! Opening a log: what a crash left is read, record by record, and repaired.
//!
//! ```text
//!   sync --> no more than 5 bytes: a new log is written --.
//!     |                                                    v
//!     '----> the mark ------------------------------> at a gate <--.
//!                                                      |  |  |     |
//!                             missing, or no record <--'  |  '-----'  open: a record is read
//!                                                         v
//!                                   not open: it is closed where it is not
//! ```
//!
//! It begins with a sync, so that nothing is pending of what was written before. A gate that is neither
//! open nor closed is one whose write a crash cut off: it is closed, so that what waits behind it stays
//! out of the log for good.
ghost use Rattle.std.specs.Prelude.{◌≡◌, ◌≤◌, ◌<◌, ◌+◌, ◌^◌, ℕ, List, MatchResult, IfOk, IfErr, Ok, Err, None};
ghost use Rattle.record_log.specs.declared.refusal.LogRefusal.TheVariants.{DiskFault};
ghost use Rattle.disks.specs.Histories.{Goes};
ghost use Rattle.record_log.specs.Frames.{Frame};
ghost use Rattle.record_log.specs.Images.{IsReady};
ghost use Rattle.record_log.specs.Logs.{LogView};
ghost use Rattle.record_log.specs.Openings.{IsReading, LeavesBegun, LeavesStart, LeavesClosing, HasBegun, RefusesMark, Finds};

use crate::gate::{Gate, close_gate, read_gate};
use crate::log::Log;
use crate::log_record::LogRecord;
use crate::refusal::LogRefusal;
use crate::start::{FIRST_GATE, start};
use disks::Disk;
use std::alloc::Global;
use std::marker::Model;

/// A log that is being read. Contracts see what its disk shows, and the place of the next gate.
#[derive(Drop)]
pub struct Opening<K: Disk> {
    alloc: Global,
    disk: K,
    place: u64,
    /// The body of the record that was read last.
    body: Vec<u8>,
}

impl<K: Disk> Model for Opening<K> {
    ghost use Rattle.record_log.specs.Logs.{LogView};

    ghost Value = { LogView };

    ghost view = { λ o. record { history = (K.at o.disk).history; faults = (K.at o.disk).faults; gate = o.place } };
}

impl<K: Disk> Opening<K> {
    /// Begins to read a disk: syncs it, writes a new log where it has at most 5 bytes, and else looks for
    /// the mark.
    pub fn begin(alloc: Global, mut disk: K) -> Result<Opening<K>, (K, LogRefusal)>
        ensures begun { IfOk result (λ o. HasBegun (K.at disk).history o.history o.gate) }
        ensures faults { IfOk result (λ o. (K.at disk).faults ≤ o.faults) }
        ensures refused { IfErr result (λ e. RefusesMark (K.at disk) (K.at e.0) e.1) }

        // The disk is as it was until it is synced. From then on a crash at any moment leaves what reads
        // gave, or a new log that is not yet written.
        ensures leaves { MatchResult result (λ o. LeavesBegun (K.at disk).history o.history) (λ e. LeavesStart (K.at disk).history (K.at e.0).history) }
    {
        match start(&mut disk) {
            Ok(()) => Ok(Opening {
                alloc,
                disk,
                place: FIRST_GATE,
                body: Vec::new(alloc),
            }),
            Err(refusal) => Err((disk, refusal)),
        }
    }

    /// Reads the next record. None is there where the next gate is not open; it is closed then.
    pub fn next(&mut self) -> Result<Option<LogRecord>, LogRefusal>
        ensures found { (fs : List Frame) (rest : List ℕ) → IsReading self.old.history self.old.gate fs rest → Finds self.old self.new fs rest result }
        ensures leaves { (fs : List Frame) (rest : List ℕ) → IsReading self.old.history self.old.gate fs rest → LeavesClosing self.old.history self.new.history fs rest }
        ensures failed { result ≡ Err DiskFault → self.old.faults < self.new.faults }
        ensures hidden { self.old.history ≡ None → self.new.history ≡ None }
        ensures room { result ≡ Ok None → self.new.gate + 1 < 2 ^ 64 }
        ensures faults { self.old.faults ≤ self.new.faults }
    {
        match read_gate(self.alloc, &mut self.disk, self.place, &mut self.body) {
            Ok(Gate::Open { says, next }) => {
                self.place = next;
                Ok(Some(says))
            }
            Ok(Gate::Shut { gate }) => match close_gate(&mut self.disk, self.place, gate) {
                Ok(()) => Ok(None),
                Err(_) => Err(LogRefusal::DiskFault),
            },
            Err(refusal) => Err(refusal),
        }
    }

    /// The place of the next gate.
    pub fn place(&self) -> u64
        ensures { result ≡ self.now.gate }
    {
        self.place
    }

    /// The log, once its gate is closed.
    pub fn into_log(self) -> Log<K>
        requires ready { IsReady self.history self.gate }
        requires room { self.gate + 1 < 2 ^ 64 }
        ensures { result ≡ self }
    {
        Log::at(self.disk, self.place)
    }

    /// The disk, that of a log that is not read to its end too.
    pub fn into_disk(self) -> K
        ensures history { (K.at result).history ≡ self.history }
        ensures faults { (K.at result).faults ≡ self.faults }
    {
        self.disk
    }
}
