//! A log on a disk, to which batches are added.
ghost use Rattle.std.specs.Prelude.{◌≡◌, ◌≤◌, ◌<◌, ◌+◌, ◌^◌, OnOk, OnErr};
ghost use Rattle.record_log.specs.Logs.{LogView, HasAppended, LeavesAppended};
ghost use Rattle.record_log.specs.Images.{IsReady};

use crate::adding::append_at;
use crate::batch::Batch;
use disks::{Disk, MemoryDisk};
use q_outside::Failed;
use std::marker::Model;
use std::sync::ledger::Ledger;

/// A log on a disk, and the place of its closed gate. Contracts see what the disk shows, and that place.
#[derive(Drop)]
pub struct Log<K: Disk> {
    disk: K,
    gate: u64,
}

impl<K: Disk> Model for Log<K> {
    ghost use Rattle.std.specs.Prelude.{◌+◌, ◌<◌, ◌^◌};
    ghost use Rattle.record_log.specs.Logs.{LogView};

    ghost Value = { LogView };

    ghost view = { λ l. record { history = (K.at l.disk).history; faults = (K.at l.disk).faults; gate = l.gate } };

    ghost invariant = { λ l. l.gate + 1 < 2 ^ 64 };
}

impl<K: Disk> Log<K> {
    /// Adds a batch, by four calls of the disk: the records are written behind the gate and synced, then
    /// the gate is opened and synced. A batch without a record makes none. After a fault the log is not to
    /// be used: open it again.
    pub fn append(&mut self, batch: &Batch) -> Result<(), Failed>
        requires { IsReady self.old.history self.old.gate }

        ensures ready { OnOk result (IsReady self.new.history self.new.gate) }
        ensures appended { OnOk result (HasAppended self.old self.new batch.now) }

        // A crash at any moment leaves the log as it was, or with the batch.
        ensures leaves { LeavesAppended self.old self.new batch.now }

        ensures failed { OnErr result (self.old.faults < self.new.faults) }
        ensures faults { self.old.faults ≤ self.new.faults }
    {
        let bytes = batch.as_slice();
        if bytes.len() == 1 {
            return Ok(());
        }
        match append_at(&mut self.disk, self.gate, &bytes[1..]) {
            Ok(()) => {}
            Err(_) => return Err(Failed),
        }
        self.gate += bytes.len() as u64 - 1;
        Ok(())
    }

    /// The log on a disk whose closed gate is at this place.
    pub(crate) fn at(disk: K, gate: u64) -> Log<K>
        requires { gate + 1 < 2 ^ 64 }
        ensures { result ≡ record { history = (K.at disk).history; faults = (K.at disk).faults; gate = gate } }
    {
        Log { disk, gate }
    }

    /// The disk, that of a log that failed too.
    pub fn into_disk(self) -> K
        ensures history { (K.at result).history ≡ self.history }
        ensures faults { (K.at result).faults ≡ self.faults }
    {
        self.disk
    }
}

impl<L: Ledger> Log<MemoryDisk<L>> {
    /// The machine stops after this many calls of the disk more: each call after them fails and changes
    /// nothing.
    pub fn stop_after(&mut self, calls: u64)
        ensures { self.new ≡ self.old }
    {
        self.disk.stop_after(calls);
    }
}
