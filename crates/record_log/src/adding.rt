//! Adding a batch of records to a log, so that a crash leaves all of it or nothing.
//!
//! ```text
//!   .. record  0                           nothing is pending
//!   .. record  0  record 1 record 0        1. written behind the gate, 2. synced
//!   .. record  1  record 1 record 0        3. the gate is opened,      4. synced
//! ```
//!
//! 1. Until the gate is opened, what is behind it does not count, whatever a crash leaves of it.
//! 2. The gate is one byte, and is written only once all behind it is stored. So a crash leaves it
//!    closed, or open with the whole batch behind it; or as another byte, and then the batch waits.
//! 3. No checksum is trusted.
ghost use Rattle.std.specs.Prelude.{◌≡◌, ◌<◌, ◌≤◌, ◌+◌, ◌^◌, length, OnOk, OnErr};
ghost use Rattle.disks.specs.Histories.{IsWithin};
ghost use Rattle.record_log.specs.Appends.{HasAdded, LeavesLog};

use crate::store::store;
use disks::Disk;
use q_outside::Failed;

/// The byte of a gate that is open. A gate with any other is not.
pub const OPEN: u8 = 1;

/// The byte of a gate that is closed.
pub const CLOSED: u8 = 0;

/// Adds a batch behind the closed gate at a place. The text is the batch without its first gate.
pub(crate) fn append_at<D: Disk>(disk: &mut D, gate: u64, text: &[u8]) -> Result<(), Failed>
    requires room { gate + 1 < 2 ^ 64 }
    requires within { IsWithin (D.at disk.old).history (gate + 1) }

    ensures added { OnOk result (HasAdded (D.at disk.old).history (D.at disk.new).history gate text.now) }
    ensures room { OnOk result (gate + 1 + length text.now < 2 ^ 64) }

    // A crash at any moment leaves the log as it was, or with the batch.
    ensures leaves { LeavesLog (D.at disk.old).history (D.at disk.new).history gate text.now }

    ensures failed { OnErr result ((D.at disk.old).faults < (D.at disk.new).faults) }
    ensures faults { (D.at disk.old).faults ≤ (D.at disk.new).faults }
{
    match store(disk, gate + 1, text) {
        Ok(()) => {}
        Err(_) => return Err(Failed),
    }
    match store(disk, gate, &[OPEN]) {
        Ok(()) => Ok(()),
        Err(_) => Err(Failed),
    }
}
