//! A write and the sync that stores it.
ghost use Rattle.std.specs.Prelude.{◌<◌, ◌≤◌, ◌+◌, ◌^◌, length, OnOk, OnErr};
ghost use Rattle.disks.specs.Histories.{IsWithin};
ghost use Rattle.record_log.specs.Stores.{HasStored};

use disks::Disk;
use q_outside::Failed;

/// Writes bytes from a place on, and syncs.
pub(crate) fn store<D: Disk>(disk: &mut D, place: u64, bytes: &[u8]) -> Result<(), Failed>
    requires { IsWithin (D.at disk.old).history place }
    ensures stored { HasStored (D.at disk.old).history (D.at disk.new).history place bytes.now result }
    ensures room { OnOk result (place + length bytes.now < 2 ^ 64) }
    ensures failed { OnErr result ((D.at disk.old).faults < (D.at disk.new).faults) }
    ensures faults { (D.at disk.old).faults ≤ (D.at disk.new).faults }
{
    match disk.write_at(place, bytes) {
        Ok(()) => {}
        Err(_) => return Err(Failed),
    }
    match disk.sync() {
        Ok(()) => Ok(()),
        Err(_) => Err(Failed),
    }
}
