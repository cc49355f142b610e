//! The beginning of a log: the mark, or a new log in the place of a disk that has hardly a byte.
ghost use Rattle.std.specs.Prelude.{◌≡◌, ◌<◌, ◌≤◌, [], IfOk, IfErr, OnOk, OnErr, MatchResult, Decides};
ghost use Rattle.disks.specs.Histories.{Goes, HasWritten};
ghost use Rattle.record_log.specs.Frames.{mark};
ghost use Rattle.record_log.specs.Images.{new_log};
ghost use Rattle.record_log.specs.Openings.{HasBegun, LeavesBegun, LeavesStart, RefusesMark};
ghost use Rattle.record_log.specs.Starts.{MarkIs};
ghost use Rattle.record_log.specs.Stores.{HasStored};

use crate::refusal::LogRefusal;
use crate::store::store;
use disks::Disk;
use q_outside::Failed;

/// What every log begins with.
const MARK: [u8; 4] = [81, 83, 74, 49];

/// A log without a record: the mark and a closed gate.
const NEW: [u8; 5] = [81, 83, 74, 49, 0];

/// The place of the first gate.
pub(crate) const FIRST_GATE: u64 = 4;

/// Syncs a disk, and writes a new log where it has at most 5 bytes, or looks for the mark.
pub(crate) fn start<D: Disk>(disk: &mut D) -> Result<(), LogRefusal>
    ensures begun { OnOk result (HasBegun (D.at disk.old).history (D.at disk.new).history FIRST_GATE) }
    ensures refused { IfErr result (λ e. RefusesMark (D.at disk.old) (D.at disk.new) e) }
    ensures leaves { MatchResult result (λ _. LeavesBegun (D.at disk.old).history (D.at disk.new).history) (λ _. LeavesStart (D.at disk.old).history (D.at disk.new).history) }
    ensures faults { (D.at disk.old).faults ≤ (D.at disk.new).faults }
{
    match disk.sync() {
        Ok(()) => {}
        Err(_) => return Err(LogRefusal::DiskFault),
    }
    if disk.len() <= NEW.len() as u64 {
        return match store(disk, 0, &NEW) {
            Ok(()) => Ok(()),
            Err(_) => Err(LogRefusal::DiskFault),
        };
    }
    match has_mark(disk) {
        Ok(true) => Ok(()),
        Ok(false) => Err(LogRefusal::BadMark),
        Err(_) => Err(LogRefusal::DiskFault),
    }
}

/// Whether a disk begins with the mark.
fn has_mark<D: Disk>(disk: &mut D) -> Result<bool, Failed>
    ensures mark { IfOk result (λ found. MarkIs (D.at disk.old).history found) }
    ensures kept { Goes (D.at disk.old).history (D.at disk.new).history [] }
    ensures failed { OnErr result ((D.at disk.old).faults < (D.at disk.new).faults) }
    ensures faults { (D.at disk.old).faults ≤ (D.at disk.new).faults }
{
    let mut head = [0; 4];
    match disk.read_at(0, &mut head) {
        Ok(count) => Ok(count == 4 && is_mark(&head)),
        Err(_) => Err(Failed),
    }
}

/// Whether bytes are the mark.
fn is_mark(head: &[u8]) -> bool
    ensures { Decides result (head.now ≡ mark) }
{
    head == MARK.as_slice()
}
