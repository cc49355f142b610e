//! A log with all its records.
ghost use Rattle.std.specs.Prelude.{◌≡◌, ◌≤◌, IfOk, IfErr, MatchResult};
ghost use Rattle.record_log.specs.Images.{IsReady};
ghost use Rattle.record_log.specs.Opened.{HasOpened, RefusesLog, LeavesOpening};

use crate::log::Log;
use crate::log_record::LogRecord;
use crate::opening::Opening;
use crate::refusal::LogRefusal;
use disks::Disk;
use std::alloc::Global;

/// A log, and the records that it had when it was opened.
#[derive(Drop)]
pub struct Opened<K: Disk> {
    pub log: Log<K>,
    pub records: Vec<LogRecord>,
}

/// Opens the log on a disk, and repairs what a crash left. The records take memory: a caller that needs
/// one at a time takes an `Opening`.
pub fn open_log<K: Disk>(alloc: Global, disk: K) -> Result<Opened<K>, (K, LogRefusal)>
    ensures opened { IfOk result (λ o. HasOpened (K.at disk).history o.log o.records.items) }
    ensures ready { IfOk result (λ o. IsReady o.log.history o.log.gate) }
    ensures refused { IfErr result (λ e. RefusesLog (K.at disk) (K.at e.0) e.1) }

    // The disk is as it was until it is synced. From then on a crash at any moment leaves what was read, or
    // a repaired log.
    ensures leaves { MatchResult result (λ o. LeavesOpening (K.at disk).history o.log.history) (λ e. LeavesOpening (K.at disk).history (K.at e.0).history) }
{
    let mut opening = match Opening::begin(alloc, disk) {
        Ok(opening) => opening,
        Err(refused) => return Err(refused),
    };
    let mut records = Vec::new(alloc);
    for _n in 0..u64::MAX {
        match opening.next() {
            Ok(Some(found)) => match records.push(found) {
                Ok(()) => {}
                Err(_) => return Err((opening.into_disk(), LogRefusal::Memory)),
            },
            Ok(None) => {
                return Ok(Opened {
                    log: opening.into_log(),
                    records,
                });
            }
            Err(refusal) => return Err((opening.into_disk(), refusal)),
        }
    }
    Err((opening.into_disk(), LogRefusal::Memory))
}
