//! Looking through a log before a store is made for it: whether it is sound, and which moment it keeps.
ghost use Rattle.std.specs.Prelude.{◌≡◌, IfOk};
ghost use Rattle.kept_desk.specs.Kept.{HasMoment, moment_behind};

use disks::Disk;
use record_log::{LogRecord, LogRefusal, Opening};
use std::alloc::Global;

/// Reads the log on a disk to its end, record by record, and tells the latest moment that it keeps, in
/// seconds since 1970, and 0 where it keeps none. Where there is no log a new one is written.
pub(crate) fn look_through<K: Disk + Drop>(
    alloc: Global,
    disk: K,
) -> Result<(K, u64), (K, LogRefusal)>
    ensures { IfOk result (λ r. HasMoment (K.at disk).history r.1) }
{
    let mut opening = match Opening::begin(alloc, disk) {
        Ok(opening) => opening,
        Err(refused) => return Err(refused),
    };
    let mut moment = 0;
    for _n in 0..u64::MAX {
        match opening.next() {
            Ok(Some(said)) => moment = moment_with(moment, &said),
            Ok(None) => return Ok((opening.into_disk(), moment)),
            Err(refusal) => return Err((opening.into_disk(), refusal)),
        }
    }
    Err((opening.into_disk(), LogRefusal::Memory))
}

/// The moment that is kept behind a record.
pub(crate) fn moment_with(moment: u64, said: &LogRecord) -> u64
    ensures { result ≡ moment_behind moment said.now }
{
    match said {
        LogRecord::Commit { .. } => moment,
        LogRecord::Moment { clock } => moment.max(*clock),
    }
}
