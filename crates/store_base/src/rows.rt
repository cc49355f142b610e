//! Reading the rows of a base.
ghost use Rattle.std.specs.Prelude.{◌≡◌, ◌<◌, ◌≤◌, ◌+◌, ◌^◌, ℕ, List, Err, IfOk};
ghost use Rattle.store_base.specs.Rows.{FindsChange, FindsRow, FindsStart, IsPutIn, JudgesStart};
ghost use Rattle.store_base.specs.Windows.{Shows};
ghost use Rattle.store_base.specs.declared.refusal.BaseRefusal.TheVariants.{DiskFault};

use crate::base::BaseRow;
use crate::fields::{RowStart, Unread, change_in, row_start_in};
use crate::refusal::BaseRefusal;
use crate::window::Window;
use commit_book::Change;
use disks::Disk;
use q_base::Commit;
use record_log::GREATEST_CLOCK;
use std::alloc::Global;

/// The number of bytes before a row's body.
pub(crate) const ROW_START: usize = 20;

/// The length of the longest body: that of two names of 64 bytes and a document of 65,536.
pub(crate) const MOST_BODY: u32 = 65_666;

/// Reads the next row, which is to be behind a commit and at most at the horizon.
pub(crate) fn read_row<K: Disk>(
    alloc: Global,
    window: &mut Window<K>,
    last: Commit,
    horizon: Commit,
) -> Result<BaseRow, BaseRefusal>
    ensures found { (rest : List ℕ) → Shows window.old.history window.old.place rest → FindsRow last horizon window.old.place rest window.new result }
    ensures stands { IfOk result (λ row. (last < row.commit) × (row.commit ≤ horizon)) }
    ensures history { window.new.history ≡ window.old.history }
    ensures failed { result ≡ Err DiskFault → window.old.faults < window.new.faults }
    ensures faults { window.old.faults ≤ window.new.faults }
{
    let start = match read_start(window, last, horizon) {
        Ok(start) => start,
        Err(refusal) => return Err(refusal),
    };
    let change = match read_change(alloc, window, start.size) {
        Ok(change) => change,
        Err(refusal) => return Err(refusal),
    };
    Ok(BaseRow {
        commit: start.commit,
        clock: start.clock,
        change,
    })
}

/// Reads what stands before the body of the next row.
fn read_start<K: Disk>(
    window: &mut Window<K>,
    last: Commit,
    horizon: Commit,
) -> Result<RowStart, BaseRefusal>
    ensures found { (rest : List ℕ) → Shows window.old.history window.old.place rest → FindsStart last horizon window.old.place rest window.new result }
    ensures size { IfOk result (λ start. start.size ≤ MOST_BODY) }
    ensures stands { IfOk result (λ start. (last < start.commit) × (start.commit ≤ horizon)) }
    ensures history { window.new.history ≡ window.old.history }
    ensures failed { result ≡ Err DiskFault → window.old.faults < window.new.faults }
    ensures faults { window.old.faults ≤ window.new.faults }
{
    window.fill(ROW_START)?;
    let place = window.place();
    let Some((start, _)) = row_start_in(window.ahead()) else {
        return Err(BaseRefusal::Torn { place });
    };
    match judge_start(&start, place, last, horizon) {
        Ok(()) => {}
        Err(refusal) => return Err(refusal),
    }
    window.skip(ROW_START);
    Ok(start)
}

/// Whether a row of this start may stand at a place, behind a commit and up to a horizon.
fn judge_start(
    start: &RowStart,
    place: u64,
    last: Commit,
    horizon: Commit,
) -> Result<(), BaseRefusal>
    requires { place + 20 < 2 ^ 64 }
    ensures { JudgesStart last horizon place start.now result }
{
    if start.commit <= last {
        return Err(BaseRefusal::Falls { place });
    }
    if start.commit > horizon {
        return Err(BaseRefusal::AboveHorizon { place });
    }
    if start.clock > GREATEST_CLOCK {
        return Err(BaseRefusal::BadNumber { place: place + 8 });
    }
    if start.size > MOST_BODY {
        return Err(BaseRefusal::TooLong { place: place + 16 });
    }
    Ok(())
}

/// Reads the change of the next body, which has this size.
fn read_change<K: Disk>(
    alloc: Global,
    window: &mut Window<K>,
    size: u32,
) -> Result<Change, BaseRefusal>
    requires { size ≤ MOST_BODY }
    ensures found { (rest : List ℕ) → Shows window.old.history window.old.place rest → FindsChange window.old.place size rest window.new result }
    ensures history { window.new.history ≡ window.old.history }
    ensures failed { result ≡ Err DiskFault → window.old.faults < window.new.faults }
    ensures faults { window.old.faults ≤ window.new.faults }
{
    let size = size as usize;
    window.fill(size)?;
    let place = window.place();
    if window.ahead().len() < size {
        return Err(BaseRefusal::Torn { place });
    }
    let change = match put_in(alloc, place, &window.ahead()[..size]) {
        Ok(change) => change,
        Err(refusal) => return Err(refusal),
    };
    window.skip(size);
    Ok(change)
}

/// The change of a body at a place, where it puts a document.
fn put_in(alloc: Global, place: u64, body: &[u8]) -> Result<Change, BaseRefusal>
    ensures { IsPutIn place body.now result }
{
    match change_in(alloc, body) {
        Ok(change) => {
            if change.document.is_some() {
                Ok(change)
            } else {
                Err(BaseRefusal::BadChange { place })
            }
        }
        Err(Unread::Bad) => Err(BaseRefusal::BadChange { place }),
        Err(Unread::Memory) => Err(BaseRefusal::Memory),
    }
}
