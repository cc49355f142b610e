//! Reading what stands before the rows of a base.
ghost use Rattle.std.specs.Prelude.{◌≡◌, ◌<◌, ◌≤◌, ◌+◌, ◌^◌, ◌++◌, ℕ, List, length, Decides, Err, None, IfOk, IfSome, take};
ghost use Rattle.store_base.specs.Heads.{FindsCount, FindsHead, FindsNumbers, FindsTail, JudgesNumbers};
ghost use Rattle.store_base.specs.Texts.{mark, start_text};
ghost use Rattle.store_base.specs.Windows.{Shows};
ghost use Rattle.store_base.specs.declared.refusal.BaseRefusal.TheVariants.{DiskFault};

use crate::base::{BaseHead, RecordName};
use crate::fields::{Unread, tail_in, take_u64};
use crate::refusal::BaseRefusal;
use crate::window::Window;
use disks::Disk;
use record_log::GREATEST_CLOCK;
use std::alloc::Global;

/// What every base begins with: `QSJ2`.
pub(crate) const MARK: [u8; 4] = [81, 83, 74, 50];

/// The number of bytes of the mark and the numbers behind it.
const NUMBERS: usize = 36;

/// The greatest number of bytes of a tail: two names of 64 bytes, each behind its length.
const MOST_TAIL: usize = 130;

/// The numbers behind the mark.
#[derive(Clone, Copy, Debug, PartialEq, Eq)]
pub(crate) struct HeadStart {
    pub size: u64,
    pub horizon: u64,
    pub clock: u64,
    pub moment: u64,
}

/// A head, with the size of its base and the number of its rows.
#[derive(Drop)]
pub(crate) struct FoundHead {
    pub size: u64,
    pub count: u64,
    pub head: BaseHead,
}

/// Reads the head of a base. None where the mark is not there.
pub(crate) fn read_head<K: Disk>(
    alloc: Global,
    window: &mut Window<K>,
) -> Result<Option<FoundHead>, BaseRefusal>
    ensures found { (rest : List ℕ) → Shows window.old.history window.old.place rest → FindsHead window.old.place rest window.new result }
    ensures horizon { IfOk result (λ found. IfSome found (λ f. f.head.horizon + 1 < 2 ^ 64)) }
    ensures history { window.new.history ≡ window.old.history }
    ensures failed { result ≡ Err DiskFault → window.old.faults < window.new.faults }
    ensures faults { window.old.faults ≤ window.new.faults }
{
    let start = match read_numbers(window) {
        Ok(Some(start)) => start,
        Ok(None) => return Ok(None),
        Err(refusal) => return Err(refusal),
    };
    let tail = match read_tail(alloc, window) {
        Ok(tail) => tail,
        Err(refusal) => return Err(refusal),
    };
    let count = match read_count(window) {
        Ok(count) => count,
        Err(refusal) => return Err(refusal),
    };
    let head = BaseHead {
        horizon: start.horizon,
        clock: start.clock,
        moment: start.moment,
        tail,
    };
    Ok(Some(FoundHead {
        size: start.size,
        count,
        head,
    }))
}

/// Reads the mark and the numbers behind it.
fn read_numbers<K: Disk>(window: &mut Window<K>) -> Result<Option<HeadStart>, BaseRefusal>
    ensures found { (rest : List ℕ) → Shows window.old.history window.old.place rest → FindsNumbers window.old.place rest window.new result }
    ensures horizon { IfOk result (λ found. IfSome found (λ start. start.horizon + 1 < 2 ^ 64)) }
    ensures history { window.new.history ≡ window.old.history }
    ensures failed { result ≡ Err DiskFault → window.old.faults < window.new.faults }
    ensures faults { window.old.faults ≤ window.new.faults }
{
    window.fill(NUMBERS)?;
    if !has_mark(window.ahead()) {
        return Ok(None);
    }
    let place = window.place();
    let Some(start) = numbers_in(window.ahead()) else {
        return Err(BaseRefusal::Torn { place });
    };
    match judge_numbers(start, place) {
        Ok(()) => {}
        Err(refusal) => return Err(refusal),
    }
    window.skip(NUMBERS);
    Ok(Some(start))
}

/// Whether bytes begin with the mark.
fn has_mark(bytes: &[u8]) -> bool
    ensures { Decides result (take 4 bytes.now ≡ mark) }
{
    bytes.len() >= 4 && &bytes[..4] == MARK.as_slice()
}

/// The numbers behind the mark.
fn numbers_in(bytes: &[u8]) -> Option<HeadStart>
    requires { take 4 bytes.now ≡ mark }
    ensures short { result ≡ None → length bytes.now < 36 }
    ensures numbers { IfSome result (λ s. (more : List ℕ) × (bytes.now ≡ start_text s.size s.horizon s.clock s.moment ++ more)) }
{
    let (size, rest) = take_u64(&bytes[4..])?;
    let (horizon, rest) = take_u64(rest)?;
    let (clock, rest) = take_u64(rest)?;
    let (moment, _) = take_u64(rest)?;
    Some(HeadStart {
        size,
        horizon,
        clock,
        moment,
    })
}

/// Whether the numbers of a head at a place may be so.
fn judge_numbers(start: HeadStart, place: u64) -> Result<(), BaseRefusal>
    requires { place + 36 < 2 ^ 64 }
    ensures { JudgesNumbers place start result }
{
    if start.horizon == u64::MAX {
        return Err(BaseRefusal::BadNumber { place: place + 12 });
    }
    if start.clock > GREATEST_CLOCK {
        return Err(BaseRefusal::BadNumber { place: place + 20 });
    }
    if start.moment > GREATEST_CLOCK {
        return Err(BaseRefusal::BadNumber { place: place + 28 });
    }
    Ok(())
}

/// Reads the tail.
fn read_tail<K: Disk>(
    alloc: Global,
    window: &mut Window<K>,
) -> Result<Option<RecordName>, BaseRefusal>
    ensures found { (rest : List ℕ) → Shows window.old.history window.old.place rest → FindsTail window.old.place rest window.new result }
    ensures history { window.new.history ≡ window.old.history }
    ensures failed { result ≡ Err DiskFault → window.old.faults < window.new.faults }
    ensures faults { window.old.faults ≤ window.new.faults }
{
    window.fill(MOST_TAIL)?;
    let place = window.place();
    let (tail, size) = match tail_in(alloc, window.ahead()) {
        Ok((tail, rest)) => (tail, window.ahead().len() - rest.len()),
        Err(Unread::Bad) => return Err(BaseRefusal::BadTail { place }),
        Err(Unread::Memory) => return Err(BaseRefusal::Memory),
    };
    window.skip(size);
    Ok(tail)
}

/// Reads the number of rows.
fn read_count<K: Disk>(window: &mut Window<K>) -> Result<u64, BaseRefusal>
    ensures found { (rest : List ℕ) → Shows window.old.history window.old.place rest → FindsCount window.old.place rest window.new result }
    ensures history { window.new.history ≡ window.old.history }
    ensures failed { result ≡ Err DiskFault → window.old.faults < window.new.faults }
    ensures faults { window.old.faults ≤ window.new.faults }
{
    window.fill(8)?;
    let place = window.place();
    let Some((count, _)) = take_u64(window.ahead()) else {
        return Err(BaseRefusal::Torn { place });
    };
    window.skip(8);
    Ok(count)
}
