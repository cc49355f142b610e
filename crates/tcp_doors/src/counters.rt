//! What all connections count together.
//!
//! A connection counts in one of several lanes, by its number, so that processors seldom write the same
//! line of memory; who asks is told the sums. A count is one atomic step that waits for nobody.

use crate::ready::millis_of;
use access_log::{CELLS, Cell, Counts};
use std::alloc::{AllocError, Global};
use std::rt::Clock;
use std::sync::atomic::{AtomicU64, Ordering};

/// How many lanes there are.
const LANES: usize = 16;

/// How many milliseconds a slot of the longest requests is for.
const SLOT_MILLIS: u64 = 10_000;

/// How many slots there are: those of a minute, and the one that is being filled.
const SLOTS: u64 = 7;

/// By how many bits the number of a slot's time stands above the microseconds in it.
const TIME_BITS: u32 = 36;

/// The numbers that connections count.
#[derive(Drop)]
pub struct Counters {
    /// The cells, lane behind lane.
    cells: Vec<AtomicU64>,
    /// For each remainder of a time by the number of slots, the last such time, and the longest request
    /// then: the greater of two such words is of the later time, and at the same time of the longer request.
    longest: Vec<AtomicU64>,
}

impl Counters {
    /// Nothing was counted yet.
    pub(crate) fn new(alloc: Global) -> Result<Counters, AllocError> {
        Ok(Counters {
            cells: zeros(alloc, CELLS * LANES)?,
            longest: zeros(alloc, SLOTS as usize)?,
        })
    }

    /// Adds to a number in the lane of a connection.
    pub(crate) fn add(&self, lane: usize, cell: Cell, more: u64) {
        let first = (lane % LANES) * CELLS;
        if let Some(number) = self.cells.get(first + cell.index()) {
            number.fetch_add(more, Ordering::Relaxed);
        }
    }

    /// Counts one more in the lane of a connection.
    pub(crate) fn count(&self, lane: usize, cell: Cell) {
        self.add(lane, cell, 1);
    }

    /// Notes how long a request took, in microseconds.
    pub(crate) fn note_time(&self, now_millis: u64, micros: u64) {
        let time = now_millis / SLOT_MILLIS;
        let most = (1 << TIME_BITS) - 1;
        let word = (time << TIME_BITS) | micros.min(most);
        if let Some(slot) = self.longest.get((time % SLOTS) as usize) {
            if slot.load(Ordering::Relaxed) < word {
                slot.fetch_max(word, Ordering::Relaxed);
            }
        }
    }

    /// The sums of all lanes.
    pub fn counts<R: Clock>(&self, clock: &R) -> Counts {
        let mut counts = Counts::new();
        for (index, number) in self.cells.iter().enumerate() {
            counts.add(index % CELLS, number.load(Ordering::Relaxed));
        }
        counts.longest = self.longest_until(millis_of(clock));
        counts
    }

    /// The longest request of the minute before.
    fn longest_until(&self, now_millis: u64) -> u64 {
        let time = now_millis / SLOT_MILLIS;
        let mut longest = 0;
        for slot in self.longest.iter() {
            let word = slot.load(Ordering::Relaxed);
            if (word >> TIME_BITS).saturating_add(SLOTS) > time {
                longest = longest.max(word & ((1 << TIME_BITS) - 1));
            }
        }
        longest
    }
}

/// So many numbers, all 0.
fn zeros(alloc: Global, count: usize) -> Result<Vec<AtomicU64>, AllocError> {
    let mut numbers = Vec::with_capacity(alloc, count)?;
    for _n in 0..count {
        numbers.push(AtomicU64::new(0))?;
    }
    Ok(numbers)
}
