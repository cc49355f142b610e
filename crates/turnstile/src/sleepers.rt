//! How many threads sleep until the turn is free.

use crossbeam_utils::CachePadded;
use std::sync::atomic::AtomicU64;
use std::sync::atomic::Ordering::SeqCst;

/// A count of the threads that sleep, or are about to. It has cache lines of its own, since each turn
/// reads it.
#[derive(Drop)]
pub struct Sleepers {
    count: CachePadded<AtomicU64>,
}

impl Sleepers {
    pub fn new() -> Sleepers {
        Sleepers {
            count: CachePadded::new(AtomicU64::new(0)),
        }
    }

    pub fn enter(&self) {
        self.count.fetch_add(1, SeqCst);
    }

    pub fn leave(&self) {
        self.count.fetch_sub(1, SeqCst);
    }

    pub fn are_any(&self) -> bool {
        self.count.load(SeqCst) != 0
    }
}
