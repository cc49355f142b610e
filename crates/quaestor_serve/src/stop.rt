//! The flag by which threads are told to stop.

use std::sync::Wait;
use std::sync::atomic::{AtomicU64, Ordering};
use std::time::Duration;

/// How long a thread rests at most, in milliseconds.
const REST: u64 = 1;

/// A flag that is set once. A thread that rests at it wakes up as soon as it is set.
#[derive(Drop)]
pub struct Stop {
    word: AtomicU64,
}

impl Stop {
    /// A flag that is not set.
    pub fn new() -> Stop {
        Stop {
            word: AtomicU64::new(0),
        }
    }

    /// Sets the flag and wakes those that rest.
    pub fn set(&self) {
        self.word.store(1, Ordering::SeqCst);
        self.word.wake_all();
    }

    /// Whether the flag was read as set.
    pub fn is_set(&self) -> bool {
        self.word.load(Ordering::SeqCst) != 0
    }

    /// Rests for a millisecond, or until the flag is set.
    pub fn rest<R: Wait>(&self, rt: &R) {
        self.word.park_timeout(rt, 0, Duration::from_millis(REST));
    }
}
