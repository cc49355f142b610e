//! Gates, at which a test can hold a thread. They are of no effect on what is served.

use std::alloc::{AllocError, Global};
use std::sync::Arc;
use std::sync::atomic::{AtomicBool, Ordering};
use std::thread::yield_now;

/// What a worker passes before it serves a connection.
pub trait Gate {
    /// Lets a worker through, sooner or later.
    fn pass(&self, worker: u32);
}

/// A gate that holds nobody.
#[derive(Clone, Copy, Debug)]
pub struct OpenGate;

impl Gate for OpenGate {
    fn pass(&self, _worker: u32) {}
}

/// The number of turns after which a gate gives up.
const TURNS: u32 = 1_000_000;

/// A gate that holds one worker until it is opened, and lets all others through. After a million turns
/// it gives up, so that a test that waits in vain ends.
#[derive(Clone, Drop)]
pub struct HoldGate {
    worker: u32,
    words: Arc<Words, Global>,
}

/// What the clones of a gate share.
#[derive(Drop)]
struct Words {
    is_open: AtomicBool,
    has_given_up: AtomicBool,
}

impl HoldGate {
    /// A closed gate for this worker.
    pub fn new(alloc: Global, worker: u32) -> Result<HoldGate, AllocError> {
        let words = Words {
            is_open: AtomicBool::new(false),
            has_given_up: AtomicBool::new(false),
        };
        Ok(HoldGate {
            worker,
            words: Arc::new(alloc, words)?,
        })
    }

    /// Lets the worker through.
    pub fn open(&self) {
        self.words.is_open.store(true, Ordering::SeqCst);
    }

    /// Whether the gate gave up.
    pub fn has_given_up(&self) -> bool {
        self.words.has_given_up.load(Ordering::SeqCst)
    }
}

impl Gate for HoldGate {
    fn pass(&self, worker: u32) {
        if worker != self.worker {
            return;
        }
        for _ in 0..TURNS {
            if self.words.is_open.load(Ordering::SeqCst) {
                return;
            }
            yield_now();
        }
        self.words.has_given_up.store(true, Ordering::SeqCst);
    }
}
