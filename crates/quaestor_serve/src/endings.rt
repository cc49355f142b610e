//! Where threads tell that their connections have ended.
//!
//! No clause reads what is told here: whatever place is answered, the thread at it is waited for.

use q_base::Memory;
use std::alloc::Global;
use std::collections::VecDeque;
use std::sync::atomic::{AtomicU64, Ordering};
use std::sync::{Mutex, Wait};
use std::time::Duration;

/// How long one who waits rests at most, in milliseconds.
const REST: u64 = 100;

/// The places whose connections have ended and are still to be handed back, the first to end first.
#[derive(Drop)]
pub struct Endings {
    places: Mutex<VecDeque<u32>>,
    /// 1 from the ring on, until the bell is silenced.
    bell: AtomicU64,
}

impl Endings {
    /// Memory for so many places, none of which has ended.
    pub fn new(alloc: Global, places: u32) -> Result<Endings, Memory> {
        let places = VecDeque::with_capacity(alloc, places as usize)?;
        Ok(Endings {
            places: Mutex::new(places),
            bell: AtomicU64::new(0),
        })
    }

    /// Tells that the connection at a place has ended, and rings.
    pub fn tell<R: Wait>(&self, rt: &R, place: u32) {
        self.put(rt, place);
        self.bell.store(1, Ordering::SeqCst);
        self.bell.wake_all();
    }

    /// Puts a place behind the others. There is memory for it, since no place ends twice.
    fn put<R: Wait>(&self, rt: &R, place: u32) {
        let mut places = self.places.lock(rt);
        if places.len() < places.capacity() {
            places.push_back_reserved(place);
        }
    }

    /// Takes the first of the places, if there is one.
    pub fn next<R: Wait>(&self, rt: &R) -> Option<u32> {
        let mut places = self.places.lock(rt);
        places.pop_front()
    }

    /// Silences the bell. What ends from now on rings again.
    pub fn silence(&self) {
        self.bell.store(0, Ordering::SeqCst);
    }

    /// Rests until the bell rings, or has rung since it was silenced, for a tenth of a second at most.
    pub fn rest<R: Wait>(&self, rt: &R) {
        self.bell.park_timeout(rt, 0, Duration::from_millis(REST));
    }
}
