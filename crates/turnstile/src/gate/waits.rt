//! How a seat waits for the turn, and is woken.
//!
//! A waiter spins for a few rounds, and then sleeps in the kernel at the turn word. The kernel looks at
//! the word, and lets the thread sleep only where the word is 1. Whoever sets the word to 0 then looks
//! at the count of sleepers, and wakes one of them if there are any. So a turn that nobody sleeps for
//! ends without a system call.
//!
//! No wake is lost. A sleeper first enters the count, and then the kernel looks at the word. A turn
//! that ends first sets the word to 0, and then looks at the count. All four steps have one order,
//! since each is sequentially consistent. If the end of the turn does not see the sleeper in the count,
//! the sleeper entered after that look, so after the word was set to 0: the kernel finds 0 and does not
//! let it sleep, or it finds the 1 of a later turn, whose own end looks at the count. If it does see
//! the sleeper, it wakes a thread that sleeps at the word, and where none sleeps there yet, the kernel
//! looks at the word after the wake, and again finds 0 or the 1 of a later turn.
//!
//! One wake is enough for one turn that ends. The thread that it wakes tries for the turn. If it gets
//! the turn, its own end wakes the next sleeper. If another thread was faster, the end of that turn
//! does, and the thread that was woken sleeps again under the same rule.
//!
//! No clause says this, since no proof here speaks of threads that run or sleep. A test with threads
//! does not end where a wake is lost.

use super::Turnstile;
use crate::stands::Stands;
use crossbeam_utils::Backoff;
use std::sync::Wait;

/// The rounds that a waiter spins in one `take` before it sleeps, some microseconds in all.
const SPINS: u32 = 8;

impl<T: Stands> Turnstile<T> {
    /// Waits for a moment, until the turn may be free. It returns how many rounds were spun so far.
    /// While it spins it only reads the turn word, so that the word's cache line is not taken from others.
    pub(super) fn pause<R: Wait>(&self, rt: &R, backoff: &Backoff, spun: u32) -> u32 {
        for round in spun..SPINS {
            backoff.spin();
            if self.board.shared.peek(0) == 0 {
                return round + 1;
            }
        }
        self.sleep(rt);
        SPINS
    }

    /// Sleeps while the turn word is 1, until a wake. It may also return for no reason.
    #[inline(never)]
    fn sleep<R: Wait>(&self, rt: &R) {
        self.sleepers.enter();
        self.board.shared.park(rt, 0, 1);
        self.sleepers.leave();
    }

    /// Wakes a sleeper, if there is one. It follows each step that sets the turn word to 0.
    pub(super) fn wake(&self) {
        if self.sleepers.are_any() {
            self.board.shared.wake_one(0);
        }
    }
}
