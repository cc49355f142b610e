//! Whether the server was told to end.
//!
//! The system keeps a signal that is blocked: a process that was started with SIGTERM blocked, as by
//! `env --block-signal=TERM`, finds it in its status under /proc, and is not ended by it. So the program
//! can see the signal without a handler, and end by itself. Doors and all their connections share one
//! watch, so that it is seen too while no thread waits at the doors.

use crate::ready::millis_of;
use std::fs::{File, Files};
use std::os::unix::fs::FileExt;
use std::rt::Clock;
use std::sync::atomic::{AtomicU64, Ordering};

/// How many milliseconds lie between two looks at the status.
const LOOK_MILLIS: u64 = 100;

/// How many bytes of the status are read. It has some 1,500.
const STATUS_BYTES: usize = 4_096;

/// The line of the status that has the signals which wait for the process.
const PENDING: &[u8] = b"\nShdPnd:\t";

/// How many hexadecimal digits it has.
const DIGITS: usize = 16;

/// SIGTERM, 15, as a bit of the line's last four digits.
const TERM: u64 = 0x4000;

/// SIGINT, 2.
const INT: u64 = 0x2;

/// Whether a server was told to end, and until when requests in hand are answered.
#[derive(Drop)]
pub(crate) struct Watch {
    /// The status of the process; none where the system has no /proc.
    status: Option<File>,
    /// The moment of the last look, in milliseconds.
    looked: AtomicU64,
    /// The moment at which the last request is cut off, in milliseconds; the greatest number while
    /// nobody told the server to end.
    end: AtomicU64,
    /// How long it answers then, in milliseconds.
    grace: u64,
}

impl Watch {
    /// A watch of this process, whose server has so many seconds to end.
    pub(crate) fn new<R: Files<File = File>>(rt: &R, grace: u32) -> Watch {
        Watch {
            status: File::open(rt, "/proc/self/status").ok(),
            looked: AtomicU64::new(0),
            end: AtomicU64::new(u64::MAX),
            grace: u64::from(grace) * 1_000,
        }
    }

    /// A watch that nobody stops.
    pub(crate) fn idle() -> Watch {
        Watch {
            status: None,
            looked: AtomicU64::new(0),
            end: AtomicU64::new(u64::MAX),
            grace: 0,
        }
    }

    /// Whether the server was told to end.
    pub(crate) fn is_stopped(&self) -> bool {
        self.end.load(Ordering::SeqCst) < u64::MAX
    }

    /// The moment at which the last request is cut off.
    pub(crate) fn end(&self) -> u64 {
        self.end.load(Ordering::SeqCst)
    }

    /// Tells the server to end.
    pub(crate) fn stop(&self, now: u64) {
        let end = now.saturating_add(self.grace).min(u64::MAX - 1);
        let _ = self
            .end
            .compare_exchange(u64::MAX, end, Ordering::SeqCst, Ordering::SeqCst);
    }

    /// Looks whether the server was told to end, unless somebody has just looked. One signal says so; a
    /// second one, of the other kind, cuts all requests off.
    pub(crate) fn look<R: Clock>(&self, clock: &R) {
        let now = millis_of(clock);
        let last = self.looked.load(Ordering::SeqCst);
        if now.saturating_sub(last) < LOOK_MILLIS {
            return;
        }
        let won = self
            .looked
            .compare_exchange(last, now, Ordering::SeqCst, Ordering::SeqCst);
        if won.is_err() {
            return;
        }
        let signals = self.pending();
        if signals != 0 {
            self.stop(now);
        }
        if signals == TERM | INT {
            self.end.store(now.min(self.end()), Ordering::SeqCst);
        }
    }

    /// Which of the two signals wait for the process.
    fn pending(&self) -> u64 {
        let Some(status) = &self.status else {
            return 0;
        };
        let mut bytes = [0; STATUS_BYTES];
        match status.read_at(&mut bytes, 0) {
            Ok(count) => signals_of(&bytes[..count]) & (TERM | INT),
            Err(_) => 0,
        }
    }
}

/// The signals that wait for a process, by the text of its status.
fn signals_of(status: &[u8]) -> u64 {
    for at in 0..status.len() {
        let Some(digits) = status[at..].strip_prefix(PENDING) else {
            continue;
        };
        let mut signals = 0;
        for digit in digits.iter().take(DIGITS) {
            let Some(value) = char::from(*digit).to_digit(16) else {
                return 0;
            };
            signals = (signals << 4) | u64::from(value);
        }
        return signals;
    }
    0
}
