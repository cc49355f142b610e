//! Waiting until the system can go on with a descriptor, and for how long.

use libc::net::poll;
use libc::types::pollfd;
use std::os::fd::RawFd;
use std::rt::Clock;
use std::thread;
use std::time::Duration;

/// For how many milliseconds a wait that the system refuses is waited for instead.
const REFUSED_MILLIS: u64 = 10;

/// What is waited for.
#[derive(Clone, Copy, Debug, PartialEq, Eq)]
pub(crate) enum For {
    /// Bytes to read, the end of them, or a new connection.
    Bytes,
    /// Room for bytes to be written.
    Room,
}

/// The descriptor as `poll` is asked for it.
pub(crate) fn asked(descriptor: RawFd, what: For) -> pollfd {
    let events = match what {
        For::Bytes => libc::net::POLLIN,
        For::Room => libc::net::POLLOUT,
    };
    pollfd {
        fd: descriptor,
        events,
        revents: 0,
    }
}

/// Waits until one of these can be gone on with, or for so many milliseconds. Whether one can.
pub(crate) fn wait_for<R: Clock>(clock: &R, descriptors: &mut [pollfd], millis: u64) -> bool {
    let millis = i32::try_from(millis).unwrap_or(i32::MAX);
    let ready = poll(descriptors, millis);
    if ready < 0 && millis > 0 {
        thread::sleep(clock, Duration::from_millis(REFUSED_MILLIS));
    }
    ready > 0
}

/// Waits as `wait_for` for one descriptor.
pub(crate) fn wait_for_one<R: Clock>(clock: &R, descriptor: RawFd, what: For, millis: u64) -> bool {
    wait_for(clock, &mut [asked(descriptor, what)], millis)
}

/// The milliseconds of the system's clock that never goes back; the greatest number where it fails, so
/// that every limit has passed then.
pub(crate) fn millis_of<R: Clock>(clock: &R) -> u64 {
    match clock.monotonic() {
        Ok(passed) => u64::try_from(passed.as_millis()).unwrap_or(u64::MAX),
        Err(_) => u64::MAX,
    }
}

/// The microseconds of the same clock.
pub(crate) fn micros_of<R: Clock>(clock: &R) -> u64 {
    match clock.monotonic() {
        Ok(passed) => u64::try_from(passed.as_micros()).unwrap_or(u64::MAX),
        Err(_) => u64::MAX,
    }
}
