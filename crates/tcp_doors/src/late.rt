//! The answer to a request that was cut off by its limit of time.

use httpdate::HttpDate;
use std::io::IoSlice;
use std::net::TcpStream;
use std::rt::Clock;

/// The answer up to its date.
const BEFORE: &[u8] = b"HTTP/1.1 408 Request Timeout\r\nDate: ";

/// The answer behind its date.
const BEHIND: &[u8] =
    b"\r\nContent-Type: application/json\r\nContent-Length: 19\r\nCache-Control: no-store\r\nConnection: close\r\n\r\n{\"error\":\"timeout\"}";

/// Writes the answer, where the system takes it at once, and tells how many bytes it took. A client that
/// does not get it is told the end all the same.
pub(crate) fn tell_late<R: Clock>(clock: &R, stream: &TcpStream) -> u64 {
    let Ok(passed) = clock.since_1970() else {
        return 0;
    };
    let Ok(date) = HttpDate::from_unix_secs(passed.as_secs()) else {
        return 0;
    };
    let date = date.to_bytes();
    let written = stream.write_vectored(&[
        IoSlice::new(BEFORE),
        IoSlice::new(&date),
        IoSlice::new(BEHIND),
    ]);
    written.map_or(0, |count| count as u64)
}
