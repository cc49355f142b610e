//! A connection, with its limits of time.
//!
//! The stream never blocks: what it cannot do at once is waited for by `poll`, for as long as the limits
//! leave. Time is asked for only where there was something to wait for, so a request that is there as a
//! whole, and a reply that the system takes as a whole, ask no clock.
//!
//! The limit of a reply counts from the first moment at which the system had no room for it, and so do
//! its bytes: from then on nearly each byte that the system takes is one that the client has taken.
ghost use Rattle.std.specs.Io.{ReadsAtMost, WritesAtMost};

use crate::late::tell_late;
use crate::observer::Seen;
use crate::pace::{Pace, Patience};
use crate::ready::{For, millis_of, wait_for_one};
use crate::watch::Watch;
use access_log::Cell;
use q_outside::{Limits, Note};
use std::alloc::Global;
use std::io;
use std::io::{ErrorKind, Read, Write};
use std::net::{Shutdown, TcpStream};
use std::os::fd::AsRawFd;
use std::rt::Clock;
use std::sync::Arc;

/// After how many milliseconds one who waits looks whether the server was told to end.
const TICK_MILLIS: u64 = 1_000;

/// After how many milliseconds a write is tried again, whatever the system says of its room: it tells of
/// room only once a third of the buffer is free.
const RETRY_MILLIS: u64 = 250;

/// For how many milliseconds the next request of a client is waited for with its buffers kept.
const LINGER_MILLIS: u64 = 2;

/// For how many milliseconds a client may go on sending once it was told that the connection ends.
const DRAIN_MILLIS: u64 = 1_000;

/// How many bytes of it are read.
const DRAIN_BYTES: usize = 1_048_576;

/// How an interim reply begins, behind which the final one is still to come.
const INTERIM: &[u8] = b"HTTP/1.1 100 ";

/// What is noted of a request that was cut off.
const LATE_NOTE: Note<'static> = Note {
    method: b"",
    target: b"",
    status: 408,
    is_copy: false,
    why: "timeout",
};

/// How far a connection is.
#[derive(Clone, Copy, Debug, PartialEq, Eq)]
enum Stage {
    /// Bytes may come.
    Open,
    /// None will be taken any more.
    Ended,
    /// A request of which some has come was cut off by its limit of time.
    Late,
    /// A reply was cut off by its limit of time.
    Stalled,
}

/// A connection over TCP.
#[derive(Drop)]
pub(crate) struct Connection<R: Clock + Drop> {
    rt: R,
    watch: Arc<Watch, Global>,
    limits: Limits,
    /// The stream, until it is closed.
    stream: Option<TcpStream>,
    stage: Stage,
    /// Whether no request was begun yet.
    is_new: bool,
    /// Whether bytes of the request were taken before it was begun.
    is_held: bool,
    /// Whether a reply to it was begun.
    has_replied: bool,
    /// The bytes of the request.
    request: Pace,
    /// How long its reply may be waited for.
    reply: Patience,
    /// What there is of it for who counts and logs, where somebody does.
    seen: Option<Seen>,
}

impl<R: Clock + Drop> Connection<R> {
    /// A new connection over this stream, which does not block.
    pub(crate) fn new(
        rt: R,
        watch: Arc<Watch, Global>,
        limits: Limits,
        stream: TcpStream,
        seen: Option<Seen>,
    ) -> Connection<R> {
        Connection {
            rt,
            watch,
            limits,
            stream: Some(stream),
            stage: Stage::Open,
            is_new: true,
            is_held: false,
            has_replied: false,
            request: Pace::new(),
            reply: Patience::new(),
            seen,
        }
    }

    /// Begins a request, of which bytes were taken before, or not.
    pub(crate) fn begin(&mut self, held: bool) {
        self.is_new = false;
        self.is_held = held;
        self.has_replied = false;
        self.request = Pace::new();
        self.reply = Patience::new();
        if let Some(seen) = &mut self.seen {
            seen.begin(&self.rt);
        }
    }

    /// Counts and logs a reply of so many bytes.
    pub(crate) fn note(&self, note: &Note<'_>, bytes: u64) {
        if let Some(seen) = &self.seen {
            seen.note(&self.rt, note, bytes);
        }
    }

    /// The connection has ended, if only now.
    pub(crate) fn leave(&mut self) {
        if let Some(seen) = &mut self.seen {
            seen.leave();
        }
    }

    /// Counts one more for who counts.
    fn count(&self, cell: Cell) {
        if let Some(seen) = &self.seen {
            seen.count(cell);
        }
    }

    /// Reads the next bytes. 0 is the end, also where a limit of time has passed or the stream was
    /// closed here.
    pub(crate) fn read(&mut self, into: &mut [u8]) -> io::Result<usize>
        ensures { ReadsAtMost result into.new }
    {
        if self.stage != Stage::Open {
            return Ok(0);
        }
        for _n in 0..u64::MAX {
            let Some(stream) = &self.stream else {
                return Ok(0);
            };
            match read_from(stream, into) {
                Ok(count) => {
                    self.request.count(count);
                    return Ok(count);
                }
                Err(error) if error.kind() == ErrorKind::Interrupted => {}
                Err(error) if error.kind() == ErrorKind::WouldBlock => {
                    if !self.wait_for_request() {
                        return Ok(0);
                    }
                }
                Err(error) => return Err(error),
            }
        }
        Ok(0)
    }

    /// Writes a beginning of the bytes.
    pub(crate) fn write(&mut self, bytes: &[u8]) -> io::Result<usize>
        ensures { WritesAtMost result bytes.now }
    {
        if !bytes.starts_with(INTERIM) {
            self.has_replied = true;
        }
        for _n in 0..u64::MAX {
            let Some(stream) = &self.stream else {
                return Err(io::Error::from(ErrorKind::BrokenPipe));
            };
            match write_to(stream, bytes) {
                Ok(count) => {
                    self.count_written(count);
                    return Ok(count);
                }
                Err(error) if error.kind() == ErrorKind::Interrupted => {}
                Err(error) if error.kind() == ErrorKind::WouldBlock => {
                    if !self.wait_for_room() {
                        return Err(io::Error::from(ErrorKind::TimedOut));
                    }
                }
                Err(error) => return Err(error),
            }
        }
        Err(io::Error::from(ErrorKind::Interrupted))
    }

    /// Waits a while for more of a request. Whether it may still be waited for.
    fn wait_for_request(&mut self) -> bool {
        let now = millis_of(&self.rt);
        self.request.start(now);
        let until = self
            .request
            .until(self.limits.head_time, self.limits.least_rate);
        if now >= until {
            self.stage = if self.is_held || self.request.has_bytes() {
                Stage::Late
            } else {
                Stage::Ended
            };
            return false;
        }
        if now >= self.watch.end() {
            self.stage = Stage::Ended;
            return false;
        }
        self.poll(For::Bytes, until.saturating_sub(now).min(TICK_MILLIS));
        self.watch.look(&self.rt);
        true
    }

    /// Counts bytes of a reply that the system took, where it had no room before.
    fn count_written(&mut self, count: usize) {
        if self.reply.has_started() {
            let now = millis_of(&self.rt);
            let limits = self.limits;
            self.reply
                .count(now, count, limits.reply_time, limits.least_rate);
        }
    }

    /// Waits a while for room for more of a reply. Whether it may still be waited for.
    fn wait_for_room(&mut self) -> bool {
        let now = millis_of(&self.rt);
        let until = self
            .reply
            .until(now, self.limits.reply_time)
            .min(self.watch.end());
        if now >= until {
            self.stage = Stage::Stalled;
            return false;
        }
        self.poll(For::Room, until.saturating_sub(now).min(RETRY_MILLIS));
        self.watch.look(&self.rt);
        true
    }

    /// Waits until the next request or the end is there, or the connection has waited for long enough.
    /// Once the server was told to end, only a first request that is there already is taken.
    pub(crate) fn wait(&mut self) {
        self.count(Cell::Waits);
        self.wait_in_time();
        self.count(Cell::Woken);
    }

    /// The same, with nothing counted.
    fn wait_in_time(&mut self) {
        if self.stage != Stage::Open {
            return;
        }
        let mut now = millis_of(&self.rt);
        let until = if self.limits.idle == 0 {
            u64::MAX
        } else {
            now.saturating_add(u64::from(self.limits.idle) * 1_000)
        };
        for _n in 0..u64::MAX {
            if self.watch.is_stopped() {
                if !self.is_new || !self.poll(For::Bytes, 0) {
                    self.stage = Stage::Ended;
                }
                return;
            }
            if now >= until {
                self.stage = Stage::Ended;
                return;
            }
            if self.poll(For::Bytes, until.saturating_sub(now).min(TICK_MILLIS)) {
                return;
            }
            self.watch.look(&self.rt);
            now = millis_of(&self.rt);
        }
    }

    /// Whether the next request or the end is there, or comes at once.
    pub(crate) fn is_ready(&mut self) -> bool {
        if self.stage != Stage::Open {
            return true;
        }
        !self.watch.is_stopped() && self.poll(For::Bytes, LINGER_MILLIS)
    }

    /// Whether the server was told to end, so that the connection ends behind the request in hand.
    pub(crate) fn is_stopping(&self) -> bool {
        self.watch.is_stopped()
    }

    /// Tells the client that nothing more comes, reads what it still sends, within limits, and closes
    /// the stream. Bytes that lie unread when a stream is closed make the system reset the connection,
    /// and a reset may lose the last reply on its way.
    pub(crate) fn end(&mut self) {
        self.end_stream();
        self.leave();
    }

    /// The same, with nothing counted but a request that was cut off.
    fn end_stream(&mut self) {
        let Some(stream) = self.stream.take() else {
            return;
        };
        if self.stage == Stage::Stalled {
            return;
        }
        if self.stage == Stage::Late && !self.has_replied {
            let bytes = tell_late(&self.rt, &stream);
            self.note(&LATE_NOTE, bytes);
        }
        if stream.shutdown(Shutdown::Write).is_ok() {
            let until = millis_of(&self.rt).saturating_add(DRAIN_MILLIS);
            drain(&self.rt, &stream, until.min(self.watch.end()));
        }
    }

    /// Waits until the stream can be gone on with, or for so many milliseconds. Whether it can.
    fn poll(&self, what: For, millis: u64) -> bool {
        match &self.stream {
            Some(stream) => wait_for_one(&self.rt, stream.as_raw_fd(), what, millis),
            None => true,
        }
    }
}

/// Reads what a client sends until it ends, or a limit of time or of bytes is reached.
fn drain<R: Clock>(clock: &R, stream: &TcpStream, until: u64) {
    let mut bytes = [0; 4096];
    let mut left = DRAIN_BYTES;
    for _n in 0..DRAIN_BYTES {
        match read_from(stream, &mut bytes) {
            Ok(0) => return,
            Ok(count) => left = left.saturating_sub(count),
            Err(error) if error.kind() == ErrorKind::Interrupted => {}
            Err(error) if error.kind() == ErrorKind::WouldBlock => {
                let now = millis_of(clock);
                if now >= until {
                    return;
                }
                wait_for_one(
                    clock,
                    stream.as_raw_fd(),
                    For::Bytes,
                    until.saturating_sub(now),
                );
            }
            Err(_) => return,
        }
        if left == 0 || millis_of(clock) >= until {
            return;
        }
    }
}

/// Reads once.
fn read_from(stream: &TcpStream, into: &mut [u8]) -> io::Result<usize>
    ensures { ReadsAtMost result into.new }
{
    let mut stream = stream;
    stream.read(into)
}

/// Writes once.
fn write_to(stream: &TcpStream, bytes: &[u8]) -> io::Result<usize>
    ensures { WritesAtMost result bytes.now }
{
    let mut stream = stream;
    stream.write(bytes)
}
