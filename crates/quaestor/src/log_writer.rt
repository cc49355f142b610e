//! Who writes the access log: a thread of its own, so that no reply waits for a disk or a reader.
//!
//! What cannot be written is dropped and counted, and once a minute a line on standard error says how many
//! lines were. Where a write ended inside a line the next one begins on a line of its own.

use access_log::Cell;
use std::alloc::Global;
use std::fs::{File, Files, OpenOptions};
use std::io::{ErrorKind, Write};
use std::rt::Clock;
use std::sync::{Arc, Wait};
use std::time::Duration;
use std::{io, str, thread};
use tcp_doors::{LogQueue, Observer};

/// How many milliseconds lie between two looks at the queue.
const REST_MILLIS: u64 = 10;

/// How many looks lie between two words on lines that were dropped: those of a minute.
const LOOKS: u64 = 6_000;

/// For how many milliseconds the end of a program waits for the last lines.
const LAST_MILLIS: u64 = 1_000;

/// Where the lines go.
#[derive(Drop)]
pub(crate) enum LogFile {
    /// To standard error.
    Error,
    /// To the end of a file.
    File(File),
}

impl LogFile {
    /// Opens a file, or standard error where its name is `-`.
    pub(crate) fn open<R: Files<File = File>>(rt: &R, name: &str) -> io::Result<LogFile> {
        if name == "-" {
            return Ok(LogFile::Error);
        }
        let mut how = OpenOptions::new();
        how.append(true);
        how.create(true);
        Ok(LogFile::File(how.open(rt, name)?))
    }

    /// Writes bytes, and returns how many it took, all where none is left.
    fn write<R: Eprint>(&mut self, rt: &R, bytes: &[u8]) -> usize {
        match self {
            LogFile::Error => say_all(rt, bytes),
            LogFile::File(file) => write_all(file, bytes),
        }
    }
}

/// Whose lines are written, where they go, and a buffer for them.
#[derive(Drop)]
pub struct Logging {
    pub(crate) observer: Arc<Observer, Global>,
    pub(crate) file: LogFile,
    pub(crate) spare: Vec<u8>,
}

/// Writes bytes to standard error, all or none as far as is known, and returns how many it took.
fn say_all<R: Eprint>(rt: &R, bytes: &[u8]) -> usize {
    let Ok(text) = str::from_utf8(bytes) else {
        return 0;
    };
    match eprint!(rt; "{text}") {
        Ok(()) => bytes.len(),
        Err(_) => 0,
    }
}

/// Writes bytes to a file, and returns how many it took.
fn write_all(file: &mut File, bytes: &[u8]) -> usize {
    let mut at = 0;
    for _n in 0..bytes.len() {
        let Some(rest) = bytes.get(at..) else {
            return bytes.len();
        };
        if rest.is_empty() {
            return at;
        }
        match file.write(rest) {
            Ok(0) => return at,
            Ok(count) => at = at.saturating_add(count),
            Err(error) if error.kind() == ErrorKind::Interrupted => {}
            Err(_) => return at,
        }
    }
    at
}

/// How many lines end in these bytes.
fn lines_in(bytes: &[u8]) -> u64 {
    let mut count: u64 = 0;
    for byte in bytes {
        if *byte == b'\n' {
            count = count.wrapping_add(1);
        }
    }
    count
}

/// Writes the lines of an observer's log until no more comes.
pub(crate) fn write_log<R: Clock + Eprint + Wait + Drop>(rt: R, logging: Logging) {
    let Logging {
        observer,
        mut file,
        mut spare,
    } = logging;
    let Some(log) = observer.log() else {
        return;
    };
    let mut is_torn = false;
    let mut looks: u64 = 0;
    let mut dropped: u64 = 0;
    for _ in rt.forever() {
        let is_last = log.is_ended();
        for index in 0..log.count() {
            spare = log.take(index, spare);
            is_torn = write_batch(&rt, &observer, &mut file, &spare, is_torn);
            spare.clear();
        }
        if is_last {
            log.tell_written();
            return;
        }
        looks = looks.wrapping_add(1);
        if looks % LOOKS == 0 {
            dropped = say_dropped(&rt, &observer, dropped);
        }
        thread::sleep(&rt, Duration::from_millis(REST_MILLIS));
    }
    unreachable!()
}

/// Writes what was taken of the log, and counts it. Whether the last line that was begun is not whole.
fn write_batch<R: Eprint>(
    rt: &R,
    observer: &Observer,
    file: &mut LogFile,
    bytes: &[u8],
    is_torn: bool,
) -> bool {
    if bytes.is_empty() {
        return is_torn;
    }
    if is_torn && file.write(rt, b"\n") == 0 {
        observer.add(Cell::Dropped, lines_in(bytes));
        return true;
    }
    let count = file.write(rt, bytes);
    let written = bytes.get(..count).unwrap_or(bytes);
    let lines = lines_in(written);
    observer.add(Cell::Lines, lines);
    observer.add(Cell::Dropped, lines_in(bytes).saturating_sub(lines));
    match written.last() {
        Some(last) => *last != b'\n',
        None => false,
    }
}

/// Says how many lines were dropped since this number of them, where any were. How many there are now.
fn say_dropped<R: Clock + Eprint>(rt: &R, observer: &Observer, before: u64) -> u64 {
    let dropped = observer.counts(rt).of(Cell::Dropped);
    if dropped > before {
        let more = dropped - before;
        let _ = eprint!(rt; "quaestor: {more} lines of the log were dropped\n");
    }
    dropped
}

/// Ends a log, and waits until its last lines are written, for a second at most.
pub(crate) fn end_log<R: Clock>(clock: &R, log: &LogQueue) {
    log.end();
    for _n in 0..LAST_MILLIS {
        if log.is_written() {
            return;
        }
        thread::sleep(clock, Duration::from_millis(1));
    }
}
