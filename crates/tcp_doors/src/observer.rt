//! Who counts and logs what connections do.

use crate::counters::Counters;
use crate::log::LogQueue;
use crate::ready::micros_of;
use access_log::{Cause, Cell, Counts, Form, Line, Route, Told};
use q_outside::Note;
use std::alloc::{AllocError, Global};
use std::net::IpAddr;
use std::rt::Clock;
use std::sync::Arc;

/// Who counts and logs what the connections of doors do. All of them share one.
#[derive(Drop)]
pub struct Observer {
    counters: Counters,
    log: Option<LogQueue>,
}

impl Observer {
    /// One who has counted nothing, with a log in this form where there is to be one.
    pub fn new(alloc: Global, form: Option<Form>) -> Result<Observer, AllocError> {
        let log = match form {
            Some(form) => Some(LogQueue::new(alloc, form)?),
            None => None,
        };
        Ok(Observer {
            counters: Counters::new(alloc)?,
            log,
        })
    }

    /// What was counted.
    pub fn counts<R: Clock>(&self, clock: &R) -> Counts {
        self.counters.counts(clock)
    }

    /// Counts what no connection does.
    pub fn add(&self, cell: Cell, more: u64) {
        self.counters.add(0, cell, more);
    }

    /// The lines that are still to be written, where there is a log.
    pub fn log(&self) -> Option<&LogQueue> {
        self.log.as_ref()
    }
}

/// What a connection has for its observer.
#[derive(Drop)]
pub(crate) struct Seen {
    observer: Arc<Observer, Global>,
    lane: usize,
    /// The client's address, as a line of the log has it.
    client: String,
    /// When the request in hand was begun, in microseconds.
    begun: u64,
    is_open: bool,
}

impl Seen {
    /// A connection with this number, which was taken.
    pub(crate) fn new(
        alloc: Global,
        observer: Arc<Observer, Global>,
        number: u64,
        client: IpAddr,
    ) -> Result<Seen, AllocError> {
        let client = match observer.log() {
            Some(_) => format!(in alloc; "{client}")?,
            None => String::new(alloc),
        };
        let seen = Seen {
            observer,
            lane: (number % 65_536) as usize,
            client,
            begun: 0,
            is_open: true,
        };
        seen.count(Cell::Taken);
        Ok(seen)
    }

    /// Counts one more.
    pub(crate) fn count(&self, cell: Cell) {
        self.observer.counters.count(self.lane, cell);
    }

    /// Hears that a request begins.
    pub(crate) fn begin<R: Clock>(&mut self, clock: &R) {
        self.begun = micros_of(clock);
    }

    /// Hears that the connection has ended.
    pub(crate) fn leave(&mut self) {
        if self.is_open {
            self.is_open = false;
            self.count(Cell::Ended);
        }
    }

    /// Counts and logs a reply of so many bytes.
    pub(crate) fn note<R: Clock>(&self, clock: &R, note: &Note<'_>, bytes: u64) {
        let now = micros_of(clock);
        let micros = now.saturating_sub(self.begun);
        self.count(Cell::Request(Route::of(note.target), note.status));
        if note.status == 503 {
            self.count(Cell::Unavailable(Cause::of(note.why)));
        }
        if note.is_copy {
            self.count(Cell::Copies);
        }
        let counters = &self.observer.counters;
        counters.add(self.lane, Cell::Bytes, bytes);
        counters.note_time(now / 1_000, micros);
        if let Some(log) = self.observer.log() {
            self.put_line(clock, log, note, bytes, micros);
        }
    }

    /// Puts the line of a reply into the log, or drops it.
    fn put_line<R: Clock>(
        &self,
        clock: &R,
        log: &LogQueue,
        note: &Note<'_>,
        bytes: u64,
        micros: u64,
    ) {
        let second = match clock.since_1970() {
            Ok(passed) => passed.as_secs(),
            Err(_) => 0,
        };
        let told = Told {
            client: self.client.as_bytes(),
            second,
            bytes,
            micros,
        };
        let line = Line::of(log.form(), note, told);
        if !log.put(line.as_bytes()) {
            self.count(Cell::Dropped);
        }
    }
}
