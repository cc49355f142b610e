//! What those who watch a server are told of its store, and whether it is ending.

use access_log::Cell;
use hub_desk::Figures;
use metrics_text::{Shows, metrics_of};
use q_base::Commit;
use q_outside::Limits;
use quaestor_serve::Monitor;
use std::alloc::{AllocError, Global};
use std::rt::Clock;
use std::sync::atomic::{AtomicBool, AtomicU64, Ordering};
use std::sync::{Arc, Mutex};
use std::thread;
use std::time::Duration;
use tcp_doors::{Ending, Observer};

/// For how many milliseconds the numbers of the store are waited for. A matcher tells them within its next
/// step, a millisecond.
const PATIENCE_MILLIS: u64 = 500;

/// The limits of time of those who watch: they are few, and one after the other is answered.
pub(crate) const LIMITS: Limits = Limits {
    idle: 5,
    head_time: 5,
    reply_time: 5,
    least_rate: 1_000,
    grace: 0,
};

/// What was heard of a server.
#[derive(Drop)]
pub struct Board {
    /// Who counts what its connections do.
    pub(crate) observer: Arc<Observer, Global>,
    is_asking: AtomicBool,
    is_ending: AtomicBool,
    /// The greatest front that was heard.
    front: AtomicU64,
    /// How often the store's numbers were heard.
    reports: AtomicU64,
    /// The last of them.
    figures: Mutex<Option<Figures>>,
}

impl Board {
    /// Nothing was heard yet.
    pub(crate) fn new(observer: Arc<Observer, Global>) -> Board {
        Board {
            observer,
            is_asking: AtomicBool::new(false),
            is_ending: AtomicBool::new(false),
            front: AtomicU64::new(0),
            reports: AtomicU64::new(0),
            figures: Mutex::new(None),
        }
    }

    /// Counts a match, where the front is greater than each that was heard before.
    fn hear_front(&self, front: Commit) {
        if front <= self.front.load(Ordering::Relaxed) {
            return;
        }
        let before = self.front.fetch_max(front, Ordering::SeqCst);
        if before < front {
            self.observer.add(Cell::Matches, 1);
            self.observer.add(Cell::Matched, front - before);
        }
    }

    /// Hears the store's numbers, unless somebody has those before in hand.
    fn hear(&self, figures: &Figures) {
        if let Some(mut heard) = self.figures.try_lock() {
            *heard = Some(*figures);
            self.is_asking.store(false, Ordering::SeqCst);
        }
        self.reports.fetch_add(1, Ordering::SeqCst);
    }

    /// The store's numbers: new ones, or the last ones where none comes in time.
    fn ask<R: Clock>(&self, clock: &R) -> Option<Figures> {
        let before = self.reports.load(Ordering::SeqCst);
        self.is_asking.store(true, Ordering::SeqCst);
        for _n in 0..PATIENCE_MILLIS {
            if self.reports.load(Ordering::SeqCst) != before {
                break;
            }
            thread::sleep(clock, Duration::from_millis(1));
        }
        match self.figures.try_lock() {
            Some(figures) => *figures,
            None => None,
        }
    }

    /// Whether the server takes no further connection.
    fn has_ended(&self) -> bool {
        self.is_ending.load(Ordering::SeqCst)
    }
}

/// What hears of a store, for a board where there is one.
#[derive(Clone, Drop)]
pub struct BoardMonitor {
    board: Option<Arc<Board, Global>>,
}

impl BoardMonitor {
    /// That of a board, or one that never asks.
    pub(crate) fn new(board: Option<Arc<Board, Global>>) -> BoardMonitor {
        BoardMonitor { board }
    }
}

impl Monitor for BoardMonitor {
    fn hear_front(&self, front: Commit) {
        if let Some(board) = &self.board {
            board.hear_front(front);
        }
    }

    fn is_asking(&self) -> bool {
        match &self.board {
            Some(board) => board.is_asking.load(Ordering::Relaxed),
            None => false,
        }
    }

    fn hear(&self, figures: &Figures) {
        if let Some(board) = &self.board {
            board.hear(figures);
        }
    }

    fn end(&self) {
        if let Some(board) = &self.board {
            board.is_ending.store(true, Ordering::SeqCst);
        }
    }
}

/// What a board shows, with the clock and the signals of the system.
#[derive(Drop)]
pub(crate) struct BoardShows<R: Drop> {
    pub(crate) rt: R,
    pub(crate) board: Arc<Board, Global>,
    /// Whether a signal told the server to end.
    pub(crate) ending: Ending,
}

impl<R: Clock + AllocGlobal + Drop> Shows for BoardShows<R> {
    fn is_ending(&mut self) -> bool {
        self.board.has_ended() || self.ending.is_told(&self.rt)
    }

    fn date(&mut self) -> Option<[u8; 29]> {
        let passed = self.rt.since_1970().ok()?;
        let date = httpdate::HttpDate::from_unix_secs(passed.as_secs()).ok()?;
        Some(date.to_bytes())
    }

    fn metrics(&mut self) -> Result<Vec<u8>, AllocError> {
        let figures = self.board.ask(&self.rt);
        let counts = self.board.observer.counts(&self.rt);
        metrics_of(self.rt.alloc(), &counts, figures.as_ref())
    }
}
