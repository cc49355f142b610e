//! What is counted of requests, connections and the log.
//!
//! All numbers are sums that only grow, each in a cell of one list. So whoever counts adds to a cell, and
//! what is there now, as the connections that are open, is a difference of two.
ghost use Rattle.std.specs.Prelude.{◌<◌, ◌≤◌};

use crate::cause::Cause;
use crate::route::Route;
use crate::status::{STATUSES, status_cell};

/// How many cells the requests take: one for each route and status.
const REQUESTS: usize = 8 * (STATUSES + 1);

/// How many cells there are.
pub const CELLS: usize = REQUESTS + 12;

/// What a number is of.
#[derive(Clone, Copy, Debug, PartialEq, Eq)]
pub enum Cell {
    /// The requests of a route that were answered by a status.
    Request(Route, u16),
    /// The requests that were answered 503 for a cause.
    Unavailable(Cause),
    /// The copies that caches may keep.
    Copies,
    /// The bytes of all replies.
    Bytes,
    /// The connections that were taken.
    Taken,
    /// Those that have ended.
    Ended,
    /// The waits for a request that were begun.
    Waits,
    /// Those that have ended.
    Woken,
    /// The lines that were written to the log.
    Lines,
    /// Those that were dropped.
    Dropped,
    /// The matches that moved the front, as the matchers saw it.
    Matches,
    /// The commits that were matched.
    Matched,
}

impl Cell {
    /// Where the number is.
    pub fn index(self) -> usize
        ensures { result < CELLS }
    {
        match self {
            Cell::Request(route, status) => request_index(route, status_cell(status)),
            Cell::Unavailable(Cause::Memory) => REQUESTS,
            Cell::Unavailable(Cause::Other) => REQUESTS + 1,
            Cell::Copies => REQUESTS + 2,
            Cell::Bytes => REQUESTS + 3,
            Cell::Taken => REQUESTS + 4,
            Cell::Ended => REQUESTS + 5,
            Cell::Waits => REQUESTS + 6,
            Cell::Woken => REQUESTS + 7,
            Cell::Lines => REQUESTS + 8,
            Cell::Dropped => REQUESTS + 9,
            Cell::Matches => REQUESTS + 10,
            Cell::Matched => REQUESTS + 11,
        }
    }
}

/// Where the requests of a route are counted that were answered by the status of this cell.
fn request_index(route: Route, status: usize) -> usize
    requires { status ≤ STATUSES }
    ensures { result < REQUESTS }
{
    route.cell() * (STATUSES + 1) + status
}

/// The numbers at a moment.
#[derive(Clone, Copy, Debug)]
pub struct Counts {
    numbers: [u64; CELLS],
    /// The longest request of the last minute, in microseconds.
    pub longest: u64,
}

impl Counts {
    /// Nothing was counted yet.
    pub fn new() -> Counts {
        Counts {
            numbers: [0; CELLS],
            longest: 0,
        }
    }

    /// Adds to the number at a place, where there is one.
    pub fn add(&mut self, index: usize, more: u64) {
        if let Some(number) = self.numbers.get_mut(index) {
            *number = number.wrapping_add(more);
        }
    }

    /// The number of a cell.
    pub fn of(&self, cell: Cell) -> u64 {
        self.numbers[cell.index()]
    }

    /// The requests of a route that were answered by the status of a cell.
    pub fn requests(&self, route: Route, status: usize) -> u64 {
        if status > STATUSES {
            return 0;
        }
        self.numbers
            .get(request_index(route, status))
            .copied()
            .unwrap_or(0)
    }

    /// The replies that said that a copy is still good.
    pub fn not_modified(&self) -> u64 {
        let mut sum: u64 = 0;
        for route in Route::ALL {
            sum = sum.wrapping_add(self.of(Cell::Request(route, 304)));
        }
        sum
    }

    /// The connections that are open.
    pub fn open(&self) -> u64 {
        self.of(Cell::Taken).saturating_sub(self.of(Cell::Ended))
    }

    /// Those of them that wait for a request.
    pub fn waiting(&self) -> u64 {
        self.of(Cell::Waits).saturating_sub(self.of(Cell::Woken))
    }
}
