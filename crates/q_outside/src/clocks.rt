//! Clocks over stored moments.
ghost use Rattle.std.specs.Prelude.{◌≡◌, ◌<◌, length, IfOk};
ghost use Rattle.q_outside.specs.Clocks.{TicksNext};

use crate::environment::Clock;
use q_base::Moment;
use std::marker::Model;

/// A clock that always gives one moment.
#[derive(Clone, Copy, Debug)]
pub struct FixedClock {
    /// The moment that it gives.
    pub at: Moment,
}

impl Clock for FixedClock {
    ghost tick = { λ c m d. (m ≡ c.at) × (d ≡ c) };

    fn now(&mut self) -> Moment {
        self.at
    }
}

/// A clock that gives stored moments in order, and then the last of them again and again. Contracts see
/// the moments that are left.
#[derive(Debug, Drop)]
pub struct ListClock {
    moments: Vec<Moment>,
    at: usize,
}

impl Model for ListClock {
    ghost use Rattle.std.specs.Prelude.{ℕ, ◌<◌, List, length, drop};

    ghost Value = { List ℕ };

    ghost view = { λ c. drop c.at c.moments.items };

    ghost invariant = { λ c. c.at < length c.moments.items };
}

impl ListClock {
    /// The clock that gives these moments.
    pub fn of(moments: Vec<Moment>) -> ListClock
        requires { 0 < length moments.items }
        ensures { result ≡ moments.items }
    {
        ListClock { moments, at: 0 }
    }
}

impl Clock for ListClock {
    ghost tick = { TicksNext };

    fn now(&mut self) -> Moment {
        let moment = self.moments[self.at];
        if self.at + 1 < self.moments.len() {
            self.at += 1;
        }
        moment
    }
}
