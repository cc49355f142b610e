//! Moments, and the numbers of commits.
ghost use Rattle.std.specs.Prelude.{◌≡◌, ◌≤◌, min};
ghost use Rattle.q_base.specs.Moment.{greatest_moment};

use std::marker::Model;

/// The number of an accepted write, counted from 1. Commit 0 is the empty store.
pub type Commit = u64;

/// The last second of the year 9999: a date of HTTP has a year of four digits (RFC 9110, 5.6.7).
pub const GREATEST_SECONDS: u64 = 253_402_300_799;

/// A whole number of seconds since 1970, at most the last second of the year 9999.
#[derive(Clone, Copy, Debug, PartialEq, Eq, PartialOrd, Ord)]
pub struct Moment {
    seconds: u64,
}

impl Model for Moment {
    ghost use Rattle.std.specs.Prelude.{ℕ, ◌≤◌};
    ghost use Rattle.q_base.specs.Moment.{greatest_moment};

    ghost Value = { ℕ };

    ghost view = { λ m. m.seconds };

    ghost invariant = { λ m. m.seconds ≤ greatest_moment };

    ghost inverse = { λ n. record { seconds = n } };
}

impl Moment {
    /// The moment a number of seconds after 1970 began, at most the greatest moment.
    pub fn of(seconds: u64) -> Moment
        ensures { result ≡ min seconds greatest_moment }
    {
        Moment {
            seconds: seconds.min(GREATEST_SECONDS),
        }
    }

    /// The seconds since 1970 began.
    pub fn seconds(self) -> u64
        ensures same { result ≡ self }
        ensures capped { result ≤ greatest_moment }
    {
        self.seconds
    }
}
