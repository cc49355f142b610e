//! When a turn began and ended.

use std::rt::Clock;

/// When a turn began and ended, in microseconds of a clock that does not go back. Of a turn that is not timed
/// both are 0.
#[derive(Clone, Copy, Debug)]
pub(crate) struct TurnTime {
    pub began: u64,
    pub ended: u64,
}

impl TurnTime {
    /// That of a turn that begins now, where turns are timed.
    pub fn begin<R: Clock>(rt: &R, is_timed: bool) -> TurnTime {
        let now = if is_timed { micros(rt) } else { 0 };
        TurnTime {
            began: now,
            ended: now,
        }
    }

    /// The same, of a turn that ends now.
    pub fn end<R: Clock>(self, rt: &R) -> TurnTime {
        if self.began == 0 {
            return self;
        }
        TurnTime {
            began: self.began,
            ended: micros(rt),
        }
    }

    /// How long the turn was; 0 where it was not timed, or the clock failed.
    pub fn lasted(self) -> u64 {
        self.ended.saturating_sub(self.began)
    }
}

/// What the clock shows, in microseconds, and 0 where it fails.
fn micros<R: Clock>(rt: &R) -> u64 {
    match rt.monotonic() {
        Ok(passed) => u64::try_from(passed.as_micros()).unwrap_or(u64::MAX),
        Err(_) => 0,
    }
}
