//! The clocks of a record's last writes.
ghost use Rattle.std.specs.Prelude.{◌≡◌, ◌-◌, ◌<◌, [], ◌∷◌, ◌++◌, drop, length};
ghost use Rattle.arrayvec.specs.ArrayVec.{array_vec_len};
ghost use Rattle.ttl_estimator.specs.Rates.{last_eight, rate_at};

use arrayvec::ArrayVec;
use std::marker::Model;

/// The clocks of the last writes of a record, at most eight, the oldest first. It takes 72 bytes.
#[derive(Drop)]
pub struct Clocks {
    last: ArrayVec<u64, 8>,
}

impl Model for Clocks {
    ghost use Rattle.std.specs.Prelude.{ℕ, List};

    ghost Value = { List ℕ };

    ghost view = { λ c. c.last.items };
}

impl Clocks {
    /// No write.
    pub fn none() -> Clocks
        ensures { result ≡ [] }
    {
        Clocks {
            last: ArrayVec::new(),
        }
    }

    /// Notes a write. The oldest of eight is left out.
    pub fn note(&mut self, clock: u64)
        ensures { self.new ≡ last_eight (self.old ++ clock ∷ []) }
    {
        keep_seven(&mut self.last);
        self.last.push(clock);
    }

    /// The writes in a million seconds.
    pub fn rate(&self, now: u64) -> u64
        ensures { result ≡ rate_at now self.now }
    {
        let clocks = self.last.as_slice();
        match clocks.first() {
            None => 0,
            Some(oldest) => clocks.len() as u64 * 1_000_000 / now.saturating_sub(*oldest).max(1),
        }
    }
}

/// Leaves out the oldest of eight.
fn keep_seven(clocks: &mut ArrayVec<u64, 8>)
    ensures items { clocks.new.items ≡ drop (length clocks.old.items - 7) clocks.old.items }
    ensures room { array_vec_len clocks.new < 8 }
{
    if clocks.is_full() {
        clocks.remove(0);
    }
}
