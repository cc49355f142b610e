//! The limits of lifetimes.
ghost use Rattle.std.specs.Prelude.{◌≡◌};
ghost use Rattle.ttl_estimator.specs.Lifetime.{within, poisson};

/// The limits of lifetimes, and the number of keys that may be active.
#[derive(Clone, Copy, Debug)]
pub struct Limits {
    /// The least lifetime in seconds, which counts even if it is above the greatest.
    pub low: u32,
    /// The greatest lifetime in seconds.
    pub high: u32,
    /// The number of keys that may be active.
    pub active: u32,
}

impl Limits {
    /// A number of seconds, brought between the least and the greatest lifetime.
    pub(crate) fn within(&self, seconds: u64) -> u32
        ensures { result ≡ within self.now seconds }
    {
        seconds.min(self.high as u64).max(self.low as u64) as u32
    }

    /// The lifetime by a number of writes in a million seconds.
    pub(crate) fn poisson(&self, rates: u64) -> u32
        ensures { result ≡ poisson self.now rates }
    {
        let seconds = if rates == 0 {
            self.high as u64
        } else {
            693_147 / rates
        };
        self.within(seconds)
    }
}
