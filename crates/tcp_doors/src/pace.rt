//! How fast bytes have to come or go.

/// The bytes that came or went since a moment, by which more time is given.
#[derive(Clone, Copy, Debug)]
pub(crate) struct Pace {
    /// The moment in milliseconds, once there was something to wait for.
    start: Option<u64>,
    /// The bytes since then.
    bytes: u64,
}

impl Pace {
    /// Nothing was waited for yet.
    pub(crate) fn new() -> Pace {
        Pace {
            start: None,
            bytes: 0,
        }
    }

    /// Begins to count at this moment, unless it was begun before.
    pub(crate) fn start(&mut self, now: u64) {
        if self.start.is_none() {
            self.start = Some(now);
        }
    }

    /// Counts bytes.
    pub(crate) fn count(&mut self, bytes: usize) {
        self.bytes = self.bytes.saturating_add(bytes as u64);
    }

    /// Whether any bytes were counted.
    pub(crate) fn has_bytes(&self) -> bool {
        self.bytes > 0
    }

    /// The moment until which more may be waited for: so many seconds after the start, and a second more
    /// for as many bytes as the least rate has.
    pub(crate) fn until(&self, seconds: u32, rate: u32) -> u64 {
        let Some(start) = self.start else {
            return u64::MAX;
        };
        let earned = self
            .bytes
            .saturating_mul(1_000)
            .checked_div(u64::from(rate));
        start
            .saturating_add(u64::from(seconds) * 1_000)
            .saturating_add(earned.unwrap_or(0))
    }
}

/// How long a reply may still be waited for. What the system takes gives more time, but never more than
/// the limit from now on: the system's buffers may grow while the client takes nothing.
#[derive(Clone, Copy, Debug)]
pub(crate) struct Patience {
    /// The moment in milliseconds until which is waited, once there was something to wait for.
    until: Option<u64>,
}

impl Patience {
    /// Nothing was waited for yet.
    pub(crate) fn new() -> Patience {
        Patience { until: None }
    }

    /// Whether there was something to wait for.
    pub(crate) fn has_started(&self) -> bool {
        self.until.is_some()
    }

    /// The moment until which is waited: so many seconds from now where nothing was waited for yet.
    pub(crate) fn until(&mut self, now: u64, seconds: u32) -> u64 {
        match self.until {
            Some(until) => until,
            None => {
                let until = now.saturating_add(u64::from(seconds) * 1_000);
                self.until = Some(until);
                until
            }
        }
    }

    /// Counts bytes that the system took: a second for as many as the least rate has.
    pub(crate) fn count(&mut self, now: u64, bytes: usize, seconds: u32, rate: u32) {
        if let Some(until) = self.until {
            let millis = (bytes as u64)
                .saturating_mul(1_000)
                .checked_div(u64::from(rate))
                .unwrap_or(0);
            let most = now.saturating_add(u64::from(seconds) * 1_000);
            self.until = Some(until.saturating_add(millis).min(most));
        }
    }
}
