//! Which calls of a disk in memory fail.

/// The numbers of the calls that fail, counted from 0 and rising, and how many calls are left until the
/// machine stops, where it does.
#[derive(Debug, Drop)]
pub struct Plan {
    failing: Vec<u64>,
    failed: usize,
    calls: u64,
    left: Option<u64>,
}

/// What one call does.
#[derive(Clone, Copy, Debug, PartialEq, Eq)]
pub enum Fate {
    /// It is done.
    Done,
    /// It fails, and a write leaves its first half.
    Fails,
    /// The machine has stopped: it does nothing.
    Stopped,
}

impl Plan {
    /// The calls of these numbers fail, and the machine does not stop.
    pub fn of(failing: Vec<u64>) -> Plan {
        Plan {
            failing,
            failed: 0,
            calls: 0,
            left: None,
        }
    }

    /// The machine stops after this many calls more.
    pub fn stop_after(&mut self, calls: u64) {
        self.left = Some(calls);
    }

    /// The machine runs again, and does not stop.
    pub fn start(&mut self) {
        self.left = None;
    }

    /// What the next call does.
    pub fn next(&mut self) -> Fate {
        match self.left {
            Some(0) => return Fate::Stopped,
            Some(left) => self.left = Some(left - 1),
            None => {}
        }
        let call = self.calls;
        self.calls = call.saturating_add(1);
        if self.failing.get(self.failed).copied() == Some(call) {
            self.failed = self.failed.saturating_add(1);
            return Fate::Fails;
        }
        Fate::Done
    }
}
