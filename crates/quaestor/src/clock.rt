//! The clock of the system.
use q_base::Moment;
use q_outside::{Clock, SystemClock};
use std::rt;

/// The clock of the system, which each thread has for its own.
#[derive(Clone, Copy, Debug)]
pub struct HostClock<R: rt::Clock + Copy> {
    rt: R,
}

impl<R: rt::Clock + Copy> HostClock<R> {
    /// The clock of this runtime.
    pub fn new(rt: R) -> HostClock<R> {
        HostClock { rt }
    }
}

impl<R: rt::Clock + Copy + Drop> Clock for HostClock<R> {
    ghost tick = { λ _ _ _. Unit {0} };

    fn now(&mut self) -> Moment {
        SystemClock::new(self.rt).now()
    }
}
