//! Whether a server was told to end, for others than its connections.

use crate::watch::Watch;
use std::alloc::Global;
use std::rt::Clock;
use std::sync::Arc;

/// Whether the server of some doors was told to end by a signal.
#[derive(Drop)]
pub struct Ending {
    watch: Arc<Watch, Global>,
}

impl Ending {
    /// That of a watch.
    pub(crate) fn new(watch: Arc<Watch, Global>) -> Ending {
        Ending { watch }
    }

    /// Whether it was. It looks for a signal, unless somebody has just looked.
    pub fn is_told<R: Clock>(&self, clock: &R) -> bool {
        self.watch.look(clock);
        self.watch.is_stopped()
    }
}
