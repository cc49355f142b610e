//! The shared log of a keeper.
ghost use Rattle.std.specs.Arc.{arc_value};
ghost use Rattle.shared_log.specs.Shared.{IsSeated};

use disks::Disk;
use shared_log::{LogValue, SharedLog};
use std::alloc::Global;
use std::sync::Arc;
use turnstile::Seat;

/// The shared log of a server, and the seat off which those of its connections are split.
#[derive(Drop)]
pub(crate) struct Main<K: Disk + Drop> {
    pub shared: Arc<SharedLog<K>, Global>,
    pub seat: Seat<LogValue<K>>,
    ghost seated: { IsSeated (arc_value shared).turnstile seat },
}
