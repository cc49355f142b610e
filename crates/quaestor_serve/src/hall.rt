//! What a server keeps between two connections.
ghost use Rattle.std.specs.Prelude.{◌≡◌, ◌+◌, ◌≤◌, [], vec_len, vec_capacity};
ghost use Rattle.std.specs.Arc.{arc_value};
ghost use Rattle.std.specs.VecDeque.{deque_len, deque_capacity};
ghost use Rattle.hub_desk.specs.HubValue.{hub_setting};
ghost use Rattle.quaestor_serve.specs.Kept.{IsFirst};
ghost use Rattle.turnstile.specs.Seats.{IsSeatOf, IsIdle, mine, setting_of};

use crate::endings::Endings;
use crate::pool::Pool;
use crate::running::Running;
use hub_desk::{HubValue, Seat, Turnstile};
use kept_desk::Keeping;
use q_outside::{Clock, Sink, Source};
use std::alloc::Global;
use std::collections::VecDeque;
use std::sync::Arc;

/// The hub behind its turnstile, the main seat, to which the seats of all connections are joined, and
/// the connections that are served, in no order. All the memory that connections need is here from the
/// beginning.
#[derive(Drop)]
pub(crate) struct Hall<S: Source + Drop, K: Sink + Drop, C: Clock + Drop, H: Keeping + Drop> {
    pub turnstile: Arc<Turnstile<HubValue>, Global>,
    pub seat: Seat<HubValue>,
    pub running: VecDeque<Running<S, K, C, H>>,
    /// For each place where among `running` its connection is. No clause reads it.
    pub positions: Vec<usize>,
    /// The places at which there is no connection, the next to be taken last.
    pub vacant: Vec<u32>,
    /// The buffers for those that are served.
    pub pool: Arc<Pool, Global>,
    /// Where threads tell that their connections have ended.
    pub endings: Arc<Endings, Global>,
    /// How many connections may be there at the same time.
    pub places: u32,
    ghost seated: { IsSeatOf hub_setting (arc_value turnstile) seat × IsIdle seat × (mine seat ≡ []) × IsFirst seat },
    ghost counted: { deque_len running + vec_len vacant ≤ places },
    ghost pooled: { (arc_value pool).config ≡ setting_of hub_setting (arc_value turnstile) },
    ghost queue: { places ≤ deque_capacity running },
    ghost kept: { places ≤ vec_capacity vacant },
}
