//! What a connection begins with, and what it leaves.

use hub_desk::{HubValue, Seat, Turnstile};
use q_outside::Served;
use std::snapshot::Snapshot;

/// What a connection begins with. It has no bytes: only contracts see it.
#[derive(Drop)]
pub struct Begun<S, K, C, H> {
    /// How many connections came before it.
    pub number: Snapshot<u64>,
    pub source: Snapshot<S>,
    pub sink: Snapshot<K>,
    pub clock: Snapshot<C>,
    /// Its hand of who keeps the commits.
    pub hand: Snapshot<H>,
    pub turnstile: Snapshot<Turnstile<HubValue>>,
    /// Its seat, which has seen all that the connection knows at first.
    pub seat: Snapshot<Seat<HubValue>>,
}

/// The same as the promise of a thread, which may be made again where no thread could be.
#[derive(Drop)]
pub struct Beginning<S, K, C, H> {
    pub begun: Snapshot<Begun<S, K, C, H>>,
}

/// What is left of a connection that has ended.
#[derive(Drop)]
pub struct Done<S, K> {
    pub seat: Seat<HubValue>,
    pub source: S,
    pub sink: K,
    pub served: Served,
}
