//! One who matches and drops old changes, in a thread of its own.

use crate::stop::Stop;
use hub_desk::{HubValue, Seat, Trim, Turnstile};
use q_outside::Clock;
use std::alloc::Global;
use std::snapshot::Snapshot;
use std::sync::Arc;
use std::thread::{Promise, PromisedHandle};

/// What a matcher begins with. It has no bytes: only contracts see it.
#[derive(Drop)]
pub struct Place<C> {
    pub turnstile: Snapshot<Turnstile<HubValue>>,
    pub clock: Snapshot<C>,
    pub trim: Snapshot<Trim>,
}

/// A matcher that rests, with its seat and its clock.
#[derive(Drop)]
pub struct Rested<C> {
    pub seat: Seat<HubValue>,
    pub clock: C,
}

impl<C: Clock> Promise<Rested<C>> for Place<C> {
    ghost use Rattle.quaestor_serve.specs.Matchers.{HasRested};

    ghost kept_by = { λ place rested. HasRested C.tick place.trim.value place.turnstile.value place.clock.value rested };
}

/// One who matches.
#[derive(Drop)]
pub enum Matcher<C: Clock + Drop> {
    /// A thread, until its flag is set.
    Thread {
        /// The thread.
        handle: PromisedHandle<Rested<C>, Place<C>>,
        /// Its flag.
        stop: Arc<Stop, Global>,
    },
    /// The caller, between two connections, where no thread could be made.
    Here(Rested<C>),
}
