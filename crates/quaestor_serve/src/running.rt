//! Connections that are served, each by a thread of its own.

use crate::begun::{Beginning, Done};
use kept_desk::Keeping;
use q_outside::{Clock, Sink, Source};
use std::thread::{Promise, PromisedHandle};

impl<S: Source, K: Sink, C: Clock, H: Keeping> Promise<Done<S, K>> for Beginning<S, K, C, H> {
    ghost use Rattle.quaestor_serve.specs.Kept.{KeptOf};
    ghost use Rattle.quaestor_serve.specs.Served.{KeptBy};

    ghost kept_by = { λ beginning done. KeptOf S.at K.at K.ended C.tick (KeptBy H.log H.keeps) beginning.begun.value done };
}

/// A connection that is served.
#[derive(Drop)]
pub struct Running<S: Source + Drop, K: Sink + Drop, C: Clock + Drop, H: Keeping + Drop> {
    /// The number of its place.
    pub place: u32,
    /// Its thread.
    pub handle: PromisedHandle<Done<S, K>, Beginning<S, K, C, H>>,
}
