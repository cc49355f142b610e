//! A connection leaves the hall.
ghost use Rattle.std.specs.Prelude.{◌≡◌, ◌+◌, ◌<◌};
ghost use Rattle.std.specs.VecDeque.{deque_len};
ghost use Rattle.quaestor_serve.specs.Halls.{IsReady, Stays, KeepsOut, Releases};
ghost use Rattle.quaestor_serve.specs.Served.{KeptBy};

use crate::begun::Done;
use crate::hall::Hall;
use crate::running::Running;
use crate::threads::finish;
use kept_desk::Keeping;
use q_outside::{Clock, Served, Sink, Source};
use std::collections::VecDeque;
use std::thread::Threads;

/// A connection that leaves, with how it was served.
#[derive(Drop)]
pub(crate) struct Leaving<S, K> {
    pub source: S,
    pub sink: K,
    pub served: Served,
}

/// Notes where among those that are served the connection of a place is.
pub(crate) fn note_position(positions: &mut Vec<usize>, place: u32, position: usize) {
    if let Some(noted) = positions.get_mut(place as usize) {
        *noted = position;
    }
}

/// The place of the connection at a position, or this one where none is there.
fn place_at<S, K, C, H>(
    running: &VecDeque<Running<S, K, C, H>>,
    position: usize,
    otherwise: u32,
) -> u32
where
    S: Source + Drop,
    K: Sink + Drop,
    C: Clock + Drop,
    H: Keeping + Drop,
{
    match running.get(position) {
        Some(there) => there.place,
        None => otherwise,
    }
}

/// Waits for the end of a connection, and joins its seat to the main one. Its place is vacant then, and
/// the last of the others has its position.
pub(crate) fn release<S, K, C, H, R>(
    rt: &R,
    hall: &mut Hall<S, K, C, H>,
    position: usize,
) -> Leaving<S, K>
where
    S: Source + Drop,
    K: Sink + Drop,
    C: Clock + Drop,
    H: Keeping + Drop,
    R: Threads,
    requires some { position < deque_len hall.old.running }
    requires ready { IsReady hall.old }
    ensures stays { Stays hall.old hall.new }
    ensures ready { IsReady hall.new }
    ensures out { KeepsOut hall.old hall.new }
    ensures fewer { deque_len hall.new.running + 1 ≡ deque_len hall.old.running }
    ensures releases { Releases S.at K.at K.ended C.tick (KeptBy H.log H.keeps) hall.old hall.new result.source result.sink result.served }
{
    let Some(running) = hall.running.swap_remove_back(position) else {
        unreachable!()
    };
    let place = running.place;
    let moved = place_at(&hall.running, position, place);
    note_position(&mut hall.positions, moved, position);
    let Done {
        seat,
        source,
        sink,
        served,
    } = finish(rt, running);
    hall.turnstile.join(&mut hall.seat, seat);
    hall.vacant.push_reserved(place);
    Leaving {
        source,
        sink,
        served,
    }
}
