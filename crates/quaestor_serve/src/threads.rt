//! A connection in a thread of its own.
ghost use Rattle.std.specs.Prelude.{◌≡◌, true, IfOk, IfErr};
ghost use Rattle.std.specs.Arc.{arc_value};
ghost use Rattle.quaestor_serve.specs.declared.begun.Done.{Done};
ghost use Rattle.quaestor_serve.specs.Kept.{Kept, KeptOf, MayBegin};
ghost use Rattle.quaestor_serve.specs.Running.{begun_of};
ghost use Rattle.quaestor_serve.specs.Served.{KeptBy};
ghost use Rattle.hub_desk.specs.HubValue.{hub_setting};
ghost use Rattle.turnstile.specs.Seats.{setting_of};

use crate::begun::{Beginning, Begun, Done};
use crate::endings::Endings;
use crate::pool::{Pool, PoolRooms};
use crate::running::Running;
use hub_desk::{HubValue, Seat, Seated, Turnstile};
use kept_desk::{Keeping, KeptDesk};
use q_outside::{Clock, Gate, Sink, Source};
use quaestor_server::serve_visits;
use std::alloc::Global;
use std::snapshot::Snapshot;
use std::sync::{Arc, Wait};
use std::thread::{PromisedHandle, Threads};
use std::{rt, thread};

/// The stack of a thread that serves a connection, in bytes.
const STACK: usize = 512 * 1024;

/// Serves a connection at a seat, and ends its sink.
fn serve_at<R: Wait + rt::Clock, S: Source, K: Sink, C: Clock + Drop, H: Keeping + Drop>(
    rt: &R,
    alloc: Global,
    turnstile: &Turnstile<HubValue>,
    seat: Seat<HubValue>,
    hand: H,
    mut source: S,
    mut sink: K,
    mut clock: C,
    pool: &Pool,
) -> Done<S, K>
    requires begin { MayBegin turnstile.now seat pool.now }
    requires keeps { H.may_fail hand ≡ true → (setting_of hub_setting turnstile.now).keeps ≡ true }
    ensures { Kept S.at K.at K.ended C.tick (KeptBy H.log H.keeps) turnstile.now seat source sink clock hand result }
{
    let seated = Seated::new(rt, turnstile, seat);
    let mut desk = KeptDesk::new(seated, hand);
    let mut rooms = PoolRooms { rt, pool };
    let served = serve_visits(
        alloc,
        &mut desk,
        &mut source,
        &mut sink,
        &mut clock,
        &mut rooms,
    );
    sink.end();
    let (seated, _hand) = desk.into_parts();
    Done {
        seat: seated.into_seat(),
        source,
        sink,
        served,
    }
}

/// The same in a thread, with all that it needs, behind the gate. As its last act it tells that the
/// connection has ended.
pub(crate) fn serve_there<
    R: Wait + rt::Clock + Copy,
    S: Source,
    K: Sink,
    C: Clock + Drop,
    G: Gate + Drop,
    H: Keeping + Drop,
>(
    rt: R,
    alloc: Global,
    turnstile: Arc<Turnstile<HubValue>, Global>,
    endings: Arc<Endings, Global>,
    gate: G,
    place: u32,
    seat: Seat<HubValue>,
    hand: H,
    source: S,
    sink: K,
    clock: C,
    pool: Arc<Pool, Global>,
) -> Done<S, K>
    requires begin { MayBegin (arc_value turnstile) seat (arc_value pool) }
    requires keeps { H.may_fail hand ≡ true → (setting_of hub_setting (arc_value turnstile)).keeps ≡ true }
    ensures { Kept S.at K.at K.ended C.tick (KeptBy H.log H.keeps) (arc_value turnstile) seat source sink clock hand result }
{
    gate.pass(place);
    let done = serve_at(
        &rt, alloc, &turnstile, seat, hand, source, sink, clock, &pool,
    );
    endings.tell(&rt, place);
    done
}

/// Starts a thread that works for a connection. Where none can be made the work comes back.
pub(crate) fn try_start<S, K, C, H, F, R>(
    rt: &R,
    begun: &Begun<S, K, C, H>,
    work: F,
) -> Result<PromisedHandle<Done<S, K>, Beginning<S, K, C, H>>, F>
where
    S: Source + Send + Drop + 'static,
    K: Sink + Send + Drop + 'static,
    C: Clock + Drop,
    H: Keeping + Drop,
    F: FnOnce() -> Done<S, K> + Send + 'static,
    R: Threads,
    requires runs { F.pre work }
    requires keeps { (done : Done S K) → F.post work done → KeptOf S.at K.at K.ended C.tick (KeptBy H.log H.keeps) begun.now done }
    ensures started { IfOk result (λ handle. handle.promise.begun.value ≡ begun.now) }
    ensures refused { IfErr result (λ back. back ≡ work) }
{
    let promise = Beginning {
        begun: Snapshot::of(begun),
    };
    match thread::Builder::new()
        .stack_size(STACK)
        .spawn_with(rt, promise, work)
    {
        Ok(handle) => Ok(handle),
        Err(refused) => Err(refused.value),
    }
}

/// Waits for the end of a connection.
pub(crate) fn finish<S, K, C, H, R>(rt: &R, running: Running<S, K, C, H>) -> Done<S, K>
where
    S: Source + Drop,
    K: Sink + Drop,
    C: Clock + Drop,
    H: Keeping + Drop,
    R: Threads,
    ensures { KeptOf S.at K.at K.ended C.tick (KeptBy H.log H.keeps) (begun_of running) result }
{
    let Running { place: _, handle } = running;
    handle.join(rt)
}
