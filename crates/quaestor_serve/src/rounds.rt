//! The rounds of a server: in each the connections that have ended leave, and then one comes.
ghost use Rattle.std.specs.Prelude.{◌≡◌, ℕ, ◌+◌, ◌<◌, true, List, [], ◌∷◌, Option, vec_len};
ghost use Rattle.std.specs.Arc.{arc_value};
ghost use Rattle.std.specs.VecDeque.{deque_len};
ghost use Rattle.hub_model.specs.declared.entry.Entry.{Entry};
ghost use Rattle.q_outside.specs.Doors.{DoorsView, Passes};
ghost use Rattle.quaestor_serve.specs.declared.begun.Done.{Done};
ghost use Rattle.quaestor_serve.specs.Halls.{IsReady, Stays, KeepsOut, setting_in};
ghost use Rattle.quaestor_serve.specs.Going.{Going, HaveRoom, GoesOn, HandsBack};
ghost use Rattle.quaestor_serve.specs.Kept.{KeptOf};
ghost use Rattle.quaestor_serve.specs.Served.{IsAtLog, KeptBy};

use crate::begun::{Beginning, Begun, Done};
use crate::endings::Endings;
use crate::hall::Hall;
use crate::pool::Pool;
use crate::running::Running;
use crate::threads::{serve_there, try_start};
use crate::visits::{Leaving, note_position, release};
use hub_desk::{HubValue, Turnstile};
use kept_desk::{Keeper, Keeping};
use q_outside::{Clock, Doors, Gate, Next};
use std::alloc::Global;
use std::rt;
use std::snapshot::Snapshot;
use std::sync::{Arc, Wait};
use std::thread::{PromisedHandle, Threads};

/// What came of one round.
#[derive(Clone, Copy, Debug, PartialEq, Eq)]
pub(crate) enum Round {
    /// A connection came.
    Came,
    /// There was no memory for the next one, and the doors were not asked.
    NoMemory,
    /// The doors were closed.
    Closed,
    /// The doors failed.
    Fault,
}

/// Waits for the end of a connection and hands it back.
fn hand_back<P, C, H, R>(
    rt: &R,
    doors: &mut P,
    hall: &mut Hall<P::From, P::To, C, H>,
    position: usize,
)
where
    P: Doors,
    C: Clock + Clone + Drop,
    H: Keeping + Drop,
    R: Threads,
    requires some { position < deque_len hall.old.running }
    requires ready { IsReady hall.old }
    requires room { HaveRoom (P.at doors.old) hall.old 0 }
    ensures { HandsBack P.From.at P.To.at P.To.ended C.tick (KeptBy H.log H.keeps) C.is_clone (IsAtLog H.log) (P.at doors.old) (P.at doors.new) hall.old hall.new }
{
    let Leaving {
        source,
        sink,
        served,
    } = release(rt, hall, position);
    doors.back(source, sink, Some(served));
}

/// Hands back the connection at a place.
#[tactic(auto, using(crate::proofs::GoingLemmas::handing))]
fn hand_back_at<P, C, H, R>(
    rt: &R,
    doors: &mut P,
    hall: &mut Hall<P::From, P::To, C, H>,
    place: u32,
)
where
    P: Doors,
    C: Clock + Clone + Drop,
    H: Keeping + Drop,
    R: Threads,
    requires ready { IsReady hall.old }
    requires room { HaveRoom (P.at doors.old) hall.old 0 }
    ensures { HandsBack P.From.at P.To.at P.To.ended C.tick (KeptBy H.log H.keeps) C.is_clone (IsAtLog H.log) (P.at doors.old) (P.at doors.new) hall.old hall.new }
{
    let Some(&position) = hall.positions.get(place as usize) else {
        return;
    };
    if position < hall.running.len() {
        hand_back(rt, doors, hall, position);
    }
}

/// Hands back the connections that have ended, in the order in which they did.
#[tactic(auto, using(crate::proofs::GoingLemmas::handing))]
fn hand_back_ended<P, C, H, R>(rt: &R, doors: &mut P, hall: &mut Hall<P::From, P::To, C, H>)
where
    P: Doors,
    C: Clock + Clone + Drop,
    H: Keeping + Drop,
    R: Threads + Wait,
    requires ready { IsReady hall.old }
    requires room { HaveRoom (P.at doors.old) hall.old 0 }
    ensures { HandsBack P.From.at P.To.at P.To.ended C.tick (KeptBy H.log H.keeps) C.is_clone (IsAtLog H.log) (P.at doors.old) (P.at doors.new) hall.old hall.new }
{
    hall.endings.silence();
    for _n in 0..hall.places {
        let Some(place) = hall.endings.next(rt) else {
            return;
        };
        hand_back_at(rt, doors, hall, place);
    }
}

/// Hands all connections back, in the order in which they end.
#[tactic(auto, using(crate::proofs::GoingLemmas::handing))]
pub(crate) fn drain<P, C, H, R>(rt: &R, doors: &mut P, hall: &mut Hall<P::From, P::To, C, H>)
where
    P: Doors,
    C: Clock + Clone + Drop,
    H: Keeping + Drop,
    R: Threads + Wait,
    requires ready { IsReady hall.old }
    requires room { HaveRoom (P.at doors.old) hall.old 0 }
    ensures empty { deque_len hall.new.running ≡ 0 }
    ensures hands { HandsBack P.From.at P.To.at P.To.ended C.tick (KeptBy H.log H.keeps) C.is_clone (IsAtLog H.log) (P.at doors.old) (P.at doors.new) hall.old hall.new }
{
    for _ in rt.forever() {
        hand_back_ended(rt, doors, hall);
        if hall.running.is_empty() {
            return;
        }
        hall.endings.rest(rt);
    }
    unreachable!()
}

/// Hands back the connections that have ended, and waits until a place is vacant.
#[tactic(auto, using(crate::proofs::GoingLemmas::handing))]
fn wait_for_place<P, C, H, R>(rt: &R, doors: &mut P, hall: &mut Hall<P::From, P::To, C, H>)
where
    P: Doors,
    C: Clock + Clone + Drop,
    H: Keeping + Drop,
    R: Threads + Wait,
    requires ready { IsReady hall.old }
    requires room { HaveRoom (P.at doors.old) hall.old 0 }
    ensures vacant { 0 < vec_len hall.new.vacant }
    ensures hands { HandsBack P.From.at P.To.at P.To.ended C.tick (KeptBy H.log H.keeps) C.is_clone (IsAtLog H.log) (P.at doors.old) (P.at doors.new) hall.old hall.new }
{
    for _ in rt.forever() {
        hand_back_ended(rt, doors, hall);
        if !hall.vacant.is_empty() {
            return;
        }
        hall.endings.rest(rt);
    }
    unreachable!()
}

/// Starts a thread that works for a connection. While none can be made, connections that end are
/// handed back, and it is tried again when one has or after a tenth of a second.
#[tactic(auto, using(crate::proofs::GoingLemmas::handing))]
fn start<P, C, H, F, R>(
    rt: &R,
    doors: &mut P,
    hall: &mut Hall<P::From, P::To, C, H>,
    begun: &Begun<P::From, P::To, C, H>,
    work: F,
) -> PromisedHandle<Done<P::From, P::To>, Beginning<P::From, P::To, C, H>>
where
    P: Doors,
    C: Clock + Clone + Drop,
    H: Keeping + Drop,
    F: FnOnce() -> Done<P::From, P::To> + Send + 'static,
    R: Threads + Wait,
    requires runs { F.pre work }
    requires keeps { (done : Done P.From P.To) → F.post work done → KeptOf P.From.at P.To.at P.To.ended C.tick (KeptBy H.log H.keeps) begun.now done }
    requires ready { IsReady hall.old }
    requires room { HaveRoom (P.at doors.old) hall.old 0 }
    ensures started { result.promise.begun.value ≡ begun.now }
    ensures hands { HandsBack P.From.at P.To.at P.To.ended C.tick (KeptBy H.log H.keeps) C.is_clone (IsAtLog H.log) (P.at doors.old) (P.at doors.new) hall.old hall.new }
{
    let mut work = work;
    for _ in rt.forever() {
        match try_start(rt, begun, work) {
            Ok(handle) => return handle,
            Err(back) => work = back,
        }
        hand_back_ended(rt, doors, hall);
        hall.endings.rest(rt);
    }
    unreachable!()
}

/// Begins to serve a connection that came, at a vacant place. Its seat is split off the main one only
/// now, so it knows all that those knew that were handed back before it came.
#[tactic(auto, using(crate::proofs::HallLemmas::ready_split, crate::proofs::HallLemmas::fresh_split))]
fn admit<P, C, G, H, R>(
    rt: &R,
    alloc: Global,
    doors: &mut P,
    hall: &mut Hall<P::From, P::To, C, H>,
    turnstile: Arc<Turnstile<HubValue>, Global>,
    endings: Arc<Endings, Global>,
    pool: Arc<Pool, Global>,
    gate: G,
    hand: H,
    clock: C,
    number: u64,
    source: P::From,
    sink: P::To,
)
where
    P: Doors,
    C: Clock + Clone + Send + Drop + 'static,
    G: Gate + Send + Drop + 'static,
    H: Keeping + Send + Drop + 'static,
    R: Threads + Wait + rt::Clock + Copy + Send + 'static,
    requires vacant { 0 < vec_len hall.old.vacant }
    requires pool { (arc_value pool).config ≡ setting_in hall.old }
    requires ready { IsReady hall.old }
    requires room { HaveRoom (P.at doors.old) hall.old 1 }
    requires turnstile { arc_value turnstile ≡ arc_value hall.old.turnstile }
    requires keeps { H.may_fail hand ≡ true → (setting_in hall.old).keeps ≡ true }
    ensures stays { Stays hall.old hall.new }
    ensures ready { IsReady hall.new }
    ensures out { KeepsOut hall.old hall.new }
    ensures room { HaveRoom (P.at doors.new) hall.new 0 }
    ensures going { (given : C) (place : Option H.Log) (base : List (ℕ × Entry)) (first before : DoorsView P.From P.To) → C.is_clone given clock → IsAtLog H.log place hand → Passes before (P.at doors.old) ((source, sink) ∷ []) [] 0 → Going P.From.at P.To.at P.To.ended C.tick (KeptBy H.log H.keeps) (C.is_clone given) (IsAtLog H.log place) base first before hall.old [] number 0 → Going P.From.at P.To.at P.To.ended C.tick (KeptBy H.log H.keeps) (C.is_clone given) (IsAtLog H.log place) base first (P.at doors.new) hall.new [] (number + 1) 0 }
{
    let Some(place) = hall.vacant.pop() else {
        unreachable!()
    };
    let seat = hall.turnstile.split(&mut hall.seat);
    let begun = Begun {
        number: Snapshot::of(&number),
        source: Snapshot::of(&source),
        sink: Snapshot::of(&sink),
        clock: Snapshot::of(&clock),
        hand: Snapshot::of(&hand),
        turnstile: Snapshot::of(&*turnstile),
        seat: Snapshot::of(&seat),
    };
    let own = *rt;
    let work = move || {
        serve_there(
            own, alloc, turnstile, endings, gate, place, seat, hand, source, sink, clock, pool,
        )
    };
    let handle = start(rt, doors, hall, &begun, work);
    note_position(&mut hall.positions, place, hall.running.len());
    hall.running.push_back_reserved(Running { place, handle });
}

/// Waits for a vacant place, takes the memory for one connection, and then waits for one and begins to
/// serve it. So many came before it.
#[tactic(auto, using(crate::proofs::GoingLemmas::ringing))]
pub(crate) fn ring<P, C, G, Q, R>(
    rt: &R,
    alloc: Global,
    doors: &mut P,
    hall: &mut Hall<P::From, P::To, C, Q::Hand>,
    clock: &C,
    gate: &G,
    keeper: &mut Q,
    number: u64,
) -> Round
where
    P: Doors,
    C: Clock + Clone + Send + Drop + 'static,
    G: Gate + Clone + Send + Drop + 'static,
    Q: Keeper,
    R: Threads + Wait + rt::Clock + Copy + Send + 'static,
    requires ready { IsReady hall.old }
    requires room { HaveRoom (P.at doors.old) hall.old 0 }
    requires keeps { Q.may_fail keeper.old ≡ true → (setting_in hall.old).keeps ≡ true }
    ensures keeper { Q.may_fail keeper.new ≡ Q.may_fail keeper.old }
    ensures log { Q.log keeper.new ≡ Q.log keeper.old }
    ensures stays { Stays hall.old hall.new }
    ensures ready { IsReady hall.new }
    ensures out { KeepsOut hall.old hall.new }
    ensures room { HaveRoom (P.at doors.new) hall.new 0 }
    ensures going { (place : Option Q.Hand.Log) (base : List (ℕ × Entry)) (first : DoorsView P.From P.To) → Q.log keeper.old ≡ place → Going P.From.at P.To.at P.To.ended C.tick (KeptBy Q.Hand.log Q.Hand.keeps) (C.is_clone clock.now) (IsAtLog Q.Hand.log place) base first (P.at doors.old) hall.old [] number 0 → GoesOn P.From.at P.To.at P.To.ended C.tick (KeptBy Q.Hand.log Q.Hand.keeps) (C.is_clone clock.now) (IsAtLog Q.Hand.log place) base first (P.at doors.new) hall.new number result }
{
    wait_for_place(rt, doors, hall);
    let Ok(clock) = clock.clone() else {
        return Round::NoMemory;
    };
    let Ok(gate) = gate.clone() else {
        return Round::NoMemory;
    };
    let Ok(hand) = keeper.hand() else {
        return Round::NoMemory;
    };
    let Ok(turnstile) = Arc::try_clone(&hall.turnstile) else {
        return Round::NoMemory;
    };
    let Ok(endings) = Arc::try_clone(&hall.endings) else {
        return Round::NoMemory;
    };
    let Ok(pool) = Arc::try_clone(&hall.pool) else {
        return Round::NoMemory;
    };
    match doors.next() {
        Ok(Next::Connection { source, sink }) => {
            admit(
                rt, alloc, doors, hall, turnstile, endings, pool, gate, hand, clock, number,
                source, sink,
            );
            Round::Came
        }
        Ok(Next::Closed) => Round::Closed,
        Err(_) => Round::Fault,
    }
}
