//! A server from its beginning to its end.
ghost use Rattle.std.specs.Prelude.{◌≡◌, ℕ, ◌+◌, ◌<◌, ◌≤◌, true, false, List, [], length, Some, vec_len, vec_capacity, IfOk, OnOk};
ghost use Rattle.std.specs.List.{enumerate_from, flat_map};
ghost use Rattle.std.specs.VecDeque.{deque_capacity};
ghost use Rattle.hub_model.specs.declared.entry.Entry.{Entry};
ghost use Rattle.kept_desk.specs.Filling.{writes_in, written_by};
ghost use Rattle.q_outside.specs.Doors.{DoorsView};
ghost use Rattle.quaestor_serve.specs.Filled.{AreFilled, HasFilled, HasFilledAt};
ghost use Rattle.quaestor_serve.specs.Halls.{IsReady, Stays, KeepsOut, met_in, seen_in, setting_in};
ghost use Rattle.quaestor_serve.specs.Going.{Going, HaveRoom};
ghost use Rattle.quaestor_serve.specs.Kept.{IsFreshAt};
ghost use Rattle.quaestor_serve.specs.Matchers.{WorkIn};
ghost use Rattle.quaestor_serve.specs.Served.{IsAtLog, IsOfKeeper, KeptBy};
ghost use Rattle.quaestor_serve.specs.Serves.{Ends, IsUnbegun, IsUnfilled, Serves};
ghost use Rattle.turnstile.specs.Places.{Distinct};
ghost use Rattle.turnstile.specs.Seats.{HasOut, mine};

use crate::crew::Crew;
use crate::endings::Endings;
use crate::hall::Hall;
use crate::matcher::Matcher;
use crate::matchers::{start_matchers, step_all, stop_matchers};
use crate::monitor::Monitor;
use crate::pool::Pool;
use crate::rounds::{Round, drain, ring};
use crate::serve_end::{ServeEnd, ServeWhy};
use hub_desk::{Config, HubValue, Seat, Seated, Trim, Turnstile};
use hub_model::laws::no_entry_is_legal;
use kept_desk::{Keeper, Keeping, Unfilled};
use q_base::{Memory, Moment};
use q_outside::{Clock, Doors, Gate, Sink, Source};
use std::alloc::Global;
use std::collections::VecDeque;
use std::rt;
use std::sync::{Arc, Wait};
use std::thread::Threads;

/// All places, the first one last.
fn places_of(alloc: Global, places: u32) -> Result<Vec<u32>, Memory>
    ensures count { IfOk result (λ vacant. vec_len vacant ≡ places) }
    ensures capacity { IfOk result (λ vacant. places ≤ vec_capacity vacant) }
{
    let mut vacant = Vec::with_capacity(alloc, places as usize)?;
    for place in 0..places {
        vacant.push_reserved(places - 1 - place);
    }
    Ok(vacant)
}

/// A position for each place.
fn positions_of(alloc: Global, places: u32) -> Result<Vec<usize>, Memory> {
    let mut positions = Vec::with_capacity(alloc, places as usize)?;
    positions.resize(places as usize, 0)?;
    Ok(positions)
}

/// The hall of a server, before the first connection.
fn hall_of<S, K, C, H>(
    alloc: Global,
    config: Config,
    crew: Crew,
) -> Result<Hall<S, K, C, H>, Memory>
where
    S: Source + Drop,
    K: Sink + Drop,
    C: Clock + Drop,
    H: Keeping + Drop,
    ensures ready { IfOk result (λ h. IsReady h) }
    ensures setting { IfOk result (λ h. setting_in h ≡ config) }
    ensures empty { IfOk result (λ h. (h.running.items ≡ []) × (met_in h ≡ [])) }
    ensures out { IfOk result (λ h. HasOut 0 h.seat) }
{
    // The law that an empty history is legal.
    no_entry_is_legal();
    let places = crew.places;
    let pool = Arc::new(alloc, Pool::new(alloc, &config, crew.workers)?)?;
    let vacant = places_of(alloc, places)?;
    let positions = positions_of(alloc, places)?;
    let running = VecDeque::with_capacity(alloc, places as usize)?;
    let endings = Arc::new(alloc, Endings::new(alloc, places)?)?;
    let value = HubValue::new(alloc, config)?.paced(crew.trim);
    let (turnstile, seat) = Turnstile::open(alloc, value)?;
    let turnstile = Arc::new(alloc, turnstile)?;
    Ok(Hall {
        turnstile,
        seat,
        running,
        positions,
        vacant,
        pool,
        endings,
        places,
    })
}

/// The end of a server that had no memory for the first connection.
fn no_memory() -> ServeEnd
    ensures { IsUnbegun result }
{
    ServeEnd {
        connections: 0,
        why: ServeWhy::Memory,
    }
}

/// The end of a server whose store could not be filled with what was kept.
fn unfilled() -> ServeEnd
    ensures { IsUnfilled result }
{
    ServeEnd {
        connections: 0,
        why: ServeWhy::Unfilled,
    }
}

/// Fills the store with what was kept, by a desk at a seat, and sees the history as it is then.
fn fill_at<Q: Keeper, R: Wait + rt::Clock>(
    rt: &R,
    turnstile: &Turnstile<HubValue>,
    seat: Seat<HubValue>,
    keeper: &mut Q,
    moment: Moment,
) -> (Seat<HubValue>, Result<(), Unfilled>)
    requires { IsFreshAt turnstile.now seat }
    ensures filled { HasFilledAt turnstile.now result.0 }
    ensures written { OnOk result.1 (Q.kept keeper.old (writes_in (mine result.0))) }
    ensures opened { OnOk result.1 ((place : Q.Hand.Log) → Q.log keeper.new ≡ Some place → Q.opens keeper.old place) }
    ensures none { Q.may_fail keeper.old ≡ false → mine result.0 ≡ [] }
    ensures keeper { Q.may_fail keeper.new ≡ Q.may_fail keeper.old }
{
    let mut desk = Seated::unpaced(rt, turnstile, seat);
    let filled = keeper.fill(&mut desk, moment);
    let mut seat = desk.into_seat();
    turnstile.settle(&mut seat);
    (seat, filled)
}

/// Fills the store with what was kept, by a desk at a seat of its own, before anybody else uses it. The main
/// seat has met its entries then.
#[tactic(auto, using(crate::proofs::HallLemmas::fresh_split))]
fn fill<S, K, C, Q, R>(
    rt: &R,
    hall: &mut Hall<S, K, C, Q::Hand>,
    keeper: &mut Q,
    moment: Moment,
) -> Result<(), Unfilled>
where
    S: Source + Drop,
    K: Sink + Drop,
    C: Clock + Drop,
    Q: Keeper,
    R: Wait + rt::Clock,
    requires ready { IsReady hall.old }
    requires empty { met_in hall.old ≡ [] }
    requires alone { HasOut 0 hall.old.seat }
    ensures ready { IsReady hall.new }
    ensures filled { HasFilled hall.old hall.new }
    ensures written { OnOk result (Q.kept keeper.old (flat_map written_by (seen_in hall.new))) }
    ensures opened { OnOk result ((place : Q.Hand.Log) → Q.log keeper.new ≡ Some place → Q.opens keeper.old place) }
    ensures none { Q.may_fail keeper.old ≡ false → seen_in hall.new ≡ [] }
    ensures keeper { Q.may_fail keeper.new ≡ Q.may_fail keeper.old }
{
    let seat = hall.turnstile.split(&mut hall.seat);
    let (seat, filled) = fill_at(rt, &hall.turnstile, seat, keeper, moment);
    hall.turnstile.join(&mut hall.seat, seat);
    filled
}

/// Serves connections as they come, until as many came as are to come, or no further one does.
fn ring_all<P, C, G, Q, R, M>(
    rt: &R,
    alloc: Global,
    doors: &mut P,
    hall: &mut Hall<P::From, P::To, C, Q::Hand>,
    clock: &C,
    gate: &G,
    keeper: &mut Q,
    monitor: &M,
    matchers: &mut VecDeque<Matcher<C>>,
    trim: Trim,
    connections: u64,
) -> ServeEnd
where
    P: Doors,
    C: Clock + Clone + Send + Drop + 'static,
    G: Gate + Clone + Send + Drop + 'static,
    Q: Keeper,
    R: Threads + Wait + rt::Clock + Copy + Send + 'static,
    M: Monitor + Clone + Send + Drop + 'static,
    requires ready { IsReady hall.old }
    requires keeps { Q.may_fail keeper.old ≡ true → (setting_in hall.old).keeps ≡ true }
    requires room { HaveRoom (P.at doors.old) hall.old 0 }
    requires work { WorkIn C.tick trim (C.is_clone clock.now) hall.old matchers.old.items }
    ensures log { Q.log keeper.new ≡ Q.log keeper.old }
    ensures stays { Stays hall.old hall.new }
    ensures ready { IsReady hall.new }
    ensures room { HaveRoom (P.at doors.new) hall.new 0 }
    ensures out { KeepsOut hall.old hall.new }
    ensures count { length matchers.new.items ≡ length matchers.old.items }
    ensures work { WorkIn C.tick trim (C.is_clone clock.now) hall.new matchers.new.items }
    ensures ends { (base : List (ℕ × Entry)) (first : DoorsView P.From P.To) → Going P.From.at P.To.at P.To.ended C.tick (KeptBy Q.Hand.log Q.Hand.keeps) (C.is_clone clock.now) (IsAtLog Q.Hand.log (Q.log keeper.old)) base first (P.at doors.old) hall.old [] 0 0 → Ends P.From.at P.To.at P.To.ended C.tick (KeptBy Q.Hand.log Q.Hand.keeps) (C.is_clone clock.now) (IsAtLog Q.Hand.log (Q.log keeper.old)) base first (P.at doors.new) hall.new connections result }
{
    for given in 0..connections {
        let why = match ring(rt, alloc, doors, hall, clock, gate, keeper, given) {
            Round::Came => {
                step_all(rt, &hall.turnstile, trim, matchers, clock, monitor);
                continue;
            }
            Round::NoMemory => ServeWhy::Memory,
            Round::Closed => ServeWhy::Closed,
            Round::Fault => ServeWhy::DoorFault,
        };
        return ServeEnd {
            connections: given,
            why,
        };
    }
    ServeEnd {
        connections,
        why: ServeWhy::Limit,
    }
}

/// Starts the matchers, and then serves connections as they come.
fn serve_filled<P, C, G, Q, R, M>(
    rt: &R,
    alloc: Global,
    doors: &mut P,
    hall: &mut Hall<P::From, P::To, C, Q::Hand>,
    clock: &C,
    gate: &G,
    keeper: &mut Q,
    monitor: &M,
    matchers: &mut VecDeque<Matcher<C>>,
    crew: Crew,
    connections: u64,
) -> ServeEnd
where
    P: Doors,
    C: Clock + Clone + Send + Drop + 'static,
    G: Gate + Clone + Send + Drop + 'static,
    Q: Keeper,
    R: Threads + Wait + rt::Clock + Copy + Send + 'static,
    M: Monitor + Clone + Send + Drop + 'static,
    requires ready { IsReady hall.old }
    requires keeps { Q.may_fail keeper.old ≡ true → (setting_in hall.old).keeps ≡ true }
    requires empty { hall.old.running.items ≡ [] }
    requires none { matchers.old.items ≡ [] }
    requires capacity { crew.matchers ≤ deque_capacity matchers.old }
    requires some { 0 < connections }
    ensures log { Q.log keeper.new ≡ Q.log keeper.old }
    ensures setting { setting_in hall.new ≡ setting_in hall.old }
    ensures ready { IsReady hall.new }
    ensures room { HaveRoom (P.at doors.new) hall.new 0 }
    ensures out { HasOut 0 hall.old.seat → HasOut (length matchers.new.items + length hall.new.running.items) hall.new.seat }
    ensures work { WorkIn C.tick crew.trim (C.is_clone clock.now) hall.new matchers.new.items }
    ensures ends { (base : List (ℕ × Entry)) → met_in hall.old ≡ base → Distinct base → Ends P.From.at P.To.at P.To.ended C.tick (KeptBy Q.Hand.log Q.Hand.keeps) (C.is_clone clock.now) (IsAtLog Q.Hand.log (Q.log keeper.old)) base (P.at doors.old) (P.at doors.new) hall.new connections result }
{
    if start_matchers(rt, alloc, hall, matchers, clock, crew, monitor).is_err() {
        return no_memory();
    }
    ring_all(
        rt,
        alloc,
        doors,
        hall,
        clock,
        gate,
        keeper,
        monitor,
        matchers,
        crew.trim,
        connections,
    )
}

/// Fills the store, and then serves connections as they come.
fn serve_all<P, C, G, Q, R, M>(
    rt: &R,
    alloc: Global,
    doors: &mut P,
    hall: &mut Hall<P::From, P::To, C, Q::Hand>,
    clock: &C,
    gate: &G,
    keeper: &mut Q,
    monitor: &M,
    matchers: &mut VecDeque<Matcher<C>>,
    crew: Crew,
    connections: u64,
    moment: Moment,
) -> ServeEnd
where
    P: Doors,
    C: Clock + Clone + Send + Drop + 'static,
    G: Gate + Clone + Send + Drop + 'static,
    Q: Keeper,
    R: Threads + Wait + rt::Clock + Copy + Send + 'static,
    M: Monitor + Clone + Send + Drop + 'static,
    requires ready { IsReady hall.old }
    requires keeps { Q.may_fail keeper.old ≡ true → (setting_in hall.old).keeps ≡ true }
    requires empty { (hall.old.running.items ≡ []) × (met_in hall.old ≡ []) }
    requires alone { HasOut 0 hall.old.seat }
    requires none { matchers.old.items ≡ [] }
    requires capacity { crew.matchers ≤ deque_capacity matchers.old }
    requires some { 0 < connections }
    ensures setting { setting_in hall.new ≡ setting_in hall.old }
    ensures ready { IsReady hall.new }
    ensures room { HaveRoom (P.at doors.new) hall.new 0 }
    ensures out { HasOut (length matchers.new.items + length hall.new.running.items) hall.new.seat }
    ensures work { WorkIn C.tick crew.trim (C.is_clone clock.now) hall.new matchers.new.items }
    ensures opened { 0 < result.connections → (place : Q.Hand.Log) → Q.log keeper.new ≡ Some place → Q.opens keeper.old place }
    ensures ends { (first : List Entry) × AreFilled (Q.kept keeper.old) (Q.may_fail keeper.old) first result.connections × Ends P.From.at P.To.at P.To.ended C.tick (KeptBy Q.Hand.log Q.Hand.keeps) (C.is_clone clock.now) (IsAtLog Q.Hand.log (Q.log keeper.new)) (enumerate_from 0 first) (P.at doors.old) (P.at doors.new) hall.new connections result }
{
    match fill(rt, hall, keeper, moment) {
        Ok(()) => serve_filled(
            rt,
            alloc,
            doors,
            hall,
            clock,
            gate,
            keeper,
            monitor,
            matchers,
            crew,
            connections,
        ),
        Err(_) => unfilled(),
    }
}

/// Serves the connections that come through the doors, each at a hub of this configuration, in a thread
/// of its own. At most `places` connections are there at the same time; then one that ends is waited
/// for, whichever it is. At most `workers` of them have buffers at the same time, and none while it waits
/// for a request. Each is handed back once, in the order in which they end. All memory for a
/// connection is taken before the doors are asked for it. Where no thread can be made for one, it waits
/// until one can. Where none is to come, no memory is taken. The matchers of the crew match all commits and
/// drop old changes, as far as its trim says. Behind their steps the monitor hears the figures of the store,
/// where it asks for them, and once that no further connection is taken. Before all this the keeper fills the
/// store with what it kept, and each connection has a hand of it: no reply shows a commit that is not kept.
pub fn serve<P, C, G, Q, R, M>(
    rt: &R,
    alloc: Global,
    config: Config,
    doors: &mut P,
    clock: &C,
    gate: &G,
    keeper: &mut Q,
    monitor: &M,
    crew: Crew,
    connections: u64,
) -> ServeEnd
where
    P: Doors,
    C: Clock + Clone + Send + Drop + 'static,
    G: Gate + Clone + Send + Drop + 'static,
    Q: Keeper,
    R: Threads + Wait + rt::Clock + Copy + Send + 'static,
    M: Monitor + Clone + Send + Drop + 'static,
    requires places { 0 < crew.places }
    requires workers { 0 < crew.workers }
    requires keeps { Q.may_fail keeper.old ≡ true → config.keeps ≡ true }
    ensures { Serves P.From.at P.To.at P.To.ended C.tick (KeptBy Q.Hand.log Q.Hand.keeps) (C.is_clone clock.now) (IsOfKeeper Q.opens Q.Hand.log keeper.old) (Q.kept keeper.old) config crew.trim (P.at doors.old) (P.at doors.new) connections result }
{
    if connections == 0 {
        monitor.end();
        return ServeEnd {
            connections,
            why: ServeWhy::Limit,
        };
    }
    let Ok(mut matchers) = VecDeque::with_capacity(alloc, crew.matchers as usize) else {
        monitor.end();
        return no_memory();
    };
    let Ok(mut hall) = hall_of(alloc, config, crew) else {
        monitor.end();
        return no_memory();
    };
    let Ok(mut first_clock) = clock.clone() else {
        monitor.end();
        return no_memory();
    };
    let moment = first_clock.now();
    let end = serve_all(
        rt,
        alloc,
        doors,
        &mut hall,
        clock,
        gate,
        keeper,
        monitor,
        &mut matchers,
        crew,
        connections,
        moment,
    );
    monitor.end();
    drain(rt, doors, &mut hall);
    stop_matchers(rt, &mut hall, crew.trim, matchers, clock);
    end
}
