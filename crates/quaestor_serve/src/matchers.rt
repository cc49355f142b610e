//! The matchers of a server.
ghost use Rattle.std.specs.Prelude.{◌≡◌, ℕ, ◌+◌, ◌≤◌, [], length};
ghost use Rattle.std.specs.Arc.{arc_value};
ghost use Rattle.std.specs.VecDeque.{deque_capacity};
ghost use Rattle.hub_desk.specs.HubValue.{hub_setting};
ghost use Rattle.quaestor_serve.specs.Halls.{IsReady, IsWholeIn};
ghost use Rattle.quaestor_serve.specs.Kept.{IsFreshAt};
ghost use Rattle.turnstile.specs.Places.{AllOf};
ghost use Rattle.turnstile.specs.Seats.{IsSeatOf, IsIdle, HasOut};
ghost use Rattle.quaestor_serve.specs.Matchers.{HasRested, WorksAt, WorkIn, IsAsBefore, Gathers};

use crate::crew::Crew;
use crate::hall::Hall;
use crate::matcher::{Matcher, Place, Rested};
use crate::matching::{LastDrop, match_and_tell, work_until_stopped};
use crate::monitor::Monitor;
use crate::stop::Stop;
use hub_desk::{HubValue, Seat, Seated, Trim, Turnstile};
use kept_desk::Keeping;
use q_base::Memory;
use q_outside::{Clock, Sink, Source};
use std::alloc::Global;
use std::collections::VecDeque;
use std::snapshot::Snapshot;
use std::sync::{Arc, Wait};
use std::thread::Threads;
use std::{rt, thread};

/// Matches and drops in a thread until the flag is set.
fn match_there<R: Wait + rt::Clock + Copy, C: Clock, M: Monitor + Drop>(
    rt: R,
    turnstile: Arc<Turnstile<HubValue>, Global>,
    seat: Seat<HubValue>,
    mut clock: C,
    trim: Trim,
    stop: Arc<Stop, Global>,
    monitor: M,
) -> Rested<C>
    requires { IsFreshAt (arc_value turnstile) seat }
    ensures { HasRested C.tick trim (arc_value turnstile) clock result }
{
    let mut desk = Seated::new(&rt, &turnstile, seat);
    work_until_stopped(&rt, &mut desk, &mut clock, trim, &stop, &monitor);
    Rested {
        seat: desk.into_seat(),
        clock,
    }
}

/// Begins to match in a thread. Where no thread can be made the matcher rests with the caller.
#[tactic(auto, using(crate::proofs::RestLemmas::works_here))]
fn begin_matcher<C, R, M>(
    rt: &R,
    turnstile: Arc<Turnstile<HubValue>, Global>,
    seat: Seat<HubValue>,
    clock: C,
    trim: Trim,
    stop: Arc<Stop, Global>,
    flag: Arc<Stop, Global>,
    monitor: M,
) -> Matcher<C>
where
    C: Clock + Send + Drop + 'static,
    R: Threads + Wait + rt::Clock + Copy + Send + 'static,
    M: Monitor + Send + Drop + 'static,
    requires { IsFreshAt (arc_value turnstile) seat }
    ensures { WorksAt C.tick trim (λ c. c ≡ clock) (arc_value turnstile) result }
{
    let handle = *rt;
    let place = Place {
        turnstile: Snapshot::of(&*turnstile),
        clock: Snapshot::of(&clock),
        trim: Snapshot::of(&trim),
    };
    let spawned = thread::spawn_with(rt, place, move || {
        match_there(handle, turnstile, seat, clock, trim, stop, monitor)
    });
    match spawned {
        Ok(handle) => Matcher::Thread { handle, stop: flag },
        Err(refused) => {
            // The call returns at once, with nothing matched.
            flag.set();
            Matcher::Here((refused.value)())
        }
    }
}

/// Starts the matchers of a crew. Where memory runs out, those that were started go on.
pub(crate) fn start_matchers<S, K, C, H, R, M>(
    rt: &R,
    alloc: Global,
    hall: &mut Hall<S, K, C, H>,
    matchers: &mut VecDeque<Matcher<C>>,
    clock: &C,
    crew: Crew,
    monitor: &M,
) -> Result<(), Memory>
where
    S: Source + Drop,
    K: Sink + Drop,
    C: Clock + Clone + Send + Drop + 'static,
    H: Keeping + Drop,
    R: Threads + Wait + rt::Clock + Copy + Send + 'static,
    M: Monitor + Clone + Send + Drop + 'static,
    requires ready { IsReady hall.old }
    requires none { matchers.old.items ≡ [] }
    requires capacity { crew.matchers ≤ deque_capacity matchers.old }
    ensures ready { IsReady hall.new }
    ensures same { IsAsBefore hall.old hall.new }
    ensures out { (others : ℕ) → HasOut others hall.old.seat → HasOut (others + length matchers.new.items) hall.new.seat }
    ensures work { WorkIn C.tick crew.trim (C.is_clone clock.now) hall.new matchers.new.items }
{
    for _n in 0..crew.matchers {
        let clock = clock.clone()?;
        let monitor = monitor.clone()?;
        let turnstile = Arc::try_clone(&hall.turnstile)?;
        let stop = Arc::new(alloc, Stop::new())?;
        let flag = Arc::try_clone(&stop)?;
        let seat = hall.turnstile.split(&mut hall.seat);
        let matcher = begin_matcher(rt, turnstile, seat, clock, crew.trim, stop, flag, monitor);
        matchers.push_back_reserved(matcher);
    }
    Ok(())
}

/// Matches and drops once, and rests again.
fn match_here<C: Clock, R: Wait + rt::Clock, M: Monitor>(
    rt: &R,
    turnstile: &Turnstile<HubValue>,
    trim: Trim,
    rested: Rested<C>,
    monitor: &M,
) -> Rested<C>
    requires { IsSeatOf hub_setting turnstile.now rested.seat × IsIdle rested.seat }
    ensures { (begun : C) → HasRested C.tick trim turnstile.now begun rested → HasRested C.tick trim turnstile.now begun result }
{
    let Rested { seat, mut clock } = rested;
    let mut desk = Seated::new(rt, turnstile, seat);
    match_and_tell(&mut desk, &mut clock, trim, LastDrop::none(), monitor);
    Rested {
        seat: desk.into_seat(),
        clock,
    }
}

/// Matches and drops once, where the matcher has no thread. Of the clock that was given, of which each
/// matcher has a clone, only the contract speaks.
#[tactic(auto, using(crate::proofs::RestLemmas::works_on))]
fn step<C: Clock + Clone + Drop, R: Wait + rt::Clock, M: Monitor>(
    rt: &R,
    turnstile: &Turnstile<HubValue>,
    trim: Trim,
    matcher: Matcher<C>,
    _given: &C,
    monitor: &M,
) -> Matcher<C>
    requires { WorksAt C.tick trim (C.is_clone _given.now) turnstile.now matcher }
    ensures { WorksAt C.tick trim (C.is_clone _given.now) turnstile.now result }
{
    match matcher {
        Matcher::Thread { handle, stop } => Matcher::Thread { handle, stop },
        Matcher::Here(rested) => Matcher::Here(match_here(rt, turnstile, trim, rested, monitor)),
    }
}

/// Lets each matcher that has no thread match and drop once.
pub(crate) fn step_all<C: Clock + Clone + Drop, R: Wait + rt::Clock, M: Monitor>(
    rt: &R,
    turnstile: &Turnstile<HubValue>,
    trim: Trim,
    matchers: &mut VecDeque<Matcher<C>>,
    given: &C,
    monitor: &M,
)
    requires { AllOf (λ m. WorksAt C.tick trim (C.is_clone given.now) turnstile.now m) matchers.old.items }
    ensures work { AllOf (λ m. WorksAt C.tick trim (C.is_clone given.now) turnstile.now m) matchers.new.items }
    ensures count { length matchers.new.items ≡ length matchers.old.items }
{
    for _n in 0..matchers.len() {
        let Some(matcher) = matchers.pop_front() else {
            return;
        };
        let matcher = step(rt, turnstile, trim, matcher, given, monitor);
        matchers.push_back_reserved(matcher);
    }
}

/// Waits for the end of a matcher.
fn finish_matcher<C: Clock + Clone + Drop, R: Threads>(
    rt: &R,
    turnstile: &Turnstile<HubValue>,
    _trim: Trim,
    matcher: Matcher<C>,
    _given: &C,
) -> Rested<C>
    requires { WorksAt C.tick _trim (C.is_clone _given.now) turnstile.now matcher }
    ensures { (clock : C) × C.is_clone _given.now clock × HasRested C.tick _trim turnstile.now clock result }
{
    match matcher {
        Matcher::Thread { handle, stop: _ } => handle.join(rt),
        Matcher::Here(rested) => rested,
    }
}

/// Waits for the end of a matcher, and joins its seat to the main one.
fn end_matcher<S, K, C, H, R>(
    rt: &R,
    hall: &mut Hall<S, K, C, H>,
    trim: Trim,
    matcher: Matcher<C>,
    given: &C,
)
where
    S: Source + Drop,
    K: Sink + Drop,
    C: Clock + Clone + Drop,
    H: Keeping + Drop,
    R: Threads,
    requires ready { IsReady hall.old }
    requires work { WorksAt C.tick trim (C.is_clone given.now) (arc_value hall.old.turnstile) matcher }
    ensures ready { IsReady hall.new }
    ensures gathers { Gathers C.tick trim (C.is_clone given.now) hall.old hall.new }
    ensures out { (others : ℕ) → HasOut (others + 1) hall.old.seat → HasOut others hall.new.seat }
{
    let Rested { seat, clock: _ } = finish_matcher(rt, &hall.turnstile, trim, matcher, given);
    hall.turnstile.join(&mut hall.seat, seat);
}

/// Waits for the end of each matcher, and joins all their seats to the main one.
fn join_matchers<S, K, C, H, R>(
    rt: &R,
    hall: &mut Hall<S, K, C, H>,
    trim: Trim,
    mut matchers: VecDeque<Matcher<C>>,
    given: &C,
)
where
    S: Source + Drop,
    K: Sink + Drop,
    C: Clock + Clone + Drop,
    H: Keeping + Drop,
    R: Threads,
    requires ready { IsReady hall.old }
    requires work { WorkIn C.tick trim (C.is_clone given.now) hall.old matchers.items }
    ensures ready { IsReady hall.new }
    ensures gathers { Gathers C.tick trim (C.is_clone given.now) hall.old hall.new }
    ensures out { (others : ℕ) → HasOut (others + length matchers.items) hall.old.seat → HasOut others hall.new.seat }
{
    for _n in 0..matchers.len() {
        let Some(matcher) = matchers.pop_front() else {
            return;
        };
        end_matcher(rt, hall, trim, matcher, given);
    }
}

/// Stops all matchers, and looks at the history as they left it. Where no connection is served any
/// more, the main seat has met all its entries then.
pub(crate) fn stop_matchers<S, K, C, H, R>(
    rt: &R,
    hall: &mut Hall<S, K, C, H>,
    trim: Trim,
    matchers: VecDeque<Matcher<C>>,
    given: &C,
)
where
    S: Source + Drop,
    K: Sink + Drop,
    C: Clock + Clone + Drop,
    H: Keeping + Drop,
    R: Threads,
    requires ready { IsReady hall.old }
    requires work { WorkIn C.tick trim (C.is_clone given.now) hall.old matchers.items }
    ensures ready { IsReady hall.new }
    ensures gathers { Gathers C.tick trim (C.is_clone given.now) hall.old hall.new }
    ensures whole { HasOut (length matchers.items) hall.old.seat → IsWholeIn hall.new }
{
    for matcher in matchers.iter() {
        if let Matcher::Thread { handle: _, stop } = matcher {
            stop.set();
        }
    }
    join_matchers(rt, hall, trim, matchers, given);
    hall.turnstile.settle(&mut hall.seat);
}
