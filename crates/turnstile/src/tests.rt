//! A tally in place of a store. Its entries are the numbers that were added.
ghost use Rattle.std.specs.Prelude.{◌≡◌, ◌≢◌, ℕ, ◌<◌, ◌^◌, List, [], ◌∷◌, ◌++◌, length, Some, slice_get};
ghost use mathlib.Core.List.{IsPrefix};
ghost use Rattle.atomic_table.specs.Table.{rest};
ghost use Rattle.turnstile.specs.declared.tests.Tally.{Tally};
ghost use Rattle.turnstile.specs.declared.view.Phase.TheVariants.{Free};
ghost use Rattle.turnstile.specs.Views.{in_phase, with_entries};
ghost use Rattle.turnstile.specs.Seats.{IsSeatOf, IsSame, IsIdle, IsOut, seen, mine, met, setting_of};
ghost use Rattle.turnstile.specs.Turns.{IsTurnOf, turn_seen};

use crate::{Made, Seat, Stands, Turn, Turnstile};
use std::hint::spin_loop;
use std::marker::Brand;
use std::sync::Wait;
use std::test::*;
use std::thread::{Threads, join};

#[derive(Drop)]
struct Tally {
    name: u64,
    count: u64,
    total: u64,
}

impl Stands for Tally {
    type Entry = u64;

    type Setting = u64;

    ghost setting = { λ t. t.name };

    ghost legal = { λ name l. length l < 2 ^ 64 };

    ghost stands = { λ t l. (t.count ≡ length l) × (t.count < 2 ^ 64) };

    ghost use Rattle.std.proofs.Common.{subst};

    ghost is_legal = { λ x l s. subst (λ n. n < 2 ^ 64) s.0 s.1 };

    fn entries(&self) -> u64 {
        self.count
    }
}

impl Made<u64> for Brand {
    ghost made = { [] };
}

fn empty(name: u64) -> Tally
    ensures { result.count ≡ 0 }
{
    Tally {
        name,
        count: 0,
        total: 0,
    }
}

fn give_number<M: Made<u64>>(turn: Turn<'_, Tally>, tally: Tally, number: u64)
    requires turn { IsTurnOf (λ (t : Tally). t.name) turn.turnstile.now turn }
    requires out { IsOut turn.seat.now }
    requires made { M.made ≡ number ∷ [] }
    requires stands { (tally.count ≡ length (turn_seen turn ++ number ∷ [])) × (tally.count < 2 ^ 64) }
    requires setting { tally.name ≡ setting_of (λ (t : Tally). t.name) turn.turnstile.now }
    ensures same { IsSame turn.entry.seat.now turn.exit.0.now }
    ensures view { turn.exit.0.now.me ≡ (in_phase Free (with_entries (number ∷ []) turn.entry.seat.now.me.0), rest turn.entry.seat.now.me.1) }
{
    let _ = number;
    turn.give::<M>(tally);
}

// Adds the number, and returns the sum.
fn add<R: Wait>(rt: &R, gate: &Turnstile<Tally>, seat: &mut Seat<Tally>, number: u64) -> u64
    requires own { IsSeatOf (λ (t : Tally). t.name) gate.now seat.old }
    requires idle { IsIdle seat.old }
    ensures same { IsSame seat.old seat.new }
    ensures idle { IsIdle seat.new }
    ensures added { (before : List ℕ) × IsPrefix (seen seat.old) before × (seen seat.new ≡ before ++ number ∷ []) × (mine seat.new ≡ mine seat.old ++ (length before, number) ∷ []) × (met seat.new ≡ met seat.old) }
{
    let mut turn = gate.take(rt, seat);
    let mut tally = turn.value();
    tally.count += 1;
    tally.total = tally.total.wrapping_add(number);
    linger();
    let total = tally.total;
    give_number::<Brand>(turn, tally, number);
    total
}

#[test]
fn a_seat_sees_what_another_wrote(rt: HostRuntime) -> Result<(), Fail> {
    let (gate, mut first) = Turnstile::open(rt.alloc(), empty(1))?;
    let mut second = gate.split(&mut first);
    assert_eq!(rt; add(&rt, &gate, &mut first, 7), 7);
    assert_eq!(rt; add(&rt, &gate, &mut second, 5), 12);
    gate.join(&mut first, second);
    let tally = gate.close(first).ok_or("the turn is free")?;
    assert_eq!(rt; (tally.total, tally.count), (12, 2));
    Ok(())
}

// Takes the turn, and lets it go without a value given back.
fn forget_turn<R: Wait>(rt: &R, gate: &Turnstile<Tally>, seat: &mut Seat<Tally>)
    requires { IsSeatOf (λ (t : Tally). t.name) gate.now seat.old }
    ensures { IsSame seat.old seat.new }
{
    let _turn = gate.take(rt, seat);
}

#[test]
fn a_forgotten_turn_shows_at_the_end(rt: HostRuntime) -> Result<(), Fail> {
    let (gate, mut seat) = Turnstile::open(rt.alloc(), empty(1))?;
    forget_turn(&rt, &gate, &mut seat);
    assert!(rt; gate.close(seat).is_none());
    Ok(())
}

// Adds the number at a seat of its own.
fn added<R: Wait>(rt: &R, gate: &Turnstile<Tally>, seat: Seat<Tally>, number: u64) -> Seat<Tally>
    requires own { IsSeatOf (λ (t : Tally). t.name) gate.now seat }
    requires idle { IsIdle seat }
    ensures own { IsSeatOf (λ (t : Tally). t.name) gate.now result }
    ensures idle { IsIdle result }
{
    let mut seat = seat;
    add(rt, gate, &mut seat, number);
    seat
}

// Two threads add a number each, at seats that are then joined to the first one.
fn add_both<R: Threads + Wait + Sync>(
    rt: &R,
    gate: &Turnstile<Tally>,
    seat: &mut Seat<Tally>,
    one: u64,
    other: u64,
)
    requires own { IsSeatOf (λ (t : Tally). t.name) gate.now seat.old }
    requires idle { IsIdle seat.old }
    ensures same { IsSame seat.old seat.new }
    ensures idle { IsIdle seat.new }
{
    let first = gate.split(seat);
    let second = gate.split(seat);
    let (first, second) = join(
        rt,
        move ||
            requires { IsSeatOf (λ (t : Tally). t.name) gate.now first × IsIdle first }
        { added(rt, gate, first, one) },
        move ||
            requires { IsSeatOf (λ (t : Tally). t.name) gate.now second × IsIdle second }
        { added(rt, gate, second, other) },
    );
    gate.join(seat, first);
    gate.join(seat, second);
}

#[test]
fn two_threads_add_to_one_history(rt: HostRuntime) -> Result<(), Fail> {
    let (gate, mut seat) = Turnstile::open(rt.alloc(), empty(1))?;
    add_both(&rt, &gate, &mut seat, 7, 5);
    let tally = gate.close(seat).ok_or("the turn is free")?;
    assert_eq!(rt; (tally.total, tally.count), (12, 2));
    Ok(())
}

// A turn lasts for some microseconds, so that others sleep meanwhile.
fn linger() {
    for _ in 0..200 {
        spin_loop();
    }
}

// Adds 1 so many times at a seat of its own.
fn add_often<R: Wait>(rt: &R, gate: &Turnstile<Tally>, seat: Seat<Tally>, times: u32) -> Seat<Tally>
    requires own { IsSeatOf (λ (t : Tally). t.name) gate.now seat }
    requires idle { IsIdle seat }
    ensures own { IsSeatOf (λ (t : Tally). t.name) gate.now result }
    ensures idle { IsIdle result }
{
    let mut seat = seat;
    for _ in 0..times {
        add(rt, gate, &mut seat, 1);
    }
    seat
}

// The same in two threads, each as often.
fn add_often_in_two<R: Threads + Wait + Sync>(
    rt: &R,
    gate: &Turnstile<Tally>,
    seat: Seat<Tally>,
    times: u32,
) -> Seat<Tally>
    requires own { IsSeatOf (λ (t : Tally). t.name) gate.now seat }
    requires idle { IsIdle seat }
    ensures own { IsSeatOf (λ (t : Tally). t.name) gate.now result }
    ensures idle { IsIdle result }
{
    let mut seat = seat;
    let other = gate.split(&mut seat);
    let (one, other) = join(
        rt,
        move ||
            requires { IsSeatOf (λ (t : Tally). t.name) gate.now seat × IsIdle seat }
        { add_often(rt, gate, seat, times) },
        move ||
            requires { IsSeatOf (λ (t : Tally). t.name) gate.now other × IsIdle other }
        { add_often(rt, gate, other, times) },
    );
    let mut one = one;
    gate.join(&mut one, other);
    one
}

// The same in four threads.
fn add_often_in_four<R: Threads + Wait + Sync>(
    rt: &R,
    gate: &Turnstile<Tally>,
    seat: Seat<Tally>,
    times: u32,
) -> Seat<Tally>
    requires own { IsSeatOf (λ (t : Tally). t.name) gate.now seat }
    requires idle { IsIdle seat }
    ensures own { IsSeatOf (λ (t : Tally). t.name) gate.now result }
    ensures idle { IsIdle result }
{
    let mut seat = seat;
    let other = gate.split(&mut seat);
    let (one, other) = join(
        rt,
        move ||
            requires { IsSeatOf (λ (t : Tally). t.name) gate.now seat × IsIdle seat }
        { add_often_in_two(rt, gate, seat, times) },
        move ||
            requires { IsSeatOf (λ (t : Tally). t.name) gate.now other × IsIdle other }
        { add_often_in_two(rt, gate, other, times) },
    );
    let mut one = one;
    gate.join(&mut one, other);
    one
}

// Where no wake follows a turn, some thread sleeps for ever, and the test does not end.
#[test]
fn each_sleeper_is_woken(rt: HostRuntime) -> Result<(), Fail> {
    let (gate, seat) = Turnstile::open(rt.alloc(), empty(1))?;
    let seat = add_often_in_four(&rt, &gate, seat, 2000);
    let tally = gate.close(seat).ok_or("the turn is free")?;
    assert_eq!(rt; (tally.total, tally.count), (8000, 8000));
    Ok(())
}
