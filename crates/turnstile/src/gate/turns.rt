//! To take the turn and its value, and to give both back.
ghost use Rattle.std.specs.Prelude.{◌≡◌, ◌≤◌, ◌∷◌, ◌++◌, length, None};
ghost use mathlib.Core.List.{IsPrefix};
ghost use Rattle.atomic_table.specs.Table.{rest};
ghost use Rattle.turnstile.specs.declared.view.Phase.TheVariants.{Free, Known};
ghost use Rattle.turnstile.specs.Views.{in_phase, with_seen, with_entries};
ghost use Rattle.turnstile.specs.Rule.{Sound};
ghost use Rattle.turnstile.specs.Seats.{IsSeatOf, IsSame, HasValue, IsOut, seen, setting_of};
ghost use Rattle.turnstile.specs.Turns.{IsTurnOf, turn_seen};

use super::{Turn, Turnstile};
use crate::board::Seat;
use crate::stands::{Made, Stands};
use crossbeam_utils::Backoff;
use std::sync::Wait;

/// A turn starts only below this length, so that the length stays a `u64` where the turn appends two entries.
const MOST: u64 = u64::MAX - 1;

impl<T: Stands> Turnstile<T> {
    /// Waits for the turn: it spins a little, and then sleeps until a turn ends.
    pub fn take<'a, R: Wait>(&'a self, rt: &R, seat: &'a mut Seat<T>) -> Turn<'a, T>
        requires { IsSeatOf T.setting self.now seat.old }
        ensures borrows { result.seat.ghost_name ≡ seat.entry.ghost_name }
        ensures turn { IsTurnOf T.setting self.now result }
        ensures same { IsSame seat.old result.seat.now }
        ensures view { (result.seat.now.me.0 ≡ in_phase Known (with_seen (turn_seen result) seat.old.me.0)) × (rest result.seat.now.me.1 ≡ seat.old.me.1) }
        ensures more { IsPrefix (seen seat.old) (turn_seen result) }
        ensures value { HasValue T.setting T.stands result.seat.now }
    {
        let backoff = Backoff::new();
        let mut spun = 0;
        for _ in rt.forever() {
            if self.try_acquire(seat) {
                let count = self.observe(seat);
                if count < MOST {
                    return Turn {
                        seat,
                        turnstile: self,
                        count,
                    };
                }
                self.release(seat);
                self.wake();
            }
            spun = self.pause(rt, &backoff, spun);
        }
        unreachable!()
    }
}

impl<T: Stands> Turn<'_, T> {
    /// Takes the value, once in each turn.
    pub fn value(&mut self) -> T
        requires turn { IsTurnOf T.setting self.old.turnstile.now self.old }
        requires value { HasValue T.setting T.stands self.old.seat.now }
        ensures borrows { self.new.seat.ghost_name ≡ self.old.seat.ghost_name }
        ensures turn { IsTurnOf T.setting self.old.turnstile.now self.new }
        ensures same { IsSame self.old.seat.now self.new.seat.now }
        ensures view { self.new.seat.now.me ≡ (self.old.seat.now.me.0, (0, None) ∷ rest self.old.seat.now.me.1) }
        ensures out { IsOut self.new.seat.now }
        ensures stands { T.stands result (turn_seen self.new) × (T.setting result ≡ setting_of T.setting self.old.turnstile.now) }
    {
        self.turnstile.take_out(self.seat)
    }

    /// Gives a value back, and with it the turn. `M` names the entries that were made since `take`.
    pub fn give<M: Made<T::Entry>>(self, value: T)
        requires turn { IsTurnOf T.setting self.turnstile.now self }
        requires out { IsOut self.seat.now }
        requires few { length M.made ≤ 2 }
        requires stands { T.stands value (turn_seen self ++ M.made) }
        requires setting { T.setting value ≡ setting_of T.setting self.turnstile.now }
        ensures same { IsSame self.entry.seat.now self.exit.0.now }
        ensures view { self.exit.0.now.me ≡ (in_phase Free (with_entries M.made self.entry.seat.now.me.0), rest self.entry.seat.now.me.1) }
        ensures sound { Sound (seen self.exit.0.now) self.exit.0.now.me.0 }
    {
        let Turn {
            seat,
            turnstile,
            count,
        } = self;
        turnstile.append_any::<M>(seat, value.entries() - count);
        turnstile.put_in(seat, value);
        turnstile.release(seat);
        turnstile.wake();
    }
}
