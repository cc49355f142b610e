//! The atomic steps of a turn, each by one call.
ghost use Rattle.std.specs.Prelude.{◌≡◌, ◌+◌, ◌<◌, ◌^◌, ◌∷◌, ◌++◌, length, Some, None, MatchBool};
ghost use Rattle.atomic_table.specs.Table.{rest};
ghost use Rattle.turnstile.specs.declared.view.Phase.TheVariants.{Free, Known};
ghost use Rattle.turnstile.specs.Views.{in_phase, with_entries};
ghost use Rattle.turnstile.specs.Rule.{Sound};
ghost use Rattle.turnstile.specs.Plays.{HasAcquired, IsKnowing, observed};
ghost use Rattle.turnstile.specs.Seats.{IsSeatOf, IsSame, HasValue, IsOut, seen, setting_of};

use super::Turnstile;
use crate::board::Seat;
use crate::plays::{Acquire, Append, Observe, Release};
use crate::stands::{Made, Stands};

impl<T: Stands> Turnstile<T> {
    /// Takes the turn if nobody has it.
    pub(super) fn try_acquire(&self, seat: &mut Seat<T>) -> bool
        requires { IsSeatOf T.setting self.now seat.old }
        ensures same { IsSame seat.old seat.new }
        ensures acquired { MatchBool result (HasAcquired T.setting T.legal T.stands seat.old.me seat.new.me) (seat.new.me ≡ seat.old.me) }
    {
        self.board
            .shared
            .compare_exchange::<Acquire<T>>(seat, 0, 0, 1)
            == 0
    }

    /// Sees the history as it is, and returns its length.
    pub(super) fn observe(&self, seat: &mut Seat<T>) -> u64
        requires { IsSeatOf T.setting self.now seat.old }
        ensures same { IsSame seat.old seat.new }
        ensures observed { observed T.legal seat.old.me result seat.new.me }
    {
        self.board.shared.load::<Observe<T>>(seat, 1)
    }

    /// Takes the value out of the slot.
    pub(super) fn take_out(&self, seat: &mut Seat<T>) -> T
        requires own { IsSeatOf T.setting self.now seat.old }
        requires value { HasValue T.setting T.stands seat.old }
        ensures same { IsSame seat.old seat.new }
        ensures view { seat.new.me ≡ (seat.old.me.0, (0, None) ∷ rest seat.old.me.1) }
        ensures stands { T.stands result (seen seat.old) × (T.setting result ≡ setting_of T.setting self.now) }
    {
        self.board.shared.exchange(seat, 0, None).unwrap()
    }

    /// Appends the entries made to the history.
    fn append<M: Made<T::Entry>>(&self, seat: &mut Seat<T>, count: u64)
        requires own { IsSeatOf T.setting self.now seat.old }
        requires known { seat.old.me.0.phase ≡ Known }
        requires count { count ≡ length M.made }
        requires space { length (seen seat.old) + count < 2 ^ 64 }
        requires legal { T.legal (setting_of T.setting self.now) (seen seat.old ++ M.made) }
        ensures same { IsSame seat.old seat.new }
        ensures view { seat.new.me ≡ (with_entries M.made seat.old.me.0, seat.old.me.1) }
        ensures sound { Sound (seen seat.new) seat.new.me.0 }
    {
        self.board.shared.fetch_add::<Append<M>>(seat, 1, count);
    }

    /// The same, where none may have been made.
    pub(super) fn append_any<M: Made<T::Entry>>(&self, seat: &mut Seat<T>, count: u64)
        requires own { IsSeatOf T.setting self.now seat.old }
        requires known { seat.old.me.0.phase ≡ Known }
        requires sound { Sound (seen seat.old) seat.old.me.0 }
        requires count { count ≡ length M.made }
        requires space { length (seen seat.old) + count < 2 ^ 64 }
        requires legal { T.legal (setting_of T.setting self.now) (seen seat.old ++ M.made) }
        ensures same { IsSame seat.old seat.new }
        ensures view { in_phase Free seat.new.me.0 ≡ in_phase Free (with_entries M.made seat.old.me.0) }
        ensures carried { seat.new.me.1 ≡ seat.old.me.1 }
        ensures known { IsKnowing seat.new.me.0.phase }
        ensures sound { Sound (seen seat.new) seat.new.me.0 }
    {
        if count > 0 {
            self.append::<M>(seat, count);
        }
    }

    /// Puts a value into the slot.
    pub(super) fn put_in(&self, seat: &mut Seat<T>, value: T)
        requires own { IsSeatOf T.setting self.now seat.old }
        requires out { IsOut seat.old }
        ensures same { IsSame seat.old seat.new }
        ensures view { seat.new.me ≡ (seat.old.me.0, (0, Some value) ∷ rest seat.old.me.1) }
    {
        let empty = self.board.shared.exchange(seat, 0, Some(value));
        let None = empty else { unreachable!() };
    }

    /// Releases the turn, with the value in the slot.
    pub(super) fn release(&self, seat: &mut Seat<T>)
        requires own { IsSeatOf T.setting self.now seat.old }
        requires known { IsKnowing seat.old.me.0.phase }
        requires value { HasValue T.setting T.stands seat.old }
        ensures same { IsSame seat.old seat.new }
        ensures view { seat.new.me ≡ (in_phase Free seat.old.me.0, rest seat.old.me.1) }
    {
        self.board.shared.store::<Release>(seat, 0, 0);
    }
}
