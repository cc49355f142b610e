//! More seats out of one, and two made one.
ghost use Rattle.std.specs.Prelude.{◌≡◌, ℕ, ◌+◌, []};
ghost use mathlib.Core.List.{IsPrefix};
ghost use Rattle.turnstile.specs.Views.{with_seen, after_join, after_split, split_view};
ghost use Rattle.turnstile.specs.Rule.{Sound, IsWhole};
ghost use Rattle.turnstile.specs.Seats.{IsSeatOf, IsSame, IsIdle, IsAlone, HasOut, IsPart, seen, setting_of};

use super::Turnstile;
use crate::board::Seat;
use crate::plays::{JoinIn, SplitOff};
use crate::stands::Stands;

impl<T: Stands> Turnstile<T> {
    /// A further seat, which has seen what this one has, and has made no entry.
    pub fn split(&self, seat: &mut Seat<T>) -> Seat<T>
        requires { IsSeatOf T.setting self.now seat.old }
        ensures same { IsSame seat.old seat.new }
        ensures view { seat.new.me ≡ (after_split seat.old.me.0, seat.old.me.1) }
        ensures own { IsSeatOf T.setting self.now result }
        ensures new { result.me ≡ (split_view seat.old.me.0, []) }
        ensures out { (n : ℕ) → HasOut n seat.old → HasOut (n + 1) seat.new × IsPart result }
    {
        self.board.shared.split_seat::<SplitOff>(seat)
    }

    /// The first seat takes in what the other knows, and sees the history as it is.
    pub fn join(&self, into: &mut Seat<T>, other: Seat<T>)
        requires own { IsSeatOf T.setting self.now into.old × IsSeatOf T.setting self.now other }
        requires idle { IsIdle into.old × IsIdle other }
        ensures same { IsSame into.old into.new }
        ensures view { into.new.me ≡ (with_seen (seen into.new) (after_join into.old.me.0 other.me.0), into.old.me.1) }
        ensures this { IsPrefix (seen into.old) (seen into.new) }
        ensures that { IsPrefix (seen other) (seen into.new) }
        ensures legal { T.legal (setting_of T.setting self.now) (seen into.new) }
        ensures sound { Sound (seen into.new) into.new.me.0 }
        ensures whole { IsAlone into.new → IsWhole (seen into.new) into.new.me.0 }
        ensures out { (n : ℕ) → HasOut (n + 1) into.old → IsPart other → HasOut n into.new }
        ensures alone { HasOut 0 into.new → IsAlone into.new }
    {
        self.board.shared.join_seat::<JoinIn>(into, other);
        self.observe(into);
    }

    /// The seat sees the history as it is. Where no other seat is left, that has no entries but the
    /// seat's own and those that it met.
    pub fn settle(&self, seat: &mut Seat<T>)
        requires own { IsSeatOf T.setting self.now seat.old }
        requires idle { IsIdle seat.old }
        ensures same { IsSame seat.old seat.new }
        ensures view { seat.new.me ≡ (with_seen (seen seat.new) seat.old.me.0, seat.old.me.1) }
        ensures more { IsPrefix (seen seat.old) (seen seat.new) }
        ensures legal { T.legal (setting_of T.setting self.now) (seen seat.new) }
        ensures sound { Sound (seen seat.new) seat.new.me.0 }
        ensures whole { IsAlone seat.new → IsWhole (seen seat.new) seat.new.me.0 }
        ensures alone { HasOut 0 seat.new → IsAlone seat.new }
    {
        self.observe(seat);
    }
}
