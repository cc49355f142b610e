//! The start and the end of a turnstile.
ghost use Rattle.std.specs.Prelude.{◌≡◌, [], IfOk};
ghost use Rattle.turnstile.specs.Views.{opening_view};
ghost use Rattle.turnstile.specs.Seats.{IsSeatOf, HasOut, setting_of};
ghost use Rattle.turnstile.specs.Closing.{Closes};

use super::Turnstile;
use crate::board::Seat;
use crate::sleepers::Sleepers;
use crate::stands::Stands;
use atomic_table::{Refused, Table};
use q_base::Memory;
use std::alloc::Global;
use std::snapshot::Snapshot;

impl<T: Stands + Drop> Turnstile<T> {
    /// A turnstile of the value, whose history is empty, and its first seat.
    pub fn open(alloc: Global, value: T) -> Result<(Turnstile<T>, Seat<T>), Memory>
        requires { T.stands value [] }
        ensures seat { IfOk result (λ r. IsSeatOf T.setting r.0 r.1 × (r.1.me ≡ (opening_view (T.setting value), []))) }
        ensures out { IfOk result (λ r. HasOut 0 r.1) }
        ensures setting { IfOk result (λ r. setting_of T.setting r.0 ≡ T.setting value) }
    {
        let about = Snapshot::of(&value);
        let mut slots = Vec::with_capacity(alloc, 1)?;
        slots.push_reserved(Some(value));
        match Table::new(alloc, &[0, 0], slots, &about) {
            Ok((board, seat)) => {
                let sleepers = Sleepers::new();
                Ok((Turnstile { board, sleepers }, seat))
            }
            Err(Refused { slots: _ }) => Err(Memory),
        }
    }

    /// The value, unless a turn was taken and never given back.
    pub fn close(self, seat: Seat<T>) -> Option<T>
        requires { IsSeatOf T.setting self seat }
        ensures { Closes T.setting T.legal T.stands (setting_of T.setting self) seat.id seat.me.0 result }
    {
        let Turnstile { board, sleepers: _ } = self;
        let mut closed = board.close_with(seat);
        let word = closed.word(0);
        let slot = closed.take(0);
        closed.free();
        if word == 0 { slot } else { None }
    }
}
