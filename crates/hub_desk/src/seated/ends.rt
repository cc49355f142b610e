//! From a seat to a desk, and back.
ghost use Rattle.std.specs.Prelude.{◌≡◌};
ghost use Rattle.turnstile.specs.Seats.{IsSeatOf, IsIdle};
ghost use Rattle.hub_desk.specs.HubValue.{hub_setting};
ghost use Rattle.hub_desk.specs.Seated.{turnstile_of, seat_of};

use super::Seated;
use crate::hub_value::HubValue;
use std::sync::Wait;
use turnstile::{Seat, Turnstile};

impl<'g, R: Wait> Seated<'g, R> {
    /// The desk at a seat.
    pub fn new(rt: &'g R, turnstile: &'g Turnstile<HubValue>, seat: Seat<HubValue>) -> Seated<'g, R>
        requires own { IsSeatOf hub_setting turnstile.now seat }
        requires idle { IsIdle seat }
        ensures turnstile { turnstile_of result ≡ turnstile.now }
        ensures seat { seat_of result ≡ seat }
    {
        Seated {
            rt,
            turnstile,
            seat,
            is_behind: false,
            is_paced: true,
            commits: None,
        }
    }

    /// The same, but its writers never rest: before others use the hub nobody drops old changes for whom
    /// they could wait.
    pub fn unpaced(
        rt: &'g R,
        turnstile: &'g Turnstile<HubValue>,
        seat: Seat<HubValue>,
    ) -> Seated<'g, R>
        requires own { IsSeatOf hub_setting turnstile.now seat }
        requires idle { IsIdle seat }
        ensures turnstile { turnstile_of result ≡ turnstile.now }
        ensures seat { seat_of result ≡ seat }
    {
        Seated {
            rt,
            turnstile,
            seat,
            is_behind: false,
            is_paced: false,
            commits: None,
        }
    }

    /// The seat, which may take the turn again, be joined to another, or close the turnstile.
    pub fn into_seat(self) -> Seat<HubValue>
        ensures seat { result ≡ seat_of self.entry }
        ensures own { IsSeatOf hub_setting (turnstile_of self.entry) result }
        ensures idle { IsIdle result }
    {
        let Seated {
            rt: _,
            turnstile: _,
            seat,
            is_behind: _,
            is_paced: _,
            commits: _,
        } = self;
        seat
    }
}
