//! A desk at a seat of a turnstile, so that many desks use one hub by turns.
ghost use Rattle.std.specs.Prelude.{◌≡◌, length, IfSome};
ghost use Rattle.std.proofs.Props.{props};
ghost use Rattle.turnstile.specs.Seats.{IsSeatOf, IsIdle, seen, setting_of};
ghost use Rattle.hub_model.specs.Step.{state_of};
ghost use Rattle.hub_desk.specs.HubValue.{hub_setting};

use crate::hub_value::HubValue;
use q_base::Commit;
use std::sync::Wait;
use std::sync::atomic::AtomicU64;
use std::time::Duration;
use turnstile::{Seat, Turnstile};

mod calls;
mod ends;
mod gives;

/// How long a writer rests where the dropping of old changes is far behind, in milliseconds.
const REST: u64 = 1;

/// A seat that has no turn, with its turnstile. Each call that makes an entry takes the turn and gives
/// it back.
#[derive(Drop)]
pub struct Seated<'g, R: Wait> {
    rt: &'g R,
    turnstile: &'g Turnstile<HubValue>,
    seat: Seat<HubValue>,
    /// Whether the last write found that the dropping of old changes is far behind. No clause reads it.
    is_behind: bool,
    /// Whether a writer rests at all. No clause reads it.
    is_paced: bool,
    /// The number of commits that the seat has seen, once it had a turn.
    commits: Option<Commit>,
    ghost counted: { IfSome commits (λ n. n ≡ length (state_of (setting_of hub_setting turnstile.now) (seen seat)).journal) } by { Prim.hlevel props },
    ghost seated: { IsSeatOf hub_setting turnstile.now seat × IsIdle seat },
}

/// Rests for a while, so that others get a processor.
fn rest<R: Wait>(rt: &R) {
    AtomicU64::new(0).park_timeout(rt, 0, Duration::from_millis(REST));
}
