//! The turnstile, and a turn at it.
ghost use Rattle.std.specs.Prelude.{◌≡◌};

use crate::board::{Board, Seat};
use crate::sleepers::Sleepers;
use crate::stands::Stands;

mod ends;
mod seats;
mod steps;
mod turns;
mod waits;

/// Keeps a value that one seat at a time takes out, and the length of the history that the value stands for.
/// No entry is kept.
#[derive(Drop)]
pub struct Turnstile<T: Stands> {
    board: Board<T>,
    sleepers: Sleepers,
    ghost sized: { (board.shared.table_id.words ≡ 2) × (board.shared.table_id.slots ≡ 1) },
}

/// The turn of a seat, which ends by `give`. One that is dropped before is never given back.
#[derive(Drop)]
pub struct Turn<'a, T: Stands> {
    seat: &'a mut Seat<T>,
    turnstile: &'a Turnstile<T>,
    count: u64,
}
