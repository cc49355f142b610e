//! One value that many threads use by turns, as one history of entries.
#![tactic(auto)]

mod board;
mod gate;
mod plays;
mod sleepers;
mod stands;
#[cfg(test)]
mod tests;
mod view;

pub use board::Seat;
pub use gate::{Turn, Turnstile};
pub use stands::{Made, Stands};
pub use view::{Phase, View};
