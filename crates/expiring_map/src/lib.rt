//! A map whose keys expire, each at its own second.
#![tactic(auto)]

mod held;
pub mod key_sets;
mod map;
mod queue;
mod reserved;
mod timed;

pub use map::ExpiringMap;
pub use timed::Timed;
