//! A log on a disk that many threads share: what comes together is stored by one sync.
#![tactic(auto)]

mod bells;
mod gives;
mod hand;
pub mod laws;
mod log_value;
mod lost;
mod mark;
mod noted;
mod shared;
mod steps;
mod storing;

pub use hand::LogHand;
pub use log_value::{LogValue, Unqueued, Work};
pub use lost::Lost;
pub use mark::{AtOpening, Mark};
pub use noted::Noted;
pub use shared::SharedLog;
