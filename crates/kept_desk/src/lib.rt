//! Desks whose commits are kept before a reply shows them, over any desk and any log.
#![tactic(auto)]

mod filling;
mod keeper;
mod keeping;
mod kept_desk;
mod log_keeper;
mod log_keeping;
mod looking;
mod main_log;
mod optional;
mod unfilled;

pub use keeper::{Keeper, NoKeeper};
pub use keeping::{Keeping, NoKeeping};
pub use kept_desk::KeptDesk;
pub use log_keeper::{LogKeeper, Notes};
pub use log_keeping::LogKeeping;
pub use unfilled::Unfilled;
