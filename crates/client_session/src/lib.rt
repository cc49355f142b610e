//! Reads through caches that are never older than a session allows, over any link to a server.
#![tactic(auto)]

mod ask;
mod last;
mod link;
mod list_link;
mod noted;
mod read_out;
mod reading;
mod refusal;
mod session;

pub use ask::{ClientAsk, LinkRefusal};
pub use last::{Kept, LastPage, LastReplies};
pub use link::Link;
pub use list_link::{LinkAnswer, ListLink};
pub use read_out::{Body, ReadOut, Refreshed, Way};
pub use reading::{Position, read_by};
pub use refusal::SessionRefusal;
pub use session::Session;
