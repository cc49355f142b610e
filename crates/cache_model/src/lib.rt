//! A shared cache of replies to reads, as a list of the keys and their replies.
#![tactic(auto)]

mod cache;
mod lookup;
mod manner;

pub use cache::Cache;
pub use lookup::{Answer, Lookup};
pub use manner::Manner;
