//! What a history of the store is: its entries, what they come to, and the laws that hold of it.
#![tactic(auto)]

mod commits;
mod condition;
mod entry;
pub mod laws;
mod tags;

pub use commit_book::Change;
pub use commits::Commits;
pub use entry::{
    Answer, Condition, Dropped, Entry, Found, Matched, Outcome, PurgeReply, Stats, Tags, Written,
};
