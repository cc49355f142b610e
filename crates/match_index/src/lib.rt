//! The keys of queries, found by what a commit changed: those that it may concern.
#![tactic(auto)]

mod index;
mod keeping;
pub mod laws;
mod places;
mod probe;

pub use index::Index;
