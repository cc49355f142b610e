//! The rows of a query's result, kept up to date commit by commit.
#![tactic(auto)]

mod edits;
pub mod laws;
mod searches;
mod set;
mod steps;
mod tell;
mod undo;

pub use set::MatchSet;
pub use steps::{MatchStep, Notice};
pub use undo::Undo;
