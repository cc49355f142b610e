//! The book of commits: every change in turn, found by its number and by its record.
#![tactic(auto)]

mod base;
mod book;
mod change;
mod documents;
mod dropping;
mod found;
mod index;
pub mod laws;
mod past;
mod refusal;
mod row;

pub use book::Book;
pub use change::{Change, CommitRow};
pub use refusal::BookRefusal;
