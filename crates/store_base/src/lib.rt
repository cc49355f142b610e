//! The base in front of a log: what lives at a horizon, in place of the first commits.
#![tactic(auto)]

mod base;
mod fields;
mod head;
pub mod laws;
mod reader;
mod refusal;
mod rows;
mod window;

pub use base::{BaseHead, BaseRow, DatedChange, RecordName};
pub use reader::BaseReader;
pub use refusal::BaseRefusal;
