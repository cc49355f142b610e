//! The results of queries: their texts, and whether two are equal.
#![tactic(auto)]

mod append;
pub mod laws;
mod rows;
mod same;
mod texts;

pub use rows::{PrintedRow, ids_of, printed_rows};
pub use same::same_result;
pub use texts::{ResultText, Shown, result_text};
