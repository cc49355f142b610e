//! Queries: filters and their meaning, orders of rows, windows, and the printed text of a query.
#![tactic(auto)]

mod clones;
mod compare;
mod equality;
mod filter;
pub mod laws;
mod meaning;
mod operator;
mod print;
mod query;
mod rows;
mod windows;
mod words;

pub use compare::compare_rows;
pub use filter::{Filter, Form};
pub use meaning::satisfies;
pub use operator::Op;
pub use print::{print_filter, print_order, print_query};
pub use query::{Kind, Order, Query, Verdict};
pub use rows::{Docs, Row, Rows};
pub use windows::window;
