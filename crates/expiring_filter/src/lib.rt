//! A counting Bloom filter of the keys of outdated copies, which expire.
#![tactic(auto)]

mod counters;
mod filter;
pub mod laws;

pub use filter::CountingFilter;
