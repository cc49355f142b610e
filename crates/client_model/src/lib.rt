//! What a reader knows of a history by the replies and pages that it was given, and the law of fresh copies.
#![tactic(auto)]

pub mod laws;
mod reply;

pub use reply::{Reply, copy_of};
