//! The keys that matches purged, numbered from 1 in the order of their purges, and the last change of
//! each key's result.
#![tactic(auto)]

mod last_changes;
mod order;
mod purges;

pub use last_changes::LastChanges;
pub use order::sort_by_text;
pub use purges::Purges;
