//! The last documents of each collection, in buckets that snapshots share.
#![tactic(auto)]

mod bucket;
mod buckets;
mod collection;
mod hash;
mod past;
mod snapshot;

pub use buckets::Buckets;
pub use snapshot::Snapshot;
