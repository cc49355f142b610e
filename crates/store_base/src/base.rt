//! What a base is made of.

use commit_book::Change;
use q_base::{Commit, Name};

/// A record, by its names.
#[derive(Drop)]
pub struct RecordName {
    pub collection: Name,
    pub id: Name,
}

/// A change with the clock of its commit.
#[derive(Drop)]
pub struct DatedChange {
    /// In seconds since 1970.
    pub clock: u64,
    pub change: Change,
}

/// A document that lives at the horizon, with the commit that put it.
#[derive(Drop)]
pub struct BaseRow {
    pub commit: Commit,
    /// When the commit was made, in seconds since 1970.
    pub clock: u64,
    pub change: Change,
}

/// What stands before the rows of a base.
#[derive(Drop)]
pub struct BaseHead {
    /// The number of commits that the base stands for.
    pub horizon: Commit,
    /// When the commit of the horizon was made, in seconds since 1970; 0 where there is none.
    pub clock: u64,
    /// The kept moment of the store, in seconds since 1970.
    pub moment: u64,
    /// The record that the commit of the horizon deleted; none where it put a document.
    pub tail: Option<RecordName>,
}
