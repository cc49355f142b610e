//! The error where records cannot be stored.

/// What was queued cannot be stored: the disk failed, or a commit found no memory for its record. No later
/// call does better.
#[derive(Clone, Copy, Debug, PartialEq, Eq)]
pub struct Lost;
