//! How far something has come.

use q_base::Commit;

/// How far something has come.
#[derive(Clone, Copy, Debug, PartialEq, Eq)]
pub struct Mark {
    /// How many records of those that were queued.
    pub frames: u64,
    /// How many commits, with those that the log had when it was opened.
    pub commits: Commit,
    /// The moment that is kept, in seconds since 1970.
    pub moment: u64,
}

/// What a log had when it was opened, beside what it shows.
#[derive(Clone, Copy, Debug, PartialEq, Eq)]
pub struct AtOpening {
    /// The number of its commits.
    pub commits: Commit,
    /// The last moment that it kept, in seconds since 1970, and 0 where there was none.
    pub moment: u64,
}
