//! What a read gives.
use client_core::Why;
use q_base::{Commit, SharedText};

/// What a key has.
#[derive(Debug, Drop)]
pub enum Body {
    /// A record's document, and the commit that put it.
    Document { version: Commit, text: SharedText },
    /// The result of a query.
    List { text: SharedText },
    /// No document.
    Absent,
}

/// Which way a read went.
#[derive(Clone, Copy, Debug, PartialEq, Eq)]
pub enum Way {
    /// A copy was accepted.
    Cached,
    /// The server was asked.
    Direct(Why),
}

/// What a read gives: the result of a key at a commit.
#[derive(Debug, Drop)]
pub struct ReadOut {
    pub body: Body,
    /// The commit whose result this is.
    pub commit: Commit,
    pub way: Way,
}

/// What a fetched page was beside the held one.
#[derive(Clone, Copy, Debug, PartialEq, Eq)]
pub enum Refreshed {
    /// It has a greater front, or the same front and a greater moment, or none was held. It is held now.
    Newer,
    /// It is not newer. The held page stays.
    Older,
}
