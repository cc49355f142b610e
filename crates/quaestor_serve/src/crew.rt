//! How many there are of what a server has.

use hub_desk::Trim;

/// How many connections, buffers and matchers a server has, and what its matchers drop.
#[derive(Clone, Copy, Debug, PartialEq, Eq)]
pub struct Crew {
    /// How many connections may be there at the same time, each with a thread of its own.
    pub places: u32,
    /// How many of them may be served at the same time, each with buffers.
    pub workers: u32,
    /// How many threads match.
    pub matchers: u32,
    /// Up to where they drop old changes.
    pub trim: Trim,
}
