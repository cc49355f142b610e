//! How far a session's reads agree with one another.

/// A session's guarantee (Terry et al., Session Guarantees, PDIS 1994).
#[derive(Clone, Copy, Debug, PartialEq, Eq)]
pub enum Level {
    /// It reads its own writes, and of each key never an earlier commit than before.
    Session,
    /// It reads its own writes, and of all keys together never an earlier commit than before.
    Causal,
    /// Each read goes to the server.
    Strong,
}
