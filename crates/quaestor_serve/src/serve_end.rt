//! How a server ended.

/// Why a server ended.
#[derive(Clone, Copy, Debug, PartialEq, Eq)]
pub enum ServeWhy {
    /// As many connections came as it was to serve.
    Limit,
    /// The doors were closed.
    Closed,
    /// The doors failed.
    DoorFault,
    /// There was no memory for another connection, which was not asked for.
    Memory,
    /// The store could not be filled with what was kept, and the doors were not asked.
    Unfilled,
}

/// The outcome of a server.
#[derive(Clone, Copy, Debug, PartialEq, Eq)]
pub struct ServeEnd {
    /// How many connections were served.
    pub connections: u64,
    /// Why it ended.
    pub why: ServeWhy,
}
