//! Connections as doors give them and take them back.

use crate::served::Served;

/// The answer of doors to who comes next.
#[derive(Debug, Drop)]
pub enum Next<S, K> {
    /// A new connection.
    Connection {
        /// Where its bytes come from.
        source: S,
        /// Where its bytes go to.
        sink: K,
    },
    /// No connection for now. The doors may be asked again.
    Closed,
}

/// A connection that was handed back.
#[derive(Debug, Drop)]
pub struct Back<S, K> {
    /// The source as it was left.
    pub source: S,
    /// The sink as it was left.
    pub sink: K,
    /// How the connection was served, if it was.
    pub served: Option<Served>,
    /// How many connections the doors had given when it was handed back.
    pub after: usize,
}
