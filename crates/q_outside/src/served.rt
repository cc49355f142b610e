//! How a connection was served.

/// Why a connection ended.
#[derive(Clone, Copy, Debug, PartialEq, Eq)]
pub enum Why {
    /// The source ended, and no byte but CR and LF was taken since the last request.
    InputEnd,
    /// The source ended inside a request.
    Truncated,
    /// A request whose framing was refused has been answered.
    BadFraming {
        /// The offset of the request's first byte.
        place: usize,
    },
    /// A request that asked for the end of the connection has been answered.
    CloseAsked,
    /// As many requests as one connection may make have been answered.
    RequestLimit,
    /// The server is ending, and a request that was in hand has been answered.
    Stopped,
    /// The source failed.
    ReadFault,
    /// The sink failed.
    WriteFault,
}

/// The outcome of a connection.
#[derive(Clone, Copy, Debug, PartialEq, Eq)]
pub struct Served {
    /// The number of answered requests, including one whose reply the sink did not take whole.
    pub requests: u64,
    /// Why the connection ended.
    pub why: Why,
}
