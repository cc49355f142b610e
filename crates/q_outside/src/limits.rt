//! Limits of time of connections.

/// How long a server waits for those that it serves. What is counted begins with each request anew.
#[derive(Clone, Copy, Debug, PartialEq, Eq)]
pub struct Limits {
    /// For how many seconds a connection may wait for its next request; 0 is for any time.
    pub idle: u32,
    /// How many seconds a request, head and body, has beside those of its bytes.
    pub head_time: u32,
    /// How many seconds a reply has beside those of its bytes.
    pub reply_time: u32,
    /// How many bytes give a request or a reply a second more.
    pub least_rate: u32,
    /// For how many seconds requests in hand are still answered once the server is told to end.
    pub grace: u32,
}
