//! What an operator may know of an exchange.

/// A request and its reply, as they are noted behind the reply. It takes no memory.
#[derive(Clone, Copy, Debug)]
pub struct Note<'a> {
    /// The method as it came, which is empty where the first line could not be read.
    pub method: &'a [u8],
    /// The target as it came, likewise.
    pub target: &'a [u8],
    /// The status of the reply.
    pub status: u16,
    /// Whether the reply is a copy that caches may keep.
    pub is_copy: bool,
    /// What is wrong with the request or why it was not served, which is empty where neither holds.
    pub why: &'a str,
}
