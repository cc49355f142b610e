//! What the head of a reply says.
use q_base::Commit;

/// The status of a reply and what its fields say, each where it stands.
#[derive(Clone, Copy, Debug, PartialEq, Eq)]
pub struct ReplyParts {
    pub status: u16,
    pub commit: Option<Commit>,
    pub version: Option<Commit>,
    /// The second from which on the reply may be kept no longer.
    pub until: Option<u64>,
    /// When the reply was made, in seconds since 1970.
    pub date: Option<u64>,
    /// For how many seconds the reply is fresh (RFC 9111, section 4.2.1).
    pub max_age: Option<u32>,
    /// The commit that its entity tag names.
    pub tag: Option<Commit>,
}
