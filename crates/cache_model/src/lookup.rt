//! What a cache answers to a lookup.
use client_model::Reply;
use q_base::Commit;

/// What a cache does with a request for a key.
#[derive(Clone, Copy, Debug, PartialEq, Eq)]
pub enum Answer {
    /// It answers with the stored reply.
    Hit,
    /// It asks the server whether the result of this entity tag is still current (RFC 9111, section 4.3).
    Validate {
        /// The commit that the tag names.
        tag: Commit,
    },
    /// It passes the request on.
    Miss,
}

/// What a cache does with a request for a key, with the reply of a hit.
#[derive(Debug, Drop)]
pub enum Lookup<'a> {
    /// It answers with this stored reply.
    Hit {
        /// The stored reply.
        reply: &'a Reply,
    },
    /// It asks the server whether the result of this entity tag is still current (RFC 9111, section 4.3).
    Validate {
        /// The commit that the tag names.
        tag: Commit,
    },
    /// It passes the request on.
    Miss,
}
