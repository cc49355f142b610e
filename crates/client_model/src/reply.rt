//! A reply to a read, as caches and clients see it.
ghost use Rattle.std.specs.Prelude.{◌≡◌, IfOk};

use q_base::{Commit, Memory, Moment, SharedText};

/// A reply to a read, as caches and clients see it.
#[derive(Debug, Drop)]
pub struct Reply {
    /// The status (RFC 9110, section 15).
    pub status: u16,
    /// The commit whose result the reply is.
    pub commit: Commit,
    /// The version of a record's document.
    pub version: Option<Commit>,
    /// The second from which on the reply may be kept no longer.
    pub until: u64,
    /// When the reply was made.
    pub date: Moment,
    /// For how many seconds from its date on it is fresh (RFC 9111, section 4.2.1).
    pub max_age: Option<u32>,
    /// The commit that its entity tag names.
    pub tag: Option<Commit>,
    /// What it holds. Clones share it.
    pub body: SharedText,
}

/// The same reply. Both share the body.
pub fn copy_of(reply: &Reply) -> Result<Reply, Memory>
    ensures { IfOk result (λ copy. copy ≡ reply.now) }
{
    let body = reply.body.clone()?;
    Ok(Reply {
        status: reply.status,
        commit: reply.commit,
        version: reply.version,
        until: reply.until,
        date: reply.date,
        max_age: reply.max_age,
        tag: reply.tag,
        body,
    })
}
