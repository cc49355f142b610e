//! The store's answers as the replies that caches and clients see.
ghost use Rattle.std.specs.Prelude.{◌≡◌, IfOk};
ghost use Rattle.world_core.specs.Link.{linked};
ghost use Rattle.world_core.specs.Replies.{bare_reply, done_status, max_age_of, read_reply, write_reply};

use client_model::Reply;
use client_session::LinkRefusal;
use flat_snapshot::Page;
use hub_desk::{Answer, Found, Outcome, Written};
use q_base::{Commit, Memory, Moment, SharedText};
use std::alloc::Global;

/// The reply to a read. The body is that of the answer.
pub fn read_reply(alloc: Global, answer: Answer) -> Result<Reply, Memory>
    ensures { IfOk result (λ reply. reply ≡ read_reply answer) }
{
    let until = answer.clock.seconds() + u64::from(answer.ttl.max(answer.shared));
    let bare = Reply {
        status: 200,
        commit: answer.commit,
        version: None,
        until,
        date: answer.clock,
        max_age: max_age(answer.ttl),
        tag: None,
        body: SharedText::of(alloc, Vec::new(alloc))?,
    };
    match answer.result {
        Outcome::Whole { text, version } => Ok(Reply {
            version,
            tag: Some(bare.commit),
            body: text.to_shared(alloc)?,
            ..bare
        }),
        Outcome::Same { tag, version } => Ok(Reply {
            status: 304,
            version,
            tag: Some(tag),
            ..bare
        }),
        Outcome::Absent => Ok(Reply {
            status: 404,
            body: SharedText::of(alloc, Vec::from_slice(alloc, b"{\"error\":\"absent\"}")?)?,
            ..bare
        }),
    }
}

/// For how long a reply is fresh: a lifetime of 0 is none.
fn max_age(ttl: u32) -> Option<u32>
    ensures { result ≡ max_age_of ttl }
{
    if ttl > 0 { Some(ttl) } else { None }
}

/// The reply to a write: its status, and its commit where it was accepted.
pub fn write_reply(alloc: Global, is_put: bool, written: Written) -> Result<Reply, Memory>
    ensures { IfOk result (λ reply. reply ≡ write_reply is_put written) }
{
    match written {
        Written::Done { commit, before, .. } => {
            bare_reply(alloc, done_status(is_put, before), commit)
        }
        Written::Precondition { .. } => bare_reply(alloc, 412, 0),
        Written::Full { .. } => bare_reply(alloc, 507, 0),
    }
}

/// The status of an accepted write.
fn done_status(is_put: bool, before: Found) -> u16
    ensures { result ≡ done_status is_put before }
{
    match before {
        Found::Missing if is_put => 201,
        _ => 200,
    }
}

/// A reply without a text, which may not be kept.
pub fn bare_reply(alloc: Global, status: u16, commit: Commit) -> Result<Reply, Memory>
    ensures { IfOk result (λ reply. reply ≡ bare_reply status commit) }
{
    Ok(Reply {
        status,
        commit,
        version: None,
        until: 0,
        date: Moment::of(0),
        max_age: None,
        tag: None,
        body: SharedText::of(alloc, Vec::new(alloc))?,
    })
}

/// The store's answer as that of the link.
pub fn linked(told: Result<Reply, Memory>) -> Result<Reply, LinkRefusal>
    ensures { result ≡ linked told }
{
    match told {
        Ok(reply) => Ok(reply),
        Err(_) => Err(LinkRefusal::Memory),
    }
}

/// The same of a page.
pub fn page_linked(told: Result<Page, Memory>) -> Result<Page, LinkRefusal>
    ensures { result ≡ linked told }
{
    match told {
        Ok(page) => Ok(page),
        Err(_) => Err(LinkRefusal::Memory),
    }
}
