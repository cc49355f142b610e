//! What a link keeps of its last replies, by which a refusal of a session can be explained.
ghost use Rattle.std.specs.Prelude.{◌≡◌, None};
ghost use Rattle.client_session.specs.declared.ask.ClientAsk.{ClientAsk as AnAsk};
ghost use Rattle.client_session.specs.Link.{through, direct, page, kept_of, with_status, last_after};

use crate::ask::{ClientAsk, LinkRefusal};
use client_model::Reply;
use flat_snapshot::Page;
use q_base::Commit;

/// What is kept of a reply.
#[derive(Clone, Copy, Debug, PartialEq, Eq)]
pub struct Kept {
    pub status: u16,
    pub commit: Commit,
    pub until: u64,
}

/// What is kept of a page.
#[derive(Clone, Copy, Debug, PartialEq, Eq)]
pub struct LastPage {
    pub front: Commit,
    /// The clock at which it was made, in seconds.
    pub moment: u64,
}

/// What a link keeps of its last replies.
#[derive(Clone, Copy, Debug, PartialEq, Eq)]
pub struct LastReplies {
    /// Of the last reply that `through` gave.
    pub through: Option<Kept>,
    /// Of the last reply that `direct` gave to a read or a write, with the status of a refused page.
    pub direct: Option<Kept>,
    /// Of the last page.
    pub page: Option<LastPage>,
}

/// What is kept of a reply.
fn kept_of(reply: &Reply) -> Kept
    ensures { result ≡ kept_of reply.now }
{
    Kept {
        status: reply.status,
        commit: reply.commit,
        until: reply.until,
    }
}

/// Another status beside what was kept.
fn with_status(code: u16, kept: Option<Kept>) -> Kept
    ensures { result ≡ with_status code kept }
{
    match kept {
        Some(kept) => Kept {
            status: code,
            ..kept
        },
        None => Kept {
            status: code,
            commit: 0,
            until: 0,
        },
    }
}

impl LastReplies {
    /// Nothing is kept before the first reply.
    pub fn none() -> LastReplies
        ensures { result ≡ record { through = None; direct = None; page = None } }
    {
        LastReplies {
            through: None,
            direct: None,
            page: None,
        }
    }

    /// What is kept after an answer of `through`.
    pub fn after_through(self, told: &Result<Reply, LinkRefusal>) -> LastReplies
        ensures { (asked : AnAsk) → result ≡ last_after self (through asked told.now) }
    {
        match told {
            Ok(reply) => LastReplies {
                through: Some(kept_of(reply)),
                ..self
            },
            Err(_) => self,
        }
    }

    /// What is kept after an answer of `direct`: nothing of a reply to a page.
    pub fn after_direct(self, ask: &ClientAsk, told: &Result<Reply, LinkRefusal>) -> LastReplies
        ensures { result ≡ last_after self (direct ask.now told.now) }
    {
        match (ask, told) {
            (ClientAsk::Page, _) => self,
            (_, Ok(reply)) => LastReplies {
                direct: Some(kept_of(reply)),
                ..self
            },
            (_, Err(_)) => self,
        }
    }

    /// What is kept after an answer of `page`.
    pub fn after_page(self, told: &Result<Page, LinkRefusal>) -> LastReplies
        ensures { result ≡ last_after self (page told.now) }
    {
        match told {
            Ok(page) => LastReplies {
                page: Some(LastPage {
                    front: page.front(),
                    moment: page.moment().seconds(),
                }),
                ..self
            },
            Err(LinkRefusal::Status { code }) => LastReplies {
                direct: Some(with_status(*code, self.direct)),
                ..self
            },
            Err(_) => self,
        }
    }
}
