//! A link that gives what it was made of, one answer for each call. It tells no history.
ghost use Rattle.std.specs.Prelude.{◌≡◌, Some};
ghost use Rattle.client_session.specs.Link.{reason_of};
ghost use Rattle.client_session.specs.ListLink.{IsCounted};

use crate::ask::{ClientAsk, LinkRefusal};
use crate::last::LastReplies;
use crate::link::Link;
use client_model::Reply;
use flat_snapshot::Page;

/// One answer of a list of them.
#[derive(Drop)]
pub enum LinkAnswer {
    /// A reply. To the ask for a page it is a refusal with its status.
    Reply(Reply),
    /// A page. To another ask it is bytes that are not of the format.
    Page(Page),
    /// The link fails.
    Fault,
    /// The bytes of the reply are not of the format.
    BadReply {
        /// The offset of the first wrong byte.
        place: usize,
    },
}

/// A link over a list of answers. After the last of them it fails.
#[derive(Drop)]
pub struct ListLink {
    /// The answers that are left, the next one last.
    pub answers: Vec<LinkAnswer>,
    pub faults: u64,
    pub bad_replies: u64,
    pub last: LastReplies,
}

impl ListLink {
    /// A link that gives these answers in turn, the last of the list first.
    pub fn new(answers: Vec<LinkAnswer>) -> ListLink {
        ListLink {
            answers,
            faults: 0,
            bad_replies: 0,
            last: LastReplies::none(),
        }
    }

    /// Fails. A count that cannot rise gives the answer for want of memory.
    fn fault(&mut self) -> LinkRefusal
        ensures counts { IsCounted self.old self.new (Some result) }
        ensures last { self.new.last ≡ self.old.last }
    {
        match self.faults.checked_add(1) {
            Some(faults) => {
                self.faults = faults;
                LinkRefusal::Fault
            }
            None => LinkRefusal::Memory,
        }
    }

    /// Answers that the bytes are not of the format, and counts it as `fault` does.
    fn bad_reply(&mut self, place: usize) -> LinkRefusal
        ensures counts { IsCounted self.old self.new (Some result) }
        ensures last { self.new.last ≡ self.old.last }
    {
        match self.bad_replies.checked_add(1) {
            Some(bad_replies) => {
                self.bad_replies = bad_replies;
                LinkRefusal::BadReply { place }
            }
            None => LinkRefusal::Memory,
        }
    }

    /// The next answer as a reply.
    fn reply(&mut self) -> Result<Reply, LinkRefusal>
        ensures counts { IsCounted self.old self.new (reason_of result) }
        ensures last { self.new.last ≡ self.old.last }
    {
        match self.answers.pop() {
            Some(LinkAnswer::Reply(reply)) => Ok(reply),
            Some(LinkAnswer::Page(_)) => Err(self.bad_reply(0)),
            Some(LinkAnswer::BadReply { place }) => Err(self.bad_reply(place)),
            Some(LinkAnswer::Fault) => Err(self.fault()),
            None => Err(self.fault()),
        }
    }

    /// The next answer as a page.
    fn next_page(&mut self) -> Result<Page, LinkRefusal>
        ensures counts { IsCounted self.old self.new (reason_of result) }
        ensures last { self.new.last ≡ self.old.last }
    {
        match self.answers.pop() {
            Some(LinkAnswer::Page(page)) => Ok(page),
            Some(LinkAnswer::Reply(reply)) => Err(LinkRefusal::Status { code: reply.status }),
            Some(LinkAnswer::BadReply { place }) => Err(self.bad_reply(place)),
            Some(LinkAnswer::Fault) => Err(self.fault()),
            None => Err(self.fault()),
        }
    }
}

impl Link for ListLink {
    ghost use Rattle.client_session.specs.ListLink.{view_of};

    ghost at = { view_of };

    ghost answers = { λ _ _ _. Unit {0} };

    fn through(&mut self, ask: &ClientAsk) -> Result<Reply, LinkRefusal> {
        let told = self.reply();
        self.last = self.last.after_through(&told);
        told
    }

    fn direct(&mut self, ask: &ClientAsk) -> Result<Reply, LinkRefusal> {
        let told = self.reply();
        self.last = self.last.after_direct(ask, &told);
        told
    }

    fn page(&mut self) -> Result<Page, LinkRefusal> {
        let told = self.next_page();
        self.last = self.last.after_page(&told);
        told
    }
}
