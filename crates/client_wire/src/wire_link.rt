//! The link over any source and any sink: each call gives the text of a request and takes one reply.
ghost use Rattle.std.specs.Prelude.{◌≡◌, ℕ, List, false, None};
ghost use Rattle.client_session.specs.Link.{is_read_status, is_write_status, reason_of};
ghost use Rattle.client_wire.specs.Links.{Ends, IsAnswered, IsBadCounted, IsCounted, IsPageAnswered, IsPageRefused, IsRead, Reads, ReadsOne, is_lacking, is_record};
ghost use Rattle.client_wire.specs.Requests.{request_text};

use crate::refusal::{Lacks, WireRefusal};
use crate::reply::take_reply;
use crate::request::{body_of, write_head};
use crate::room::ReplyRoom;
use client_model::Reply;
use client_session::{ClientAsk, LastReplies, Link, LinkRefusal};
use flat_snapshot::{Page, PageRefusal};
use q_base::Text;
use q_outside::{Failed, Sink, Source, give_both};
use query_normal::{Key, KeyShape};
use std::alloc::Global;

/// A link to a server at the other end of a source and a sink. It tells no history.
#[derive(Drop)]
pub struct WireLink<S: Source + Drop, K: Sink + Drop> {
    pub source: S,
    pub sink: K,
    /// What the field Host names.
    pub host: Text,
    /// The number of answers that a reply is not of the format.
    pub bad_replies: u64,
    pub last: LastReplies,
    /// The buffers for heads, once a call has needed them.
    room: Option<ReplyRoom>,
    alloc: Global,
}

impl<S: Source + Drop, K: Sink + Drop> WireLink<S, K> {
    /// The link over these ends, with what its requests name as their host. It takes no memory.
    pub fn new(alloc: Global, source: S, sink: K, host: Text) -> WireLink<S, K>
        ensures ends { (result.source ≡ source) × (result.sink ≡ sink) }
        ensures host { result.host ≡ host }
        ensures bad_replies { result.bad_replies ≡ 0 }
        ensures last { result.last ≡ record { through = None; direct = None; page = None } }
    {
        WireLink {
            source,
            sink,
            host,
            bad_replies: 0,
            last: LastReplies::none(),
            room: None,
            alloc,
        }
    }

    /// The ends, which are handed back.
    pub fn into_ends(self) -> (S, K)
        ensures { result ≡ (self.source, self.sink) }
    {
        (self.source, self.sink)
    }

    /// Asks, and reads the reply.
    fn ask(&mut self, ask: &ClientAsk) -> Result<Reply, LinkRefusal>
        ensures answered { IsAnswered (record { source = S.at self.old.source; source' = S.at self.new.source; sink = K.at self.old.sink; sink' = K.at self.new.sink }) self.old.host ask.now result }
        ensures counts { IsCounted (record { source = S.at self.old.source; source' = S.at self.new.source; sink = K.at self.old.sink; sink' = K.at self.new.sink }) self.old.bad_replies self.new.bad_replies (reason_of result) }
        ensures last { self.new.last ≡ self.old.last }
        ensures host { self.new.host ≡ self.old.host }
    {
        let host = self.host.as_slice();
        let read = exchange(
            self.alloc,
            &mut self.source,
            &mut self.sink,
            host,
            &mut self.room,
            ask,
        );
        judge_read(ask, read, &mut self.bad_replies)
    }

    /// Asks for the page, and reads it.
    fn ask_page(&mut self) -> Result<Page, LinkRefusal>
        ensures answered { IsPageAnswered (record { source = S.at self.old.source; source' = S.at self.new.source; sink = K.at self.old.sink; sink' = K.at self.new.sink }) self.old.host result }
        ensures counts { IsCounted (record { source = S.at self.old.source; source' = S.at self.new.source; sink = K.at self.old.sink; sink' = K.at self.new.sink }) self.old.bad_replies self.new.bad_replies (reason_of result) }
        ensures last { self.new.last ≡ self.old.last }
        ensures host { self.new.host ≡ self.old.host }
    {
        match self.ask(&ClientAsk::Page) {
            Ok(reply) => judge_page(self.alloc, &reply, &mut self.bad_replies),
            Err(refused) => Err(refused),
        }
    }
}

impl<S: Source + Drop, K: Sink + Drop> Link for WireLink<S, K> {
    ghost use Rattle.client_wire.specs.Links.{IsCallAnswered, view_by};

    ghost at = { λ l. view_by (S.at l.source) (K.at l.sink) l.bad_replies l.last };

    ghost answers = { λ old x new. IsCallAnswered (record { source = S.at old.source; source' = S.at new.source; sink = K.at old.sink; sink' = K.at new.sink }) old.host x };

    fn through(&mut self, ask: &ClientAsk) -> Result<Reply, LinkRefusal> {
        let told = self.ask(ask);
        self.last = self.last.after_through(&told);
        told
    }

    fn direct(&mut self, ask: &ClientAsk) -> Result<Reply, LinkRefusal> {
        let told = self.ask(ask);
        self.last = self.last.after_direct(ask, &told);
        told
    }

    fn page(&mut self) -> Result<Page, LinkRefusal> {
        let told = self.ask_page();
        self.last = self.last.after_page(&told);
        told
    }
}

/// What an ask is answered, by what was read.
fn judge_read(
    ask: &ClientAsk,
    read: Result<(Reply, Lacks), LinkRefusal>,
    bad_replies: &mut u64,
) -> Result<Reply, LinkRefusal>
    ensures answered { (e : Ends) (host : List ℕ) → Reads e (request_text ask.now host) read → IsAnswered e host ask.now result }
    ensures counts { (e : Ends) (text : List ℕ) → Reads e text read → IsCounted e bad_replies.old bad_replies.new (reason_of result) }
{
    match read {
        Ok((reply, lacks)) => {
            if is_lacking(ask, &reply, lacks) {
                return Err(count_bad(bad_replies, 0));
            }
            Ok(reply)
        }
        Err(LinkRefusal::BadReply { place }) => Err(count_bad(bad_replies, place)),
        Err(LinkRefusal::Fault) => Err(LinkRefusal::Fault),
        Err(LinkRefusal::Memory) => Err(LinkRefusal::Memory),
        Err(LinkRefusal::Status { code }) => Err(LinkRefusal::Status { code }),
    }
}

/// What the ask for the page is answered, by the reply.
fn judge_page(alloc: Global, reply: &Reply, bad_replies: &mut u64) -> Result<Page, LinkRefusal>
    ensures answered { (e : Ends) (host : List ℕ) → ReadsOne e ClientAsk.Page host reply.now false → IsPageAnswered e host result }
    ensures counts { (e : Ends) (older : ℕ) → IsCounted e older bad_replies.old None → IsCounted e older bad_replies.new (reason_of result) }
{
    if reply.status != 200 {
        return Err(LinkRefusal::Status { code: reply.status });
    }
    match Page::read(alloc, reply.body.as_slice()) {
        Ok(page) => Ok(page),
        Err(refusal) => Err(refuse_page(refusal, bad_replies)),
    }
}

/// Why there is no page, where bytes were refused as one.
fn refuse_page(refusal: PageRefusal, bad_replies: &mut u64) -> LinkRefusal
    ensures { IsPageRefused refusal bad_replies.old bad_replies.new result }
{
    match refusal {
        PageRefusal::Memory => LinkRefusal::Memory,
        _ => count_bad(bad_replies, 0),
    }
}

/// Counts an answer that a reply is not of the format. A count that cannot rise gives the answer for want
/// of memory.
fn count_bad(bad_replies: &mut u64, place: usize) -> LinkRefusal
    ensures { IsBadCounted bad_replies.old bad_replies.new place result }
{
    match bad_replies.checked_add(1) {
        Some(more) => {
            *bad_replies = more;
            LinkRefusal::BadReply { place }
        }
        None => LinkRefusal::Memory,
    }
}

/// Whether the reply lacks a field that it needs.
fn is_lacking(ask: &ClientAsk, reply: &Reply, lacks: Lacks) -> bool
    ensures { result ≡ is_lacking ask.now reply.now lacks }
{
    match ask {
        ClientAsk::Read { key, .. } => {
            (is_read_status(reply.status) && (lacks.commit || lacks.until))
                || (reply.status == 200 && is_record(key) && reply.version.is_none())
        }
        ClientAsk::Page => false,
        ClientAsk::Put { .. } => is_write_status(reply.status) && lacks.commit,
        ClientAsk::Delete { .. } => is_write_status(reply.status) && lacks.commit,
    }
}

/// Whether a status is that of a read: there is a result, or no document.
fn is_read_status(status: u16) -> bool
    ensures { result ≡ is_read_status status }
{
    status == 200 || status == 404
}

/// Whether a status is that of an accepted write.
fn is_write_status(status: u16) -> bool
    ensures { result ≡ is_write_status status }
{
    status == 200 || status == 201
}

/// Whether the key is that of a record.
fn is_record(key: &Key) -> bool
    ensures { result ≡ is_record key.now }
{
    match key.shape() {
        KeyShape::Record { .. } => true,
        KeyShape::Query { .. } => false,
    }
}

/// Gives the text of an ask, and reads the reply.
fn exchange<S: Source, K: Sink>(
    alloc: Global,
    source: &mut S,
    sink: &mut K,
    host: &[u8],
    room: &mut Option<ReplyRoom>,
    ask: &ClientAsk,
) -> Result<(Reply, Lacks), LinkRefusal>
    ensures { Reads (record { source = S.at source.old; source' = S.at source.new; sink = K.at sink.old; sink' = K.at sink.new }) (request_text ask.now host.now) result }
{
    let Ok(head) = write_head(alloc, ask, host) else {
        return Err(LinkRefusal::Memory);
    };
    if room.is_none() {
        let Ok(made) = ReplyRoom::new(alloc) else {
            return Err(LinkRefusal::Memory);
        };
        *room = Some(made);
    }
    let Some(room) = room else {
        return Err(LinkRefusal::Memory);
    };
    match give_both(sink, head.as_slice(), body_of(ask)) {
        Ok(()) => read(alloc, source, room),
        Err(Failed) => Err(LinkRefusal::Fault),
    }
}

/// Reads a reply.
fn read<S: Source>(
    alloc: Global,
    source: &mut S,
    room: &mut ReplyRoom,
) -> Result<(Reply, Lacks), LinkRefusal>
    ensures { IsRead (S.at source.old) (S.at source.new) result }
{
    match take_reply(alloc, source, room) {
        Ok(read) => Ok(read),
        Err(WireRefusal::BadReply { place }) => Err(LinkRefusal::BadReply { place }),
        Err(WireRefusal::Truncated { taken }) => Err(LinkRefusal::BadReply { place: taken }),
        Err(WireRefusal::ReadFault) => Err(LinkRefusal::Fault),
        Err(WireRefusal::Memory) => Err(LinkRefusal::Memory),
    }
}
