//! Reading a reply from a source.
ghost use Rattle.std.specs.Prelude.{◌≡◌, ◌≤◌};
ghost use Rattle.q_outside.specs.Ends.{End};
ghost use Rattle.http_message.specs.Limits.{head_limit};
ghost use Rattle.client_wire.specs.Numbers.{body_limit};
ghost use Rattle.client_wire.specs.Taken.{TakesContent, TakesFront, TookFront};
ghost use Rattle.client_wire.specs.Taking.{TakesReply, lacks_of, reply_with};

use crate::body::{ShortBody, take_body};
use crate::head::{Cut, HeadFound, take_head};
use crate::judge::{HeadRefusal, read_text};
use crate::parts::ReplyParts;
use crate::refusal::{Lacks, WireRefusal};
use crate::room::ReplyRoom;
use client_model::Reply;
use q_base::{Moment, SharedText};
use q_outside::Source;
use std::alloc::Global;

/// A head that was taken.
#[derive(Clone, Copy, Debug, PartialEq, Eq)]
pub struct Front {
    pub parts: ReplyParts,
    /// The length of the body.
    pub size: usize,
    /// The number of bytes that were taken.
    pub length: usize,
}

/// Why there is no body.
#[derive(Clone, Copy, Debug, PartialEq, Eq)]
pub enum ContentRefusal {
    /// It is not whole.
    Short(ShortBody),
    /// Memory ran out.
    Memory,
}

/// Reads the next reply of a source. No byte behind it is taken.
pub fn read_reply<S: Source>(alloc: Global, source: &mut S) -> Result<(Reply, Lacks), WireRefusal>
    ensures { TakesReply (S.at source.old) (S.at source.new) result }
{
    match ReplyRoom::new(alloc) {
        Ok(mut room) => take_reply(alloc, source, &mut room),
        Err(_) => Err(WireRefusal::Memory),
    }
}

/// The same with buffers that are there already. Memory is taken for the body alone.
pub fn take_reply<S: Source>(
    alloc: Global,
    source: &mut S,
    room: &mut ReplyRoom,
) -> Result<(Reply, Lacks), WireRefusal>
    ensures { TakesReply (S.at source.old) (S.at source.new) result }
{
    match take_front(source, room) {
        Ok(front) => take_behind(alloc, source, front),
        Err(refused) => Err(refused),
    }
}

/// Takes the body behind a head that was taken.
fn take_behind<S: Source>(
    alloc: Global,
    source: &mut S,
    front: Front,
) -> Result<(Reply, Lacks), WireRefusal>
    requires short { front.length ≤ head_limit }
    requires limit { front.size ≤ body_limit }
    ensures { (first : End) → TookFront first (S.at source.old) front → TakesReply first (S.at source.new) result }
{
    match take_content(alloc, source, front.size) {
        Ok(body) => Ok((reply_with(front.parts, body), lacks_of(front.parts))),
        Err(ContentRefusal::Memory) => Err(WireRefusal::Memory),
        Err(ContentRefusal::Short(short)) => match short.cut {
            Cut::Ended => Err(WireRefusal::Truncated {
                taken: front.length + short.taken,
            }),
            Cut::Failed => Err(WireRefusal::ReadFault),
        },
    }
}

/// Takes the head.
fn take_front<S: Source>(source: &mut S, room: &mut ReplyRoom) -> Result<Front, WireRefusal>
    ensures { TakesFront (S.at source.old) (S.at source.new) result }
{
    let taken = take_head(source, &mut room.text);
    match taken.found {
        Err(Cut::Ended) => Err(WireRefusal::Truncated { taken: taken.count }),
        Err(Cut::Failed) => Err(WireRefusal::ReadFault),
        Ok(HeadFound::Unreadable) => Err(WireRefusal::BadReply { place: 0 }),
        Ok(HeadFound::Text { empty_lines, size }) => {
            let held = &room.text[..taken.count];
            let text = &held[empty_lines..empty_lines + size];
            match read_text(text, &mut room.spans) {
                Ok(accepted) => Ok(Front {
                    parts: accepted.parts,
                    size: accepted.size,
                    length: taken.count,
                }),
                Err(HeadRefusal::NoHead) => Err(WireRefusal::BadReply { place: 0 }),
                Err(HeadRefusal::Unsized) => Err(WireRefusal::BadReply { place: 0 }),
                Err(HeadRefusal::At(at)) => Err(WireRefusal::BadReply {
                    place: empty_lines + at,
                }),
            }
        }
    }
}

/// Takes a body of this length.
fn take_content<S: Source>(
    alloc: Global,
    source: &mut S,
    size: usize,
) -> Result<SharedText, ContentRefusal>
    ensures { TakesContent (S.at source.old) (S.at source.new) size result }
{
    let Ok(mut bytes) = vec![in alloc; 0u8; size] else {
        return Err(ContentRefusal::Memory);
    };
    match take_body(source, &mut bytes) {
        Ok(()) => match SharedText::of(alloc, bytes) {
            Ok(body) => Ok(body),
            Err(_) => Err(ContentRefusal::Memory),
        },
        Err(short) => Err(ContentRefusal::Short(short)),
    }
}

/// The reply of these parts and this body.
fn reply_with(parts: ReplyParts, body: SharedText) -> Reply
    ensures { result ≡ reply_with parts body }
{
    let date = parts.date.unwrap_or(0);
    Reply {
        status: parts.status,
        commit: parts.commit.unwrap_or(0),
        version: parts.version,
        until: parts.until.unwrap_or(date),
        date: Moment::of(date),
        max_age: parts.max_age,
        tag: parts.tag,
        body,
    }
}

/// Which of the fields that a read needs are absent.
fn lacks_of(parts: ReplyParts) -> Lacks
    ensures { result ≡ lacks_of parts }
{
    Lacks {
        commit: parts.commit.is_none(),
        until: parts.until.is_none(),
    }
}
