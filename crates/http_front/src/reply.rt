//! The texts of replies.
//!
//! A reply's head is written into a buffer that was made before the request was taken, so an accepted
//! write is answered whatever memory there is. The body follows it there where it fits, so that the sink is
//! given the reply in one piece.
ghost use Rattle.std.specs.Prelude.{◌≡◌, ℕ, ◌≤◌, ◌++◌, List, [], length, IfOk};
ghost use Rattle.hub_model.specs.Reply.{told_of};
ghost use Rattle.q_outside.specs.Ends.{Gave};
ghost use Rattle.http_front.specs.Bodies.{body_text};
ghost use Rattle.http_front.specs.ReplyText.{IsHeadText, head_of, body_of, clock_of, purges_body};

use crate::body::{NUMBERS_CAPACITY, ReplyBody, body_of};
use crate::date::DateText;
use crate::head::{Head, put_head};
use crate::purges::give_purges;
use crate::put::put;
use crate::results::give_result;
use crate::shape::Shape;
use crate::told::Told;
use hub_model::PurgeReply;
use q_base::{Memory, Moment};
use q_outside::{Failed, Sink, give_all, give_both};
use result_kinds::ResultText;
use std::alloc::Global;
use std::marker::Model;

/// The length of the buffer for a reply, in bytes: 2,048 for a head, and 8,192 for a body.
pub const REPLY_CAPACITY: usize = 10_240;

/// The buffer for the text of a reply. Contracts see the text that was written last.
#[derive(Drop)]
pub struct ReplyRoom {
    bytes: Vec<u8>,
    len: usize,
    date: DateText,
}

impl Model for ReplyRoom {
    ghost use Rattle.std.specs.Prelude.{◌≡◌, ◌≤◌, ℕ, List, length, take};
    ghost use Rattle.http_front.specs.declared.reply.TheConstants.{REPLY_CAPACITY};

    ghost Value = { List ℕ };

    ghost view = { λ r. take r.len r.bytes.items };

    ghost invariant = { λ r. (r.len ≤ REPLY_CAPACITY) × (length r.bytes.items ≡ REPLY_CAPACITY) };
}

impl ReplyRoom {
    /// A buffer with nothing in it.
    pub fn new(alloc: Global) -> Result<ReplyRoom, Memory>
        ensures { IfOk result (λ buffer. buffer ≡ []) }
    {
        let bytes = vec![in alloc; 0; REPLY_CAPACITY]?;
        Ok(ReplyRoom {
            bytes,
            len: 0,
            date: DateText::new(),
        })
    }

    /// The text that was written last. It takes no memory.
    pub fn bytes(&self) -> &[u8]
        ensures { result.now ≡ self.now }
    {
        &self.bytes.as_slice()[..self.len]
    }

    /// Writes a head with the date of a clock over what is there.
    pub fn write_head(&mut self, head: &Head<'_>, clock: Moment)
        ensures head { IsHeadText head.now clock self.new }
        ensures len { length self.new ≤ 2048 }
    {
        self.date.turn_to(clock);
        self.len = put_head(self.bytes.as_mut_slice(), head, self.date.as_slice());
    }

    /// Gives what is there and then a body.
    pub(crate) fn give_with<K: Sink>(
        &mut self,
        sink: &mut K,
        body: ReplyBody<'_>,
    ) -> Result<(), Failed>
        ensures { Gave (K.at sink.old) (K.at sink.new) (self.old ++ body_text body.entry) result }
    {
        match body {
            ReplyBody::Piece(piece) => self.give_with_piece(sink, piece),
            ReplyBody::Result(text) => self.give_with_result(sink, text),
            ReplyBody::Purges(reply) => self.give_with_purges(sink, reply),
        }
    }

    /// Gives what is there and a piece after it: both at once where the piece fits.
    fn give_with_piece<K: Sink>(&mut self, sink: &mut K, piece: &[u8]) -> Result<(), Failed>
        ensures { Gave (K.at sink.old) (K.at sink.new) (self.old ++ piece.now) result }
    {
        if piece.len() > REPLY_CAPACITY - self.len {
            return give_both(sink, self.bytes(), piece);
        }
        self.len = put(self.bytes.as_mut_slice(), self.len, piece);
        give_all(sink, self.bytes())
    }

    /// Gives what is there and then the text of a result, which is written through the buffer. Nothing is
    /// there then.
    fn give_with_result<K: Sink>(&mut self, sink: &mut K, text: &ResultText) -> Result<(), Failed>
        ensures { Gave (K.at sink.old) (K.at sink.new) (self.old ++ text.now) result }
    {
        let at = self.len;
        self.len = 0;
        give_result(sink, self.bytes.as_mut_slice(), at, text)
    }

    /// Gives what is there and then a list of purges, which is written through the buffer. Nothing is
    /// there then.
    fn give_with_purges<K: Sink>(&mut self, sink: &mut K, reply: &PurgeReply) -> Result<(), Failed>
        ensures { Gave (K.at sink.old) (K.at sink.new) (self.old ++ purges_body (told_of reply.now)) result }
    {
        let at = self.len;
        self.len = 0;
        give_purges(sink, self.bytes.as_mut_slice(), at, reply)
    }
}

/// Writes the head of a reply over what is in the buffer, and answers its length. Where the reply
/// is a page, these are its bytes.
pub fn reply_text(
    shape: &Shape<'_>,
    told: &Told,
    page: &[u8],
    close: bool,
    buffer: &mut ReplyRoom,
) -> usize
    ensures head { IsHeadText (head_of shape.now told.now (length (body_of told.now page.now)) close) (clock_of told.now) buffer.new }
    ensures len { result ≡ length buffer.new }
    ensures short { result ≤ 2048 }
{
    let mut numbers = [0; NUMBERS_CAPACITY];
    let size = body_of(told, page, &mut numbers).len();
    buffer.write_head(&Head::of(shape, told, size, close), told.clock());
    buffer.bytes().len()
}
