//! Giving the text of a reply to a sink.
ghost use Rattle.std.specs.Prelude.{ℕ, List};
ghost use Rattle.q_outside.specs.Ends.{Gave};
ghost use Rattle.http_front.specs.ReplyText.{IsReplyText};

use crate::body::{NUMBERS_CAPACITY, body_of, given};
use crate::head::Head;
use crate::reply::ReplyRoom;
use crate::shape::Shape;
use crate::told::Told;
use q_outside::{Failed, Sink};

/// Gives the text of a reply: in one piece where it fits the buffer. Else it gives its head and then its
/// body; a list of purges is written through the buffer. Where it is a page, these are its bytes.
pub fn give_reply<K: Sink>(
    sink: &mut K,
    buffer: &mut ReplyRoom,
    shape: &Shape<'_>,
    told: &Told,
    page: &[u8],
    close: bool,
) -> Result<(), Failed>
    ensures reply { (text : List ℕ) × IsReplyText shape.now told.now page.now close text × Gave (K.at sink.old) (K.at sink.new) text result }
{
    let mut numbers = [0; NUMBERS_CAPACITY];
    let body = body_of(told, page, &mut numbers);
    let head = Head::of(shape, told, body.len(), close);
    buffer.write_head(&head, told.clock());
    buffer.give_with(sink, given(shape, told, body))
}
