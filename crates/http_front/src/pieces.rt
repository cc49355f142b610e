//! Bodies that are given piece by piece, after a head with their length.
ghost use Rattle.std.specs.Prelude.{ℕ, List};
ghost use Rattle.q_outside.specs.Ends.{Gave};
ghost use Rattle.http_front.specs.Pieces.{given_text, parts_text};
ghost use Rattle.http_front.specs.ReplyText.{IsHeadText};

use crate::head::Head;
use crate::reply::ReplyRoom;
use q_base::{Moment, Text};
use q_outside::{Failed, Sink, give_all};

/// A body that a sink is given piece by piece, so that no buffer has to hold it.
pub trait Body {
    /// Its bytes.
    ghost text: { Self → List ℕ };

    /// Gives the bytes to a sink.
    fn give<K: Sink>(&self, sink: &mut K) -> Result<(), Failed>
        ensures { Gave (K.at sink.old) (K.at sink.new) (text self.now) result };
}

/// A body that is in one piece.
pub struct Bytes<'a> {
    /// The bytes.
    pub bytes: &'a [u8],
}

impl<'a> Body for Bytes<'a> {
    ghost text = { λ b. b.bytes.now };

    fn give<K: Sink>(&self, sink: &mut K) -> Result<(), Failed> {
        give_all(sink, self.bytes)
    }
}

/// A body of parts, one after the other.
#[derive(Drop)]
pub struct Parts {
    /// The parts.
    pub parts: Vec<Text>,
}

impl Body for Parts {
    ghost use Rattle.http_front.specs.Pieces.{parts_text};

    ghost text = { λ b. parts_text b.parts.items };

    fn give<K: Sink>(&self, sink: &mut K) -> Result<(), Failed> {
        for index in 0..self.parts.len() {
            if let Err(failed) = give_all(sink, self.parts[index].as_slice()) {
                return Err(failed);
            }
        }
        Ok(())
    }
}

/// Gives a reply of this head, dated by a clock, with a body in pieces; to HEAD the head alone.
pub fn give_pieces<B: Body, K: Sink>(
    sink: &mut K,
    buffer: &mut ReplyRoom,
    head: &Head<'_>,
    clock: Moment,
    body: &B,
    to_head: bool,
) -> Result<(), Failed>
    ensures { (text : List ℕ) × IsHeadText head.now clock text × Gave (K.at sink.old) (K.at sink.new) (given_text text (B.text body.now) to_head) result }
{
    buffer.write_head(head, clock);
    give_behind(sink, buffer.bytes(), body, to_head)
}

/// Gives the text of a head and then the body; to HEAD the head alone.
fn give_behind<B: Body, K: Sink>(
    sink: &mut K,
    head: &[u8],
    body: &B,
    to_head: bool,
) -> Result<(), Failed>
    ensures { Gave (K.at sink.old) (K.at sink.new) (given_text head.now (B.text body.now) to_head) result }
{
    if to_head {
        return give_all(sink, head);
    }
    match give_all(sink, head) {
        Ok(()) => body.give(sink),
        Err(failed) => Err(failed),
    }
}
