//! The next item of a source's bytes.
ghost use Rattle.std.specs.Prelude.{◌≡◌, ◌+◌, ◌<◌, ◌^◌, length, IfOk, IfErr, true};
ghost use Rattle.q_outside.specs.Ends.{GaveBytes, GavePart};
ghost use Rattle.http_message.specs.Bodied.{IsBody};
ghost use Rattle.http_message.specs.Headed.{FitsBuffer};
ghost use Rattle.http_message.specs.Input.{Reads};
ghost use Rattle.http_message.specs.Item.{IsCut};
ghost use Rattle.http_message.specs.Limits.{trailer_capacity, body_limit};
ghost use Rattle.http_message.specs.Message.{Message};
ghost use Rattle.http_message.specs.Next.{IsNext, Waits};
ghost use Rattle.http_message.specs.Room.{state_of};
ghost use Rattle.http_message.specs.Taken.{item_limit, continue_text, continue_where};

use crate::body::take_exact;
use crate::buffers::Buffers;
use crate::coding::{Coded, take_coded};
use crate::framing::Framing;
use crate::headed::{Headed, next_head};
use crate::incomplete::Incomplete;
use crate::input::Input;
use crate::last_request::LastRequest;
use crate::next::Next;
use crate::taken::Taken;
use httparse::spans::HeaderSpan;
use q_outside::{Failed, Sink, Source, give_all};

/// What is given before the reply to an item that expects it (RFC 9110, section 15.2.1).
const CONTINUE: &[u8] = b"HTTP/1.1 100 Continue\r\n\r\n";

/// Takes the next item, which begins at this offset, into the buffers.
pub fn next_in<S: Source, K: Sink>(
    source: &mut S,
    sink: &mut K,
    buffers: &mut Buffers,
    offset: usize,
) -> Result<Next, Incomplete>
    requires { offset + item_limit < 2 ^ 64 }
    ensures next { (message : Message) → IsNext (S.at source.old) (S.at source.new) (K.at sink.old) (K.at sink.new) (state_of buffers.old.bytes offset message) buffers.new result }
    ensures waits { Waits (S.at source.old) (S.at source.new) buffers.old.bytes }
{
    let Buffers {
        input,
        text,
        spans,
        trailer_spans,
        body,
    } = buffers;
    let head = match next_head(source, input, text, spans)? {
        Headed::Bad { refused, used } => {
            return Ok(Next::unframed(refused, offset, offset + used, false));
        }
        Headed::Framed(head) => head,
    };
    give_continue(sink, head.expects_continue)?;
    let behind = offset + head.used;
    let (size, used) = match take_body(source, input, head.framing, body, trailer_spans)? {
        Coded::Whole { size, used } => (size, used),
        Coded::Broken { refused, used } => {
            return Ok(Next::unframed(refused, offset, behind + used, head.is_head_request));
        }
    };
    Ok(Next {
        taken: Taken::Request { place: offset },
        offset: behind + used,
        last_request: LastRequest {
            text: head.text,
            parts: head.parts,
            body: size,
        },
    })
}

/// Gives `100 Continue` where it is expected.
fn give_continue<K: Sink>(sink: &mut K, expected: bool) -> Result<(), Incomplete>
    ensures gave { IfOk result (λ _. GaveBytes (K.at sink.old) (K.at sink.new) (continue_where expected)) }
    ensures incomplete { IfErr result (λ incomplete. (incomplete ≡ Incomplete.WriteFault) × (expected ≡ true) × GavePart (K.at sink.old) (K.at sink.new) continue_text) }
{
    if !expected {
        return Ok(());
    }
    match give_all(sink, CONTINUE) {
        Ok(()) => Ok(()),
        Err(Failed) => Err(Incomplete::WriteFault),
    }
}

/// Takes the body of this framing to the start of the buffer for it.
fn take_body<S: Source>(
    source: &mut S,
    input: &mut Input,
    framing: Framing,
    body: &mut [u8],
    trailer_spans: &mut [HeaderSpan],
) -> Result<Coded, Incomplete>
    requires fits { FitsBuffer framing }
    requires body { length body.old ≡ body_limit }
    requires trailer_spans { length trailer_spans.old ≡ trailer_capacity }
    ensures { Reads (S.at source.old) (S.at source.new) input.old input.new (IsCut framing) (IsBody framing body.new) result }
{
    match framing {
        Framing::Sized(size) => {
            take_exact(source, input, &mut body[..size])?;
            Ok(Coded::Whole { size, used: size })
        }
        Framing::Chunked => take_coded(source, input, body, trailer_spans),
    }
}
