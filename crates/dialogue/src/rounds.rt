//! One round of a connection: the next item is taken and answered.
ghost use Rattle.std.specs.Prelude.{◌≡◌, ℕ, ◌+◌, ◌<◌, ◌^◌, ◌||◌};
ghost use Rattle.std.specs.Option.{is_some};
ghost use Rattle.http_message.specs.Item.{request as a_request};
ghost use Rattle.http_message.specs.Taken.{IsTaken, item_limit};
ghost use Rattle.dialogue.specs.Dialogue.{end_by};
ghost use Rattle.dialogue.specs.Round.{IsRound};

use crate::answers::Answers;
use crate::round_result::RoundResult;
use http_message::{Request, RequestRoom, Taken, next_request};
use q_outside::{Sink, Source, Why};

/// How the connection ends after a request, where the request asks for it (RFC 9112, section 9.6) or the
/// server is ending.
fn end_of(request: &Request<'_>, stops: bool) -> Option<Why>
    ensures { (offset : ℕ) → result ≡ end_by offset (a_request request.now) stops }
{
    if request.closes() {
        Some(Why::CloseAsked)
    } else if stops {
        Some(Why::Stopped)
    } else {
        None
    }
}

/// Whether the connection ends after a request: something ends it, or it is the last that is answered.
fn is_last(end: Option<Why>, last: bool) -> bool
    ensures { result ≡ (is_some end || last) }
{
    end.is_some() || last
}

/// Takes the next item. The source is told that it begins.
fn take_next<S: Source, K: Sink>(source: &mut S, sink: &mut K, buffer: &mut RequestRoom) -> Taken
    requires { buffer.old.offset + item_limit < 2 ^ 64 }
    ensures taken { IsTaken (S.at source.old) (S.at source.new) (K.at sink.old) (K.at sink.new) buffer.old buffer.new result }
{
    source.begin(!buffer.is_empty());
    next_request(source, sink, buffer)
}

/// Takes the next item and has it answered. It is the last that may be where `last` says so.
pub(crate) fn round<A: Answers, S: Source, K: Sink>(
    answerer: &mut A,
    source: &mut S,
    sink: &mut K,
    buffer: &mut RequestRoom,
    last: bool,
) -> RoundResult
    requires can { A.can answerer.old }
    requires offset { buffer.old.offset + item_limit < 2 ^ 64 }
    ensures can { A.can answerer.new }
    ensures keeps { A.keeps answerer.old answerer.new }
    ensures round { IsRound A.answers answerer.old answerer.new (record { source = S.at source.old; sink = K.at sink.old }) (record { source = S.at source.new; sink = K.at sink.new }) buffer.old buffer.new last result }
{
    match take_next(source, sink, buffer) {
        Taken::Request { .. } => {
            let stops = source.is_stopping();
            let request = buffer.request();
            let end = end_of(&request, stops);
            let given = answerer.answer(sink, &request, is_last(end, last));
            RoundResult::of(given, end)
        }
        Taken::Framing {
            refused,
            place,
            head,
        } => {
            let given = answerer.refuse(sink, refused, head);
            RoundResult::of(given, Some(Why::BadFraming { place }))
        }
        Taken::InputEnd => RoundResult::Incomplete(Why::InputEnd),
        Taken::Truncated => RoundResult::Incomplete(Why::Truncated),
        Taken::ReadFault => RoundResult::Incomplete(Why::ReadFault),
        Taken::WriteFault => RoundResult::Incomplete(Why::WriteFault),
    }
}
