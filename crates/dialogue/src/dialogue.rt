//! One connection: one item after the other is taken and answered.
//!
//! A round takes the next item of the source's bytes, and has it answered before anything more is
//! taken. What a round does is one more exchange. The clause of the connection gives the list of
//! them, the other bytes that were taken, and what is true at the end that is answered.
ghost use Rattle.dialogue.specs.Dialogue.{Dialogue};

use crate::answers::Answers;
use crate::visits::{Pause, REQUEST_LIMIT, VisitEnd, hold_visit};
use http_message::RequestRoom;
use q_outside::{Served, Sink, Source};

/// Serves one connection to its end: each item of the source's bytes is taken, and answered before
/// anything more is taken. It takes no memory but what the answers take. The sink is not ended.
pub fn hold_dialogue<A: Answers, S: Source, K: Sink>(
    answerer: &mut A,
    source: &mut S,
    sink: &mut K,
    buffer: &mut RequestRoom,
) -> Served
    requires can { A.can answerer.old }
    ensures can { A.can answerer.new }
    ensures keeps { A.keeps answerer.old answerer.new }
    ensures dialogue { Dialogue A.answers answerer.old answerer.new (record { source = S.at source.old; sink = K.at sink.old }) (record { source = S.at source.new; sink = K.at sink.new }) result }
{
    let mut pause = Pause::START;
    for _visit in 0..REQUEST_LIMIT {
        match hold_visit(answerer, source, sink, buffer, pause, REQUEST_LIMIT) {
            VisitEnd::Quiet(next) => pause = next,
            VisitEnd::Ended(served) => return served,
        }
    }
    unreachable!()
}
