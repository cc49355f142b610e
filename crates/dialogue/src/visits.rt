//! Visits: a connection is served from one pause to the next, and holds buffers only in between.
//!
//! A visit answers items until no byte is held and none has come, or it has answered its share, or until
//! the connection ends. What it says of them holds behind whatever passed before it, so nothing but two
//! numbers goes from one visit to the next: each may have another buffer, and a connection that pauses
//! needs none.
ghost use Rattle.std.specs.Prelude.{◌≡◌, true, []};
ghost use Rattle.dialogue.specs.Visit.{MayGoOn, Rests, Visited};

use crate::answers::Answers;
use crate::round_result::RoundResult;
use crate::rounds::round;
use http_message::RequestRoom;
use q_outside::{Served, Sink, Source, Why};

/// The greatest number of requests that are answered on one connection.
pub const REQUEST_LIMIT: u64 = 10_000;

/// A moment between two requests at which no byte of the second was taken.
#[derive(Clone, Copy, Debug, PartialEq, Eq)]
pub struct Pause {
    /// The number of requests that were answered.
    pub requests: u64,
    /// The number of their bytes.
    pub offset: usize,
}

impl Pause {
    /// The moment before the first request.
    pub const START: Pause = Pause {
        requests: 0,
        offset: 0,
    };
}

/// How a visit ended.
#[derive(Clone, Copy, Debug, PartialEq, Eq)]
pub enum VisitEnd {
    /// The connection pauses here, after one request more at least.
    Quiet(Pause),
    /// The connection has ended.
    Ended(Served),
}

/// Whether the connection pauses: a further request may be answered, but no byte of it was taken, and
/// none is there or it is others' turn.
fn is_quiet<S: Source>(source: &mut S, buffer: &RequestRoom, more: bool, yields: bool) -> bool
    ensures at { S.at source.new ≡ S.at source.old }
    ensures none { result ≡ true → buffer.now.bytes ≡ [] }
    ensures more { result ≡ true → more ≡ true }
{
    more && buffer.is_empty() && (yields || !source.is_ready())
}

/// Serves a connection from a pause to the next, or to its end: each item of the source's bytes is
/// taken, and answered before anything more is taken. It waits for the first of them. What was in the
/// buffer is dropped. It takes no memory but what the answers take. The sink is not ended.
///
/// After `share` requests, or more, it pauses at the first boundary at which no byte of a further one was
/// taken, so that others may have the buffers.
pub fn hold_visit<A: Answers, S: Source, K: Sink>(
    answerer: &mut A,
    source: &mut S,
    sink: &mut K,
    buffer: &mut RequestRoom,
    from: Pause,
    share: u64,
) -> VisitEnd
    requires can { A.can answerer.old }
    requires more { MayGoOn from }
    ensures can { A.can answerer.new }
    ensures keeps { A.keeps answerer.old answerer.new }
    ensures visit { Visited A.answers answerer.old answerer.new (record { source = S.at source.old; sink = K.at sink.old }) (record { source = S.at source.new; sink = K.at sink.new }) from result }
    ensures rests { Rests from result }
{
    buffer.resume(from.offset);
    for requests in from.requests..REQUEST_LIMIT {
        let last = requests + 1 == REQUEST_LIMIT;
        let yields = requests + 1 - from.requests >= share;
        match round(answerer, source, sink, buffer, last) {
            RoundResult::KeptOpen => {
                if is_quiet(source, buffer, !last, yields) {
                    return VisitEnd::Quiet(Pause {
                        requests: requests + 1,
                        offset: buffer.offset(),
                    });
                }
            }
            RoundResult::Closed(why) => {
                return VisitEnd::Ended(Served {
                    requests: requests + 1,
                    why,
                });
            }
            RoundResult::SinkFailed => {
                return VisitEnd::Ended(Served {
                    requests: requests + 1,
                    why: Why::WriteFault,
                });
            }
            RoundResult::Incomplete(why) => return VisitEnd::Ended(Served { requests, why }),
        }
    }
    VisitEnd::Ended(Served {
        requests: REQUEST_LIMIT,
        why: Why::RequestLimit,
    })
}
