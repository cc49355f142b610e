//! The bodies of replies.
ghost use Rattle.std.specs.Prelude.{◌≡◌, ◌+◌, ◌<◌, ◌≤◌, ◌^◌, ◌++◌, true, length, decimal, codes};
ghost use Rattle.q_outside.specs.Ends.{Gave};
ghost use Rattle.http_front.specs.Bodies.{body_text, is_counted, is_counted_in, up_to_greatest};
ghost use Rattle.http_front.specs.ReplyText.{found_text, written_body, outcome_body, stats_body, filter_body, refusal, body_of, given_body, is_asked};
ghost use Rattle.http_front.specs.declared.refused.Refused.TheVariants.{Framing, BadDocument};

use crate::purges::{give_purges, purges_len};
use crate::put::{put, put_number};
use crate::refused::{DocumentReason, FilterRefusal, Refused};
use crate::results::give_result;
use crate::shape::Shape;
use crate::told::Told;
use http_message::FramingRefusal;
use hub_model::{Found, Outcome, PurgeReply, Stats, Written};
use q_outside::{Failed, Sink, give_all};
use result_kinds::ResultText;

/// The greatest length of a body with numbers in it.
pub(crate) const NUMBERS_CAPACITY: usize = 96;

/// The length of the buffer by way of which a body is given without its head where it is written meanwhile.
const PIECE_CAPACITY: usize = 1024;

/// The body of a read that finds nothing.
const ABSENT: &[u8] = b"{\"error\":\"absent\"}";

/// The body where memory was wanting.
const NO_MEMORY: &[u8] = b"{\"error\":\"memory\"}";

/// The body of a reply where what was done cannot be kept.
const UNKEPT: &[u8] = b"{\"error\":\"unkept\"}";

/// The body of a reply, as it is kept until it is given.
#[derive(Clone, Copy)]
pub(crate) enum ReplyBody<'a> {
    /// These bytes.
    Piece(&'a [u8]),
    /// The text of a result, which is written while it is given.
    Result(&'a ResultText),
    /// The text of a list of purges, which is written while it is given.
    Purges(&'a PurgeReply),
}

impl<'a> ReplyBody<'a> {
    /// Its length, or the greatest number where that is less.
    pub(crate) fn len(self) -> usize
        ensures len { result ≡ up_to_greatest (length (body_text self.entry)) }
        ensures fits { is_counted self.entry ≡ true → length (body_text self.entry) < 2 ^ 64 }
    {
        match self {
            ReplyBody::Piece(piece) => piece.len(),
            ReplyBody::Result(text) => text.len(),
            ReplyBody::Purges(reply) => purges_len(reply),
        }
    }
}

/// Gives the body of a reply to a sink: nothing where the request was HEAD. Where the reply is a page,
/// these are its bytes.
pub fn write_body<K: Sink>(
    shape: &Shape<'_>,
    told: &Told,
    page: &[u8],
    sink: &mut K,
) -> Result<(), Failed>
    ensures { Gave (K.at sink.old) (K.at sink.new) (given_body shape.now told.now (body_of told.now page.now)) result }
{
    let mut numbers = [0; NUMBERS_CAPACITY];
    let body = body_of(told, page, &mut numbers);
    match given(shape, told, body) {
        ReplyBody::Piece(piece) => give_all(sink, piece),
        ReplyBody::Result(text) => give_result(sink, &mut [0; PIECE_CAPACITY], 0, text),
        ReplyBody::Purges(reply) => give_purges(sink, &mut [0; PIECE_CAPACITY], 0, reply),
    }
}

/// What is given of a body: nothing where the request was HEAD, or asks what a page may send.
pub(crate) fn given<'a>(shape: &Shape<'_>, told: &Told, body: ReplyBody<'a>) -> ReplyBody<'a>
    ensures { body_text result ≡ given_body shape.now told.now (body_text body.entry) }
{
    if is_asked(shape, told) || shape.head {
        ReplyBody::Piece(&[])
    } else {
        body
    }
}

/// Whether a reply says what a page may send, in place of a refusal of its method.
fn is_asked(shape: &Shape<'_>, told: &Told) -> bool
    ensures { result ≡ is_asked shape.now told.now }
{
    match told {
        Told::Refusal(refused, _) => shape.asks && refused.is_of_method(),
        _ => false,
    }
}

/// The body of a reply, which is written into the buffer where it is short and has numbers. Where the
/// reply is a page, these are its bytes.
pub(crate) fn body_of<'a>(told: &'a Told, page: &'a [u8], buffer: &'a mut [u8]) -> ReplyBody<'a>
    requires { NUMBERS_CAPACITY ≤ length buffer.old }
    ensures text { body_text result ≡ body_of told.now page.now }
    ensures counted { is_counted result ≡ is_counted_in told.now }
{
    let piece = match told {
        Told::Write(written) => written_body(written, buffer),
        Told::Read(answer) => return outcome_body(&answer.result),
        Told::Match(matched) => number_body(b"{\"front\":", matched.front, b"}", buffer),
        Told::Dropped(dropped) => number_body(b"{\"horizon\":", dropped.horizon, b"}", buffer),
        Told::Page(_) => page,
        Told::Count(stats) => stats_body(stats, buffer),
        Told::Purges(reply) => return ReplyBody::Purges(reply),
        Told::Refusal(refused, _) => refusal_body(*refused, buffer),
        Told::Memory => NO_MEMORY,
        Told::Unkept => UNKEPT,
    };
    ReplyBody::Piece(piece)
}

/// A number between two pieces, written into the buffer.
pub(crate) fn number_body<'a>(
    name: &[u8],
    number: u64,
    end: &[u8],
    buffer: &'a mut [u8],
) -> &'a [u8]
    requires { length name.now + 20 + length end.now ≤ length buffer.old }
    ensures { result.now ≡ (name.now ++ decimal number) ++ end.now }
{
    let mut at = put(buffer, 0, name);
    at = put_number(buffer, at, number);
    at = put(buffer, at, end);
    &buffer[..at]
}

/// The body of a write.
fn written_body<'a>(written: &Written, buffer: &'a mut [u8]) -> &'a [u8]
    requires { NUMBERS_CAPACITY ≤ length buffer.old }
    ensures { result.now ≡ written_body written.now }
{
    match written {
        Written::Done { commit, .. } => number_body(b"{\"commit\":", *commit, b"}", buffer),
        Written::Precondition { found, .. } => precondition_body(*found, buffer),
        Written::Full { bytes, .. } => {
            number_body(
                b"{\"bytes\":",
                *bytes,
                b",\"error\":\"store_full\"}",
                buffer,
            )
        }
    }
}

/// The body of a write whose condition is not met.
fn precondition_body(found: Found, buffer: &mut [u8]) -> &[u8]
    requires { NUMBERS_CAPACITY ≤ length buffer.old }
    ensures { result.now ≡ codes "{\"error\":\"precondition\",\"found\":" ++ found_text found ++ codes "}" }
{
    match found {
        Found::Missing => b"{\"error\":\"precondition\",\"found\":null}",
        Found::At(version) => number_body(
            b"{\"error\":\"precondition\",\"found\":",
            version,
            b"}",
            buffer,
        ),
    }
}

/// The body of a read: none where the caller knows the result.
fn outcome_body(outcome: &Outcome) -> ReplyBody<'_>
    ensures text { body_text result ≡ outcome_body outcome.now }
    ensures counted { is_counted result ≡ true }
{
    match outcome {
        Outcome::Whole { text, .. } => result_body(text),
        Outcome::Same { .. } => ReplyBody::Piece(&[]),
        Outcome::Absent => ReplyBody::Piece(ABSENT),
    }
}

/// The body of a result: the bytes of a document are there in one piece.
fn result_body(text: &ResultText) -> ReplyBody<'_>
    ensures text { body_text result ≡ text.now }
    ensures counted { is_counted result ≡ true }
{
    match text.as_document() {
        Some(piece) => ReplyBody::Piece(piece),
        None => ReplyBody::Result(text),
    }
}

/// The body of the counts.
fn stats_body<'a>(stats: &Stats, buffer: &'a mut [u8]) -> &'a [u8]
    requires { NUMBERS_CAPACITY ≤ length buffer.old }
    ensures { result.now ≡ stats_body stats.now }
{
    let mut at = put(buffer, 0, b"{\"clock\":");
    at = put_number(buffer, at, stats.clock.seconds());
    at = put(buffer, at, b",\"commits\":");
    at = put_number(buffer, at, stats.commits);
    at = put(buffer, at, b",\"front\":");
    at = put_number(buffer, at, stats.front);
    at = put(buffer, at, b"}");
    &buffer[..at]
}

/// The body of a refusal.
fn refusal_body(refused: Refused, buffer: &mut [u8]) -> &[u8]
    requires { NUMBERS_CAPACITY ≤ length buffer.old }
    ensures { result.now ≡ (refusal refused).body }
{
    match refused {
        Refused::Framing(refused) => framing_body(refused),
        Refused::BadHost => b"{\"error\":\"bad_host\"}",
        Refused::Misdirected => b"{\"error\":\"misdirected\"}",
        Refused::BadTarget => b"{\"error\":\"bad_target\"}",
        Refused::NoRoute => b"{\"error\":\"no_route\"}",
        Refused::BadMethod(_) => b"{\"error\":\"bad_method\"}",
        Refused::NoLength => b"{\"error\":\"no_length\"}",
        Refused::BadEncoding => b"{\"error\":\"bad_encoding\"}",
        Refused::BadTag => b"{\"error\":\"bad_tag\"}",
        Refused::BadFilter(refused) => filter_body(refused, buffer),
        Refused::BadDocument(reason) => document_body(reason),
    }
}

/// The body of what cannot be framed.
fn framing_body(refused: FramingRefusal) -> &'static [u8]
    ensures { result.now ≡ (refusal (Framing refused)).body }
{
    match refused {
        FramingRefusal::BadHead => b"{\"error\":\"bad_head\"}",
        FramingRefusal::HeadTooLarge => b"{\"error\":\"head_too_large\"}",
        FramingRefusal::BadLength => b"{\"error\":\"bad_length\"}",
        FramingRefusal::BadCoding => b"{\"error\":\"bad_coding\"}",
        FramingRefusal::BodyTooLarge => b"{\"error\":\"body_too_large\"}",
    }
}

/// The body of the refusal of a query's field.
fn filter_body(refused: FilterRefusal, buffer: &mut [u8]) -> &[u8]
    requires { NUMBERS_CAPACITY ≤ length buffer.old }
    ensures { result.now ≡ filter_body refused }
{
    let mut at = put(buffer, 0, b"{\"error\":\"bad_filter\",\"field\":\"");
    at = put(buffer, at, refused.field.name());
    at = put(buffer, at, b"\",\"place\":");
    at = put_number(buffer, at, refused.place);
    at = put(buffer, at, b",\"reason\":\"");
    at = put(buffer, at, refused.reason.word());
    at = put(buffer, at, b"\"}");
    &buffer[..at]
}

/// The body of the refusal of a document.
fn document_body(reason: DocumentReason) -> &'static [u8]
    ensures { result.now ≡ (refusal (BadDocument reason)).body }
{
    match reason {
        DocumentReason::NotJson => b"{\"error\":\"bad_document\",\"reason\":\"not_json\"}",
        DocumentReason::NotObject => b"{\"error\":\"bad_document\",\"reason\":\"not_object\"}",
        DocumentReason::TooDeep => b"{\"error\":\"bad_document\",\"reason\":\"too_deep\"}",
        DocumentReason::NotWhole => b"{\"error\":\"bad_document\",\"reason\":\"not_whole\"}",
    }
}
