//! What the text of a reply's head says.
ghost use Rattle.std.specs.Prelude.{◌≡◌, ◌≤◌, length, map, All, IfSome, IfNone, codes, option_and_then};
ghost use Rattle.httparse.specs.Spans.{header_bytes, IsHeaderWithin};
ghost use Rattle.http_message.specs.Limits.{field_capacity};
ghost use Rattle.client_wire.specs.Judged.{IsHeadAt, IsBounded, IsReadText};
ghost use Rattle.client_wire.specs.Numbers.{body_limit, date_in, tag_in};
ghost use Rattle.client_wire.specs.ReplyFields.{first_value, number_at, parts_of, size_of, verdict_of};
ghost use Rattle.client_wire.specs.ReplyHead.{IsNoReplyHead};

use crate::fields::{first_refused, first_value};
use crate::lifetime::lifetime_in;
use crate::numbers::{date_in, length_in, number_in, tag_in};
use crate::parts::ReplyParts;
use crate::place::value_place;
use httparse::Status;
use httparse::spans::{HeaderSpan, ResponseSpans, parse_response};

/// Where a reply's head is refused, if it is.
#[derive(Clone, Copy, Debug, PartialEq, Eq)]
pub enum Verdict {
    /// At the value that begins at this offset.
    RefusedAt(usize),
    /// As a whole, since the length of the body is needed and absent.
    Unsized,
    /// Nowhere. A body of this length follows.
    Sized(usize),
}

/// Why the text of a head is refused.
#[derive(Clone, Copy, Debug, PartialEq, Eq)]
pub enum HeadRefusal {
    /// It is no head of a reply.
    NoHead,
    /// It lacks the length of the body.
    Unsized,
    /// A field is refused, whose value begins at this offset.
    At(usize),
}

/// A head that is taken.
#[derive(Clone, Copy, Debug, PartialEq, Eq)]
pub struct Accepted {
    pub parts: ReplyParts,
    /// The length of the body.
    pub size: usize,
}

/// Reads the whole text of a head. The offsets of its fields are written to the start of `spans`.
pub(crate) fn read_text(text: &[u8], spans: &mut [HeaderSpan]) -> Result<Accepted, HeadRefusal>
    requires { length spans.old ≡ field_capacity }
    ensures len { length spans.new ≡ length spans.old }
    ensures read { IsReadText text.now result }
{
    let Some(parts) = read_head(text, spans) else {
        return Err(HeadRefusal::NoHead);
    };
    accept(text, spans, parts)
}

/// The parts of the head that the whole text is, or nothing where it is none.
fn read_head(text: &[u8], spans: &mut [HeaderSpan]) -> Option<ResponseSpans>
    requires { length spans.old ≡ field_capacity }
    ensures len { length spans.new ≡ length spans.old }
    ensures head { IfSome result (IsHeadAt text.now spans.new) }
    ensures none { IfNone result (IsNoReplyHead text.now) }
{
    match parse_response(text, spans) {
        Ok(Status::Complete(parts)) if parts.len == text.len() => Some(parts),
        _ => None,
    }
}

/// Judges the head whose parts these are.
fn accept(text: &[u8], spans: &[HeaderSpan], parts: ResponseSpans) -> Result<Accepted, HeadRefusal>
    requires { IsHeadAt text.now spans.now parts }
    ensures { IsReadText text.now result }
{
    let fields = &spans[..parts.headers];
    match judge(text, parts.code, fields) {
        Verdict::RefusedAt(at) => Err(HeadRefusal::At(at)),
        Verdict::Unsized => Err(HeadRefusal::Unsized),
        Verdict::Sized(size) => Ok(Accepted {
            parts: parts_of(text, parts.code, fields),
            size,
        }),
    }
}

/// Where a head of this status and these fields is refused.
#[tactic(auto, unfolding(crate::specs::ReplyFields::verdict_of))]
fn judge(text: &[u8], status: u16, fields: &[HeaderSpan]) -> Verdict
    requires { All (IsHeaderWithin (length text.now)) fields.now }
    ensures verdict { result ≡ verdict_of text.now status (map (header_bytes text.now) fields.now) }
    ensures within { IsBounded text.now result }
{
    match first_refused(text, status, fields) {
        Some(index) => Verdict::RefusedAt(value_place(text, index)),
        None => match size_of(text, status, fields) {
            Some(size) => Verdict::Sized(size as usize),
            None => Verdict::Unsized,
        },
    }
}

/// The length of the body, where it is known.
#[tactic(auto, unfolding(crate::specs::ReplyFields::size_of))]
fn size_of(text: &[u8], status: u16, fields: &[HeaderSpan]) -> Option<u64>
    requires { All (IsHeaderWithin (length text.now)) fields.now }
    ensures value { result ≡ size_of status (map (header_bytes text.now) fields.now) }
    ensures limit { IfSome result (λ n. n ≤ body_limit) }
{
    if status == 304 {
        return Some(0);
    }
    match first_value(text, fields, b"content-length") {
        Some(value) => length_in(value),
        None => None,
    }
}

/// The parts of a reply of this status and these fields.
#[tactic(auto, unfolding(crate::specs::ReplyFields::parts_of))]
fn parts_of(text: &[u8], status: u16, fields: &[HeaderSpan]) -> ReplyParts
    requires { All (IsHeaderWithin (length text.now)) fields.now }
    ensures { result ≡ parts_of status (map (header_bytes text.now) fields.now) }
{
    ReplyParts {
        status,
        commit: number_at(text, fields, b"quaestor-commit"),
        version: number_at(text, fields, b"quaestor-version"),
        until: number_at(text, fields, b"quaestor-until"),
        date: date_at(text, fields),
        max_age: lifetime_in(text, fields),
        tag: tag_at(text, fields),
    }
}

/// The number of the first field of this name.
fn number_at(text: &[u8], fields: &[HeaderSpan], name: &[u8]) -> Option<u64>
    requires { All (IsHeaderWithin (length text.now)) fields.now }
    ensures { result ≡ number_at name.now (map (header_bytes text.now) fields.now) }
{
    match first_value(text, fields, name) {
        Some(value) => number_in(value),
        None => None,
    }
}

/// The date.
fn date_at(text: &[u8], fields: &[HeaderSpan]) -> Option<u64>
    requires { All (IsHeaderWithin (length text.now)) fields.now }
    ensures { result ≡ option_and_then date_in (first_value (codes "date") (map (header_bytes text.now) fields.now)) }
{
    match first_value(text, fields, b"date") {
        Some(value) => date_in(value),
        None => None,
    }
}

/// The commit that the entity tag names.
fn tag_at(text: &[u8], fields: &[HeaderSpan]) -> Option<u64>
    requires { All (IsHeaderWithin (length text.now)) fields.now }
    ensures { result ≡ option_and_then tag_in (first_value (codes "etag") (map (header_bytes text.now) fields.now)) }
{
    match first_value(text, fields, b"etag") {
        Some(value) => tag_in(value),
        None => None,
    }
}
