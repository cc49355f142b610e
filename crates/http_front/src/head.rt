//! The heads of replies.
ghost use Rattle.std.specs.Prelude.{◌≡◌, ◌+◌, ◌<◌, ◌≤◌, ◌++◌, length, take, IfSome};
ghost use Rattle.std.specs.Option.{option_copied};
ghost use Rattle.http1.specs.Head.{print_headers};
ghost use Rattle.http_front.specs.Reply.{media_field, methods_text, allow_field, origin_fields, vary_field, calls_fields, pages_fields, date_field, lifetime_field, close_field, head_text, head_fields};
ghost use Rattle.http_front.specs.ReplyText.{json_head, written_head, answer_head, read_head, calls_by, asked_head, refusal_head, told_head, head_of};

use crate::origins::Leave;
use crate::put::{put, put_field};
use crate::refused::{Allow, Refused};
use crate::shape::Shape;
use crate::status::{put_status, refusal_status, write_status};
use crate::told::Told;
use http::StatusCode;
use hub_model::{Answer, Outcome, Written};
use q_base::Commit;

/// What stands behind an origin: the fields that its pages may read.
const EXPOSED: &[u8] =
    b"\r\nAccess-Control-Expose-Headers: Date, ETag, Quaestor-Commit, Quaestor-Until, Quaestor-Version\r\n";

/// What stands behind the methods that a page may call.
const CALLS: &[u8] =
    b"\r\nAccess-Control-Allow-Headers: Cache-Control, Content-Type, If-Match, If-None-Match\r\nAccess-Control-Max-Age: 600\r\n";

/// What a reply's body is (RFC 9110, section 8.3.1).
#[derive(Clone, Copy, Debug, PartialEq, Eq)]
pub enum MediaType {
    Json,
    OctetStream,
}

/// The status and the fields of a reply.
#[derive(Drop)]
pub struct Head<'a> {
    pub status: StatusCode,
    /// Whether it has a date.
    pub dated: bool,
    /// What the body is, where there is one.
    pub media: Option<MediaType>,
    /// The length of the body, where it is given.
    pub length: Option<u64>,
    /// The commit that the entity tag names.
    pub tag: Option<Commit>,
    /// For how many seconds the reply is fresh (RFC 9111, section 5.2.2.1); 0 is not at all.
    pub ttl: u32,
    /// For how many seconds a shared cache may keep it (RFC 9111, section 5.2.2.10); 0 is not told.
    pub shared: u32,
    /// The methods that the route has, where the request had another.
    pub allow: Option<Allow>,
    pub commit: Option<Commit>,
    pub version: Option<Commit>,
    /// Until when the reply is fresh, in seconds since 1970.
    pub until: Option<u64>,
    /// What is said of the pages that may read the reply.
    pub leave: Leave<'a>,
    /// The methods that a page may call, where it asked for that.
    pub calls: Option<Allow>,
    /// Whether the connection ends after the reply.
    pub close: bool,
}

impl<'a> Head<'a> {
    /// A head that has a date, a body of JSON of this length, and no field of the store.
    #[inline(always)]
    pub fn json(status: StatusCode, length: usize, close: bool) -> Head<'a>
        ensures { result ≡ json_head status length close }
    {
        Head {
            status,
            dated: true,
            media: Some(MediaType::Json),
            length: Some(length as u64),
            tag: None,
            ttl: 0,
            shared: 0,
            allow: None,
            commit: None,
            version: None,
            until: None,
            leave: Leave::none(),
            calls: None,
            close,
        }
    }

    /// The head of the reply to a write.
    #[inline(always)]
    fn of_written(put: bool, written: &Written, length: usize, close: bool) -> Head<'a>
        ensures { result ≡ written_head put written.now length close }
    {
        match written {
            Written::Done { commit, before, .. } => Head {
                commit: Some(*commit),
                ..Head::json(write_status(put, *before), length, close)
            },
            Written::Precondition { .. } => {
                Head::json(StatusCode::PRECONDITION_FAILED, length, close)
            }
            Written::Full { .. } => Head::json(StatusCode::INSUFFICIENT_STORAGE, length, close),
        }
    }

    /// The head of the reply to a read, without the fields of a document.
    #[inline(always)]
    fn of_answer(answer: &Answer, status: StatusCode, length: usize, close: bool) -> Head<'a>
        ensures { result ≡ answer_head answer.now status length close }
    {
        Head {
            ttl: answer.ttl,
            shared: answer.shared,
            commit: Some(answer.commit),
            until: Some(answer.clock.seconds() + u64::from(answer.ttl.max(answer.shared))),
            ..Head::json(status, length, close)
        }
    }

    /// The head of the reply to a read.
    #[inline(always)]
    fn of_read(answer: &Answer, length: usize, close: bool) -> Head<'a>
        ensures { result ≡ read_head answer.now answer.now.result length close }
    {
        match &answer.result {
            Outcome::Whole { version, .. } => Head {
                tag: Some(answer.commit),
                version: *version,
                ..Head::of_answer(answer, StatusCode::OK, length, close)
            },
            Outcome::Same { tag, version } => Head {
                media: None,
                length: None,
                tag: Some(*tag),
                version: *version,
                ..Head::of_answer(answer, StatusCode::NOT_MODIFIED, length, close)
            },
            Outcome::Absent => Head::of_answer(answer, StatusCode::NOT_FOUND, length, close),
        }
    }

    /// The head of the reply to a page that asks what it may send, where a path has these methods.
    fn of_asked(leave: &Leave<'_>, allow: Option<Allow>, close: bool) -> Head<'a>
        ensures { result ≡ asked_head leave.now allow close }
    {
        Head {
            media: None,
            length: None,
            allow,
            calls: calls_by(leave, allow),
            ..Head::json(StatusCode::NO_CONTENT, 0, close)
        }
    }

    /// The head of a refusal.
    fn of_refusal(shape: &Shape<'_>, refused: Refused, length: usize, close: bool) -> Head<'a>
        ensures { result ≡ refusal_head shape.now refused length close }
    {
        if shape.asks && refused.is_of_method() {
            return Head::of_asked(&shape.leave, refused.allowed(), close);
        }
        Head {
            allow: refused.allowed(),
            ..Head::json(refusal_status(refused), length, close)
        }
    }

    /// The head of a reply whose body has this length, without what it says of pages.
    #[inline(always)]
    fn of_told(shape: &Shape<'_>, told: &Told, length: usize, close: bool) -> Head<'a>
        ensures { result ≡ told_head shape.now told.now length close }
    {
        match told {
            Told::Write(written) => Head::of_written(shape.put, written, length, close),
            Told::Read(answer) => Head::of_read(answer, length, close),
            Told::Match(_) | Told::Dropped(_) | Told::Count(_) | Told::Purges(_) => {
                Head::json(StatusCode::OK, length, close)
            }
            Told::Page(_) => Head {
                media: Some(MediaType::OctetStream),
                ..Head::json(StatusCode::OK, length, close)
            },
            Told::Refusal(refused, _) => Head::of_refusal(shape, *refused, length, close),
            Told::Memory | Told::Unkept => Head {
                dated: false,
                ..Head::json(StatusCode::SERVICE_UNAVAILABLE, length, close)
            },
        }
    }

    /// The head of a reply whose body has this length.
    #[inline(always)]
    pub fn of(shape: &Shape<'a>, told: &Told, length: usize, close: bool) -> Head<'a>
        ensures { result ≡ head_of shape.now told.now length close }
    {
        Head {
            leave: shape.leave.again(),
            ..Head::of_told(shape, told, length, close)
        }
    }
}

/// The methods that a page may call, where it may read the reply.
fn calls_by(leave: &Leave<'_>, allow: Option<Allow>) -> Option<Allow>
    ensures { result ≡ calls_by leave.now.allow allow }
{
    match leave.allow() {
        None => None,
        Some(_) => allow,
    }
}

/// Writes a head at the start of a buffer.
#[tactic(auto, using(crate::proofs::HeadLines::head_pieces))]
pub(crate) fn put_head(buffer: &mut [u8], head: &Head<'_>, date: &[u8]) -> usize
    requires buffer { 2048 ≤ length buffer.old }
    requires date { length date.now ≡ 29 }
    ensures text { take result buffer.new ≡ head_text head.now.status (head_fields head.now date.now) }
    ensures end { result ≤ 2048 }
{
    let mut at = put_status(buffer, head.status);
    at = put_date(buffer, at, head.dated, date);
    at = put(buffer, at, media_line(head.media));
    at = put_field(buffer, at, b"Content-Length: ", head.length, b"\r\n");
    at = put_field(buffer, at, b"ETag: \"", head.tag, b"\"\r\n");
    at = put_lifetime(buffer, at, head.ttl, head.shared);
    at = put(buffer, at, allow_line(head.allow));
    at = put_field(buffer, at, b"Quaestor-Commit: ", head.commit, b"\r\n");
    at = put_field(buffer, at, b"Quaestor-Version: ", head.version, b"\r\n");
    at = put_field(buffer, at, b"Quaestor-Until: ", head.until, b"\r\n");
    at = put_pages(buffer, at, &head.leave, head.calls);
    at = put_close(buffer, at, head.close);
    put(buffer, at, b"\r\n")
}

/// The line that says what the body is.
fn media_line(media: Option<MediaType>) -> &'static [u8]
    ensures field { result.now ≡ print_headers (media_field media) }
    ensures short { length result.now ≤ 40 }
{
    match media {
        None => b"",
        Some(MediaType::Json) => b"Content-Type: application/json\r\n",
        Some(MediaType::OctetStream) => b"Content-Type: application/octet-stream\r\n",
    }
}

/// Methods as a list.
fn methods_text(allow: Allow) -> &'static [u8]
    ensures text { result.now ≡ methods_text allow }
    ensures short { length result.now ≤ 22 }
{
    match allow {
        Allow::Record => b"GET, HEAD, PUT, DELETE",
        Allow::Post => b"POST",
        Allow::Other => b"GET, HEAD",
    }
}

/// The line that lists the methods of a route, where they are listed.
fn allow_line(allow: Option<Allow>) -> &'static [u8]
    ensures field { result.now ≡ print_headers (allow_field allow) }
    ensures short { length result.now ≤ 31 }
{
    match allow {
        None => b"",
        Some(Allow::Record) => b"Allow: GET, HEAD, PUT, DELETE\r\n",
        Some(Allow::Post) => b"Allow: POST\r\n",
        Some(Allow::Other) => b"Allow: GET, HEAD\r\n",
    }
}

/// The line that says that pages of other origins may be told otherwise, where they are.
fn vary_line(varies: bool) -> &'static [u8]
    ensures field { result.now ≡ print_headers (vary_field varies) }
    ensures short { length result.now ≤ 14 }
{
    if varies { b"Vary: Origin\r\n" } else { b"" }
}

/// Writes what a reply says to pages, where it says something.
#[inline(always)]
fn put_pages(buffer: &mut [u8], at: usize, leave: &Leave<'_>, calls: Option<Allow>) -> usize
    requires { at + 600 ≤ length buffer.old }
    ensures end { result ≤ at + 600 }
    ensures text { take result buffer.new ≡ take at buffer.old ++ print_headers (pages_fields leave.now calls) }
{
    if leave.is_none() && calls.is_none() {
        return at;
    }
    put_told(buffer, at, leave, calls)
}

/// Writes what it says.
#[inline(never)]
#[tactic(auto, using(crate::proofs::HeadLines::pages_lines))]
fn put_told(buffer: &mut [u8], at: usize, leave: &Leave<'_>, calls: Option<Allow>) -> usize
    requires { at + 600 ≤ length buffer.old }
    ensures end { result ≤ at + 600 }
    ensures text { take result buffer.new ≡ take at buffer.old ++ print_headers (pages_fields leave.now calls) }
{
    let mut behind = put_origin(buffer, at, leave.allow());
    behind = put(buffer, behind, vary_line(leave.varies()));
    put_calls(buffer, behind, calls)
}

/// Writes the origin whose pages may read the reply, and what they may read, where one is told.
#[tactic(auto, using(crate::proofs::HeadLines::origin_lines))]
fn put_origin(buffer: &mut [u8], at: usize, allow: Option<&[u8]>) -> usize
    requires buffer { at + 381 ≤ length buffer.old }
    requires origin { IfSome (option_copied allow) (λ origin. length origin ≤ 255) }
    ensures end { result ≤ at + 381 }
    ensures text { take result buffer.new ≡ take at buffer.old ++ print_headers (origin_fields (option_copied allow.entry)) }
{
    let Some(origin) = allow else {
        return at;
    };
    let mut behind = put(buffer, at, b"Access-Control-Allow-Origin: ");
    behind = put(buffer, behind, origin);
    put(buffer, behind, EXPOSED)
}

/// Writes what a page may send, where it asked for that.
#[tactic(auto, using(crate::proofs::HeadLines::calls_lines))]
fn put_calls(buffer: &mut [u8], at: usize, calls: Option<Allow>) -> usize
    requires { at + 200 ≤ length buffer.old }
    ensures end { result ≤ at + 200 }
    ensures text { take result buffer.new ≡ take at buffer.old ++ print_headers (calls_fields calls) }
{
    let Some(allow) = calls else {
        return at;
    };
    let mut behind = put(buffer, at, b"Access-Control-Allow-Methods: ");
    behind = put(buffer, behind, methods_text(allow));
    put(buffer, behind, CALLS)
}

/// Writes the date, where the reply has one.
#[tactic(auto, using(crate::proofs::HeadLines::date_line))]
#[inline(always)]
fn put_date(buffer: &mut [u8], at: usize, dated: bool, date: &[u8]) -> usize
    requires buffer { at + 37 ≤ length buffer.old }
    requires date { length date.now ≡ 29 }
    ensures end { result ≤ at + 37 }
    ensures text { take result buffer.new ≡ take at buffer.old ++ print_headers (date_field dated date.now) }
{
    if !dated {
        return at;
    }
    let mut behind = put(buffer, at, b"Date: ");
    behind = put(buffer, behind, date);
    put(buffer, behind, b"\r\n")
}

/// Writes for how long the reply is fresh.
#[inline(always)]
fn put_lifetime(buffer: &mut [u8], at: usize, ttl: u32, shared: u32) -> usize
    requires { at + 96 ≤ length buffer.old }
    ensures end { result ≤ at + 96 }
    ensures text { take result buffer.new ≡ take at buffer.old ++ print_headers (lifetime_field ttl shared) }
{
    if ttl == 0 {
        put(buffer, at, b"Cache-Control: no-store\r\n")
    } else if shared == 0 {
        put_field(
            buffer,
            at,
            b"Cache-Control: max-age=",
            Some(u64::from(ttl)),
            b"\r\n",
        )
    } else {
        put_shared(buffer, at, ttl, shared)
    }
}

/// Writes for how long it is fresh, and for how long in a shared cache.
#[inline(never)]
fn put_shared(buffer: &mut [u8], at: usize, ttl: u32, shared: u32) -> usize
    requires room { at + 96 ≤ length buffer.old }
    requires fresh { 0 < ttl }
    requires shared { 0 < shared }
    ensures end { result ≤ at + 96 }
    ensures text { take result buffer.new ≡ take at buffer.old ++ print_headers (lifetime_field ttl shared) }
{
    let own = u64::from(ttl);
    let other = u64::from(shared);
    let behind = put_field(
        buffer,
        at,
        b"Cache-Control: public, max-age=",
        Some(own),
        b", ",
    );
    put_field(buffer, behind, b"s-maxage=", Some(other), b"\r\n")
}

/// Writes that the connection ends after the reply, where it does.
#[inline(always)]
fn put_close(buffer: &mut [u8], at: usize, close: bool) -> usize
    requires { at + 19 ≤ length buffer.old }
    ensures end { result ≤ at + 19 }
    ensures text { take result buffer.new ≡ take at buffer.old ++ print_headers (close_field close) }
{
    if close {
        put(buffer, at, b"Connection: close\r\n")
    } else {
        at
    }
}
