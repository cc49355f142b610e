//! Replies, to the byte.
use http::StatusCode;
use http_front::{
    Allow, DocumentReason, Head, Leave, Parts, Refused, ReplyRoom, Shape, Told, give_pieces,
    give_reply, note_of, reply_text, write_body,
};
use http_message::FramingRefusal;
use hub_model::{Answer, Dropped, Found, Matched, Outcome, Stats, Written};
use q_base::{Commit, Memory, Moment, SharedText, Text};
use q_outside::{EndlessSink, Note};
use result_kinds::ResultText;
use std::alloc::Global;
use std::process::Abort;
use std::test::Fail;

/// Which of the methods that decide what a reply looks like a request has.
#[derive(Clone, Copy)]
pub(crate) struct Asked {
    put: bool,
    head: bool,
}

impl Asked {
    /// What the reply looks like where no origin is named.
    pub(crate) fn shape<'a>(self) -> Shape<'a> {
        Shape {
            put: self.put,
            head: self.head,
            asks: false,
            leave: Leave::none(),
        }
    }
}

/// Neither PUT nor HEAD.
pub(crate) const PLAIN: Asked = Asked {
    put: false,
    head: false,
};

const PUT: Asked = Asked {
    put: true,
    head: false,
};

pub(crate) const HEAD: Asked = Asked {
    put: false,
    head: true,
};

/// The head of a document's reply.
const READ: &str =
    "HTTP/1.1 200 OK\r\nDate: Thu, 01 Jan 1970 00:01:40 GMT\r\nContent-Type: application/json\r\nContent-Length: 7\r\nETag: \"1\"\r\nCache-Control: max-age=3600\r\nQuaestor-Commit: 1\r\nQuaestor-Version: 1\r\nQuaestor-Until: 3700\r\n\r\n";

/// The reply to a read of a result that the caller knows.
const SAME: &str =
    "HTTP/1.1 304 Not Modified\r\nDate: Thu, 01 Jan 1970 00:01:40 GMT\r\nETag: \"5\"\r\nCache-Control: max-age=60\r\nQuaestor-Commit: 7\r\nQuaestor-Version: 4\r\nQuaestor-Until: 160\r\n\r\n";

/// The head for a result that has not changed, of a server that has no more to say of it.
const UNCHANGED: &[u8] =
    b"HTTP/1.1 304 Not Modified\r\nDate: Thu, 01 Jan 1970 00:01:40 GMT\r\nETag: \"1\"\r\nCache-Control: max-age=60\r\n\r\n";

/// The head of the reply where another server could not be asked.
const BAD_GATEWAY: &[u8] =
    b"HTTP/1.1 502 Bad Gateway\r\nDate: Thu, 01 Jan 1970 00:01:40 GMT\r\nContent-Type: application/json\r\nContent-Length: 18\r\nCache-Control: no-store\r\nConnection: close\r\n\r\n";

/// A read at commit 7 of a result that the caller knows by this tag, for a minute.
fn known(tag: Commit, version: Commit, clock: Moment) -> Answer {
    Answer {
        commit: 7,
        clock,
        ttl: 60,
        shared: 0,
        result: Outcome::Same {
            tag,
            version: Some(version),
        },
    }
}

/// A write that was accepted.
fn done(commit: Commit, before: Found, clock: Moment) -> Written {
    Written::Done {
        commit,
        before,
        clock,
    }
}

/// A write whose condition was not met.
fn unmet(found: Found, clock: Moment) -> Written {
    Written::Precondition { found, clock }
}

/// The counts of an empty store.
fn counts(clock: Moment) -> Stats {
    Stats {
        front: 0,
        commits: 0,
        clock,
    }
}

/// What a reply answers to, what it tells, whether the connection ends behind it, and its text.
type Row<'a> = (Asked, Told, bool, &'a str);

/// Room for replies. It is boxed, as what is told is: each end of a function lets go of a value part by
/// part, which is long to prove, and of a box by one call.
pub(crate) fn new_room(alloc: Global) -> Result<Box<ReplyRoom>, Memory> {
    Ok(Box::new(alloc, ReplyRoom::new(alloc)?)?)
}

/// Whether a reply could be given.
fn is_given(room: &mut ReplyRoom, asked: Asked, told: &Told, close: bool) -> bool {
    give_reply(&mut EndlessSink, room, &asked.shape(), told, b"", close).is_ok()
}

/// Checks the text of each row.
fn check_rows(rt: &impl Abort, room: &mut ReplyRoom, rows: &[Row<'_>]) {
    for (asked, told, close, text) in rows {
        assert!(rt; is_given(room, *asked, told, *close));
        assert_eq!(rt; room.bytes(), text.as_bytes());
    }
}

/// Checks the replies to writes.
fn check_writes(rt: &impl Abort, room: &mut ReplyRoom, clock: Moment) {
    let rows = [
        (
            PUT,
            Told::Write(done(1, Found::Missing, clock)),
            false,
            "HTTP/1.1 201 Created\r\nDate: Thu, 01 Jan 1970 00:01:40 GMT\r\nContent-Type: application/json\r\nContent-Length: 12\r\nCache-Control: no-store\r\nQuaestor-Commit: 1\r\n\r\n{\"commit\":1}",
        ),
        (
            PLAIN,
            Told::Write(done(1, Found::Missing, clock)),
            false,
            "HTTP/1.1 200 OK\r\nDate: Thu, 01 Jan 1970 00:01:40 GMT\r\nContent-Type: application/json\r\nContent-Length: 12\r\nCache-Control: no-store\r\nQuaestor-Commit: 1\r\n\r\n{\"commit\":1}",
        ),
        (
            PUT,
            Told::Write(done(2, Found::At(1), clock)),
            false,
            "HTTP/1.1 200 OK\r\nDate: Thu, 01 Jan 1970 00:01:40 GMT\r\nContent-Type: application/json\r\nContent-Length: 12\r\nCache-Control: no-store\r\nQuaestor-Commit: 2\r\n\r\n{\"commit\":2}",
        ),
        (
            PUT,
            Told::Write(unmet(Found::At(1), clock)),
            false,
            "HTTP/1.1 412 Precondition Failed\r\nDate: Thu, 01 Jan 1970 00:01:40 GMT\r\nContent-Type: application/json\r\nContent-Length: 34\r\nCache-Control: no-store\r\n\r\n{\"error\":\"precondition\",\"found\":1}",
        ),
        (
            PUT,
            Told::Write(unmet(Found::Missing, clock)),
            false,
            "HTTP/1.1 412 Precondition Failed\r\nDate: Thu, 01 Jan 1970 00:01:40 GMT\r\nContent-Type: application/json\r\nContent-Length: 37\r\nCache-Control: no-store\r\n\r\n{\"error\":\"precondition\",\"found\":null}",
        ),
        (
            PUT,
            Told::Write(Written::Full {
                bytes: 65_837,
                clock,
            }),
            false,
            "HTTP/1.1 507 Insufficient Storage\r\nDate: Thu, 01 Jan 1970 00:01:40 GMT\r\nContent-Type: application/json\r\nContent-Length: 36\r\nCache-Control: no-store\r\n\r\n{\"bytes\":65837,\"error\":\"store_full\"}",
        ),
    ];
    check_rows(rt, room, &rows);
}

/// Checks the replies to other calls, and where there is no memory.
fn check_other_calls(rt: &impl Abort, room: &mut ReplyRoom, clock: Moment) {
    let rows = [
        (PLAIN, Told::Read(known(5, 4, clock)), false, SAME),
        (HEAD, Told::Read(known(5, 4, clock)), false, SAME),
        (
            PLAIN,
            Told::Match(Matched { front: 2, clock }),
            false,
            "HTTP/1.1 200 OK\r\nDate: Thu, 01 Jan 1970 00:01:40 GMT\r\nContent-Type: application/json\r\nContent-Length: 11\r\nCache-Control: no-store\r\n\r\n{\"front\":2}",
        ),
        (
            PLAIN,
            Told::Dropped(Dropped { horizon: 3, clock }),
            false,
            "HTTP/1.1 200 OK\r\nDate: Thu, 01 Jan 1970 00:01:40 GMT\r\nContent-Type: application/json\r\nContent-Length: 13\r\nCache-Control: no-store\r\n\r\n{\"horizon\":3}",
        ),
        (
            PLAIN,
            Told::Count(counts(clock)),
            true,
            "HTTP/1.1 200 OK\r\nDate: Thu, 01 Jan 1970 00:01:40 GMT\r\nContent-Type: application/json\r\nContent-Length: 35\r\nCache-Control: no-store\r\nConnection: close\r\n\r\n{\"clock\":100,\"commits\":0,\"front\":0}",
        ),
        (
            PLAIN,
            Told::Memory,
            false,
            "HTTP/1.1 503 Service Unavailable\r\nContent-Type: application/json\r\nContent-Length: 18\r\nCache-Control: no-store\r\n\r\n{\"error\":\"memory\"}",
        ),
    ];
    check_rows(rt, room, &rows);
}

/// Checks the replies to what is refused.
fn check_refusals(rt: &impl Abort, room: &mut ReplyRoom, clock: Moment) {
    let rows = [
        (
            PLAIN,
            Told::Refusal(Refused::BadMethod(Allow::Record), clock),
            false,
            "HTTP/1.1 405 Method Not Allowed\r\nDate: Thu, 01 Jan 1970 00:01:40 GMT\r\nContent-Type: application/json\r\nContent-Length: 22\r\nCache-Control: no-store\r\nAllow: GET, HEAD, PUT, DELETE\r\n\r\n{\"error\":\"bad_method\"}",
        ),
        (
            PUT,
            Told::Refusal(Refused::BadMethod(Allow::Post), clock),
            false,
            "HTTP/1.1 405 Method Not Allowed\r\nDate: Thu, 01 Jan 1970 00:01:40 GMT\r\nContent-Type: application/json\r\nContent-Length: 22\r\nCache-Control: no-store\r\nAllow: POST\r\n\r\n{\"error\":\"bad_method\"}",
        ),
        (
            PLAIN,
            Told::Refusal(Refused::BadMethod(Allow::Other), clock),
            false,
            "HTTP/1.1 405 Method Not Allowed\r\nDate: Thu, 01 Jan 1970 00:01:40 GMT\r\nContent-Type: application/json\r\nContent-Length: 22\r\nCache-Control: no-store\r\nAllow: GET, HEAD\r\n\r\n{\"error\":\"bad_method\"}",
        ),
        (
            PLAIN,
            Told::Refusal(Refused::Misdirected, clock),
            false,
            "HTTP/1.1 421 Misdirected Request\r\nDate: Thu, 01 Jan 1970 00:01:40 GMT\r\nContent-Type: application/json\r\nContent-Length: 23\r\nCache-Control: no-store\r\n\r\n{\"error\":\"misdirected\"}",
        ),
        (
            HEAD,
            Told::Refusal(Refused::Misdirected, clock),
            false,
            "HTTP/1.1 421 Misdirected Request\r\nDate: Thu, 01 Jan 1970 00:01:40 GMT\r\nContent-Type: application/json\r\nContent-Length: 23\r\nCache-Control: no-store\r\n\r\n",
        ),
        (
            PUT,
            Told::Refusal(Refused::NoLength, clock),
            false,
            "HTTP/1.1 411 Length Required\r\nDate: Thu, 01 Jan 1970 00:01:40 GMT\r\nContent-Type: application/json\r\nContent-Length: 21\r\nCache-Control: no-store\r\n\r\n{\"error\":\"no_length\"}",
        ),
        (
            PUT,
            Told::Refusal(Refused::BadEncoding, clock),
            false,
            "HTTP/1.1 415 Unsupported Media Type\r\nDate: Thu, 01 Jan 1970 00:01:40 GMT\r\nContent-Type: application/json\r\nContent-Length: 24\r\nCache-Control: no-store\r\n\r\n{\"error\":\"bad_encoding\"}",
        ),
        (
            PUT,
            Told::Refusal(Refused::BadDocument(DocumentReason::NotWhole), clock),
            false,
            "HTTP/1.1 422 Unprocessable Entity\r\nDate: Thu, 01 Jan 1970 00:01:40 GMT\r\nContent-Type: application/json\r\nContent-Length: 45\r\nCache-Control: no-store\r\n\r\n{\"error\":\"bad_document\",\"reason\":\"not_whole\"}",
        ),
        (
            PLAIN,
            Told::Refusal(Refused::Framing(FramingRefusal::BodyTooLarge), clock),
            true,
            "HTTP/1.1 413 Payload Too Large\r\nDate: Thu, 01 Jan 1970 00:01:40 GMT\r\nContent-Type: application/json\r\nContent-Length: 26\r\nCache-Control: no-store\r\nConnection: close\r\n\r\n{\"error\":\"body_too_large\"}",
        ),
        (
            PLAIN,
            Told::Refusal(Refused::Framing(FramingRefusal::HeadTooLarge), clock),
            true,
            "HTTP/1.1 431 Request Header Fields Too Large\r\nDate: Thu, 01 Jan 1970 00:01:40 GMT\r\nContent-Type: application/json\r\nContent-Length: 26\r\nCache-Control: no-store\r\nConnection: close\r\n\r\n{\"error\":\"head_too_large\"}",
        ),
        (
            PLAIN,
            Told::Refusal(Refused::Framing(FramingRefusal::BadCoding), clock),
            true,
            "HTTP/1.1 501 Not Implemented\r\nDate: Thu, 01 Jan 1970 00:01:40 GMT\r\nContent-Type: application/json\r\nContent-Length: 22\r\nCache-Control: no-store\r\nConnection: close\r\n\r\n{\"error\":\"bad_coding\"}",
        ),
    ];
    check_rows(rt, room, &rows);
}

#[test]
fn replies_have_their_texts(rt: HostRuntime) -> Result<(), Fail> {
    let mut room = new_room(rt.alloc())?;
    check_writes(&rt, &mut room, Moment::of(100));
    check_other_calls(&rt, &mut room, Moment::of(100));
    check_refusals(&rt, &mut room, Moment::of(100));
    Ok(())
}

/// A document is told.
fn document(alloc: Global) -> Result<Box<Told>, Memory> {
    let text = SharedText::of(alloc, b"{\"a\":1}".to_vec(alloc)?)?;
    let told = Told::Read(Answer {
        commit: 1,
        clock: Moment::of(100),
        ttl: 3600,
        shared: 0,
        result: Outcome::Whole {
            text: ResultText::of_document(text),
            version: Some(1),
        },
    });
    Ok(Box::new(alloc, told)?)
}

/// Whether the reply to HEAD is the head alone.
fn is_head_alone(room: &mut ReplyRoom, told: &Told) -> bool {
    is_given(room, HEAD, told, false) && room.bytes() == READ.as_bytes()
}

/// Whether the reply to GET has the body of seven bytes behind it.
fn is_with_body(room: &mut ReplyRoom, told: &Told) -> bool {
    is_given(room, PLAIN, told, false) && room.bytes().len() == READ.len() + 7
}

/// Whether the text of a reply's head is printed without the body.
fn is_head_printed(room: &mut ReplyRoom, told: &Told) -> bool {
    reply_text(&PLAIN.shape(), told, b"", false, room) == READ.len()
        && room.bytes() == READ.as_bytes()
}

/// Whether the body could be given.
fn is_body_given(told: &Told) -> bool {
    write_body(&PLAIN.shape(), told, b"", &mut EndlessSink).is_ok()
}

#[test]
fn head_is_answered_without_the_body(rt: HostRuntime) -> Result<(), Fail> {
    let mut room = new_room(rt.alloc())?;
    let told = document(rt.alloc())?;
    assert!(rt; is_head_alone(&mut room, &told) && is_with_body(&mut room, &told));
    assert!(rt; is_head_printed(&mut room, &told) && is_body_given(&told));
    Ok(())
}

/// Whether the head for an unchanged result has its text.
fn is_unchanged_printed(room: &mut ReplyRoom) -> bool {
    let unchanged = Head {
        media: None,
        length: None,
        tag: Some(1),
        ttl: 60,
        ..Head::json(StatusCode::NOT_MODIFIED, 0, false)
    };
    room.write_head(&unchanged, Moment::of(100));
    room.bytes() == UNCHANGED
}

/// A body of two parts.
fn two_parts(alloc: Global) -> Result<Box<Parts>, Memory> {
    let mut parts = Vec::new(alloc);
    parts.push(Text::of(b"{\"error\":".to_vec(alloc)?))?;
    parts.push(Text::of(b"\"origin\"}".to_vec(alloc)?))?;
    Ok(Box::new(alloc, Parts { parts })?)
}

/// Whether a reply with a body in parts has the text of its head.
fn is_given_in_parts(room: &mut ReplyRoom, body: &Parts) -> bool {
    let head = Head::json(StatusCode::BAD_GATEWAY, 18, true);
    give_pieces(&mut EndlessSink, room, &head, Moment::of(100), body, false).is_ok()
        && room.bytes() == BAD_GATEWAY
}

#[test]
fn a_head_of_any_status_is_printed(rt: HostRuntime) -> Result<(), Fail> {
    let mut room = new_room(rt.alloc())?;
    assert!(rt; is_unchanged_printed(&mut room));
    let body = two_parts(rt.alloc())?;
    assert!(rt; is_given_in_parts(&mut room, &body));
    Ok(())
}

/// A read of a result that the caller knows, for a minute, and for an hour in a shared cache, so that it is
/// told until then.
fn shared(clock: Moment) -> Answer {
    Answer {
        shared: 3_600,
        ..known(5, 4, clock)
    }
}

/// The reply to such a read.
const SHARED: &str =
    "HTTP/1.1 304 Not Modified\r\nDate: Thu, 01 Jan 1970 00:01:40 GMT\r\nETag: \"5\"\r\nCache-Control: public, max-age=60, s-maxage=3600\r\nQuaestor-Commit: 7\r\nQuaestor-Version: 4\r\nQuaestor-Until: 3700\r\n\r\n";

#[test]
fn a_lifetime_for_shared_caches_is_told_beside_the_other(rt: HostRuntime) -> Result<(), Fail> {
    let mut room = new_room(rt.alloc())?;
    let rows = [(PLAIN, Told::Read(shared(Moment::of(100))), false, SHARED)];
    check_rows(&rt, &mut room, &rows);
    Ok(())
}

/// What a reply tells, the target of its request, and what is noted of it.
type Noted<'a> = (Told, &'a [u8], u16, bool, &'a str);

/// Checks what is noted of each row.
fn check_notes(rt: &impl Abort, rows: &[Noted<'_>]) {
    for (told, target, status, is_copy, why) in rows {
        let note: Note<'_> = note_of(&PLAIN.shape(), told, b"GET", target);
        assert_eq!(rt; note.status, *status);
        assert_eq!(rt; note.is_copy, *is_copy);
        assert_eq!(rt; note.why, *why);
        assert_eq!(rt; note.target, *target);
    }
}

/// The refusal of a target.
fn bad_target(clock: Moment) -> Told {
    Told::Refusal(Refused::BadTarget, clock)
}

#[test]
fn a_note_says_which_part_of_a_target_is_bad(rt: HostRuntime) -> Result<(), Fail> {
    let clock = Moment::of(100);
    let rows: [Noted<'_>; 9] = [
        (bad_target(clock), b"*", 400, false, "target"),
        (
            bad_target(clock),
            b"/v1/d/Shop/p1",
            400,
            false,
            "collection",
        ),
        (bad_target(clock), b"/v1/d/shop/P1", 400, false, "id"),
        (bad_target(clock), b"/v1/d/shop/p1?x", 400, false, "query"),
        (
            bad_target(clock),
            b"/v1/q/Shop?n=1",
            400,
            false,
            "collection",
        ),
        (
            bad_target(clock),
            b"/v1/q/shop?f=a&o=&f=",
            400,
            false,
            "field f twice",
        ),
        (
            bad_target(clock),
            b"/v1/q/shop?g=a",
            400,
            false,
            "unknown field",
        ),
        (bad_target(clock), b"/v1/purges?from=0", 400, false, "from"),
        (
            bad_target(clock),
            b"/v1/purges?from=1&from=2",
            400,
            false,
            "field from twice",
        ),
    ];
    check_notes(&rt, &rows);
    Ok(())
}

#[test]
fn a_note_says_why_a_request_is_not_served(rt: HostRuntime) -> Result<(), Fail> {
    let clock = Moment::of(100);
    let target = b"/v1/d/shop/p1".as_slice();
    let rows: [Noted<'_>; 8] = [
        (Told::Read(known(5, 4, clock)), target, 304, true, ""),
        (
            Told::Read(Answer {
                ttl: 0,
                ..known(5, 4, clock)
            }),
            target,
            304,
            false,
            "",
        ),
        (Told::Memory, target, 503, false, "memory"),
        (Told::Unkept, target, 503, false, "unkept"),
        (
            Told::Refusal(Refused::NoRoute, clock),
            target,
            404,
            false,
            "path",
        ),
        (
            Told::Refusal(Refused::Misdirected, clock),
            target,
            421,
            false,
            "host not named",
        ),
        (
            Told::Refusal(Refused::BadMethod(Allow::Record), clock),
            target,
            405,
            false,
            "method",
        ),
        (
            Told::Write(unmet(Found::Missing, clock)),
            target,
            412,
            false,
            "precondition",
        ),
    ];
    check_notes(&rt, &rows);
    Ok(())
}
