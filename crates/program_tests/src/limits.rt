//! Requests that reach a limit, and those that go one beyond it.

use crate::calls::{AMPLE, WHOLE, calls_of, pipe_over, run_over};
use crate::texts::{all_of, joined, repeated};
use itoa::Buffer;
use q_base::Memory;
use quaestor_prog::Status;
use std::alloc::Global;
use std::rt;
use std::sync::Wait;
use std::test::Fail;
use std::thread::Threads;

/// How a reply begins, and how it ends.
type Refusal = (&'static [u8], &'static [u8]);

/// What is limited; what stands ahead of the parts of a text, a part, what stands behind the parts, a
/// closing for each, and what stands behind these; how many parts there may be; how one more is refused.
type Limit = (&'static str, [&'static [u8]; 5], usize, Refusal);

const BAD_REQUEST: &[u8] = b"HTTP/1.1 400 Bad Request\r\n";

const HEAD_TOO_LARGE: Refusal = (
    b"HTTP/1.1 431 Request Header Fields Too Large\r\n",
    b"\r\nConnection: close\r\n\r\n{\"error\":\"head_too_large\"}",
);

const BAD_LENGTH: Refusal = (
    BAD_REQUEST,
    b"\r\nConnection: close\r\n\r\n{\"error\":\"bad_length\"}",
);

const BODY_TOO_LARGE: Refusal = (
    b"HTTP/1.1 413 Payload Too Large\r\n",
    b"\r\nConnection: close\r\n\r\n{\"error\":\"body_too_large\"}",
);

const TOO_DEEP: Refusal = (
    b"HTTP/1.1 422 Unprocessable Entity\r\n",
    b"no-store\r\n\r\n{\"error\":\"bad_document\",\"reason\":\"too_deep\"}",
);

const BAD_TARGET: Refusal = (BAD_REQUEST, b"no-store\r\n\r\n{\"error\":\"bad_target\"}");

const TOO_MANY: Refusal = (
    BAD_REQUEST,
    b"{\"error\":\"bad_filter\",\"field\":\"f\",\"place\":257,\"reason\":\"too_many\"}",
);

const BAD_TAKE: Refusal = (
    BAD_REQUEST,
    b"{\"error\":\"bad_filter\",\"field\":\"n\",\"place\":0,\"reason\":\"bad_number\"}",
);

/// The numbers of the store are asked for, up to further fields.
const STATS: &[u8] = b"GET /v1/stats HTTP/1.1\r\nHost: a\r\n";

/// A document is put under a name that follows, up to the name; and what follows it.
const PUT_UNDER: &[u8] = b"PUT /v1/d/shop/";

const BODY: &[u8] = b" HTTP/1.1\r\nHost: a\r\nContent-Length: 2\r\n\r\n{}";

/// A put whose body is chunked, up to the extension of its first chunk; and up to the value of a trailer.
const CHUNK_LINE: &[u8] =
    b"PUT /v1/d/shop/p1 HTTP/1.1\r\nHost: a\r\nTransfer-Encoding: chunked\r\n\r\n7;";

const TRAILER: &[u8] =
    b"PUT /v1/d/shop/p1 HTTP/1.1\r\nHost: a\r\nTransfer-Encoding: chunked\r\n\r\n7\r\n{\"a\":1}\r\n0\r\na:";

/// A query is read by a filter that follows.
const FILTER: &[u8] = b"GET /v1/q/shop?f=";

/// What is behind the target of a read.
const END: &[u8] = b" HTTP/1.1\r\nHost: a\r\n\r\n";

const REQUESTS: &[Limit] = &[
    (
        "the bytes of a head",
        [
            b"GET /v1/stats HTTP/1.1\r\nHost: ",
            b"a",
            b"\r\n\r\n",
            b"",
            b"",
        ],
        16_350,
        HEAD_TOO_LARGE,
    ),
    (
        "the bytes of a head, most of them in its target",
        [FILTER, b"+", b"true", b"", END],
        16_341,
        HEAD_TOO_LARGE,
    ),
    (
        "the bytes of a head and of the empty lines ahead of it",
        [b"", b"\n", STATS, b"", b"\r\n"],
        16_349,
        HEAD_TOO_LARGE,
    ),
    (
        "the fields of a head, beside Host",
        [STATS, b"a: b\r\n", b"\r\n", b"", b""],
        63,
        HEAD_TOO_LARGE,
    ),
    (
        "the bytes of a chunk line, beside its first two and its end",
        [CHUNK_LINE, b"e", b"\r\n{\"a\":1}\r\n0\r\n\r\n", b"", b""],
        4_092,
        BAD_LENGTH,
    ),
    (
        "the bytes of trailers, beside a name and their end",
        [TRAILER, b"b", b"\r\n\r\n", b"", b""],
        4_090,
        BAD_LENGTH,
    ),
    (
        "the letters of an id",
        [PUT_UNDER, b"a", BODY, b"", b""],
        64,
        BAD_TARGET,
    ),
    (
        "the letters of a collection",
        [b"PUT /v1/d/", b"a", b"/p1", b"", BODY],
        64,
        BAD_TARGET,
    ),
    (
        "the values of a list, beside the first",
        [b"GET /v1/q/shop?f=a+in+%5B0", b",0", b"%5D", b"", END],
        254,
        TOO_MANY,
    ),
    (
        "the operands of a condition, beside the first",
        [b"GET /v1/q/shop?f=true", b"+or+true", b"", b"", END],
        255,
        TOO_MANY,
    ),
    (
        "the height of a filter, above its atom",
        [FILTER, b"not+", b"true", b"", END],
        31,
        (
            BAD_REQUEST,
            b"{\"error\":\"bad_filter\",\"field\":\"f\",\"place\":33,\"reason\":\"too_deep\"}",
        ),
    ),
    (
        "the open parentheses",
        [FILTER, b"(", b"true", b")", END],
        64,
        (
            BAD_REQUEST,
            b"{\"error\":\"bad_filter\",\"field\":\"f\",\"place\":64,\"reason\":\"too_nested\"}",
        ),
    ),
    (
        "the segments of a path, beside the first",
        [b"GET /v1/q/shop?f=exists+a", b".a", b"", b"", END],
        7,
        (
            BAD_REQUEST,
            b"{\"error\":\"bad_filter\",\"field\":\"f\",\"place\":23,\"reason\":\"syntax\"}",
        ),
    ),
    (
        "the paths of an order, beside the first",
        [b"GET /v1/q/shop?o=a", b",a", b"", b"", END],
        3,
        (
            BAD_REQUEST,
            b"{\"error\":\"bad_filter\",\"field\":\"o\",\"place\":8,\"reason\":\"too_many_paths\"}",
        ),
    ),
];

const DOCUMENTS: &[Limit] = &[
    (
        "the bytes of a document, beside those of an object with one text",
        [b"{\"a\":\"", b"x", b"\"}", b"", b""],
        65_528,
        BODY_TOO_LARGE,
    ),
    (
        "the depth of a document, beside the innermost object",
        [b"", b"{\"a\":", b"{}", b"}", b""],
        31,
        TOO_DEEP,
    ),
];

/// Targets with a number at its limit, with one beyond it, and how this is refused.
const NUMBERS: &[(&[u8], &[u8], Refusal)] = &[
    (
        b"/v1/q/shop?s=10000",
        b"/v1/q/shop?s=10001",
        (
            BAD_REQUEST,
            b"{\"error\":\"bad_filter\",\"field\":\"s\",\"place\":0,\"reason\":\"bad_number\"}",
        ),
    ),
    (b"/v1/q/shop?n=1", b"/v1/q/shop?n=0", BAD_TAKE),
    (b"/v1/q/shop?n=1000", b"/v1/q/shop?n=1001", BAD_TAKE),
    (b"/v1/purges?from=1", b"/v1/purges?from=0", BAD_TARGET),
    (
        b"/v1/purges?from=9223372036854775808",
        b"/v1/purges?from=9223372036854775809",
        BAD_TARGET,
    ),
];

/// The text with so many parts.
fn text_of(alloc: Global, texts: &[&[u8]; 5], parts: usize) -> Result<Vec<u8>, Memory> {
    let [ahead, part, between, closing, behind] = texts;
    let many = repeated(alloc, part, parts)?;
    let closings = repeated(alloc, closing, parts)?;
    all_of(alloc, &[ahead, &many, between, &closings, behind])
}

/// A document with a text of so many letters.
fn filled(alloc: Global, letters: usize) -> Result<Vec<u8>, Memory> {
    let text = repeated(alloc, b"x", letters)?;
    all_of(alloc, &[b"{\"a\":\"", &text, b"\"}"])
}

/// A put of this document.
fn put_of(alloc: Global, document: &[u8]) -> Result<Vec<u8>, Memory> {
    let mut digits = Buffer::new();
    let length = digits.format(document.len()).as_bytes();
    all_of(
        alloc,
        &[
            b"PUT /v1/d/shop/p1 HTTP/1.1\r\nHost: a\r\nContent-Length: ",
            length,
            b"\r\n\r\n",
            document,
        ],
    )
}

/// Whether a request is served, and another one refused so.
fn is_kept<R: Threads + Wait + rt::Clock + Copy + Send + AllocGlobal + 'static>(
    rt: &R,
    within: &[u8],
    beyond: &[u8],
    refusal: Refusal,
) -> Result<bool, Memory> {
    let all = calls_of(WHOLE);
    let served = pipe_over(rt, within, all, AMPLE, all)?;
    let refused = pipe_over(rt, beyond, all, AMPLE, all)?;
    Ok(
        served.status == Status::Done
            && served.written.starts_with(b"HTTP/1.1 20")
            && refused.written.starts_with(refusal.0)
            && refused.written.ends_with(refusal.1),
    )
}

#[test]
fn a_request_is_served_up_to_each_limit(rt: HostRuntime) -> Result<(), Fail> {
    let alloc = rt.alloc();
    for (name, texts, most, refusal) in REQUESTS {
        let within = text_of(alloc, texts, *most)?;
        let beyond = text_of(alloc, texts, most.saturating_add(1))?;
        assert!(rt; is_kept(&rt, &within, &beyond, *refusal)?, "{name}");
    }
    for (within, beyond, refusal) in NUMBERS {
        let within = all_of(alloc, &[b"GET ", within, END])?;
        let beyond = all_of(alloc, &[b"GET ", beyond, END])?;
        assert!(rt; is_kept(&rt, &within, &beyond, *refusal)?);
    }
    Ok(())
}

#[test]
fn a_document_is_stored_up_to_each_limit(rt: HostRuntime) -> Result<(), Fail> {
    let alloc = rt.alloc();
    for (name, texts, most, refusal) in DOCUMENTS {
        let within = put_of(alloc, &text_of(alloc, texts, *most)?)?;
        let beyond = put_of(alloc, &text_of(alloc, texts, most.saturating_add(1))?)?;
        assert!(rt; is_kept(&rt, &within, &beyond, *refusal)?, "{name}");
    }
    Ok(())
}

/// A document costs 70 bytes more than it has, and these two cost the least capacity, or one more.
#[test]
fn documents_are_stored_up_to_the_capacity(rt: HostRuntime) -> Result<(), Fail> {
    let alloc = rt.alloc();
    let longest = put_of(alloc, &filled(alloc, 65_528)?)?;
    let rows: [(usize, &[u8]); 2] = [
        (108, b"\r\nQuaestor-Commit: 2\r\n\r\n{\"commit\":2}"),
        (109, b"\r\n\r\n{\"bytes\":65793,\"error\":\"store_full\"}"),
    ];
    for (letters, end) in rows {
        let other = put_of(alloc, &filled(alloc, letters)?)?;
        let input = joined(alloc, &longest, &other)?;
        let all = calls_of(WHOLE);
        let outcome = run_over(&rt, &["pipe", "--bytes", "65792"], &input, all, AMPLE, all)?;
        assert_eq!(rt; outcome.status, Status::Done, "of {letters}");
        assert!(rt; outcome.written.ends_with(end), "of {letters}");
    }
    Ok(())
}
