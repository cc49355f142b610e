//! What one command line says of lifetimes, of absent records and of hosts, in one conversation.

use crate::calls::{AMPLE, WHOLE, assert_run, calls_of, run_over};
use crate::texts::{Row, reply_of};
use crate::worked::NO_STORE;
use quaestor_prog::Status;
use std::test::Fail;

/// Of eight places two may be of absent records, whose copies may be kept for half a minute. Shared caches
/// may keep all copies for longer.
const WORDS: [&str; 15] = [
    "pipe",
    "--clock",
    "100",
    "--ttl-low",
    "60",
    "--ttl-high",
    "60",
    "--active",
    "8",
    "--ttl-absent",
    "30",
    "--ttl-shared",
    "90",
    "--host",
    "a b:8080",
];

/// How the reply begins to a read of an absent record.
const MISSING: &[u8] = b"HTTP/1.1 404 Not Found";

/// The fields of one that may be kept.
const KEPT: &[u8] =
    b"Cache-Control: public, max-age=30, s-maxage=90\r\nQuaestor-Commit: 0\r\nQuaestor-Until: 190\r\n";

const ABSENT: &[u8] = b"{\"error\":\"absent\"}";

/// Three absent records are read, one of them twice, and then a document is put and read.
const ROWS: [Row<'static>; 7] = [
    (
        b"GET /v1/d/shop/n1 HTTP/1.1\r\nHost: a\r\n\r\n",
        MISSING,
        KEPT,
        ABSENT,
    ),
    (
        b"GET /v1/d/shop/n2 HTTP/1.1\r\nHost: b:8080\r\n\r\n",
        MISSING,
        KEPT,
        ABSENT,
    ),
    (
        b"GET /v1/d/shop/n3 HTTP/1.1\r\nHost: A:80\r\n\r\n",
        MISSING,
        b"Cache-Control: no-store\r\nQuaestor-Commit: 0\r\nQuaestor-Until: 100\r\n",
        ABSENT,
    ),
    (
        b"GET /v1/d/shop/n1 HTTP/1.1\r\nHost: a\r\n\r\n",
        MISSING,
        KEPT,
        ABSENT,
    ),
    (
        b"PUT /v1/d/shop/p1 HTTP/1.1\r\nHost: b\r\nContent-Length: 7\r\n\r\n{\"a\":1}",
        b"HTTP/1.1 421 Misdirected Request",
        NO_STORE,
        b"{\"error\":\"misdirected\"}",
    ),
    (
        b"PUT /v1/d/shop/p1 HTTP/1.1\r\nHost: a\r\nContent-Length: 7\r\n\r\n{\"a\":1}",
        b"HTTP/1.1 201 Created",
        b"Cache-Control: no-store\r\nQuaestor-Commit: 1\r\n",
        b"{\"commit\":1}",
    ),
    (
        b"GET /v1/d/shop/p1 HTTP/1.1\r\nHost: a\r\n\r\n",
        b"HTTP/1.1 200 OK",
        b"ETag: \"1\"\r\nCache-Control: public, max-age=60, s-maxage=90\r\nQuaestor-Commit: 1\r\nQuaestor-Version: 1\r\nQuaestor-Until: 190\r\n",
        b"{\"a\":1}",
    ),
];

#[test]
fn absent_records_have_a_quarter_of_the_places(rt: HostRuntime) -> Result<(), Fail> {
    let alloc = rt.alloc();
    let mut input = Vec::new(alloc);
    let mut replies = Vec::new(alloc);
    for row in &ROWS {
        input.extend_from_slice(row.0)?;
        replies.extend_from_slice(&reply_of(alloc, row)?)?;
    }
    let all = calls_of(WHOLE);
    let outcome = run_over(&rt, &WORDS, &input, all, AMPLE, all)?;
    assert_run(&rt, &outcome, Status::Done, &replies, 0);
    Ok(())
}
