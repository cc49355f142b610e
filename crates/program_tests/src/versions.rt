//! A record is read and written by the commits that a client knows.

use crate::calls::{AMPLE, WHOLE, assert_run, calls_of, run_over};
use crate::texts::{Row, reply_of};
use crate::worked::{MINUTE, NO_STORE, PUT};
use quaestor_prog::Status;
use std::alloc::Global;
use std::test::Fail;

/// A document is put under another name.
const PUT_ELSEWHERE: &[u8] =
    b"PUT /v1/d/shop/p2 HTTP/1.1\r\nHost: a\r\nContent-Length: 7\r\n\r\n{\"a\":1}";

/// How the reply to a write of a new record begins, and to one of a record that there is.
const CREATED: &[u8] = b"HTTP/1.1 201 Created";

const OK: &[u8] = b"HTTP/1.1 200 OK";

/// Commits 1 and 4 put p1, and the others p2.
const WRITES: [Row<'static>; 7] = [
    (
        PUT,
        CREATED,
        b"Cache-Control: no-store\r\nQuaestor-Commit: 1\r\n",
        b"{\"commit\":1}",
    ),
    (
        PUT_ELSEWHERE,
        CREATED,
        b"Cache-Control: no-store\r\nQuaestor-Commit: 2\r\n",
        b"{\"commit\":2}",
    ),
    (
        PUT_ELSEWHERE,
        OK,
        b"Cache-Control: no-store\r\nQuaestor-Commit: 3\r\n",
        b"{\"commit\":3}",
    ),
    (
        PUT,
        OK,
        b"Cache-Control: no-store\r\nQuaestor-Commit: 4\r\n",
        b"{\"commit\":4}",
    ),
    (
        PUT_ELSEWHERE,
        OK,
        b"Cache-Control: no-store\r\nQuaestor-Commit: 5\r\n",
        b"{\"commit\":5}",
    ),
    (
        PUT_ELSEWHERE,
        OK,
        b"Cache-Control: no-store\r\nQuaestor-Commit: 6\r\n",
        b"{\"commit\":6}",
    ),
    (
        PUT_ELSEWHERE,
        OK,
        b"Cache-Control: no-store\r\nQuaestor-Commit: 7\r\n",
        b"{\"commit\":7}",
    ),
];

/// p1 is read by a client that knows the results at 3 and 5.
const READ: &[u8] =
    b"GET /v1/d/shop/p1 HTTP/1.1\r\nHost: a\r\nIf-None-Match: \"3\", W/\"5\"\r\n\r\n";

/// The reply to it.
const NOT_MODIFIED: &[u8] =
    b"HTTP/1.1 304 Not Modified\r\nDate: Thu, 01 Jan 1970 00:01:40 GMT\r\nETag: \"5\"\r\nCache-Control: max-age=60\r\nQuaestor-Commit: 7\r\nQuaestor-Version: 4\r\nQuaestor-Until: 160\r\n\r\n";

/// Behind it, p1 is written by a client that knows an older document, and by one that knows this one; and a
/// record is read that there is not.
const LAST: [Row<'static>; 3] = [
    (
        b"PUT /v1/d/shop/p1 HTTP/1.1\r\nHost: a\r\nIf-Match: \"3\"\r\nContent-Length: 7\r\n\r\n{\"a\":2}",
        b"HTTP/1.1 412 Precondition Failed",
        NO_STORE,
        b"{\"error\":\"precondition\",\"found\":4}",
    ),
    (
        b"PUT /v1/d/shop/p1 HTTP/1.1\r\nHost: a\r\nIf-Match: \"5\"\r\nContent-Length: 7\r\n\r\n{\"a\":2}",
        OK,
        b"Cache-Control: no-store\r\nQuaestor-Commit: 8\r\n",
        b"{\"commit\":8}",
    ),
    (
        b"GET /v1/d/shop/p9 HTTP/1.1\r\nHost: a\r\nIf-None-Match: \"5\"\r\n\r\n",
        b"HTTP/1.1 404 Not Found",
        b"Cache-Control: max-age=60\r\nQuaestor-Commit: 8\r\nQuaestor-Until: 160\r\n",
        b"{\"error\":\"absent\"}",
    ),
];

/// Puts the requests of rows, and their replies, behind what is asked and what is to come out.
fn ask(
    alloc: Global,
    rows: &[Row<'static>],
    input: &mut Vec<u8>,
    replies: &mut Vec<u8>,
) -> Result<(), Fail> {
    for row in rows {
        input.extend_from_slice(row.0)?;
        replies.extend_from_slice(&reply_of(alloc, row)?)?;
    }
    Ok(())
}

#[test]
fn a_record_is_read_and_written_by_what_is_known_of_it(rt: HostRuntime) -> Result<(), Fail> {
    let alloc = rt.alloc();
    let mut input = Vec::new(alloc);
    let mut replies = Vec::new(alloc);
    ask(alloc, &WRITES, &mut input, &mut replies)?;
    input.extend_from_slice(READ)?;
    replies.extend_from_slice(NOT_MODIFIED)?;
    ask(alloc, &LAST, &mut input, &mut replies)?;
    let all = calls_of(WHOLE);
    let outcome = run_over(&rt, &MINUTE, &input, all, AMPLE, all)?;
    assert_run(&rt, &outcome, Status::Done, &replies, 0);
    Ok(())
}
