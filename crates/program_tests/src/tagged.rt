//! Reads whose client says which results it has.

use crate::calls::{AMPLE, WHOLE, assert_run, calls_of, pipe_over};
use crate::texts::all_of;
use crate::worked::{PUT, STORED};
use q_base::Memory;
use quaestor_prog::Status;
use std::alloc::Global;
use std::test::Fail;

/// A document is put under another name.
const PUT_ELSEWHERE: &[u8] =
    b"PUT /v1/d/shop/p2 HTTP/1.1\r\nHost: a\r\nContent-Length: 2\r\n\r\n{}";

/// What a reply to a write begins with, behind its first line, ahead of its commit.
const WRITTEN: &[u8] =
    b"\r\nDate: Thu, 01 Jan 1970 00:01:40 GMT\r\nContent-Type: application/json\r\nContent-Length: 12\r\nCache-Control: no-store\r\nQuaestor-Commit: ";

/// Ahead of the tag by which a client has the document.
const NOT_MODIFIED: &[u8] =
    b"HTTP/1.1 304 Not Modified\r\nDate: Thu, 01 Jan 1970 00:01:40 GMT\r\nETag: \"";

/// Ahead of the tag of the whole document.
const OK: &[u8] =
    b"HTTP/1.1 200 OK\r\nDate: Thu, 01 Jan 1970 00:01:40 GMT\r\nContent-Type: application/json\r\nContent-Length: 7\r\nETag: \"";

/// Behind the tag of a read at commit 4 of the document that commit 3 put.
const READ: &[u8] =
    b"\"\r\nCache-Control: max-age=1\r\nQuaestor-Commit: 4\r\nQuaestor-Version: 3\r\nQuaestor-Until: 101\r\n\r\n";

/// The reply to a read of a record without a document.
const ABSENT: &[u8] =
    b"HTTP/1.1 404 Not Found\r\nDate: Thu, 01 Jan 1970 00:01:40 GMT\r\nContent-Type: application/json\r\nContent-Length: 18\r\nCache-Control: max-age=3600\r\nQuaestor-Commit: 4\r\nQuaestor-Until: 3700\r\n\r\n{\"error\":\"absent\"}";

/// The reply to the write that is this commit, whose first line ends so.
fn written_by(alloc: Global, line: &[u8], commit: &[u8]) -> Result<Vec<u8>, Memory> {
    all_of(
        alloc,
        &[
            b"HTTP/1.1 ",
            line,
            WRITTEN,
            commit,
            b"\r\n\r\n{\"commit\":",
            commit,
            b"}",
        ],
    )
}

/// The reply to a read whose client has the document by this tag, or does not have it.
fn reply_to(alloc: Global, method: &[u8], tag: Option<&[u8]>) -> Result<Vec<u8>, Memory> {
    match tag {
        Some(tag) => all_of(alloc, &[NOT_MODIFIED, tag, READ]),
        None if method.starts_with(b"HEAD") => all_of(alloc, &[OK, b"4", READ]),
        None => all_of(alloc, &[OK, b"4", READ, b"{\"a\":1}"]),
    }
}

/// Commits 1 and 3 put the same document under p1, and 2 and 4 one under p2.
#[test]
fn a_read_is_answered_by_what_its_client_has(rt: HostRuntime) -> Result<(), Fail> {
    // The method, its fields, and the tag of a reply without the document.
    let rows: [(&[u8], &[u8], Option<&[u8]>); 20] = [
        (b"GET", b"", None),
        (b"GET", b"If-None-Match: \"3\"\r\n", Some(b"3")),
        (b"GET", b"If-None-Match: \"4\"\r\n", Some(b"4")),
        (b"GET", b"If-None-Match: W/\"3\"\r\n", Some(b"3")),
        (b"GET", b"If-None-Match: *\r\n", Some(b"4")),
        (b"HEAD", b"If-None-Match: \"3\"\r\n", Some(b"3")),
        (b"HEAD", b"If-None-Match: *\r\n", Some(b"4")),
        (b"HEAD", b"If-None-Match: \"2\"\r\n", None),
        // an equal document that was put earlier is another version
        (b"GET", b"If-None-Match: \"1\", \"2\"\r\n", None),
        // a commit that is not there yet
        (b"GET", b"If-None-Match: \"5\"\r\n", None),
        (b"GET", b"If-None-Match: \"0\"\r\n", None),
        // tags that name no commit
        (
            b"GET",
            b"If-None-Match: \"03\", \"x\", \"\", W/\"3a\"\r\n",
            None,
        ),
        // the greatest that is still good
        (
            b"GET",
            b"If-None-Match: \"3\" , \"5\",, W/\"4\",\"1\"\r\n",
            Some(b"4"),
        ),
        (
            b"GET",
            b"If-None-Match: \"5\", \"3\", \"2\"\r\n",
            Some(b"3"),
        ),
        // one list in several fields
        (
            b"GET",
            b"If-None-Match: \"1\"\r\nif-none-match: \"3\"\r\n",
            Some(b"3"),
        ),
        // the first 16 that name a commit
        (
            b"GET",
            b"If-None-Match: \"x\",\"1\",\"1\",\"1\",\"1\",\"1\",\"1\",\"1\",\"1\",\"1\",\"1\",\"1\",\"1\",\"1\",\"1\",\"1\",\"3\",\"4\"\r\n",
            Some(b"3"),
        ),
        (
            b"GET",
            b"If-None-Match: \"1\",\"1\",\"1\",\"1\",\"1\",\"1\",\"1\",\"1\",\"1\",\"1\",\"1\",\"1\",\"1\",\"1\",\"1\",\"1\",\"3\"\r\n",
            None,
        ),
        // If-Match has no effect
        (b"GET", b"If-Match: \"1\"\r\n", None),
        (
            b"GET",
            b"If-Match: \"9\"\r\nIf-None-Match: \"3\"\r\n",
            Some(b"3"),
        ),
        (b"GET", b"If-None-Match:\r\n", None),
    ];
    let alloc = rt.alloc();
    let mut input = all_of(alloc, &[PUT, PUT_ELSEWHERE, PUT, PUT_ELSEWHERE])?;
    let mut replies = all_of(alloc, &[STORED])?;
    replies.extend_from_slice(&written_by(alloc, b"201 Created", b"2")?)?;
    replies.extend_from_slice(&written_by(alloc, b"200 OK", b"3")?)?;
    replies.extend_from_slice(&written_by(alloc, b"200 OK", b"4")?)?;
    for (method, fields, tag) in rows {
        let begin = [method, b" /v1/d/shop/p1 HTTP/1.1\r\nHost: a\r\n", fields];
        input.extend_from_slice(&all_of(alloc, &begin)?)?;
        input.extend_from_slice(b"\r\n")?;
        replies.extend_from_slice(&reply_to(alloc, method, tag)?)?;
    }
    // nothing is never told as known
    input.extend_from_slice(
        b"GET /v1/d/shop/p3 HTTP/1.1\r\nHost: a\r\nIf-None-Match: *\r\n\r\nGET /v1/d/shop/p3 HTTP/1.1\r\nHost: a\r\nIf-None-Match: \"0\", \"4\"\r\n\r\n",
    )?;
    replies.extend_from_slice(&all_of(alloc, &[ABSENT, ABSENT])?)?;
    let outcome = pipe_over(&rt, &input, calls_of(WHOLE), AMPLE, calls_of(WHOLE))?;
    assert_run(&rt, &outcome, Status::Done, &replies, 0);
    Ok(())
}
