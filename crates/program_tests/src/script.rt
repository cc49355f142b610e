//! One connection with a request of each kind: its bytes, and what is written once so many were taken.

use crate::calls::{Calls, Outcome, run_over};
use crate::texts::joined;
use crate::worked::{
    CONTINUE, FILTER, FOUND, GET, MATCH, PURGES, PUT, SMALL_PAGE_HEAD, STORED, STORED_AGAIN,
};
use q_base::Memory;
use std::alloc::Global;
use std::rt;
use std::sync::Wait;
use std::thread::Threads;

/// The clock stands at 100, and a page has 1,024 bits.
const WORDS: [&str; 5] = ["pipe", "--clock", "100", "--bits", "10"];

/// The names of the documents are read whose field is 1.
const QUERY: &[u8] = b"GET /v1/q/shop?f=a%20%3D%201&k=ids HTTP/1.1\r\nHost: a\r\n\r\n";

/// The reply to it, where p1 is the one.
const LISTED: &[u8] =
    b"HTTP/1.1 200 OK\r\nDate: Thu, 01 Jan 1970 00:01:40 GMT\r\nContent-Type: application/json\r\nContent-Length: 6\r\nETag: \"1\"\r\nCache-Control: max-age=1\r\nQuaestor-Commit: 1\r\nQuaestor-Until: 101\r\n\r\n[\"p1\"]";

/// The reply to the match of one commit.
const MATCHED: &[u8] =
    b"HTTP/1.1 200 OK\r\nDate: Thu, 01 Jan 1970 00:01:40 GMT\r\nContent-Type: application/json\r\nContent-Length: 11\r\nCache-Control: no-store\r\n\r\n{\"front\":1}";

/// The reply to the list of purges, of which there are none.
const NO_PURGES: &[u8] =
    b"HTTP/1.1 200 OK\r\nDate: Thu, 01 Jan 1970 00:01:40 GMT\r\nContent-Type: application/json\r\nContent-Length: 39\r\nCache-Control: no-store\r\n\r\n{\"from\":1,\"front\":1,\"keys\":[],\"last\":0}";

/// The head of a put whose body is chunked, and that body.
const CHUNKED_HEAD: &[u8] =
    b"PUT /v1/d/shop/p1 HTTP/1.1\r\nHost: a\r\nTransfer-Encoding: chunked\r\nExpect: 100-continue\r\n\r\n";

const CHUNKS: &[u8] = b"7\r\n{\"a\":1}\r\n0\r\n\r\n";

/// Bytes that are taken, and what is written once they were.
type Step<'a> = (&'a [u8], &'a [u8]);

/// The steps of the connection. A request ends with each but the head that is not the last.
pub(crate) fn steps_of(page: &[u8]) -> [Step<'_>; 8] {
    [
        (PUT, STORED),
        (GET, FOUND),
        (QUERY, LISTED),
        (MATCH, MATCHED),
        (FILTER, page),
        (PURGES, NO_PURGES),
        (CHUNKED_HEAD, CONTINUE),
        (CHUNKS, STORED_AGAIN),
    ]
}

/// The reply to the fetch: a page without bits, behind the match of one commit.
pub(crate) fn empty_page(alloc: Global) -> Result<Vec<u8>, Memory> {
    let mut reply = joined(alloc, SMALL_PAGE_HEAD, b"QSF1\x06\x0a")?;
    for number in [1, 1, 100] {
        reply.extend_from_slice(&[0, 0, 0, 0, 0, 0, 0, number])?;
    }
    reply.extend_from_slice(&[0; 128])?;
    Ok(reply)
}

/// All bytes of the steps.
pub(crate) fn input_of(alloc: Global, steps: &[Step<'_>]) -> Result<Vec<u8>, Memory> {
    let mut input = Vec::new(alloc);
    for (bytes, _) in steps {
        input.extend_from_slice(bytes)?;
    }
    Ok(input)
}

/// What is written once so many bytes were taken.
pub(crate) fn replies_of(
    alloc: Global,
    steps: &[Step<'_>],
    taken: usize,
) -> Result<Vec<u8>, Memory> {
    let mut replies = Vec::new(alloc);
    let mut left = taken;
    for (bytes, text) in steps {
        if left < bytes.len() {
            break;
        }
        left -= bytes.len();
        replies.extend_from_slice(text)?;
    }
    Ok(replies)
}

/// Whether a request ends behind so many bytes, or none has begun.
pub(crate) fn is_between(steps: &[Step<'_>], taken: usize) -> bool {
    let mut left = taken;
    for (bytes, _) in steps {
        if left < bytes.len() {
            return left == 0 && *bytes != CHUNKS;
        }
        left -= bytes.len();
    }
    left == 0
}

/// Runs the program over these bytes, and a sink that takes as much as this.
pub(crate) fn run_script<R: Threads + Wait + rt::Clock + Copy + Send + AllocGlobal + 'static>(
    rt: &R,
    input: &[u8],
    takes: Calls,
    capacity: usize,
    gives: Calls,
) -> Result<Outcome, Memory> {
    run_over(rt, &WORDS, input, takes, capacity, gives)
}
