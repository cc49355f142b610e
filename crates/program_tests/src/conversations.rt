//! One connection of many requests.

use crate::calls::{AMPLE, WHOLE, assert_run, calls_of, pipe_over};
use crate::texts::{Row, reply_of};
use crate::worked::{EMPTY, NO_STORE, PUT_EXPECTING};
use quaestor_prog::Status;
use std::test::Fail;

#[test]
fn requests_of_one_connection_have_their_replies(rt: HostRuntime) -> Result<(), Fail> {
    let rows: [Row<'_>; 34] = [
        (
            b"GET /v1/stats HTTP/1.1\r\nHost: a\r\n\r\n",
            b"HTTP/1.1 200 OK",
            NO_STORE,
            EMPTY,
        ),
        (
            b"PUT /v1/d/shop/p1 HTTP/1.1\r\nHost: a\r\nIf-None-Match: *\r\nContent-Length: 7\r\n\r\n{\"a\":1}",
            b"HTTP/1.1 201 Created",
            b"Cache-Control: no-store\r\nQuaestor-Commit: 1\r\n",
            b"{\"commit\":1}",
        ),
        (
            b"PUT /v1/d/shop/p1 HTTP/1.1\r\nHost: a\r\nIf-None-Match: *\r\nContent-Length: 7\r\n\r\n{\"a\":2}",
            b"HTTP/1.1 412 Precondition Failed",
            NO_STORE,
            b"{\"error\":\"precondition\",\"found\":1}",
        ),
        (
            b"PUT /v1/d/shop/p1 HTTP/1.1\r\nHost: a\r\nIf-Match: \"1\"\r\nContent-Length: 7\r\n\r\n{\"a\":3}",
            b"HTTP/1.1 200 OK",
            b"Cache-Control: no-store\r\nQuaestor-Commit: 2\r\n",
            b"{\"commit\":2}",
        ),
        (
            b"PUT /v1/d/shop/p1 HTTP/1.1\r\nHost: a\r\nIf-Match: \"1\", \"2\"\r\nContent-Length: 7\r\n\r\n{\"a\":4}",
            b"HTTP/1.1 200 OK",
            b"Cache-Control: no-store\r\nQuaestor-Commit: 3\r\n",
            b"{\"commit\":3}",
        ),
        (
            b"PUT /v1/d/shop/p1 HTTP/1.1\r\nHost: a\r\nIf-Match: W/\"3\"\r\nContent-Length: 7\r\n\r\n{\"a\":5}",
            b"HTTP/1.1 412 Precondition Failed",
            NO_STORE,
            b"{\"error\":\"precondition\",\"found\":3}",
        ),
        (
            b"PUT /v1/d/shop/p2 HTTP/1.1\r\nHost: a\r\nIf-Match: *\r\nContent-Length: 2\r\n\r\n{}",
            b"HTTP/1.1 412 Precondition Failed",
            NO_STORE,
            b"{\"error\":\"precondition\",\"found\":null}",
        ),
        (
            b"PUT /v1/d/shop/p1 HTTP/1.1\r\nHost: a\r\nIf-Match: *\r\nContent-Length: 7\r\n\r\n{\"a\":6}",
            b"HTTP/1.1 200 OK",
            b"Cache-Control: no-store\r\nQuaestor-Commit: 4\r\n",
            b"{\"commit\":4}",
        ),
        (
            b"DELETE /v1/d/shop/p1 HTTP/1.1\r\nHost: a\r\nIf-Match: \"9\"\r\n\r\n",
            b"HTTP/1.1 412 Precondition Failed",
            NO_STORE,
            b"{\"error\":\"precondition\",\"found\":4}",
        ),
        (
            b"HEAD /v1/d/shop/p1 HTTP/1.1\r\nHost: a\r\n\r\n",
            b"HTTP/1.1 200 OK",
            b"ETag: \"4\"\r\nCache-Control: max-age=1\r\nQuaestor-Commit: 4\r\nQuaestor-Version: 4\r\nQuaestor-Until: 101\r\n",
            b"{\"a\":6}",
        ),
        (
            b"DELETE /v1/d/shop/p1 HTTP/1.1\r\nHost: a\r\n\r\n",
            b"HTTP/1.1 200 OK",
            b"Cache-Control: no-store\r\nQuaestor-Commit: 5\r\n",
            b"{\"commit\":5}",
        ),
        (
            b"GET /v1/d/sh%6fp/p1 HTTP/1.1\r\nHost: a\r\n\r\n",
            b"HTTP/1.1 404 Not Found",
            b"Cache-Control: max-age=1\r\nQuaestor-Commit: 5\r\nQuaestor-Until: 101\r\n",
            b"{\"error\":\"absent\"}",
        ),
        (
            b"PUT /v1/d/shop/p1 HTTP/1.1\r\nHost: a\r\nTransfer-Encoding: chunked\r\n\r\n3;x=y\r\n{\"a\r\n4\r\n\":2}\r\n0\r\nT: u\r\n\r\n",
            b"HTTP/1.1 201 Created",
            b"Cache-Control: no-store\r\nQuaestor-Commit: 6\r\n",
            b"{\"commit\":6}",
        ),
        (
            b"GET /v1/d/shop/p1 HTTP/1.1\r\nHost: a\r\nAccept: */*\r\nIf-Match: \"7\"\r\n\r\n",
            b"HTTP/1.1 200 OK",
            b"ETag: \"6\"\r\nCache-Control: max-age=1\r\nQuaestor-Commit: 6\r\nQuaestor-Version: 6\r\nQuaestor-Until: 101\r\n",
            b"{\"a\":2}",
        ),
        (
            PUT_EXPECTING,
            b"HTTP/1.1 100 Continue\r\n\r\nHTTP/1.1 200 OK",
            b"Cache-Control: no-store\r\nQuaestor-Commit: 7\r\n",
            b"{\"commit\":7}",
        ),
        (
            b"PUT /v1/d/shop/p1 HTTP/1.1\r\nHost: a\r\nExpect: 100-continue\r\nContent-Length: 0\r\n\r\n",
            b"HTTP/1.1 422 Unprocessable Entity",
            NO_STORE,
            b"{\"error\":\"bad_document\",\"reason\":\"not_json\"}",
        ),
        (
            b"PUT /v1/d/shop/p1 HTTP/1.1\r\nHost: a\r\nContent-Length: 3\r\n\r\n[1]",
            b"HTTP/1.1 422 Unprocessable Entity",
            NO_STORE,
            b"{\"error\":\"bad_document\",\"reason\":\"not_object\"}",
        ),
        (
            b"PUT /v1/d/shop/p1 HTTP/1.1\r\nHost: a\r\nContent-Length: 9\r\n\r\n{\"a\":1.5}",
            b"HTTP/1.1 422 Unprocessable Entity",
            NO_STORE,
            b"{\"error\":\"bad_document\",\"reason\":\"not_whole\"}",
        ),
        (
            b"PUT /v1/d/shop/p1 HTTP/1.1\r\nHost: a\r\nIf-Match: x\r\nContent-Length: 2\r\n\r\n{}",
            b"HTTP/1.1 400 Bad Request",
            NO_STORE,
            b"{\"error\":\"bad_tag\"}",
        ),
        (
            b"PUT /v1/d/shop/p1 HTTP/1.1\r\nHost: a\r\nIf-None-Match: \"1\"\r\nContent-Length: 2\r\n\r\n{}",
            b"HTTP/1.1 400 Bad Request",
            NO_STORE,
            b"{\"error\":\"bad_tag\"}",
        ),
        (
            b"PUT /v1/d/shop/p1 HTTP/1.1\r\nHost: a\r\nContent-Encoding: gzip\r\nContent-Length: 2\r\n\r\n{}",
            b"HTTP/1.1 415 Unsupported Media Type",
            NO_STORE,
            b"{\"error\":\"bad_encoding\"}",
        ),
        (
            b"PUT /v1/d/shop/p1 HTTP/1.1\r\nHost: a\r\n\r\n",
            b"HTTP/1.1 411 Length Required",
            NO_STORE,
            b"{\"error\":\"no_length\"}",
        ),
        (
            b"GET /v1/stats HTTP/1.1\r\nHost: a\r\nHost: b\r\n\r\n",
            b"HTTP/1.1 400 Bad Request",
            NO_STORE,
            b"{\"error\":\"bad_host\"}",
        ),
        (
            b"POST /v1/d/shop/p1 HTTP/1.1\r\nHost: a\r\n\r\n",
            b"HTTP/1.1 405 Method Not Allowed",
            b"Cache-Control: no-store\r\nAllow: GET, HEAD, PUT, DELETE\r\n",
            b"{\"error\":\"bad_method\"}",
        ),
        (
            b"PUT /v1/match HTTP/1.1\r\nHost: a\r\nContent-Length: 0\r\n\r\n",
            b"HTTP/1.1 405 Method Not Allowed",
            b"Cache-Control: no-store\r\nAllow: POST\r\n",
            b"{\"error\":\"bad_method\"}",
        ),
        (
            b"DELETE /v1/stats HTTP/1.1\r\nHost: a\r\n\r\n",
            b"HTTP/1.1 405 Method Not Allowed",
            b"Cache-Control: no-store\r\nAllow: GET, HEAD\r\n",
            b"{\"error\":\"bad_method\"}",
        ),
        (
            b"GET /v1/x HTTP/1.1\r\nHost: a\r\n\r\n",
            b"HTTP/1.1 404 Not Found",
            NO_STORE,
            b"{\"error\":\"no_route\"}",
        ),
        (
            b"GET * HTTP/1.1\r\nHost: a\r\n\r\n",
            b"HTTP/1.1 400 Bad Request",
            NO_STORE,
            b"{\"error\":\"bad_target\"}",
        ),
        (
            b"GET /v1/stats?x=1 HTTP/1.1\r\nHost: a\r\n\r\n",
            b"HTTP/1.1 400 Bad Request",
            NO_STORE,
            b"{\"error\":\"bad_target\"}",
        ),
        (
            b"GET /v1/d/shop/P HTTP/1.1\r\nHost: a\r\n\r\n",
            b"HTTP/1.1 400 Bad Request",
            NO_STORE,
            b"{\"error\":\"bad_target\"}",
        ),
        (
            b"GET /v1/q/shop?f=a+%3D HTTP/1.1\r\nHost: a\r\n\r\n",
            b"HTTP/1.1 400 Bad Request",
            NO_STORE,
            b"{\"error\":\"bad_filter\",\"field\":\"f\",\"place\":3,\"reason\":\"syntax\"}",
        ),
        (
            b"GET /v1/purges HTTP/1.1\r\nHost: a\r\n\r\n",
            b"HTTP/1.1 200 OK",
            NO_STORE,
            b"{\"from\":1,\"front\":0,\"keys\":[],\"last\":0}",
        ),
        (
            b"GET /v1/d/shop/p1 HTTP/1.1\r\nHost: a\r\nIf-None-Match: 1\r\n\r\n",
            b"HTTP/1.1 400 Bad Request",
            NO_STORE,
            b"{\"error\":\"bad_tag\"}",
        ),
        (
            b"HEAD http://b/v1/stats HTTP/1.1\r\nHost: a\r\n\r\n",
            b"HTTP/1.1 200 OK",
            NO_STORE,
            b"{\"clock\":100,\"commits\":7,\"front\":0}",
        ),
    ];
    let mut input = Vec::new(rt.alloc());
    let mut written = Vec::new(rt.alloc());
    for row in &rows {
        input.extend_from_slice(row.0)?;
        written.extend_from_slice(&reply_of(rt.alloc(), row)?)?;
    }
    for size in [1, WHOLE] {
        let outcome = pipe_over(&rt, &input, calls_of(size), AMPLE, calls_of(WHOLE))?;
        assert_run(&rt, &outcome, Status::Done, &written, size);
    }
    Ok(())
}
