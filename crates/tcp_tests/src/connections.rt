//! Connections over a socket.

use crate::clients::{AMPLE, receive, receive_all, send, start};
use q_outside::Limits;
use quaestor_serve::{ServeEnd, ServeWhy};
use std::net::Shutdown;
use std::test::Fail;

/// A write.
const PUT: &[u8] = b"PUT /v1/d/shop/p1 HTTP/1.1\r\nHost: a\r\nContent-Length: 7\r\n\r\n{\"a\":1}";

/// The answer to the first write.
const PUT_REPLY: &[u8] =
    b"HTTP/1.1 201 Created\r\nDate: Thu, 01 Jan 1970 00:01:40 GMT\r\nContent-Type: application/json\r\nContent-Length: 12\r\nCache-Control: no-store\r\nQuaestor-Commit: 1\r\n\r\n{\"commit\":1}";

/// A read of what it wrote.
const GET: &[u8] = b"GET /v1/d/shop/p1 HTTP/1.1\r\nHost: a\r\n\r\n";

/// The answer to the read.
const GET_REPLY: &[u8] =
    b"HTTP/1.1 200 OK\r\nDate: Thu, 01 Jan 1970 00:01:40 GMT\r\nContent-Type: application/json\r\nContent-Length: 7\r\nETag: \"1\"\r\nCache-Control: max-age=1\r\nQuaestor-Commit: 1\r\nQuaestor-Version: 1\r\nQuaestor-Until: 101\r\n\r\n{\"a\":1}";

/// A read that asks to close.
const LAST: &[u8] = b"GET /v1/d/shop/p1 HTTP/1.1\r\nHost: a\r\nConnection: close\r\n\r\n";

/// The beginning of its answer.
const LAST_REPLY: &[u8] = b"HTTP/1.1 404 Not Found\r\n";

/// The answer to a request that was cut off, up to its date and behind it.
const LATE_BEFORE: &[u8] = b"HTTP/1.1 408 Request Timeout\r\nDate: ";

const LATE_BEHIND: &[u8] =
    b" GMT\r\nContent-Type: application/json\r\nContent-Length: 19\r\nCache-Control: no-store\r\nConnection: close\r\n\r\n{\"error\":\"timeout\"}";

/// How the server of a test ends.
fn one_connection() -> ServeEnd {
    ServeEnd {
        connections: 1,
        why: ServeWhy::Limit,
    }
}

#[test]
fn a_client_puts_and_gets_by_one_connection(rt: HostRuntime) -> Result<(), Fail> {
    let server = start(rt, AMPLE)?;
    for (request, reply) in [(PUT, PUT_REPLY), (GET, GET_REPLY), (GET, GET_REPLY)] {
        send(&server.client, request)?;
        let received = receive(&rt, &server.client, reply.len())?;
        assert_eq!(rt; received.as_slice(), reply);
    }
    server.client.shutdown(Shutdown::Write)?;
    assert!(rt; receive_all(&rt, &server.client)?.is_empty());
    assert_eq!(rt; server.handle.join(&rt), one_connection());
    Ok(())
}

#[test]
fn a_client_that_has_sent_all_is_answered(rt: HostRuntime) -> Result<(), Fail> {
    let server = start(rt, AMPLE)?;
    send(&server.client, PUT)?;
    send(&server.client, GET)?;
    server.client.shutdown(Shutdown::Write)?;
    let received = receive(&rt, &server.client, PUT_REPLY.len())?;
    assert_eq!(rt; received.as_slice(), PUT_REPLY);
    let received = receive_all(&rt, &server.client)?;
    assert_eq!(rt; received.as_slice(), GET_REPLY);
    assert_eq!(rt; server.handle.join(&rt), one_connection());
    Ok(())
}

#[test]
fn a_silent_client_is_told_the_end(rt: HostRuntime) -> Result<(), Fail> {
    let limits = Limits {
        idle: 1,
        head_time: 1,
        ..AMPLE
    };
    let server = start(rt, limits)?;
    assert!(rt; receive_all(&rt, &server.client)?.is_empty());
    assert_eq!(rt; server.handle.join(&rt), one_connection());
    Ok(())
}

#[test]
fn a_request_that_is_cut_off_is_answered_by_408(rt: HostRuntime) -> Result<(), Fail> {
    let limits = Limits {
        head_time: 1,
        ..AMPLE
    };
    let server = start(rt, limits)?;
    send(&server.client, &GET[..20])?;
    let received = receive_all(&rt, &server.client)?;
    assert!(rt; received.starts_with(LATE_BEFORE));
    assert!(rt; received.ends_with(LATE_BEHIND));
    assert_eq!(rt; server.handle.join(&rt), one_connection());
    Ok(())
}

#[test]
fn the_last_reply_comes_though_the_client_sends_on(rt: HostRuntime) -> Result<(), Fail> {
    let server = start(rt, AMPLE)?;
    send(&server.client, LAST)?;
    for _ in 0..2_000 {
        send(&server.client, GET)?;
    }
    let received = receive_all(&rt, &server.client)?;
    assert!(rt; received.starts_with(LAST_REPLY));
    assert!(rt; received.ends_with(b"{\"error\":\"absent\"}"));
    Ok(())
}
