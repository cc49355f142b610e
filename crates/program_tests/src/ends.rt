//! How connections end.
ghost use Rattle.std.specs.Prelude.{Some, None};

use crate::calls::{
    AMPLE, Comers, Place, STANDING, WHOLE, assert_run, calls_of, pipe_over, run_with, script_of,
    words_of,
};
use crate::texts::{Row, joined, repeated, reply_of};
use crate::worked::{CLOSED, ELSEWHERE, EMPTY, GET, NO_ROUTE, NO_ROUTE_LAST, PUT};
use q_base::Memory;
use q_outside::{Failed, ListSource, Note, Sink};
use quaestor_prog::Status;
use std::marker::Brand;
use std::rt;
use std::sync::Wait;
use std::sync::ledger::Blank;
use std::test::Fail;
use std::thread::Threads;

#[test]
fn ten_thousand_requests_are_the_limit(rt: HostRuntime) -> Result<(), Fail> {
    for (requests, others, last, status) in [
        (9_999, 9_998, NO_ROUTE, Status::Done),
        (10_000, 9_999, NO_ROUTE_LAST, Status::RequestLimit),
        (10_001, 9_999, NO_ROUTE_LAST, Status::RequestLimit),
    ] {
        let input = repeated(rt.alloc(), ELSEWHERE, requests)?;
        let mut replies = repeated(rt.alloc(), NO_ROUTE, others)?;
        replies.extend_from_slice(last)?;
        let outcome = pipe_over(&rt, &input, calls_of(WHOLE), AMPLE, calls_of(WHOLE))?;
        assert_eq!(rt; outcome.status, status, "at {requests}");
        assert!(rt; outcome.written == replies, "at {requests}");
    }
    Ok(())
}

/// A sink that counts how often it was ended, and whether anything was given behind that.
#[derive(Drop)]
struct Ended {
    ends: u64,
    late: bool,
}

impl Sink for Ended {
    ghost at = { λ _. record { bytes = None; faults = 0 } };

    ghost ended = { λ _. Some None };

    fn give(&mut self, bytes: &[u8]) -> Result<usize, Failed> {
        self.late = self.late || self.ends > 0;
        Ok(bytes.len())
    }

    fn end(&mut self) {
        self.ends = self.ends.saturating_add(1);
    }

    fn note(&mut self, _note: &Note<'_>) {}
}

/// Runs the program with these words over such a sink, where one connection comes.
fn run_ended<R: Threads + Wait + rt::Clock + Copy + Send + AllocGlobal + 'static>(
    rt: &R,
    line: &[&str],
    sink: &mut Ended,
) -> Result<Status, Memory> {
    let alloc = rt.alloc();
    let words = words_of(alloc, line)?;
    let mut source = ListSource::of(joined(alloc, PUT, GET)?, script_of(alloc, calls_of(WHOLE))?);
    let place = Place {
        moments: STANDING,
        comers: Some(Comers {
            connections: 1,
            failing: None,
        }),
        answers: Some(Vec::new(alloc)),
    };
    let (status, _) = run_with::<Ended, Brand, Brand, R>(
        rt,
        alloc,
        &words,
        &mut source,
        sink,
        place,
        Blank::new(1),
        Blank::new(1),
    )?;
    Ok(status)
}

#[test]
fn the_sink_is_ended_once_behind_all_that_is_given(rt: HostRuntime) -> Result<(), Fail> {
    let rows: [(&[&str], Status); 8] = [
        (&["pipe"], Status::Done),
        (&["serve"], Status::Words),
        (&["serve", "here"], Status::Done),
        (&["serve", "there"], Status::PlaceFault),
        (&["read", "here", "strong", "r/shop/p1"], Status::LinkFault),
        (
            &["read", "there", "strong", "r/shop/p1"],
            Status::PlaceFault,
        ),
        (&["world", "7", "1"], Status::Done),
        (&["crash", "7", "1"], Status::Done),
    ];
    for (at, (line, status)) in rows.into_iter().enumerate() {
        let mut sink = Ended {
            ends: 0,
            late: false,
        };
        assert_eq!(rt; run_ended(&rt, line, &mut sink)?, status, "at {at}");
        assert_eq!(rt; (sink.ends, sink.late), (1, false), "at {at}");
    }
    Ok(())
}

#[test]
fn a_connection_ends_by_its_request(rt: HostRuntime) -> Result<(), Fail> {
    let rows: [(Status, Row<'_>); 10] = [
        (
            Status::BadInput,
            (
                b"x\r\n\r\n",
                b"HTTP/1.1 400 Bad Request",
                CLOSED,
                b"{\"error\":\"bad_head\"}",
            ),
        ),
        (
            Status::BadInput,
            (
                b"PUT /v1/d/shop/p1 HTTP/1.1\r\nHost: a\r\nTransfer-Encoding: chunked\r\nContent-Length: 5\r\n\r\n",
                b"HTTP/1.1 400 Bad Request",
                CLOSED,
                b"{\"error\":\"bad_length\"}",
            ),
        ),
        (
            Status::BadInput,
            (
                b"PUT /v1/d/shop/p1 HTTP/1.1\r\nHost: a\r\nContent-Length: x\r\n\r\n",
                b"HTTP/1.1 400 Bad Request",
                CLOSED,
                b"{\"error\":\"bad_length\"}",
            ),
        ),
        (
            Status::BadInput,
            (
                b"PUT /v1/d/shop/p1 HTTP/1.1\r\nHost: a\r\nTransfer-Encoding: gzip\r\n\r\n",
                b"HTTP/1.1 501 Not Implemented",
                CLOSED,
                b"{\"error\":\"bad_coding\"}",
            ),
        ),
        (
            Status::BadInput,
            (
                b"PUT /v1/d/shop/p1 HTTP/1.1\r\nHost: a\r\nTransfer-Encoding: chunked\r\n\r\nz\r\n",
                b"HTTP/1.1 400 Bad Request",
                CLOSED,
                b"{\"error\":\"bad_length\"}",
            ),
        ),
        (
            Status::BadInput,
            (
                b"PUT /v1/d/shop/p1 HTTP/1.1\r\nHost: a\r\nContent-Length: 65537\r\n\r\n",
                b"HTTP/1.1 413 Payload Too Large",
                CLOSED,
                b"{\"error\":\"body_too_large\"}",
            ),
        ),
        (
            Status::BadInput,
            (
                b"HEAD /v1/d/shop/p1 HTTP/1.1\r\nHost: a\r\nTransfer-Encoding: chunked\r\n\r\n10001\r\n",
                b"HTTP/1.1 413 Payload Too Large",
                CLOSED,
                b"{\"error\":\"body_too_large\"}",
            ),
        ),
        (
            Status::Done,
            (
                b"GET /v1/stats HTTP/1.1\r\nHost: a\r\nConnection: Keep-Alive, CLOSE\r\n\r\n",
                b"HTTP/1.1 200 OK",
                CLOSED,
                EMPTY,
            ),
        ),
        (
            Status::Done,
            (
                b"GET /v1/stats HTTP/1.0\r\n\r\n",
                b"HTTP/1.1 200 OK",
                CLOSED,
                EMPTY,
            ),
        ),
        (
            Status::Done,
            (
                b"GET /v2 HTTP/1.1\r\nHost: a\r\nconnection: close\r\n\r\n",
                b"HTTP/1.1 404 Not Found",
                CLOSED,
                b"{\"error\":\"no_route\"}",
            ),
        ),
    ];
    for (at, (status, row)) in rows.into_iter().enumerate() {
        let input = joined(rt.alloc(), row.0, GET)?;
        let written = reply_of(rt.alloc(), &row)?;
        let outcome = pipe_over(&rt, &input, calls_of(WHOLE), AMPLE, calls_of(WHOLE))?;
        assert_run(&rt, &outcome, status, &written, at);
    }
    let blank = pipe_over(&rt, b"\r\n\r\n\n", calls_of(WHOLE), AMPLE, calls_of(WHOLE))?;
    assert_run(&rt, &blank, Status::Done, b"", 0);
    Ok(())
}
