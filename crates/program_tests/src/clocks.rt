//! Clocks that stand, run ahead and go back. A store's clock is the greatest moment that it was told.

use crate::calls::{assert_run, pipe_by};
use crate::texts::{all_of, joined, page_of};
use crate::worked::{
    FILTER, FOUND, GET, GIVEN, LAST, MATCH, MATCHED, PLACES, PURGES, PUT, PUT_AGAIN, STORED,
    STORED_AGAIN,
};
use q_base::Memory;
use quaestor_prog::Status;
use std::alloc::Global;
use std::test::Fail;

/// The reply to the list of purges, behind the match that outdated a copy of p1.
const PURGED: &[u8] =
    b"HTTP/1.1 200 OK\r\nDate: Thu, 01 Jan 1970 00:01:40 GMT\r\nContent-Type: application/json\r\nContent-Length: 50\r\nCache-Control: no-store\r\n\r\n{\"from\":1,\"front\":2,\"keys\":[\"r/shop/p1\"],\"last\":1}";

/// The reply to a read of what was put again.
const FOUND_AGAIN: &[u8] =
    b"HTTP/1.1 200 OK\r\nDate: Thu, 01 Jan 1970 00:01:40 GMT\r\nContent-Type: application/json\r\nContent-Length: 7\r\nETag: \"2\"\r\nCache-Control: max-age=1\r\nQuaestor-Commit: 2\r\nQuaestor-Version: 2\r\nQuaestor-Until: 101\r\n\r\n{\"a\":2}";

/// What is written at the moment 100 of puts, reads, a match, a page and the purges.
fn replies_of(alloc: Global) -> Result<Vec<u8>, Memory> {
    let page = page_of(alloc, 2, 2, &PLACES)?;
    all_of(
        alloc,
        &[
            STORED,
            FOUND,
            STORED_AGAIN,
            MATCHED,
            &page,
            PURGED,
            FOUND_AGAIN,
        ],
    )
}

/// A clock that stands at 100, one that goes back at each request, one that goes back to the beginning, and
/// one that goes back and comes again.
const NOT_AHEAD: &[&[u64]] = &[
    &[100],
    &[100, 99, 98, 97, 96, 95, 94],
    &[100, 0],
    &[100, 50, 100, 1, 99, 0, 100],
];

#[test]
fn a_clock_that_goes_back_is_as_one_that_stands(rt: HostRuntime) -> Result<(), Fail> {
    let alloc = rt.alloc();
    let input = all_of(alloc, &[PUT, GET, PUT_AGAIN, MATCH, FILTER, PURGES, GET])?;
    let replies = replies_of(alloc)?;
    for (at, moments) in NOT_AHEAD.iter().enumerate() {
        let outcome = pipe_by(&rt, &input, moments)?;
        assert_run(&rt, &outcome, Status::Done, &replies, at);
    }
    Ok(())
}

/// The replies to a put and a read where the clock showed 200 and then 150.
const BACK: &[u8] =
    b"HTTP/1.1 201 Created\r\nDate: Thu, 01 Jan 1970 00:03:20 GMT\r\nContent-Type: application/json\r\nContent-Length: 12\r\nCache-Control: no-store\r\nQuaestor-Commit: 1\r\n\r\n{\"commit\":1}HTTP/1.1 200 OK\r\nDate: Thu, 01 Jan 1970 00:03:20 GMT\r\nContent-Type: application/json\r\nContent-Length: 7\r\nETag: \"1\"\r\nCache-Control: max-age=1\r\nQuaestor-Commit: 1\r\nQuaestor-Version: 1\r\nQuaestor-Until: 201\r\n\r\n{\"a\":1}";

/// The reply to a read at the greatest moment of what was put long before.
const FAR: &[u8] =
    b"HTTP/1.1 200 OK\r\nDate: Fri, 31 Dec 9999 23:59:59 GMT\r\nContent-Type: application/json\r\nContent-Length: 7\r\nETag: \"1\"\r\nCache-Control: max-age=3600\r\nQuaestor-Commit: 1\r\nQuaestor-Version: 1\r\nQuaestor-Until: 253402304399\r\n\r\n{\"a\":1}";

/// Clocks that go back from 200, stand at the greatest moment, show more than that, and come there before the
/// first read and before the second.
const AHEAD: &[&[u64]] = &[
    &[200, 150],
    &[GIVEN],
    &[u64::MAX, 0],
    &[100, GIVEN, 100],
    &[100, 100, u64::MAX],
];

#[test]
fn the_greatest_moment_is_the_date(rt: HostRuntime) -> Result<(), Fail> {
    let alloc = rt.alloc();
    let once = joined(alloc, PUT, GET)?;
    let twice = joined(alloc, &once, GET)?;
    let far = all_of(alloc, &[STORED, FAR, FAR])?;
    let ahead = all_of(alloc, &[STORED, FOUND, FAR])?;
    let rows: [(&[u8], &[u8]); 5] = [
        (&once, BACK),
        (&once, LAST),
        (&once, LAST),
        (&twice, &far),
        (&twice, &ahead),
    ];
    for (moments, (input, replies)) in AHEAD.iter().zip(rows) {
        let outcome = pipe_by(&rt, input, moments)?;
        assert_run(&rt, &outcome, Status::Done, replies, 0);
    }
    Ok(())
}
