//! The list of purges.

use crate::calls::{AMPLE, WHOLE, assert_run, calls_of, pipe_over};
use crate::texts::{Row, all_of, joined, repeated, reply_of};
use crate::worked::{GET, MATCH, NO_STORE, PURGES, PUT, PUT_AGAIN};
use quaestor_prog::Status;
use std::test::Fail;

/// Those from the second one on are asked for.
const FROM_SECOND: &[u8] = b"GET /v1/purges?from=2 HTTP/1.1\r\nHost: a\r\n\r\n";

/// How a reply begins that is neither of a new document nor of an error.
const OK: &[u8] = b"HTTP/1.1 200 OK";

/// The fields of a reply to a read at the second of the last write, by the commit of both.
const READ_AT_1: &[u8] =
    b"ETag: \"1\"\r\nCache-Control: max-age=1\r\nQuaestor-Commit: 1\r\nQuaestor-Version: 1\r\nQuaestor-Until: 101\r\n";

const READ_AT_3: &[u8] =
    b"ETag: \"3\"\r\nCache-Control: max-age=1\r\nQuaestor-Commit: 3\r\nQuaestor-Version: 3\r\nQuaestor-Until: 101\r\n";

/// A key is purged where a match outdates a copy of it, which it does once for each copy.
#[test]
fn a_key_is_purged_once_for_each_outdated_copy(rt: HostRuntime) -> Result<(), Fail> {
    let rows: [Row<'_>; 17] = [
        (
            PURGES,
            OK,
            NO_STORE,
            br#"{"from":1,"front":0,"keys":[],"last":0}"#,
        ),
        (
            PUT,
            b"HTTP/1.1 201 Created",
            b"Cache-Control: no-store\r\nQuaestor-Commit: 1\r\n",
            br#"{"commit":1}"#,
        ),
        (GET, OK, READ_AT_1, br#"{"a":1}"#),
        (
            PUT_AGAIN,
            OK,
            b"Cache-Control: no-store\r\nQuaestor-Commit: 2\r\n",
            br#"{"commit":2}"#,
        ),
        // the copy is outdated, and no match has said so
        (
            PURGES,
            OK,
            NO_STORE,
            br#"{"from":1,"front":0,"keys":[],"last":0}"#,
        ),
        (MATCH, OK, NO_STORE, br#"{"front":2}"#),
        (
            PURGES,
            OK,
            NO_STORE,
            br#"{"from":1,"front":2,"keys":["r/shop/p1"],"last":1}"#,
        ),
        (
            FROM_SECOND,
            OK,
            NO_STORE,
            br#"{"from":2,"front":2,"keys":[],"last":1}"#,
        ),
        // the copy is outdated again
        (
            PUT,
            OK,
            b"Cache-Control: no-store\r\nQuaestor-Commit: 3\r\n",
            br#"{"commit":3}"#,
        ),
        (MATCH, OK, NO_STORE, br#"{"front":3}"#),
        (
            PURGES,
            OK,
            NO_STORE,
            br#"{"from":1,"front":3,"keys":["r/shop/p1"],"last":1}"#,
        ),
        // another copy is outdated
        (GET, OK, READ_AT_3, br#"{"a":1}"#),
        (
            PUT_AGAIN,
            OK,
            b"Cache-Control: no-store\r\nQuaestor-Commit: 4\r\n",
            br#"{"commit":4}"#,
        ),
        (MATCH, OK, NO_STORE, br#"{"front":4}"#),
        (
            PURGES,
            OK,
            NO_STORE,
            br#"{"from":1,"front":4,"keys":["r/shop/p1","r/shop/p1"],"last":2}"#,
        ),
        (
            FROM_SECOND,
            OK,
            NO_STORE,
            br#"{"from":2,"front":4,"keys":["r/shop/p1"],"last":2}"#,
        ),
        (
            b"HEAD /v1/purges HTTP/1.1\r\nHost: a\r\n\r\n",
            OK,
            NO_STORE,
            br#"{"from":1,"front":4,"keys":["r/shop/p1","r/shop/p1"],"last":2}"#,
        ),
    ];
    let mut input = Vec::new(rt.alloc());
    let mut written = Vec::new(rt.alloc());
    for row in &rows {
        input.extend_from_slice(row.0)?;
        written.extend_from_slice(&reply_of(rt.alloc(), row)?)?;
    }
    let outcome = pipe_over(&rt, &input, calls_of(WHOLE), AMPLE, calls_of(WHOLE))?;
    assert_run(&rt, &outcome, Status::Done, &written, 0);
    Ok(())
}

/// A reply lists a thousand purges, and no more.
#[test]
fn a_thousand_purges_are_listed(rt: HostRuntime) -> Result<(), Fail> {
    let alloc = rt.alloc();
    let turn = all_of(alloc, &[GET, PUT, MATCH])?;
    // How often the key is purged, what is asked for, and how the reply ends behind a thousand keys.
    let rows: [(usize, &[u8], &[u8]); 3] = [
        (1_000, PURGES, b"],\"last\":1000}"),
        (1_001, PURGES, b"],\"last\":1001}"),
        (1_001, FROM_SECOND, b"],\"last\":1001}"),
    ];
    let more = repeated(alloc, b",\"r/shop/p1\"", 999)?;
    let keys = joined(alloc, b",\"keys\":[\"r/shop/p1\"", &more)?;
    for (times, asked, last) in rows {
        let turns = repeated(alloc, &turn, times)?;
        let puts = joined(alloc, PUT, &turns)?;
        let input = joined(alloc, &puts, asked)?;
        let end = joined(alloc, &keys, last)?;
        let outcome = pipe_over(&rt, &input, calls_of(WHOLE), AMPLE, calls_of(WHOLE))?;
        assert_eq!(rt; outcome.status, Status::Done, "of {times}");
        assert!(rt; outcome.written.ends_with(&end), "of {times}");
    }
    Ok(())
}
