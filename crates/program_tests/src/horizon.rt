//! Old changes that are dropped.

use crate::calls::{AMPLE, WHOLE, assert_run, calls_of, run_over, words_of};
use crate::texts::{Row, all_of, reply_of};
use crate::worked::{MATCH, MINUTE, NO_STORE, PUT, PUT_AGAIN};
use q_base::Memory;
use quaestor_prog::{Status, refusal_of};
use std::alloc::Global;
use std::process::Abort;
use std::rt;
use std::sync::Wait;
use std::test::Fail;
use std::thread::Threads;

/// Old changes are dropped up to the front.
const DROP: &[u8] = b"POST /v1/horizon HTTP/1.1\r\nHost: a\r\n\r\n";

/// A document of 7 bytes is put under another name: 77 bytes of the store.
const PUT_SMALL: &[u8] =
    b"PUT /v1/d/shop/p2 HTTP/1.1\r\nHost: a\r\nContent-Length: 7\r\n\r\n{\"a\":1}";

/// The document is deleted again.
const DELETE_SMALL: &[u8] = b"DELETE /v1/d/shop/p2 HTTP/1.1\r\nHost: a\r\n\r\n";

const OK: &[u8] = b"HTTP/1.1 200 OK";

const CREATED: &[u8] = b"HTTP/1.1 201 Created";

/// The first put of a document.
fn first(put: &[u8]) -> Row<'_> {
    (
        put,
        CREATED,
        b"Cache-Control: no-store\r\nQuaestor-Commit: 1\r\n",
        b"{\"commit\":1}",
    )
}

/// All three commits are matched, and then what is old of them is dropped.
const MATCHED: Row<'static> = (MATCH, OK, NO_STORE, b"{\"front\":3}");

const DROPPED: Row<'static> = (DROP, OK, NO_STORE, b"{\"horizon\":3}");

/// The small document is put as commit 2, and again as commit 3.
const SECOND: Row<'static> = (
    PUT_SMALL,
    CREATED,
    b"Cache-Control: no-store\r\nQuaestor-Commit: 2\r\n",
    b"{\"commit\":2}",
);

const THIRD: Row<'static> = (
    PUT_SMALL,
    OK,
    b"Cache-Control: no-store\r\nQuaestor-Commit: 3\r\n",
    b"{\"commit\":3}",
);

/// The greatest document is put: 65,606 bytes of the store.
fn put_greatest(alloc: Global) -> Result<Vec<u8>, Memory> {
    let letters = vec![in alloc; b'x'; 65_528]?;
    all_of(
        alloc,
        &[
            b"PUT /v1/d/shop/p1 HTTP/1.1\r\nHost: a\r\nContent-Length: 65536\r\n\r\n{\"a\":\"",
            &letters,
            b"\"}",
        ],
    )
}

/// Runs the program with these words over the requests of the rows, which have their replies. A row without
/// a first line has its whole reply as its body.
fn assert_rows<R: Threads + Wait + rt::Clock + Copy + Send + AllocGlobal + Abort + 'static>(
    rt: &R,
    line: &[&str],
    rows: &[Row<'_>],
) -> Result<(), Fail> {
    let alloc = rt.alloc();
    let mut input = Vec::new(alloc);
    let mut replies = Vec::new(alloc);
    for row in rows {
        input.extend_from_slice(row.0)?;
        if row.1.is_empty() {
            replies.extend_from_slice(row.3)?;
        } else {
            replies.extend_from_slice(&reply_of(alloc, row)?)?;
        }
    }
    let outcome = run_over(rt, line, &input, calls_of(WHOLE), AMPLE, calls_of(WHOLE))?;
    assert_run(rt, &outcome, Status::Done, &replies, 0);
    Ok(())
}

/// Of 65,792 bytes 65,606 and twice 77 are full. The second 77 are those of the same record, so that a
/// drop leaves 65,683; with 77 more they are 65,760, and so the next write is told.
#[test]
fn a_store_that_was_full_takes_a_write_behind_a_drop(rt: HostRuntime) -> Result<(), Fail> {
    let greatest = put_greatest(rt.alloc())?;
    let full: Row<'_> = (
        PUT_SMALL,
        b"HTTP/1.1 507 Insufficient Storage",
        NO_STORE,
        b"{\"bytes\":65837,\"error\":\"store_full\"}",
    );
    let rows: [Row<'_>; 11] = [
        first(&greatest),
        SECOND,
        THIRD,
        full,
        // nothing was matched, so nothing is dropped
        (DROP, OK, NO_STORE, b"{\"horizon\":0}"),
        full,
        MATCHED,
        DROPPED,
        (
            PUT_SMALL,
            OK,
            b"Cache-Control: no-store\r\nQuaestor-Commit: 4\r\n",
            b"{\"commit\":4}",
        ),
        full,
        DROPPED,
    ];
    assert_rows(&rt, &["pipe", "--clock", "100", "--bytes", "65792"], &rows)
}

/// Nothing can be dropped of a store that is full of what lives. A deletion takes its bytes too, here 70
/// of the 109 that are left, and behind it a drop gives back all that the record took.
#[test]
fn a_store_full_of_what_lives_has_room_behind_a_deletion(rt: HostRuntime) -> Result<(), Fail> {
    let greatest = put_greatest(rt.alloc())?;
    let rows: [Row<'_>; 10] = [
        first(&greatest),
        SECOND,
        (MATCH, OK, NO_STORE, b"{\"front\":2}"),
        (DROP, OK, NO_STORE, b"{\"horizon\":2}"),
        (
            &greatest,
            b"HTTP/1.1 507 Insufficient Storage",
            NO_STORE,
            b"{\"bytes\":131289,\"error\":\"store_full\"}",
        ),
        (
            DELETE_SMALL,
            OK,
            b"Cache-Control: no-store\r\nQuaestor-Commit: 3\r\n",
            b"{\"commit\":3}",
        ),
        // 65,606 and 77 and 70, before the drop
        (
            PUT_SMALL,
            b"HTTP/1.1 507 Insufficient Storage",
            NO_STORE,
            b"{\"bytes\":65830,\"error\":\"store_full\"}",
        ),
        MATCHED,
        DROPPED,
        (
            PUT_SMALL,
            CREATED,
            b"Cache-Control: no-store\r\nQuaestor-Commit: 4\r\n",
            b"{\"commit\":4}",
        ),
    ];
    assert_rows(&rt, &["pipe", "--clock", "100", "--bytes", "65792"], &rows)
}

/// Where fewer bytes are left than a deletion takes, nothing that lives can leave, and reads go on: 65,606
/// and twice 77 are full, which leaves 32 for the 70 of a deletion.
#[test]
fn a_store_without_room_for_a_deletion_stays_full(rt: HostRuntime) -> Result<(), Fail> {
    let greatest = put_greatest(rt.alloc())?;
    let full: Row<'_> = (
        DELETE_SMALL,
        b"HTTP/1.1 507 Insufficient Storage",
        NO_STORE,
        b"{\"bytes\":65830,\"error\":\"store_full\"}",
    );
    let rows: [Row<'_>; 8] = [
        first(&greatest),
        SECOND,
        (
            b"PUT /v1/d/shop/p3 HTTP/1.1\r\nHost: a\r\nContent-Length: 7\r\n\r\n{\"a\":1}",
            CREATED,
            b"Cache-Control: no-store\r\nQuaestor-Commit: 3\r\n",
            b"{\"commit\":3}",
        ),
        full,
        MATCHED,
        DROPPED,
        full,
        (
            b"GET /v1/d/shop/p3 HTTP/1.1\r\nHost: a\r\n\r\n",
            OK,
            b"ETag: \"3\"\r\nCache-Control: max-age=1\r\nQuaestor-Commit: 3\r\nQuaestor-Version: 3\r\nQuaestor-Until: 101\r\n",
            b"{\"a\":1}",
        ),
    ];
    assert_rows(&rt, &["pipe", "--clock", "100", "--bytes", "65792"], &rows)
}

/// The tag of a commit below the horizon is not known any more, though the result is the same; that of
/// the horizon is.
#[test]
fn a_tag_below_the_horizon_is_not_known(rt: HostRuntime) -> Result<(), Fail> {
    let stored: Row<'_> = (
        PUT_AGAIN,
        OK,
        b"Cache-Control: no-store\r\nQuaestor-Commit: 4\r\n",
        b"{\"commit\":4}",
    );
    let rows: [Row<'_>; 13] = [
        (
            PUT,
            CREATED,
            b"Cache-Control: no-store\r\nQuaestor-Commit: 1\r\n",
            b"{\"commit\":1}",
        ),
        SECOND,
        THIRD,
        stored,
        (
            PUT_SMALL,
            OK,
            b"Cache-Control: no-store\r\nQuaestor-Commit: 5\r\n",
            b"{\"commit\":5}",
        ),
        (
            PUT_SMALL,
            OK,
            b"Cache-Control: no-store\r\nQuaestor-Commit: 6\r\n",
            b"{\"commit\":6}",
        ),
        (
            PUT_SMALL,
            OK,
            b"Cache-Control: no-store\r\nQuaestor-Commit: 7\r\n",
            b"{\"commit\":7}",
        ),
        (MATCH, OK, NO_STORE, b"{\"front\":7}"),
        (DROP, OK, NO_STORE, b"{\"horizon\":7}"),
        (
            b"GET /v1/d/shop/p1 HTTP/1.1\r\nHost: a\r\nIf-None-Match: \"5\"\r\n\r\n",
            OK,
            b"ETag: \"7\"\r\nCache-Control: max-age=60\r\nQuaestor-Commit: 7\r\nQuaestor-Version: 4\r\nQuaestor-Until: 160\r\n",
            b"{\"a\":2}",
        ),
        (
            b"GET /v1/d/shop/p1 HTTP/1.1\r\nHost: a\r\nIf-None-Match: \"7\"\r\n\r\n",
            b"",
            b"",
            b"HTTP/1.1 304 Not Modified\r\nDate: Thu, 01 Jan 1970 00:01:40 GMT\r\nETag: \"7\"\r\nCache-Control: max-age=60\r\nQuaestor-Commit: 7\r\nQuaestor-Version: 4\r\nQuaestor-Until: 160\r\n\r\n",
        ),
        (
            b"PUT /v1/d/shop/p1 HTTP/1.1\r\nHost: a\r\nIf-Match: \"3\"\r\nContent-Length: 7\r\n\r\n{\"a\":3}",
            b"HTTP/1.1 412 Precondition Failed",
            NO_STORE,
            b"{\"error\":\"precondition\",\"found\":4}",
        ),
        // a condition speaks of the version, which is known as long as the document is there
        (
            b"PUT /v1/d/shop/p1 HTTP/1.1\r\nHost: a\r\nIf-Match: \"5\"\r\nContent-Length: 7\r\n\r\n{\"a\":3}",
            OK,
            b"Cache-Control: no-store\r\nQuaestor-Commit: 8\r\n",
            b"{\"commit\":8}",
        ),
    ];
    assert_rows(&rt, &MINUTE, &rows)
}

/// How many commits are kept is a number, for `serve` alone.
#[test]
fn a_number_of_kept_commits_is_taken_or_refused(rt: HostRuntime) -> Result<(), Fail> {
    let rows: [(&[&str], bool); 9] = [
        (&["serve", "here", "--keep", "0"], true),
        (&["serve", "--keep=1000", "here"], true),
        (&["serve", "here", "--keep", "1099511627776"], true),
        (&["serve", "here", "--keep", "1099511627777"], false),
        (&["serve", "here", "--keep", "01"], false),
        (&["serve", "here", "--keep=-1"], false),
        (&["serve", "here", "--keep"], false),
        (&["serve", "here", "--keep", "1", "--keep", "1"], false),
        (&["pipe", "--keep", "1"], false),
    ];
    for (line, taken) in rows {
        let words = words_of(rt.alloc(), line)?;
        let refusal = refusal_of(rt.alloc(), &words)?;
        assert_eq!(rt; refusal.is_none(), taken, "of {line:?}");
    }
    let words = words_of(rt.alloc(), &["serve", "here", "--keep", "x"])?;
    let Some(refusal) = refusal_of(rt.alloc(), &words)? else {
        return Err(Fail::from("the words are taken"));
    };
    let text = format!(in rt.alloc(); "{refusal}")?;
    let said = "error: --keep is a decimal number from 0 to 1099511627776, not 'x'\n";
    assert!(rt; text.starts_with(said), "{text}");
    Ok(())
}
