//! A document that is put and read: in pieces, and on a page.

use crate::calls::{AMPLE, WHOLE, assert_run, calls_of, pipe_over};
use crate::texts::{all_of, joined, page_of};
use crate::worked::{
    FILTER, FOUND, GET, MATCH, MATCHED, PLACES, PUT, PUT_AGAIN, STORED, STORED_AGAIN,
};
use quaestor_prog::Status;
use std::test::Fail;

#[test]
fn a_document_is_put_and_read_in_whatever_pieces(rt: HostRuntime) -> Result<(), Fail> {
    let input = joined(rt.alloc(), PUT, GET)?;
    let replies = joined(rt.alloc(), STORED, FOUND)?;
    for size in [1, 2, 7, WHOLE] {
        let outcome = pipe_over(&rt, &input, calls_of(size), AMPLE, calls_of(size))?;
        assert_run(&rt, &outcome, Status::Done, &replies, size);
    }
    Ok(())
}

#[test]
fn a_page_has_the_keys_of_outdated_copies(rt: HostRuntime) -> Result<(), Fail> {
    // What is asked before the page, the replies, and the page's front, number of commits and bits.
    let rows: [(&[&[u8]], &[&[u8]], u8, u8, &[usize]); 4] = [
        (&[], &[], 0, 0, &[]),
        (
            &[PUT, GET, PUT_AGAIN],
            &[STORED, FOUND, STORED_AGAIN],
            0,
            2,
            &[],
        ),
        (
            &[PUT, GET, PUT_AGAIN, MATCH],
            &[STORED, FOUND, STORED_AGAIN, MATCHED],
            2,
            2,
            &PLACES,
        ),
        (
            &[PUT, GET, PUT_AGAIN, MATCH, MATCH],
            &[STORED, FOUND, STORED_AGAIN, MATCHED, MATCHED],
            2,
            2,
            &PLACES,
        ),
    ];
    for (at, (asks, replies, front, commits, places)) in rows.into_iter().enumerate() {
        let input = joined(rt.alloc(), &all_of(rt.alloc(), asks)?, FILTER)?;
        let page = page_of(rt.alloc(), front, commits, places)?;
        let written = joined(rt.alloc(), &all_of(rt.alloc(), replies)?, &page)?;
        let outcome = pipe_over(&rt, &input, calls_of(WHOLE), AMPLE, calls_of(7))?;
        assert_run(&rt, &outcome, Status::Done, &written, at);
    }
    Ok(())
}
