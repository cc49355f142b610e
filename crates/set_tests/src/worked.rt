//! Worked cases.

use crate::slow::shows;
use crate::store::{go, last_row, new_book, query, set_now, window_now, write};
use commit_book::Book;
use match_sets::{MatchSet, MatchStep, Notice};
use q_base::Name;
use query_core::Query;
use std::alloc::Global;
use std::test::Fail;

/// An id of three digits.
fn id(alloc: Global, number: u64) -> Result<Vec<u8>, Fail> {
    let mut id = Vec::new(alloc);
    id.push(b'p')?;
    id.push(b'0' + (number / 100 % 10) as u8)?;
    id.push(b'0' + (number / 10 % 10) as u8)?;
    id.push(b'0' + (number % 10) as u8)?;
    Ok(id)
}

/// Puts a document for each of the ids below this number.
fn fill(alloc: Global, book: &mut Book, count: u64) -> Result<(), Fail> {
    for number in 0..count {
        write(alloc, book, b"shop", &id(alloc, number)?, b"{\"a\":1}")?;
    }
    Ok(())
}

/// A book with those documents.
fn filled(alloc: Global, count: u64) -> Result<Box<Book>, Fail> {
    let mut book = new_book(alloc, 1_000_000)?;
    fill(alloc, &mut book, count)?;
    Ok(book)
}

/// Takes the set over the last commit.
fn follow(
    alloc: Global,
    book: &Book,
    query: &Query,
    set: &mut MatchSet,
) -> Result<Box<MatchStep>, Fail> {
    let row = last_row(alloc, book)?;
    go(alloc, book, query, set, &row)
}

/// Deletes the first rows one by one, and takes the set along.
fn delete_first(
    alloc: Global,
    book: &mut Book,
    query: &Query,
    set: &mut MatchSet,
    count: u64,
) -> Result<(), Fail> {
    for number in 0..count {
        write(alloc, book, b"shop", &id(alloc, number)?, b"")?;
        follow(alloc, book, query, set)?;
    }
    Ok(())
}

/// Whether a name is this one.
fn is_name(name: &Option<Name>, expected: &[u8]) -> bool {
    match name {
        Some(name) => name.as_slice() == expected,
        None => false,
    }
}

/// Whether the set keeps 102 rows of 103, and 2 behind the deletion of the first hundred.
fn lasts(alloc: Global, book: &mut Book, query: &Query, set: &mut MatchSet) -> Result<bool, Fail> {
    let first = set.kept() == 102;
    delete_first(alloc, book, query, set, 100)?;
    Ok(first && set.kept() == 2)
}

/// Whether the last row has slid into the place of the removed one.
fn has_slid_in(step: &MatchStep) -> bool {
    step.notice == Notice::Removed && is_name(&step.slid_in, b"p102") && step.slid_out.is_none()
}

/// Whether the next deletion, for which the set is short, lets the last row slide in.
fn is_renewed(
    alloc: Global,
    book: &mut Book,
    query: &Query,
    set: &mut MatchSet,
) -> Result<bool, Fail> {
    write(alloc, book, b"shop", b"p100", b"")?;
    let step = follow(alloc, book, query, set)?;
    Ok(has_slid_in(&step) && set.kept() == 2)
}

/// Whether the set shows the window made from scratch.
fn is_window(alloc: Global, book: &Book, query: &Query, set: &MatchSet) -> Result<bool, Fail> {
    Ok(shows(set, &window_now(alloc, book, query)?))
}

#[test]
fn rows_beyond_the_window_last_for_a_hundred_deletions(rt: HostRuntime) -> Result<(), Fail> {
    let alloc = rt.alloc();
    let query = query(alloc, ["true", "", "0", "2"])?;
    let mut book = filled(alloc, 103)?;
    let mut set = set_now(alloc, &book, &query)?;
    assert!(rt; lasts(alloc, &mut book, &query, &mut set)?);
    assert!(rt; is_renewed(alloc, &mut book, &query, &mut set)?);
    assert!(rt; is_window(alloc, &book, &query, &set)?);
    Ok(())
}
