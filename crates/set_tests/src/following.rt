//! Active queries: that they follow where there is memory, and list what they should.

use crate::store::{new_book, query, write};
use active_queries::{ActiveQueries, ActiveQuery};
use commit_book::Book;
use q_base::{Commit, Memory};
use query_core::Kind;
use query_normal::{Key, Normal, normal};
use std::alloc::Global;
use std::test::Fail;

/// No active query.
fn new_queries(alloc: Global) -> Result<Box<ActiveQueries>, Fail> {
    Ok(Box::new(alloc, ActiveQueries::new(alloc))?)
}

/// The first two documents with a = 1, by b.
fn first_two(alloc: Global) -> Result<Normal, Fail> {
    let query = query(alloc, ["a = 1", "b", "0", "2"])?;
    Ok(normal(alloc, Box::into_inner(query))?)
}

/// The key of their query.
fn key_of(alloc: Global, kind: Kind) -> Result<Key, Fail> {
    Ok(Key::query(alloc, kind, first_two(alloc)?)?)
}

/// Adds their query, followed after the last commit, if there is none of its key.
fn add(
    alloc: Global,
    book: &Book,
    queries: &mut ActiveQueries,
    key: &Key,
    kind: Kind,
) -> Result<(), Fail> {
    let normal = first_two(alloc)?;
    let copy = key.clone()?;
    queries.reserve(key)?;
    let query = ActiveQuery::start(alloc, book, kind, normal.query(), book.count())?;
    if queries.get(key).is_none() {
        queries.add(copy, query);
    }
    Ok(())
}

/// Adds the active query of a kind after the last commit. Returns its key.
fn start(alloc: Global, book: &Book, queries: &mut ActiveQueries, kind: Kind) -> Result<Key, Fail> {
    let key = key_of(alloc, kind)?;
    add(alloc, book, queries, &key, kind)?;
    Ok(key)
}

/// Whether the query of a key has these changed commits and this number of rows.
fn shows(queries: &ActiveQueries, key: &Key, changed: &[Commit], rows: usize) -> bool {
    match queries.get(key) {
        Some(query) => query.changed() == changed && query.rows().len() == rows,
        None => false,
    }
}

/// Writes these records of `shop` in turn.
fn write_all(alloc: Global, book: &mut Book, writes: &[(&[u8], &[u8])]) -> Result<(), Fail> {
    for (id, text) in writes {
        write(alloc, book, b"shop", id, text)?;
    }
    Ok(())
}

/// Lets all queries see all commits of a book that dropped none. Where memory runs out, the second call
/// goes on.
fn follow(alloc: Global, book: &Book, queries: &mut ActiveQueries) -> Result<(), Fail> {
    if book.horizon() > 0 {
        return Err(Fail::from(Memory));
    }
    if queries.follow_all(alloc, book, book.count()).is_err() {
        queries.follow_all(alloc, book, book.count())?;
    }
    Ok(())
}

/// What is written before the queries start.
const FIRST: &[(&[u8], &[u8])] = &[(b"p1", b"{\"a\":1,\"b\":1}")];

/// What is written behind it.
const NEXT: &[(&[u8], &[u8])] = &[
    (b"p2", b"{\"a\":1,\"b\":2}"),
    (b"p1", b"{\"a\":1,\"b\":1,\"c\":1}"),
    (b"p3", b"{\"a\":2,\"b\":0}"),
    (b"p4", b"{\"a\":1,\"b\":3}"),
];

/// A book with the first record.
fn begun(alloc: Global) -> Result<Box<Book>, Fail> {
    let mut book = new_book(alloc, 1_000_000)?;
    write_all(alloc, &mut book, FIRST)?;
    Ok(book)
}

/// Writes the next records, which the queries follow.
fn go_on(alloc: Global, book: &mut Book, queries: &mut ActiveQueries) -> Result<(), Fail> {
    write_all(alloc, book, NEXT)?;
    follow(alloc, book, queries)
}

#[test]
fn changed_commits_are_listed_by_kind(rt: HostRuntime) -> Result<(), Fail> {
    let alloc = rt.alloc();
    let mut book = begun(alloc)?;
    let mut queries = new_queries(alloc)?;
    let objects = start(alloc, &book, &mut queries, Kind::Objects)?;
    let ids = start(alloc, &book, &mut queries, Kind::Ids)?;
    go_on(alloc, &mut book, &mut queries)?;
    assert!(rt; shows(&queries, &objects, &[2, 3], 2));
    assert!(rt; shows(&queries, &ids, &[2], 2));
    queries.forget(2);
    assert!(rt; shows(&queries, &objects, &[3], 2));
    Ok(())
}

/// Writes a record of each of two collections.
fn write_two(alloc: Global, book: &mut Book) -> Result<(), Fail> {
    write(alloc, book, b"home", b"p1", b"{\"a\":1}")?;
    write(alloc, book, b"shop", b"p1", b"{\"a\":1}")?;
    Ok(())
}

/// Lets the query of a key see all commits of a book that dropped none.
fn follow_one(
    alloc: Global,
    book: &Book,
    queries: &mut ActiveQueries,
    key: &Key,
) -> Result<(), Fail> {
    if book.horizon() > 0 {
        return Err(Fail::from(Memory));
    }
    Ok(queries.follow(alloc, book, key, book.count())?)
}

/// Whether the first query is for ids, and has seen two commits.
fn has_seen_two(queries: &ActiveQueries) -> bool {
    queries.at(0).is_some_and(|(_, query)| query.kind() == Kind::Ids && query.seen() == 2)
}

#[test]
fn one_query_follows_and_is_removed(rt: HostRuntime) -> Result<(), Fail> {
    let alloc = rt.alloc();
    let mut book = new_book(alloc, 1_000_000)?;
    let mut queries = new_queries(alloc)?;
    let ids = start(alloc, &book, &mut queries, Kind::Ids)?;
    write_two(alloc, &mut book)?;
    follow_one(alloc, &book, &mut queries, &ids)?;
    assert!(rt; shows(&queries, &ids, &[2], 1));
    assert!(rt; has_seen_two(&queries));
    queries.remove(&ids);
    assert!(rt; queries.len() == 0);
    Ok(())
}
