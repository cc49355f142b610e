//! A book of commits, and sets that follow it. A function here takes one step, and holds what is large in
//! a box: each end of a function lets go of a value part by part, which is long to prove, and of a box by
//! one call.
ghost use Rattle.std.specs.Prelude.{◌≤◌, ◌^◌, IfOk, length};
ghost use Rattle.query_core.specs.Limits.{IsQuery};
ghost use Rattle.match_sets.specs.Contents.{IsMade};

use commit_book::{Book, Change, CommitRow};
use match_sets::{MatchSet, MatchStep, Undo};
use q_base::{Commit, Memory, Name};
use q_doc::Doc;
use query_core::{Docs, Query, Rows, Verdict, satisfies, window};
use query_lang::{Fields, read_query};
use std::alloc::Global;
use std::test::Fail;

/// The query of the collection `shop` with the fields f, o, s and n.
pub fn query(alloc: Global, texts: [&str; 4]) -> Result<Box<Query>, Fail>
    ensures { IfOk result (λ query. IsQuery query.value) }
{
    let fields = Fields {
        f: Some(texts[0]),
        o: Some(texts[1]),
        s: Some(texts[2]),
        n: Some(texts[3]),
        k: None,
    };
    let (query, _) = read_query(alloc, Name::read(alloc, b"shop")?, &fields)?;
    Ok(Box::new(alloc, query)?)
}

/// A book without a commit.
pub fn new_book(alloc: Global, capacity: u64) -> Result<Box<Book>, Fail>
    requires { capacity ≤ 2 ^ 62 }
{
    Ok(Box::new(alloc, Book::new(alloc, capacity)?)?)
}

/// The document of a text; an empty text is a deletion.
fn document(alloc: Global, text: &[u8]) -> Result<Option<Doc>, Fail> {
    if text.is_empty() {
        Ok(None)
    } else {
        Ok(Some(Doc::read(alloc, text)?))
    }
}

/// A change of a record; an empty text is a deletion.
pub fn change(alloc: Global, collection: &[u8], id: &[u8], text: &[u8]) -> Result<Change, Fail> {
    Ok(Change {
        collection: Name::read(alloc, collection)?,
        id: Name::read(alloc, id)?,
        document: document(alloc, text)?,
    })
}

/// Adds a change of a record; an empty text is a deletion.
pub fn write(
    alloc: Global,
    book: &mut Book,
    collection: &[u8],
    id: &[u8],
    text: &[u8],
) -> Result<Commit, Fail> {
    let change = change(alloc, collection, id, text)?;
    if book.count() == u64::MAX {
        return Err(Fail::from(Memory));
    }
    Ok(book.add(&change)?)
}

/// The documents of the query's collection after the last commit, in no particular order.
fn docs(book: &Book, query: &Query) -> Result<Docs, Fail> {
    Ok(Docs::of(book.documents_of(book.count(), &query.collection)?))
}

/// The same, sorted.
fn sorted_docs(book: &Book, query: &Query) -> Result<Docs, Fail> {
    Ok(Docs::of(book.docs_at(book.count(), &query.collection)?))
}

/// The window of the query after the last commit, made from scratch of the sorted documents.
pub fn window_now(alloc: Global, book: &Book, query: &Query) -> Result<Rows, Fail> {
    let docs = sorted_docs(book, query)?;
    Ok(window(alloc, query, &docs)?)
}

/// The set of the query over these documents.
fn set_over(alloc: Global, book: &Book, query: &Query, docs: &Docs) -> Result<Box<MatchSet>, Fail>
    requires { IsQuery query.now }
{
    Ok(Box::new(alloc, MatchSet::start(alloc, query, docs, book.count())?)?)
}

/// The set of the query after the last commit.
pub fn set_now(alloc: Global, book: &Book, query: &Query) -> Result<Box<MatchSet>, Fail>
    requires { IsQuery query.now }
{
    let docs = docs(book, query)?;
    set_over(alloc, book, query, &docs)
}

/// Whether there is a document that satisfies the query.
fn holds(query: &Query, document: &Option<Doc>) -> bool {
    match document {
        Some(document) => satisfies(&query.filter, document),
        None => false,
    }
}

/// The verdict on a commit.
fn verdict(query: &Query, row: &CommitRow) -> Verdict {
    let own = row.collection == query.collection;
    Verdict {
        before: own && holds(query, &row.before),
        after: own && holds(query, &row.after),
    }
}

/// The last commit, if there is one.
fn last_rows(book: &Book) -> Result<Vec<CommitRow>, Fail> {
    let count = book.count();
    let from = count.saturating_sub(1);
    if from < book.horizon() {
        return Err(Fail::from(Memory));
    }
    Ok(book.commits(from, count)?)
}

/// The last commit.
pub fn last_row(alloc: Global, book: &Book) -> Result<Box<CommitRow>, Fail> {
    let mut rows = last_rows(book)?;
    match rows.pop() {
        Some(row) => Ok(Box::new(alloc, row)?),
        None => Err(Fail::from(Memory)),
    }
}

/// Makes a set anew behind a commit.
fn renew(
    alloc: Global,
    book: &Book,
    query: &Query,
    set: &mut MatchSet,
    row: &CommitRow,
) -> Result<(MatchStep, Undo), Fail>
    ensures { IfOk result (λ made. IsMade set.old made.1 set.new) }
{
    let docs = docs(book, query)?;
    Ok(set.renew(alloc, &docs, row, verdict(query, row))?)
}

/// Takes the set over the last commit: by a step, or where it is short by a renewal.
fn go_on(
    alloc: Global,
    book: &Book,
    query: &Query,
    set: &mut MatchSet,
    row: &CommitRow,
) -> Result<(MatchStep, Undo), Fail>
    ensures { IfOk result (λ made. IsMade set.old made.1 set.new) }
{
    let verdict = verdict(query, row);
    if set.short(row, verdict) {
        return renew(alloc, book, query, set, row);
    }
    Ok(set.step(row, verdict)?)
}

/// Takes the set over the last commit, and returns what the step tells.
pub fn go(
    alloc: Global,
    book: &Book,
    query: &Query,
    set: &mut MatchSet,
    row: &CommitRow,
) -> Result<Box<MatchStep>, Fail> {
    let (step, _) = go_on(alloc, book, query, set, row)?;
    Ok(Box::new(alloc, step)?)
}

/// Takes the set over the last commit, and back.
pub fn go_and_back(
    alloc: Global,
    book: &Book,
    query: &Query,
    set: &mut MatchSet,
    row: &CommitRow,
) -> Result<(), Fail> {
    let (_, undo) = go_on(alloc, book, query, set, row)?;
    set.back(undo);
    Ok(())
}
