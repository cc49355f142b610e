//! The index of queries: that it finds what a plain and slow program does, and the worked cases.
ghost use Rattle.std.specs.Prelude.{◌≡◌, true, IfOk};
ghost use Rattle.match_index.specs.Candidates.{is_query};

use crate::store::query;
use commit_book::CommitRow;
use match_index::Index;
use q_base::Name;
use q_doc::Doc;
use query_core::{Filter, Form, Kind, Op, Query, satisfies};
use query_normal::{Key, KeyShape, normal};
use std::alloc::Global;
use std::test::Fail;

/// The key of the objects of `shop` that satisfy a filter.
fn key_of(alloc: Global, filter: &str) -> Result<Key, Fail>
    ensures { IfOk result (λ key. is_query key ≡ true) }
{
    let query = query(alloc, [filter, "", "0", "10"])?;
    let normal = normal(alloc, Box::into_inner(query))?;
    Ok(Key::query(alloc, Kind::Objects, normal)?)
}

/// An index without a key.
fn new_index(alloc: Global) -> Result<Box<Index>, Fail> {
    Ok(Box::new(alloc, Index::new(alloc))?)
}

/// Adds the key of a filter to an index, and to a list.
fn add(alloc: Global, index: &mut Index, keys: &mut Vec<Key>, filter: &str) -> Result<(), Fail> {
    let key = key_of(alloc, filter)?;
    index.insert(&key)?;
    keys.push(key)?;
    Ok(())
}

/// Adds the keys of filters.
fn add_all(
    alloc: Global,
    index: &mut Index,
    keys: &mut Vec<Key>,
    filters: &[&str],
) -> Result<(), Fail> {
    for filter in filters {
        add(alloc, index, keys, filter)?;
    }
    Ok(())
}

/// The document of a text; an empty text is none.
fn document(alloc: Global, text: &[u8]) -> Result<Option<Doc>, Fail> {
    if text.is_empty() {
        Ok(None)
    } else {
        Ok(Some(Doc::read(alloc, text)?))
    }
}

/// A commit of a record of a collection with these documents.
fn row(
    alloc: Global,
    collection: &[u8],
    before: &[u8],
    after: &[u8],
) -> Result<Box<CommitRow>, Fail> {
    let row = CommitRow {
        commit: 1,
        collection: Name::read(alloc, collection)?,
        id: Name::read(alloc, b"p1")?,
        before: document(alloc, before)?,
        after: document(alloc, after)?,
    };
    Ok(Box::new(alloc, row)?)
}

// The plain program: of each key it looks at the filter, and asks whether its first equality is true of
// either document.

fn is_true(filter: &Filter, document: &Option<Doc>) -> bool {
    match document {
        Some(document) => satisfies(filter, document),
        None => false,
    }
}

fn is_equality(filter: &Filter) -> bool {
    match &filter.form {
        Form::Compare { op, .. } => *op == Op::Equal,
        _ => false,
    }
}

/// Whether the first equality among these, if there is one, is true of either document.
fn concerns_first(operands: &[Filter], row: &CommitRow) -> bool {
    for operand in operands {
        if is_equality(operand) {
            return is_true(operand, &row.before) || is_true(operand, &row.after);
        }
    }
    true
}

fn concerns(query: &Query, row: &CommitRow) -> bool {
    let filter = &query.filter;
    query.collection == row.collection
        && match &filter.form {
            Form::And(operands) => concerns_first(operands, row),
            _ => !is_equality(filter)
                || is_true(filter, &row.before)
                || is_true(filter, &row.after),
        }
}

fn concerns_key(key: &Key, row: &CommitRow) -> bool {
    match key.shape() {
        KeyShape::Query { normal, .. } => concerns(normal.query(), row),
        KeyShape::Record { .. } => false,
    }
}

fn is_among(key: &Key, keys: &[Key]) -> bool {
    for other in keys {
        if key == other {
            return true;
        }
    }
    false
}

/// Whether what is found is what the plain program chooses of these keys.
fn is_chosen(keys: &[Key], row: &CommitRow, found: &[Key]) -> bool {
    for key in keys {
        if concerns_key(key, row) != is_among(key, found) {
            return false;
        }
    }
    true
}

/// Whether an index that holds these keys finds those that the plain program does, and no other.
fn agrees(index: &Index, keys: &[Key], row: &CommitRow) -> Result<bool, Fail> {
    let found = index.candidates(row)?;
    for key in found.as_slice() {
        if !is_among(key, keys) {
            return Ok(false);
        }
    }
    Ok(is_chosen(keys, row, found.as_slice()))
}

/// The filters of some queries.
const FILTERS: &[&str] = &[
    "a = 1",
    "a = 2",
    "a = \"1\"",
    "a = true",
    "a = null",
    "a != 1",
    "a > 1",
    "a in [1, 2]",
    "a has 1",
    "exists a",
    "not (a = 1)",
    "a = 1 or b = 1",
    "a = 1 and b > 0",
    "b = 1 and a = 2",
    "b > 0 and a > 0",
    "c = 1 and b != 1 and d.e = 2",
    "d.e = 2",
    "true",
];

/// Some documents, and none.
const TEXTS: &[&[u8]] = &[
    b"",
    b"{}",
    b"{\"a\":1}",
    b"{\"a\":2,\"b\":1}",
    b"{\"a\":\"1\"}",
    b"{\"a\":true,\"b\":0}",
    b"{\"a\":null}",
    b"{\"a\":[1],\"b\":1}",
    b"{\"a\":1,\"b\":1,\"c\":1,\"d\":{\"e\":2}}",
    b"{\"d\":{\"e\":3}}",
];

/// Whether the index agrees with the plain program on commits from a document to each other.
fn agrees_from(
    alloc: Global,
    index: &Index,
    keys: &[Key],
    collection: &[u8],
    before: &[u8],
) -> Result<bool, Fail> {
    for after in TEXTS {
        let row = row(alloc, collection, before, after)?;
        if !agrees(index, keys, &row)? {
            return Ok(false);
        }
    }
    Ok(true)
}

/// Whether it does on commits from each document to each other.
fn agrees_in(alloc: Global, index: &Index, keys: &[Key], collection: &[u8]) -> Result<bool, Fail> {
    for before in TEXTS {
        if !agrees_from(alloc, index, keys, collection, before)? {
            return Ok(false);
        }
    }
    Ok(true)
}

/// Removes the first half of the keys.
fn thin(index: &mut Index, keys: &mut Vec<Key>) {
    for place in 0..keys.len() / 2 {
        if place < keys.len() {
            let key = keys.swap_remove(place);
            index.remove(&key);
        }
    }
}

#[test]
fn the_index_finds_what_a_plain_program_does(rt: HostRuntime) -> Result<(), Fail> {
    let alloc = rt.alloc();
    let mut index = new_index(alloc)?;
    let mut keys = Vec::new(alloc);
    add_all(alloc, &mut index, &mut keys, FILTERS)?;
    assert!(rt; agrees_in(alloc, &index, &keys, b"shop")?);
    assert!(rt; agrees_in(alloc, &index, &keys, b"toys")?);
    Ok(())
}

#[test]
fn it_does_so_when_keys_are_removed_and_come_again(rt: HostRuntime) -> Result<(), Fail> {
    let alloc = rt.alloc();
    let mut index = new_index(alloc)?;
    let mut keys = Vec::new(alloc);
    add_all(alloc, &mut index, &mut keys, FILTERS)?;
    thin(&mut index, &mut keys);
    assert!(rt; index.len() == keys.len());
    assert!(rt; agrees_in(alloc, &index, &keys, b"shop")?);
    add_all(alloc, &mut index, &mut keys, FILTERS)?;
    assert!(rt; index.len() == FILTERS.len());
    assert!(rt; agrees_in(alloc, &index, &keys, b"shop")?);
    Ok(())
}

/// Filters that ask for the values 0 to 19 of n.
const VALUES: &[&str] = &[
    "n = 0", "n = 1", "n = 2", "n = 3", "n = 4", "n = 5", "n = 6", "n = 7", "n = 8", "n = 9",
    "n = 10", "n = 11", "n = 12", "n = 13", "n = 14", "n = 15", "n = 16", "n = 17", "n = 18",
    "n = 19",
];

/// The number of keys that are found, all of which are to be among these.
fn count(index: &Index, row: &CommitRow, keys: &[Key]) -> Result<usize, Fail> {
    let found = index.candidates(row)?;
    for key in found.as_slice() {
        if !is_among(key, keys) {
            return Ok(keys.len() + found.len() + 1);
        }
    }
    Ok(found.len())
}

#[test]
fn a_new_value_concerns_the_queries_of_both_values(rt: HostRuntime) -> Result<(), Fail> {
    let alloc = rt.alloc();
    let mut index = new_index(alloc)?;
    let mut keys = Vec::new(alloc);
    add_all(alloc, &mut index, &mut keys, VALUES)?;
    let moved = row(alloc, b"shop", b"{\"n\":3}", b"{\"n\":17}")?;
    let mut both = Vec::new(alloc);
    both.push(key_of(alloc, "n = 3")?)?;
    both.push(key_of(alloc, "n = 17")?)?;
    assert!(rt; count(&index, &moved, &both)? == 2);
    let kept = row(alloc, b"shop", b"{\"n\":3}", b"{\"n\":3,\"m\":1}")?;
    assert!(rt; count(&index, &kept, &both)? == 1);
    Ok(())
}

#[test]
fn a_query_with_an_equality_beside_a_range_is_found_by_it(rt: HostRuntime) -> Result<(), Fail> {
    let alloc = rt.alloc();
    let mut index = new_index(alloc)?;
    let mut keys = Vec::new(alloc);
    add(alloc, &mut index, &mut keys, "a = 1 and b > 0")?;
    let put = row(alloc, b"shop", b"", b"{\"a\":1,\"b\":1}")?;
    assert!(rt; count(&index, &put, &keys)? == 1);
    let other = row(alloc, b"shop", b"", b"{\"a\":2,\"b\":1}")?;
    assert!(rt; count(&index, &other, &keys)? == 0);
    Ok(())
}
