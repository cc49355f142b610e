//! Random changes and snapshots of buckets: what a snapshot shows is compared with a window over the list
//! of all changes.
ghost use Rattle.std.specs.Prelude.{◌≡◌, ◌+◌, length, IfOk};

use crate::store::{change, query};
use crate::walks::{Habit, collection, id, next, record, text};
use bucket_store::{Buckets, Snapshot};
use commit_book::Change;
use q_base::{Commit, Memory, Name};
use query_core::{Docs, Query, Row, Rows, window};
use std::alloc::Global;
use std::test::Fail;

// The plain program.

/// Makes the change of a commit among rows in no order.
fn apply(rows: &mut Vec<Row>, commit: Commit, change: &Change) -> Result<(), Fail> {
    let found = rows.iter().position(|row| row.0 == change.id);
    if let Some(index) = found {
        if index < rows.len() {
            rows.remove(index);
        }
    }
    if let Some(document) = &change.document {
        rows.push((change.id.clone()?, commit, document.clone()?))?;
    }
    Ok(())
}

/// The documents of a collection after these changes.
fn slow_docs(alloc: Global, changes: &[Change], collection: &Name) -> Result<Docs, Fail> {
    let mut rows = Vec::new(alloc);
    let mut commit = 0u64;
    for change in changes {
        commit = commit.saturating_add(1);
        if change.collection == *collection {
            apply(&mut rows, commit, change)?;
        }
    }
    Ok(Docs::of(rows))
}

/// The window of a query after these changes.
fn slow_window(alloc: Global, changes: &[Change], query: &Query) -> Result<Rows, Fail> {
    let docs = slow_docs(alloc, changes, &query.collection)?;
    Ok(window(alloc, query, &docs)?)
}

/// Whether two lists of rows are the same.
fn is_same(rows: &Rows, others: &Rows) -> bool {
    let (rows, others) = (rows.as_slice(), others.as_slice());
    if rows.len() != others.len() {
        return false;
    }
    for i in 0..rows.len().min(others.len()) {
        if rows[i].0 != others[i].0 || rows[i].1 != others[i].1 || rows[i].2 != others[i].2 {
            return false;
        }
    }
    true
}

// Steps over buckets.

/// No document.
fn new_buckets(alloc: Global) -> Result<Box<Buckets>, Fail> {
    Ok(Box::new(alloc, Buckets::new(alloc)?)?)
}

/// A snapshot of the collection of a query.
fn snapshot(alloc: Global, buckets: &Buckets, query: &Query) -> Result<Box<Snapshot>, Fail>
    ensures { IfOk result (λ made. query.now.collection ≡ made.value.collection) }
{
    Ok(Box::new(alloc, buckets.snapshot(&query.collection)?)?)
}

/// The commit of the next change.
fn next_commit(alloc: Global, buckets: &Buckets) -> Result<Commit, Fail>
    ensures { IfOk result (λ commit. commit ≡ length buckets.now + 1) }
{
    let last = buckets.snapshot(&Name::read(alloc, b"home")?)?.at();
    match last.checked_add(1) {
        Some(commit) => Ok(commit),
        None => Err(Fail::from(Memory)),
    }
}

/// Puts a change, and notes it.
fn put(
    alloc: Global,
    buckets: &mut Buckets,
    changes: &mut Vec<Change>,
    change: Change,
) -> Result<(), Fail> {
    let commit = next_commit(alloc, buckets)?;
    buckets.put(commit, &change)?;
    changes.push(change)?;
    Ok(())
}

/// A random change.
fn some_change(alloc: Global, number: u64, habit: &Habit) -> Result<Change, Fail> {
    let second = next(number);
    let third = next(second);
    let id = id(alloc, record(number, habit))?;
    let text = text(alloc, third, second % 100 < habit.deletions)?;
    change(alloc, collection(third), &id, &text)
}

/// Puts random changes. Returns the next number.
fn put_some(
    alloc: Global,
    buckets: &mut Buckets,
    changes: &mut Vec<Change>,
    number: u64,
    habit: &Habit,
) -> Result<u64, Fail> {
    let mut number = number;
    for _ in 0..12u32 {
        let change = some_change(alloc, number, habit)?;
        put(alloc, buckets, changes, change)?;
        number = next(next(next(number)));
    }
    Ok(number)
}

/// Whether a snapshot shows these rows, at this commit.
fn shows(snapshot: &Snapshot, query: &Query, rows: &Rows, at: usize) -> Result<bool, Fail>
    requires { query.now.collection ≡ snapshot.now.collection }
{
    let shown = snapshot.window(query)?;
    Ok(is_same(&shown, rows) && snapshot.at() == at as u64)
}

/// Takes a snapshot, and puts changes. The next number, or none where the snapshot is not right before
/// or behind them.
fn step(
    alloc: Global,
    buckets: &mut Buckets,
    changes: &mut Vec<Change>,
    query: &Query,
    number: u64,
    habit: &Habit,
) -> Result<Option<u64>, Fail> {
    let taken = snapshot(alloc, buckets, query)?;
    let (rows, at) = (slow_window(alloc, changes, query)?, changes.len());
    let is_right = shows(&taken, query, &rows, at)?;
    let number = put_some(alloc, buckets, changes, number, habit)?;
    let is_kept = shows(&taken, query, &rows, at)?;
    Ok((is_right && is_kept).then_some(number))
}

/// Takes a snapshot, and makes steps with snapshots of their own. The next number, or none where one is
/// not right.
fn steps(
    alloc: Global,
    buckets: &mut Buckets,
    changes: &mut Vec<Change>,
    query: &Query,
    number: u64,
    habit: &Habit,
) -> Result<Option<u64>, Fail> {
    let taken = snapshot(alloc, buckets, query)?;
    let (rows, at) = (slow_window(alloc, changes, query)?, changes.len());
    let mut number = number;
    for _ in 0..4u32 {
        match step(alloc, buckets, changes, query, number, habit)? {
            Some(next) => number = next,
            None => return Ok(None),
        }
    }
    Ok(shows(&taken, query, &rows, at)?.then_some(number))
}

/// Whether all snapshots of a run are right.
fn holds_for(alloc: Global, texts: [&str; 4], habit: &Habit, seed: u64) -> Result<bool, Fail> {
    let query = query(alloc, texts)?;
    let mut buckets = new_buckets(alloc)?;
    let mut changes = Vec::new(alloc);
    let mut number = seed;
    for _ in 0..5u32 {
        match steps(alloc, &mut buckets, &mut changes, &query, number, habit)? {
            Some(next) => number = next,
            None => return Ok(false),
        }
    }
    Ok(true)
}

#[test]
fn snapshots_show_the_windows_of_their_commits(rt: HostRuntime) -> Result<(), Fail> {
    let few = Habit {
        ids: 12,
        deletions: 30,
    };
    let many = Habit {
        ids: 900,
        deletions: 20,
    };
    assert!(rt; holds_for(rt.alloc(), ["a < 6", "a", "1", "3"], &few, 5)?);
    assert!(rt; holds_for(rt.alloc(), ["true", "a desc,b", "0", "500"], &many, 77)?);
    Ok(())
}

/// The version of the only row that a snapshot shows, 0 where there is none or more than one.
fn only(snapshot: &Snapshot, query: &Query) -> Result<Commit, Fail>
    requires { query.now.collection ≡ snapshot.now.collection }
{
    let rows = snapshot.window(query)?;
    match rows.as_slice() {
        [row] => Ok(row.1),
        _ => Ok(0),
    }
}

#[test]
fn a_snapshot_keeps_its_window_behind_a_put(rt: HostRuntime) -> Result<(), Fail> {
    let alloc = rt.alloc();
    let query = query(alloc, ["true", "", "0", "10"])?;
    let mut buckets = new_buckets(alloc)?;
    let mut changes = Vec::new(alloc);
    let none = snapshot(alloc, &buckets, &query)?;
    put(
        alloc,
        &mut buckets,
        &mut changes,
        change(alloc, b"shop", b"p1", b"{\"a\":1}")?,
    )?;
    let first = snapshot(alloc, &buckets, &query)?;
    put(
        alloc,
        &mut buckets,
        &mut changes,
        change(alloc, b"shop", b"p1", b"{\"a\":2}")?,
    )?;
    let second = snapshot(alloc, &buckets, &query)?;
    put(
        alloc,
        &mut buckets,
        &mut changes,
        change(alloc, b"shop", b"p1", b"")?,
    )?;
    let last = snapshot(alloc, &buckets, &query)?;
    assert!(rt; only(&none, &query)? == 0 && none.at() == 0);
    assert!(rt; only(&first, &query)? == 1 && first.at() == 1);
    assert!(rt; only(&second, &query)? == 2 && second.at() == 2);
    assert!(rt; only(&last, &query)? == 0 && last.at() == 3);
    Ok(())
}
