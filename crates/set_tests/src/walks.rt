//! Random commits: what a set shows and tells is compared with windows made from scratch.
ghost use Rattle.query_core.specs.Limits.{IsQuery};

use crate::slow::{is_step, shows};
use crate::store::{go, go_and_back, last_row, new_book, query, set_now, window_now, write};
use commit_book::{Book, CommitRow};
use match_sets::{MatchSet, MatchStep, Notice};
use query_core::{Query, Rows};
use std::alloc::Global;
use std::test::Fail;

/// The next of a row of numbers below 65,537.
pub fn next(number: u64) -> u64 {
    ((number % 65_537) * 75 + 74) % 65_537
}

fn digit(number: u64) -> u8 {
    b'0' + (number % 10) as u8
}

/// An id of three digits.
pub fn id(alloc: Global, number: u64) -> Result<Vec<u8>, Fail> {
    let mut id = Vec::new(alloc);
    id.push(b'p')?;
    id.push(digit(number / 100))?;
    id.push(digit(number / 10))?;
    id.push(digit(number))?;
    Ok(id)
}

/// A document with two members of one digit.
fn document(alloc: Global, number: u64) -> Result<Vec<u8>, Fail> {
    let mut text = Vec::from_slice(alloc, b"{\"a\":")?;
    text.push(digit(number / 10))?;
    text.extend_from_slice(b",\"b\":")?;
    text.push(digit(number))?;
    text.push(b'}')?;
    Ok(text)
}

/// Which records a walk writes, and of a hundred writes how many delete.
#[derive(Clone, Copy, Drop)]
pub struct Habit {
    pub ids: u64,
    pub deletions: u64,
}

/// The collection of a write: of twenty one is in another.
pub fn collection(number: u64) -> &'static [u8] {
    if number % 20 == 0 { b"home" } else { b"shop" }
}

/// Which record a write is of.
pub fn record(number: u64, habit: &Habit) -> u64 {
    if habit.ids == 0 {
        0
    } else {
        number % habit.ids
    }
}

/// What is written: a document, or no text, which deletes.
pub fn text(alloc: Global, number: u64, deletes: bool) -> Result<Vec<u8>, Fail> {
    if deletes {
        Ok(Vec::new(alloc))
    } else {
        document(alloc, number)
    }
}

/// A random write.
pub fn write_one(alloc: Global, book: &mut Book, number: u64, habit: &Habit) -> Result<u64, Fail> {
    let second = next(number);
    let third = next(second);
    let id = id(alloc, record(number, habit))?;
    let text = text(alloc, third, second % 100 < habit.deletions)?;
    write(alloc, book, collection(third), &id, &text)?;
    Ok(next(third))
}

/// Takes the set over the commit and back. Whether it is as it was.
fn is_back(
    alloc: Global,
    book: &Book,
    query: &Query,
    set: &mut MatchSet,
    before: &Rows,
    row: &CommitRow,
) -> Result<bool, Fail> {
    let kept = set.kept();
    go_and_back(alloc, book, query, set, row)?;
    Ok(set.kept() == kept && shows(set, before))
}

/// Takes the set over the commit. Whether all that it shows and tells is right.
fn is_over(
    alloc: Global,
    book: &Book,
    query: &Query,
    set: &mut MatchSet,
    before: &Rows,
    row: &CommitRow,
) -> Result<bool, Fail> {
    let step = go(alloc, book, query, set, row)?;
    let after = window_now(alloc, book, query)?;
    Ok(shows(set, &after) && is_step_of(row, query, before, &after, &step))
}

/// Takes the set along the last commit: over it, back, and over it again. Whether all that it shows
/// and tells is right.
fn is_right(
    alloc: Global,
    book: &Book,
    query: &Query,
    set: &mut MatchSet,
    before: &Rows,
) -> Result<bool, Fail> {
    let row = last_row(alloc, book)?;
    let is_back = is_back(alloc, book, query, set, before, &row)?;
    let is_over = is_over(alloc, book, query, set, before, &row)?;
    Ok(is_back && is_over)
}

/// Whether the step is right: of a row of another collection that nothing happened.
fn is_step_of(
    row: &CommitRow,
    query: &Query,
    before: &Rows,
    after: &Rows,
    step: &MatchStep,
) -> bool {
    if row.collection == query.collection {
        is_step(&row.id, before, after, step)
    } else {
        step.notice == Notice::Nothing
            && step.slid_in.is_none()
            && step.slid_out.is_none()
            && !step.objects_changed
            && !step.ids_changed
    }
}

/// Writes, and takes the set along. The next number, or none where something is not right.
fn step(
    alloc: Global,
    book: &mut Book,
    query: &Query,
    set: &mut MatchSet,
    number: u64,
    habit: &Habit,
) -> Result<Option<u64>, Fail> {
    let before = window_now(alloc, book, query)?;
    let next = write_one(alloc, book, number, habit)?;
    Ok(is_right(alloc, book, query, set, &before)?.then_some(next))
}

/// Whether a set is right over so many random writes.
fn walk(
    alloc: Global,
    book: &mut Book,
    query: &Query,
    set: &mut MatchSet,
    seed: u64,
    habit: &Habit,
) -> Result<bool, Fail> {
    let mut number = seed;
    for _ in 0..150u32 {
        match step(alloc, book, query, set, number, habit)? {
            Some(next) => number = next,
            None => return Ok(false),
        }
    }
    Ok(true)
}

/// Puts records. Returns the next number.
fn fill(alloc: Global, book: &mut Book, ids: u64, seed: u64) -> Result<u64, Fail> {
    let mut number = seed;
    let filling = Habit { ids, deletions: 0 };
    for _ in 0..ids % 500 * 2 {
        number = write_one(alloc, book, number, &filling)?;
    }
    Ok(number)
}

/// Whether a set of the query is right while records are put, and while they are deleted.
fn holds_over(
    alloc: Global,
    book: &mut Book,
    query: &Query,
    ids: u64,
    number: u64,
) -> Result<bool, Fail>
    requires { IsQuery query.now }
{
    let mut set = set_now(alloc, book, query)?;
    let (puts, deletions) = (Habit { ids, deletions: 20 }, Habit { ids, deletions: 90 });
    Ok(
        walk(alloc, book, query, &mut set, number, &puts)?
            && walk(alloc, book, query, &mut set, number, &deletions)?,
    )
}

/// The same over a new book.
fn holds_for(alloc: Global, texts: [&str; 4], ids: u64, seed: u64) -> Result<bool, Fail> {
    let query = query(alloc, texts)?;
    let mut book = new_book(alloc, 10_000_000)?;
    let number = fill(alloc, &mut book, ids, seed)?;
    holds_over(alloc, &mut book, &query, ids, number)
}

#[test]
fn a_small_window_is_that_from_scratch(rt: HostRuntime) -> Result<(), Fail> {
    assert!(rt; holds_for(rt.alloc(), ["a < 6", "a", "1", "3"], 12, 5)?);
    assert!(rt; holds_for(rt.alloc(), ["true", "a desc,b", "0", "2"], 9, 77)?);
    assert!(rt; holds_for(rt.alloc(), ["b = 3 or a > 4", "", "3", "1"], 15, 1_234)?);
    Ok(())
}
