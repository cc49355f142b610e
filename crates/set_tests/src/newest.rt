//! Random commits and drops: what the newest documents take is compared with what they take one by one.

use crate::store::new_book;
use crate::walks::{Habit, next, write_one};
use commit_book::Book;
use q_base::Name;
use std::alloc::Global;
use std::test::Fail;

/// What the documents of a collection take after the last commit: of each 64 bytes, its names and its text.
fn slow_count(book: &Book, collection: &Name) -> Result<u64, Fail> {
    let names = 64 + collection.as_slice().len() as u64;
    let mut sum = 0u64;
    for (id, _, document) in book.documents_of(book.count(), collection)?.as_slice() {
        let own = id.as_slice().len() as u64;
        let text = document.printed_len() as u64;
        sum = sum
            .saturating_add(names)
            .saturating_add(own)
            .saturating_add(text);
    }
    Ok(sum)
}

/// Whether the book counts as much as both collections have, and no more than it keeps.
fn is_counted(alloc: Global, book: &Book) -> Result<bool, Fail> {
    let shop = slow_count(book, &Name::read(alloc, b"shop")?)?;
    let home = slow_count(book, &Name::read(alloc, b"home")?)?;
    Ok(book.live() == shop.saturating_add(home) && book.live() <= book.bytes())
}

/// Drops some of the rows.
fn drop_some(book: &mut Book, number: u64) {
    let to = book.horizon().saturating_add(number % 7);
    if to <= book.count() {
        book.drop_to(to);
    }
}

/// Writes, and drops at times. The next number, or none where the count is wrong.
fn step(alloc: Global, book: &mut Book, number: u64, habit: &Habit) -> Result<Option<u64>, Fail> {
    let number = write_one(alloc, book, number, habit)?;
    if number % 5 == 0 {
        drop_some(book, next(number));
    }
    Ok(if is_counted(alloc, book)? {
        Some(number)
    } else {
        None
    })
}

/// Whether the count is right over a number of steps.
fn is_right(alloc: Global, ids: u64, deletions: u64, seed: u64) -> Result<bool, Fail> {
    let habit = Habit { ids, deletions };
    let mut book = new_book(alloc, 10_000_000)?;
    let mut number = seed;
    for _ in 0..300 {
        match step(alloc, &mut book, number, &habit)? {
            Some(following) => number = following,
            None => return Ok(false),
        }
    }
    Ok(true)
}

#[test]
fn live_is_what_the_newest_documents_take(rt: HostRuntime) -> Result<(), Fail> {
    assert!(rt; is_right(rt.alloc(), 12, 20, 5)?);
    assert!(rt; is_right(rt.alloc(), 3, 60, 77)?);
    assert!(rt; is_right(rt.alloc(), 200, 5, 1_234)?);
    Ok(())
}
