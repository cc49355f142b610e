//! What no clause says: the worked case of the capacity, that calls succeed where there is memory,
//! and that look-ups take none. A function here takes one step, since the time of its proof grows
//! faster than its length.

use commit_book::{Book, BookRefusal, Change};
use q_base::{Name, SharedText};
use q_doc::Doc;
use std::alloc::Global;
use std::test::Fail;

/// A name.
fn name(alloc: Global, text: &[u8]) -> Result<Name, Fail> {
    Ok(Name::read(alloc, text)?)
}

/// The document of a text; an empty text is a deletion.
fn document(alloc: Global, text: &[u8]) -> Result<Option<Doc>, Fail> {
    if text.is_empty() {
        Ok(None)
    } else {
        Ok(Some(Doc::read(alloc, text)?))
    }
}

/// A change of a record of `shop`; an empty text is a deletion.
fn change(alloc: Global, id: &[u8], text: &[u8]) -> Result<Change, Fail> {
    Ok(Change {
        collection: name(alloc, b"shop")?,
        id: name(alloc, id)?,
        document: document(alloc, text)?,
    })
}

/// Adds a change of a record of `shop`.
fn add(alloc: Global, book: &mut Book, id: &[u8], text: &[u8]) -> Result<(), Fail> {
    let change = change(alloc, id, text)?;
    if book.count() < u64::MAX {
        book.add(&change)?;
    }
    Ok(())
}

/// Adds the short document of p2.
fn add_short(alloc: Global, book: &mut Book) -> Result<(), Fail> {
    add(alloc, book, b"p2", b"{\"a\":1}")
}

/// A book without a commit. It is boxed, since each end of a function lets go of a book part by part,
/// which is long to prove, and of a box by one call.
fn new_book(alloc: Global) -> Result<Box<Book>, Fail> {
    Ok(Box::new(alloc, Book::new(alloc, 65_792)?)?)
}

/// Adds letters to a text.
fn push_letters(text: &mut Vec<u8>, count: u32) -> Result<(), Fail> {
    for _ in 0..count {
        text.push(b'x')?;
    }
    Ok(())
}

/// A document whose one text has 65,528 letters.
fn long_text(alloc: Global) -> Result<Vec<u8>, Fail> {
    let mut text = Vec::new(alloc);
    text.extend_from_slice(b"{\"a\":\"")?;
    push_letters(&mut text, 65_528)?;
    text.extend_from_slice(b"\"}")?;
    Ok(text)
}

/// Adds a long document.
fn add_long(alloc: Global, book: &mut Book) -> Result<(), Fail> {
    let text = long_text(alloc)?;
    add(alloc, book, b"p1", &text)
}

/// Adds a long document, and a short one twice.
fn fill(alloc: Global, book: &mut Book) -> Result<(), Fail> {
    add_long(alloc, book)?;
    add_short(alloc, book)?;
    add_short(alloc, book)
}

/// A book of three commits that has room for less than a short document.
fn almost_full(alloc: Global) -> Result<Box<Book>, Fail> {
    let mut book = new_book(alloc)?;
    fill(alloc, &mut book)?;
    Ok(book)
}

/// Whether it is the refusal of a change that would lead to this sum.
fn is_full_with(refusal: Option<BookRefusal>, sum: u64) -> bool {
    match refusal {
        Some(BookRefusal::Full { bytes }) => bytes == sum,
        _ => false,
    }
}

/// Whether a change is refused with this sum, by both calls.
fn is_full(book: &mut Book, change: &Change, sum: u64) -> bool {
    is_full_with(book.reserve(change).err(), sum)
        && book.count() < u64::MAX
        && is_full_with(book.add(change).err(), sum)
}

/// Whether the short document, which takes 77 bytes, is refused.
fn is_full_for_short(alloc: Global, book: &mut Book) -> Result<bool, Fail> {
    let short = change(alloc, b"p2", b"{\"a\":1}")?;
    Ok(short.cost() == 77 && is_full(book, &short, 65_837))
}

#[test]
fn a_change_above_the_capacity_is_refused(rt: HostRuntime) -> Result<(), Fail> {
    let mut book = almost_full(rt.alloc())?;
    assert!(rt; is_full_for_short(rt.alloc(), &mut book)?);
    assert!(rt; book.count() == 3);
    Ok(())
}

/// Whether a look-up found this text; an empty text is none.
fn is_text(found: Option<(u64, &SharedText)>, expected: &[u8]) -> bool {
    match found {
        Some((_, text)) => text.as_slice() == expected,
        None => expected.is_empty(),
    }
}

/// Whether a record of `shop` has this text at a commit; an empty text is none.
fn has_text(book: &Book, commit: u64, shop: &Name, id: &Name, expected: &[u8]) -> bool {
    book.horizon() <= commit
        && commit <= book.count()
        && is_text(book.text_at(commit, shop, id), expected)
}

/// Whether a record has the texts of p2 in the book of four commits.
fn has_texts(book: &Book, shop: &Name, id: &Name) -> bool {
    has_text(book, 2, shop, id, b"{\"a\":1}")
        && has_text(book, 3, shop, id, b"")
        && has_text(book, 4, shop, id, b"{\"a\":4}")
}

/// Whether p2 has its texts.
fn has_texts_of_p2(alloc: Global, book: &Book) -> Result<bool, Fail> {
    let shop = name(alloc, b"shop")?;
    let id = name(alloc, b"p2")?;
    Ok(has_texts(book, &shop, &id))
}

/// A book of four commits: p2 is put, deleted and put again, and p10 is put.
fn four_commits(alloc: Global) -> Result<Box<Book>, Fail> {
    let mut book = new_book(alloc)?;
    put_two(alloc, &mut book)?;
    put_again(alloc, &mut book)?;
    Ok(book)
}

/// Puts two records.
fn put_two(alloc: Global, book: &mut Book) -> Result<(), Fail> {
    add_short(alloc, book)?;
    add(alloc, book, b"p10", b"{\"b\":2}")
}

/// Deletes the first of them and puts it again.
fn put_again(alloc: Global, book: &mut Book) -> Result<(), Fail> {
    add(alloc, book, b"p2", b"")?;
    add(alloc, book, b"p2", b"{\"a\":4}")
}

#[test]
fn documents_are_at_their_commits(rt: HostRuntime) -> Result<(), Fail> {
    let book = four_commits(rt.alloc())?;
    assert!(rt; has_texts_of_p2(rt.alloc(), &book)?);
    Ok(())
}

/// The number of the documents of a collection at the last commit.
fn document_count(book: &Book, shop: &Name) -> Result<usize, Fail> {
    let documents = book.docs_at(book.count(), shop)?;
    Ok(documents.len())
}

/// Whether `shop` has two documents at the last commit.
fn has_two_documents(alloc: Global, book: &Book) -> Result<bool, Fail> {
    let shop = name(alloc, b"shop")?;
    Ok(document_count(book, &shop)? == 2)
}

/// Whether the list of all commits has as many.
fn lists_all_commits(book: &Book) -> Result<bool, Fail> {
    let first = book.horizon();
    let last = book.count();
    let commits = book.commits(first, last)?;
    Ok(first == 0 && commits.len() as u64 == last)
}

#[test]
fn lists_are_made_where_there_is_memory(rt: HostRuntime) -> Result<(), Fail> {
    let book = four_commits(rt.alloc())?;
    assert!(rt; has_two_documents(rt.alloc(), &book)?);
    assert!(rt; lists_all_commits(&book)?);
    Ok(())
}

/// A book of one commit, which puts p2.
fn one_commit(alloc: Global) -> Result<Box<Book>, Fail> {
    let mut book = new_book(alloc)?;
    add_short(alloc, &mut book)?;
    Ok(book)
}

/// Whether the look-ups of the last commit find a document.
fn is_found(book: &Book, shop: &Name, id: &Name) -> bool {
    let last = book.count();
    book.document_at(last, shop, id).is_some() && book.text_at(last, shop, id).is_some()
}

/// Whether they find p2. So short a name takes no memory.
fn is_p2_found(alloc: Global, book: &Book) -> Result<bool, Fail> {
    let shop = name(alloc, b"shop")?;
    let id = name(alloc, b"p2")?;
    Ok(is_found(book, &shop, &id))
}

/// Whether an allocation succeeds.
fn has_memory(alloc: Global) -> bool {
    Vec::<u8>::with_capacity(alloc, 1).is_ok()
}

/// The allocation at the end is the first one after the set-up.
#[test]
fn look_ups_take_no_memory(rt: HostRuntime) -> Result<(), Fail> {
    let book = one_commit(rt.alloc())?;
    assert!(rt; is_p2_found(rt.alloc(), &book)?);
    assert!(rt; has_memory(rt.alloc()), "the next allocation was refused");
    Ok(())
}

/// Drops the rows of a book up to a commit.
fn drop_rows(book: &mut Book, to: u64) {
    if book.horizon() <= to && to <= book.count() {
        book.drop_to(to);
    }
}

/// The almost full book, whose rows are all dropped. Of the two short documents the last one stays.
fn dropped_book(alloc: Global) -> Result<Box<Book>, Fail> {
    let mut book = almost_full(alloc)?;
    drop_rows(&mut book, 3);
    Ok(book)
}

#[test]
fn dropped_rows_leave_room(rt: HostRuntime) -> Result<(), Fail> {
    let mut book = dropped_book(rt.alloc())?;
    assert!(rt; book.horizon() == 3 && book.bytes() == 65_683);
    add_short(rt.alloc(), &mut book)?;
    assert!(rt; book.count() == 4 && book.bytes() == 65_760);
    Ok(())
}

/// The book of four commits, of which the first three are dropped: p2 is deleted at the third and put again.
fn three_dropped(alloc: Global) -> Result<Box<Book>, Fail> {
    let mut book = four_commits(alloc)?;
    drop_rows(&mut book, 3);
    Ok(book)
}

/// Whether a record has a text at commit 3 and one at commit 4, of a book whose horizon is 3.
fn has_texts_from_3(book: &Book, shop: &Name, id: &Name, third: &[u8], fourth: &[u8]) -> bool {
    book.horizon() == 3
        && book.count() == 4
        && is_text(book.text_at(3, shop, id), third)
        && is_text(book.text_at(4, shop, id), fourth)
}

/// Whether p2 has its text of commit 4 alone, and p10 that of commit 2 at both.
fn has_texts_of_both(alloc: Global, book: &Book) -> Result<bool, Fail> {
    let shop = name(alloc, b"shop")?;
    let short = name(alloc, b"p2")?;
    let long = name(alloc, b"p10")?;
    Ok(
        has_texts_from_3(book, &shop, &short, b"", b"{\"a\":4}")
            && has_texts_from_3(book, &shop, &long, b"{\"b\":2}", b"{\"b\":2}"),
    )
}

#[test]
fn documents_stay_from_the_horizon_on(rt: HostRuntime) -> Result<(), Fail> {
    let book = three_dropped(rt.alloc())?;
    assert!(rt; has_texts_of_both(rt.alloc(), &book)?);
    assert!(rt; has_two_documents(rt.alloc(), &book)?);
    Ok(())
}

/// A book that is empty again: p2 was put and deleted.
fn emptied_book(alloc: Global) -> Result<Box<Book>, Fail> {
    let mut book = one_commit(alloc)?;
    add(alloc, &mut book, b"p2", b"")?;
    drop_rows(&mut book, 2);
    Ok(book)
}

#[test]
fn a_deleted_document_leaves_the_book_whole(rt: HostRuntime) -> Result<(), Fail> {
    let mut book = emptied_book(rt.alloc())?;
    assert!(rt; book.count() == 2 && book.bytes() == 0);
    add_short(rt.alloc(), &mut book)?;
    assert!(rt; book.count() == 3 && book.bytes() == 77);
    Ok(())
}

/// The allocation at the end is the first one after the set-up.
#[test]
fn dropping_takes_no_memory(rt: HostRuntime) -> Result<(), Fail> {
    let mut book = four_commits(rt.alloc())?;
    drop_rows(&mut book, 4);
    assert!(rt; book.horizon() == 4);
    assert!(rt; has_memory(rt.alloc()), "the next allocation was refused");
    Ok(())
}
