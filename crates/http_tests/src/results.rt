//! Results of queries, given in pieces of several sizes, also one that is longer than the buffer of replies.
use crate::purges::{NEVER, SIZES, WHOLE, body_given, reply_given};
use crate::replies::{HEAD, PLAIN};
use http_front::Told;
use hub_model::{Answer, Outcome};
use q_base::{Moment, Name, SharedText};
use result_kinds::{PrintedRow, ResultText};
use std::alloc::Global;
use std::test::Fail;

/// The body with two objects.
const TWO_OBJECTS: &[u8] =
    b"[{\"doc\":{\"a\":1},\"id\":\"p1\",\"version\":5},{\"doc\":{\"a\":1},\"id\":\"p1\",\"version\":5}]";

/// The body with two ids.
const TWO_IDS: &[u8] = b"[\"p1\",\"p2\"]";

/// The body with no row.
const NO_ROWS: &[u8] = b"[]";

/// A read that found this.
fn told_of(alloc: Global, text: ResultText) -> Result<Box<Told>, Fail> {
    let told = Told::Read(Answer {
        commit: 7,
        clock: Moment::of(100),
        ttl: 60,
        shared: 0,
        result: Outcome::Whole {
            text,
            version: None,
        },
    });
    Ok(Box::new(alloc, told)?)
}

/// A row.
fn row(alloc: Global) -> Result<PrintedRow, Fail> {
    Ok(PrintedRow {
        id: Name::read(alloc, b"p1")?,
        version: 5,
        text: SharedText::of(alloc, b"{\"a\":1}".to_vec(alloc)?)?,
    })
}

/// So many rows as objects.
fn objects(alloc: Global, count: u64) -> Result<Box<Told>, Fail> {
    let mut rows = Vec::new(alloc);
    for _ in 0..count {
        rows.push(row(alloc)?)?;
    }
    told_of(alloc, ResultText::of_objects(rows)?)
}

/// Two ids, or none.
fn ids(alloc: Global, some: bool) -> Result<Box<Told>, Fail> {
    let mut ids = Vec::new(alloc);
    if some {
        ids.push(Name::read(alloc, b"p1")?)?;
        ids.push(Name::read(alloc, b"p2")?)?;
    }
    told_of(alloc, ResultText::of_ids(ids)?)
}

/// The text of so many objects.
fn long_body(alloc: Global, count: u64) -> Result<Vec<u8>, Fail> {
    let mut text = Vec::from_slice(alloc, b"[")?;
    for _ in 1..count {
        text.extend_from_slice(b"{\"doc\":{\"a\":1},\"id\":\"p1\",\"version\":5},")?;
    }
    text.extend_from_slice(b"{\"doc\":{\"a\":1},\"id\":\"p1\",\"version\":5}]")?;
    Ok(text)
}

#[test]
fn results_are_given_in_whatever_pieces(rt: HostRuntime) -> Result<(), Fail> {
    let told = objects(rt.alloc(), 2)?;
    for size in SIZES {
        let given = reply_given(rt.alloc(), &told, PLAIN, size, NEVER)?;
        assert!(rt; given.ends_with(TWO_OBJECTS));
        let head = reply_given(rt.alloc(), &told, HEAD, size, NEVER)?;
        assert!(rt; head.ends_with(b"\r\n\r\n") && given.starts_with(&head));
    }
    assert_eq!(rt; body_given(rt.alloc(), &told)?.as_slice(), TWO_OBJECTS);
    Ok(())
}

#[test]
fn ids_and_empty_lists_are_given(rt: HostRuntime) -> Result<(), Fail> {
    let two = ids(rt.alloc(), true)?;
    assert_eq!(rt; body_given(rt.alloc(), &two)?.as_slice(), TWO_IDS);
    let none = ids(rt.alloc(), false)?;
    assert_eq!(rt; body_given(rt.alloc(), &none)?.as_slice(), NO_ROWS);
    let empty = objects(rt.alloc(), 0)?;
    assert_eq!(rt; body_given(rt.alloc(), &empty)?.as_slice(), NO_ROWS);
    Ok(())
}

#[test]
fn a_long_result_passes_through_the_buffer(rt: HostRuntime) -> Result<(), Fail> {
    let told = objects(rt.alloc(), 2_000)?;
    let body = long_body(rt.alloc(), 2_000)?;
    assert!(rt; body.len() > 65_536);
    let whole = reply_given(rt.alloc(), &told, PLAIN, WHOLE, NEVER)?;
    assert!(rt; whole.ends_with(&body));
    // the buffer has 10,240 bytes, which are given first
    let part = reply_given(rt.alloc(), &told, PLAIN, WHOLE, 1)?;
    assert!(rt; part.len() > 10_000 && part.len() <= 10_240 && whole.starts_with(&part));
    assert_eq!(rt; body_given(rt.alloc(), &told)?, body);
    Ok(())
}
