//! What no clause says: known vectors, and that a page is read where there is memory.

use flat_snapshot::{Page, PageRefusal, set_bit, write_head};
use q_base::{Moment, Name, positions_of};
use query_normal::Key;
use std::alloc::Global;
use std::test::Fail;

#[test]
fn heads_are_refused_as_in_the_vectors(rt: HostRuntime) -> Result<(), Fail> {
    // The first bytes, the length with zeros behind them, and the refusal.
    let cases: [(&[u8], usize, PageRefusal); 9] = [
        (b"", 0, PageRefusal::BadSize { want: 30, found: 0 }),
        (b"QSF", 3, PageRefusal::BadSize { want: 30, found: 3 }),
        (b"QQ\x051\x0b\x0a", 158, PageRefusal::BadMark),
        (b"QSFA\x06\x0a", 31, PageRefusal::BadMark),
        (b"QSF1\x00\x17", 158, PageRefusal::BadField { place: 4 }),
        (b"QSF1\x10\x17", 158, PageRefusal::BadField { place: 5 }),
        (
            b"QSF1\x07\x0a\x00\x00\x00\x00\x00\x00\x00\x01",
            158,
            PageRefusal::BadField { place: 6 },
        ),
        (
            b"QSF1\x07\x0a\x00\x00\x00\x00\x00\x00\x00\x01\x00\x00\x00\x00\x00\x00\x00\x07\x00\x00\x41",
            158,
            PageRefusal::BadField { place: 22 },
        ),
        (
            b"QSF1\x10\x0a\x00\x00\x00\x00\x00\x00\x00\x03\x00\x00\x00\x00\x00\x00\x00\x09",
            33,
            PageRefusal::BadSize {
                want: 158,
                found: 33,
            },
        ),
    ];
    for (prefix, size, want) in cases {
        let mut bytes = vec![in rt.alloc(); 0u8; size]?;
        for (i, byte) in prefix.iter().enumerate() {
            if i < bytes.len() {
                bytes[i] = *byte;
            }
        }
        match Page::read(rt.alloc(), &bytes) {
            Ok(_) => assert!(rt; false, "read"),
            Err(found) => assert_eq!(rt; found, want),
        }
    }
    Ok(())
}

/// The key of r/shop/p1.
fn record_key(alloc: Global) -> Result<Key, Fail> {
    let collection = Name::read(alloc, b"shop")?;
    let id = Name::read(alloc, b"p1")?;
    Ok(Key::record(alloc, collection, id)?)
}

/// The page at the start of a buffer.
fn page_in(alloc: Global, buffer: &[u8]) -> Result<Page, Fail> {
    let bytes = buffer.get(..158).ok_or("short")?;
    Ok(Page::read(alloc, bytes)?)
}

/// Whether a page has these numbers.
fn has_numbers(page: &Page, front: u64, commits: u64, moment: Moment) -> bool {
    page.front() == front && page.commits() == commits && page.moment() == moment
}

#[test]
fn a_page_is_written_and_read_where_there_is_memory(rt: HostRuntime) -> Result<(), Fail> {
    let key = record_key(rt.alloc())?;
    let mut buffer = [0xffu8; 160];
    let length = write_head(&mut buffer, 10, 8, 1, 2, Moment::of(100));
    assert!(rt; length == 158);
    let blank = page_in(rt.alloc(), &buffer)?;
    set_all(&mut buffer, positions_of(key.text(), 10, 8).as_slice());
    let page = page_in(rt.alloc(), &buffer)?;
    assert!(rt; !blank.holds(&key) && page.holds(&key));
    assert!(rt; has_numbers(&page, 1, 2, Moment::of(100)));
    // A run in which this allocation is refused shows that the calls after the last read allocate nothing.
    assert!(rt;
        Vec::<u8>::with_capacity(rt.alloc(), 1).is_ok(),
        "the next allocation was refused"
    );
    Ok(())
}

/// Sets the bits at these positions.
fn set_all(page: &mut [u8], positions: &[u32]) {
    for position in positions {
        if 30 + *position as usize / 8 < page.len() {
            set_bit(page, *position);
        }
    }
}
