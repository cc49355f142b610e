//! A query of more rows than are kept of it, which runs short of rows by deletions, and is looked up again:
//! by a match, and by a read. What it shows comes from the definition: the rows in the order of their ids.

use crate::acts::{key, match_all, new_hub, purges, reads, write, write_and_match};
use hub_core::Hub;
use query_normal::Key;
use std::alloc::Global;
use std::test::Fail;

/// The ids of the second and the third document. A window of so many rows, behind one, is kept with 100 more.
const SECOND_AND_THIRD: &[u8] = b"q/shop/ids/f=true;o=;s=1;n=2";

/// A document.
const DOCUMENT: &[u8] = br#"{"a":1}"#;

/// Changes ten records, whose ids are a letter and a digit; an empty text deletes them.
fn write_ten(alloc: Global, hub: &mut Hub, letter: u8, text: &[u8]) -> Result<(), Fail> {
    for digit in b"0123456789" {
        write(alloc, hub, &[letter, *digit], text)?;
    }
    Ok(())
}

/// Changes ten records for each letter.
fn write_tens(alloc: Global, hub: &mut Hub, letters: &[u8], text: &[u8]) -> Result<(), Fail> {
    for letter in letters {
        write_ten(alloc, hub, *letter, text)?;
    }
    Ok(())
}

/// Puts 110 documents, reads the ids, and deletes all but ten: of the 103 rows that were kept 3 are left.
/// Whether the ids were right before and behind the deletions.
fn shrinks(alloc: Global, hub: &mut Hub, ids: &Key) -> Result<bool, Fail> {
    write_tens(alloc, hub, b"abcdefghijk", DOCUMENT)?;
    let first = reads(alloc, hub, ids, br#"["a1","a2"]"#)?;
    write_tens(alloc, hub, b"abcdefghij", b"")?;
    Ok(first && reads(alloc, hub, ids, br#"["k1","k2"]"#)?)
}

/// Whether a match of one deletion more finds the change, and the ids are right behind it.
fn is_filled_by_a_match(alloc: Global, hub: &mut Hub, ids: &Key) -> Result<bool, Fail> {
    write_and_match(alloc, hub, b"k0", b"")?;
    let found = hub.holds(ids) && purges(hub)? == 1;
    Ok(found && reads(alloc, hub, ids, br#"["k2","k3"]"#)?)
}

/// Whether the ids are right behind one deletion more, and a match of it finds the change.
fn is_filled_by_a_read(alloc: Global, hub: &mut Hub, ids: &Key) -> Result<bool, Fail> {
    write(alloc, hub, b"k0", b"")?;
    let filled = reads(alloc, hub, ids, br#"["k2","k3"]"#)?;
    match_all(hub)?;
    Ok(filled && hub.holds(ids) && purges(hub)? == 1)
}

/// Whether a change behind that is found, too, and shown.
fn goes_on(alloc: Global, hub: &mut Hub, ids: &Key) -> Result<bool, Fail> {
    write_and_match(alloc, hub, b"k3", b"")?;
    let found = purges(hub)? == 2;
    Ok(found && reads(alloc, hub, ids, br#"["k2","k4"]"#)?)
}

#[test]
fn a_window_that_ran_short_is_filled_by_a_match(rt: HostRuntime) -> Result<(), Fail> {
    let alloc = rt.alloc();
    let mut hub = new_hub(alloc)?;
    let ids = key(alloc, SECOND_AND_THIRD)?;
    assert!(rt; shrinks(alloc, &mut hub, &ids)?);
    assert!(rt; is_filled_by_a_match(alloc, &mut hub, &ids)?);
    assert!(rt; goes_on(alloc, &mut hub, &ids)?);
    Ok(())
}

#[test]
fn a_window_that_ran_short_is_filled_by_a_read(rt: HostRuntime) -> Result<(), Fail> {
    let alloc = rt.alloc();
    let mut hub = new_hub(alloc)?;
    let ids = key(alloc, SECOND_AND_THIRD)?;
    assert!(rt; shrinks(alloc, &mut hub, &ids)?);
    assert!(rt; is_filled_by_a_read(alloc, &mut hub, &ids)?);
    Ok(())
}
