//! What no contract says of results: that calls succeed where there is memory, on worked results.

use q_base::{Name, SharedText};
use q_doc::Doc;
use query_core::{Kind, Row, Rows};
use result_kinds::{PrintedRow, ResultText, result_text, same_result};
use std::alloc::Global;
use std::test::Fail;

const OBJECTS: &[u8] =
    b"[{\"doc\":{\"a\":1},\"id\":\"p1\",\"version\":1},{\"doc\":{\"b\":\"x\\\"\"},\"id\":\"p-2\",\"version\":120}]";

fn row(alloc: Global, id: &[u8], version: u64, document: &[u8]) -> Result<Row, Fail> {
    let id = Name::read(alloc, id)?;
    let document = Doc::read(alloc, document)?;
    Ok((id, version, document))
}

/// Two rows, the first in a version.
fn shop(alloc: Global, version: u64) -> Result<Rows, Fail> {
    let mut rows = Vec::new(alloc);
    rows.push(row(alloc, b"p1", version, b"{\"a\": 1}")?)?;
    rows.push(row(alloc, b"p-2", 120, b"{\"b\": \"x\\\"\"}")?)?;
    Ok(Rows::of(rows))
}

#[test]
fn each_kind_has_its_text(rt: HostRuntime) -> Result<(), Fail> {
    let rows = shop(rt.alloc(), 1)?;
    let objects = result_text(rt.alloc(), Kind::Objects, &rows)?;
    assert_eq!(rt; objects.as_slice(), OBJECTS);
    let ids = result_text(rt.alloc(), Kind::Ids, &rows)?;
    assert_eq!(rt; ids.as_slice(), b"[\"p1\",\"p-2\"]".as_slice());
    let none = result_text(rt.alloc(), Kind::Objects, &Rows::of(Vec::new(rt.alloc())))?;
    assert_eq!(rt; none.as_slice(), b"[]".as_slice());
    Ok(())
}

#[test]
fn a_text_follows_what_a_buffer_holds(rt: HostRuntime) -> Result<(), Fail> {
    let mut rows = Vec::new(rt.alloc());
    rows.push(PrintedRow {
        id: Name::read(rt.alloc(), b"p1")?,
        version: 1,
        text: SharedText::of(rt.alloc(), b"{\"a\":1}".to_vec(rt.alloc())?)?,
    })?;
    let text = ResultText::of_objects(rows)?;
    assert_eq!(rt; text.len(), 39);
    let mut buffer = b"\r\n".to_vec(rt.alloc())?;
    text.write_into(&mut buffer)?;
    assert_eq!(rt;
        buffer.as_slice(),
        b"\r\n[{\"doc\":{\"a\":1},\"id\":\"p1\",\"version\":1}]".as_slice()
    );
    Ok(())
}

#[test]
fn an_equal_document_that_is_put_again_is_another_result(rt: HostRuntime) -> Result<(), Fail> {
    let first = shop(rt.alloc(), 1)?;
    let again = shop(rt.alloc(), 121)?;
    assert!(rt; same_result(Kind::Objects, first.as_slice(), first.as_slice()));
    assert!(rt; !same_result(Kind::Objects, first.as_slice(), again.as_slice()));
    assert!(rt; same_result(Kind::Ids, first.as_slice(), again.as_slice()));
    Ok(())
}
