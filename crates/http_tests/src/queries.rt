//! What no clause says of queries: that a request is read into the key of its query where there is
//! memory. Refusals, with the places that an independent reader of the language gives.

use crate::asks::{Asked, asked, refuses};
use http_front::{Ask, FilterReason, FilterRefusal, QueryField, Refused};
use q_base::Memory;
use std::alloc::Global;
use std::process::Abort;
use std::test::Fail;

/// A GET of a query with these fields of its target.
fn request_of(alloc: Global, fields: &[u8]) -> Result<Vec<u8>, Memory> {
    let mut bytes = Vec::from_slice(alloc, b"GET /v1/q/shop?")?;
    bytes.extend_from_slice(fields)?;
    bytes.extend_from_slice(b" HTTP/1.1\r\nHost: a\r\n\r\n")?;
    Ok(bytes)
}

/// A text with so many copies of a part in the middle.
fn repeated(
    alloc: Global,
    before: &[u8],
    part: &[u8],
    count: usize,
    after: &[u8],
) -> Result<Vec<u8>, Memory> {
    let mut text = Vec::from_slice(alloc, before)?;
    for _ in 0..count {
        text.extend_from_slice(part)?;
    }
    text.extend_from_slice(after)?;
    Ok(text)
}

/// Checks that a query with these fields is refused so.
fn refuses_fields(
    rt: &impl Abort,
    alloc: Global,
    fields: &[u8],
    field: QueryField,
    place: u64,
    reason: FilterReason,
) -> Result<(), Memory> {
    let refused = FilterRefusal {
        field,
        place,
        reason,
    };
    let request = request_of(alloc, fields)?;
    refuses(rt, alloc, &request, Refused::BadFilter(refused))
}

/// What a query with these fields asks.
fn asked_by(alloc: Global, fields: &[u8]) -> Result<Box<Asked>, Memory> {
    let request = request_of(alloc, fields)?;
    asked(alloc, &request)
}

/// Whether it is a read by the key of this text.
fn is_read_by(asked: &Asked, text: &[u8]) -> bool {
    match asked {
        Ok(Ask::Read { key, .. }) => key.text() == text,
        _ => false,
    }
}

/// Whether a query with these fields is read as the key of this text.
fn reads(alloc: Global, fields: &[u8], text: &[u8]) -> Result<bool, Memory> {
    let asked = asked_by(alloc, fields)?;
    Ok(is_read_by(&asked, text))
}

/// Whether a query with these fields is read.
fn is_read(alloc: Global, fields: &[u8]) -> Result<bool, Memory> {
    let asked = asked_by(alloc, fields)?;
    Ok(matches!(&*asked, Ok(Ask::Read { .. })))
}

#[test]
fn the_first_bad_field_is_answered(rt: HostRuntime) -> Result<(), Fail> {
    let cases: [(&[u8], QueryField, u64, FilterReason); 11] = [
        (b"f=a%20%3D", QueryField::Filter, 3, FilterReason::Syntax),
        (
            b"f=a+%3D+01",
            QueryField::Filter,
            4,
            FilterReason::BadNumber,
        ),
        (
            b"o=a,b,c,d,e",
            QueryField::Order,
            8,
            FilterReason::TooManyPaths,
        ),
        (b"o=a+up", QueryField::Order, 2, FilterReason::Syntax),
        (b"s=10001", QueryField::Skip, 0, FilterReason::BadNumber),
        (b"s=+5", QueryField::Skip, 0, FilterReason::Syntax),
        (b"n=0", QueryField::Take, 0, FilterReason::BadNumber),
        (b"n=1001", QueryField::Take, 0, FilterReason::BadNumber),
        (b"k=rows", QueryField::Kind, 0, FilterReason::Syntax),
        (
            b"k=rows&n=0&s=-1&o=.&f=a+%3D",
            QueryField::Filter,
            3,
            FilterReason::Syntax,
        ),
        (
            b"k=rows&n=0&s=-1",
            QueryField::Skip,
            0,
            FilterReason::BadNumber,
        ),
    ];
    for (fields, field, place, reason) in cases {
        refuses_fields(&rt, rt.alloc(), fields, field, place, reason)?;
    }
    Ok(())
}

/// A filter with so many copies of a part in the middle.
#[derive(Clone, Copy)]
struct Long<'a> {
    before: &'a [u8],
    part: &'a [u8],
    count: usize,
    after: &'a [u8],
}

/// Its field.
fn field_of(alloc: Global, long: Long<'_>) -> Result<Vec<u8>, Memory> {
    repeated(alloc, long.before, long.part, long.count, long.after)
}

/// Checks that such a filter is refused so.
fn refuses_long(
    rt: &impl Abort,
    alloc: Global,
    long: Long<'_>,
    place: u64,
    reason: FilterReason,
) -> Result<(), Memory> {
    let fields = field_of(alloc, long)?;
    refuses_fields(rt, alloc, &fields, QueryField::Filter, place, reason)
}

/// Whether such a filter is read.
fn is_long_read(alloc: Global, long: Long<'_>) -> Result<bool, Memory> {
    let fields = field_of(alloc, long)?;
    is_read(alloc, &fields)
}

/// A list of one number more than this.
fn list(count: usize) -> Long<'static> {
    Long {
        before: b"f=a+in+%5B0",
        part: b",0",
        count,
        after: b"%5D",
    }
}

/// So many open brackets.
fn brackets(count: usize) -> Long<'static> {
    Long {
        before: b"f=",
        part: b"(",
        count,
        after: b"",
    }
}

/// So many negations.
fn negations(count: usize) -> Long<'static> {
    Long {
        before: b"f=",
        part: b"not+",
        count,
        after: b"true",
    }
}

#[test]
fn the_limits_of_filters_are_answered(rt: HostRuntime) -> Result<(), Fail> {
    let alloc = rt.alloc();
    refuses_long(&rt, alloc, list(255), 257, FilterReason::TooMany)?;
    assert!(rt; is_long_read(alloc, list(254))?);
    refuses_long(&rt, alloc, brackets(65), 64, FilterReason::TooNested)?;
    refuses_long(&rt, alloc, negations(32), 33, FilterReason::TooDeep)?;
    assert!(rt; is_long_read(alloc, negations(31))?);
    Ok(())
}

#[test]
fn a_bad_target_and_bad_tags_precede_bad_fields(rt: HostRuntime) -> Result<(), Fail> {
    let cases: [(&[u8], Refused); 5] = [
        (
            b"GET /v1/q/shop?f=a+%3D&g=1 HTTP/1.1\r\nHost: a\r\n\r\n",
            Refused::BadTarget,
        ),
        (
            b"GET /v1/q/shop?f=a+%3D&f= HTTP/1.1\r\nHost: a\r\n\r\n",
            Refused::BadTarget,
        ),
        (
            b"GET /v1/q/shop?f=%ff HTTP/1.1\r\nHost: a\r\n\r\n",
            Refused::BadTarget,
        ),
        (
            b"GET /v1/q/Shop?f=a+%3D HTTP/1.1\r\nHost: a\r\n\r\n",
            Refused::BadTarget,
        ),
        (
            b"GET /v1/q/shop?f=a+%3D HTTP/1.1\r\nHost: a\r\nIf-None-Match: 1\r\n\r\n",
            Refused::BadTag,
        ),
    ];
    for (bytes, wanted) in cases {
        refuses(&rt, rt.alloc(), bytes, wanted)?;
    }
    Ok(())
}

#[test]
fn a_query_is_read_as_the_key_of_its_normal_form(rt: HostRuntime) -> Result<(), Fail> {
    let cases: [(&[u8], &[u8]); 5] = [
        (b"f=a%20%3D%201&k=ids", b"q/shop/ids/f=a = 1;o=;s=0;n=100"),
        (
            b"f=(b+%3D+2)+and+a+%3D+1+and+a+%3D+1",
            b"q/shop/objects/f=a = 1 and b = 2;o=;s=0;n=100",
        ),
        (
            b"k=objects&n=10&s=2&o=a+desc,b+asc,a&f=not+(a+%3C+3)",
            b"q/shop/objects/f=not a < 3;o=a desc,b;s=2;n=10",
        ),
        (
            b"f=a+%3D+%22%c3%a9%26%22",
            b"q/shop/objects/f=a = \"\xc3\xa9&\";o=;s=0;n=100",
        ),
        (b"f=&o&s=&n=&k=", b"q/shop/objects/f=true;o=;s=0;n=100"),
    ];
    for (fields, text) in cases {
        assert!(rt; reads(rt.alloc(), fields, text)?);
    }
    Ok(())
}
