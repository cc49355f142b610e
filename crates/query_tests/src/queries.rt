//! What no contract says: that calls succeed where there is memory, on worked queries.

use q_base::Name;
use q_doc::{Doc, Node, NodeText, Path, Shape, Text};
use query_core::{
    Docs, Filter, Form, Op, Order, Query, Row, compare_rows, print_filter, print_order,
    print_query, satisfies, window,
};
use std::alloc::{AllocError, Global};
use std::test::Fail;

fn text(alloc: Global, content: &str) -> Result<Text, AllocError> {
    Ok(Text::of(Vec::from_slice(alloc, content.as_bytes())?))
}

fn path(alloc: Global, segment: &str) -> Result<Path, AllocError> {
    let mut segments = Vec::new(alloc);
    segments.push(text(alloc, segment)?)?;
    Ok(Path::of(segments))
}

fn number(number: i64) -> Node {
    Node {
        shape: Shape::Number(number),
    }
}

fn comparison(alloc: Global, segment: &str, op: Op, value: Node) -> Result<Filter, AllocError> {
    Ok(Filter {
        form: Form::Compare {
            path: path(alloc, segment)?,
            op,
            value,
        },
    })
}

fn negation(alloc: Global, operand: Filter) -> Result<Filter, AllocError> {
    Ok(Filter {
        form: Form::Not(Box::new(alloc, operand)?),
    })
}

fn listing(alloc: Global, segment: &str, first: Node, second: Node) -> Result<Filter, AllocError> {
    let mut values = Vec::new(alloc);
    values.push(first)?;
    values.push(second)?;
    Ok(Filter {
        form: Form::In {
            path: path(alloc, segment)?,
            values,
        },
    })
}

fn pair(alloc: Global, first: Filter, second: Filter) -> Result<Vec<Filter>, AllocError> {
    let mut operands = Vec::new(alloc);
    operands.push(first)?;
    operands.push(second)?;
    Ok(operands)
}

fn order(alloc: Global, segment: &str) -> Result<Order, AllocError> {
    let mut paths = Vec::new(alloc);
    paths.push((path(alloc, segment)?, true))?;
    Ok(Order::of(paths))
}

/// `b in [1, "x\""]`
fn listed(alloc: Global) -> Result<Filter, AllocError> {
    let quote = Node {
        shape: Shape::Text(NodeText::from_str(alloc, "x\"")?),
    };
    listing(alloc, "b", number(1), quote)
}

/// `not a < 3`
fn not_low(alloc: Global) -> Result<Filter, AllocError> {
    let low = comparison(alloc, "a", Op::Less, number(3))?;
    negation(alloc, low)
}

/// `not a < 3 or b in [1, "x\""]`
fn either(alloc: Global) -> Result<Filter, AllocError> {
    let first = not_low(alloc)?;
    let second = listed(alloc)?;
    Ok(Filter {
        form: Form::Or(pair(alloc, first, second)?),
    })
}

/// `exists in`
fn there(alloc: Global) -> Result<Filter, AllocError> {
    Ok(Filter {
        form: Form::Exists {
            path: path(alloc, "in")?,
        },
    })
}

fn both(alloc: Global) -> Result<Filter, AllocError> {
    let first = either(alloc)?;
    let second = there(alloc)?;
    Ok(Filter {
        form: Form::And(pair(alloc, first, second)?),
    })
}

/// `(not a < 3 or b in [1, "x\""]) and exists in`, by `b` descending.
fn sample(alloc: Global, skip: u32, take: u32) -> Result<Query, Fail> {
    let collection = Name::read(alloc, b"shop")?;
    let filter = both(alloc)?;
    let order = order(alloc, "b")?;
    Ok(Query {
        collection,
        filter,
        order,
        skip,
        take,
    })
}

fn row(alloc: Global, id: &[u8], version: u64, document: &[u8]) -> Result<Row, Fail> {
    let id = Name::read(alloc, id)?;
    let document = Doc::read(alloc, document)?;
    Ok((id, version, document))
}

fn shop(alloc: Global) -> Result<Docs, Fail> {
    let documents: [(&[u8], u64, &[u8]); 5] = [
        (b"p5", 1, b"{\"a\":1,\"b\":1,\"in\":true}"),
        (b"p2", 2, b"{\"a\":1,\"b\":2,\"in\":true}"),
        (b"p4", 3, b"{\"a\":7,\"in\":null}"),
        (b"p1", 4, b"{\"b\":1,\"in\":[]}"),
        (b"p3", 5, b"{\"a\":9,\"b\":9}"),
    ];
    let mut rows = Vec::new(alloc);
    for (id, version, document) in documents {
        rows.push(row(alloc, id, version, document)?)?;
    }
    Ok(Docs::of(rows))
}

/// Whether the window of the sample has these versions.
fn has_versions(alloc: Global, skip: u32, take: u32, wanted: &[u64]) -> Result<bool, Fail> {
    let docs = shop(alloc)?;
    let query = sample(alloc, skip, take)?;
    let rows = window(alloc, &query, &docs)?;
    Ok(
        rows.as_slice()
            .iter()
            .map(|row| row.1)
            .eq(wanted.iter().copied()),
    )
}

#[test]
fn a_copy_is_printed_as_the_query_is(rt: HostRuntime) -> Result<(), Fail> {
    let query = sample(rt.alloc(), 5, 10)?;
    let copy = query.clone()?;
    assert!(rt; copy == query);
    let printed = print_query(rt.alloc(), &copy)?;
    let wanted = b"f=(not a < 3 or b in [1, \"x\\\"\"]) and exists \"in\";o=b desc;s=5;n=10";
    assert_eq!(rt; printed.as_slice(), wanted.as_slice());
    let filter = print_filter(rt.alloc(), &query.filter)?;
    let order = print_order(rt.alloc(), &query.order)?;
    let wanted = b"(not a < 3 or b in [1, \"x\\\"\"]) and exists \"in\"";
    assert_eq!(rt; filter.as_slice(), wanted.as_slice());
    assert_eq!(rt; order.as_slice(), b"b desc".as_slice());
    Ok(())
}

#[test]
fn rows_that_satisfy_come_in_order(rt: HostRuntime) -> Result<(), Fail> {
    assert!(rt; has_versions(rt.alloc(), 0, 100, &[4, 1, 3])?);
    assert!(rt; has_versions(rt.alloc(), 1, 1, &[1])?);
    Ok(())
}

/// 300 rows of one document, whose ids and versions fall from 400 on.
fn falling(alloc: Global) -> Result<Docs, Fail> {
    let mut rows = Vec::new(alloc);
    for i in 0..300u64 {
        let version = 400 - i;
        let id = format!(in alloc; "p{version}")?;
        rows.push(row(alloc, id.as_bytes(), version, b"{}")?)?;
    }
    Ok(Docs::of(rows))
}

#[test]
fn the_first_of_many_rows_are_found(rt: HostRuntime) -> Result<(), Fail> {
    let alloc = rt.alloc();
    let query = Query {
        collection: Name::read(alloc, b"shop")?,
        filter: Filter {
            form: Form::Constant(true),
        },
        order: Order::of(Vec::new(alloc)),
        skip: 1,
        take: 3,
    };
    let docs = falling(alloc)?;
    let rows = window(alloc, &query, &docs)?;
    assert!(rt;
        rows.as_slice()
            .iter()
            .map(|row| row.1)
            .eq([102u64, 103, 104].iter().copied())
    );
    Ok(())
}
