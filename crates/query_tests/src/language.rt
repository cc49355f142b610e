//! Texts with their answers.

use q_base::Name;
use query_core::{Kind, Query, print_query};
use query_lang::{Fields, QueryRefusal, read_query};
use std::alloc::Global;
use std::test::Fail;

/// No field.
const NONE: Fields<'static> = Fields {
    f: None,
    o: None,
    s: None,
    n: None,
    k: None,
};

/// The answer for these fields in the collection `shop`.
fn read(alloc: Global, fields: &Fields<'_>) -> Result<Result<(Query, Kind), QueryRefusal>, Fail> {
    let collection = Name::read(alloc, b"shop")?;
    Ok(read_query(alloc, collection, fields))
}

/// The refusal of a filter.
fn refusal_of_filter(alloc: Global, text: &str) -> Result<Option<QueryRefusal>, Fail> {
    let fields = Fields {
        f: Some(text),
        o: None,
        s: None,
        n: None,
        k: None,
    };
    Ok(read(alloc, &fields)?.err())
}

/// A text this number of times, and then another.
fn repeated(alloc: Global, text: &str, count: usize, last: &str) -> Result<String, Fail> {
    let mut out = String::new(alloc);
    for _ in 0..count {
        out.push_str(text)?;
    }
    out.push_str(last)?;
    Ok(out)
}

fn syntax(place: usize) -> Option<QueryRefusal> {
    Some(QueryRefusal::Syntax { field: b'f', place })
}

#[test]
fn filters_are_refused_at_their_places(rt: HostRuntime) -> Result<(), Fail> {
    let cases = [
        ("a =", 3),
        ("a = tru", 4),
        ("a !", 3),
        ("a !x", 2),
        ("a = -", 5),
        ("a = \"b\\", 7),
        ("a = \"b\\u00", 10),
        ("a = \"b", 6),
        ("a \"b", 2),
        ("a 01", 2),
        ("a.b.c.d.e.f.g.h.", 16),
        ("a.b.c.d.e.f.g.h.i = 1", 16),
        ("a = \"x\u{1}\"", 6),
        ("a = \"x\\q\"", 6),
        ("a = \"x\\u0041\"", 6),
        (" ", 1),
        ("a = 1 and", 9),
        ("(a = 1", 6),
        ("a = 1)", 5),
        ("in = 1", 0),
        ("a in [1,]", 8),
    ];
    for case in &cases {
        let refusal = refusal_of_filter(rt.alloc(), case.0)?;
        assert!(rt; refusal == syntax(case.1));
    }
    Ok(())
}

#[test]
fn numbers_outside_their_limits_are_refused(rt: HostRuntime) -> Result<(), Fail> {
    for text in &["a = 01", "a = -0", "a = 9223372036854775808"] {
        let refusal = refusal_of_filter(rt.alloc(), text)?;
        assert!(rt;
            refusal
                == Some(QueryRefusal::BadNumber {
                    field: b'f',
                    place: 4
                })
        );
    }
    for text in &["0", "1001", "01", "-1", "1001x"] {
        let fields = Fields {
            f: None,
            o: None,
            s: None,
            n: Some(text),
            k: None,
        };
        let refusal = read(rt.alloc(), &fields)?.err();
        assert!(rt;
            refusal
                == Some(QueryRefusal::BadNumber {
                    field: b'n',
                    place: 0
                })
        );
    }
    Ok(())
}

#[test]
fn whole_filters_have_their_limits(rt: HostRuntime) -> Result<(), Fail> {
    let alloc = rt.alloc();
    let many = repeated(alloc, "1,", 255, "1]")?;
    let many = format!(in alloc; "a in [{many}")?;
    let refusal = refusal_of_filter(alloc, many.as_str())?;
    assert!(rt; refusal == Some(QueryRefusal::TooMany { leaves: 257 }));
    let few = repeated(alloc, "1,", 254, "1]")?;
    let few = format!(in alloc; "a in [{few}")?;
    assert!(rt; refusal_of_filter(alloc, few.as_str())?.is_none());
    let nested = repeated(alloc, "(", 65, "")?;
    let refusal = refusal_of_filter(alloc, nested.as_str())?;
    assert!(rt; refusal == Some(QueryRefusal::TooNested { place: 64 }));
    let deep = repeated(alloc, "not ", 32, "true")?;
    let refusal = refusal_of_filter(alloc, deep.as_str())?;
    assert!(rt; refusal == Some(QueryRefusal::TooDeep { depth: 33 }));
    let high = repeated(alloc, "not ", 31, "true")?;
    assert!(rt; refusal_of_filter(alloc, high.as_str())?.is_none());
    let cut = repeated(alloc, "not ", 32, "")?;
    assert!(rt; refusal_of_filter(alloc, cut.as_str())? == syntax(128));
    Ok(())
}

#[test]
fn other_fields_are_refused_in_order(rt: HostRuntime) -> Result<(), Fail> {
    let alloc = rt.alloc();
    let fields = Fields {
        f: None,
        o: Some("a,b,c,d,e"),
        s: Some("x"),
        n: None,
        k: None,
    };
    let refusal = read(alloc, &fields)?.err();
    assert!(rt; refusal == Some(QueryRefusal::TooManyPaths { place: 8 }));
    let fields = Fields {
        f: None,
        o: Some("a,b,c,d,1"),
        s: None,
        n: None,
        k: None,
    };
    let refusal = read(alloc, &fields)?.err();
    assert!(rt;
        refusal
            == Some(QueryRefusal::Syntax {
                field: b'o',
                place: 8
            })
    );
    let fields = Fields {
        f: None,
        o: None,
        s: Some(" 5"),
        n: None,
        k: Some("IDS"),
    };
    let refusal = read(alloc, &fields)?.err();
    assert!(rt;
        refusal
            == Some(QueryRefusal::Syntax {
                field: b's',
                place: 0
            })
    );
    let fields = Fields {
        f: None,
        o: None,
        s: None,
        n: None,
        k: Some("IDS"),
    };
    let refusal = read(alloc, &fields)?.err();
    assert!(rt;
        refusal
            == Some(QueryRefusal::Syntax {
                field: b'k',
                place: 0
            })
    );
    Ok(())
}

#[test]
fn a_query_is_read_and_printed(rt: HostRuntime) -> Result<(), Fail> {
    let alloc = rt.alloc();
    let fields = Fields {
        f: Some("(b> 2)\r\nor b\r\nin[false,\"\\u0001\\u000a\"] and not\"in\".x has null"),
        o: Some("c ,b.\"a b\" asc,d desc"),
        s: Some("10000"),
        n: Some("5"),
        k: Some("ids"),
    };
    let (query, kind) = read(alloc, &fields)??;
    assert!(rt; kind == Kind::Ids);
    let text = print_query(alloc, &query)?;
    let wanted =
        "f=b > 2 or b in [false, \"\\u0001\\u000a\"] and not \"in\".x has null;o=c,b.\"a b\",d desc;s=10000;n=5";
    assert!(rt; text.as_slice() == wanted.as_bytes());
    let (query, kind) = read(alloc, &NONE)??;
    assert!(rt; kind == Kind::Objects);
    let text = print_query(alloc, &query)?;
    assert!(rt; text.as_slice() == b"f=true;o=;s=0;n=100".as_slice());
    Ok(())
}

#[test]
fn refusals_are_told_in_words(rt: HostRuntime) -> Result<(), Fail> {
    let refusal = QueryRefusal::BadNumber {
        field: b's',
        place: 0,
    };
    let text = refusal.to_string(rt.alloc())?;
    assert!(rt; text.as_str() == "the number at byte 0 of field s is not allowed");
    assert!(rt; refusal.word() == b"bad_number".as_slice());
    Ok(())
}
