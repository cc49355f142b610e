//! Normal forms, as they are printed.

use q_base::{Name, Text};
use query_core::print_query;
use query_lang::{Fields, read_query};
use query_normal::normal;
use std::alloc::Global;
use std::test::Fail;

/// The printed normal form of the query with this filter and this order.
fn normal_text<'a>(alloc: Global, filter: &'a str, order: &'a str) -> Result<Text, Fail> {
    let collection = Name::read(alloc, b"shop")?;
    let fields = Fields {
        f: Some(filter),
        o: Some(order),
        s: None,
        n: None,
        k: None,
    };
    let (query, _) = read_query(alloc, collection, &fields)?;
    let form = normal(alloc, query)?;
    Ok(print_query(alloc, form.query())?)
}

#[test]
fn normal_forms_are_printed_as_wanted(rt: HostRuntime) -> Result<(), Fail> {
    let cases = [
        (
            "(b = 2) and a = 1 and a = 1",
            "",
            "f=a = 1 and b = 2;o=;s=0;n=100",
        ),
        ("not (a < 3)", "", "f=not a < 3;o=;s=0;n=100"),
        (
            "b<=null",
            "c,b,\"a b\",c",
            "f=b <= null;o=c,b,\"a b\";s=0;n=100",
        ),
        (
            "b.b.c in [4, true, \"xy\", 3]",
            "b.a",
            "f=b.b.c in [true, 3, 4, \"xy\"];o=b.a;s=0;n=100",
        ),
        (
            "not (a in[ 3])",
            "c ,c ,b ,c desc",
            "f=not a = 3;o=c,b;s=0;n=100",
        ),
        ("b=1 and b in[ ] and (c >3)", "", "f=false;o=;s=0;n=100"),
        (
            "(exists  \"\".\"%\".\"\\\\\") or (false)",
            "",
            "f=exists \"\".\"%\".\"\\\\\";o=;s=0;n=100",
        ),
        (
            "(not (\"%\" =2)  or  (( b< 2) or a > -9)) and  not (c in[-9 ,1 ,-9])",
            "",
            "f=(a > -9 or b < 2 or not \"%\" = 2) and not c in [-9, 1];o=;s=0;n=100",
        ),
        (
            "(not (b in[false] or c in [\"+&=;\" ,null])) or (\"\" <null) or (c in[ null] and b!=-1)",
            "",
            "f=\"\" < null or b != -1 and c = null or not b = false and not c in [null, \"+&=;\"];o=;s=0;n=100",
        ),
        ("not (not  (a < 1 and false))", "", "f=false;o=;s=0;n=100"),
    ];
    for (filter, order, wanted) in cases {
        let found = normal_text(rt.alloc(), filter, order)?;
        assert_eq!(rt; found.as_slice(), wanted.as_bytes());
    }
    Ok(())
}
