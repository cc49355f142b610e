//! What no clause says: that a key is made and read where there is memory.

use q_base::Name;
use query_lang::{Fields, KeyRefusal, read_key, read_query};
use query_normal::{Key, normal};
use std::alloc::Global;
use std::test::Fail;

#[test]
fn a_key_has_its_text_where_there_is_memory(rt: HostRuntime) -> Result<(), Fail> {
    let collection = Name::read(rt.alloc(), b"shop")?;
    let id = Name::read(rt.alloc(), b"p1")?;
    let key = Key::record(rt.alloc(), collection, id)?;
    assert_eq!(rt; key.text(), b"r/shop/p1".as_slice());
    let copy = key.clone()?;
    assert!(rt; copy == key);
    Ok(())
}

/// The key of the query with the fields f, o, s, n and k in the collection `shop`.
fn query_key<'a>(alloc: Global, texts: [&'a str; 5]) -> Result<Key, Fail> {
    let collection = Name::read(alloc, b"shop")?;
    let fields = Fields {
        f: Some(texts[0]),
        o: Some(texts[1]),
        s: Some(texts[2]),
        n: Some(texts[3]),
        k: Some(texts[4]),
    };
    let (query, kind) = read_query(alloc, collection, &fields)?;
    let form = normal(alloc, query)?;
    Ok(Key::query(alloc, kind, form)?)
}

#[test]
fn two_spellings_of_a_query_have_one_key(rt: HostRuntime) -> Result<(), Fail> {
    let key = query_key(rt.alloc(), ["a = 1 and b = 2", "", "", "", "ids"])?;
    let other = query_key(
        rt.alloc(),
        ["(b = 2) and a = 1 and a = 1", "", "", "", "ids"],
    )?;
    assert!(rt; key == other);
    let wanted = b"q/shop/ids/f=a = 1 and b = 2;o=;s=0;n=100".as_slice();
    assert_eq!(rt; key.text(), wanted);
    assert_eq!(rt; other.text(), wanted);
    let another = query_key(rt.alloc(), ["a = 1 and b = 3", "", "", "", "ids"])?;
    assert!(rt; key != another);
    let objects = read_key(rt.alloc(), b"q/shop/objects/f=a = 1 and b = 2;o=;s=0;n=100")?;
    assert!(rt; key != objects);
    Ok(())
}

#[test]
fn queries_have_the_wanted_keys(rt: HostRuntime) -> Result<(), Fail> {
    let cases = [
        (["", "", "1", "", ""], "q/shop/objects/f=true;o=;s=1;n=100"),
        (
            [
                "(not\t(b in[false]\tor\r\n(b in [4 , 2 , 2])\tor\r\n(c in [\"+&=;\",\"😀\",null])))\r\nor (\"\" <null) or\t((c in[ null]) and ( b!=-1))",
                "a asc,b desc,c.a.c asc",
                "",
                "",
                "",
            ],
            "q/shop/objects/f=\"\" < null or b != -1 and c = null or not b = false and not b in [2, 4] and not c in [null, \"+&=;\", \"😀\"];o=a,b desc,c.a.c;s=0;n=100",
        ),
        (
            [
                "not (\"\" in[3,-2])",
                "a asc,b,c.c.c asc,b asc",
                "",
                "",
                "ids",
            ],
            "q/shop/ids/f=not \"\" in [-2, 3];o=a,b,c.c.c;s=0;n=100",
        ),
        (
            [
                "(b > \"\") and\r\n( b.a\tin[9223372036854775807,0]) and\r\nc <= \"x\" or\ta.a <=null or\tc.c.b=2 or\t(c!= -2)",
                "b",
                "",
                "",
                "",
            ],
            "q/shop/objects/f=a.a <= null or b > \"\" and b.a in [0, 9223372036854775807] and c <= \"x\" or c != -2 or c.c.b = 2;o=b;s=0;n=100",
        ),
        (
            [
                "b <=3 or ((true)) or (( a.a.a in[true])  or (a.b=true)) and (((c.c  in[-2 , 2]))  and ( xy = false))",
                "",
                "",
                "1",
                "",
            ],
            "q/shop/objects/f=true;o=;s=0;n=1",
        ),
        (
            [
                "b.b.c\r\nin [4 ,true ,\"xy\" ,3]",
                "b.a asc",
                "",
                "",
                "objects",
            ],
            "q/shop/objects/f=b.b.c in [true, 3, 4, \"xy\"];o=b.a;s=0;n=100",
        ),
        (
            ["not\r\nb >= -2", "", "", "1000", "ids"],
            "q/shop/ids/f=not b >= -2;o=;s=0;n=1000",
        ),
        (
            ["exists\r\na.b.c", "c ,c ,b ,c desc", "", "", ""],
            "q/shop/objects/f=exists a.b.c;o=c,b;s=0;n=100",
        ),
        (
            ["(c <null)", "", "", "5", "ids"],
            "q/shop/ids/f=c < null;o=;s=0;n=5",
        ),
    ];
    for (texts, wanted) in cases {
        let key = query_key(rt.alloc(), texts)?;
        assert_eq!(rt; key.text(), wanted.as_bytes());
    }
    Ok(())
}

#[test]
fn keys_are_read_from_their_own_texts(rt: HostRuntime) -> Result<(), Fail> {
    for text in &[
        "q/shop/ids/f=\";/\" has \"\\\";\";o=b.\";\",c desc;s=2;n=1",
        "r/shop/p1",
        "q/hop/ids/f=a <= -1;o=\"+&=;\".\"\",a,c.c desc,\"😀\";s=2;n=3",
        "q/shop/objects/f=a = 2 and a in [3, \"xy\"] and b in [null, -2, 4] and c.b.b != 4 or a in [null, -2, \"%\"];o=b.c,\"\\\\\".\"\\\"q\\\"\".\"a b\",c.b.b desc;s=2;n=1",
        "q/shop/ids/f=not \"a b\".\"\\u0001\\u000a\" has 0 and not b > 3 and not c = 4;o=\"\",a;s=2;n=100",
        "q/shop/objects/f=\"😀\".\"\\\\\".\"\" = -1 or b.c.a in [-2, -1, 1, 9223372036854775807] or exists c.c;o=b.a desc,b desc,x;s=1;n=1",
        "q/shop/ids/f=b = -9223372036854775808;o=b;s=2;n=1",
        "q/shop/ids/f=a = 0 or b = 1;o=b,\"+&=;\",\"😀\",a;s=1;n=100",
        "q/shop/objects/f=\"in\" = null;o=a,c.a.c,x desc,x.\"\";s=0;n=2",
    ] {
        let key = read_key(rt.alloc(), text.as_bytes())?;
        assert_eq!(rt; key.text(), text.as_bytes());
    }
    Ok(())
}

#[test]
fn other_texts_are_refused_at_their_places(rt: HostRuntime) -> Result<(), Fail> {
    let cases = [
        ("q/shop/ids/f=b = 2 and a = 1;o=;s=0;n=100", 13),
        ("q/shop/ids/f=a=1;o=;s=0;n=100", 14),
        ("q/shop/ids/f=;o=;s=0;n=100", 13),
        ("q/shop/ids/f=true;o=;s=0;n=", 27),
        ("q/shop/ids/f=true;o=a,a;s=0;n=100", 21),
        ("q/shop/ids/f=true;o=;s=0;n=0", 0),
        ("q/shop/ids/f=true;o=;s=0", 0),
        ("r/shop", 0),
        ("", 0),
        (
            "q/shop/ids/f=a in [\"\\u0001\\u000a\", -1, -1];o=c;s=2;n=1",
            19,
        ),
        ("q/shop/ids/f=\"é€\" = 2;o=a.c.c,c,b.b,c desc;s=2;n=2", 38),
        (
            "q/shop0/ids/f=c in [null, 3];o=a,c desc,c desc,\"in\";s=0;n=100",
            40,
        ),
        (
            "q/shop/ids/f=b.a9223372036854775808.a <= 2 or b.c = \"xy\" or b.c = \"\\\\\";o=c;s=2;n=3",
            53,
        ),
        (
            "q/shop/ids/f=(c > 2 and b.a.b has -9223372036854775808 and false) and a <= \"x\";o=b,b;s=1;n=1",
            13,
        ),
        (
            "q/shop/ids/f=c in [] or a < -2;o=c,\"a b\",a.a.c;s=2;n=2",
            13,
        ),
        ("q/shop/ids/f=;o=;s=;n=", 13),
        ("q/shop/ids/f=a = 1 or b = 1;o=a desc,a;s=0;n=2", 36),
        ("q/shop/objects/f=a = 0;o=c,xy;s=1;n=", 36),
        ("q/shop/ids/f=true;o=;s=0;n=100;", 0),
        ("q/shop/ids/f=true;o=;s=00;n=100", 0),
        ("q/shop/id/f=true;o=;s=0;n=100", 0),
        (
            "qshop/objects/f=a = 2;o=\"é€\".xy.%\" desc,c,b desc,a.b.c desc;s=0;n=2",
            0,
        ),
        ("q/shop/ids/\"f=.b.c has -2;o=c;s=2;n=3", 0),
        (
            "q/shop/ids/f=not not a.b.b > false;o=a.a.a,\"\\u0001\\u000a desc,c;s=1;n=100",
            0,
        ),
        (
            "q/shop/ids/f=c != 9223372036854775808;o=b,\"\\\\\" desc,\"\\u0001\\u000a\".\"in\",a.a;s=1;n=100",
            0,
        ),
        ("r//p1", 0),
        ("r/shop/Tea", 0),
        ("r/shop/p1/", 0),
    ];
    for (text, place) in cases {
        let refusal = read_key(rt.alloc(), text.as_bytes()).err();
        assert!(rt; refusal == Some(KeyRefusal::BadKey { place }));
    }
    Ok(())
}

#[test]
fn a_key_with_bytes_that_are_no_text_is_refused(rt: HostRuntime) -> Result<(), Fail> {
    let refusal = read_key(rt.alloc(), b"q/shop/ids/f=a = \"\xff\";o=;s=0;n=100").err();
    assert!(rt; refusal == Some(KeyRefusal::BadKey { place: 0 }));
    Ok(())
}

#[test]
fn the_refusal_of_a_key_is_told_in_words(rt: HostRuntime) -> Result<(), Fail> {
    let refusal = KeyRefusal::BadKey { place: 13 };
    let text = refusal.to_string(rt.alloc())?;
    assert!(rt; text.as_str() == "byte 13 is not as in the text of a key");
    Ok(())
}
