//! What no clause says: known vectors, and that calls succeed where there is memory.
use q_doc::{Doc, DocRefusal, Node, NodeText, Path, ReadBuffer, Shape, Text, compare};
use std::alloc::Global;
use std::test::Fail;

// The sizes that the README gives.
const _: () = prove!(size_of::<Node>() == 32);

const _: () = prove!(size_of::<(NodeText, Node)>() == 56);

/// Texts, each with the printed document or the refusal's word.
static CASES: [(&str, &str); 35] = [
    ("{}", "{}"),
    (" \t\r\n{ } ", "{}"),
    ("", "not_json"),
    ("{", "not_json"),
    ("{}x", "not_json"),
    ("{\"a\":1,}", "not_json"),
    ("{\"a\":01}", "not_json"),
    ("{\"a\":tru}", "not_json"),
    ("{\"a\":NaN}", "not_json"),
    ("{\"a\":\"\\ud800\"}", "not_json"),
    ("{\"a\":\"\u{1}\"}", "not_json"),
    ("{\"a\":1e400}", "not_json"),
    ("\u{feff}{}", "not_json"),
    ("null", "not_object"),
    ("7", "not_object"),
    ("[1]", "not_object"),
    ("{\"a\":1.0}", "not_whole"),
    ("{\"a\":1e2}", "not_whole"),
    ("{\"a\":-0}", "not_whole"),
    ("{\"a\":[0,{\"b\":1.5}]}", "not_whole"),
    ("{\"a\":9223372036854775808}", "not_whole"),
    ("{\"a\":-9223372036854775809}", "not_whole"),
    ("{\"a\":18446744073709551616}", "not_whole"),
    ("{\"a\":9223372036854775807}", "{\"a\":9223372036854775807}"),
    (
        "{\"a\":-9223372036854775808}",
        "{\"a\":-9223372036854775808}",
    ),
    ("{\"b\":1,\"a\":2,\"b\":3}", "{\"a\":2,\"b\":3}"),
    (
        "{\"twenty-three bytes long\":\"twenty-two bytes long:\"}",
        "{\"twenty-three bytes long\":\"twenty-two bytes long:\"}",
    ),
    (
        "{\"twenty-two bytes long:\":\"twenty-three bytes long\"}",
        "{\"twenty-two bytes long:\":\"twenty-three bytes long\"}",
    ),
    (
        "{\"a\":0,\"a\":\"twenty-two bytes long:\",\"b\":\"twenty-three bytes long\"}",
        "{\"a\":\"twenty-two bytes long:\",\"b\":\"twenty-three bytes long\"}",
    ),
    ("{\"a\":1.5,\"a\":2}", "{\"a\":2}"),
    ("{\"a\":1,\"B\":2,\"\":3}", "{\"\":3,\"B\":2,\"a\":1}"),
    ("{\"\\u0063\":-2,\"a\":{}}", "{\"a\":{},\"c\":-2}"),
    (
        "{\"a\":\"\\u0000\\u001f\\b\\n\\/\\\"\\u002B\"}",
        "{\"a\":\"\\u0000\\u001f\\b\\n/\\\"+\"}",
    ),
    (
        "{\"b\":\"\\u00e9\\u20ac\",\"c\":\"\\ud83d\\ude00\"}",
        "{\"b\":\"é€\",\"c\":\"😀\"}",
    ),
    (
        "{ \"b\" : { \"b\" : \"in\" }, \"a\" : [], \"c\" : [-1, null] }",
        "{\"a\":[],\"b\":{\"b\":\"in\"},\"c\":[-1,null]}",
    ),
];

/// The printed document, or the refusal's word.
fn answer(alloc: Global, read: Result<Doc, DocRefusal>) -> Result<Vec<u8>, Fail> {
    match read {
        Ok(doc) => printed(alloc, &doc),
        Err(refusal) => Ok(refusal.word().to_vec(alloc)?),
    }
}

/// The printed document.
fn printed(alloc: Global, doc: &Doc) -> Result<Vec<u8>, Fail> {
    Ok(doc.print(alloc)?.into_vec())
}

/// Whether a text has this answer.
fn is_answered(alloc: Global, text: &[u8], want: &[u8]) -> Result<bool, Fail> {
    let found = answer(alloc, Doc::read(alloc, text))?;
    Ok(found.as_slice() == want)
}

/// The same, with a buffer.
fn is_answered_with(
    alloc: Global,
    text: &[u8],
    want: &[u8],
    buffer: &mut ReadBuffer,
) -> Result<bool, Fail> {
    let found = answer(alloc, Doc::read_with(alloc, text, buffer))?;
    Ok(found.as_slice() == want)
}

/// Adds a key, which is this letter twice, with the value null.
fn push_key(text: &mut Vec<u8>, key: u8) -> Result<(), Fail> {
    if text.len() > 1 {
        text.push(b',')?;
    }
    let member = [b'"', key, key, b'"', b':', b'n', b'u', b'l', b'l'];
    Ok(text.extend_from_slice(&member)?)
}

/// An object with these letters as keys, each twice in a row, and null as values.
fn of_keys(alloc: Global, keys: &[u8]) -> Result<Vec<u8>, Fail> {
    let mut text = b"{".to_vec(alloc)?;
    for key in keys {
        push_key(&mut text, *key)?;
    }
    text.push(b'}')?;
    Ok(text)
}

/// Adds a byte again and again.
fn push_times(text: &mut Vec<u8>, byte: u8, count: usize) -> Result<(), Fail> {
    for _ in 0..count {
        text.push(byte)?;
    }
    Ok(())
}

/// An object with one member, of arrays in one another, so that it nests this deep.
fn nested(alloc: Global, depth: usize) -> Result<Vec<u8>, Fail> {
    let mut text = b"{\"a\":".to_vec(alloc)?;
    push_times(&mut text, b'[', depth.saturating_sub(1))?;
    push_times(&mut text, b']', depth.saturating_sub(1))?;
    text.push(b'}')?;
    Ok(text)
}

/// An object with one text, so that it has this many bytes and eight more.
fn filled(alloc: Global, count: usize) -> Result<Vec<u8>, Fail> {
    let mut text = b"{\"a\":\"".to_vec(alloc)?;
    push_times(&mut text, b'x', count)?;
    text.extend_from_slice(b"\"}")?;
    Ok(text)
}

/// The path of one segment.
fn path_of(alloc: Global, name: &str) -> Result<Path, Fail> {
    let segment = Text::of(String::from_str(alloc, name)?.into_bytes());
    Ok(Path::of(vec![in alloc; segment]?))
}

#[test]
fn texts_are_judged(rt: HostRuntime) -> Result<(), Fail> {
    for case in &CASES {
        let same = is_answered(rt.alloc(), case.0.as_bytes(), case.1.as_bytes())?;
        assert!(rt; same, "at {}", case.0);
    }
    assert!(rt; is_answered(rt.alloc(), b"{\"a\":\"\xff\"}", b"not_json")?);
    Ok(())
}

#[test]
fn a_buffer_is_used_again(rt: HostRuntime) -> Result<(), Fail> {
    let mut buffer = ReadBuffer::new(rt.alloc());
    for case in &CASES {
        let same = is_answered_with(
            rt.alloc(),
            case.0.as_bytes(),
            case.1.as_bytes(),
            &mut buffer,
        )?;
        assert!(rt; same, "at {}", case.0);
    }
    Ok(())
}

/// Whether the object of these keys backwards is printed as the object of these keys.
fn is_sorted(alloc: Global, keys: &[u8]) -> Result<bool, Fail> {
    let mut backwards = keys.to_vec(alloc)?;
    backwards.reverse();
    let want = of_keys(alloc, keys)?;
    is_answered(alloc, &of_keys(alloc, &backwards)?, &want)
}

/// Whether the object of these keys is printed as it is.
fn is_kept(alloc: Global, keys: &[u8]) -> Result<bool, Fail> {
    let text = of_keys(alloc, keys)?;
    is_answered(alloc, &text, &text)
}

#[test]
fn keys_are_put_in_order(rt: HostRuntime) -> Result<(), Fail> {
    let few = b"#$%&'()*+,-./0123456789:;<=>?@ABCDEFGHIJKLMNOPQRSTUVWXYZ[";
    let many =
        b"#$%&'()*+,-./0123456789:;<=>?@ABCDEFGHIJKLMNOPQRSTUVWXYZ[]^_`abcdefghijklmnopqrstuvwxyz{|}~";
    assert!(rt; is_sorted(rt.alloc(), few)?);
    assert!(rt; is_sorted(rt.alloc(), many)?);
    assert!(rt; is_kept(rt.alloc(), many)?);
    Ok(())
}

/// Why a text is not read, if it is not.
fn refusal_of(alloc: Global, text: &[u8]) -> Option<DocRefusal> {
    Doc::read(alloc, text).err()
}

#[test]
fn the_greatest_length_is_exact(rt: HostRuntime) -> Result<(), Fail> {
    let longest = filled(rt.alloc(), 65_528)?;
    assert!(rt; refusal_of(rt.alloc(), &longest).is_none());
    let too_long = filled(rt.alloc(), 65_529)?;
    assert!(rt; refusal_of(rt.alloc(), &too_long) == Some(DocRefusal::TooLong { length: 65_537 }));
    Ok(())
}

#[test]
fn the_greatest_depths_are_exact(rt: HostRuntime) -> Result<(), Fail> {
    let cases = [
        (32, None),
        (33, Some(DocRefusal::TooDeep { depth: 33 })),
        (128, Some(DocRefusal::NotJson)),
    ];
    for (depth, want) in cases {
        let text = nested(rt.alloc(), depth)?;
        assert!(rt; refusal_of(rt.alloc(), &text) == want);
    }
    Ok(())
}

/// Whether each value is less than the next.
fn are_rising(values: &[Node]) -> bool {
    for pair in values.windows(2) {
        if compare(pair.first(), pair.last()).is_ge() {
            return false;
        }
    }
    true
}

/// Whether a node is an array of this length whose elements rise.
fn is_rising_array(node: Option<&Node>, length: usize) -> bool {
    match node.map(|node| &node.shape) {
        Some(Shape::Array(values)) => values.len() == length && are_rising(values),
        _ => false,
    }
}

#[test]
fn values_are_in_order(rt: HostRuntime) -> Result<(), Fail> {
    let text = b"{\"v\":[null,false,true,-5,0,7,\"\",\"a\",\"ab\",\"b\",\
        [],[0],[0,1],[1],{},{\"a\":2},{\"a\":2,\"b\":0},{\"a\":3},{\"b\":1}]}";
    let path = path_of(rt.alloc(), "v")?;
    let doc = Doc::read(rt.alloc(), text)?;
    assert!(rt; is_rising_array(doc.at(&path), 19));
    assert!(rt; compare(None, doc.at(&path)).is_lt());
    assert!(rt; compare(None, None).is_eq());
    Ok(())
}

/// The path `a.c`.
fn inner_path(alloc: Global) -> Result<Path, Fail> {
    let mut segments = vec![in alloc; Text::of(b"a".to_vec(alloc)?)]?;
    segments.push(Text::of(b"c".to_vec(alloc)?))?;
    Ok(Path::of(segments))
}

/// A node of this text.
fn text_node(alloc: Global, text: &str) -> Result<Node, Fail> {
    Ok(Node {
        shape: Shape::Text(NodeText::from_str(alloc, text)?),
    })
}

#[test]
fn paths_lead_through_objects(rt: HostRuntime) -> Result<(), Fail> {
    let path = inner_path(rt.alloc())?;
    let absent = path_of(rt.alloc(), "c")?;
    let text = text_node(rt.alloc(), "x")?;
    let doc = Doc::read(rt.alloc(), b"{\"a\":{\"b\":[1],\"c\":\"x\"}}")?;
    assert!(rt; compare(doc.at(&path), Some(&text)).is_eq());
    assert!(rt; doc.at(&absent).is_none());
    Ok(())
}

#[test]
fn a_cloned_document_is_equal(rt: HostRuntime) -> Result<(), Fail> {
    let doc = Doc::read(rt.alloc(), b"{\"a\":{\"b\":[1],\"c\":\"x\"}}")?;
    let clone = doc.clone()?;
    assert!(rt; clone == doc);
    Ok(())
}

#[test]
fn a_cloned_path_is_equal(rt: HostRuntime) -> Result<(), Fail> {
    let path = inner_path(rt.alloc())?;
    let clone = path.clone()?;
    assert!(rt; clone == path);
    Ok(())
}

#[test]
fn a_cloned_value_is_equal(rt: HostRuntime) -> Result<(), Fail> {
    let text = b"{\"a\":[null,true,7,\"x\"],\"b\":\"twenty-three bytes long\"}";
    let doc = Doc::read(rt.alloc(), text)?;
    let clone = doc.root().clone()?;
    assert!(rt; clone == *doc.root());
    Ok(())
}

/// Whether a text of a node has this content, and so has its clone.
fn has_content(alloc: Global, content: &str) -> Result<bool, Fail> {
    let text = Text::of(content.as_bytes().to_vec(alloc)?);
    let kept = NodeText::of(alloc, text)?;
    Ok(kept.as_str() == content && is_cloned(&kept)?)
}

/// Whether a clone of a text is equal to it.
fn is_cloned(text: &NodeText) -> Result<bool, Fail> {
    Ok(text.clone()? == *text)
}

#[test]
fn texts_are_kept(rt: HostRuntime) -> Result<(), Fail> {
    for content in ["", "x", "twenty-two bytes long:", "twenty-three bytes long"] {
        assert!(rt; has_content(rt.alloc(), content)?);
    }
    Ok(())
}
