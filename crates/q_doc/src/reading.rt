//! The fast path of reading: the tokens of a text straight into nodes.
ghost use Rattle.std.specs.Prelude.{◌≡◌, ◌+◌, ◌<◌, ◌≤◌, length, slice_index, ◌==◌, true, false, IsTrue, IfOk, IfSome, OnOk, Some, option_and_then};
ghost use Rattle.json.specs.Json.{items, members as members_in_grammar, value};
ghost use Rattle.serde_json.specs.Find.{as_i64};
ghost use Rattle.serde_json.specs.Read.{number_from};
ghost use Rattle.q_doc.specs.Tree.{items_of, members_of, is_object, depth as depth_of_tree, items_depth, members_depth};
ghost use Rattle.q_doc.specs.Document.{AreMembers, HasTexts, ItemsHaveTexts, MembersHaveTexts};
ghost use Rattle.q_doc.specs.Reading.{BEYOND, whole_in, tree_in, items_in, members_in, Reads, HoldsWhole, IsIndexFor};

use crate::doc::MAX_DEPTH;
use crate::node::{Node, Shape};
use crate::node_text::NodeText;
use crate::trim::trim_capacity;
use fast_float::Numeral;
use json::{Reader, Scratch, Token};
use std::alloc::{AllocError, AllocFailed, Global};
use std::cmp::Ordering;

/// The most members that a key may pass on its way to its index, so that no object takes quadratic time.
const MAX_PASSED: usize = 64;

/// The bytes that a member takes at least, with a key of one byte: those of `"a":1,`.
const MEMBER_LENGTH: usize = 6;

/// The most members of a document for which memory is taken ahead. Few documents have more.
const FIRST_MEMBERS: usize = 6;

/// The most members of an object within a document for which memory is taken ahead.
const FIRST_INNER_MEMBERS: usize = 4;

/// The most elements for which an array or an object keeps unused capacity. To free less is not worth
/// another block.
const MAX_UNUSED: usize = 2;

/// The buffer of reads, which one read after another uses. It is 16 KiB large, so keep it where it is
/// not moved. It grows to the longest text that was read.
#[derive(Drop)]
pub struct ReadBuffer {
    scratch: Scratch,
}

impl ReadBuffer {
    /// A buffer, which allocates nothing before its first read.
    pub fn new(alloc: Global) -> ReadBuffer {
        ReadBuffer {
            scratch: Scratch::new(alloc),
        }
    }
}

/// Why the fast path read no object.
#[derive(Clone, Copy, Drop)]
pub(crate) enum Unread {
    /// The slow path must decide: the text is no document, or has a number that is not whole, equal keys
    /// in one object, or an object of many members out of order.
    Unsure,
    /// Memory ran out.
    Memory,
}

impl From<AllocError> for Unread {
    fn from(_error: AllocError) -> Unread {
        Unread::Memory
    }
}

impl<T: Drop> From<AllocFailed<T>> for Unread {
    fn from(_error: AllocFailed<T>) -> Unread {
        Unread::Memory
    }
}

/// The object that a text holds, if it nests no deeper than a document may.
pub(crate) fn object_in(
    alloc: Global,
    bytes: &[u8],
    buffer: &mut ReadBuffer,
) -> Result<Node, Unread>
    ensures ok { IfOk result (HoldsWhole bytes.now) }
    ensures texts { IfOk result HasTexts }
    ensures object { IfOk result (λ t. is_object t ≡ true) }
    ensures nests { IfOk result (λ t. depth_of_tree t ≤ MAX_DEPTH) }
{
    let Ok(text) = simdutf8::compat::from_utf8(bytes) else {
        return Err(Unread::Unsure);
    };
    let Ok(mut reader) = Reader::new(text, &mut buffer.scratch) else {
        return Err(Unread::Memory);
    };
    let first = first_members(bytes.len());
    let node = read_node(alloc, &mut reader, MAX_DEPTH, first)?;
    if reader.next().is_some() {
        return Err(Unread::Unsure);
    }
    match &node.shape {
        Shape::Object(_) => Ok(node),
        _ => Err(Unread::Unsure),
    }
}

/// The next value, if it nests at most this deep. An object begins with capacity for `first` members.
#[cycle(read_node)]
#[inline(always)]
fn read_node(
    alloc: Global,
    reader: &mut Reader<'_>,
    depth: usize,
    first: usize,
) -> Result<Node, Unread>
    ensures ok { IfOk result (λ t. Reads tree_in (value (depth + BEYOND) reader.old) t reader.new) }
    ensures texts { IfOk result HasTexts }
    ensures nests { IfOk result (λ t. depth_of_tree t ≤ depth) }
    ensures shorter { OnOk result (length reader.new < length reader.old) }
{
    let token = reader.next().ok_or(Unread::Unsure)?;
    match token {
        Token::String(text) => {
            let owned = NodeText::from_str(alloc, text)?;
            Ok(Node {
                shape: Shape::Text(owned),
            })
        }
        Token::Number(text) => match whole_number(text.as_bytes()) {
            Some(number) => Ok(Node {
                shape: Shape::Number(number),
            }),
            None => Err(Unread::Unsure),
        },
        Token::Bool(value) => Ok(Node {
            shape: Shape::Bool(value),
        }),
        Token::Null => Ok(Node { shape: Shape::Null }),
        Token::EndObject | Token::EndArray | Token::Key(_) | Token::Bad => Err(Unread::Unsure),
        Token::BeginArray => {
            if depth == 0 {
                return Err(Unread::Unsure);
            }
            let items = read_items(alloc, reader, depth - 1, first)?;
            Ok(Node {
                shape: Shape::Array(items),
            })
        }
        Token::BeginObject => {
            if depth == 0 {
                return Err(Unread::Unsure);
            }
            let members = read_members(alloc, reader, depth - 1, first)?;
            Ok(Node {
                shape: Shape::Object(members),
            })
        }
    }
}

#[cycle(read_node)]
#[inline(never)]
fn read_items(
    alloc: Global,
    reader: &mut Reader<'_>,
    depth: usize,
    first: usize,
) -> Result<Vec<Node>, Unread>
    ensures ok { IfOk result
        (λ v. Reads items_in (items (value (depth + BEYOND)) (length reader.old) reader.old)
        (items_of v.items) reader.new) }
    ensures texts { IfOk result (λ v. ItemsHaveTexts (items_of v.items)) }
    ensures nests { IfOk result (λ v. items_depth (items_of v.items) ≤ depth) }
    ensures shorter { OnOk result (length reader.new < length reader.old) }
{
    let mut found = Vec::new(alloc);
    'items: while !reader.take_end_array() {
        let item = read_node(alloc, reader, depth, first)?;
        found.push(item)?;
    }
    trim_capacity(&mut found, MAX_UNUSED);
    Ok(found)
}

#[cycle(read_node)]
#[inline(never)]
fn read_members(
    alloc: Global,
    reader: &mut Reader<'_>,
    depth: usize,
    first: usize,
) -> Result<Vec<(NodeText, Node)>, Unread>
    ensures ok { IfOk result
        (λ v. Reads members_in
        (members_in_grammar (value (depth + BEYOND)) (length reader.old) reader.old)
        (members_of v.items) reader.new) }
    ensures texts { IfOk result (λ v. MembersHaveTexts (members_of v.items)) }
    ensures nests { IfOk result (λ v. members_depth (members_of v.items) ≤ depth) }
    ensures shorter { OnOk result (length reader.new < length reader.old) }
{
    let inner = first.min(FIRST_INNER_MEMBERS);
    let mut found = Vec::with_capacity(alloc, first)?;
    'members: while let Some(name) = reader.next_key().or(Err(Unread::Unsure))? {
        let index = index_for(&found, name.as_bytes()).ok_or(Unread::Unsure)?;
        let key = NodeText::from_str(alloc, name)?;
        let node = read_node(alloc, reader, depth, inner)?;
        found.insert(index, (key, node))?;
    }
    trim_capacity(&mut found, MAX_UNUSED);
    Ok(found)
}

/// The members for which memory is taken ahead in a document of this length, in bytes.
#[inline(always)]
fn first_members(length: usize) -> usize {
    (length / MEMBER_LENGTH).min(FIRST_MEMBERS)
}

/// The index at which a new key keeps the members in order, if it passes few of them.
fn index_for(members: &[(NodeText, Node)], name: &[u8]) -> Option<usize>
    requires { AreMembers (members_of members.now) }
    ensures index { IfSome result (λ index. IsIndexFor name.now index members.now) }
    ensures within { IfSome result (λ index. index ≤ length members.now) }
{
    let count = members.len();
    for passed in 0..count.min(MAX_PASSED) {
        let index = count - passed;
        match name.cmp(members[index - 1].0.as_slice()) {
            Ordering::Greater => return Some(index),
            Ordering::Equal => return None,
            Ordering::Less => {}
        }
    }
    if count <= MAX_PASSED { Some(0) } else { None }
}

/// The number of a JSON token (RFC 8259, 6), where it is whole and fits.
#[inline(always)]
fn whole_number(text: &[u8]) -> Option<i64>
    ensures { IfSome result (λ z. whole_in text.now ≡ Some z) }
{
    if has_minus(text) {
        negative(&Numeral::scan(&text[1..]))
    } else {
        positive(&Numeral::scan(text))
    }
}

#[inline(always)]
fn has_minus(text: &[u8]) -> bool
    ensures value { result ≡ (slice_index text.now 0 == 45) }
    ensures len { IsTrue result → 0 < length text.now }
{
    !text.is_empty() && text[0] == b'-'
}

#[inline(always)]
fn positive(numeral: &Numeral<'_>) -> Option<i64>
    ensures { IfSome result (λ z. option_and_then as_i64 (number_from false numeral.now) ≡ Some z) }
{
    numeral.to_i64(false)
}

/// Zero with a minus is a fraction.
#[inline(always)]
fn negative(numeral: &Numeral<'_>) -> Option<i64>
    ensures { IfSome result (λ z. option_and_then as_i64 (number_from true numeral.now) ≡ Some z) }
{
    let number = numeral.to_i64(true)?;
    if number < 0 { Some(number) } else { None }
}
