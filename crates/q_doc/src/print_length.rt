//! The length of a printed node, without printing it.
ghost use Rattle.std.specs.Prelude.{◌≡◌, ◌<◌, ◌^◌, false, length};
ghost use Rattle.json.specs.Print.{escape_byte, quoted};
ghost use Rattle.serde_json.specs.Written.{items_text, members_text};
ghost use Rattle.q_doc.specs.Tree.{items_of, members_of};
ghost use Rattle.q_doc.specs.Printed.{items_data, members_data, printed, has_letter};

use crate::node::{Node, Shape};
use crate::node_text::NodeText;

/// The length of the printed node.
#[cycle(length_of)]
pub(crate) fn length_of(node: &Node) -> usize
    requires { length (printed node.now) < 2 ^ 63 }
    ensures { result ≡ length (printed node.now) }
{
    match &node.shape {
        Shape::Null => 4,
        Shape::Bool(true) => 4,
        Shape::Bool(false) => 5,
        Shape::Number(value) => itoa::Buffer::new().format(*value).len(),
        Shape::Text(text) => quoted_length(text.as_slice()),
        Shape::Array(items) => 1 + length_of_items(items),
        Shape::Object(members) => 1 + length_of_members(members),
    }
}

/// The length of the elements with their commas and the bracket that closes them.
#[cycle(length_of)]
fn length_of_items(items: &[Node]) -> usize
    requires { length (items_text false (items_data (items_of items.now))) < 2 ^ 63 }
    ensures { result ≡ length (items_text false (items_data (items_of items.now))) }
{
    let mut length = 0;
    for item in items {
        length += length_of(item) + 1;
    }
    length.max(1)
}

/// The length of the members with their commas and the brace that closes them.
#[cycle(length_of)]
fn length_of_members(members: &[(NodeText, Node)]) -> usize
    requires { length (members_text false (members_data (members_of members.now))) < 2 ^ 63 }
    ensures { result ≡ length (members_text false (members_data (members_of members.now))) }
{
    let mut length = 0;
    for member in members {
        length += quoted_length(member.0.as_slice()) + 1;
        length += length_of(&member.1) + 1;
    }
    length.max(1)
}

/// The length of a text between its quotes, and with them.
fn quoted_length(text: &[u8]) -> usize
    requires { length (quoted text.now) < 2 ^ 63 }
    ensures { result ≡ length (quoted text.now) }
{
    let mut length = 2;
    for byte in text {
        length += escape_length(*byte);
    }
    length
}

/// The length of a byte in a JSON string, escaped where it must be (RFC 8259, 7).
fn escape_length(byte: u8) -> usize
    ensures { result ≡ length (escape_byte byte) }
{
    if has_letter(byte) {
        2
    } else if byte < 32 {
        6
    } else {
        1
    }
}

/// Whether the escape of a byte is a backslash and one character (RFC 8259, 7).
fn has_letter(byte: u8) -> bool
    ensures { result ≡ has_letter byte }
{
    byte == b'"'
        || byte == b'\\'
        || byte == 8
        || byte == 12
        || byte == 10
        || byte == 13
        || byte == 9
}
