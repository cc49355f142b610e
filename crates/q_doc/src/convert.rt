//! The slow path of reading: from bytes to a JSON value, and from there to a node.
ghost use Rattle.std.specs.Prelude.{◌≡◌, ◌<◌, ◌≤◌, ◌^◌, ℕ, Some, IfOk, IfErr, string_bytes};
ghost use Rattle.std.specs.Str.{IsUtf8};
ghost use Rattle.serde_json.specs.Data.{depth as json_depth, items_depth as json_items_depth, members_depth as json_members_depth};
ghost use Rattle.serde_json.specs.View.{view, items_view, members_view};
ghost use Rattle.q_doc.specs.Tree.{items_of, members_of};
ghost use Rattle.q_doc.specs.Document.{HasTexts, ItemsHaveTexts, MembersHaveTexts};
ghost use Rattle.q_doc.specs.Found.{found, whole, whole_items, whole_members};
ghost use Rattle.q_doc.specs.Judged.{FailsToConvert, FailsToParse};

use crate::node::{Node, Shape};
use crate::node_text::NodeText;
use crate::refusal::DocRefusal;
use serde_json::{Map, Value};
use std::alloc::Global;

/// The JSON value (RFC 8259) of a text.
pub(crate) fn value_of(alloc: Global, text: &[u8]) -> Result<Value, DocRefusal>
    ensures ok { IfOk result (λ v. found text.now ≡ Some (view v)) }
    ensures nests { IfOk result (λ v. json_depth (view v) < 2 ^ 63) }
    ensures err { IfErr result (FailsToParse text.now) }
{
    match Value::from_slice(alloc, text) {
        Ok(value) => Ok(value),
        Err(error) => if error.is_memory() {
            Err(DocRefusal::Memory)
        } else {
            Err(DocRefusal::NotJson)
        },
    }
}

/// How deep arrays and objects nest.
#[cycle(depth_of)]
pub(crate) fn depth_of(value: &Value) -> usize
    requires { json_depth (view value.now) < 2 ^ 63 }
    ensures { result ≡ json_depth (view value.now) }
{
    match value {
        Value::Array(items) => 1 + depth_of_items(items),
        Value::Object(members) => 1 + depth_of_members(members),
        _ => 0,
    }
}

#[cycle(depth_of)]
fn depth_of_items(items: &Vec<Value>) -> usize
    requires { json_items_depth (items_view items.now.items) < 2 ^ 63 }
    ensures { result ≡ json_items_depth (items_view items.now.items) }
{
    let mut deepest = 0usize;
    for item in items {
        deepest = deepest.max(depth_of(item));
    }
    deepest
}

#[cycle(depth_of)]
fn depth_of_members(members: &Map<String, Value>) -> usize
    requires { json_members_depth (members_view members.now.entries) < 2 ^ 63 }
    ensures { result ≡ json_members_depth (members_view members.now.entries) }
{
    let mut deepest = 0usize;
    for (_, value) in members.iter() {
        deepest = deepest.max(depth_of(value));
    }
    deepest
}

/// The node of a JSON value, whose texts it takes over.
#[cycle(node_of)]
pub(crate) fn node_of(alloc: Global, value: Value) -> Result<Node, DocRefusal>
    ensures ok { IfOk result (λ t. whole (view value) ≡ Some t) }
    ensures texts { IfOk result HasTexts }
    ensures err { IfErr result (FailsToConvert (whole (view value))) }
{
    let shape = match value {
        Value::Null => Shape::Null,
        Value::Bool(value) => Shape::Bool(value),
        Value::Number(number) => match number.as_i64() {
            Some(value) => Shape::Number(value),
            None => return Err(DocRefusal::NotWhole),
        },
        Value::String(text) => Shape::Text(NodeText::from_string(alloc, text)?),
        Value::Array(items) => Shape::Array(nodes_of(alloc, items)?),
        Value::Object(members) => Shape::Object(member_nodes_of(alloc, members)?),
    };
    Ok(Node { shape })
}

#[cycle(node_of)]
fn nodes_of(alloc: Global, items: Vec<Value>) -> Result<Vec<Node>, DocRefusal>
    ensures ok { IfOk result
        (λ v. whole_items (items_view items.items) ≡ Some (items_of v.items)) }
    ensures texts { IfOk result (λ v. ItemsHaveTexts (items_of v.items)) }
    ensures err { IfErr result (FailsToConvert (whole_items (items_view items.items))) }
{
    let mut nodes = Vec::with_capacity(alloc, items.len())?;
    for item in items {
        nodes.push(node_of(alloc, item)?)?;
    }
    Ok(nodes)
}

#[cycle(node_of)]
fn member_nodes_of(
    alloc: Global,
    members: Map<String, Value>,
) -> Result<Vec<(NodeText, Node)>, DocRefusal>
    ensures ok { IfOk result
        (λ v. whole_members (members_view members.entries) ≡ Some (members_of v.items)) }
    ensures texts { IfOk result (λ v. MembersHaveTexts (members_of v.items)) }
    ensures err { IfErr result (FailsToConvert (whole_members (members_view members.entries))) }
{
    let mut nodes = Vec::with_capacity(alloc, members.len())?;
    for (key, value) in members {
        let node = node_of(alloc, value)?;
        nodes.push((NodeText::from_string(alloc, key)?, node))?;
    }
    Ok(nodes)
}
