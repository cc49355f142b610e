//! Writing a node as JSON, a token at a time.
ghost use Rattle.std.specs.Prelude.{◌≡◌, ◌∷◌, ◌++◌, OnOk};
ghost use Rattle.json.specs.Token.{begin_array, begin_object};
ghost use Rattle.q_doc.specs.Tree.{items_of, members_of};
ghost use Rattle.q_doc.specs.Printed.{tokens_of, items_tokens, members_tokens};

use crate::node::{Node, Shape};
use crate::node_text::NodeText;
use json::Writer;
use std::alloc::AllocError;

#[cycle(write_node)]
pub(crate) fn write_node(node: &Node, out: &mut Writer) -> Result<(), AllocError>
    ensures ok { OnOk result (out.new.tokens ≡ out.old.tokens ++ tokens_of node.now) }
    ensures before { out.new.before ≡ out.old.before }
{
    match &node.shape {
        Shape::Null => out.null(),
        Shape::Bool(value) => out.boolean(*value),
        Shape::Number(value) => out.i64(*value),
        Shape::Text(text) => out.string(text.as_str()),
        Shape::Array(items) => write_items(items, out),
        Shape::Object(members) => write_members(members, out),
    }
}

#[cycle(write_node)]
fn write_items(items: &Vec<Node>, out: &mut Writer) -> Result<(), AllocError>
    ensures ok { OnOk result
        (out.new.tokens ≡ out.old.tokens ++ begin_array ∷ items_tokens (items_of items.now.items)) }
    ensures before { out.new.before ≡ out.old.before }
{
    out.begin_array()?;
    for item in items {
        write_node(item, out)?;
    }
    out.end_array()
}

#[cycle(write_node)]
fn write_members(members: &Vec<(NodeText, Node)>, out: &mut Writer) -> Result<(), AllocError>
    ensures ok { OnOk result
        (out.new.tokens
        ≡ out.old.tokens ++ begin_object ∷ members_tokens (members_of members.now.items)) }
    ensures before { out.new.before ≡ out.old.before }
{
    out.begin_object()?;
    for member in members {
        out.key(member.0.as_str())?;
        write_node(&member.1, out)?;
    }
    out.end_object()
}
