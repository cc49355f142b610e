//! `clone` of texts, paths, nodes and documents: each clone is the same value.
ghost use Rattle.std.specs.Prelude.{◌≡◌, IfOk};
ghost use Rattle.q_doc.specs.Tree.{items_of, members_of};

use crate::doc::Doc;
use crate::node::{Node, Shape};
use crate::node_text::NodeText;
use crate::path::Path;
use crate::text::Text;
use std::alloc::AllocError;
use std::sync::Arc;

impl Clone for Text {
    ghost is_clone = { λ s t. s ≡ t };

    fn clone(&self) -> Result<Text, AllocError> {
        Ok(Text {
            text: self.text.clone()?,
        })
    }
}

impl Clone for Path {
    ghost is_clone = { λ s t. s ≡ t };

    fn clone(&self) -> Result<Path, AllocError> {
        Ok(Path {
            segments: clone_of_segments(&self.segments)?,
        })
    }
}

impl Clone for Node {
    ghost is_clone = { λ s t. s ≡ t };

    fn clone(&self) -> Result<Node, AllocError> {
        clone_of(self)
    }
}

impl Clone for Doc {
    ghost is_clone = { λ s t. s ≡ t };

    fn clone(&self) -> Result<Doc, AllocError> {
        Ok(Doc {
            root: Arc::try_clone(&self.root)?,
        })
    }
}

#[cycle(clone_of)]
fn clone_of(node: &Node) -> Result<Node, AllocError>
    ensures { IfOk result (λ t. node.now ≡ t) }
{
    let shape = match &node.shape {
        Shape::Null => Shape::Null,
        Shape::Bool(value) => Shape::Bool(*value),
        Shape::Number(value) => Shape::Number(*value),
        Shape::Text(text) => Shape::Text(text.clone()?),
        Shape::Array(items) => Shape::Array(clone_of_items(items)?),
        Shape::Object(members) => Shape::Object(clone_of_members(members)?),
    };
    Ok(Node { shape })
}

#[cycle(clone_of)]
fn clone_of_items(items: &Vec<Node>) -> Result<Vec<Node>, AllocError>
    ensures { IfOk result (λ v. items.now.items ≡ v.items) }
{
    let mut clones = Vec::with_capacity(*items.allocator(), items.len())?;
    for item in items {
        clones.push(clone_of(item)?)?;
    }
    Ok(clones)
}

#[cycle(clone_of)]
fn clone_of_members(members: &Vec<(NodeText, Node)>) -> Result<Vec<(NodeText, Node)>, AllocError>
    ensures { IfOk result (λ v. members.now.items ≡ v.items) }
{
    let mut clones = Vec::with_capacity(*members.allocator(), members.len())?;
    for member in members {
        let key = member.0.clone()?;
        clones.push((key, clone_of(&member.1)?))?;
    }
    Ok(clones)
}

fn clone_of_segments(segments: &Vec<Text>) -> Result<Vec<Text>, AllocError>
    ensures { IfOk result (λ v. segments.now.items ≡ v.items) }
{
    let mut clones = Vec::with_capacity(*segments.allocator(), segments.len())?;
    for segment in segments {
        clones.push(segment.clone()?)?;
    }
    Ok(clones)
}
