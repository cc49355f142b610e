//! A value of a document, as a tree.
ghost use Rattle.std.specs.Prelude.{◌≡◌};

use crate::node_text::NodeText;
use std::marker::Model;

/// A value. Contracts see it as a `Tree` of `specs/Tree.antt`, and `==` is equality of values.
#[cycle(node)]
#[derive(Drop)]
pub struct Node {
    pub shape: Shape,
}

/// The kind of a value, with its parts. Members are in the order in which they were added.
#[cycle(node)]
#[derive(Drop)]
pub enum Shape {
    Null,
    Bool(bool),
    Number(i64),
    Text(NodeText),
    Array(Vec<Node>),
    Object(Vec<(NodeText, Node)>),
}

impl Model for Node {
    ghost use Rattle.q_doc.specs.Tree.{Tree, depth};

    ghost Value = { Tree };

    ghost use Rattle.q_doc.specs.Code.{tree_code};

    ghost coded = { tree_code };

    ghost use Rattle.q_doc.specs.Shape.{tree_of};

    ghost view = { λ a. tree_of a.shape };

    ghost size = { depth };

    ghost use Rattle.q_doc.specs.ShapeFalls.{falls};

    ghost size_decreases = { λ a h. falls a.shape };
}
