//! The parts of an atom while they are read.
ghost use Rattle.std.specs.Prelude.{◌≡◌, ◌+◌, ◌<◌, ◌≤◌, length, [], ◌∷◌, ◌++◌, OnOk, IfOk};
ghost use Rattle.q_doc.specs.PathLength.{IsPath};
ghost use Rattle.q_doc.specs.Limits.{most_segments};

use q_doc::{Node, Path, Text};
use std::alloc::{AllocError, Global};
use std::marker::Model;

/// The segments of a path so far, at least one, and no more than a path has. Contracts see the list of them.
#[derive(Drop)]
pub(crate) struct Segments {
    texts: Vec<Text>,
}

impl Model for Segments {
    ghost use Rattle.std.specs.Prelude.{ℕ, List};
    ghost use Rattle.q_doc.specs.PathLength.{IsPath};

    ghost Value = { List (List ℕ) };

    ghost view = { λ s. s.texts.items };

    ghost invariant = { λ s. IsPath s.texts.items };
}

impl Segments {
    /// One segment.
    pub(crate) fn one(alloc: Global, text: Text) -> Result<Segments, AllocError>
        ensures { IfOk result (λ s. s ≡ text ∷ []) }
    {
        let mut texts = Vec::new(alloc);
        texts.push(text)?;
        Ok(Segments { texts })
    }

    /// The number of segments.
    pub(crate) fn len(&self) -> usize
        ensures { result ≡ length self.now }
    {
        self.texts.len()
    }

    /// The segments with one more at the end.
    pub(crate) fn with(self, text: Text) -> Result<Segments, AllocError>
        requires { length self < most_segments }
        ensures { IfOk result (λ s. s ≡ self ++ text ∷ []) }
    {
        let mut texts = self.texts;
        texts.push(text)?;
        Ok(Segments { texts })
    }

    /// The path of these segments, in no new memory.
    pub(crate) fn into_path(self) -> Path
        ensures { result ≡ self }
    {
        Path::of(self.texts)
    }
}

/// The values of a list so far. Contracts see the list of them.
#[derive(Drop)]
pub(crate) struct Values {
    nodes: Vec<Node>,
}

impl Model for Values {
    ghost use Rattle.std.specs.Prelude.{List};
    ghost use Rattle.std.specs.Coded.{codes};
    ghost use Rattle.q_doc.specs.Tree.{Tree};
    ghost use Rattle.q_doc.specs.Code.{tree_code};

    ghost Value = { List Tree };

    ghost coded = { Prim.hlevel (codes, tree_code) };

    ghost view = { λ v. v.nodes.items };
}

impl Values {
    /// No values.
    pub(crate) fn new(alloc: Global) -> Values
        ensures { result ≡ [] }
    {
        Values {
            nodes: Vec::new(alloc),
        }
    }

    /// The number of values.
    pub(crate) fn len(&self) -> usize
        ensures { result ≡ length self.now }
    {
        self.nodes.len()
    }

    /// The values with one more at the end.
    pub(crate) fn with(self, node: Node) -> Result<Values, AllocError>
        ensures { IfOk result (λ v. v ≡ self ++ node ∷ []) }
    {
        let mut nodes = self.nodes;
        nodes.push(node)?;
        Ok(Values { nodes })
    }

    /// The values, in no new memory.
    pub(crate) fn into_vec(self) -> Vec<Node>
        ensures { result.items ≡ self }
    {
        self.nodes
    }
}
