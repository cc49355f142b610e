//! A path into a document: the keys to follow from its root.
ghost use Rattle.std.specs.Prelude.{◌≡◌, option_map};
ghost use Rattle.q_doc.specs.Path.{tree_at, member_at};
ghost use Rattle.q_doc.specs.PathLength.{IsPath};

use crate::doc::Doc;
use crate::node::{Node, Shape};
use crate::text::Text;
use std::marker::Model;

/// The greatest number of segments of a path.
pub const MAX_SEGMENTS: usize = 8;

/// The keys to follow from a document's root, from 1 to 8, each any text.
#[derive(Drop)]
pub struct Path {
    pub(crate) segments: Vec<Text>,
}

impl Model for Path {
    ghost use Rattle.std.specs.Prelude.{ℕ, List};
    ghost use Rattle.q_doc.specs.PathLength.{IsPath};

    ghost Value = { List (List ℕ) };

    ghost view = { λ a. a.segments.items };

    ghost invariant = { λ a. IsPath a.segments.items };
}

impl Path {
    /// The path of these segments, which are taken over.
    pub fn of(segments: Vec<Text>) -> Path
        requires { IsPath segments.items }
        ensures { result ≡ segments.items }
    {
        Path { segments }
    }

    /// The keys, from the root on.
    pub fn segments(&self) -> &[Text]
        ensures value { result.now ≡ self.now }
        ensures few { IsPath self.now }
    {
        &self.segments
    }
}

impl Doc {
    /// The value at the path, if each key on the way is in an object. It allocates nothing.
    pub fn at(&self, path: &Path) -> Option<&Node>
        ensures { option_map (λ r. r.now) result ≡ tree_at path.now self.now }
    {
        let mut node = &self.root.node;
        for segment in &path.segments {
            match member(node, segment.as_slice()) {
                Some(value) => node = value,
                None => return None,
            }
        }
        Some(node)
    }
}

/// The value of the node's member with this key.
fn member<'a>(node: &'a Node, name: &[u8]) -> Option<&'a Node>
    ensures { option_map (λ r. r.now) result ≡ member_at name.now node.now }
{
    let Shape::Object(members) = &node.shape else {
        return None;
    };
    for (key, value) in members {
        if key.as_slice() == name {
            return Some(value);
        }
    }
    None
}
