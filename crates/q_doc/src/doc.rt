//! A document: an object within the limits, whose keys are in order.
ghost use Rattle.std.specs.Prelude.{◌≡◌, ◌⊎◌, ◌<◌, ◌≤◌, length, IfOk};
ghost use Rattle.q_doc.specs.Document.{IsPlainDocument, HasTexts};
ghost use Rattle.q_doc.specs.Found.{found};
ghost use Rattle.q_doc.specs.Judged.{judged, judged_found};
ghost use Rattle.q_doc.specs.Limits.{longest_document};
ghost use Rattle.q_doc.specs.Printed.{printed};
ghost use Rattle.q_doc.specs.Stored.{IsStored};

use crate::convert::{depth_of, node_of, value_of};
use crate::node::Node;
use crate::print::write_node;
use crate::print_length::length_of;
use crate::reading::{ReadBuffer, Unread, object_in};
use crate::refusal::{DocRefusal, Memory};
use crate::text::Text;
use crate::trim::trim_capacity;
use json::Writer;
use std::alloc::Global;
use std::marker::Model;
use std::sync::Arc;

/// The greatest length of a document's text, in bytes.
pub const MAX_LENGTH: usize = 65_536;

/// The greatest depth of a document. An object of scalars has depth 1.
pub const MAX_DEPTH: usize = 32;

/// The bytes that a `Writer` has ready beyond what it writes: at each token that has no comma before
/// it, room for one.
const AHEAD: usize = 1;

/// The most bytes of unused capacity that a printed document keeps. To free less is not worth another
/// block.
const MAX_UNUSED: usize = 16;

/// A document. Contracts see its value, a `Tree`. It never changes, so its clones share one tree.
#[derive(Drop)]
pub struct Doc {
    pub(crate) root: Arc<Root>,
}

/// What the clones of a document share.
#[derive(Drop)]
pub(crate) struct Root {
    pub(crate) node: Node,
    /// The length of the text that was read, in bytes. The printed text is no longer.
    length: usize,
}

impl Model for Doc {
    ghost use Rattle.std.specs.Arc.{arc_value};
    ghost use Rattle.q_doc.specs.Tree.{Tree};
    ghost use Rattle.q_doc.specs.Code.{tree_code};
    ghost use Rattle.q_doc.specs.Stored.{IsStored};

    ghost Value = { Tree };

    ghost coded = { tree_code };

    ghost view = { λ a. (arc_value a.root).node };

    ghost invariant = { λ a. IsStored (arc_value a.root).node (arc_value a.root).length };
}

impl Doc {
    /// Reads a document. Of equal keys in one object the last value counts, and the keys are sorted.
    pub fn read(alloc: Global, text: &[u8]) -> Result<Doc, DocRefusal>
        ensures judged { (result ≡ Err DocRefusal.Memory) ⊎ (result ≡ judged text.now) }
        ensures too_long { longest_document < length text.now → result ≡ judged text.now }
        ensures no_longer { IfOk result (λ t. length (printed t) ≤ length text.now) }
    {
        Doc::read_with(alloc, text, &mut ReadBuffer::new(alloc))
    }

    /// Reads a document as `read` does, with a buffer that is used again by the next read.
    pub fn read_with(alloc: Global, text: &[u8], buffer: &mut ReadBuffer) -> Result<Doc, DocRefusal>
        ensures judged { (result ≡ Err DocRefusal.Memory) ⊎ (result ≡ judged text.now) }
        ensures too_long { longest_document < length text.now → result ≡ judged text.now }
        ensures no_longer { IfOk result (λ t. length (printed t) ≤ length text.now) }
    {
        if text.len() > MAX_LENGTH {
            return Err(DocRefusal::TooLong { length: text.len() });
        }
        match object_in(alloc, text, buffer) {
            Ok(node) => Doc::of(alloc, node, text.len()),
            Err(Unread::Unsure) => Doc::read_any(alloc, text),
            Err(Unread::Memory) => Err(DocRefusal::Memory),
        }
    }

    /// Reads a document on the slow path, by its JSON value, which gives the cause of a refusal.
    #[cold]
    fn read_any(alloc: Global, text: &[u8]) -> Result<Doc, DocRefusal>
        requires { length text.now ≤ MAX_LENGTH }
        ensures { (result ≡ Err DocRefusal.Memory) ⊎ (result ≡ judged_found (found text.now)) }
    {
        let value = match value_of(alloc, text) {
            Ok(value) => value,
            Err(refusal) => return Err(refusal),
        };
        if !value.is_object() {
            return Err(DocRefusal::NotObject);
        }
        let depth = depth_of(&value);
        if depth > MAX_DEPTH {
            return Err(DocRefusal::TooDeep { depth });
        }
        match node_of(alloc, value) {
            Ok(node) => Doc::of(alloc, node, text.len()),
            Err(refusal) => Err(refusal),
        }
    }

    /// The document with this value, which was read from a text of this length.
    fn of(alloc: Global, node: Node, length: usize) -> Result<Doc, DocRefusal>
        requires { IsStored node length }
        ensures { (result ≡ Err DocRefusal.Memory) ⊎ (result ≡ Ok node) }
    {
        match Arc::new(alloc, Root { node, length }) {
            Ok(root) => Ok(Doc { root }),
            Err(_) => Err(DocRefusal::Memory),
        }
    }

    /// The document as compact JSON, with the keys of each object in the order of their bytes.
    pub fn print(&self, alloc: Global) -> Result<Text, Memory>
        ensures text { IfOk result (λ s. s ≡ printed self.now) }
        ensures reads_back { IfOk result (λ s. judged s ≡ Ok self.now) }
    {
        let root = &*self.root;
        let mut out = Writer::new(Vec::with_capacity(alloc, root.length + AHEAD)?);
        write_node(&root.node, &mut out)?;
        let mut bytes = out.into_inner();
        trim_capacity(&mut bytes, MAX_UNUSED);
        Ok(Text::of(bytes))
    }

    /// The length of the printed document, in bytes. It allocates nothing and takes as long as printing.
    pub fn printed_len(&self) -> usize
        ensures { result ≡ length (printed self.now) }
    {
        length_of(&self.root.node)
    }

    /// The document's value, which is an object.
    pub fn root(&self) -> &Node
        ensures same { result.now ≡ self.now }
        ensures document { IsPlainDocument self.now }
        ensures texts { HasTexts self.now }
        ensures short { length (printed self.now) ≤ longest_document }
    {
        &self.root.node
    }
}
