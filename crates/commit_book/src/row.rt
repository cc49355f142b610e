//! The rows of a book.
ghost use Rattle.std.specs.Prelude.{◌≡◌, ◌<◌, ◌≤◌, ◌^◌, ◌+◌, length, IfOk, is_some, option_map};
ghost use Rattle.commit_book.specs.Index.{put_cost};
ghost use Rattle.commit_book.specs.Journal.{text_of, cost_of, put_at, row_bytes};

use crate::base::Base;
use crate::change::Change;
use crate::index::Slot;
use q_base::{Commit, Memory, Name, SharedText};
use q_doc::Doc;
use std::alloc::{AllocError, Global};
use std::marker::Model;

/// A change with the printed text of its document, which reads return. Contracts see the change.
#[derive(Drop)]
pub struct Row {
    change: Change,
    text: SharedText,
}

impl Model for Row {
    ghost use Rattle.std.specs.Prelude.{◌≡◌};
    ghost use Rattle.std.specs.Coded.{codes};
    ghost use Rattle.q_doc.specs.Code.{tree_code};
    ghost use Rattle.commit_book.specs.Journal.{text_of};
    ghost use Rattle.commit_book.specs.declared.change.Change.{Change};

    ghost Value = { Change };

    ghost coded = { Prim.hlevel (codes, tree_code) };

    ghost view = { λ r. r.change };

    ghost invariant = { λ r. r.text ≡ text_of r.change.document };
}

/// A row that is dropped: its names, and the document that stays, if it puts one.
#[derive(Drop)]
pub struct Dropped {
    pub collection: Name,
    pub id: Name,
    pub base: Option<Base>,
}

/// A row that is to be added, and the slot of its commit in the index.
#[derive(Drop)]
pub struct Reserved {
    pub row: Row,
    pub slot: Slot,
}

impl Row {
    /// A copy of a change, with the text of its document.
    pub fn of(alloc: Global, change: &Change, text: Vec<u8>) -> Result<Row, AllocError>
        requires { text.items ≡ text_of change.now.document }
        ensures { IfOk result (λ row. row ≡ change.now) }
    {
        Ok(Row {
            change: change.clone()?,
            text: SharedText::of(alloc, text)?,
        })
    }

    /// The change.
    pub fn change(&self) -> &Change
        ensures { result.now ≡ self.now }
    {
        &self.change
    }

    /// The document that the row puts.
    pub fn document(&self) -> Option<&Doc>
        ensures { option_map (λ d. d.now) result ≡ self.now.document }
    {
        self.change.document.as_ref()
    }

    /// The printed text of the document; a deletion has none.
    pub fn text(&self) -> &SharedText
        ensures { result.now ≡ text_of self.now.document }
    {
        &self.text
    }

    /// The names of the row, and what stays of it when it is dropped, if it puts a document.
    pub fn into_dropped(self, commit: Commit) -> Dropped
        ensures collection { result.collection ≡ self.collection }
        ensures id { result.id ≡ self.id }
        ensures base { result.base ≡ put_at commit self.document }
    {
        let Row { change, text } = self;
        let Change {
            collection,
            id,
            document,
        } = change;
        let base = match document {
            Some(document) => Some(Base::new(commit, document, text)),
            None => None,
        };
        Dropped {
            collection,
            id,
            base,
        }
    }

    /// What the row takes of the capacity, in bytes.
    pub fn cost(&self) -> u64
        ensures { result ≡ cost_of self.now }
    {
        cost_of(&self.change, self.text.as_slice())
    }

    /// What the row takes of the capacity where it puts a document, in bytes.
    pub fn put_cost(&self) -> u64
        ensures cost { result ≡ put_cost self.now }
        ensures most { result ≤ 2 ^ 63 + 192 }
    {
        if self.has_document() {
            cost_of(&self.change, self.text.as_slice())
        } else {
            0
        }
    }

    /// Whether the row puts a document.
    pub fn has_document(&self) -> bool
        ensures { result ≡ is_some self.now.document }
    {
        self.change.document.is_some()
    }
}

/// The printed text of the document of a change.
pub fn text_of(alloc: Global, change: &Change) -> Result<Vec<u8>, Memory>
    ensures { IfOk result (λ text. text.items ≡ text_of change.now.document) }
{
    match &change.document {
        Some(document) => match document.print(alloc) {
            Ok(text) => Ok(text.into_vec()),
            Err(_) => Err(Memory),
        },
        None => Ok(Vec::new(alloc)),
    }
}

/// What a change takes of the capacity beside its names and its text, in bytes.
const ROW_BYTES: usize = 64;

/// What a change with this text takes of the capacity, in bytes.
pub fn cost_of(change: &Change, text: &[u8]) -> u64
    requires { text.now ≡ text_of change.now.document }
    ensures cost { result ≡ cost_of change.now }
    ensures most { result ≤ 2 ^ 63 + 192 }
{
    cost_with(change, text.len())
}

/// What a change with a text of this length takes of the capacity, in bytes.
pub fn cost_with(change: &Change, size: usize) -> u64
    requires { size < 2 ^ 63 }
    ensures cost { result ≡ row_bytes + length change.now.collection + length change.now.id + size }
    ensures most { result ≤ 2 ^ 63 + 192 }
{
    names_cost(&change.collection, &change.id, size)
}

/// What a row of these names with a text of this length takes of the capacity, in bytes.
pub fn names_cost(collection: &Name, id: &Name, size: usize) -> u64
    requires { size < 2 ^ 63 }
    ensures cost { result ≡ row_bytes + length collection.now + length id.now + size }
    ensures most { result ≤ 2 ^ 63 + 192 }
{
    let names = collection.as_slice().len() + id.as_slice().len();
    (ROW_BYTES + names + size) as u64
}
