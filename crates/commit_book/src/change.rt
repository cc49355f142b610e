//! Changes of the store, and what a commit made of its record.
ghost use Rattle.std.specs.Prelude.{◌≡◌, ◌≤◌, ◌+◌, ◌^◌, IfOk};
ghost use Rattle.commit_book.specs.Journal.{cost_of};
ghost use Rattle.commit_book.specs.Same.{same_document, same_change};

use crate::row::cost_with;
use q_base::{Commit, Name};
use q_doc::Doc;
use std::alloc::AllocError;

/// What a write does to a record: it puts a document, or deletes.
#[derive(Drop)]
pub struct Change {
    pub collection: Name,
    pub id: Name,
    /// The document that is put; none is a deletion.
    pub document: Option<Doc>,
}

/// A commit with the documents of its record before and after it.
#[derive(Drop)]
pub struct CommitRow {
    pub commit: Commit,
    pub collection: Name,
    pub id: Name,
    pub before: Option<Doc>,
    pub after: Option<Doc>,
}

impl Change {
    /// What the change takes of a capacity, in bytes. It takes no memory, and as long as printing.
    pub fn cost(&self) -> u64
        ensures cost { result ≡ cost_of self.now }
        ensures most { result ≤ 2 ^ 63 + 192 }
    {
        match &self.document {
            Some(document) => {
                // Its root shows that its text is not too long.
                let _root = document.root();
                cost_with(self, document.printed_len())
            }
            None => cost_with(self, 0),
        }
    }
}

impl Clone for Change {
    ghost is_clone = { λ s t. s ≡ t };

    fn clone(&self) -> Result<Change, AllocError> {
        Ok(Change {
            collection: self.collection.clone()?,
            id: self.id.clone()?,
            document: copy_of(&self.document)?,
        })
    }
}

/// A copy of a document, where there is one.
pub fn copy_of(document: &Option<Doc>) -> Result<Option<Doc>, AllocError>
    ensures { IfOk result (λ copy. document.now ≡ copy) }
{
    match document {
        Some(document) => Ok(Some(document.clone()?)),
        None => Ok(None),
    }
}

/// Whether two changes are the same.
pub fn is_same(a: &Change, b: &Change) -> bool
    ensures { result ≡ same_change a.now b.now }
{
    a.id == b.id && a.collection == b.collection && is_same_document(&a.document, &b.document)
}

/// Whether two documents are equal, or neither is there.
fn is_same_document(a: &Option<Doc>, b: &Option<Doc>) -> bool
    ensures { result ≡ same_document a.now b.now }
{
    match (a, b) {
        (Some(a), Some(b)) => a == b,
        (None, None) => true,
        _ => false,
    }
}
