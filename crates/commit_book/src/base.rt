//! The documents that stay of the rows that a book dropped.
ghost use Rattle.std.specs.Prelude.{◌≡◌, ◌≤◌, ◌+◌, ◌^◌};
ghost use Rattle.q_doc.specs.Printed.{printed};
ghost use Rattle.commit_book.specs.Journal.{put_at};
ghost use Rattle.commit_book.specs.Index.{base_cost};

use crate::row::names_cost;
use q_base::{Commit, Name, SharedText};
use q_doc::Doc;
use std::marker::Model;

/// The document that a record has at the horizon, and the commit that put it. Contracts see both. Its
/// names are those under which it is found, and are not kept a second time.
#[derive(Drop)]
pub struct Base {
    commit: Commit,
    document: Doc,
    text: SharedText,
}

impl Model for Base {
    ghost use Rattle.std.specs.Prelude.{ℕ, ◌≡◌};
    ghost use Rattle.std.specs.Coded.{codes};
    ghost use Rattle.q_doc.specs.Code.{tree_code};
    ghost use Rattle.q_doc.specs.Printed.{printed};
    ghost use Rattle.q_doc.specs.Tree.{Tree};

    ghost Value = { ℕ × Tree };

    ghost coded = { Prim.hlevel (codes, tree_code) };

    ghost view = { λ b. (b.commit, b.document) };

    ghost invariant = { λ b. b.text ≡ printed b.document };
}

impl Base {
    /// The document of a commit, with its printed text.
    pub fn new(commit: Commit, document: Doc, text: SharedText) -> Base
        requires { text ≡ printed document }
        ensures { result ≡ (commit, document) }
    {
        Base {
            commit,
            document,
            text,
        }
    }

    /// The commit that put the document.
    pub fn commit(&self) -> Commit
        ensures { result ≡ self.now.0 }
    {
        self.commit
    }

    /// The document.
    pub fn document(&self) -> &Doc
        ensures { result.now ≡ self.now.1 }
    {
        &self.document
    }

    /// The printed text of the document.
    pub fn text(&self) -> &SharedText
        ensures { result.now ≡ printed self.now.1 }
    {
        &self.text
    }
}

/// What a base of these names takes of the capacity, in bytes.
pub fn base_cost(collection: &Name, id: &Name, base: &Option<Base>) -> u64
    ensures cost { result ≡ base_cost collection.now id.now base.now }
    ensures most { result ≤ 2 ^ 63 + 192 }
{
    match base {
        Some(base) => names_cost(collection, id, base.text().as_slice().len()),
        None => 0,
    }
}
