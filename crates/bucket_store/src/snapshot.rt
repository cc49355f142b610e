//! The documents of a collection as they were at a commit.
ghost use Rattle.std.specs.Prelude.{◌≡◌, length, IfOk};
ghost use Rattle.commit_book.specs.Documents.{docs, HasDocuments};
ghost use Rattle.query_core.specs.Window.{window};
ghost use Rattle.bucket_store.specs.Buckets.{Found};
ghost use Rattle.bucket_store.specs.Kept.{IsKept, IsTaken, taken};

use crate::collection::Collection;
use crate::past::Past;
use commit_book::laws::collections_have_the_documents_of_their_records;
use q_base::{Commit, Memory, Name};
use query_core::laws::window_depends_on_ids_alone;
use query_core::{Docs, Query, Rows, window};
use std::alloc::Global;
use std::marker::Model;
use std::snapshot::Snapshot as Seen;
use std::sync::Arc;

/// The documents of a collection after the changes that were put when it was taken. It stays as it is
/// whatever is put later. Contracts see the collection, and the list of those changes.
#[derive(Drop)]
pub struct Snapshot {
    alloc: Global,
    /// The number of changes that had been put.
    at: Commit,
    /// The buckets, if the collection had any document before.
    shared: Option<Arc<Collection>>,
    /// Its name.
    collection: Seen<Name>,
    /// The changes that had been put.
    past: Seen<Past>,
}

impl Model for Snapshot {
    ghost use Rattle.std.specs.Coded.{codes};
    ghost use Rattle.q_doc.specs.Code.{tree_code};
    ghost use Rattle.bucket_store.specs.Kept.{Taken, taken, IsTaken};

    ghost Value = { Taken };

    ghost coded = { Prim.hlevel (codes, tree_code) };

    ghost view = { λ s. taken s.collection.value s.past.value };

    ghost invariant = { λ s. IsTaken s.at s.shared s.collection.value s.past.value };
}

impl Snapshot {
    /// A snapshot of a collection after these changes.
    pub(crate) fn of(
        alloc: Global,
        at: Commit,
        collection: &Name,
        shared: Option<Arc<Collection>>,
        past: &Past,
    ) -> Snapshot
        requires { IsTaken at shared collection.now past.now }
        ensures { result ≡ taken collection.now past.now }
    {
        Snapshot {
            alloc,
            at,
            shared,
            collection: Seen::of(collection),
            past: Seen::of(past),
        }
    }

    /// The commit of the last change that had been put, 0 where there was none.
    pub fn at(&self) -> Commit
        ensures { result ≡ length self.now.journal }
    {
        self.at
    }

    /// The window of a query of this collection, as it was at this commit.
    pub fn window(&self, query: &Query) -> Result<Rows, Memory>
        requires { query.now.collection ≡ self.now.collection }
        ensures { IfOk result (λ rows. rows ≡ window query.now (docs self.now.journal (length self.now.journal) query.now.collection)) }
    {
        collections_have_the_documents_of_their_records();
        window_depends_on_ids_alone();
        let docs = docs_in(self.alloc, &self.shared)?;
        window(self.alloc, query, &docs)
    }
}

/// The documents of a collection, if it has buckets.
fn docs_in(alloc: Global, shared: &Option<Arc<Collection>>) -> Result<Docs, Memory>
    ensures { (found : Found) → IsKept found shared.now → IfOk result (λ docs. HasDocuments found docs) }
{
    match shared {
        Some(collection) => collection.docs(alloc),
        None => Ok(Docs::of(Vec::new(alloc))),
    }
}
