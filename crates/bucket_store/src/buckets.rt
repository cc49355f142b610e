//! The buckets of all collections.
ghost use Rattle.std.specs.Prelude.{◌≡◌, ◌++◌, ◌∷◌, ◌+◌, [], List, None, length, option_map, IsOk, IfOk, OnOk, OnErr};
ghost use Rattle.std.specs.Arc.{arc_value};
ghost use Rattle.std.specs.Str.{bytes_eq};
ghost use Rattle.indexmap.specs.IndexMap.{get_by};
ghost use Rattle.commit_book.specs.declared.change.Change.{Change as AChange};
ghost use Rattle.commit_book.specs.Journal.{put_at};
ghost use Rattle.bucket_store.specs.Buckets.{HasBuckets, with_document};
ghost use Rattle.bucket_store.specs.Kept.{AreKept, taken};

use crate::collection::{Collection, change_under};
use crate::past::Past;
use crate::snapshot::Snapshot;
use commit_book::Change;
use commit_book::laws::older_commits_stay;
use indexmap::IndexMap;
use q_base::{Commit, Memory, Name};
use std::alloc::Global;
use std::marker::Model;
use std::sync::Arc;

/// The documents of each collection.
pub type Collections = IndexMap<Name, Arc<Collection>>;

/// The last documents of each collection. Contracts see the list of all changes that were put.
#[derive(Drop)]
pub struct Buckets {
    alloc: Global,
    /// The number of changes that were put.
    count: Commit,
    collections: Collections,
    /// The changes that were put.
    past: Past,
}

impl Model for Buckets {
    ghost use Rattle.std.specs.Prelude.{◌≡◌, List, length};
    ghost use Rattle.std.specs.Coded.{codes};
    ghost use Rattle.q_doc.specs.Code.{tree_code};
    ghost use Rattle.commit_book.specs.declared.change.Change.{Change};
    ghost use Rattle.bucket_store.specs.Kept.{IsSound};

    ghost Value = { List Change };

    ghost coded = { Prim.hlevel (codes, tree_code) };

    ghost view = { λ b. b.past };

    ghost invariant = { λ b. IsSound b.count b.past b.collections };
}

impl Buckets {
    /// No change was put. It takes no memory.
    pub fn new(alloc: Global) -> Result<Buckets, Memory>
        ensures made { IsOk result }
        ensures empty { IfOk result (λ buckets. buckets ≡ []) }
    {
        Ok(Buckets {
            alloc,
            count: 0,
            collections: IndexMap::new(alloc),
            past: Past::new(),
        })
    }

    /// Puts the change of the next commit. Of what a snapshot shares it copies one bucket.
    pub fn put(&mut self, commit: Commit, change: &Change) -> Result<(), Memory>
        requires { commit ≡ length self.old + 1 }
        ensures ok { OnOk result (self.new ≡ self.old ++ change.now ∷ []) }
        ensures err { OnErr result (self.new ≡ self.old) }
    {
        put_in(self.alloc, &mut self.collections, commit, change)?;
        self.count = commit;
        self.past.note(change);
        Ok(())
    }

    /// The documents of a collection as they are after the last change. It copies none.
    pub fn snapshot(&self, collection: &Name) -> Result<Snapshot, Memory>
        ensures { IfOk result (λ made. made ≡ taken collection.now self.now) }
    {
        let shared = shared_under(&self.collections, collection)?;
        Ok(Snapshot::of(self.alloc, self.count, collection, shared, &self.past))
    }
}

/// The documents of a collection, shared, if it had any.
fn shared_under(collections: &Collections, name: &Name) -> Result<Option<Arc<Collection>>, Memory>
    ensures { IfOk result (λ shared. option_map arc_value shared ≡ option_map arc_value (get_by (bytes_eq name.now) collections.now)) }
{
    match collections.get(name) {
        Some(shared) => Ok(Some(Arc::try_clone(shared)?)),
        None => Ok(None),
    }
}

/// Makes the change of a commit in its collection.
fn put_in(
    alloc: Global,
    collections: &mut Collections,
    commit: Commit,
    change: &Change,
) -> Result<(), Memory>
    ensures ok { (journal : List AChange) → commit ≡ length journal + 1 → AreKept journal collections.old → OnOk result (AreKept (journal ++ change.now ∷ []) collections.new) }
    ensures err { (journal : List AChange) → AreKept journal collections.old → OnErr result (AreKept journal collections.new) }
{
    older_commits_stay();
    match collections.get_mut(&change.collection) {
        Some(shared) => change_under(shared, commit, change),
        None => put_new(alloc, collections, commit, change),
    }
}

/// Makes the change of a commit in a collection that has no buckets yet. A deletion makes none.
fn put_new(
    alloc: Global,
    collections: &mut Collections,
    commit: Commit,
    change: &Change,
) -> Result<(), Memory>
    requires { get_by (bytes_eq change.now.collection) collections.old ≡ None }
    ensures ok { (journal : List AChange) → commit ≡ length journal + 1 → AreKept journal collections.old → OnOk result (AreKept (journal ++ change.now ∷ []) collections.new) }
    ensures err { OnErr result (collections.new.entries ≡ collections.old.entries) }
{
    older_commits_stay();
    if change.document.is_none() {
        return Ok(());
    }
    let made = made_of(alloc, commit, change)?;
    collections.insert(change.collection.clone()?, made)?;
    Ok(())
}

/// A collection with the document of a change of this commit alone.
fn made_of(alloc: Global, commit: Commit, change: &Change) -> Result<Arc<Collection>, Memory>
    ensures { IfOk result (λ made. HasBuckets (with_document change.now.id (put_at commit change.now.document) (λ _. None)) (arc_value made)) }
{
    let mut made = Collection::new(alloc)?;
    made.change(commit, change)?;
    Ok(Arc::new(alloc, made)?)
}
