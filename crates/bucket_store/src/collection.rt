//! The buckets of a collection.
ghost use Rattle.std.specs.Prelude.{◌≡◌, ◌++◌, ℕ, List, Option, None, IfOk, OnOk, OnErr};
ghost use Rattle.std.specs.Arc.{arc_value};
ghost use Rattle.std.specs.List.{flat_map};
ghost use Rattle.q_doc.specs.Tree.{Tree};
ghost use Rattle.commit_book.specs.Journal.{put_at};
ghost use Rattle.bucket_store.specs.Buckets.{HasBuckets, with_document};

use crate::bucket::{Bucket, change_in, push_all};
use crate::hash::{BUCKETS, bucket_of};
use commit_book::Change;
use q_base::{Commit, Memory};
use query_core::Docs;
use std::alloc::{AllocError, Global};
use std::marker::Model;
use std::sync::Arc;

/// The documents of a collection, in 256 buckets. Contracts see the list of these.
#[derive(Drop)]
pub struct Collection {
    buckets: Vec<Arc<Bucket>>,
}

impl Model for Collection {
    ghost use Rattle.std.specs.Prelude.{◌≡◌, List, length, map};
    ghost use Rattle.std.specs.Arc.{arc_value};
    ghost use Rattle.std.specs.Coded.{codes};
    ghost use Rattle.q_doc.specs.Code.{tree_code};
    ghost use Rattle.query_core.specs.Window.{Row};
    ghost use Rattle.bucket_store.specs.Buckets.{bucket_count};

    ghost Value = { List (List Row) };

    ghost coded = { Prim.hlevel (codes, tree_code) };

    ghost view = { λ c. map arc_value c.buckets.items };

    ghost invariant = { λ c. length c.buckets.items ≡ bucket_count };
}

impl Collection {
    /// No document. All buckets share one until a document is put into them.
    pub fn new(alloc: Global) -> Result<Collection, Memory>
        ensures { IfOk result (λ made. HasBuckets (λ _. None) made) }
    {
        let empty = Arc::new(alloc, Bucket::new(alloc))?;
        let mut buckets = Vec::with_capacity(alloc, BUCKETS)?;
        for _made in 0..BUCKETS {
            buckets.push(Arc::try_clone(&empty)?)?;
        }
        Ok(Collection { buckets })
    }

    /// Makes a change of this commit in the bucket of its id.
    pub fn change(&mut self, commit: Commit, change: &Change) -> Result<(), Memory>
        ensures ok { (found : List ℕ → Option (ℕ × Tree)) → HasBuckets found self.old
            → OnOk result (HasBuckets (with_document change.now.id (put_at commit change.now.document) found) self.new) }
        ensures err { OnErr result (self.new ≡ self.old) }
    {
        let index = bucket_of(&change.id);
        change_in(&mut self.buckets[index], commit, change)
    }

    /// Copies of all documents, bucket by bucket.
    pub fn docs(&self, alloc: Global) -> Result<Docs, Memory>
        ensures { IfOk result (λ docs. docs ≡ flat_map (λ rows. rows) self.now) }
    {
        let mut rows = Vec::new(alloc);
        for bucket in &self.buckets {
            push_all(&mut rows, bucket.as_slice())?;
        }
        Ok(Docs::of(rows))
    }
}

impl Clone for Collection {
    ghost is_clone = { λ s t. s ≡ t };

    /// It shares all buckets.
    fn clone(&self) -> Result<Collection, AllocError> {
        let mut buckets = Vec::with_capacity(*self.buckets.allocator(), self.buckets.len())?;
        for bucket in &self.buckets {
            buckets.push(Arc::try_clone(bucket)?)?;
        }
        Ok(Collection { buckets })
    }
}

/// Makes a change of this commit in a collection. One that a snapshot shares is copied first, but for
/// its documents: it shares all buckets but the one of the change.
pub fn change_under(
    shared: &mut Arc<Collection>,
    commit: Commit,
    change: &Change,
) -> Result<(), Memory>
    ensures ok { (found : List ℕ → Option (ℕ × Tree)) → HasBuckets found (arc_value shared.old)
        → OnOk result (HasBuckets (with_document change.now.id (put_at commit change.now.document) found) (arc_value shared.new)) }
    ensures err { OnErr result (arc_value shared.new ≡ arc_value shared.old) }
{
    let own = Arc::make_mut(shared)?;
    own.change(commit, change)
}
