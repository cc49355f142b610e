//! The index.
ghost use Rattle.std.specs.Prelude.{◌≡◌, ◌==◌, ◌+◌, false, true, not, ◌&&◌, [], if◌then◌else◌, length, IfOk, IsOk, OnOk, OnErr};
ghost use Rattle.std.specs.List.{IsDistinct};
ghost use Rattle.query_normal.specs.declared.key.KeyShape.{KeyShape as AKey};
ghost use Rattle.query_normal.specs.Keys.{same_key};
ghost use Rattle.match_index.specs.Candidates.{is_query, is_candidate_key, passes_key};
ghost use Rattle.match_index.specs.Places.{is_held, with_key};

use crate::keeping::{add, find, take};
use crate::places::{Collections, Keys};
use commit_book::CommitRow;
use indexmap::IndexSet;
use q_base::Memory;
use query_normal::Key;
use std::alloc::Global;
use std::collections::BTreeMap;
use std::marker::Model;

/// Keys of queries, by what a commit that may concern them changes. Contracts see the keys that are
/// held, each once.
///
/// A query that asks for a value at a path, by an equality that is its filter or an operand of its
/// outermost conjunction, can be concerned only by a commit whose document has the value there before
/// or after. Such a key is kept in a tree over the values at that path, in the order of documents. The
/// other keys are looked at for each commit of their collection.
#[derive(Drop)]
pub struct Index {
    held: Keys,
    collections: Collections,
}

impl Model for Index {
    ghost use Rattle.std.specs.Prelude.{List};
    ghost use Rattle.std.specs.Coded.{codes};
    ghost use Rattle.q_doc.specs.Code.{tree_code};
    ghost use Rattle.query_core.specs.Code.{filter_code};
    ghost use Rattle.query_normal.specs.declared.key.KeyShape.{KeyShape};
    ghost use Rattle.match_index.specs.Places.{ArePlaced};

    ghost Value = { List KeyShape };

    ghost coded = { Prim.hlevel (codes, tree_code, filter_code) };

    ghost view = { λ x. x.held.keys };

    ghost invariant = { λ x. record { placed : ArePlaced x.held.keys x.collections } };
}

impl Index {
    /// No key.
    pub fn new(alloc: Global) -> Index
        ensures { result ≡ [] }
    {
        Index {
            held: IndexSet::new(alloc),
            collections: BTreeMap::new(alloc),
        }
    }

    /// The number of keys.
    pub fn len(&self) -> usize
        ensures len { result ≡ length self.now }
        ensures once { IsDistinct same_key self.now }
    {
        self.held.len()
    }

    /// Whether there is no key.
    pub fn is_empty(&self) -> bool
        ensures { result ≡ (length self.now == 0) }
    {
        self.held.len() == 0
    }

    /// Whether a key is held.
    pub fn holds(&self, key: &Key) -> bool
        ensures { result ≡ is_held self.now key.now }
    {
        self.held.contains(key)
    }

    /// Adds the key of a query. One that is held stays, and then it takes no memory.
    pub fn insert(&mut self, key: &Key) -> Result<(), Memory>
        requires query { is_query key.now ≡ true }
        ensures ok { OnOk result (self.new ≡ with_key key.now self.old) }
        ensures err { OnErr result (self.new ≡ self.old) }
        ensures known { is_held self.old key.now ≡ true → IsOk result }
    {
        let alloc = *self.held.allocator();
        add(alloc, &mut self.held, &mut self.collections, key)
    }

    /// Removes a key, if it is held. It takes no memory.
    pub fn remove(&mut self, key: &Key)
        ensures held { (other : AKey) → is_held self.new other ≡ (is_held self.old other && not (same_key key.now other)) }
        ensures len { length self.new + (if is_held self.old key.now then 1 else 0) ≡ length self.old }
    {
        take(&mut self.held, &mut self.collections, key)
    }

    /// The keys whose queries a commit may concern. None is left out whose result it may change.
    pub fn candidates(&self, row: &CommitRow) -> Result<Vec<Key>, Memory>
        // Each key that is held, unless the commit passes by its query, is there.
        ensures all { IfOk result (λ keys. (key : AKey) → is_held self.now key ≡ true → passes_key key row.now ≡ false → is_held keys.items key ≡ true) }
        // Each one that is there is held, and its query is a candidate.
        ensures only { IfOk result (λ keys. (key : AKey) → is_held keys.items key ≡ true → (is_held self.now key && is_candidate_key key row.now) ≡ true) }
        // No key is there twice.
        ensures once { IfOk result (λ keys. IsDistinct same_key keys.items) }
    {
        find(*self.held.allocator(), &self.collections, row)
    }
}
