//! The active queries by their keys, and those that a commit may concern.
ghost use Rattle.std.specs.Prelude.{◌≡◌, ◌≤◌, ◌<◌, ◌-◌, ℕ, false, List, [], ◌∷◌, ◌++◌, ◌||◌, ◌&&◌, None, Some, IfSome, OnOk, OnErr, Contains, length, slice_get, option_map};
ghost use Rattle.std.specs.List.{IsDistinct, list_any};
ghost use Rattle.std.specs.Map.{lookup, keys_of};
ghost use Rattle.commit_book.specs.declared.change.Change.{Change as AChange};
ghost use Rattle.commit_book.specs.CommitRows.{commit_rows};
ghost use Rattle.query_normal.specs.declared.key.KeyShape.{KeyShape as AKey};
ghost use Rattle.query_normal.specs.Keys.{same_key};
ghost use Rattle.match_index.specs.Candidates.{is_query};
ghost use Rattle.active_queries.specs.Following.{Following as AFollowing, AreFollowing, IsRowOf};
ghost use Rattle.active_queries.specs.Queries.{AllGoOn, AreListed, begun, HaveSeen, ListAbove, all_forgotten, is_ready};

use crate::followed::Followed;
use crate::followers::Followers;
use crate::query::ActiveQuery;
use commit_book::{Book, CommitRow};
use hub_model::laws::equal_results_are_tested;
use match_index::Index;
use match_sets::laws::windows_stay_where_a_commit_passes_by;
use q_base::{Commit, Memory};
use query_normal::{Key, KeyShape};
use std::alloc::Global;
use std::marker::Model;

/// Queries by their keys. Contracts see the keys in order, each with its query, for how many more
/// there is space, and the key for which all is ready.
#[derive(Drop)]
pub struct ActiveQueries {
    followers: Followers,
    /// The keys of queries that are there, and the one that may be added.
    index: Index,
    ready: Option<Key>,
}

impl Model for ActiveQueries {
    ghost use Rattle.std.specs.Coded.{codes};
    ghost use Rattle.q_doc.specs.Code.{tree_code};
    ghost use Rattle.query_core.specs.Code.{filter_code};
    ghost use Rattle.active_queries.specs.Queries.{Queries, AreIndexed};

    ghost Value = { Queries };

    ghost coded = { Prim.hlevel (codes, tree_code, filter_code) };

    ghost view = { λ q. record { entries = q.followers.entries; ready = q.ready; spare = q.followers.spare } };

    ghost invariant = { λ q. record { indexed : AreIndexed q.followers.entries q.ready q.index } };
}

impl ActiveQueries {
    /// No query.
    pub fn new(alloc: Global) -> ActiveQueries
        ensures { result.entries ≡ [] }
    {
        ActiveQueries {
            followers: Followers::new(alloc),
            index: Index::new(alloc),
            ready: None,
        }
    }

    /// The number of queries.
    pub fn len(&self) -> usize
        ensures len { result ≡ length self.now.entries }
        ensures once { IsDistinct same_key (keys_of self.now.entries) }
    {
        self.followers.len()
    }

    /// The query of a key.
    pub fn get(&self, key: &Key) -> Option<Followed<'_>>
        ensures { result ≡ lookup (same_key key.now) self.now.entries }
    {
        self.followers.get(key)
    }

    /// The key and the query at an index. It is that of another once a query is removed.
    pub fn at(&self, index: usize) -> Option<(&Key, Followed<'_>)>
        ensures { option_map (λ e. (e.0.now, e.1)) result ≡ slice_get self.now.entries index }
    {
        self.followers.at(index)
    }

    /// The keys of the queries that list changed commits.
    pub fn listed(&self) -> &[Key]
        ensures listed { AreListed self.now.entries result.now }
        ensures once { IsDistinct same_key result.now }
    {
        self.followers.listed()
    }

    /// Lets the query of a key see the commits up to one, if it is there. Where it has seen them it takes
    /// no memory.
    pub fn follow(
        &mut self,
        alloc: Global,
        book: &Book,
        key: &Key,
        to: Commit,
    ) -> Result<(), Memory>
        requires kept { HaveSeen book.now.horizon self.old.entries }
        requires within { to ≤ length book.now.journal }
        ensures following { AreFollowing book.now.journal self.old.entries → AreFollowing book.now.journal self.new.entries }
        ensures begun { begun self.new.entries ≡ begun self.old.entries }
        ensures seen { (n : ℕ) → HaveSeen n self.old.entries → HaveSeen n self.new.entries }
        ensures above { (n : ℕ) → HaveSeen n self.old.entries → ListAbove n self.old.entries → ListAbove n self.new.entries }
        ensures reached { OnOk result (IfSome (lookup (same_key key.now) self.new.entries) (λ a. to ≤ a.seen)) }
        ensures others { (other : AKey) → same_key key.now other ≡ false → lookup (same_key other) self.new.entries ≡ lookup (same_key other) self.old.entries }
        ensures spare { self.old.spare ≤ self.new.spare }
        ensures ready { self.new.ready ≡ self.old.ready }
    {
        self.followers.follow(alloc, book, key, to)
    }

    /// Lets each query see the commits up to one. For each commit it looks at those alone that it may
    /// concern.
    pub fn follow_all(&mut self, alloc: Global, book: &Book, to: Commit) -> Result<(), Memory>
        requires kept { HaveSeen book.now.horizon self.old.entries }
        requires above { book.now.horizon ≤ to }
        requires within { to ≤ length book.now.journal }
        ensures following { AreFollowing book.now.journal self.old.entries → AreFollowing book.now.journal self.new.entries }
        ensures begun { begun self.new.entries ≡ begun self.old.entries }
        ensures seen { (n : ℕ) → HaveSeen n self.old.entries → HaveSeen n self.new.entries }
        ensures above { (n : ℕ) → HaveSeen n self.old.entries → ListAbove n self.old.entries → ListAbove n self.new.entries }
        ensures reached { OnOk result (HaveSeen to self.new.entries) }
        ensures spare { self.old.spare ≤ self.new.spare }
        ensures ready { self.new.ready ≡ self.old.ready }
    {
        if self.followers.len() == 0 {
            return Ok(());
        }
        let from = self.followers.seen().max(book.horizon());
        if to <= from {
            return Ok(());
        }
        let rows = book.commits(from, to)?;
        self.see_rows(alloc, book, &rows, from, to)
    }

    /// Lets each query see the commits after one, up to another, of which the rows are given.
    fn see_rows(
        &mut self,
        alloc: Global,
        book: &Book,
        rows: &[CommitRow],
        from: Commit,
        to: Commit,
    ) -> Result<(), Memory>
        requires rows { rows.now ≡ commit_rows book.now.journal from to }
        requires kept { book.now.horizon ≤ from }
        requires forward { from ≤ to }
        requires within { to ≤ length book.now.journal }
        requires recent { HaveSeen from self.old.entries }
        ensures on { AllGoOn book.now.journal self.old.entries self.new.entries }
        ensures reached { OnOk result (HaveSeen to self.new.entries) }
        ensures spare { self.old.spare ≤ self.new.spare }
        ensures ready { self.new.ready ≡ self.old.ready }
    {
        for index in 0..rows.len() {
            self.see(alloc, book, &rows[index])?;
        }
        Ok(())
    }

    /// Lets each query see the next commit. The others than those that it may concern it passes by.
    fn see(&mut self, alloc: Global, book: &Book, row: &CommitRow) -> Result<(), Memory>
        requires row { IsRowOf book.now.journal row.now }
        requires kept { book.now.horizon < row.now.commit }
        requires recent { HaveSeen (row.now.commit - 1) self.old.entries }
        ensures on { AllGoOn book.now.journal self.old.entries self.new.entries }
        ensures reached { OnOk result (HaveSeen row.now.commit self.new.entries) }
        ensures spare { self.old.spare ≤ self.new.spare }
        ensures ready { self.new.ready ≡ self.old.ready }
    {
        equal_results_are_tested();
        windows_stay_where_a_commit_passes_by();
        let keys = self.index.candidates(row)?;
        self.followers.see_each(alloc, book, &keys, row)?;
        self.followers.raise(row.commit);
        Ok(())
    }

    /// Reserves space for a query, and makes all ready for its key. It is the only one that is ready.
    pub fn reserve(&mut self, key: &Key) -> Result<(), Memory>
        ensures entries { self.new.entries ≡ self.old.entries }
        ensures space { OnOk result (0 < self.new.spare) }
        ensures ready { OnOk result (self.new.ready ≡ Some key.now) }
    {
        let copy = key.clone()?;
        self.followers.reserve()?;
        self.drop_ready();
        self.make_ready(key, copy)
    }

    /// Puts a key into the index.
    fn make_ready(&mut self, key: &Key, copy: Key) -> Result<(), Memory>
        requires none { self.old.ready ≡ None }
        requires copy { copy ≡ key.now }
        ensures entries { self.new.entries ≡ self.old.entries }
        ensures spare { self.new.spare ≡ self.old.spare }
        ensures ready { OnOk result (self.new.ready ≡ Some key.now) }
    {
        insert(&mut self.index, key)?;
        self.ready = Some(copy);
        Ok(())
    }

    /// Takes the key that was made ready out of the index, if it has no query.
    fn drop_ready(&mut self)
        ensures entries { self.new.entries ≡ self.old.entries }
        ensures spare { self.new.spare ≡ self.old.spare }
        ensures ready { self.new.ready ≡ None }
    {
        if let Some(key) = self.ready.take() {
            if self.followers.get(&key).is_none() {
                self.index.remove(&key);
            }
        }
    }

    /// Adds the query of a new key, for which all is ready. It takes no memory.
    pub fn add(&mut self, key: Key, query: ActiveQuery)
        requires space { 0 < self.old.spare }
        requires ready { self.old.ready ≡ Some key }
        requires absent { lookup (same_key key) self.old.entries ≡ None }
        requires unchanged { query.changed ≡ [] }
        ensures { self.new.entries ≡ self.old.entries ++ (key, query) ∷ [] }
    {
        self.followers.add(key, query);
        self.ready = None;
    }

    /// Removes the query of a key, if it is there. It takes no memory.
    pub fn remove(&mut self, key: &Key)
        ensures gone { lookup (same_key key.now) self.new.entries ≡ None }
        ensures others { (other : AKey) → same_key key.now other ≡ false → lookup (same_key other) self.new.entries ≡ lookup (same_key other) self.old.entries }
        ensures among { (e : AKey × AFollowing) → Contains self.new.entries e → Contains self.old.entries e }
        ensures spare { self.old.spare ≤ self.new.spare }
        ensures ready { self.new.ready ≡ self.old.ready }
    {
        self.followers.remove(key);
        if !is_ready(&self.ready, key) {
            self.index.remove(key);
        }
    }

    /// Drops the changed commits up to one of each query. It looks at those alone that list any, and takes
    /// no memory.
    pub fn forget(&mut self, to: Commit)
        ensures entries { self.new.entries ≡ all_forgotten to self.old.entries }
        ensures following { (journal : List AChange) → HaveSeen to self.old.entries → AreFollowing journal self.old.entries → AreFollowing journal self.new.entries }
        ensures seen { (n : ℕ) → HaveSeen n self.old.entries → HaveSeen n self.new.entries }
        ensures above { ListAbove to self.new.entries }
        ensures keys { keys_of self.new.entries ≡ keys_of self.old.entries }
        ensures spare { self.old.spare ≤ self.new.spare }
        ensures ready { self.new.ready ≡ self.old.ready }
    {
        self.followers.forget(to);
    }
}

/// Puts a key into an index, if it is that of a query.
fn insert(index: &mut Index, key: &Key) -> Result<(), Memory>
    ensures ok { OnOk result ((other : AKey) → list_any (same_key other) index.new ≡ (list_any (same_key other) index.old || (is_query other && same_key key.now other))) }
    ensures err { OnErr result (index.new ≡ index.old) }
{
    match key.shape() {
        KeyShape::Query { .. } => index.insert(key),
        KeyShape::Record { .. } => Ok(()),
    }
}

/// Whether a key is the one that was made ready.
fn is_ready(ready: &Option<Key>, key: &Key) -> bool
    ensures { result ≡ is_ready ready.now key.now }
{
    match ready {
        Some(own) => key == own,
        None => false,
    }
}
