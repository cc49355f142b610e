//! Queries that follow the journal, with what all have in common.
//!
//! Of many active queries a commit concerns few. So it is noted once, for all, how far each has seen the
//! commits at least: `seen` is raised when a commit has been seen by those that it may concern, since it
//! passes the others by. In the same way `from` is a commit above which all list what changed their
//! results. A query has numbers of its own, which count where they are greater.
//!
//! 1. A query that lists no changed commit has none. The others, which a match looks at, are few: their
//!    keys are in a set.
//! 2. Before a query sees a commit it takes what is common as its own, so that its own numbers are right.
//!    Where memory runs out among the queries that a commit may concern, those that have seen it are ahead
//!    of the common number, which stays.
ghost use Rattle.std.specs.Prelude.{◌≡◌, ◌≤◌, ◌<◌, ◌-◌, ◌&&◌, true, false, if◌then◌else◌, List, [], ◌∷◌, ◌++◌, None, Some, IfSome, OnOk, All, Contains, length, position, slice_get, option_map};
ghost use Rattle.std.specs.List.{IsDistinct, list_any};
ghost use Rattle.std.specs.Map.{lookup, keys_of};
ghost use Rattle.indexmap.specs.IndexMap.{spare};
ghost use Rattle.indexmap.specs.IndexSet.{spare as set_spare};
ghost use Rattle.query_normal.specs.declared.key.KeyShape.{KeyShape as AKey};
ghost use Rattle.query_normal.specs.Keys.{same_key};
ghost use Rattle.active_queries.specs.Following.{Following as AFollowing, AreAbove, IsRowOf};
ghost use Rattle.active_queries.specs.Queries.{AllGoOn, AreListed, HaveSeen, all_forgotten, all_lifted, all_raised, has_changed};

use crate::followed::Followed;
use crate::query::ActiveQuery;
use commit_book::{Book, CommitRow};
use indexmap::{IndexMap, IndexSet};
use q_base::{Commit, Memory};
use query_normal::Key;
use std::alloc::Global;
use std::marker::Model;

/// Queries by their keys. Contracts see the keys in order, each with its query, and for how many more
/// there is space.
#[derive(Drop)]
pub struct Followers {
    held: IndexMap<Key, ActiveQuery>,
    /// The keys of the queries that list changed commits.
    listed: IndexSet<Key>,
    /// A commit that each query has seen.
    seen: Commit,
    /// A commit above which each lists those that changed its result, where its own is not above.
    from: Commit,
}

impl Model for Followers {
    ghost use Rattle.std.specs.Coded.{codes};
    ghost use Rattle.q_doc.specs.Code.{tree_code};
    ghost use Rattle.query_core.specs.Code.{filter_code};
    ghost use Rattle.indexmap.specs.IndexMap.{spare};
    ghost use Rattle.active_queries.specs.Queries.{Followers, AreListed, all_lifted};

    ghost Value = { Followers };

    ghost coded = { Prim.hlevel (codes, tree_code, filter_code) };

    ghost view = { λ f. record { entries = all_lifted f.seen f.from f.held.entries; spare = spare f.held } };

    ghost invariant = { λ f. record { listed : AreListed f.held.entries f.listed.keys } };
}

impl Followers {
    /// No query.
    pub fn new(alloc: Global) -> Followers
        ensures { result.entries ≡ [] }
    {
        Followers {
            held: IndexMap::new(alloc),
            listed: IndexSet::new(alloc),
            seen: 0,
            from: 0,
        }
    }

    /// The number of queries.
    pub fn len(&self) -> usize
        ensures len { result ≡ length self.now.entries }
        ensures once { IsDistinct same_key (keys_of self.now.entries) }
    {
        self.held.len()
    }

    /// The query of a key.
    pub fn get(&self, key: &Key) -> Option<Followed<'_>>
        ensures { result ≡ lookup (same_key key.now) self.now.entries }
    {
        match self.held.get(key) {
            Some(query) => Some(Followed::of(query, self.seen, self.from)),
            None => None,
        }
    }

    /// The key and the query at an index.
    pub fn at(&self, index: usize) -> Option<(&Key, Followed<'_>)>
        ensures { option_map (λ e. (e.0.now, e.1)) result ≡ slice_get self.now.entries index }
    {
        match self.held.get_index(index) {
            Some((key, query)) => Some((key, Followed::of(query, self.seen, self.from))),
            None => None,
        }
    }

    /// The keys of the queries that list changed commits.
    pub fn listed(&self) -> &[Key]
        ensures listed { AreListed self.now.entries result.now }
        ensures once { IsDistinct same_key result.now }
    {
        self.listed.as_slice()
    }

    /// A commit that each query has seen.
    pub fn seen(&self) -> Commit
        ensures { HaveSeen result self.now.entries }
    {
        self.seen
    }

    /// Lets the query of a key see the commits up to one, if it is there. Where it has seen them it takes
    /// no memory.
    pub fn follow(
        &mut self,
        alloc: Global,
        book: &Book,
        key: &Key,
        to: Commit,
    ) -> Result<(), Memory>
        requires kept { HaveSeen book.now.horizon self.old.entries }
        requires within { to ≤ length book.now.journal }
        ensures on { AllGoOn book.now.journal self.old.entries self.new.entries }
        ensures reached { OnOk result (IfSome (lookup (same_key key.now) self.new.entries) (λ a. to ≤ a.seen)) }
        ensures others { (other : AKey) → same_key key.now other ≡ false → lookup (same_key other) self.new.entries ≡ lookup (same_key other) self.old.entries }
        ensures spare { self.old.spare ≤ self.new.spare }
    {
        let Some(index) = self.held.get_index_of(key) else {
            return Ok(());
        };
        if to <= self.held[index].seen().max(self.seen) {
            return Ok(());
        }
        go_on_at(
            &mut self.held,
            &mut self.listed,
            index,
            key,
            alloc,
            book,
            self.seen,
            self.from,
            to,
        )
    }

    /// Lets the query of a key see a commit, if it is there and has not seen it.
    pub fn see(
        &mut self,
        alloc: Global,
        book: &Book,
        key: &Key,
        row: &CommitRow,
    ) -> Result<(), Memory>
        requires row { IsRowOf book.now.journal row.now }
        requires kept { book.now.horizon < row.now.commit }
        requires recent { HaveSeen (row.now.commit - 1) self.old.entries }
        ensures on { AllGoOn book.now.journal self.old.entries self.new.entries }
        ensures reached { OnOk result (All (λ e. same_key key.now e.0 ≡ true → row.now.commit ≤ e.1.seen) self.new.entries) }
        ensures spare { self.old.spare ≤ self.new.spare }
    {
        let Some(index) = self.held.get_index_of(key) else {
            return Ok(());
        };
        see_at(
            &mut self.held,
            &mut self.listed,
            index,
            key,
            alloc,
            book,
            self.seen,
            self.from,
            row,
        )
    }

    /// Lets the queries of these keys see a commit.
    pub fn see_each(
        &mut self,
        alloc: Global,
        book: &Book,
        keys: &[Key],
        row: &CommitRow,
    ) -> Result<(), Memory>
        requires row { IsRowOf book.now.journal row.now }
        requires kept { book.now.horizon < row.now.commit }
        requires recent { HaveSeen (row.now.commit - 1) self.old.entries }
        ensures on { AllGoOn book.now.journal self.old.entries self.new.entries }
        ensures reached { OnOk result (All (λ e. list_any (same_key e.0) keys.now ≡ true → row.now.commit ≤ e.1.seen) self.new.entries) }
        ensures spare { self.old.spare ≤ self.new.spare }
    {
        for index in 0..keys.len() {
            self.see(alloc, book, &keys[index], row)?;
        }
        Ok(())
    }

    /// Notes that each query has seen the commits up to one.
    pub fn raise(&mut self, seen: Commit)
        ensures entries { self.new.entries ≡ all_raised seen self.old.entries }
        ensures spare { self.new.spare ≡ self.old.spare }
    {
        self.seen = self.seen.max(seen);
    }

    /// Reserves space for one query more.
    pub fn reserve(&mut self) -> Result<(), Memory>
        ensures entries { self.new.entries ≡ self.old.entries }
        ensures space { OnOk result (0 < self.new.spare) }
    {
        self.held.reserve(1)?;
        Ok(())
    }

    /// Adds the query of a new key. It takes no memory.
    pub fn add(&mut self, key: Key, query: ActiveQuery)
        requires space { 0 < self.old.spare }
        requires absent { lookup (same_key key) self.old.entries ≡ None }
        requires unchanged { query.changed ≡ [] }
        ensures { self.new.entries ≡ self.old.entries ++ (key, query) ∷ [] }
    {
        lower(
            &mut self.held,
            &mut self.seen,
            &mut self.from,
            query.seen(),
            query.from(),
        );
        match self.held.insert(key, query) {
            Ok(_) => {}
            Err(_) => unreachable!(),
        }
    }

    /// Removes the query of a key, if it is there. It takes no memory.
    pub fn remove(&mut self, key: &Key)
        ensures gone { lookup (same_key key.now) self.new.entries ≡ None }
        ensures others { (other : AKey) → same_key key.now other ≡ false → lookup (same_key other) self.new.entries ≡ lookup (same_key other) self.old.entries }
        ensures among { (e : AKey × AFollowing) → Contains self.new.entries e → Contains self.old.entries e }
        ensures spare { self.old.spare ≤ self.new.spare }
    {
        self.held.swap_remove(key);
        self.listed.swap_remove(key);
    }

    /// Drops the changed commits up to one of each query. It looks at those alone that list any, and takes
    /// no memory.
    pub fn forget(&mut self, to: Commit)
        ensures entries { self.new.entries ≡ all_forgotten to self.old.entries }
        ensures spare { self.old.spare ≤ self.new.spare }
    {
        if self.len() == 0 {
            return;
        }
        self.from = self.from.max(to);
        forget_each(&mut self.held, self.listed.as_slice(), to);
        forget_unchanged(&self.held, &mut self.listed);
    }
}

/// Lets the query at an index see the commits up to one, and lists its key as it should. Beside the common
/// numbers its own count.
fn go_on_at(
    held: &mut IndexMap<Key, ActiveQuery>,
    listed: &mut IndexSet<Key>,
    index: usize,
    key: &Key,
    alloc: Global,
    book: &Book,
    seen: Commit,
    from: Commit,
    to: Commit,
) -> Result<(), Memory>
    requires place { position (same_key key.now) (keys_of held.old.entries) ≡ Some index }
    requires listed { AreListed held.old.entries listed.old.keys }
    requires kept { HaveSeen book.now.horizon (all_lifted seen from held.old.entries) }
    requires within { to ≤ length book.now.journal }
    ensures on { AllGoOn book.now.journal (all_lifted seen from held.old.entries) (all_lifted seen from held.new.entries) }
    ensures reached { OnOk result (IfSome (lookup (same_key key.now) (all_lifted seen from held.new.entries)) (λ a. to ≤ a.seen)) }
    ensures others { (other : AKey) → same_key key.now other ≡ false → lookup (same_key other) (all_lifted seen from held.new.entries) ≡ lookup (same_key other) (all_lifted seen from held.old.entries) }
    ensures listed { AreListed held.new.entries listed.new.keys }
    ensures spare { spare held.old ≤ spare held.new }
{
    listed.reserve(1)?;
    let copy = key.clone()?;
    let query = &mut held[index];
    let was = query.has_changed();
    let followed = query.go_on(alloc, book, seen, from, to);
    let is = query.has_changed();
    list(listed, copy, was, is);
    followed
}

/// Lets the query at an index see a commit, and lists its key as it should. Beside the common numbers its
/// own count.
fn see_at(
    held: &mut IndexMap<Key, ActiveQuery>,
    listed: &mut IndexSet<Key>,
    index: usize,
    key: &Key,
    alloc: Global,
    book: &Book,
    seen: Commit,
    from: Commit,
    row: &CommitRow,
) -> Result<(), Memory>
    requires place { position (same_key key.now) (keys_of held.old.entries) ≡ Some index }
    requires once { IsDistinct same_key (keys_of held.old.entries) }
    requires listed { AreListed held.old.entries listed.old.keys }
    requires row { IsRowOf book.now.journal row.now }
    requires kept { book.now.horizon < row.now.commit }
    requires recent { HaveSeen (row.now.commit - 1) (all_lifted seen from held.old.entries) }
    ensures on { AllGoOn book.now.journal (all_lifted seen from held.old.entries) (all_lifted seen from held.new.entries) }
    ensures reached { OnOk result (All (λ e. same_key key.now e.0 ≡ true → row.now.commit ≤ e.1.seen) (all_lifted seen from held.new.entries)) }
    ensures listed { AreListed held.new.entries listed.new.keys }
    ensures spare { spare held.old ≤ spare held.new }
{
    listed.reserve(1)?;
    let copy = key.clone()?;
    let query = &mut held[index];
    let was = query.has_changed();
    let followed = query.go_on_by(alloc, book, seen, from, row);
    let is = query.has_changed();
    list(listed, copy, was, is);
    followed
}

/// Lowers what all have in common to what a further query has. One that was started at the last commit has
/// as much, so that nothing is to be done; before another each takes it as its own.
fn lower(
    held: &mut IndexMap<Key, ActiveQuery>,
    seen: &mut Commit,
    from: &mut Commit,
    own_seen: Commit,
    own_from: Commit,
)
    ensures same { all_lifted seen.new from.new held.new.entries ≡ all_lifted seen.old from.old held.old.entries }
    ensures seen { seen.new ≤ own_seen }
    ensures from { from.new ≤ own_from }
    ensures listed { (listed : List AKey) → AreListed held.old.entries listed → AreListed held.new.entries listed }
    ensures spare { spare held.old ≤ spare held.new }
{
    if *seen <= own_seen && *from <= own_from {
        return;
    }
    settle_each(held, *seen, *from);
    *seen = 0;
    *from = 0;
}

/// Lets each query take what all have in common as its own.
fn settle_each(held: &mut IndexMap<Key, ActiveQuery>, seen: Commit, from: Commit)
    ensures entries { held.new.entries ≡ all_lifted seen from held.old.entries }
    ensures spare { spare held.old ≤ spare held.new }
{
    for index in 0..held.len() {
        held[index].settle(seen, from);
    }
}

/// Lists a key where its query lists changed commits, and else not. It takes no memory.
fn list(listed: &mut IndexSet<Key>, key: Key, was: bool, is: bool)
    requires was { list_any (same_key key) listed.old.keys ≡ was }
    requires space { 0 < set_spare listed.old }
    ensures { (other : AKey) → list_any (same_key other) listed.new.keys ≡ (if same_key key other then is else list_any (same_key other) listed.old.keys) }
{
    if was == is {
        return;
    }
    if is {
        match listed.insert(key) {
            Ok(_) => {}
            Err(_) => unreachable!(),
        }
    } else {
        listed.swap_remove(&key);
    }
}

/// Drops the changed commits up to one of the queries of these keys.
fn forget_each(held: &mut IndexMap<Key, ActiveQuery>, keys: &[Key], to: Commit)
    ensures same { all_forgotten to held.new.entries ≡ all_forgotten to held.old.entries }
    ensures fewer { (key : AKey) → has_changed (lookup (same_key key) held.old.entries) ≡ false → has_changed (lookup (same_key key) held.new.entries) ≡ false }
    ensures above { (key : AKey) → list_any (same_key key) keys.now ≡ true → IfSome (lookup (same_key key) held.new.entries) (λ a. AreAbove to a.changed) }
    ensures spare { spare held.old ≤ spare held.new }
{
    for index in 0..keys.len() {
        forget_at(held, &keys[index], to);
    }
}

/// Drops the changed commits up to one of the query of a key, if it is there.
fn forget_at(held: &mut IndexMap<Key, ActiveQuery>, key: &Key, to: Commit)
    ensures same { all_forgotten to held.new.entries ≡ all_forgotten to held.old.entries }
    ensures fewer { (other : AKey) → has_changed (lookup (same_key other) held.old.entries) ≡ false → has_changed (lookup (same_key other) held.new.entries) ≡ false }
    ensures above { IfSome (lookup (same_key key.now) held.new.entries) (λ a. AreAbove to a.changed) }
    ensures still { (other : AKey) → IfSome (lookup (same_key other) held.old.entries) (λ a. AreAbove to a.changed) → IfSome (lookup (same_key other) held.new.entries) (λ a. AreAbove to a.changed) }
    ensures spare { spare held.old ≤ spare held.new }
{
    if let Some(index) = held.get_index_of(key) {
        held[index].forget(to);
    }
}

/// Takes out the keys of queries that list no changed commit any more.
fn forget_unchanged(held: &IndexMap<Key, ActiveQuery>, listed: &mut IndexSet<Key>)
    ensures { (key : AKey) → list_any (same_key key) listed.new.keys ≡ (list_any (same_key key) listed.old.keys && has_changed (lookup (same_key key) held.now.entries)) }
{
    listed.retain(|key| has_changed(held, key));
}

/// Whether there is a query of a key, and it lists changed commits.
fn has_changed(held: &IndexMap<Key, ActiveQuery>, key: &Key) -> bool
    ensures { result ≡ has_changed (lookup (same_key key.now) held.now.entries) }
{
    match held.get(key) {
        Some(query) => query.has_changed(),
        None => false,
    }
}
