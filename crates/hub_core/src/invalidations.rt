//! The keys that the commits of a match invalidate.
ghost use Rattle.std.specs.Prelude.{◌≡◌, ◌<◌, ◌≤◌, ◌||◌, ◌&&◌, ◌==◌, ℕ, length, All, max, IfOk, OnOk};
ghost use Rattle.std.specs.List.{list_any};
ghost use Rattle.std.specs.Map.{lookup};
ghost use Rattle.query_normal.specs.Keys.{same_key};
ghost use Rattle.query_normal.specs.declared.key.KeyShape.{KeyShape as AKey};
ghost use Rattle.hub_core.specs.CopiesView.{until_in, IsInvalidationReserved, CanInvalidate};
ghost use Rattle.active_queries.specs.Queries.{HaveSeen};
ghost use Rattle.hub_core.specs.ActiveQueries.{KeepsQueries};
ghost use Rattle.hub_core.specs.HubState.{HaveGoneOn};
ghost use Rattle.hub_core.specs.Invalidations.{key_of, is_key, altered_key, is_after, is_invalidation, invalidates, lists_after, AreInvalidationsOf, AreRecordInvalidationsOf, invalidated_until};

use crate::copies::Copies;
use active_queries::ActiveQueries;
use commit_book::{Book, Change};
use q_base::{Commit, Memory};
use query_normal::Key;
use std::alloc::Global;

/// A key whose result a commit changed: its copies of earlier commits are outdated. So does Quaestor
/// (Gessert et al., VLDB 2017) invalidate results.
#[derive(Drop)]
pub struct Invalidation {
    pub key: Key,
    pub commit: Commit,
}

/// The invalidations by the commits after one, up to another, with memory reserved for each. Of records it
/// looks at these commits only, and lets each query see them. While no key is active there are none.
pub fn reserve_invalidations(
    alloc: Global,
    book: &Book,
    copies: &mut Copies,
    queries: &mut ActiveQueries,
    front: Commit,
    to: Commit,
) -> Result<Vec<Invalidation>, Memory>
    requires forward { front ≤ to }
    requires within { to ≤ length book.now.journal }
    requires kept { KeepsQueries book.now.journal front copies.old.copies copies.old.idle queries.old.entries }
    requires above { book.now.horizon ≤ front }
    ensures invalidations { IfOk result (λ invalidations. AreInvalidationsOf book.now.journal front to copies.old.copies invalidations.items) }
    ensures reserved { IfOk result (λ invalidations. All (λ m. IsInvalidationReserved copies.new m.key) invalidations.items) }
    ensures within { IfOk result (λ invalidations. All (λ m. m.commit ≤ to) invalidations.items) }
    ensures seen { OnOk result (HaveSeen to queries.new.entries) }
    ensures gone_on { HaveGoneOn queries.old.entries queries.new.entries }
    ensures kept { KeepsQueries book.now.journal front copies.old.copies copies.old.idle queries.new.entries }
    ensures rest { copies.new ≡ record copies.old { invalidatable = copies.new.invalidatable } }
{
    queries.follow_all(alloc, book, to)?;
    if copies.active_count() == 0 {
        return Ok(Vec::new(alloc));
    }
    let mut invalidations = record_invalidations(alloc, book, copies, front, to)?;
    push_query_invalidations(copies, queries, front, to, &mut invalidations)?;
    Ok(invalidations)
}

/// The invalidations of the keys of records by the commits after one, up to another, with memory reserved
/// for each. It looks at these commits only.
fn record_invalidations(
    alloc: Global,
    book: &Book,
    copies: &mut Copies,
    front: Commit,
    to: Commit,
) -> Result<Vec<Invalidation>, Memory>
    requires above { book.now.horizon ≤ front }
    requires forward { front ≤ to }
    requires within { to ≤ length book.now.journal }
    ensures invalidations { IfOk result (λ invalidations. AreRecordInvalidationsOf book.now.journal front to invalidations.items) }
    ensures reserved { IfOk result (λ invalidations. All (λ m. IsInvalidationReserved copies.new m.key) invalidations.items) }
    ensures within { IfOk result (λ invalidations. All (λ m. m.commit ≤ to) invalidations.items) }
    ensures rest { copies.new ≡ record copies.old { invalidatable = copies.new.invalidatable } }
{
    let mut invalidations = Vec::new(alloc);
    for commit in front..to {
        push_invalidation(alloc, book, copies, commit + 1, &mut invalidations)?;
    }
    Ok(invalidations)
}

/// Adds the invalidation by a commit, with memory reserved for it.
fn push_invalidation(
    alloc: Global,
    book: &Book,
    copies: &mut Copies,
    commit: Commit,
    invalidations: &mut Vec<Invalidation>,
) -> Result<(), Memory>
    requires { book.now.horizon < commit }
    ensures invalidations { OnOk result ((key : AKey) (n : ℕ) → list_any (is_invalidation key n) invalidations.new.items ≡ (list_any (is_invalidation key n) invalidations.old.items || (is_key key (altered_key book.now.journal commit) && (commit == n)))) }
    ensures reserved { OnOk result (All (λ m. IsInvalidationReserved copies.old m.key) invalidations.old.items → All (λ m. IsInvalidationReserved copies.new m.key) invalidations.new.items) }
    ensures within { OnOk result ((to : ℕ) → commit ≤ to → All (λ m. m.commit ≤ to) invalidations.old.items → All (λ m. m.commit ≤ to) invalidations.new.items) }
    ensures rest { copies.new ≡ record copies.old { invalidatable = copies.new.invalidatable } }
{
    if let Some(change) = book.altered(commit) {
        let key = key_of(alloc, change)?;
        copies.reserve_invalidation(&key)?;
        invalidations.push(Invalidation { key, commit })?;
    }
    Ok(())
}

/// Adds the invalidations by the changes that the queries list, of the commits after one, up to another. It
/// looks at the queries alone that list any.
fn push_query_invalidations(
    copies: &mut Copies,
    queries: &ActiveQueries,
    front: Commit,
    to: Commit,
    invalidations: &mut Vec<Invalidation>,
) -> Result<(), Memory>
    ensures invalidations { OnOk result ((key : AKey) (n : ℕ) → list_any (is_invalidation key n) invalidations.new.items ≡ (list_any (is_invalidation key n) invalidations.old.items || list_any (invalidates front to key n) queries.now.entries)) }
    ensures reserved { OnOk result (All (λ m. IsInvalidationReserved copies.old m.key) invalidations.old.items → All (λ m. IsInvalidationReserved copies.new m.key) invalidations.new.items) }
    ensures within { OnOk result (All (λ m. m.commit ≤ to) invalidations.old.items → All (λ m. m.commit ≤ to) invalidations.new.items) }
    ensures rest { copies.new ≡ record copies.old { invalidatable = copies.new.invalidatable } }
{
    if queries.len() == 0 {
        return Ok(());
    }
    let listed = queries.listed();
    for index in 0..listed.len() {
        push_changes_of(copies, queries, &listed[index], front, to, invalidations)?;
    }
    Ok(())
}

/// Adds the invalidations by the changes that the query of a key lists.
fn push_changes_of(
    copies: &mut Copies,
    queries: &ActiveQueries,
    key: &Key,
    front: Commit,
    to: Commit,
    invalidations: &mut Vec<Invalidation>,
) -> Result<(), Memory>
    ensures invalidations { OnOk result ((other : AKey) (n : ℕ) → list_any (is_invalidation other n) invalidations.new.items ≡ (list_any (is_invalidation other n) invalidations.old.items || (same_key other key.now && lists_after front to n (lookup (same_key key.now) queries.now.entries)))) }
    ensures reserved { OnOk result (All (λ m. IsInvalidationReserved copies.old m.key) invalidations.old.items → All (λ m. IsInvalidationReserved copies.new m.key) invalidations.new.items) }
    ensures within { OnOk result (All (λ m. m.commit ≤ to) invalidations.old.items → All (λ m. m.commit ≤ to) invalidations.new.items) }
    ensures rest { copies.new ≡ record copies.old { invalidatable = copies.new.invalidatable } }
{
    match queries.get(key) {
        Some(query) => push_changes(copies, key, query.changed(), front, to, invalidations),
        None => Ok(()),
    }
}

/// Adds the invalidations of a key by those of these commits that come after one, up to another.
fn push_changes(
    copies: &mut Copies,
    key: &Key,
    changed: &[Commit],
    front: Commit,
    to: Commit,
    invalidations: &mut Vec<Invalidation>,
) -> Result<(), Memory>
    ensures invalidations { OnOk result ((other : AKey) (n : ℕ) → list_any (is_invalidation other n) invalidations.new.items ≡ (list_any (is_invalidation other n) invalidations.old.items || (same_key other key.now && list_any (λ m. is_after front to m && (m == n)) changed.now))) }
    ensures reserved { OnOk result (All (λ m. IsInvalidationReserved copies.old m.key) invalidations.old.items → All (λ m. IsInvalidationReserved copies.new m.key) invalidations.new.items) }
    ensures within { OnOk result (All (λ m. m.commit ≤ to) invalidations.old.items → All (λ m. m.commit ≤ to) invalidations.new.items) }
    ensures rest { copies.new ≡ record copies.old { invalidatable = copies.new.invalidatable } }
{
    for commit in changed {
        push_where_after(copies, key, *commit, front, to, invalidations)?;
    }
    Ok(())
}

/// Adds the invalidation of a key by a commit, where that comes after one, up to another.
fn push_where_after(
    copies: &mut Copies,
    key: &Key,
    commit: Commit,
    front: Commit,
    to: Commit,
    invalidations: &mut Vec<Invalidation>,
) -> Result<(), Memory>
    ensures invalidations { OnOk result ((other : AKey) (n : ℕ) → list_any (is_invalidation other n) invalidations.new.items ≡ (list_any (is_invalidation other n) invalidations.old.items || (same_key other key.now && (is_after front to commit && (commit == n))))) }
    ensures reserved { OnOk result (All (λ m. IsInvalidationReserved copies.old m.key) invalidations.old.items → All (λ m. IsInvalidationReserved copies.new m.key) invalidations.new.items) }
    ensures within { OnOk result (All (λ m. m.commit ≤ to) invalidations.old.items → All (λ m. m.commit ≤ to) invalidations.new.items) }
    ensures rest { copies.new ≡ record copies.old { invalidatable = copies.new.invalidatable } }
{
    if commit <= front || to < commit {
        return Ok(());
    }
    copies.reserve_invalidation(key)?;
    invalidations.push(Invalidation {
        key: key.clone()?,
        commit,
    })?;
    Ok(())
}

/// The key of the record that a change is of.
fn key_of(alloc: Global, change: &Change) -> Result<Key, Memory>
    ensures { IfOk result (λ key. key ≡ key_of change.now) }
{
    Key::record(alloc, change.collection.clone()?, change.id.clone()?)
}

/// Invalidates each key as long as its copies of commits before that of the invalidation may be kept.
/// It takes no memory.
pub fn invalidate_all(copies: &mut Copies, invalidations: &[Invalidation])
    requires { All (λ m. CanInvalidate copies.old m.key) invalidations.now }
    ensures outdated { (key : AKey) → until_in copies.new.outdated key ≡ max (until_in copies.old.outdated key) (invalidated_until copies.old.copies invalidations.now key) }
    ensures rest { copies.new ≡ record copies.old { outdated = copies.new.outdated; invalidatable = copies.new.invalidatable } }
{
    for invalidation in invalidations {
        copies.invalidate(&invalidation.key, invalidation.commit);
    }
}
