//! The keys that a match purges.
ghost use Rattle.std.specs.Prelude.{◌≡◌, ◌≤◌, ◌||◌, ℕ, true, All, IsTrue, IfOk, OnOk, OnErr};
ghost use Rattle.std.specs.List.{list_any, IsDistinct};
ghost use Rattle.std.specs.List.Sorted.{IsSorted};
ghost use Rattle.query_normal.specs.declared.key.KeyShape.{KeyShape as AKey};
ghost use Rattle.query_normal.specs.Keys.{same_key};
ghost use Rattle.issued_expiries.specs.Copies.{is_active};
ghost use Rattle.purge_list.specs.LastChanges.{change_of, is_known as has_change};
ghost use Rattle.purge_list.specs.Purged.{text_cmp};
ghost use Rattle.hub_core.specs.Invalidations.{purges_at, HaveEntries};

use crate::copies::Copies;
use crate::invalidations::Invalidation;
use indexmap::IndexSet;
use purge_list::{LastChanges, sort_by_text};
use q_base::Memory;
use query_normal::Key;
use std::alloc::Global;

/// The keys of which these invalidations outdate a copy that is unexpired at a second: each once, in byte
/// order of their texts.
pub fn purged_keys(
    alloc: Global,
    copies: &Copies,
    changes: &LastChanges,
    invalidations: &[Invalidation],
    second: u64,
) -> Result<Vec<Key>, Memory>
    ensures each { IfOk result (λ keys. (key : AKey) → list_any (same_key key) keys.items ≡ list_any (purges_at copies.now.copies changes.now second key) invalidations.now) }
    ensures once { IfOk result (λ keys. IsDistinct same_key keys.items) }
    ensures sorted { IfOk result (λ keys. IsSorted text_cmp keys.items) }
{
    let mut found = IndexSet::new(alloc);
    for invalidation in invalidations {
        add_where_purged(copies, changes, invalidation, second, &mut found)?;
    }
    let mut keys = keys_of(alloc, &found)?;
    sort_by_text(&mut keys)?;
    Ok(keys)
}

/// Adds the key of an invalidation, where that outdates a copy that is unexpired at a second.
fn add_where_purged(
    copies: &Copies,
    changes: &LastChanges,
    invalidation: &Invalidation,
    second: u64,
    found: &mut IndexSet<Key>,
) -> Result<(), Memory>
    ensures { OnOk result ((key : AKey) → list_any (same_key key) found.new.keys ≡ (list_any (same_key key) found.old.keys || purges_at copies.now.copies changes.now second key invalidation.now)) }
{
    let key = &invalidation.key;
    let until = copies.latest_until(key, changes.get(key), invalidation.commit);
    if second < until {
        found.insert(key.clone()?)?;
    }
    Ok(())
}

/// The keys of a set.
fn keys_of(alloc: Global, found: &IndexSet<Key>) -> Result<Vec<Key>, Memory>
    ensures keys { IfOk result (λ keys. keys.items ≡ found.now.keys) }
    ensures once { IsDistinct same_key found.now.keys }
{
    let mut keys = Vec::with_capacity(alloc, found.len())?;
    for index in 0..found.len() {
        keys.push(found[index].clone()?)?;
    }
    Ok(keys)
}

/// Makes an entry for the last change of each active key among these invalidations.
pub fn reserve_changes(
    copies: &Copies,
    changes: &mut LastChanges,
    invalidations: &[Invalidation],
) -> Result<(), Memory>
    ensures known { OnOk result (HaveEntries copies.now.copies changes.new invalidations.now) }
    ensures changes { (key : AKey) → change_of changes.new key ≡ change_of changes.old key }
    ensures active { (key : AKey) → has_change changes.new key ≡ true → (has_change changes.old key || is_active copies.now.copies key) ≡ true }
{
    for invalidation in invalidations {
        reserve_change(copies, changes, &invalidation.key)?;
    }
    Ok(())
}

/// Makes an entry for the last change of a key, if the key is active.
fn reserve_change(copies: &Copies, changes: &mut LastChanges, key: &Key) -> Result<(), Memory>
    ensures known { OnOk result (IsTrue (is_active copies.now.copies key.now) → IsTrue (has_change changes.new key.now)) }
    ensures stays { (other : AKey) → IsTrue (has_change changes.old other) → IsTrue (has_change changes.new other) }
    ensures changes { (other : AKey) → change_of changes.new other ≡ change_of changes.old other }
    ensures active { (other : AKey) → has_change changes.new other ≡ true → (has_change changes.old other || is_active copies.now.copies other) ≡ true }
{
    if copies.is_active(key) {
        changes.reserve(key)?;
    }
    Ok(())
}
