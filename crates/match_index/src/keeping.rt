//! Keys that are kept at their spots, and those that are found for a commit.
ghost use Rattle.std.specs.Prelude.{◌≡◌, ◌++◌, ◌∷◌, [], false, true, not, ◌&&◌, ◌+◌, if◌then◌else◌, length, IfOk, IsOk, IfSome, is_some, OnOk, OnErr, option_map};
ghost use Rattle.std.specs.BTreeMap.{get, IsOrdered};
ghost use Rattle.std.specs.List.{IsDistinct};
ghost use Rattle.q_doc.specs.TextOrder.{text_cmp, path_cmp};
ghost use Rattle.query_normal.specs.declared.key.KeyShape.{KeyShape as AKey};
ghost use Rattle.query_normal.specs.Keys.{same_key, collection_of};
ghost use Rattle.match_index.specs.Candidates.{is_query};
ghost use Rattle.match_index.specs.Found.{value_at, unless_same, keys_in, keys_at, keys_of_entry, keys_found, keys_of_places, IsOnce, AreOnce, HaveOnce};
ghost use Rattle.match_index.specs.Places.{is_held, with_key, probe_of_key, Adds, Drops, Stays, has_spot, at_spot, ArePlaced};
ghost use Rattle.std.specs.List.{flat_map};

use crate::places::{Collections, Keys, Paths, Places, Values, put_spot, take_spot};
use crate::probe::probe_of;
use commit_book::CommitRow;
use q_base::{Memory, Name};
use q_doc::{Doc, Node, Path};
use query_normal::{Key, KeyShape};
use std::alloc::Global;

// A key comes and goes.

/// Adds the key of a query, if it is not held.
pub fn add(
    alloc: Global,
    held: &mut Keys,
    collections: &mut Collections,
    key: &Key,
) -> Result<(), Memory>
    requires placed { ArePlaced held.old.keys collections.old }
    requires query { is_query key.now ≡ true }
    ensures ok { OnOk result (held.new.keys ≡ with_key key.now held.old.keys) }
    ensures err { OnErr result (held.new.keys ≡ held.old.keys) }
    ensures placed { ArePlaced held.new.keys collections.new }
    ensures known { is_held held.old.keys key.now ≡ true → IsOk result }
{
    if held.contains(key) {
        return Ok(());
    }
    let Some((name, probe)) = spot_of(key) else {
        unreachable!();
    };
    add_new(alloc, held, collections, name, probe, key)
}

/// The collection of the key of a query, and the path and the value of its equality, if it has one.
fn spot_of(key: &Key) -> Option<(&Name, Option<(&Path, &Node)>)>
    ensures name { IfSome result (λ r. r.0.now ≡ collection_of key.now) }
    ensures probe { IfSome result (λ r. option_map (λ p. (p.0.now, p.1.now)) r.1 ≡ probe_of_key key.now) }
    ensures query { is_some result ≡ is_query key.now }
{
    match key.shape() {
        KeyShape::Query { normal, .. } => {
            let query = normal.query();
            Some((&query.collection, probe_of(&query.filter)))
        }
        KeyShape::Record { .. } => None,
    }
}

/// Adds a key that is not held at its spot.
fn add_new(
    alloc: Global,
    held: &mut Keys,
    collections: &mut Collections,
    name: &Name,
    probe: Option<(&Path, &Node)>,
    key: &Key,
) -> Result<(), Memory>
    requires absent { is_held held.old.keys key.now ≡ false }
    ensures held { OnOk result (held.new.keys ≡ held.old.keys ++ key.now ∷ []) }
    ensures put { OnOk result (Adds (at_spot name.now (option_map (λ r. (r.0.now, r.1.now)) probe.entry) key.now) (has_spot collections.old) (has_spot collections.new)) }
    ensures err { OnErr result (held.new.keys ≡ held.old.keys) }
    ensures stays { OnErr result (Stays (has_spot collections.old) (has_spot collections.new)) }
{
    held.reserve(1)?;
    let copy = key.clone()?;
    put_spot(alloc, collections, name, probe, key.clone()?)?;
    match held.insert(copy) {
        Ok(_) => Ok(()),
        Err(_) => unreachable!(),
    }
}

/// Takes a key out, if it is held.
pub fn take(held: &mut Keys, collections: &mut Collections, key: &Key)
    requires placed { ArePlaced held.old.keys collections.old }
    ensures held { (other : AKey) → is_held held.new.keys other ≡ (is_held held.old.keys other && not (same_key key.now other)) }
    ensures len { length held.new.keys + (if is_held held.old.keys key.now then 1 else 0) ≡ length held.old.keys }
    ensures placed { ArePlaced held.new.keys collections.new }
{
    take_at(collections, key);
    held.swap_remove(key);
}

/// Takes the key of a query out of its spot.
fn take_at(collections: &mut Collections, key: &Key)
    ensures query { is_query key.now ≡ true → Drops (at_spot (collection_of key.now) (probe_of_key key.now) key.now) (has_spot collections.old) (has_spot collections.new) }
    ensures record { is_query key.now ≡ false → Stays (has_spot collections.old) (has_spot collections.new) }
{
    let Some((name, probe)) = spot_of(key) else {
        return;
    };
    take_spot(collections, name, probe, key);
}

// What is found.

/// The keys that are kept at the spots at which a commit is looked for: those of its collection that
/// have no equality, and those at the values of its two documents.
pub fn find(alloc: Global, collections: &Collections, row: &CommitRow) -> Result<Vec<Key>, Memory>
    ensures found { IfOk result (λ keys. keys.items ≡ keys_found row.now.before row.now.after (get text_cmp collections.now row.now.collection)) }
    ensures once { OnOk result (IfSome (get text_cmp collections.now row.now.collection) (HaveOnce row.now.before row.now.after)) }
{
    let mut found = Vec::new(alloc);
    if let Some(places) = collections.get(&row.collection) {
        push_places(places, row, &mut found)?;
    }
    Ok(found)
}

/// Adds the keys of a collection.
fn push_places(places: &Places, row: &CommitRow, found: &mut Vec<Key>) -> Result<(), Memory>
    ensures found { OnOk result (found.new.items ≡ found.old.items ++ keys_of_places row.now.before row.now.after places.now) }
    ensures once { OnOk result (HaveOnce row.now.before row.now.after places.now) }
{
    push_keys(Some(&places.rest), found)?;
    push_paths(&places.equal, row, found)
}

/// Adds the keys at the values of both documents at each path.
fn push_paths(paths: &Paths, row: &CommitRow, found: &mut Vec<Key>) -> Result<(), Memory>
    ensures found { OnOk result (found.new.items ≡ found.old.items ++ flat_map (keys_of_entry row.now.before row.now.after) paths.now.entries) }
    ensures once { OnOk result (AreOnce row.now.before row.now.after paths.now.entries) }
    ensures ordered { OnOk result (IsOrdered path_cmp paths.now) }
{
    for (path, values) in paths {
        push_values(values, path, row, found)?;
    }
    Ok(())
}

/// Adds the keys at the values of both documents at a path.
fn push_values(
    values: &Values,
    path: &Path,
    row: &CommitRow,
    found: &mut Vec<Key>,
) -> Result<(), Memory>
    ensures found { OnOk result (found.new.items ≡ found.old.items ++ keys_of_entry row.now.before row.now.after (path.now, values.now)) }
    ensures once { OnOk result (IsOnce row.now.before row.now.after (path.now, values.now)) }
{
    let before = value_at(path, &row.before);
    let after = unless_same(before, value_at(path, &row.after));
    push_value(values, before, found)?;
    push_value(values, after, found)
}

/// The value of a document at a path.
fn value_at<'a>(path: &Path, document: &'a Option<Doc>) -> Option<&'a Node>
    ensures { option_map (λ r. r.now) result ≡ value_at path.now document.now }
{
    match document {
        Some(document) => document.at(path),
        None => None,
    }
}

/// The second value, unless it is the first.
fn unless_same<'a>(first: Option<&Node>, second: Option<&'a Node>) -> Option<&'a Node>
    ensures { option_map (λ r. r.now) result ≡ unless_same (option_map (λ r. r.now) first.entry) (option_map (λ r. r.now) second.entry) }
{
    match (first, second) {
        (Some(value), Some(other)) => { if value == other { None } else { second } }
        (Some(_), None) => None,
        (None, _) => second,
    }
}

/// Adds the keys at a value.
fn push_value(values: &Values, value: Option<&Node>, found: &mut Vec<Key>) -> Result<(), Memory>
    ensures found { OnOk result (found.new.items ≡ found.old.items ++ keys_at values.now (option_map (λ r. r.now) value.entry)) }
    ensures once { OnOk result (IsDistinct same_key (keys_at values.now (option_map (λ r. r.now) value.entry))) }
{
    match value {
        Some(value) => push_keys(values.get(value), found),
        None => Ok(()),
    }
}

/// Adds the keys of a set.
fn push_keys(keys: Option<&Keys>, found: &mut Vec<Key>) -> Result<(), Memory>
    ensures found { OnOk result (found.new.items ≡ found.old.items ++ keys_in (option_map (λ r. r.now) keys.entry)) }
    ensures once { OnOk result (IsDistinct same_key (keys_in (option_map (λ r. r.now) keys.entry))) }
{
    match keys {
        Some(keys) => push_all(keys.as_slice(), found),
        None => Ok(()),
    }
}

/// Adds copies of keys, which share what the keys keep.
fn push_all(keys: &[Key], found: &mut Vec<Key>) -> Result<(), Memory>
    ensures { OnOk result (found.new.items ≡ found.old.items ++ keys.now) }
{
    for key in keys {
        found.push(key.clone()?)?;
    }
    Ok(())
}
