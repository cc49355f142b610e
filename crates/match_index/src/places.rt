//! Where keys are kept: by collection; there by the path and the value of their equality, or among
//! those that have none.
//!
//! ```text
//! collection -> rest:  the keys that have no equality
//!               equal: path -> value, in the order of documents -> keys
//! ```
//!
//! What is kept is seen as the keys at each spot: a collection, a path and a value, or none. A map or
//! a set that is left empty is taken out, so that no path is looked at for which there is no key.
ghost use Rattle.std.specs.Prelude.{◌≡◌, true, false, Option, None, OnOk, OnErr, option_map};
ghost use Rattle.std.specs.BTreeMap.{get};
ghost use Rattle.q_doc.specs.Order.{tree_cmp};
ghost use Rattle.q_doc.specs.TextOrder.{text_cmp, path_cmp};
ghost use Rattle.query_normal.specs.declared.key.KeyShape.{KeyShape as AKey};
ghost use Rattle.query_normal.specs.Keys.{same_key};
ghost use Rattle.match_index.specs.Candidates.{Probe as AProbe};
ghost use Rattle.match_index.specs.Places.{Adds, Drops, Stays, has_key, has_value, has_path, has_places, has_spot, at_value, at_path, at_places, at_spot};

use indexmap::IndexSet;
use q_base::{Memory, Name};
use q_doc::{Node, Path};
use query_normal::Key;
use std::alloc::Global;
use std::collections::BTreeMap;

/// Some keys.
pub type Keys = IndexSet<Key>;

/// The keys of the equalities at a path, by the value.
pub type Values = BTreeMap<Node, Keys>;

/// The keys of equalities, by the path.
pub type Paths = BTreeMap<Path, Values>;

/// The keys of each collection that has some.
pub type Collections = BTreeMap<Name, Places>;

/// The keys of a collection.
#[derive(Drop)]
pub struct Places {
    /// Those whose filter has no equality.
    pub rest: Keys,
    /// Those whose filter has one.
    pub equal: Paths,
}

// A key is added.

/// Adds a key at its spot in its collection.
pub fn put_spot(
    alloc: Global,
    collections: &mut Collections,
    name: &Name,
    probe: Option<(&Path, &Node)>,
    key: Key,
) -> Result<(), Memory>
    ensures ok { OnOk result (Adds (at_spot name.now (option_map (λ r. (r.0.now, r.1.now)) probe.entry) key) (has_spot collections.old) (has_spot collections.new)) }
    ensures err { OnErr result (Stays (has_spot collections.old) (has_spot collections.new)) }
{
    match collections.get_mut(name) {
        Some(places) => put_places(alloc, places, probe, key),
        None => put_collection(alloc, collections, name, probe, key),
    }
}

/// Adds a collection with a key.
fn put_collection(
    alloc: Global,
    collections: &mut Collections,
    name: &Name,
    probe: Option<(&Path, &Node)>,
    key: Key,
) -> Result<(), Memory>
    requires { get text_cmp collections.old name.now ≡ None }
    ensures ok { OnOk result (Adds (at_spot name.now (option_map (λ r. (r.0.now, r.1.now)) probe.entry) key) (has_spot collections.old) (has_spot collections.new)) }
    ensures err { OnErr result (Stays (has_spot collections.old) (has_spot collections.new)) }
{
    let mut places = Places {
        rest: IndexSet::new(alloc),
        equal: BTreeMap::new(alloc),
    };
    put_places(alloc, &mut places, probe, key)?;
    let own = name.clone()?;
    collections.insert(own, places)?;
    Ok(())
}

/// Adds a key among those of its collection.
fn put_places(
    alloc: Global,
    places: &mut Places,
    probe: Option<(&Path, &Node)>,
    key: Key,
) -> Result<(), Memory>
    ensures ok { OnOk result (Adds (at_places (option_map (λ r. (r.0.now, r.1.now)) probe.entry) key) (has_places places.old) (has_places places.new)) }
    ensures err { OnErr result (Stays (has_places places.old) (has_places places.new)) }
{
    match probe {
        Some((path, value)) => put_path(alloc, &mut places.equal, path, value, key),
        None => put_key(&mut places.rest, key),
    }
}

/// Adds a key at a path and a value.
fn put_path(
    alloc: Global,
    paths: &mut Paths,
    path: &Path,
    value: &Node,
    key: Key,
) -> Result<(), Memory>
    ensures ok { OnOk result (Adds (at_path path.now value.now key) (has_path paths.old) (has_path paths.new)) }
    ensures err { OnErr result (Stays (has_path paths.old) (has_path paths.new)) }
{
    match paths.get_mut(path) {
        Some(values) => put_value(alloc, values, value, key),
        None => put_new_path(alloc, paths, path, value, key),
    }
}

/// Adds a path with a value and a key.
fn put_new_path(
    alloc: Global,
    paths: &mut Paths,
    path: &Path,
    value: &Node,
    key: Key,
) -> Result<(), Memory>
    requires { get path_cmp paths.old path.now ≡ None }
    ensures ok { OnOk result (Adds (at_path path.now value.now key) (has_path paths.old) (has_path paths.new)) }
    ensures err { OnErr result (Stays (has_path paths.old) (has_path paths.new)) }
{
    let mut values = BTreeMap::new(alloc);
    put_value(alloc, &mut values, value, key)?;
    let own = path.clone()?;
    paths.insert(own, values)?;
    Ok(())
}

/// Adds a key at a value.
fn put_value(alloc: Global, values: &mut Values, value: &Node, key: Key) -> Result<(), Memory>
    ensures ok { OnOk result (Adds (at_value value.now key) (has_value values.old) (has_value values.new)) }
    ensures err { OnErr result (Stays (has_value values.old) (has_value values.new)) }
{
    match values.get_mut(value) {
        Some(keys) => put_key(keys, key),
        None => put_new_value(alloc, values, value, key),
    }
}

/// Adds a value with a key.
fn put_new_value(alloc: Global, values: &mut Values, value: &Node, key: Key) -> Result<(), Memory>
    requires { get tree_cmp values.old value.now ≡ None }
    ensures ok { OnOk result (Adds (at_value value.now key) (has_value values.old) (has_value values.new)) }
    ensures err { OnErr result (Stays (has_value values.old) (has_value values.new)) }
{
    let mut keys = IndexSet::new(alloc);
    put_key(&mut keys, key)?;
    let own = value.clone()?;
    values.insert(own, keys)?;
    Ok(())
}

/// Adds a key.
fn put_key(keys: &mut Keys, key: Key) -> Result<(), Memory>
    ensures ok { OnOk result (Adds (same_key key) (has_key keys.old) (has_key keys.new)) }
    ensures err { OnErr result (Stays (has_key keys.old) (has_key keys.new)) }
{
    keys.insert(key)?;
    Ok(())
}

// A key is taken out.

/// Takes a key out of its spot in its collection.
pub fn take_spot(
    collections: &mut Collections,
    name: &Name,
    probe: Option<(&Path, &Node)>,
    key: &Key,
)
    ensures { Drops (at_spot name.now (option_map (λ r. (r.0.now, r.1.now)) probe.entry) key.now) (has_spot collections.old) (has_spot collections.new) }
{
    let Some(places) = collections.get_mut(name) else {
        return;
    };
    take_places(places, probe, key);
    if has_none(places) {
        collections.remove(name);
    }
}

/// Whether there is no key of the collection.
fn has_none(places: &Places) -> bool
    ensures { result ≡ true → (i : Option AProbe × AKey) → has_places places.now i ≡ false }
{
    places.rest.is_empty() && places.equal.is_empty()
}

/// Takes a key out of those of its collection.
fn take_places(places: &mut Places, probe: Option<(&Path, &Node)>, key: &Key)
    ensures { Drops (at_places (option_map (λ r. (r.0.now, r.1.now)) probe.entry) key.now) (has_places places.old) (has_places places.new) }
{
    match probe {
        Some((path, value)) => take_path(&mut places.equal, path, value, key),
        None => take_key(&mut places.rest, key),
    }
}

/// Takes a key out of those at a path and a value.
fn take_path(paths: &mut Paths, path: &Path, value: &Node, key: &Key)
    ensures { Drops (at_path path.now value.now key.now) (has_path paths.old) (has_path paths.new) }
{
    let Some(values) = paths.get_mut(path) else {
        return;
    };
    take_value(values, value, key);
    if values.is_empty() {
        paths.remove(path);
    }
}

/// Takes a key out of those at a value.
fn take_value(values: &mut Values, value: &Node, key: &Key)
    ensures { Drops (at_value value.now key.now) (has_value values.old) (has_value values.new) }
{
    let Some(keys) = values.get_mut(value) else {
        return;
    };
    take_key(keys, key);
    if keys.is_empty() {
        values.remove(value);
    }
}

/// Takes a key out.
fn take_key(keys: &mut Keys, key: &Key)
    ensures { Drops (same_key key.now) (has_key keys.old) (has_key keys.new) }
{
    keys.swap_remove(key);
}
