//! The last changes of results.
ghost use Rattle.std.specs.Prelude.{◌≡◌, [], false, ◌&&◌, if◌then◌else◌, max, IsTrue, OnOk, OnErr};
ghost use Rattle.std.specs.Map.{lookup};
ghost use Rattle.query_normal.specs.declared.key.KeyShape.{KeyShape as AKey};
ghost use Rattle.query_normal.specs.Keys.{same_key};
ghost use Rattle.purge_list.specs.LastChanges.{change_of, is_known};

use indexmap::IndexMap;
use q_base::{Commit, Memory};
use query_normal::Key;
use std::alloc::Global;
use std::marker::Model;

/// For keys, the last commit that changed the result of the key. A key without an entry counts as
/// changed by commit 0, and so does one that is only reserved.
#[derive(Drop)]
pub struct LastChanges {
    keys: IndexMap<Key, Commit>,
}

impl Model for LastChanges {
    ghost use Rattle.std.specs.Coded.{codes};
    ghost use Rattle.q_doc.specs.Code.{tree_code};
    ghost use Rattle.query_core.specs.Code.{filter_code};
    ghost use Rattle.purge_list.specs.LastChanges.{Changes};

    ghost Value = { Changes };

    ghost coded = { Prim.hlevel (codes, tree_code, filter_code) };

    ghost view = { λ c. c.keys.entries };
}

impl LastChanges {
    /// No key has an entry. It takes no memory.
    pub fn new(alloc: Global) -> LastChanges
        ensures { result ≡ [] }
    {
        LastChanges {
            keys: IndexMap::new(alloc),
        }
    }

    /// Makes an entry for a key, if it has none, so that `raise` of it counts.
    pub fn reserve(&mut self, key: &Key) -> Result<(), Memory>
        ensures known { OnOk result (IsTrue (is_known self.new key.now)) }
        ensures err { OnErr result (self.new ≡ self.old) }

        // No commit is changed, and no other key gets or loses an entry.
        ensures changes { (other : AKey) → change_of self.new other ≡ change_of self.old other }
        ensures others { (other : AKey) → same_key key.now other ≡ false → is_known self.new other ≡ is_known self.old other }
        ensures stays { (other : AKey) → IsTrue (is_known self.old other) → IsTrue (is_known self.new other) }
    {
        if self.keys.contains_key(key) {
            return Ok(());
        }
        let key = key.clone()?;
        match self.keys.insert(key, 0) {
            Ok(_) => Ok(()),
            Err(_) => Err(Memory),
        }
    }

    /// Notes that a commit changed the result of a key, if the key has an entry: the greater of its
    /// commit and this one counts. It takes no memory.
    pub fn raise(&mut self, key: &Key, commit: Commit)
        ensures changes { (other : AKey) → change_of self.new other ≡ (if same_key key.now other && is_known self.old key.now then max (change_of self.old other) commit else change_of self.old other) }
        ensures known { (other : AKey) → is_known self.new other ≡ is_known self.old other }
    {
        let Some(last) = self.keys.get_mut(key) else {
            return;
        };
        *last = (*last).max(commit);
    }

    /// The last commit that changed the result of a key, or 0 where none is known.
    pub fn get(&self, key: &Key) -> Commit
        ensures { result ≡ change_of self.now key.now }
    {
        match self.keys.get(key) {
            Some(last) => *last,
            None => 0,
        }
    }

    /// Drops the entry of a key.
    pub fn forget(&mut self, key: &Key)
        ensures gone { is_known self.new key.now ≡ false }
        ensures others { (other : AKey) → same_key key.now other ≡ false → lookup (same_key other) self.new ≡ lookup (same_key other) self.old }
    {
        self.keys.swap_remove(key);
    }
}
