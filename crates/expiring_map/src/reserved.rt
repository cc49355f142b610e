//! The keys with a reservation. There is seldom more than one.
ghost use Rattle.std.specs.Prelude.{◌≡◌, ◌+◌, ◌<◌, ◌≤◌, ◌^◌, not, ◌&&◌, ◌||◌, [], length, option_to_list, IsTrue, OnOk, OnErr};
ghost use Rattle.std.specs.List.{list_any};
ghost use Rattle.query_normal.specs.declared.key.KeyShape.{KeyShape as AKey};
ghost use Rattle.query_normal.specs.Keys.{same_key};

use crate::key_sets::{holds, leave_out, take_all, take_key};
use indexmap::IndexSet;
use q_base::Memory;
use query_normal::Key;
use std::alloc::Global;
use std::marker::Model;

/// Keys, of which the first is stored inline and found by one comparison.
#[derive(Drop)]
pub struct ReservedKeys {
    first: Option<Key>,
    /// The keys that were added while there was a first one.
    others: IndexSet<Key>,
}

impl Model for ReservedKeys {
    ghost use Rattle.std.specs.Prelude.{List, ◌++◌, option_to_list};
    ghost use Rattle.std.specs.Coded.{codes};
    ghost use Rattle.q_doc.specs.Code.{tree_code};
    ghost use Rattle.query_core.specs.Code.{filter_code};
    ghost use Rattle.query_normal.specs.declared.key.KeyShape.{KeyShape};

    ghost Value = { List KeyShape };

    ghost coded = { Prim.hlevel (codes, tree_code, filter_code) };

    ghost view = { λ r. option_to_list r.first ++ r.others.keys };
}

impl ReservedKeys {
    /// No key.
    pub fn new(alloc: Global) -> ReservedKeys
        ensures { result ≡ [] }
    {
        ReservedKeys {
            first: None,
            others: IndexSet::new(alloc),
        }
    }

    /// The number of keys.
    pub fn len(&self) -> usize
        ensures len { result ≡ length self.now }
        ensures small { result ≤ 2 ^ 63 }
    {
        match self.first {
            Some(_) => 1 + self.others.len(),
            None => self.others.len(),
        }
    }

    /// Whether a key is among them.
    pub fn contains(&self, key: &Key) -> bool
        ensures { result ≡ list_any (same_key key.now) self.now }
    {
        match &self.first {
            Some(first) => key == first || holds(&self.others, key),
            None => holds(&self.others, key),
        }
    }

    /// Adds a key.
    pub fn add(&mut self, key: Key) -> Result<(), Memory>
        ensures ok { OnOk result ((other : AKey) → list_any (same_key other) self.new ≡ (same_key other key || list_any (same_key other) self.old)) }
        ensures len { length self.new ≤ length self.old + 1 }
        ensures err { OnErr result (self.new ≡ self.old) }
    {
        if self.first.is_none() {
            self.first = Some(key);
            return Ok(());
        }
        match self.others.insert(key) {
            Ok(_) => Ok(()),
            Err(_) => Err(Memory),
        }
    }

    /// Removes a key that is among them.
    pub fn take(&mut self, key: &Key) -> Key
        requires { IsTrue (list_any (same_key key.now) self.old) }
        ensures key { result ≡ key.now }
        ensures left { (other : AKey) → list_any (same_key other) self.new ≡ (not (same_key key.now other) && list_any (same_key other) self.old) }
        ensures len { length self.new < length self.old }
    {
        match self.first.take() {
            Some(first) => {
                if key == &first {
                    leave_out(&mut self.others, key);
                    return first;
                }
                self.first = Some(first);
            }
            None => {}
        }
        take_key(&mut self.others, key)
    }

    /// Removes a key, if it is among them.
    pub fn leave_out(&mut self, key: &Key)
        ensures left { (other : AKey) → list_any (same_key other) self.new ≡ (not (same_key key.now other) && list_any (same_key other) self.old) }
        ensures len { length self.new ≤ length self.old }
        ensures used { IsTrue (list_any (same_key key.now) self.old) → length self.new < length self.old }
    {
        if is_key(&self.first, key) {
            self.first = None;
            leave_out(&mut self.others, key);
        } else if holds(&self.others, key) {
            drop(take_key(&mut self.others, key));
        }
    }

    /// Removes all keys, and keeps the capacity of the others.
    pub fn clear(&mut self)
        ensures { self.new ≡ [] }
    {
        self.first = None;
        take_all(&mut self.others);
    }
}

/// Whether there is a key, and it is this one.
fn is_key(first: &Option<Key>, key: &Key) -> bool
    ensures { result ≡ list_any (same_key key.now) (option_to_list first.now) }
{
    match first {
        Some(first) => key == first,
        None => false,
    }
}
