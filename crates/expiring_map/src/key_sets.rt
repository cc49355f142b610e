//! Sets of keys that are empty most of the time. A set of the kit hashes the key before it looks it up,
//! so an empty set is tested first.
ghost use Rattle.std.specs.Prelude.{◌≡◌, ◌+◌, ◌≤◌, not, ◌&&◌, if◌then◌else◌, [], IsTrue, IfSome, IfNone};
ghost use Rattle.std.specs.List.{list_any};
ghost use Rattle.indexmap.specs.IndexSet.{spare, index_set_len};
ghost use Rattle.query_normal.specs.declared.key.KeyShape.{KeyShape as AKey};
ghost use Rattle.query_normal.specs.Keys.{same_key};

use indexmap::IndexSet;
use query_normal::Key;

/// Whether a key is among them.
pub fn holds(keys: &IndexSet<Key>, key: &Key) -> bool
    ensures { result ≡ list_any (same_key key.now) keys.now.keys }
{
    !keys.is_empty() && keys.contains(key)
}

/// Removes a key, if it is among them.
pub fn leave_out(keys: &mut IndexSet<Key>, key: &Key)
    ensures left { (other : AKey) → list_any (same_key other) keys.new.keys ≡ (not (same_key key.now other) && list_any (same_key other) keys.old.keys) }
    ensures len { index_set_len keys.new ≤ index_set_len keys.old }
    ensures spare { spare keys.old ≤ spare keys.new }
{
    if !keys.is_empty() {
        keys.swap_remove(key);
    }
}

/// Removes a key that is among them, and returns it.
pub fn take_key(keys: &mut IndexSet<Key>, key: &Key) -> Key
    requires { IsTrue (list_any (same_key key.now) keys.old.keys) }
    ensures key { result ≡ key.now }
    ensures left { (other : AKey) → list_any (same_key other) keys.new.keys ≡ (not (same_key key.now other) && list_any (same_key other) keys.old.keys) }
    ensures len { index_set_len keys.new + 1 ≡ index_set_len keys.old }
{
    match keys.swap_take(key) {
        Some(taken) => taken,
        None => unreachable!(),
    }
}

/// Removes one of the keys, if there is any, and returns it.
pub fn take_one(keys: &mut IndexSet<Key>) -> Option<Key>
    ensures some { IfSome result (λ key. IsTrue (list_any (same_key key) keys.old.keys)) }
    ensures taken { IfSome result (λ key. (other : AKey) → list_any (same_key other) keys.new.keys ≡ (not (same_key key other) && list_any (same_key other) keys.old.keys)) }
    ensures fewer { IfSome result (λ _. index_set_len keys.new + 1 ≡ index_set_len keys.old) }
    ensures none { IfNone result (keys.old.keys ≡ []) }
    ensures unchanged { IfNone result (keys.new.keys ≡ []) }
    ensures spare { spare keys.old ≤ spare keys.new }
{
    keys.pop()
}

/// Removes all keys one by one, so that the cost does not depend on the capacity.
pub fn take_all(left: &mut IndexSet<Key>)
    ensures keys { left.new.keys ≡ [] }
    ensures spare { spare left.old ≤ spare left.new }
{
    while left.pop().is_some() {}
}
