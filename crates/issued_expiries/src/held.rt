//! The keys with unexpired copies. Each expires with its last copy.
ghost use Rattle.std.specs.Prelude.{◌≡◌, ◌+◌, ◌<◌, ◌≤◌, not, ◌&&◌, ◌||◌, if◌then◌else◌, is_some, IsTrue, IfSome, OnOk, length};
ghost use Rattle.std.specs.List.{list_any, IsDistinct};
ghost use Rattle.std.specs.Map.{keys_of};
ghost use Rattle.indexmap.specs.IndexSet.{spare as set_spare};
ghost use Rattle.query_normal.specs.declared.key.KeyShape.{KeyShape as AKey};
ghost use Rattle.query_normal.specs.Keys.{same_key};
ghost use Rattle.expiring_map.specs.Map.{is_reserved as is_ready};
ghost use Rattle.issued_expiries.specs.KeyCopies.{HasSpace};
ghost use Rattle.issued_expiries.specs.Entries.{copies_in, kept_of, AllAge, AreTied, AreUnexpired, Puts, Trims};

use crate::key_copies::KeyCopies;
use expiring_map::ExpiringMap;
use indexmap::IndexSet;
use q_base::{Memory, Moment};
use query_normal::Key;
use std::alloc::Global;

/// The keys with unexpired copies.
pub type HeldKeys = ExpiringMap<KeyCopies>;

/// Makes space for one more copy of a key, if it is held.
pub fn make_space(held: &mut HeldKeys, alloc: Global, key: &Key, clock: u64) -> Result<(), Memory>
    requires unexpired { AreUnexpired clock (copies_in held.old.entries) }
    requires tied { AreTied held.old.entries }
    ensures space { OnOk result (IfSome (kept_of key.now (copies_in held.new.entries)) HasSpace) }
    ensures trims { Trims clock key.now (copies_in held.old.entries) (copies_in held.new.entries) }
    ensures tied { AreTied held.new.entries }
    ensures reserved { held.new.reserved ≡ held.old.reserved }
    ensures len { length held.new.entries ≡ length held.old.entries }
{
    match held.index_of(key) {
        Some(index) => held.value_mut(index).make_space(alloc, clock),
        None => Ok(()),
    }
}

/// Adds a copy of a reserved key. It allocates nothing.
pub fn put(held: &mut HeldKeys, alloc: Global, key: &Key, commit: u64, until: u64)
    requires reserved { IsTrue (is_ready held.old key.now) }
    requires space { IfSome (kept_of key.now (copies_in held.old.entries)) HasSpace }
    requires tied { AreTied held.old.entries }
    ensures puts { Puts key.now commit until (copies_in held.old.entries) (copies_in held.new.entries) }
    ensures tied { AreTied held.new.entries }
    ensures distinct { IsDistinct same_key (keys_of (copies_in held.new.entries)) }
    ensures reserved { (other : AKey) → is_ready held.new other ≡ (not (same_key key.now other) && is_ready held.old other) }
    ensures used { length held.new.reserved < length held.old.reserved }
    ensures len { length held.new.entries ≡ (if is_some (kept_of key.now (copies_in held.old.entries)) then length held.old.entries else length held.old.entries + 1) }
{
    match held.index_of(key) {
        Some(index) => {
            held.value_mut(index).put(commit, until);
            held.extend(index, until);
            held.release(key);
        }
        None => held.put(key, until, KeyCopies::one(alloc, commit, until)),
    }
}

/// Makes a key idle. It allocates nothing.
fn add_idle(idle: &mut IndexSet<Key>, key: Key)
    requires { 0 < set_spare idle.old }
    ensures keys { (other : AKey) → list_any (same_key other) idle.new.keys ≡ (same_key key other || list_any (same_key other) idle.old.keys) }
    ensures spare { set_spare idle.old ≤ set_spare idle.new + 1 }
{
    match idle.insert(key) {
        Ok(_) => {}
        Err(_) => unreachable!(),
    }
}

/// Removes each key whose last copy is not later than the moment, and makes it idle.
pub fn expire(held: &mut HeldKeys, idle: &mut IndexSet<Key>, moment: Moment)
    requires distinct { IsDistinct same_key (keys_of (copies_in held.old.entries)) }
    requires tied { AreTied held.old.entries }
    requires idle_space { length held.old.entries ≤ set_spare idle.old }
    ensures ages { AllAge moment (copies_in held.old.entries) (copies_in held.new.entries) idle.old.keys idle.new.keys }
    ensures unexpired { AreUnexpired moment (copies_in held.new.entries) }
    ensures tied { AreTied held.new.entries }
    ensures distinct { IsDistinct same_key (keys_of (copies_in held.new.entries)) }
    ensures reserved { held.new.reserved ≡ held.old.reserved }
    ensures len { length held.new.entries ≤ length held.old.entries }
    ensures idle_spare { set_spare idle.old + length held.new.entries ≤ set_spare idle.new + length held.old.entries }
{
    while let Some((key, _)) = held.next_expired(moment) {
        add_idle(idle, key);
    }
}
