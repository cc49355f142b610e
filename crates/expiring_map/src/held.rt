//! The held keys, each at an index, and the queue that says when to look at which index.
//!
//! 1. Each index has an entry in the queue no later than its key expires.
//! 2. An index that leaves the queue earlier than its key expires is pushed again. So the first that
//!    is not pushed again is that of the key that expires first.
//! 3. Where a key is removed, the last key takes its index, and that index is pushed again. An entry
//!    whose index no key has any more does nothing.
ghost use Rattle.std.specs.Prelude.{◌≡◌, ℕ, ◌+◌, ◌-◌, ◌<◌, ◌≤◌, ◌↔◌, ◌∷◌, ◌++◌, [], true, false, slice_get, slice_index_or, length, None, Some, IsSome, IfSome, IfNone, All, OnSome};
ghost use Rattle.std.specs.BinaryHeap.{IsHeap, heap_items, heap_len, heap_capacity};
ghost use Rattle.indexmap.specs.IndexMap.{index_map_len, spare, insert_entry};
ghost use Rattle.std.specs.Map.{lookup, keys_of};
ghost use Rattle.std.specs.List.{IsDistinct};
ghost use Rattle.query_normal.specs.declared.key.KeyShape.{KeyShape as AKey};
ghost use Rattle.query_normal.specs.Keys.{same_key};
ghost use Rattle.expiring_map.specs.declared.timed.Timed.{Timed as ATimed};
ghost use Rattle.expiring_map.specs.Due.{queue_cmp, overdue, IsCovered, IsCoveredBut, IsEarliest};
ghost use Rattle.expiring_map.specs.Entries.{Removes, extended_at};

use crate::queue::{Queue, pop_due, push_due};
use crate::timed::Timed;
use indexmap::IndexMap;
use query_normal::Key;

/// Each held key with its second and its value.
pub type EntryMap<V> = IndexMap<Key, Timed<V>>;

/// Removes the key at an index. The last key takes its index.
pub fn drop_at<V: Drop>(held: &mut EntryMap<V>, queue: &mut Queue, index: usize) -> (Key, Timed<V>)
    requires within { index < index_map_len held.old }
    requires ordered { IsHeap queue_cmp (heap_items queue.old) }
    requires covered { IsCoveredBut index held.old.entries (heap_items queue.old) }
    requires space { heap_len queue.old < heap_capacity queue.old }
    ensures entry { slice_get held.old.entries index ≡ Some result }
    ensures removes { Removes result.0 result.1 held.old.entries held.new.entries }
    ensures distinct { IsDistinct same_key (keys_of held.new.entries) }
    ensures len { index_map_len held.new + 1 ≡ index_map_len held.old }
    ensures spare { spare held.old ≤ spare held.new }
    ensures ordered { IsHeap queue_cmp (heap_items queue.new) }
    ensures covered { IsCovered held.new.entries (heap_items queue.new) }
    ensures queue_len { heap_len queue.new ≤ heap_len queue.old + 1 }
    ensures capacity { heap_capacity queue.old ≤ heap_capacity queue.new }
{
    match held.swap_remove_index(index) {
        None => unreachable!(),
        Some((key, timed)) => {
            cover(held, queue, index);
            (key, timed)
        }
    }
}

/// Pushes an index whose key came from another index.
fn cover<V>(held: &EntryMap<V>, queue: &mut Queue, index: usize)
    requires ordered { IsHeap queue_cmp (heap_items queue.old) }
    requires covered { IsCoveredBut index held.now.entries (heap_items queue.old) }
    requires space { heap_len queue.old < heap_capacity queue.old }
    ensures ordered { IsHeap queue_cmp (heap_items queue.new) }
    ensures covered { IsCovered held.now.entries (heap_items queue.new) }
    ensures len { heap_len queue.new ≤ heap_len queue.old + 1 }
    ensures capacity { heap_capacity queue.old ≤ heap_capacity queue.new }
{
    match until_at(held, index) {
        None => {}
        Some(until) => push_due(queue, until, index),
    }
}

/// The second at which the key at an index expires.
fn until_at<V>(held: &EntryMap<V>, index: usize) -> Option<u64>
    ensures until { IfSome result (λ until. (d : AKey × ATimed V) → (slice_index_or held.now.entries index d).1.until ≡ until) }
    ensures within { IsSome result ↔ (index < index_map_len held.now) }
{
    match held.get_index(index) {
        None => None,
        Some((_, timed)) => Some(timed.until),
    }
}

/// Whether the key at an index expires at a second or before. An index whose key expires later is
/// pushed again.
fn leaves<V>(held: &EntryMap<V>, queue: &mut Queue, due: u64, index: usize) -> bool
    requires ordered { IsHeap queue_cmp (heap_items queue.old) }
    requires covered { IsCoveredBut index held.now.entries (heap_items queue.old) }
    requires space { heap_len queue.old < heap_capacity queue.old }
    ensures within { result ≡ true → index < index_map_len held.now }
    ensures past { result ≡ true → (d : AKey × ATimed V) → (slice_index_or held.now.entries index d).1.until ≤ due }
    ensures same { result ≡ true → heap_items queue.new ≡ heap_items queue.old }
    ensures same_len { result ≡ true → heap_len queue.new ≡ heap_len queue.old }
    ensures covered { result ≡ false → IsCovered held.now.entries (heap_items queue.new) }
    ensures len { heap_len queue.new ≤ heap_len queue.old + 1 }
    ensures later { (moment : ℕ) → result ≡ false → due ≤ moment → overdue moment (heap_items queue.new) < overdue moment (heap_items queue.old) + (moment + 1 - due) }
    ensures ordered { IsHeap queue_cmp (heap_items queue.new) }
    ensures capacity { heap_capacity queue.old ≤ heap_capacity queue.new }
{
    match until_at(held, index) {
        None => false,
        Some(until) => {
            if due < until {
                push_due(queue, until, index);
                return false;
            }
            true
        }
    }
}

/// Pops the index of the key that expires first, if that is at or before the moment.
pub fn pop_index<V>(held: &EntryMap<V>, queue: &mut Queue, moment: u64) -> Option<usize>
    requires ordered { IsHeap queue_cmp (heap_items queue.old) }
    requires covered { IsCovered held.now.entries (heap_items queue.old) }
    requires space { heap_len queue.old ≤ heap_capacity queue.old }
    ensures within { IfSome result (λ index. index < index_map_len held.now) }
    ensures earliest { IfSome result (λ index. IsEarliest moment index held.now.entries) }
    ensures others { IfSome result (λ index. IsCoveredBut index held.now.entries (heap_items queue.new)) }
    ensures fewer { OnSome result (heap_len queue.new < heap_len queue.old) }
    ensures later { IfNone result (All (λ e. moment < e.1.until) held.now.entries) }
    ensures distinct { IsDistinct same_key (keys_of held.now.entries) }
    ensures covered { IfNone result (IsCovered held.now.entries (heap_items queue.new)) }
    ensures len { heap_len queue.new ≤ heap_len queue.old }
    ensures ordered { IsHeap queue_cmp (heap_items queue.new) }
    ensures capacity { heap_capacity queue.old ≤ heap_capacity queue.new }
{
    let _len = held.len();
    while let Some((due, index)) = pop_due(queue, moment) {
        if leaves(held, queue, due, index) {
            return Some(index);
        }
    }
    None
}

/// Adds a new key. It allocates nothing.
pub fn put<V: Drop>(held: &mut EntryMap<V>, queue: &mut Queue, key: Key, timed: Timed<V>)
    requires absent { lookup (same_key key) held.old.entries ≡ None }
    requires spare { 0 < spare held.old }
    requires ordered { IsHeap queue_cmp (heap_items queue.old) }
    requires covered { IsCovered held.old.entries (heap_items queue.old) }
    requires space { heap_len queue.old < heap_capacity queue.old }
    ensures entries { held.new.entries ≡ held.old.entries ++ (key, timed) ∷ [] }
    ensures distinct { IsDistinct same_key (keys_of held.new.entries) }
    ensures len { index_map_len held.new ≡ index_map_len held.old + 1 }
    ensures spare { spare held.old ≤ spare held.new + 1 }
    ensures ordered { IsHeap queue_cmp (heap_items queue.new) }
    ensures covered { IsCovered held.new.entries (heap_items queue.new) }
    ensures queue_len { heap_len queue.new ≡ heap_len queue.old + 1 }
    ensures capacity { heap_capacity queue.old ≤ heap_capacity queue.new }
{
    push_due(queue, timed.until, held.len());
    insert(held, key, timed);
}

/// Inserts a new key into the map. It allocates nothing.
fn insert<V: Drop>(held: &mut EntryMap<V>, key: Key, timed: Timed<V>)
    requires absent { lookup (same_key key) held.old.entries ≡ None }
    requires spare { 0 < spare held.old }
    ensures entries { held.new.entries ≡ insert_entry same_key held.old.entries key timed }
    ensures distinct { IsDistinct same_key (keys_of held.new.entries) }
    ensures len { index_map_len held.new ≡ index_map_len held.old + 1 }
    ensures spare { spare held.old ≤ spare held.new + 1 }
{
    match held.insert(key, timed) {
        Ok(_) => {}
        Err(_) => unreachable!(),
    }
}

/// Gives the key at an index the later of two seconds. It allocates nothing.
pub fn extend<V>(held: &mut EntryMap<V>, index: usize, until: u64)
    requires { index < index_map_len held.old }
    ensures entries { held.new.entries ≡ extended_at held.old.entries index until }
    ensures len { index_map_len held.new ≡ index_map_len held.old }
    ensures spare { spare held.new ≡ spare held.old }
{
    let timed = &mut held[index];
    timed.until = timed.until.max(until);
}
