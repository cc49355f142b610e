//! The map of keys that expire.
ghost use Rattle.std.specs.Prelude.{◌≡◌, ℕ, ◌+◌, ◌*◌, ◌^◌, ◌<◌, ◌≤◌, not, ◌&&◌, ◌||◌, true, false, [], ◌∷◌, ◌++◌, IsTrue, IfOk, OnOk, OnErr, IfSome, IfNone, OnSome, All, length, map, position, slice_get, is_some, option_map, option_copied, None, Some};
ghost use Rattle.std.specs.List.{list_any, IsDistinct};
ghost use Rattle.std.specs.Map.{lookup, keys_of};
ghost use Rattle.std.specs.Borrow.{sem};
ghost use Rattle.std.specs.BinaryHeap.{heap_items, heap_len, heap_capacity};
ghost use Rattle.indexmap.specs.IndexMap.{index_map_len, spare};
ghost use Rattle.query_normal.specs.declared.key.KeyShape.{KeyShape as AKey};
ghost use Rattle.query_normal.specs.Keys.{same_key};
ghost use Rattle.expiring_map.specs.declared.timed.Timed.{Timed as ATimed};
ghost use Rattle.expiring_map.specs.Entries.{Removes, Expires, extended_at};
ghost use Rattle.expiring_map.specs.Map.{no_keys, is_reserved};

use crate::held::{EntryMap, drop_at, extend, pop_index, put};
use crate::queue::Queue;
use crate::reserved::ReservedKeys;
use crate::timed::Timed;
use indexmap::IndexMap;
use q_base::{Memory, Moment};
use query_normal::Key;
use std::alloc::Global;
use std::collections::BinaryHeap;
use std::marker::Model;

/// Keys, each with the second at which it leaves and a value.
#[derive(Drop)]
pub struct ExpiringMap<V> {
    held: EntryMap<V>,
    queue: Queue,
    reserved: ReservedKeys,
}

impl<V> Model for ExpiringMap<V> {
    ghost use Rattle.std.specs.Prelude.{◌+◌, ◌*◌, ◌≤◌, length};
    ghost use Rattle.std.specs.BinaryHeap.{IsHeap, heap_items, heap_len, heap_capacity};
    ghost use Rattle.std.specs.Coded.{codes};
    ghost use Rattle.q_doc.specs.Code.{tree_code};
    ghost use Rattle.query_core.specs.Code.{filter_code};
    ghost use Rattle.indexmap.specs.IndexMap.{index_map_len, spare};
    ghost use Rattle.expiring_map.specs.Due.{queue_cmp, IsCovered};
    ghost use Rattle.expiring_map.specs.Map.{Expiring};

    ghost Value = { Expiring V };

    ghost coded = { Prim.hlevel (codes, tree_code, filter_code) };

    ghost view = { λ m. record { entries = m.held.entries; reserved = m.reserved } };

    ghost invariant = { λ m. record {
      ordered : IsHeap queue_cmp (heap_items m.queue);
      covered : IsCovered m.held.entries (heap_items m.queue);
      map_space : length m.reserved ≤ spare m.held;
      queue_space : heap_len m.queue + index_map_len m.held + 2 * length m.reserved ≤ heap_capacity m.queue;
    } };
}

impl<V: Drop> ExpiringMap<V> {
    ghost use Rattle.expiring_map.specs.Lends.{lends_value};

    /// No key.
    pub fn new(alloc: Global) -> ExpiringMap<V>
        ensures { result ≡ no_keys }
    {
        ExpiringMap {
            held: IndexMap::new(alloc),
            queue: BinaryHeap::new(alloc),
            reserved: ReservedKeys::new(alloc),
        }
    }

    /// Reserves space for a key, so that its `put` allocates nothing. Earlier reservations stay.
    pub fn reserve(&mut self, key: &Key) -> Result<(), Memory>
        ensures ok { OnOk result (IsTrue (is_reserved self.new key.now)) }
        ensures others { (other : AKey) → same_key key.now other ≡ false → is_reserved self.new other ≡ is_reserved self.old other }
        ensures len { length self.new.reserved ≤ length self.old.reserved + 1 }
        ensures entries { self.new.entries ≡ self.old.entries }
        ensures err { OnErr result (self.new ≡ self.old) }
    {
        if self.reserved.contains(key) {
            return Ok(());
        }
        let owned = key.clone()?;
        reserve_new(&mut self.held, &mut self.queue, &mut self.reserved, owned)
    }

    /// Whether a key is reserved.
    pub fn reserves(&self, key: &Key) -> bool
        ensures { result ≡ is_reserved self.now key.now }
    {
        self.reserved.contains(key)
    }

    /// The number of reserved keys.
    pub fn reserved(&self) -> usize
        ensures len { result ≡ length self.now.reserved }
        ensures small { result ≤ 2 ^ 63 }
    {
        self.reserved.len()
    }

    /// Drops the reservation of a key.
    pub fn release(&mut self, key: &Key)
        ensures reserved { (other : AKey) → is_reserved self.new other ≡ (not (same_key key.now other) && is_reserved self.old other) }
        ensures len { length self.new.reserved ≤ length self.old.reserved }
        ensures used { IsTrue (is_reserved self.old key.now) → length self.new.reserved < length self.old.reserved }
        ensures entries { self.new.entries ≡ self.old.entries }
    {
        self.reserved.leave_out(key);
    }

    /// Drops the reservations that were not used.
    pub fn forget_reserved(&mut self)
        ensures { self.new ≡ record self.old { reserved = [] } }
    {
        self.reserved.clear();
    }

    /// Adds a reserved key that is not held, with its second and its value, and uses its reservation up.
    /// It allocates nothing.
    pub fn put(&mut self, key: &Key, until: u64, value: V)
        requires reserved { IsTrue (is_reserved self.old key.now) }
        requires absent { lookup (same_key key.now) self.old.entries ≡ None }
        ensures entries { self.new.entries ≡ self.old.entries ++ (key.now, record { until = until; value = value }) ∷ [] }
        ensures reserved { (other : AKey) → is_reserved self.new other ≡ (not (same_key key.now other) && is_reserved self.old other) }
        ensures used { length self.new.reserved < length self.old.reserved }
        ensures once { IsDistinct same_key (keys_of self.new.entries) }
    {
        let key = self.reserved.take(key);
        put(&mut self.held, &mut self.queue, key, Timed { until, value });
    }

    /// The index of a key. It is valid until a key is removed.
    pub fn index_of(&self, key: &Key) -> Option<usize>
        ensures index { result ≡ position (same_key key.now) (keys_of self.now.entries) }
        ensures found { is_some result ≡ is_some (lookup (same_key key.now) self.now.entries) }
        ensures within { IfSome result (λ index. index < length self.now.entries) }
        ensures value { IfSome result (λ index. option_map (λ e. e.1) (slice_get self.now.entries index) ≡ lookup (same_key key.now) self.now.entries) }
        ensures once { IsDistinct same_key (keys_of self.now.entries) }
    {
        self.held.get_index_of(key)
    }

    /// Gives the key at an index the later of two seconds. It allocates nothing.
    pub fn extend(&mut self, index: usize, until: u64)
        requires { index < length self.old.entries }
        ensures { self.new ≡ record self.old { entries = extended_at self.old.entries index until } }
    {
        extend(&mut self.held, index, until);
    }

    /// The value at an index, for writing.
    pub fn value_mut(&mut self, index: usize) -> &mut V
        requires { index < length self.old.entries }
        ensures* writes_back { sem 𝓛 (lends_value V.row self.entry index result) }
        ensures value { option_map (λ e. e.1.value) (slice_get self.old.entries index) ≡ Some result.now }
    {
        self.held[index].value_mut()
    }

    /// A key's second and value.
    pub fn get(&self, key: &Key) -> Option<&Timed<V>>
        ensures { option_copied result ≡ lookup (same_key key.now) self.now.entries }
    {
        self.held.get(key)
    }

    /// Whether a key is held.
    pub fn contains(&self, key: &Key) -> bool
        ensures { result ≡ is_some (lookup (same_key key.now) self.now.entries) }
    {
        self.held.contains_key(key)
    }

    /// The number of held keys.
    pub fn len(&self) -> usize
        ensures len { result ≡ length self.now.entries }
        ensures once { IsDistinct same_key (keys_of self.now.entries) }
    {
        self.held.len()
    }

    /// Removes a key, if it is held.
    pub fn remove(&mut self, key: &Key) -> Option<Timed<V>>
        ensures some { IfSome result (λ timed. Removes key.now timed self.old.entries self.new.entries) }
        ensures none { IfNone result (lookup (same_key key.now) self.old.entries ≡ None) }
        ensures once { IsDistinct same_key (keys_of self.new.entries) }
        ensures same { IfNone result (self.new ≡ self.old) }
        ensures reserved { self.new.reserved ≡ self.old.reserved }
    {
        match self.held.get_index_of(key) {
            None => None,
            Some(index) => Some(drop_at(&mut self.held, &mut self.queue, index).1),
        }
    }

    /// Removes the key that expires first, if its second is not above the moment.
    pub fn next_expired(&mut self, moment: Moment) -> Option<(Key, V)>
        ensures some { IfSome result (λ e. Expires moment e.0 e.1 self.old.entries self.new.entries) }
        ensures none { IfNone result (All (λ e. moment < e.1.until) self.old.entries) }
        ensures once { IsDistinct same_key (keys_of self.new.entries) }
        ensures same { IfNone result (self.new ≡ self.old) }
        ensures reserved { self.new.reserved ≡ self.old.reserved }
    {
        match pop_index(&self.held, &mut self.queue, moment.seconds()) {
            None => None,
            Some(index) => {
                let (key, timed) = drop_at(&mut self.held, &mut self.queue, index);
                Some((key, timed.value))
            }
        }
    }
}

/// Reserves a new key, with space for it in the map and in the queue.
fn reserve_new<V: Drop>(
    held: &mut EntryMap<V>,
    queue: &mut Queue,
    reserved: &mut ReservedKeys,
    key: Key,
) -> Result<(), Memory>
    requires map_space { length reserved.old ≤ spare held.old }
    requires queue_space { heap_len queue.old + index_map_len held.old + 2 * length reserved.old ≤ heap_capacity queue.old }
    ensures entries { held.new.entries ≡ held.old.entries }
    ensures items { heap_items queue.new ≡ heap_items queue.old }
    ensures map_space { length reserved.new ≤ spare held.new }
    ensures queue_space { heap_len queue.new + index_map_len held.new + 2 * length reserved.new ≤ heap_capacity queue.new }
    ensures ok { OnOk result ((other : AKey) → list_any (same_key other) reserved.new ≡ (same_key key other || list_any (same_key other) reserved.old)) }
    ensures len { length reserved.new ≤ length reserved.old + 1 }
    ensures err { OnErr result (reserved.new ≡ reserved.old) }
{
    let more = reserved.len() + 1;
    let entries = more
        .checked_mul(2)
        .and_then(|entries| entries.checked_add(held.len()))
        .ok_or(Memory)?;
    held.reserve(more)?;
    queue.reserve(entries)?;
    reserved.add(key)
}
