//! The counting filter.
ghost use Rattle.std.specs.Prelude.{◌≡◌, ◌⊎◌, ◌^◌, ◌<◌, ◌≤◌, not, ◌&&◌, false, [], None, IsTrue, IfOk, OnOk, OnErr, length, map};
ghost use Rattle.std.specs.List.{IsDistinct};
ghost use Rattle.std.specs.Map.{lookup};
ghost use Rattle.query_normal.specs.declared.key.KeyShape.{KeyShape as AKey};
ghost use Rattle.query_normal.specs.Bits.{flat_bits};
ghost use Rattle.query_normal.specs.Keys.{same_key};
ghost use Rattle.expiring_map.specs.Entries.{seconds_of};
ghost use Rattle.expiring_map.specs.Map.{is_reserved as is_ready};
ghost use Rattle.expiring_filter.specs.Filter.{empty_filter, is_held, is_reserved, count_of, bits_of, Removes};
ghost use Rattle.expiring_filter.specs.Held.{IsCounted, put_until, Expires};

use crate::counters::Counters;
use expiring_map::ExpiringMap;
use q_base::{Memory, Moment};
use query_normal::Key;
use std::alloc::Global;
use std::marker::Model;

/// A counting Bloom filter (Fan et al. 2000) whose keys expire, as the expiring filter of Quaestor does
/// (Gessert et al., VLDB 2017). The bits of the counts above 0 are always up to date.
#[derive(Drop)]
pub struct CountingFilter {
    keys: ExpiringMap<()>,
    counters: Counters,
}

impl Model for CountingFilter {
    ghost use Rattle.std.specs.Coded.{codes};
    ghost use Rattle.q_doc.specs.Code.{tree_code};
    ghost use Rattle.query_core.specs.Code.{filter_code};
    ghost use Rattle.expiring_map.specs.Entries.{seconds_of};
    ghost use Rattle.expiring_filter.specs.Filter.{Filter};
    ghost use Rattle.expiring_filter.specs.Held.{IsCounted};

    ghost Value = { Filter };

    ghost coded = { Prim.hlevel (codes, tree_code, filter_code) };

    ghost view = { λ f. record {
      log2_bits = f.counters.log2_bits;
      hashes = f.counters.hashes;
      held = seconds_of f.keys.entries;
      reserved = f.keys.reserved;
    } };

    ghost invariant = { λ f. record {
      counted : IsCounted f.counters.log2_bits f.counters.hashes (seconds_of f.keys.entries) f.counters.counts.items f.counters.bits.items;
    } };
}

impl CountingFilter {
    /// An empty filter of `2^log2_bits` counters and bits.
    pub fn new(alloc: Global, log2_bits: u8, hashes: u8) -> Result<CountingFilter, Memory>
        requires least { 3 ≤ log2_bits }
        requires most { log2_bits ≤ 22 }
        requires few { hashes ≤ 16 }
        ensures { IfOk result (λ filter. filter ≡ empty_filter log2_bits hashes) }
    {
        let size = 1usize << log2_bits;
        let counts = vec![in alloc; 0u32; size]?;
        let bits = vec![in alloc; 0u8; size / 8]?;
        Ok(CountingFilter {
            keys: ExpiringMap::new(alloc),
            counters: Counters {
                log2_bits,
                hashes,
                counts,
                bits,
            },
        })
    }

    /// Reserves space for a key, so that one `add` of it allocates nothing. Earlier reservations stay.
    pub fn reserve(&mut self, key: &Key) -> Result<(), Memory>
        ensures ok { OnOk result (IsTrue (is_reserved self.new key.now)) }
        ensures others { (other : AKey) → same_key key.now other ≡ false → is_reserved self.new other ≡ is_reserved self.old other }
        ensures rest { self.new ≡ record self.old { reserved = self.new.reserved } }
        ensures err { OnErr result (self.new ≡ self.old) }
    {
        self.keys.reserve(key)
    }

    /// Holds a key until a second, or until the later one where it is held. It uses the reservation of
    /// the key up.
    pub fn add(&mut self, key: &Key, until: u64)
        requires reserved { IsTrue (is_reserved self.old key.now) ⊎ IsTrue (is_held self.old key.now) }
        requires few { IsTrue (is_held self.old key.now) ⊎ (length self.old.held < 1000000) }
        ensures held { self.new.held ≡ put_until self.old.held key.now until }
        ensures reserved { (other : AKey) → is_reserved self.new other ≡ (not (same_key key.now other) && is_reserved self.old other) }
        ensures rest { self.new ≡ record self.old { held = self.new.held; reserved = self.new.reserved } }
    {
        match self.keys.index_of(key) {
            Some(index) => {
                self.keys.extend(index, until);
                self.keys.release(key);
            }
            None => put(&mut self.keys, &mut self.counters, key, until),
        }
    }

    /// Removes each key whose second is not above a moment.
    pub fn advance(&mut self, moment: Moment)
        ensures expired { Expires moment self.old.held self.new.held }
        ensures rest { self.new ≡ record self.old { held = self.new.held } }
    {
        expire(&mut self.keys, &mut self.counters, moment);
    }

    /// Removes a key, if it is held.
    pub fn remove(&mut self, key: &Key)
        ensures held { Removes key.now self.old.held self.new.held }
        ensures rest { self.new ≡ record self.old { held = self.new.held } }
    {
        match self.keys.remove(key) {
            Some(_) => self.counters.uncount(key),
            None => {}
        }
    }

    /// Drops the reservations that were not used.
    pub fn forget_reserved(&mut self)
        ensures { self.new ≡ record self.old { reserved = [] } }
    {
        self.keys.forget_reserved();
    }

    /// Whether the key is held.
    pub fn holds(&self, key: &Key) -> bool
        ensures { result ≡ is_held self.now key.now }
    {
        self.keys.contains(key)
    }

    /// The number of times that a position is among those of the held keys, with repetitions.
    pub fn count(&self, position: u32) -> u32
        requires { position < 2 ^ self.now.log2_bits }
        ensures { result ≡ count_of self.now position }
    {
        self.counters.counts[position as usize]
    }

    /// The number of held keys.
    pub fn keys(&self) -> u32
        ensures count { result ≡ length self.now.held }
        ensures few { result ≤ 1000000 }
        ensures once { IsDistinct same_key (map (λ e. e.0) self.now.held) }
    {
        let _counters = &self.counters;
        self.keys.len() as u32
    }

    /// The bits of the counts above 0, in the bytes of a page.
    pub fn bits(&self) -> &[u8]
        ensures { flat_bits result.now ≡ bits_of self.now }
    {
        self.counters.bits.as_slice()
    }
}

/// Adds a reserved key that is not held, and counts it. It allocates nothing.
fn put(keys: &mut ExpiringMap<()>, counters: &mut Counters, key: &Key, until: u64)
    requires reserved { IsTrue (is_ready keys.old key.now) }
    requires absent { lookup (same_key key.now) keys.old.entries ≡ None }
    requires few { length keys.old.entries < 1000000 }
    requires counted { IsCounted counters.old.log2_bits counters.old.hashes (seconds_of keys.old.entries) counters.old.counts.items counters.old.bits.items }
    ensures held { seconds_of keys.new.entries ≡ put_until (seconds_of keys.old.entries) key.now until }
    ensures reserved { (other : AKey) → is_ready keys.new other ≡ (not (same_key key.now other) && is_ready keys.old other) }
    ensures counted { IsCounted counters.new.log2_bits counters.new.hashes (seconds_of keys.new.entries) counters.new.counts.items counters.new.bits.items }
    ensures log2_bits { counters.new.log2_bits ≡ counters.old.log2_bits }
    ensures hashes { counters.new.hashes ≡ counters.old.hashes }
{
    counters.count(key);
    keys.put(key, until, ());
}

/// Removes each key whose second is not above the moment, with its counts.
fn expire(keys: &mut ExpiringMap<()>, counters: &mut Counters, moment: Moment)
    requires { IsCounted counters.old.log2_bits counters.old.hashes (seconds_of keys.old.entries) counters.old.counts.items counters.old.bits.items }
    ensures expired { Expires moment (seconds_of keys.old.entries) (seconds_of keys.new.entries) }
    ensures reserved { keys.new.reserved ≡ keys.old.reserved }
    ensures counted { IsCounted counters.new.log2_bits counters.new.hashes (seconds_of keys.new.entries) counters.new.counts.items counters.new.bits.items }
    ensures log2_bits { counters.new.log2_bits ≡ counters.old.log2_bits }
    ensures hashes { counters.new.hashes ≡ counters.old.hashes }
{
    while let Some((key, _)) = keys.next_expired(moment) {
        counters.uncount(&key);
    }
}
