//! The unexpired issued copies of all keys.
ghost use Rattle.std.specs.Prelude.{◌≡◌, ◌⊎◌, ℕ, ◌+◌, ◌^◌, ◌<◌, ◌≤◌, max, not, ◌&&◌, ◌||◌, if◌then◌else◌, nat_lt, true, false, [], IsTrue, IsOk, IfOk, OnOk, OnErr, IfSome, IfNone, All, length};
ghost use Rattle.std.specs.List.{list_any};
ghost use Rattle.std.specs.BinaryHeap.{heap_items, heap_len, heap_capacity};
ghost use Rattle.indexmap.specs.IndexMap.{index_map_len, spare};
ghost use Rattle.indexmap.specs.IndexSet.{spare as set_spare};
ghost use Rattle.query_normal.specs.declared.key.KeyShape.{KeyShape as AKey};
ghost use Rattle.query_normal.specs.Keys.{same_key};
ghost use Rattle.issued_expiries.specs.Copies.{SameCopies, active_keys, is_active, latest_of, unexpired, with_copy};
ghost use Rattle.issued_expiries.specs.Expiries.{none_issued, is_idle, is_reserved};

use crate::held::{HeldKeys, expire, make_space, put};
use expiring_map::ExpiringMap;
use expiring_map::key_sets::{leave_out, take_all, take_one};
use indexmap::IndexSet;
use q_base::{Commit, Memory, Moment};
use query_normal::Key;
use std::alloc::Global;
use std::marker::Model;

/// The unexpired issued copies of keys, and the idle keys: how a cache server knows when no outdated copy
/// is left, as in Quaestor (Gessert et al., VLDB 2017).
#[derive(Drop)]
pub struct Expiries {
    alloc: Global,
    clock: u64,
    held: HeldKeys,
    idle: IndexSet<Key>,
}

impl Model for Expiries {
    ghost use Rattle.std.specs.Prelude.{◌+◌, ◌≤◌, length};
    ghost use Rattle.std.specs.Coded.{codes};
    ghost use Rattle.q_doc.specs.Code.{tree_code};
    ghost use Rattle.query_core.specs.Code.{filter_code};
    ghost use Rattle.indexmap.specs.IndexSet.{spare as set_spare};
    ghost use Rattle.q_base.specs.declared.moment.TheConstants.{GREATEST_SECONDS};
    ghost use Rattle.issued_expiries.specs.Entries.{IsSound, copies_in, held_of};
    ghost use Rattle.issued_expiries.specs.Expiries.{Issued};

    ghost Value = { Issued };

    ghost coded = { Prim.hlevel (codes, tree_code, filter_code) };

    ghost view = { λ e. record {
      clock = e.clock;
      held = held_of e.clock (copies_in e.held.entries);
      reserved = e.held.reserved;
      idle = e.idle.keys;
    } };

    ghost invariant = { λ e. record {
      capped : e.clock ≤ GREATEST_SECONDS;
      sound : IsSound e.clock e.held.entries e.held.reserved e.idle.keys;
      idle_space : length e.held.entries + length e.held.reserved ≤ set_spare e.idle;
    } };
}

impl Expiries {
    /// No copy is issued yet. It takes no memory.
    pub fn new(alloc: Global) -> Result<Expiries, Memory>
        ensures made { IsOk result }
        ensures empty { IfOk result (λ expiries. expiries ≡ none_issued) }
    {
        Ok(Expiries {
            alloc,
            clock: 0,
            held: ExpiringMap::new(alloc),
            idle: IndexSet::new(alloc),
        })
    }

    /// Reserves space for a copy of a key, so that one `issue` of it allocates nothing. Earlier
    /// reservations stay.
    pub fn reserve(&mut self, key: &Key) -> Result<(), Memory>
        ensures ok { OnOk result (IsTrue (is_reserved self.new key.now)) }
        ensures others { (other : AKey) → same_key key.now other ≡ false → is_reserved self.new other ≡ is_reserved self.old other }
        ensures rest { self.new ≡ record self.old { reserved = self.new.reserved } }
        ensures err { OnErr result (self.new ≡ self.old) }
    {
        if self.held.reserves(key) {
            return Ok(());
        }
        make_space(&mut self.held, self.alloc, key, self.clock)?;
        reserve_idle(&mut self.idle, self.held.len(), self.held.reserved())?;
        self.held.reserve(key)
    }

    /// Holds a copy of a reserved key at a commit until a second, if that is later than the clock. A
    /// held copy at the commit keeps the later of the two. It uses the reservation of the key up.
    pub fn issue(&mut self, key: &Key, commit: Commit, until: u64)
        requires reserved { IsTrue (is_reserved self.old key.now) }
        requires few { IsTrue (is_active self.old.held key.now) ⊎ (active_keys self.old.held < 1000000) }
        ensures held { SameCopies self.new.held (with_copy self.old.clock (key.now, commit, until) self.old.held) }
        ensures idle { (other : AKey) → is_idle self.new other ≡ (not (same_key key.now other && nat_lt self.old.clock until) && is_idle self.old other) }
        ensures reserved { (other : AKey) → is_reserved self.new other ≡ (not (same_key key.now other) && is_reserved self.old other) }
        ensures clock { self.new.clock ≡ self.old.clock }
    {
        if until <= self.clock {
            self.held.release(key);
            return;
        }
        leave_out(&mut self.idle, key);
        put(&mut self.held, self.alloc, key, commit, until);
    }

    /// Moves the clock forward to a moment. The copies that are not later expire, and each key of
    /// which none is left becomes idle.
    pub fn advance(&mut self, moment: Moment)
        ensures clock { self.new.clock ≡ max self.old.clock moment }
        ensures held { SameCopies self.new.held (unexpired self.new.clock self.old.held) }
        ensures idle { (key : AKey) → is_idle self.new key ≡ (is_idle self.old key || is_active self.old.held key && not (is_active self.new.held key)) }
        ensures reserved { self.new.reserved ≡ self.old.reserved }
    {
        let seconds = moment.seconds();
        if self.clock < seconds {
            self.clock = seconds;
            expire(&mut self.held, &mut self.idle, moment);
        }
    }

    /// The greatest moment so far.
    pub fn clock(&self) -> Moment
        ensures { result ≡ self.now.clock }
    {
        Moment::of(self.clock)
    }

    /// Whether the key has an unexpired copy.
    pub fn active(&self, key: &Key) -> bool
        ensures { result ≡ is_active self.now.held key.now }
    {
        self.held.contains(key)
    }

    /// The number of keys with an unexpired copy.
    pub fn active_count(&self) -> u32
        ensures count { result ≡ active_keys self.now.held }
        ensures few { result ≤ 1000000 }
        ensures unexpired { All (λ copy. self.now.clock < copy.2) self.now.held }
    {
        self.held.len() as u32
    }

    /// The greatest until of the unexpired copies of a key at or above a commit and below another, in
    /// logarithmic time.
    pub fn latest(&self, key: &Key, from: Commit, below: Commit) -> Option<u64>
        ensures { result ≡ latest_of self.now.held key.now from below }
    {
        match self.held.get(key) {
            Some(timed) => later_than(timed.value.greatest(from, below), self.clock),
            None => None,
        }
    }

    /// Returns an idle key, which is not idle any more.
    pub fn next_idle(&mut self) -> Option<Key>
        ensures some { IfSome result (λ key. IsTrue (is_idle self.old key)) }
        ensures inactive { IfSome result (λ key. is_active self.old.held key ≡ false) }
        ensures given { IfSome result (λ key. (other : AKey) → is_idle self.new other ≡ (not (same_key key other) && is_idle self.old other)) }
        ensures fewer { IfSome result (λ _. length self.new.idle + 1 ≡ length self.old.idle) }
        ensures none { IfNone result (self.old.idle ≡ []) }
        ensures left { IfNone result (self.new.idle ≡ []) }
        ensures rest { self.new ≡ record self.old { idle = self.new.idle } }
    {
        take_one(&mut self.idle)
    }

    /// Drops the idle keys.
    pub fn forget_idle(&mut self)
        ensures { self.new ≡ record self.old { idle = [] } }
    {
        take_all(&mut self.idle);
    }

    /// Drops the reservations that were not used.
    pub fn forget_reserved(&mut self)
        ensures { self.new ≡ record self.old { reserved = [] } }
    {
        self.held.forget_reserved();
    }
}

/// A second, if it is later than another.
fn later_than(until: u64, clock: u64) -> Option<u64>
    ensures { result ≡ (if nat_lt clock until then Some until else None) }
{
    if clock < until { Some(until) } else { None }
}

/// Reserves space among the idle keys for each held key, each reserved key and one more.
fn reserve_idle(idle: &mut IndexSet<Key>, held: usize, reserved: usize) -> Result<(), Memory>
    requires { reserved ≤ 2 ^ 63 }
    ensures keys { idle.new.keys ≡ idle.old.keys }
    ensures space { OnOk result (held + reserved + 1 ≤ set_spare idle.new) }
    ensures spare { set_spare idle.old ≤ set_spare idle.new }
{
    let keys = held.checked_add(reserved + 1).ok_or(Memory)?;
    idle.reserve(keys)?;
    Ok(())
}
