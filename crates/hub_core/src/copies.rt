//! The issued copies, and the keys of those that are outdated.
ghost use Rattle.std.specs.Prelude.{◌≡◌, ◌+◌, ◌*◌, ◌^◌, ◌<◌, max, ◌∷◌, [], not, ◌&&◌, ◌||◌, if◌then◌else◌, nat_le, nat_lt, length, IsTrue, true, false, unwrap_or, IfSome, IfNone, IfOk, OnOk, OnErr};
ghost use Rattle.issued_expiries.specs.Copies.{SameCopies, active_keys, is_active, latest_of};
ghost use Rattle.query_normal.specs.Bits.{flat_bits};
ghost use Rattle.query_normal.specs.Keys.{same_key};
ghost use Rattle.query_normal.specs.declared.key.KeyShape.{KeyShape as AKey};
ghost use Rattle.hub_model.specs.Lifetime.{kept_for, shared_of};
ghost use Rattle.hub_model.specs.Record.{bits_of};
ghost use Rattle.hub_core.specs.CopiesView.{no_copies, may_issue, until_in, until_below, is_idle, is_invalidated, invalidated_keys, AreInvalidated, IsReadyFor, Passes, IsInvalidationReserved, CanInvalidate};

use crate::config::Config;
use expiring_filter::CountingFilter;
use issued_expiries::Expiries;
use q_base::{Commit, Memory, Moment};
use query_normal::Key;
use std::alloc::Global;
use std::marker::Model;

/// The unexpired copies, and the keys that have an outdated one, under one clock.
#[derive(Drop)]
pub struct Copies {
    config: Config,
    issued: Expiries,
    outdated: CountingFilter,
}

impl Model for Copies {
    ghost use Rattle.std.specs.Coded.{codes};
    ghost use Rattle.q_doc.specs.Code.{tree_code};
    ghost use Rattle.query_core.specs.Code.{filter_code};
    ghost use Rattle.hub_core.specs.CopiesView.{CopiesView, IsSound};

    ghost Value = { CopiesView };

    ghost coded = { Prim.hlevel (codes, tree_code, filter_code) };

    ghost view = { λ c. record {
      setting = c.config;
      clock = c.issued.clock;
      copies = c.issued.held;
      outdated = c.outdated.held;
      idle = c.issued.idle;
      ready = c.issued.reserved;
      invalidatable = c.outdated.reserved;
    } };

    ghost invariant = { λ c. IsSound c.config c.issued c.outdated };
}

impl Copies {
    /// No copy.
    pub fn new(alloc: Global, config: Config) -> Result<Copies, Memory>
        ensures { IfOk result (λ c. c ≡ no_copies config) }
    {
        let issued = Expiries::new(alloc)?;
        let outdated = CountingFilter::new(alloc, config.log2_bits(), config.hashes())?;
        Ok(Copies {
            config,
            issued,
            outdated,
        })
    }

    /// The configuration.
    pub fn config(&self) -> &Config
        ensures { result.now ≡ self.now.setting }
    {
        &self.config
    }

    /// For how many seconds shared caches may keep a reply of this lifetime, or 0 where nothing is said.
    pub fn shared_of(&self, ttl: u32) -> u32
        ensures { result ≡ shared_of self.now.setting ttl }
    {
        self.config.shared_of(ttl)
    }

    /// For how many seconds some cache may keep a reply of this lifetime.
    pub fn kept_for(&self, ttl: u32) -> u32
        ensures { result ≡ kept_for self.now.setting ttl }
    {
        self.config.kept_for(ttl)
    }

    /// The greatest moment so far.
    pub fn clock(&self) -> Moment
        ensures { result ≡ self.now.clock }
    {
        self.issued.clock()
    }

    /// The clock after an entry of a moment.
    pub fn clock_at(&self, moment: Moment) -> Moment
        ensures { result ≡ max self.now.clock moment }
    {
        if self.has_reached(moment) {
            self.clock()
        } else {
            moment
        }
    }

    /// Whether the clock has reached a moment, so that nothing passes until then.
    pub fn has_reached(&self, moment: Moment) -> bool
        ensures reached { result ≡ nat_le moment self.now.clock }
        ensures passes { result ≡ true → Passes moment self.now self.now }
    {
        moment.seconds() <= self.issued.clock().seconds()
    }

    /// Moves the clock forward to a moment, and drops what expires. The keys of which no copy is left
    /// become idle.
    pub fn advance(&mut self, moment: Moment)
        ensures passes { Passes moment self.old self.new }
        ensures idle { (key : AKey) → is_idle self.new key ≡ (is_idle self.old key || is_active self.old.copies key && not (is_active self.new.copies key)) }
    {
        self.issued.advance(moment);
        let clock = self.issued.clock();
        self.outdated.advance(clock);
    }

    /// Gives an idle key, which is not idle any more.
    pub fn next_idle(&mut self) -> Option<Key>
        ensures some { IfSome result (λ key. IsTrue (is_idle self.old key)) }
        ensures inactive { IfSome result (λ key. is_active self.old.copies key ≡ false) }
        ensures given { IfSome result (λ key. (other : AKey) → is_idle self.new other ≡ (not (same_key key other) && is_idle self.old other)) }
        ensures fewer { IfSome result (λ _. length self.new.idle + 1 ≡ length self.old.idle) }
        ensures none { IfNone result (self.old.idle ≡ []) }
        ensures left { IfNone result (self.new.idle ≡ []) }
        ensures rest { self.new ≡ record self.old { idle = self.new.idle } }
    {
        self.issued.next_idle()
    }

    /// Reserves memory for a copy of a key.
    pub fn reserve(&mut self, key: &Key) -> Result<(), Memory>
        requires { self.old.ready ≡ [] }
        ensures ok { OnOk result (IsReadyFor self.new key.now) }
        ensures err { OnErr result (self.new ≡ self.old) }
        ensures rest { self.new ≡ record self.old { ready = self.new.ready } }
    {
        self.issued.reserve(key)
    }

    /// Whether a key has an unexpired copy.
    pub fn is_active(&self, key: &Key) -> bool
        ensures { result ≡ is_active self.now.copies key.now }
    {
        self.issued.active(key)
    }

    /// The number of keys that have an unexpired copy.
    pub fn active_count(&self) -> u32
        ensures { result ≡ active_keys self.now.copies }
    {
        self.issued.active_count()
    }

    /// Until when the last copy of a key of a commit from one on and below another may be kept, or 0 without
    /// one.
    pub fn latest_until(&self, key: &Key, from: Commit, below: Commit) -> u64
        ensures { result ≡ unwrap_or (latest_of self.now.copies key.now from below) 0 }
    {
        self.issued.latest(key, from, below).unwrap_or(0)
    }

    /// Issues a copy of a key for a lifetime, and none where that is 0. It is kept for as long as some cache
    /// may keep it. The key is not ready any more.
    pub fn issue(&mut self, key: &Key, commit: Commit, ttl: u32)
        requires ready { IsReadyFor self.old key.now }
        requires allowed { 0 < ttl → IsTrue (may_issue self.old key.now) }
        ensures copies { SameCopies self.new.copies (if nat_lt 0 ttl then (key.now, commit, self.old.clock + kept_for self.old.setting ttl) ∷ self.old.copies else self.old.copies) }
        ensures ready { self.new.ready ≡ [] }
        ensures idle { (other : AKey) → is_idle self.new other ≡ (not (same_key key.now other && nat_lt 0 ttl) && is_idle self.old other) }
        ensures rest { self.new ≡ record self.old { copies = self.new.copies; idle = self.new.idle; ready = self.new.ready } }
    {
        if ttl == 0 {
            self.issued.forget_reserved();
            return;
        }
        let until = self.issued.clock().seconds() + self.config.kept_for(ttl) as u64;
        self.issued.issue(key, commit, until);
    }

    /// Gives back what was reserved for a copy that is not issued.
    pub fn forget_reserved(&mut self)
        ensures { self.new ≡ record self.old { ready = [] } }
    {
        self.issued.forget_reserved();
    }

    /// Reserves memory to invalidate a key.
    pub fn reserve_invalidation(&mut self, key: &Key) -> Result<(), Memory>
        ensures ok { OnOk result (IsInvalidationReserved self.new key.now) }
        ensures others { (other : AKey) → IsInvalidationReserved self.old other → IsInvalidationReserved self.new other }
        ensures rest { self.new ≡ record self.old { invalidatable = self.new.invalidatable } }
    {
        if self.issued.active(key) {
            self.outdated.reserve(key)?;
        }
        Ok(())
    }

    /// Invalidates a key as long as its copies of commits below one may be kept.
    pub fn invalidate(&mut self, key: &Key, below: Commit)
        requires { CanInvalidate self.old key.now }
        ensures outdated { (other : AKey) → until_in self.new.outdated other ≡ max (until_in self.old.outdated other) (if same_key other key.now then until_below self.old.copies key.now below else 0) }
        ensures still { (other : AKey) → CanInvalidate self.old other → CanInvalidate self.new other }
        ensures rest { self.new ≡ record self.old { outdated = self.new.outdated; invalidatable = self.new.invalidatable } }
    {
        if let Some(until) = self.issued.latest(key, 0, below) {
            self.outdated.add(key, until);
        }
    }

    /// Gives back what was reserved for invalidations and not used.
    pub fn forget_invalidations(&mut self)
        ensures { self.new ≡ record self.old { invalidatable = [] } }
    {
        self.outdated.forget_reserved();
    }

    /// Whether a key is invalidated.
    pub fn is_invalidated(&self, key: &Key) -> bool
        ensures { result ≡ is_invalidated self.now key.now }
    {
        self.outdated.holds(key)
    }

    /// The number of invalidated keys.
    pub fn invalidated_count(&self) -> u32
        ensures count { result ≡ length (invalidated_keys self.now) }
        ensures keys { AreInvalidated self.now }
    {
        self.outdated.keys()
    }

    /// The bits of the invalidated keys.
    pub fn bits(&self) -> &[u8]
        ensures bits { flat_bits result.now ≡ bits_of (invalidated_keys self.now) self.now.setting.log2_bits self.now.setting.hashes }
        ensures keys { AreInvalidated self.now }
        ensures len { 8 * length result.now ≡ 2 ^ self.now.setting.log2_bits }
    {
        self.outdated.bits()
    }
}
