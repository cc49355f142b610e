//! The estimator of lifetimes.
ghost use Rattle.std.specs.Prelude.{◌≡◌, ◌<◌, [], ◌∷◌, ◌++◌, List, ℕ, false, None, Some, not, ◌&&◌, if◌then◌else◌, bytes_eq, is_some, IsTrue, IfOk, OnOk, OnErr, map, min, option_map, unwrap_or};
ghost use Rattle.query_normal.specs.declared.key.KeyShape.{KeyShape as AKey};
ghost use Rattle.query_normal.specs.Keys.{same_key};
ghost use Rattle.ttl_estimator.specs.Estimates.{Keeps, after_issue, after_purge, is_known, kept_of};
ghost use Rattle.ttl_estimator.specs.Estimator.{estimate_of, has_record, lifetime, none_noted, rate_of, rates_of};
ghost use Rattle.ttl_estimator.specs.Lifetime.{is_refused, poisson};
ghost use Rattle.ttl_estimator.specs.Rates.{last_eight};
ghost use Rattle.ttl_estimator.specs.Records.{ExtendsAll, KeepOthers, clocks_of, entry_of};

use crate::estimates::Estimates;
use crate::limits::Limits;
use crate::records::Records;
use q_base::{Memory, Moment, Name};
use query_core::Row;
use query_normal::{Key, KeyShape};
use std::alloc::Global;
use std::marker::Model;

/// The last writes of each record, and an estimate for each active key. All moments are values of the
/// clock of one history.
#[derive(Drop)]
pub struct Estimator {
    limits: Limits,
    records: Records,
    keys: Estimates,
}

impl Model for Estimator {
    ghost use Rattle.std.specs.Coded.{codes};
    ghost use Rattle.q_doc.specs.Code.{tree_code};
    ghost use Rattle.query_core.specs.Code.{filter_code};
    ghost use Rattle.ttl_estimator.specs.Estimator.{Estimated};

    ghost Value = { Estimated };

    ghost coded = { Prim.hlevel (codes, tree_code, filter_code) };

    ghost view = { λ e. record { limits = e.limits; records = e.records; keys = e.keys } };
}

impl Estimator {
    /// Nothing is noted yet. It takes no memory.
    pub fn new(alloc: Global, limits: Limits) -> Estimator
        ensures { result ≡ none_noted limits }
    {
        Estimator {
            limits,
            records: Records::new(alloc),
            keys: Estimates::new(alloc),
        }
    }

    /// Makes an entry for a key, if it has none, so that `note_issue` of it takes no memory until
    /// `forget`.
    pub fn reserve(&mut self, key: &Key) -> Result<(), Memory>
        ensures known { OnOk result (IsTrue (is_known self.new.keys key.now)) }
        ensures keeps { Keeps self.old.keys self.new.keys }
        ensures kept { (other : AKey) → kept_of self.new.keys other ≡ kept_of self.old.keys other }
        ensures others { (other : AKey) → same_key key.now other ≡ false → is_known self.new.keys other ≡ is_known self.old.keys other }
        ensures rest { self.new ≡ record self.old { keys = self.new.keys } }
        ensures err { OnErr result (self.new ≡ self.old) }
    {
        self.keys.reserve(key)
    }

    /// Makes an entry for a record, if it has none, so that each `note_write` of it takes no memory.
    pub fn reserve_record(&mut self, collection: &Name, id: &Name) -> Result<(), Memory>
        ensures known { OnOk result (IsTrue (has_record self.new collection.now id.now)) }
        ensures extends { ExtendsAll self.old.records self.new.records }
        ensures others { KeepOthers collection.now id.now self.old.records self.new.records }
        ensures rest { self.new ≡ record self.old { records = self.new.records } }
        ensures err { OnErr result (self.new ≡ self.old) }
    {
        self.records.reserve(collection, id)
    }

    /// Notes an accepted write of a record that has an entry; a deletion is a write too.
    pub fn note_write(&mut self, collection: &Name, id: &Name, moment: Moment)
        requires { IsTrue (has_record self.old collection.now id.now) }
        ensures written { (c i : List ℕ) → entry_of self.new.records c i ≡ (if bytes_eq collection.now c && bytes_eq id.now i then Some (last_eight (clocks_of self.old.records collection.now id.now ++ moment ∷ [])) else entry_of self.old.records c i) }
        ensures rest { self.new ≡ record self.old { records = self.new.records } }
    {
        self.records.note(collection, id, moment.seconds());
    }

    /// Notes an issue of a key that has an entry, for a lifetime above 0. The lifetime is the key's
    /// estimate where it has none.
    pub fn note_issue(&mut self, key: &Key, ttl: u32, clock: Moment)
        requires known { IsTrue (is_known self.old.keys key.now) }
        ensures kept { (other : AKey) → kept_of self.new.keys other ≡ (if same_key key.now other then Some (after_issue ttl clock (kept_of self.old.keys key.now)) else kept_of self.old.keys other) }
        ensures known { (other : AKey) → is_known self.new.keys other ≡ is_known self.old.keys other }
        ensures rest { self.new ≡ record self.old { keys = self.new.keys } }
    {
        self.keys.note_issue(key, ttl, clock.seconds());
    }

    /// Notes a purge of a key.
    pub fn note_outdated(&mut self, key: &Key, moment: Moment)
        ensures kept { (other : AKey) → kept_of self.new.keys other ≡ (if same_key key.now other then option_map (after_purge self.old.limits moment) (kept_of self.old.keys key.now) else kept_of self.old.keys other) }
        ensures known { (other : AKey) → is_known self.new.keys other ≡ is_known self.old.keys other }
        ensures rest { self.new ≡ record self.old { keys = self.new.keys } }
    {
        self.keys.note_purge(self.limits, key, moment);
    }

    /// Drops what is kept of a key that is no longer active. Its entry stays, so that a key that was
    /// reserved before it became idle can be issued.
    pub fn note_idle(&mut self, key: &Key)
        ensures kept { (other : AKey) → kept_of self.new.keys other ≡ (if same_key key.now other then None else kept_of self.old.keys other) }
        ensures known { (other : AKey) → is_known self.new.keys other ≡ is_known self.old.keys other }
        ensures rest { self.new ≡ record self.old { keys = self.new.keys } }
    {
        self.keys.note_idle(key);
    }

    /// Drops the entry of a key of which nothing is kept, as of one that became idle, or that was
    /// reserved and not issued.
    pub fn forget(&mut self, key: &Key)
        ensures kept { (other : AKey) → kept_of self.new.keys other ≡ kept_of self.old.keys other }
        ensures known { (other : AKey) → is_known self.new.keys other ≡ (if same_key key.now other then is_some (kept_of self.old.keys key.now) else is_known self.old.keys other) }
        ensures rest { self.new ≡ record self.old { keys = self.new.keys } }
    {
        self.keys.forget(key);
    }

    /// For how many seconds a reply for a key may be kept. The caller says whether the key is active and
    /// how many keys are, without the issue of this reply. The window has the records that the query of
    /// the key finds; it is not looked at for the key of a record, nor while the key is active.
    pub fn ttl(
        &self,
        key: &Key,
        window: &[Row],
        clock: Moment,
        active: bool,
        active_count: u32,
    ) -> u32
        ensures { result ≡ lifetime self.now key.now (map (λ row. row.0) window.now) clock active active_count }
    {
        if self.is_refused(active, active_count) {
            return 0;
        }
        match key.shape() {
            KeyShape::Record { collection, id } => self.record_ttl(collection, id, clock),
            KeyShape::Query { normal, .. } => {
                if active {
                    return self.estimate(key);
                }
                self.query_ttl(&normal.query().collection, window, clock)
            }
        }
    }

    /// The lifetime by the rate of one record.
    fn record_ttl(&self, collection: &Name, id: &Name, clock: Moment) -> u32
        ensures { result ≡ poisson self.now.limits (rate_of self.now clock collection.now id.now) }
    {
        let rate = self.records.rate(collection, id, clock.seconds());
        self.limits.poisson(rate)
    }

    /// The lifetime by the rates of several records.
    fn query_ttl(&self, collection: &Name, window: &[Row], clock: Moment) -> u32
        ensures { result ≡ poisson self.now.limits (rates_of self.now clock collection.now (map (λ row. row.0) window.now)) }
    {
        let rates = self.rates(collection, window, clock.seconds());
        self.limits.poisson(rates)
    }

    /// Whether no further key may be active, and this one is not.
    fn is_refused(&self, active: bool, active_count: u32) -> bool
        ensures { result ≡ is_refused self.now.limits active active_count }
    {
        !active && self.limits.active <= active_count
    }

    /// The estimate of a key, or 0 where it has none.
    fn estimate(&self, key: &Key) -> u32
        ensures { result ≡ estimate_of self.now key.now }
    {
        match self.keys.get(key) {
            Some(kept) => kept.estimate,
            None => 0,
        }
    }

    /// The sum of the rates of records, or the greatest number where the sum is above it.
    fn rates(&self, collection: &Name, window: &[Row], now: u64) -> u64
        ensures { result ≡ min 18446744073709551615 (rates_of self.now now collection.now (map (λ row. row.0) window.now)) }
    {
        let mut sum = 0u64;
        for row in window {
            sum = sum.saturating_add(self.records.rate(collection, &row.0, now));
        }
        sum
    }
}
