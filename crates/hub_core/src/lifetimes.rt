//! What the lifetimes of replies and the purges rest on, beside the copies.
ghost use Rattle.std.specs.Prelude.{◌≡◌, ◌++◌, ◌<◌, ◌≤◌, ℕ, [], map, length, max, None, Some, not, ◌&&◌, if◌then◌else◌, nat_lt, true, IsTrue, is_some, option_map};
ghost use Rattle.std.specs.List.{list_any, IsDistinct};
ghost use Rattle.query_normal.specs.declared.key.KeyShape.{KeyShape as AKey};
ghost use Rattle.query_normal.specs.Keys.{key_text, same_key};
ghost use Rattle.issued_expiries.specs.Expiries.{none_issued};
ghost use Rattle.ttl_estimator.specs.Estimates.{after_issue, after_purge, is_known, kept_of};
ghost use Rattle.ttl_estimator.specs.Estimator.{none_noted};
ghost use Rattle.purge_list.specs.LastChanges.{change_of, is_known as has_change};
ghost use Rattle.hub_model.specs.Lifetime.{limits_of};
ghost use Rattle.hub_core.specs.ActiveQueries.{is_query};
ghost use Rattle.hub_core.specs.Invalidations.{raised_by};
ghost use Rattle.hub_core.specs.Lifetimes.{Drops, kept_while};

use crate::config::Config;
use crate::invalidations::Invalidation;
use issued_expiries::Expiries;
use purge_list::{LastChanges, Purges};
use q_base::{Memory, Moment};
use query_normal::{Key, KeyShape};
use std::alloc::Global;
use ttl_estimator::{Estimator, Limits};

/// The writes of records and the estimates of active queries, the last change of each active key that a
/// match outdated, the purged keys, and the copies of absent records, where their lifetime is bounded.
#[derive(Drop)]
pub struct Lifetimes {
    pub estimator: Estimator,
    pub changes: LastChanges,
    pub purges: Purges,
    pub absents: Expiries,
}

impl Lifetimes {
    /// Nothing is known yet. It takes no memory.
    pub fn new(alloc: Global, config: &Config) -> Lifetimes
        ensures estimator { result.estimator ≡ none_noted (limits_of config.now) }
        ensures changes { result.changes ≡ [] }
        ensures purges { result.purges.texts ≡ [] }
        ensures absents { result.absents ≡ none_issued }
    {
        let limits = Limits {
            low: config.ttl_low(),
            high: config.ttl_high(),
            active: config.active(),
        };
        Lifetimes {
            estimator: Estimator::new(alloc, limits),
            changes: LastChanges::new(alloc),
            purges: Purges::new(alloc),
            absents: none_issued(alloc),
        }
    }

    /// Drops what is kept of a key that is no longer active.
    pub fn drop_key(&mut self, key: &Key)
        ensures { Drops (same_key key.now) self.old self.new }
    {
        self.estimator.note_idle(key);
        self.estimator.forget(key);
        self.changes.forget(key);
    }
}

/// No copy is issued.
fn none_issued(alloc: Global) -> Expiries
    ensures { result ≡ none_issued }
{
    match Expiries::new(alloc) {
        Ok(expiries) => expiries,
        Err(Memory) => unreachable!(),
    }
}

/// Notes the read of a key, and whether the key was active before it. Of a query it keeps the estimate of
/// an active key, and starts that of another with the lifetime of the reply, unless that is 0. A query's key
/// has an entry. It takes no memory.
pub fn note_read(estimator: &mut Estimator, key: &Key, active: bool, ttl: u32, clock: Moment)
    requires { is_query key.now ≡ true → IsTrue (is_known estimator.old.keys key.now) }
    ensures kept { (other : AKey) → kept_of estimator.new.keys other ≡ (if same_key key.now other && is_query key.now then (if nat_lt 0 ttl then Some (after_issue ttl clock (kept_while active (kept_of estimator.old.keys key.now))) else kept_while active (kept_of estimator.old.keys key.now)) else kept_of estimator.old.keys other) }
    ensures known { (other : AKey) → is_known estimator.new.keys other ≡ (if same_key key.now other && is_query key.now then is_some (kept_of estimator.new.keys key.now) else is_known estimator.old.keys other) }
    ensures rest { estimator.new ≡ record estimator.old { keys = estimator.new.keys } }
{
    match key.shape() {
        KeyShape::Record { .. } => {}
        KeyShape::Query { .. } => {
            keep_while(estimator, key, active);
            note_copy(estimator, key, ttl, clock);
        }
    }
}

/// Drops the estimate of a key, unless the key is active.
fn keep_while(estimator: &mut Estimator, key: &Key, active: bool)
    ensures kept { (other : AKey) → kept_of estimator.new.keys other ≡ (if same_key key.now other then kept_while active (kept_of estimator.old.keys key.now) else kept_of estimator.old.keys other) }
    ensures known { (other : AKey) → is_known estimator.new.keys other ≡ is_known estimator.old.keys other }
    ensures rest { estimator.new ≡ record estimator.old { keys = estimator.new.keys } }
{
    if active {
        return;
    }
    estimator.note_idle(key);
}

/// Notes the copy of a key that has an entry, or drops the entry where there is no copy and no estimate.
fn note_copy(estimator: &mut Estimator, key: &Key, ttl: u32, clock: Moment)
    requires { IsTrue (is_known estimator.old.keys key.now) }
    ensures kept { (other : AKey) → kept_of estimator.new.keys other ≡ (if same_key key.now other && nat_lt 0 ttl then Some (after_issue ttl clock (kept_of estimator.old.keys key.now)) else kept_of estimator.old.keys other) }
    ensures known { (other : AKey) → is_known estimator.new.keys other ≡ (if same_key key.now other then is_some (kept_of estimator.new.keys key.now) else is_known estimator.old.keys other) }
    ensures rest { estimator.new ≡ record estimator.old { keys = estimator.new.keys } }
{
    if ttl == 0 {
        estimator.forget(key);
        return;
    }
    estimator.note_issue(key, ttl, clock);
}

/// Notes the purges of a match, by keys of which each is given once. There must be room for them. It takes
/// no memory.
pub fn note_purges(life: &mut Lifetimes, keys: Vec<Key>, clock: Moment)
    requires room { length keys.items ≤ life.old.purges.spare }
    requires once { IsDistinct same_key keys.items }
    ensures texts { life.new.purges.texts ≡ life.old.purges.texts ++ map key_text keys.items }
    ensures kept { (key : AKey) → kept_of life.new.estimator.keys key ≡ (if list_any (same_key key) keys.items then option_map (after_purge life.old.estimator.limits clock) (kept_of life.old.estimator.keys key) else kept_of life.old.estimator.keys key) }
    ensures known { (key : AKey) → is_known life.new.estimator.keys key ≡ is_known life.old.estimator.keys key }
    ensures rest { life.new ≡ record life.old { estimator = record life.old.estimator { keys = life.new.estimator.keys }; purges = life.new.purges } }
{
    note_outdated(&mut life.estimator, &keys, clock);
    push_all(&mut life.purges, keys);
}

/// Lets the estimates of purged keys learn, of which each is given once. It takes no memory.
fn note_outdated(estimator: &mut Estimator, keys: &[Key], clock: Moment)
    requires { IsDistinct same_key keys.now }
    ensures kept { (key : AKey) → kept_of estimator.new.keys key ≡ (if list_any (same_key key) keys.now then option_map (after_purge estimator.old.limits clock) (kept_of estimator.old.keys key) else kept_of estimator.old.keys key) }
    ensures known { (key : AKey) → is_known estimator.new.keys key ≡ is_known estimator.old.keys key }
    ensures rest { estimator.new ≡ record estimator.old { keys = estimator.new.keys } }
{
    for key in keys {
        estimator.note_outdated(key, clock);
    }
}

/// Numbers purged keys. There must be room for them. It takes no memory.
fn push_all(purges: &mut Purges, keys: Vec<Key>)
    requires { length keys.items ≤ purges.old.spare }
    ensures { purges.new.texts ≡ purges.old.texts ++ map key_text keys.items }
{
    for key in keys {
        purges.push(key);
    }
}

/// Notes the last changes of the keys that have an entry. It takes no memory.
pub fn raise_all(changes: &mut LastChanges, invalidations: &[Invalidation])
    ensures changes { (key : AKey) → change_of changes.new key ≡ (if has_change changes.old key then max (change_of changes.old key) (raised_by key invalidations.now) else change_of changes.old key) }
    ensures known { (key : AKey) → has_change changes.new key ≡ has_change changes.old key }
{
    for invalidation in invalidations {
        changes.raise(&invalidation.key, invalidation.commit);
    }
}
