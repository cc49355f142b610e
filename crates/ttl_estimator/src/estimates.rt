//! The estimates of active keys.
ghost use Rattle.std.specs.Prelude.{◌≡◌, [], false, None, Some, not, ◌&&◌, if◌then◌else◌, is_some, IsTrue, OnOk, OnErr, option_map};
ghost use Rattle.std.specs.Map.{lookup};
ghost use Rattle.query_normal.specs.declared.key.KeyShape.{KeyShape as AKey};
ghost use Rattle.query_normal.specs.Keys.{same_key};
ghost use Rattle.ttl_estimator.specs.Estimates.{Keeps, after_issue, after_purge, is_known, kept_of};

use crate::limits::Limits;
use indexmap::IndexMap;
use q_base::{Memory, Moment};
use query_normal::Key;
use std::alloc::Global;
use std::marker::Model;

/// What is kept of an active key.
#[derive(Clone, Copy, Debug)]
pub struct Kept {
    /// The estimate of its lifetime in seconds.
    pub estimate: u32,
    /// The clock at its last issue.
    pub issued: u64,
}

/// What is kept of each active key. A key that is only reserved has nothing yet.
#[derive(Drop)]
pub struct Estimates {
    keys: IndexMap<Key, Option<Kept>>,
}

impl Model for Estimates {
    ghost use Rattle.std.specs.Coded.{codes};
    ghost use Rattle.q_doc.specs.Code.{tree_code};
    ghost use Rattle.query_core.specs.Code.{filter_code};
    ghost use Rattle.ttl_estimator.specs.Estimates.{Entries};

    ghost Value = { Entries };

    ghost coded = { Prim.hlevel (codes, tree_code, filter_code) };

    ghost view = { λ e. e.keys.entries };
}

impl Estimates {
    /// No key.
    pub fn new(alloc: Global) -> Estimates
        ensures { result ≡ [] }
    {
        Estimates {
            keys: IndexMap::new(alloc),
        }
    }

    /// Makes an entry for a key, if it has none.
    pub fn reserve(&mut self, key: &Key) -> Result<(), Memory>
        ensures known { OnOk result (IsTrue (is_known self.new key.now)) }
        ensures keeps { Keeps self.old self.new }
        ensures kept { (other : AKey) → kept_of self.new other ≡ kept_of self.old other }
        ensures others { (other : AKey) → same_key key.now other ≡ false → is_known self.new other ≡ is_known self.old other }
        ensures err { OnErr result (self.new ≡ self.old) }
    {
        if self.keys.contains_key(key) {
            return Ok(());
        }
        let key = key.clone()?;
        match self.keys.insert(key, None) {
            Ok(_) => Ok(()),
            Err(_) => Err(Memory),
        }
    }

    /// Notes an issue of a key that has an entry.
    pub fn note_issue(&mut self, key: &Key, ttl: u32, clock: u64)
        requires { IsTrue (is_known self.old key.now) }
        ensures kept { (other : AKey) → kept_of self.new other ≡ (if same_key key.now other then Some (after_issue ttl clock (kept_of self.old key.now)) else kept_of self.old other) }
        ensures known { (other : AKey) → is_known self.new other ≡ is_known self.old other }
    {
        match self.keys.get_mut(key) {
            Some(kept) => *kept = Some(issued(*kept, ttl, clock)),
            None => unreachable!(),
        }
    }

    /// Notes a purge of a key.
    pub fn note_purge(&mut self, limits: Limits, key: &Key, clock: Moment)
        ensures kept { (other : AKey) → kept_of self.new other ≡ (if same_key key.now other then option_map (after_purge limits clock) (kept_of self.old key.now) else kept_of self.old other) }
        ensures known { (other : AKey) → is_known self.new other ≡ is_known self.old other }
    {
        let Some(kept) = self.keys.get_mut(key) else {
            return;
        };
        *kept = purged(limits, *kept, clock);
    }

    /// Drops what is kept of a key. Its entry stays.
    pub fn note_idle(&mut self, key: &Key)
        ensures kept { (other : AKey) → kept_of self.new other ≡ (if same_key key.now other then None else kept_of self.old other) }
        ensures known { (other : AKey) → is_known self.new other ≡ is_known self.old other }
    {
        let Some(kept) = self.keys.get_mut(key) else {
            return;
        };
        *kept = None;
    }

    /// Drops the entry of a key of which nothing is kept.
    pub fn forget(&mut self, key: &Key)
        ensures kept { (other : AKey) → kept_of self.new other ≡ kept_of self.old other }
        ensures known { (other : AKey) → is_known self.new other ≡ (if same_key key.now other then is_some (kept_of self.old key.now) else is_known self.old other) }
    {
        if self.get(key).is_some() {
            return;
        }
        self.keys.swap_remove(key);
    }

    /// What is kept of a key.
    pub fn get(&self, key: &Key) -> Option<Kept>
        ensures { result ≡ kept_of self.now key.now }
    {
        match self.keys.get(key) {
            Some(kept) => *kept,
            None => None,
        }
    }
}

/// What is kept of a key after an issue.
fn issued(kept: Option<Kept>, ttl: u32, clock: u64) -> Kept
    ensures { result ≡ after_issue ttl clock kept }
{
    match kept {
        None => Kept {
            estimate: ttl,
            issued: clock,
        },
        Some(kept) => Kept {
            estimate: kept.estimate,
            issued: clock,
        },
    }
}

/// What is kept of a key after a purge.
fn purged(limits: Limits, kept: Option<Kept>, clock: Moment) -> Option<Kept>
    ensures { result ≡ option_map (after_purge limits clock) kept }
{
    match kept {
        None => None,
        Some(kept) => Some(Kept {
            estimate: mean(limits, kept, clock),
            issued: kept.issued,
        }),
    }
}

/// The mean of seven parts of the estimate and three parts of the time since the last issue.
fn mean(limits: Limits, kept: Kept, clock: Moment) -> u32
    ensures { result ≡ (after_purge limits clock kept).estimate }
{
    let passed = clock.seconds().saturating_sub(kept.issued);
    limits.within((7 * kept.estimate as u64 + 3 * passed) / 10)
}
