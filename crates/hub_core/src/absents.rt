//! The copies of absent records, where the configuration bounds their lifetime: at most a quarter of the
//! places of active keys go to theirs.
ghost use Rattle.std.specs.Prelude.{◌≡◌, ◌+◌, ◌<◌, [], ◌∷◌, true, false, nat_lt, if◌then◌else◌, length, IsTrue, OnOk, OnErr};
ghost use Rattle.issued_expiries.specs.Copies.{SameCopies};
ghost use Rattle.issued_expiries.specs.Expiries.{is_reserved};
ghost use Rattle.hub_model.specs.Copies.{active_keys, is_active};
ghost use Rattle.hub_model.specs.Lifetime.{absent_ttl, estimated_ttl, is_absent, is_bounded, kept_for, of_absents, ttl_of};
ghost use Rattle.hub_model.specs.Setting.{IsWithinLimits};
ghost use Rattle.hub_model.specs.State.{State};
ghost use Rattle.hub_model.specs.Step.{has_read};
ghost use Rattle.hub_core.specs.Absents.{AreAbsents, HasAbsents, absents_of, tells_absence};

use crate::config::Config;
use crate::copies::Copies;
use hub_model::Outcome;
use issued_expiries::Expiries;
use q_base::{Commit, Memory, Moment};
use query_normal::Key;

/// Whether the lifetime of a reply with this outcome is bounded.
pub fn is_bounded(copies: &Copies, outcome: &Outcome) -> bool
    ensures { result ≡ is_bounded copies.now.setting (tells_absence outcome.now) }
{
    match outcome {
        Outcome::Absent => copies.config().ttl_absent() > 0,
        Outcome::Whole { .. } => false,
        Outcome::Same { .. } => false,
    }
}

/// Reserves memory for a copy of an absent record, where its lifetime is bounded.
pub fn reserve_absent(absents: &mut Expiries, key: &Key, bounded: bool) -> Result<(), Memory>
    ensures ok { OnOk result (bounded ≡ true → IsTrue (is_reserved absents.new key.now)) }
    ensures unbounded { bounded ≡ false → absents.new ≡ absents.old }
    ensures rest { absents.new ≡ record absents.old { reserved = absents.new.reserved } }
    ensures err { OnErr result (absents.new ≡ absents.old) }
{
    if bounded {
        return absents.reserve(key);
    }
    Ok(())
}

/// The lifetime of a reply for a key at the clock of the copies. Where it is bounded, the copy is issued
/// among those of absent records, for which memory is ready. It takes no memory.
pub fn bound(
    absents: &mut Expiries,
    copies: &Copies,
    key: &Key,
    commit: Commit,
    estimated: u32,
    bounded: bool,
) -> u32
    requires reserved { bounded ≡ true → IsTrue (is_reserved absents.old key.now) }
    requires alone { bounded ≡ false → absents.old.reserved ≡ [] }
    requires idle { absents.old.idle ≡ [] }
    ensures ttl { (t : State) → copies.now.clock ≡ t.clock → HasAbsents copies.now.setting absents.old t → bounded ≡ is_bounded copies.now.setting (is_absent t key.now commit) → estimated ≡ estimated_ttl copies.now.setting t key.now commit → result ≡ ttl_of copies.now.setting t key.now commit }
    ensures absents { (t : State) → copies.now.clock ≡ t.clock → HasAbsents copies.now.setting absents.old t → bounded ≡ is_bounded copies.now.setting (is_absent t key.now commit) → estimated ≡ estimated_ttl copies.now.setting t key.now commit → HasAbsents copies.now.setting absents.new (has_read copies.now.setting key.now commit t) }
    ensures some { 0 < result → 0 < estimated }
    ensures idle { absents.new.idle ≡ [] }
    ensures ready { absents.new.reserved ≡ [] }
{
    if bounded {
        let config = copies.config();
        return issue_absent(absents, config, key, commit, copies.clock(), estimated);
    }
    estimated
}

/// Issues the copy of an absent record at a clock, where its key gets a place; its lifetime.
fn issue_absent(
    absents: &mut Expiries,
    config: &Config,
    key: &Key,
    commit: Commit,
    clock: Moment,
    estimated: u32,
) -> u32
    requires { IsTrue (is_reserved absents.old key.now) }
    ensures ttl { (t : State) → clock ≡ t.clock → AreAbsents absents.old t → result ≡ absent_ttl config.now (is_active (of_absents t) key.now) (length (active_keys (of_absents t))) estimated }
    ensures copies { (t : State) → clock ≡ t.clock → AreAbsents absents.old t → (absents.new.clock ≡ t.clock) × SameCopies absents.new.held (if nat_lt 0 result then (key.now, commit, clock + kept_for config.now result) ∷ absents_of t else absents_of t) }
    ensures some { 0 < result → 0 < estimated }
    ensures idle { absents.new.idle ≡ [] }
    ensures ready { absents.new.reserved ≡ [] }
{
    absents.advance(clock);
    let active = absents.active(key);
    let count = absents.active_count();
    let ttl = absent_ttl(config, active, count, estimated);
    if ttl == 0 {
        absents.forget_reserved();
        absents.forget_idle();
        return 0;
    }
    let until = clock.seconds() + config.kept_for(ttl) as u64;
    absents.issue(key, commit, until);
    release(absents);
    ttl
}

/// Gives back what was reserved, and forgets which keys expired.
fn release(absents: &mut Expiries)
    ensures { absents.new ≡ record absents.old { reserved = []; idle = [] } }
{
    absents.forget_reserved();
    absents.forget_idle();
}

/// The lifetime of a reply that tells of no record, whether its key has an unexpired copy that tells so, how
/// many keys have one, and what it were else.
fn absent_ttl(config: &Config, active: bool, count: u32, estimated: u32) -> u32
    ensures same { result ≡ absent_ttl config.now active count estimated }
    ensures within { IsWithinLimits config.now }
{
    let most = config.active();
    if !active && 4 * (u64::from(count) + 1) > u64::from(most) {
        return 0;
    }
    estimated.min(config.ttl_absent())
}
