//! The law of any list of calls. It is the contract of an empty function.
ghost use Rattle.std.specs.Prelude.{◌≡◌, ℕ, ◌<◌, List, nat_lt, All};
ghost use Rattle.query_normal.specs.declared.key.KeyShape.{KeyShape as AKey};
ghost use Rattle.expiring_filter.specs.Events.{Event, EndsAs, clock_after, added_until, held_after, second_of};
ghost use Rattle.expiring_filter.specs.Filter.{Filter, is_held};

/// After any list of adds, removes and advances the held keys are those that were added, not removed
/// since, and whose greatest second since is above the greatest moment. Each is held until that second.
pub fn calls_leave_the_unexpired_keys()
    ensures held { (log2_bits hashes : ℕ) (events : List Event) (after : Filter) (key : AKey) → EndsAs log2_bits hashes events after → is_held after key ≡ nat_lt (clock_after events) (added_until events key) }
    ensures seconds { (log2_bits hashes : ℕ) (events : List Event) (after : Filter) (key : AKey) → EndsAs log2_bits hashes events after → second_of after.held key ≡ held_after events key }
{}
