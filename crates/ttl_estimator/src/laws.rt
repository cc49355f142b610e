//! What holds after any list of calls.
ghost use Rattle.std.specs.Prelude.{◌≡◌, ◌≤◌, ℕ, List};
ghost use Rattle.query_normal.specs.declared.key.KeyShape.{KeyShape as AKey};
ghost use Rattle.ttl_estimator.specs.declared.limits.Limits.{Limits as ALimits};
ghost use Rattle.ttl_estimator.specs.Calls.{Call, EndsAs, estimate_after, write_clocks};
ghost use Rattle.ttl_estimator.specs.Estimates.{kept_of};
ghost use Rattle.ttl_estimator.specs.Estimator.{Estimated, lifetime, rate_of};
ghost use Rattle.ttl_estimator.specs.History.{AreCallsOf, Entry, IsQueryKey, active_count_at, clock_after, is_active_at, kept_in, lifetime_in};
ghost use Rattle.ttl_estimator.specs.Rates.{last_eight, rate_at};

/// After any list of calls the rate of a record is that of its last eight accepted writes, and what is
/// kept of a key is what the issues, the purges and the idle keys of the list leave.
pub fn calls_leave_rates_and_estimates()
    ensures rates { (g : ALimits) (calls : List Call) (after : Estimated) (now : ℕ) (collection id : List ℕ) → EndsAs g calls after → rate_of after now collection id ≡ rate_at now (last_eight (write_clocks calls collection id)) }
    ensures estimates { (g : ALimits) (calls : List Call) (after : Estimated) (key : AKey) → EndsAs g calls after → kept_of after.keys key ≡ estimate_after g calls key }
    ensures limits { (g : ALimits) (calls : List Call) (after : Estimated) → EndsAs g calls after → after.limits ≡ g }
{}

/// Where the calls are those of a history, and a lifetime is asked for at a clock of it with its active
/// keys, the answer is the lifetime that the history gives. What is kept of the key of a query is its
/// estimate in the history, while it is active.
pub fn calls_of_a_history_give_its_lifetimes()
    ensures lifetimes { (g : ALimits) (h : List Entry) (calls : List Call) (after : Estimated) (key : AKey) (ids : List (List ℕ)) (clock : ℕ) → EndsAs g calls after → AreCallsOf h calls → clock_after h ≤ clock → lifetime after key ids clock (is_active_at clock h key) (active_count_at clock h) ≡ lifetime_in g h key ids clock }
    ensures estimates { (g : ALimits) (h : List Entry) (calls : List Call) (after : Estimated) (key : AKey) → IsQueryKey key → EndsAs g calls after → AreCallsOf h calls → kept_of after.keys key ≡ kept_in g h key }
{}
