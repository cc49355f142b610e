//! The laws of lists of copies that answer every question alike, and of any list of calls.
ghost use Rattle.std.specs.Prelude.{◌≡◌, ◌↔◌, ℕ, List};
ghost use Rattle.query_normal.specs.declared.key.KeyShape.{KeyShape as AKey};
ghost use Rattle.issued_expiries.specs.Copies.{Copy, SameCopies, active_keys, is_active, latest_of, unexpired, until_at, with_copy};
ghost use Rattle.issued_expiries.specs.Events.{Event, EndsAs, clock_after, copies_of, went_idle};
ghost use Rattle.issued_expiries.specs.Expiries.{Issued, is_idle};

/// After any list of issues, advances and returned idle keys the clock is the greatest moment, and the
/// copies answer every question as the list of all unexpired issued copies does. The idle keys are
/// those that an advance made inactive, that are still inactive, and that were not returned since.
pub fn calls_leave_the_unexpired_copies()
    ensures clock { (events : List Event) (after : Issued) → EndsAs events after → after.clock ≡ clock_after events }
    ensures held { (events : List Event) (after : Issued) → EndsAs events after → SameCopies after.held (unexpired (clock_after events) (copies_of events)) }
    ensures idle { (events : List Event) (after : Issued) (key : AKey) → EndsAs events after → is_idle after key ≡ went_idle events key }
{}

/// Copies that have the same greatest until for every key and commits give the same answers.
pub fn same_copies_answer_alike()
    ensures active { (some others : List Copy) (key : AKey) → SameCopies some others → is_active some key ≡ is_active others key }
    ensures count { (some others : List Copy) → SameCopies some others → active_keys some ≡ active_keys others }
    ensures latest { (some others : List Copy) (key : AKey) (from below : ℕ) → SameCopies some others → latest_of some key from below ≡ latest_of others key from below }
{}

/// They do exactly where each key has the same greatest until at each commit.
pub fn same_copies_by_commit()
    ensures { (some others : List Copy) → SameCopies some others ↔ ((key : AKey) (commit : ℕ) → until_at some key commit ≡ until_at others key commit) }
{}

/// They still do with one copy more, and at a later clock.
pub fn same_copies_stay()
    ensures more { (some others : List Copy) (clock : ℕ) (copy : Copy) → SameCopies some others → SameCopies (with_copy clock copy some) (with_copy clock copy others) }
    ensures later { (some others : List Copy) (clock : ℕ) → SameCopies some others → SameCopies (unexpired clock some) (unexpired clock others) }
{}
