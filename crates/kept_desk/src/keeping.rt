//! Who keeps the commits that one desk makes and shows.
ghost use Rattle.std.specs.Prelude.{◌≡◌, ℕ, ◌+◌, Bool, true, false, IfSome, OnOk, OnErr};

use hub_desk::{Change, Unkept};
use q_base::{Commit, Memory, Moment};

/// Who keeps the commits that one desk makes and shows.
pub trait Keeping {
    /// Where commits are kept.
    type Log;

    /// Where this one keeps them, which no call changes.
    ghost log: { Self → Self.Log };

    /// So many commits of the store are kept: no crash takes them back. One who keeps none says nothing.
    ghost keeps: { Self → ℕ → Type 0 };

    /// For how long caches may keep a reply, in seconds, of those that are heard of.
    ghost longest: { Self → ℕ };

    /// A reply was heard of that caches may keep until this moment. One who keeps nothing says nothing.
    ghost asks: { Self → ℕ → Type 0 };

    /// A moment later than this one is kept: no crash takes it back. One who keeps none says nothing.
    ghost covers: { Self → ℕ → Type 0 };

    /// There may be no memory for a record, and what is to be kept may be impossible to keep.
    ghost may_fail: { Self → Bool };

    /// Makes the record of a change that is about to be written.
    fn prepare(&mut self, change: &Change) -> Result<(), Memory>
        ensures failing { OnErr result (may_fail self.old ≡ true) }
        ensures asked { (until : ℕ) → asks self.old until → asks self.new until }
        ensures longest { longest self.new ≡ longest self.old }
        ensures log { log self.new ≡ log self.old }
        ensures same { may_fail self.new ≡ may_fail self.old };

    /// Takes the record of the change that was prepared last, which became this commit. Commits are taken in
    /// the order of their numbers.
    fn take(&mut self, commit: Commit, clock: Moment)
        ensures asked { (until : ℕ) → asks self.old until → asks self.new until }
        ensures longest { longest self.new ≡ longest self.old }
        ensures log { log self.new ≡ log self.old }
        ensures same { may_fail self.new ≡ may_fail self.old };

    /// Hears that a read was answered at this clock. Its reply may be kept by caches, for as long as it says.
    fn hear_read(&mut self, clock: Moment)
        ensures heard { asks self.new (clock + longest self.old) }
        ensures asked { (until : ℕ) → asks self.old until → asks self.new until }
        ensures longest { longest self.new ≡ longest self.old }
        ensures log { log self.new ≡ log self.old }
        ensures same { may_fail self.new ≡ may_fail self.old };

    /// Waits until so many commits are kept, and a moment behind the end of each copy of a reply that was
    /// heard of. Where the number is not known, it fails, or nothing is to be kept.
    fn keep(&mut self, commits: Option<Commit>) -> Result<(), Unkept>
        ensures kept { OnOk result ((n : ℕ) → IfSome commits (λ m. m ≡ n) → keeps self.new n) }
        ensures covered { OnOk result ((until : ℕ) → asks self.new until → covers self.new until) }
        ensures unkept { OnErr result (may_fail self.old ≡ true) }
        ensures asked { (until : ℕ) → asks self.old until → asks self.new until }
        ensures longest { longest self.new ≡ longest self.old }
        ensures log { log self.new ≡ log self.old }
        ensures same { may_fail self.new ≡ may_fail self.old };
}

/// Nobody, who keeps nothing.
#[derive(Clone, Copy, Debug)]
pub struct NoKeeping;

impl Keeping for NoKeeping {
    type Log = ();

    ghost log = { λ _. tt };

    ghost keeps = { λ _ _. Unit {0} };

    ghost longest = { λ _. 0 };

    ghost asks = { λ _ _. Unit {0} };

    ghost covers = { λ _ _. Unit {0} };

    ghost may_fail = { λ _. false };

    fn prepare(&mut self, _change: &Change) -> Result<(), Memory> {
        Ok(())
    }

    fn take(&mut self, _commit: Commit, _clock: Moment) {}

    fn hear_read(&mut self, _clock: Moment) {}

    fn keep(&mut self, _commits: Option<Commit>) -> Result<(), Unkept> {
        Ok(())
    }
}
