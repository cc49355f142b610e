//! The copies of one key.
ghost use Rattle.std.specs.Prelude.{◌≡◌, ℕ, ◌+◌, ◌<◌, ◌≤◌, max, Bool, if◌then◌else◌, length, filter, [], ◌∷◌, OnOk, OnErr};
ghost use Rattle.issued_expiries.specs.Copies.{is_between};
ghost use Rattle.issued_expiries.specs.KeyCopies.{HasSpace, greatest, is_later, last_until};

use crate::sorted_copies::SortedCopies;
use q_base::Memory;
use std::alloc::Global;
use std::marker::Model;

/// The copies of one key, of which there is at least one. Most keys have just one, which is stored
/// inline.
#[derive(Debug, Drop)]
pub struct KeyCopies {
    commit: u64,
    until: u64,
    /// The copies at other commits.
    others: SortedCopies,
}

impl Model for KeyCopies {
    ghost use Rattle.std.specs.Prelude.{◌+◌, ◌∷◌};
    ghost use Rattle.issued_expiries.specs.KeyCopies.{KeptCopies};

    ghost Value = { KeptCopies };

    ghost view = { λ c. record { copies = (c.commit, c.until) ∷ c.others.copies; capacity = c.others.capacity + 1 } };
}

impl KeyCopies {
    /// One copy, without capacity for more.
    pub fn one(alloc: Global, commit: u64, until: u64) -> KeyCopies
        ensures { result ≡ record { copies = (commit, until) ∷ []; capacity = 1 } }
    {
        KeyCopies {
            commit,
            until,
            others: SortedCopies::new(alloc),
        }
    }

    /// The greatest until of a copy at or above a commit and below another, or 0 without one, in
    /// logarithmic time.
    pub fn greatest(&self, from: u64, below: u64) -> u64
        ensures { result ≡ greatest (is_between from below) self.now.copies }
    {
        let others = self.others.greatest(from, below);
        if from <= self.commit && self.commit < below {
            self.until.max(others)
        } else {
            others
        }
    }

    /// Adds a copy, or gives the one at its commit the later until. It takes logarithmic time, and
    /// as much again for each copy at a later commit where the commit is new.
    pub fn put(&mut self, commit: u64, until: u64)
        requires { HasSpace self.old }
        ensures greatest { (test : ℕ → Bool) → greatest test self.new.copies ≡ max (greatest test self.old.copies) (if test commit then until else 0) }
        ensures capacity { self.new.capacity ≡ self.old.capacity }
        ensures len { length self.new.copies ≤ length self.old.copies + 1 }
    {
        if commit == self.commit {
            self.until = self.until.max(until);
        } else {
            self.others.put(commit, until);
        }
    }

    /// Makes space for one more copy. Where the buffer is full, the expired copies are dropped.
    pub fn make_space(&mut self, alloc: Global, clock: u64) -> Result<(), Memory>
        requires { clock < last_until self.old }
        ensures ok { OnOk result (HasSpace self.new) }
        ensures later { filter (is_later clock) self.new.copies ≡ filter (is_later clock) self.old.copies }
        ensures last { last_until self.new ≡ last_until self.old }
        ensures err { OnErr result (self.new ≡ self.old) }
    {
        self.others.make_space(alloc, clock)
    }
}
