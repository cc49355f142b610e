//! The commits that a caller names.
ghost use Rattle.std.specs.Prelude.{◌≡◌, ◌==◌, ◌<◌, ◌≤◌, ◌++◌, ◌∷◌, [], length, nat_le, is_some, IfSome, OnOk, OnErr};

use q_base::{Commit, Memory};
use std::alloc::{AllocError, Global};
use std::marker::Model;

/// The greatest number of commits that a caller may name.
pub const MOST_COMMITS: usize = 16;

/// At most 16 commits, in the order in which they were named. Contracts see the list of them.
#[derive(Debug, Drop)]
pub struct Commits {
    commits: Vec<Commit>,
}

impl Model for Commits {
    ghost use Rattle.std.specs.Prelude.{ℕ, ◌≤◌, List, length};

    ghost Value = { List ℕ };

    ghost view = { λ c. c.commits.items };

    ghost invariant = { λ c. length c.commits.items ≤ 16 };
}

impl Commits {
    /// No commit. It takes no memory.
    pub fn new(alloc: Global) -> Commits
        ensures { result ≡ [] }
    {
        Commits {
            commits: Vec::new(alloc),
        }
    }

    /// These commits, or none where there are more than 16. It takes no memory.
    pub fn of(commits: Vec<Commit>) -> Option<Commits>
        ensures some { IfSome result (λ c. c ≡ commits.items) }
        ensures few { is_some result ≡ nat_le (length commits.items) 16 }
    {
        if commits.len() > MOST_COMMITS {
            return None;
        }
        Some(Commits { commits })
    }

    /// Whether no further commit can be named.
    pub fn is_full(&self) -> bool
        ensures { result ≡ nat_le 16 (length self.now) }
    {
        self.commits.len() >= MOST_COMMITS
    }

    /// Names a further commit.
    pub fn push(&mut self, commit: Commit) -> Result<(), Memory>
        requires { length self.old < 16 }
        ensures ok { OnOk result (self.new ≡ self.old ++ commit ∷ []) }
        ensures memory { OnErr result (self.new ≡ self.old) }
    {
        self.commits.push(commit)?;
        Ok(())
    }

    /// The commits.
    pub fn as_slice(&self) -> &[Commit]
        ensures commits { result.now ≡ self.now }
        ensures few { length self.now ≤ 16 }
    {
        self.commits.as_slice()
    }

    /// The number of commits.
    pub fn len(&self) -> usize
        ensures len { result ≡ length self.now }
        ensures few { result ≤ 16 }
    {
        self.commits.len()
    }

    /// Whether no commit is named.
    pub fn is_empty(&self) -> bool
        ensures { result ≡ (length self.now == 0) }
    {
        self.commits.is_empty()
    }
}

impl Clone for Commits {
    ghost is_clone = { λ s t. s ≡ t };

    fn clone(&self) -> Result<Commits, AllocError> {
        Ok(Commits {
            commits: self.commits.clone()?,
        })
    }
}
