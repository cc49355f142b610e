//! When the condition of a write is met.
ghost use Rattle.std.specs.Prelude.{◌≡◌, ◌&&◌, nat_le};
ghost use Rattle.std.specs.List.{list_any};
ghost use Rattle.hub_model.specs.Step.{is_met};

use crate::entry::{Condition, Found, Tags};
use q_base::Commit;
use std::alloc::AllocError;

impl Condition {
    /// Whether what is found meets the condition, at a number of commits.
    pub fn is_met(&self, found: Found, commits: Commit) -> bool
        ensures { result ≡ is_met self.now found commits }
    {
        match (self, found) {
            (Condition::Always, _) => true,
            (Condition::Present, found) => found != Found::Missing,
            (Condition::Absent, found) => found == Found::Missing,
            (Condition::Unchanged(_), Found::Missing) => false,
            (Condition::Unchanged(Tags::Any), Found::At(_)) => true,
            (Condition::Unchanged(Tags::Listed(tags)), Found::At(version)) => {
                is_within(tags.as_slice(), version, commits)
            }
        }
    }
}

/// Whether one of the tags is a commit from the version on, at which the record had the document
/// that is found.
fn is_within(tags: &[Commit], version: Commit, commits: Commit) -> bool
    ensures { result ≡ list_any (λ t. nat_le version t && nat_le t commits) tags.now }
{
    tags.iter().any(|tag| version <= *tag && *tag <= commits)
}

impl Clone for Condition {
    ghost use Rattle.std.specs.Prelude.{◌≡◌};

    ghost is_clone = { λ s t. s ≡ t };

    fn clone(&self) -> Result<Condition, AllocError> {
        match self {
            Condition::Always => Ok(Condition::Always),
            Condition::Present => Ok(Condition::Present),
            Condition::Absent => Ok(Condition::Absent),
            Condition::Unchanged(tags) => Ok(Condition::Unchanged(tags.clone()?)),
        }
    }
}
