//! Which of the results that a caller knows is the one that it reads.
ghost use Rattle.std.specs.Prelude.{◌≡◌, max, filter};
ghost use Rattle.std.specs.List.{reduce};
ghost use Rattle.hub_model.specs.KnownSince.{is_since, known_since};

use crate::entry::Tags;
use q_base::Commit;
use std::alloc::AllocError;

impl Tags {
    /// The commit by which the caller knows a document of this version that is read at a commit: that one
    /// where whichever there is will do, and else the greatest listed one from the version on.
    pub fn known_since(&self, version: Commit, at: Commit) -> Option<Commit>
        ensures { result ≡ known_since version at self.now }
    {
        match self {
            Tags::Any => Some(at),
            Tags::Listed(tags) => greatest_since(tags.as_slice(), version, at),
        }
    }
}

/// The greatest of the tags that is a commit from the version on, and not above another.
fn greatest_since(tags: &[Commit], version: Commit, at: Commit) -> Option<Commit>
    ensures { result ≡ reduce max (filter (is_since version at) tags.now) }
{
    tags.iter()
        .copied()
        .filter(|tag| version <= *tag && *tag <= at)
        .max()
}

impl Clone for Tags {
    ghost use Rattle.std.specs.Prelude.{◌≡◌};

    ghost is_clone = { λ s t. s ≡ t };

    fn clone(&self) -> Result<Tags, AllocError> {
        match self {
            Tags::Any => Ok(Tags::Any),
            Tags::Listed(tags) => Ok(Tags::Listed(tags.clone()?)),
        }
    }
}
