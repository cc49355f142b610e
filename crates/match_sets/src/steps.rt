//! What one change of a document does to the window of a query.

ghost use Rattle.std.specs.Prelude.{◌≡◌};
ghost use Rattle.match_sets.specs.Told.{shows_ids, shows_objects};

use q_base::Name;

/// What happened to the written document in the window.
#[derive(Clone, Copy, Debug, PartialEq, Eq, Drop)]
pub enum Notice {
    /// It is in neither window.
    Nothing,
    /// It is in the new window only.
    Added,
    /// It is in both windows, at the same position.
    Changed,
    /// It is in the old window only.
    Removed,
    /// It is in both windows, at different positions.
    Moved,
}

/// What one change of a document does to the window of a query (InvaliDB, Wingerath et al., VLDB
/// 2020, has the same notices).
#[derive(Drop)]
pub struct MatchStep {
    pub notice: Notice,
    /// The id of another document that entered the window.
    pub slid_in: Option<Name>,
    /// The id of another document that left the window.
    pub slid_out: Option<Name>,
    /// Whether the two windows differ as lists of documents with their ids and versions.
    pub objects_changed: bool,
    /// Whether they differ as lists of ids.
    pub ids_changed: bool,
}

impl Notice {
    /// Whether it shows a change of the objects.
    pub(crate) fn shows_objects(self) -> bool
        ensures { result ≡ shows_objects self }
    {
        self != Notice::Nothing
    }

    /// Whether it shows a change of the ids.
    pub(crate) fn shows_ids(self) -> bool
        ensures { result ≡ shows_ids self }
    {
        !matches!(self, Notice::Nothing | Notice::Changed)
    }
}
