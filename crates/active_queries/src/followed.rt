//! A query as it is seen among the others.
ghost use Rattle.std.specs.Prelude.{◌≡◌};
ghost use Rattle.match_sets.specs.Contents.{window_of};
ghost use Rattle.active_queries.specs.Following.{lifted};

use crate::query::ActiveQuery;
use q_base::Commit;
use query_core::{Kind, Row};
use std::marker::Model;

/// A query with the last commit that it has seen, and the commit above which it lists what changed its
/// result. Contracts see it as a query with these numbers.
#[derive(Drop)]
pub struct Followed<'a> {
    query: &'a ActiveQuery,
    seen: Commit,
    from: Commit,
}

impl<'a> Model for Followed<'a> {
    ghost use Rattle.std.specs.Coded.{codes};
    ghost use Rattle.q_doc.specs.Code.{tree_code};
    ghost use Rattle.query_core.specs.Code.{filter_code};
    ghost use Rattle.active_queries.specs.Following.{Following, lifted};

    ghost Value = { Following };

    ghost coded = { Prim.hlevel (codes, tree_code, filter_code) };

    ghost view = { λ f. lifted f.seen f.from f.query.now };
}

impl<'a> Followed<'a> {
    /// A query among others that have seen a commit, and list changed commits above one, at least.
    pub(crate) fn of(query: &'a ActiveQuery, seen: Commit, from: Commit) -> Followed<'a>
        ensures { result ≡ lifted seen from query.now }
    {
        Followed { query, seen, from }
    }

    /// The rows of the result at the last commit that was seen. None is copied.
    pub fn rows(&self) -> &'a [Row]
        ensures { result.now ≡ window_of self.now.set }
    {
        self.query.rows()
    }

    /// What the result shows of its rows.
    pub fn kind(&self) -> Kind
        ensures { result ≡ self.now.kind }
    {
        self.query.kind()
    }

    /// The last commit that was seen.
    pub fn seen(&self) -> Commit
        ensures { result ≡ self.now.seen }
    {
        self.query.seen().max(self.seen)
    }

    /// The commit above which all that changed the result are listed.
    pub fn from(&self) -> Commit
        ensures { result ≡ self.now.from }
    {
        self.query.from().max(self.from)
    }

    /// The commits that changed the result, of those that are not forgotten.
    pub fn changed(&self) -> &'a [Commit]
        ensures { result.now ≡ self.now.changed }
    {
        self.query.changed()
    }
}
