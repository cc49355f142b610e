//! Queries, their orders, and verdicts on a change.
ghost use Rattle.std.specs.Prelude.{◌≡◌};

use crate::filter::Filter;
use q_base::Name;
use q_doc::Path;
use std::marker::Model;

/// What the result of a query shows of its rows.
#[derive(Clone, Copy, Debug, PartialEq, Eq, Drop)]
pub enum Kind {
    /// The documents with their ids and versions.
    Objects,
    /// The ids alone.
    Ids,
}

/// By which paths rows are ordered, each with whether it is descending. Contracts see the list.
#[derive(Drop)]
pub struct Order {
    pub(crate) paths: Vec<(Path, bool)>,
}

impl Model for Order {
    ghost use Rattle.std.specs.Prelude.{ℕ, List, Bool};

    ghost Value = { List (List (List ℕ) × Bool) };

    ghost view = { λ o. o.paths.items };
}

impl Order {
    /// The order by these paths in turn.
    pub fn of(paths: Vec<(Path, bool)>) -> Order
        ensures { result ≡ paths.items }
    {
        Order { paths }
    }

    /// The paths, each with whether it is descending.
    pub fn as_slice(&self) -> &[(Path, bool)]
        ensures { result.now ≡ self.now }
    {
        self.paths.as_slice()
    }

    /// The paths, in no new memory.
    pub fn into_vec(self) -> Vec<(Path, bool)>
        ensures { result.items ≡ self }
    {
        self.paths
    }
}

/// Which documents of a collection are wanted, and how many of them in which order.
#[derive(Drop)]
pub struct Query {
    pub collection: Name,
    pub filter: Filter,
    pub order: Order,
    /// The number of first rows that are left out.
    pub skip: u32,
    /// The greatest number of rows that are kept.
    pub take: u32,
}

/// Whether a document satisfied a filter before a change, and after it.
#[derive(Clone, Copy, Debug, PartialEq, Eq, Drop)]
pub struct Verdict {
    pub before: bool,
    pub after: bool,
}
