//! Queries in normal form.
ghost use Rattle.std.specs.Prelude.{◌≡◌};
ghost use Rattle.std.specs.Cmp.{partial_equiv_from_equiv};
ghost use Rattle.query_core.specs.Same.{same_query};
ghost use Rattle.query_core.specs.SameLaws.{same_query_equiv};
ghost use Rattle.query_normal.specs.Normal.{IsNormal};

use query_core::Query;
use std::alloc::AllocError;
use std::fmt;
use std::marker::Model;

/// A query of the language in its normal form. Contracts see the query.
#[derive(Drop)]
pub struct Normal {
    pub(crate) query: Query,
}

impl Model for Normal {
    ghost use Rattle.std.specs.Coded.{codes};
    ghost use Rattle.q_doc.specs.Code.{tree_code};
    ghost use Rattle.query_core.specs.Code.{filter_code};
    ghost use Rattle.query_core.specs.declared.query.Query.{Query as AQuery};
    ghost use Rattle.query_normal.specs.Normal.{IsNormal};

    ghost Value = { AQuery };

    ghost coded = { Prim.hlevel (codes, tree_code, filter_code) };

    ghost view = { λ n. n.query };

    ghost invariant = { λ n. IsNormal n.query };
}

impl Normal {
    /// The query. It takes no memory.
    pub fn query(&self) -> &Query
        ensures query { result.now ≡ self.now }
        ensures normal { IsNormal self.now }
    {
        &self.query
    }
}

impl Clone for Normal {
    ghost is_clone = { λ s t. s ≡ t };

    fn clone(&self) -> Result<Normal, AllocError> {
        Ok(Normal {
            query: self.query.clone()?,
        })
    }
}

impl PartialEq for Normal {
    ghost eq = { same_query };

    ghost laws = { partial_equiv_from_equiv same_query_equiv };

    fn eq(&self, other: &Normal) -> bool {
        self.query == other.query
    }
}

impl Eq for Normal {
    ghost laws = { same_query_equiv };
}

impl fmt::Debug for Normal {
    fn fmt<W: fmt::Write>(&self, f: &mut fmt::Formatter<W>) -> fmt::Result {
        write!(f, "Normal")
    }
}
