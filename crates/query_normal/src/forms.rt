//! The normal form of a query.
ghost use Rattle.std.specs.Prelude.{◌≡◌, IfOk};
ghost use Rattle.query_core.specs.Limits.{IsQuery};
ghost use Rattle.query_normal.specs.Normal.{normal_query};

use crate::filters::normal_filter;
use crate::normal_query::Normal;
use crate::orders::normal_order;
use q_base::Memory;
use query_core::Query;
use std::alloc::Global;

/// The normal form of a query of the language. It takes time in proportion to the printed query and
/// the logarithm of the number of its operands, once for each level of nesting.
#[tactic(auto, using(crate::proofs::NormalQueries::query_normal))]
pub fn normal(alloc: Global, query: Query) -> Result<Normal, Memory>
    requires { IsQuery query }
    ensures { IfOk result (λ normal. normal ≡ normal_query query) }
{
    let filter = normal_filter(alloc, false, query.filter)?;
    let order = normal_order(alloc, query.order)?;
    Ok(Normal {
        query: Query {
            collection: query.collection,
            filter,
            order,
            skip: query.skip,
            take: query.take,
        },
    })
}
