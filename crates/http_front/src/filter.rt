//! The query that the fields of a target are.
ghost use Rattle.std.specs.Prelude.{◌≡◌, ◌↔◌, IfOk, IsErr};
ghost use Rattle.query_core.specs.Limits.{IsQuery};
ghost use Rattle.query_lang.specs.declared.refusal.QueryRefusal.TheVariants as refusals;
ghost use Rattle.http_front.specs.Filters.{field_of_letter, filter_refusal, query_in};

use crate::query::QueryFields;
use crate::refused::{FilterReason, FilterRefusal, QueryField, Refused};
use q_base::{Memory, Name};
use query_core::{Kind, Query};
use query_lang::{Fields, QueryRefusal, read_query};
use std::alloc::Global;

/// The query and the kind that the fields of a target are, or why one is refused.
#[tactic(auto, unfolding(crate::specs::Filters::query_in, query_lang::specs::Queries::read_query))]
pub(crate) fn query_in(
    alloc: Global,
    collection: Name,
    fields: &QueryFields,
) -> Result<Result<(Query, Kind), Refused>, Memory>
    ensures read { IfOk result (λ read. read ≡ query_in collection fields.now) }
    ensures is_query { IfOk result (λ read. IfOk read (λ found. IsQuery found.0)) }
{
    let texts = Fields {
        f: fields.value_of(QueryField::Filter),
        o: fields.value_of(QueryField::Order),
        s: fields.value_of(QueryField::Skip),
        n: fields.value_of(QueryField::Take),
        k: fields.value_of(QueryField::Kind),
    };
    match read_query(alloc, collection, &texts) {
        Ok(read) => Ok(Ok(read)),
        Err(refused) => Ok(Err(Refused::BadFilter(filter_refusal(refused)?))),
    }
}

/// Where and why fields are refused, unless memory ran out.
fn filter_refusal(refused: QueryRefusal) -> Result<FilterRefusal, Memory>
    ensures refusal { IfOk result (λ refusal. refusal ≡ filter_refusal refused) }
    ensures memory { IsErr result ↔ (refused ≡ refusals.Memory) }
{
    let (field, place, reason) = match refused {
        QueryRefusal::Syntax { field, place } => {
            (field_of_letter(field), place, FilterReason::Syntax)
        }
        QueryRefusal::BadNumber { field, place } => {
            (field_of_letter(field), place, FilterReason::BadNumber)
        }
        QueryRefusal::TooManyPaths { place } => {
            (QueryField::Order, place, FilterReason::TooManyPaths)
        }
        QueryRefusal::TooMany { leaves } => (QueryField::Filter, leaves, FilterReason::TooMany),
        QueryRefusal::TooNested { place } => (QueryField::Filter, place, FilterReason::TooNested),
        QueryRefusal::TooDeep { depth } => (QueryField::Filter, depth, FilterReason::TooDeep),
        QueryRefusal::Memory => return Err(Memory),
    };
    Ok(FilterRefusal {
        field,
        place: place as u64,
        reason,
    })
}

/// The field of a letter.
fn field_of_letter(letter: u8) -> QueryField
    ensures { result ≡ field_of_letter letter }
{
    match letter {
        b'f' => QueryField::Filter,
        b'o' => QueryField::Order,
        b's' => QueryField::Skip,
        b'n' => QueryField::Take,
        _ => QueryField::Kind,
    }
}
