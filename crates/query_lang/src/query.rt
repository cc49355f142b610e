//! Queries, read from the five fields of a request.
ghost use Rattle.std.specs.Prelude.{◌≡◌, ◌+◌, ◌-◌, ◌<◌, ◌≤◌, ◌^◌, [], length, Ok, IfOk};
ghost use Rattle.query_core.specs.Limits.{IsQuery};
ghost use Rattle.query_core.specs.declared.query.Query.{Query};
ghost use Rattle.query_core.specs.declared.query.Kind.{Kind};
ghost use Rattle.query_lang.specs.Numbers.{read_number, number_within};
ghost use Rattle.query_lang.specs.OrderReading.{read_order};
ghost use Rattle.query_lang.specs.Queries.{read_query, filter_field, number_field, kind_field, bytes_of};
ghost use Rattle.query_lang.specs.QueryText.{IsQueryText};
ghost use Rattle.query_lang.specs.Refusals.{Gives};

use crate::bytes::first;
use crate::lexer::number;
use crate::limits::{DEFAULT_TAKE, MAX_SKIP, MAX_TAKE};
use crate::reading::{read_filter, read_order};
use crate::refusal::QueryRefusal;
use crate::token::{Lexeme, TokenKind};
use q_base::Name;
use query_core::{Filter, Form, Kind, Order, Query};
use std::alloc::Global;

/// The fields of a query. An absent field and an empty one mean the same.
#[derive(Clone, Copy)]
pub struct Fields<'a> {
    /// The filter.
    pub f: Option<&'a str>,
    /// The paths of the order.
    pub o: Option<&'a str>,
    /// The number of first rows that are left out.
    pub s: Option<&'a str>,
    /// The greatest number of rows that are kept.
    pub n: Option<&'a str>,
    /// What is shown of the rows.
    pub k: Option<&'a str>,
}

/// The query and the kind that the fields are. They are read in the order f, o, s, n, k, and the first
/// refusal is the answer. It takes time and memory in proportion to the texts, whatever they nest.
pub fn read_query(
    alloc: Global,
    collection: Name,
    fields: &Fields<'_>,
) -> Result<(Query, Kind), QueryRefusal>
    // What is read is a query of the grammar, within its limits.
    ensures found { IfOk result (λ read. IsQueryText collection fields.now read.0 read.1) }
    // It is within all limits, and its texts are UTF-8.
    ensures is_query { IfOk result (λ read. IsQuery read.0) }
    // Such a query is read, unless memory runs out.
    ensures only { (query : Query) (kind : Kind) → IsQueryText collection fields.now query kind → Gives (λ read. read) result (Ok (query, kind)) }

    // Which refusal it is, and its offset.
    ensures exact { Gives (λ read. read) result (read_query collection fields.now) }
    // Without a filter and an order there is an answer whatever memory there is.
    ensures plain { bytes_of fields.now.f ≡ [] → bytes_of fields.now.o ≡ [] → result ≡ read_query collection fields.now }
{
    read_fields(alloc, collection, fields)
}

/// The query and the kind, field by field.
#[tactic(auto, unfolding(crate::specs::Queries::read_query))]
fn read_fields(
    alloc: Global,
    collection: Name,
    fields: &Fields<'_>,
) -> Result<(Query, Kind), QueryRefusal>
    ensures gives { Gives (λ read. read) result (read_query collection fields.now) }
    ensures plain { bytes_of fields.now.f ≡ [] → bytes_of fields.now.o ≡ [] → result ≡ read_query collection fields.now }
    ensures is_query { IfOk result (λ read. IsQuery read.0) }
{
    let filter = filter_field(alloc, text_of(fields.f))?;
    let order = order_field(alloc, text_of(fields.o))?;
    let skip = number_field(text_of(fields.s), b's', 0, MAX_SKIP, 0)?;
    let take = number_field(text_of(fields.n), b'n', 1, MAX_TAKE, DEFAULT_TAKE)?;
    let kind = kind_field(text_of(fields.k))?;
    Ok((
        Query {
            collection,
            filter,
            order,
            skip,
            take,
        },
        kind,
    ))
}

/// The text of a field, which is empty where it is absent.
fn text_of(field: Option<&str>) -> &str
    ensures { result.now ≡ bytes_of field.entry }
{
    field.unwrap_or("")
}

/// The filter of a field.
#[tactic(auto, unfolding(crate::specs::Queries::filter_field))]
fn filter_field(alloc: Global, text: &str) -> Result<Filter, QueryRefusal>
    ensures gives { Gives (λ filter. filter) result (filter_field text.now) }
    ensures empty { text.now ≡ [] → result ≡ filter_field text.now }
{
    if text.is_empty() {
        return Ok(Filter {
            form: Form::Constant(true),
        });
    }
    read_filter(alloc, text)
}

/// The order of a field. An empty one takes no memory.
#[tactic(auto, using(crate::proofs::OrderTextReading::no_order))]
fn order_field(alloc: Global, text: &str) -> Result<Order, QueryRefusal>
    ensures gives { Gives (λ order. order) result (read_order text.now) }
    ensures empty { text.now ≡ [] → result ≡ read_order text.now }
{
    if text.is_empty() {
        return Ok(Order::of(Vec::new(alloc)));
    }
    read_order(alloc, text)
}

/// The number of a field.
#[tactic(auto, unfolding(crate::specs::Queries::number_field))]
fn number_field(
    text: &str,
    field: u8,
    low: u32,
    high: u32,
    default: u32,
) -> Result<u32, QueryRefusal>
    ensures { result ≡ number_field field low high default text.now }
{
    if text.is_empty() {
        return Ok(default);
    }
    read_number(text, field, low, high)
}

/// The number from `low` to `high` that a text is, without blanks.
#[tactic(auto, unfolding(crate::specs::Numbers::read_number))]
fn read_number(text: &str, field: u8, low: u32, high: u32) -> Result<u32, QueryRefusal>
    ensures { result ≡ read_number field low high text.now }
{
    let byte = first(text);
    if !byte.is_ascii_digit() && byte != b'-' {
        return Err(QueryRefusal::Syntax { field, place: 0 });
    }
    let total = text.len();
    let (kind, left) = match number(text) {
        Lexeme::Found(token) => (token.kind, token.rest.len()),
        Lexeme::Unfinished { .. } => {
            return Err(QueryRefusal::Syntax {
                field,
                place: total,
            });
        }
        _ => return Err(QueryRefusal::Syntax { field, place: 0 }),
    };
    match kind {
        TokenKind::Number(number) => number_within(field, low, high, total, left, number),
        TokenKind::BadNumber => Err(QueryRefusal::BadNumber { field, place: 0 }),
        _ => Err(QueryRefusal::Syntax { field, place: 0 }),
    }
}

/// The number, if it is from `low` to `high`, and no byte of the text is left.
fn number_within(
    field: u8,
    low: u32,
    high: u32,
    total: usize,
    left: usize,
    number: i64,
) -> Result<u32, QueryRefusal>
    ensures { result ≡ number_within field low high total left number }
{
    let Ok(number) = u32::try_from(number) else {
        return Err(QueryRefusal::BadNumber { field, place: 0 });
    };
    if number < low || number > high {
        return Err(QueryRefusal::BadNumber { field, place: 0 });
    }
    if left > 0 {
        let place = total.saturating_sub(left);
        return Err(QueryRefusal::Syntax { field, place });
    }
    Ok(number)
}

/// The kind of a field.
#[tactic(auto, unfolding(crate::specs::Queries::kind_field))]
fn kind_field(text: &str) -> Result<Kind, QueryRefusal>
    ensures { result ≡ kind_field text.now }
{
    if text.is_empty() || text == "objects" {
        Ok(Kind::Objects)
    } else if text == "ids" {
        Ok(Kind::Ids)
    } else {
        Err(QueryRefusal::Syntax {
            field: b'k',
            place: 0,
        })
    }
}
