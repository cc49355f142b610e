//! The fields of a target's query.
ghost use Rattle.std.specs.Prelude.{◌≡◌, true, IfOk, IsOk, option_map};
ghost use Rattle.std.specs.Option.{option_copied};
ghost use Rattle.query_lang.specs.Queries.{bytes_of};
ghost use Rattle.http_front.specs.Filters.{letter_of, text_in};
ghost use Rattle.http_front.specs.Free.{is_free_query};
ghost use Rattle.http_front.specs.Query.{decoded, field_named, fields_in, fields_of, is_among, is_start, is_value, name_of, pieces_of, takes_fields, valued};
ghost use Rattle.http_front.specs.declared.routes.Route.TheVariants.{Query};

use crate::cut::{cut_at, cut_in_two};
use crate::number::number_of;
use crate::refused::QueryField;
use crate::routes::Route;
use percent_encoding::percent_decode;
use q_base::Memory;
use std::alloc::Global;
use std::marker::Model;

/// A field of a query and its decoded value. Contracts see both.
#[derive(Drop)]
pub struct FieldValue {
    field: QueryField,
    value: String,
}

impl Model for FieldValue {
    ghost use Rattle.std.specs.Prelude.{string_bytes};
    ghost use Rattle.http_front.specs.Query.{NamedValue};

    ghost Value = { NamedValue };

    ghost view = { λ v. (v.field, string_bytes v.value) };
}

impl FieldValue {
    /// Which field it is.
    pub fn field(&self) -> QueryField
        ensures { result ≡ self.now.0 }
    {
        self.field
    }

    /// Its value, without escapes.
    pub fn value(&self) -> &str
        ensures { result.now ≡ self.now.1 }
    {
        self.value.as_str()
    }
}

/// The decoded fields of a query, in their order. Contracts see a list.
#[derive(Drop)]
pub struct QueryFields {
    values: Vec<FieldValue>,
}

impl Model for QueryFields {
    ghost use Rattle.std.specs.Prelude.{List};
    ghost use Rattle.http_front.specs.Query.{NamedValue};

    ghost Value = { List NamedValue };

    ghost view = { λ f. f.values.items };
}

impl QueryFields {
    /// The fields, in the order of the query.
    pub fn as_slice(&self) -> &[FieldValue]
        ensures { result.now ≡ self.now }
    {
        self.values.as_slice()
    }

    /// The value of a field, where it is among them.
    pub fn value_of(&self, field: QueryField) -> Option<&str>
        ensures { bytes_of result ≡ text_in (letter_of field) self.now }
    {
        value_in(self.as_slice(), field)
    }
}

/// The value of the first field that is this one.
fn value_in(values: &[FieldValue], field: QueryField) -> Option<&str>
    ensures { bytes_of result ≡ text_in (letter_of field) values.now }
{
    for value in values {
        if value.field() == field {
            return Some(value.value());
        }
    }
    None
}

/// The fields of a query, where each is one of the route and in its form, and none is repeated.
#[tactic(auto, unfolding(crate::specs::Query::fields_in))]
pub fn fields_in(
    alloc: Global,
    route: Route,
    query: Option<&[u8]>,
) -> Result<Option<QueryFields>, Memory>
    ensures fields { IfOk result (λ fields. fields ≡ fields_in route (option_copied query.entry)) }
    ensures free { is_free_query route (option_copied query.entry) ≡ true → IsOk result }
{
    let Some(query) = query else {
        return Ok(Some(QueryFields {
            values: Vec::new(alloc),
        }));
    };
    if !takes_fields(route) {
        return Ok(None);
    }
    match fields_of(alloc, route, query)? {
        Some(values) => Ok(Some(QueryFields { values })),
        None => Ok(None),
    }
}

/// Whether a query of the route has fields.
fn takes_fields(route: Route) -> bool
    ensures { result ≡ takes_fields route }
{
    matches!(route, Route::Query | Route::Purges)
}

/// The fields that a text is.
fn fields_of(alloc: Global, route: Route, query: &[u8]) -> Result<Option<Vec<FieldValue>>, Memory>
    ensures { IfOk result (λ values. option_map (λ v. v.items) values ≡ fields_of route (pieces_of query.now)) }
{
    let mut values = Vec::new(alloc);
    let mut rest = query;
    loop {
        let (piece, behind) = cut_at(rest, b'&');
        let (name, value) = cut_in_two(piece, b'=');
        let Some(value) = read_field(alloc, route, name, value)? else {
            return Ok(None);
        };
        values.push(value)?;
        let Some(others) = behind else {
            return Ok(Some(values));
        };
        if is_among(name, others) {
            return Ok(None);
        }
        rest = others;
    }
}

/// The field of the route of this name, where the value is in its form.
fn read_field(
    alloc: Global,
    route: Route,
    name: &[u8],
    value: &[u8],
) -> Result<Option<FieldValue>, Memory>
    ensures { IfOk result (λ found. found ≡ valued (field_named route name.now) (decoded value.now)) }
{
    let Some(field) = field_named(route, name) else {
        return Ok(None);
    };
    let Ok(value) = String::from_utf8(read_value(alloc, value)?) else {
        return Ok(None);
    };
    if is_value(field, value.as_str()) {
        Ok(Some(FieldValue { field, value }))
    } else {
        Ok(None)
    }
}

/// The field of a route that has this name.
pub(crate) fn field_named(route: Route, name: &[u8]) -> Option<QueryField>
    ensures { result ≡ field_named route name.now }
{
    match route {
        Route::Query => query_named(name),
        Route::Purges if name == b"from".as_slice() => Some(QueryField::From),
        _ => None,
    }
}

/// The field of a query that has this name.
fn query_named(name: &[u8]) -> Option<QueryField>
    ensures { result ≡ field_named Query name.now }
{
    if name == b"f".as_slice() {
        return Some(QueryField::Filter);
    }
    if name == b"o".as_slice() {
        return Some(QueryField::Order);
    }
    if name == b"s".as_slice() {
        return Some(QueryField::Skip);
    }
    if name == b"n".as_slice() {
        return Some(QueryField::Take);
    }
    if name == b"k".as_slice() {
        return Some(QueryField::Kind);
    }
    None
}

/// Whether a text is in the form that its field has.
fn is_value(field: QueryField, value: &str) -> bool
    ensures { result ≡ is_value field value.now }
{
    match field {
        QueryField::From => is_start(number_of(value.as_bytes())),
        _ => true,
    }
}

/// Whether a number is one of a purge.
fn is_start(number: Option<u64>) -> bool
    ensures { result ≡ is_start number }
{
    match number {
        Some(number) => number >= 1 && number <= 1 << 63,
        None => false,
    }
}

/// Whether a field of the query has this name.
pub(crate) fn is_among(name: &[u8], query: &[u8]) -> bool
    ensures { result ≡ is_among name.now (pieces_of query.now) }
{
    let mut rest = query;
    loop {
        let (piece, behind) = cut_at(rest, b'&');
        if name_of(piece) == name {
            return true;
        }
        let Some(others) = behind else {
            return false;
        };
        rest = others;
    }
}

/// The name of a field.
fn name_of(piece: &[u8]) -> &[u8]
    ensures { result.now ≡ name_of piece.now }
{
    cut_in_two(piece, b'=').0
}

/// A value with spaces for `+` and without its escapes.
fn read_value(alloc: Global, text: &[u8]) -> Result<Vec<u8>, Memory>
    ensures { IfOk result (λ value. value.items ≡ decoded text.now) }
{
    let mut value = Vec::with_capacity(alloc, text.len())?;
    let mut rest = text;
    loop {
        let (piece, behind) = cut_at(rest, b'+');
        percent_decode(piece).append_to(&mut value)?;
        let Some(others) = behind else {
            return Ok(value);
        };
        value.push(b' ')?;
        rest = others;
    }
}
