//! The queries that a run reads.
ghost use Rattle.std.specs.Prelude.{◌≡◌, ◌++◌, ◌/◌, ◌%◌, IfOk, decimal};
ghost use Rattle.query_lang.specs.Queries.{read_query};
ghost use Rattle.world_core.specs.Products.{collection};
ghost use Rattle.world_core.specs.Queries.{after_with, before_with, filter_with, key_of_read, limit_with, order_with, skip_with, take_with, query_key, kind_word};

use crate::product::{collection, push_number};
use q_base::Memory;
use query_lang::{Fields, read_query};
use query_normal::{Key, normal};
use std::alloc::{AllocError, Global};

/// The key of a query, of the kind of ids or of objects.
pub fn query_key(alloc: Global, query: u32, is_ids: bool) -> Result<Key, Memory>
    ensures { IfOk result (λ key. key ≡ query_key query is_ids) }
{
    let text = filter_text(alloc, query)?;
    let Ok(filter) = str::from_utf8(text.as_slice()) else {
        return Err(Memory);
    };
    let fields = Fields {
        f: Some(filter),
        o: Some(order_text(query)),
        s: Some(skip_text(query)),
        n: Some(take_text(query)),
        k: Some(kind_word(is_ids)),
    };
    key_of_fields(alloc, &fields)
}

/// The key of the query of these fields, where they are one.
fn key_of_fields(alloc: Global, fields: &Fields<'_>) -> Result<Key, Memory>
    ensures { IfOk result (λ key. key ≡ key_of_read (read_query collection fields.now)) }
{
    match read_query(alloc, collection(alloc)?, fields) {
        Ok((query, kind)) => Key::query(alloc, kind, normal(alloc, query)?),
        Err(_) => Err(Memory),
    }
}

/// The filter of a query.
fn filter_text(alloc: Global, query: u32) -> Result<Vec<u8>, AllocError>
    ensures { IfOk result (λ text. text.items ≡ filter_with (query / 10) (query % 10)) }
{
    around(
        alloc,
        before_text(query),
        limit_of(query),
        after_text(query),
    )
}

/// The filter of a query up to its number.
fn before_text(query: u32) -> &'static [u8]
    ensures { result.now ≡ before_with (query / 10) }
{
    match query / 10 {
        0 => b"cat = ",
        1 => b"cat = ",
        2 => b"price < ",
        _ => b"not (cat = ",
    }
}

/// The number in the filter of a query.
fn limit_of(query: u32) -> u64
    ensures { result ≡ limit_with (query / 10) (query % 10) }
{
    let unit = (query % 10) as u64;
    match query / 10 {
        0 => unit,
        1 => unit,
        2 => 100 * (unit + 1),
        _ => unit,
    }
}

/// The filter of a query behind its number.
fn after_text(query: u32) -> &'static [u8]
    ensures { result.now ≡ after_with (query / 10) }
{
    match query / 10 {
        0 => b"",
        1 => b" and stock > 0",
        2 => b"",
        _ => b") and price >= 900",
    }
}

/// A number between two texts.
fn around(alloc: Global, before: &[u8], number: u64, after: &[u8]) -> Result<Vec<u8>, AllocError>
    ensures { IfOk result (λ text. text.items ≡ before.now ++ (decimal number ++ after.now)) }
{
    let mut text = Vec::from_slice(alloc, before)?;
    push_number(&mut text, number)?;
    text.extend_from_slice(after)?;
    Ok(text)
}

/// The order of a query.
fn order_text(query: u32) -> &'static str
    ensures { result.now ≡ order_with (query / 10) }
{
    match query / 10 {
        0 => "price",
        1 => "price desc",
        2 => "",
        _ => "name",
    }
}

/// How many first rows a query leaves out.
fn skip_text(query: u32) -> &'static str
    ensures { result.now ≡ skip_with (query / 10) }
{
    match query / 10 {
        0 => "0",
        1 => "0",
        2 => "0",
        _ => "5",
    }
}

/// How many rows a query keeps.
fn take_text(query: u32) -> &'static str
    ensures { result.now ≡ take_with (query / 10) }
{
    match query / 10 {
        0 => "20",
        1 => "10",
        2 => "50",
        _ => "10",
    }
}

/// What a query shows of the rows.
fn kind_word(is_ids: bool) -> &'static str
    ensures { result.now ≡ kind_word is_ids }
{
    if is_ids { "ids" } else { "objects" }
}
