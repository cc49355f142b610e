//! The reading of a filter and of an order, in one pass over the text.
ghost use Rattle.std.specs.Prelude.{◌≡◌, ◌-◌, if◌then◌else◌};
ghost use Rattle.query_lang.specs.FilterReading.{read_filter};
ghost use Rattle.query_lang.specs.OrderReading.{read_order};
ghost use Rattle.query_lang.specs.Refusals.{Gives};

use crate::filter_reader::FilterReader;
use crate::lexer::next_lexeme;
use crate::order_reader::OrderReader;
use crate::refusal::QueryRefusal;
use crate::token::{Beginning, Lexeme};
use query_core::{Filter, Order};
use std::alloc::Global;

/// The filter that a text is.
pub(crate) fn read_filter(alloc: Global, text: &str) -> Result<Filter, QueryRefusal>
    ensures { Gives (λ filter. filter) result (read_filter text.now) }
{
    let field = b'f';
    let total = text.len();
    let mut reader = FilterReader::new(alloc);
    let mut rest = text;
    'tokens: loop {
        match next_lexeme(rest) {
            Lexeme::Found(token) => {
                if let Err(cause) = reader.step(token.kind) {
                    return Err(cause.at(field, total.saturating_sub(token.left)));
                }
                rest = token.rest;
            }
            Lexeme::End => return reader.finish(total),
            Lexeme::Unfinished { what, left } => {
                let place = place_of(total, reader.is_allowed(what), 0, left);
                return Err(QueryRefusal::Syntax { field, place });
            }
            Lexeme::BadText { left, left_there } => {
                let allowed = reader.is_allowed(Beginning::Text);
                let place = place_of(total, allowed, left_there, left);
                return Err(QueryRefusal::Syntax { field, place });
            }
            Lexeme::Unknown { left } => {
                let place = total.saturating_sub(left);
                return Err(QueryRefusal::Syntax { field, place });
            }
        }
    }
}

/// The order that a text is.
pub(crate) fn read_order(alloc: Global, text: &str) -> Result<Order, QueryRefusal>
    ensures { Gives (λ order. order) result (read_order text.now) }
{
    let field = b'o';
    let total = text.len();
    let mut reader = OrderReader::new(alloc);
    let mut rest = text;
    'tokens: loop {
        match next_lexeme(rest) {
            Lexeme::Found(token) => {
                if let Err(cause) = reader.step(token.kind) {
                    return Err(cause.at(field, total.saturating_sub(token.left)));
                }
                rest = token.rest;
            }
            Lexeme::End => return reader.finish(total),
            Lexeme::Unfinished { what, left } => {
                let place = place_of(total, reader.is_allowed(what), 0, left);
                return Err(QueryRefusal::Syntax { field, place });
            }
            Lexeme::BadText { left, left_there } => {
                let allowed = reader.is_allowed(Beginning::Text);
                let place = place_of(total, allowed, left_there, left);
                return Err(QueryRefusal::Syntax { field, place });
            }
            Lexeme::Unknown { left } => {
                let place = total.saturating_sub(left);
                return Err(QueryRefusal::Syntax { field, place });
            }
        }
    }
}

/// The offset in a text of `total` bytes, given the number of bytes from there to the end: `there`
/// where the token is allowed, and else that of its beginning.
fn place_of(total: usize, allowed: bool, there: usize, begin: usize) -> usize
    ensures { result ≡ total - (if allowed then there else begin) }
{
    total.saturating_sub(if allowed { there } else { begin })
}
