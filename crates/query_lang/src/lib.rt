//! The query language: tokens, grammar, and the reading of queries.
#![tactic(auto)]

mod bytes;
mod filter_reader;
mod key_parts;
mod key_reader;
mod laws;
mod lexer;
mod limits;
mod operands;
mod order_reader;
mod parts;
mod query;
mod quoted;
mod reading;
mod refusal;
mod segments;
mod token;

pub use key_reader::{KeyRefusal, read_key};
pub use laws::{
    a_filter_has_one_reading, an_order_has_one_reading, filters_are_read_by_the_grammar,
    keys_are_equal_where_their_texts_are, keys_are_read_again, limits_are_reported_of_filters,
    operands_count_once_in_any_order, printed_queries_are_read_again,
    texts_that_are_read_are_those_of_keys,
};
pub use limits::{
    DEFAULT_TAKE, MAX_HEIGHT, MAX_LEAVES, MAX_OPEN, MAX_PATHS, MAX_SKIP, MAX_TAKE,
    limits_are_stated,
};
pub use query::{Fields, read_query};
pub use refusal::QueryRefusal;
