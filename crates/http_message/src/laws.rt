//! What follows from the definitions alone. Each function states one law, and does nothing.
ghost use Rattle.std.specs.Prelude.{◌≡◌};
ghost use Rattle.http_message.specs.Laws.{OneItemFirst, NoItemInOpen, OneExpectation, OneSplit};
ghost use Rattle.http_message.specs.Limits.{head_limit, most_fields, field_capacity, body_limit, line_limit, trailer_capacity, coding_limit};

use crate::limits::{
    BODY_LIMIT, CODING_LIMIT, FIELD_CAPACITY, HEAD_LIMIT, LINE_LIMIT, MOST_FIELDS, TRAILER_CAPACITY,
};

/// A byte string begins with one item at most.
pub fn one_item_is_first()
    ensures { OneItemFirst }
{}

/// Bytes in which no item is whole begin with none.
pub fn no_item_is_in_open_bytes()
    ensures { NoItemInOpen }
{}

/// Such bytes expect `100 Continue` or do not.
pub fn one_expectation_holds()
    ensures { OneExpectation }
{}

/// A byte string is split into items in one way.
pub fn one_split_is_there()
    ensures { OneSplit }
{}

/// The limits of the code are those that the definitions name.
pub fn limits_are_named()
    ensures head { HEAD_LIMIT ≡ head_limit }
    ensures fields { (MOST_FIELDS ≡ most_fields) × (FIELD_CAPACITY ≡ field_capacity) × (TRAILER_CAPACITY ≡ trailer_capacity) }
    ensures body { BODY_LIMIT ≡ body_limit }
    ensures line { LINE_LIMIT ≡ line_limit }
    ensures coding { CODING_LIMIT ≡ coding_limit }
{}
