//! The meaning of filters.
ghost use Rattle.std.specs.Prelude.{◌≡◌, option_map};
ghost use Rattle.std.specs.List.{list_any};
ghost use Rattle.q_doc.specs.Tree.{items_of};
ghost use Rattle.query_core.specs.Filters.{operands_of};
ghost use Rattle.query_core.specs.Meaning.{satisfies, satisfies_every, satisfies_some, op_holds, compares, is_listed, has_value, has_item, same_value};

use crate::filter::{Filter, Form};
use crate::operator::Op;
use q_doc::{Doc, Node, Shape};
use std::cmp::Ordering;

/// Whether a document satisfies a filter. A comparison is false where there is no value at its path,
/// or one of another type, `!=` too. It takes no memory.
#[cycle(satisfies)]
pub fn satisfies(filter: &Filter, doc: &Doc) -> bool
    ensures { result ≡ satisfies filter.now doc.now }
{
    match &filter.form {
        Form::Constant(value) => *value,
        Form::Compare { path, op, value } => compares(*op, value, doc.at(path)),
        Form::In { path, values } => is_listed(values, doc.at(path)),
        Form::Has { path, value } => has_value(value, doc.at(path)),
        Form::Exists { path } => doc.at(path).is_some(),
        Form::Not(operand) => !satisfies(operand, doc),
        Form::And(operands) => satisfies_every(operands, doc),
        Form::Or(operands) => satisfies_some(operands, doc),
    }
}

#[cycle(satisfies)]
fn satisfies_every(operands: &[Filter], doc: &Doc) -> bool
    ensures { result ≡ satisfies_every (operands_of operands.now) doc.now }
{
    for operand in operands {
        if !satisfies(operand, doc) {
            return false;
        }
    }
    true
}

#[cycle(satisfies)]
fn satisfies_some(operands: &[Filter], doc: &Doc) -> bool
    ensures { result ≡ satisfies_some (operands_of operands.now) doc.now }
{
    for operand in operands {
        if satisfies(operand, doc) {
            return true;
        }
    }
    false
}

/// Whether the value is there, has the type of the other, and the comparison holds. Both truth values
/// are of one type.
fn compares(op: Op, value: &Node, found: Option<&Node>) -> bool
    ensures { result ≡ compares op value.now (option_map (λ r. r.now) found.entry) }
{
    let Some(node) = found else {
        return false;
    };
    match (&node.shape, &value.shape) {
        (Shape::Number(x), Shape::Number(y)) => op_holds(op, x.cmp(y)),
        (Shape::Text(x), Shape::Text(y)) => op_holds(op, x.as_slice().cmp(y.as_slice())),
        (Shape::Bool(x), Shape::Bool(y)) => op_holds(op, x.cmp(y)),
        (Shape::Null, Shape::Null) => op_holds(op, Ordering::Equal),
        (Shape::Array(_), Shape::Array(_)) => op_holds(op, node.cmp(value)),
        (Shape::Object(_), Shape::Object(_)) => op_holds(op, node.cmp(value)),
        _ => false,
    }
}

/// Whether a comparison holds of two values in this order.
fn op_holds(op: Op, order: Ordering) -> bool
    ensures { result ≡ op_holds op order }
{
    match op {
        Op::Equal => order.is_eq(),
        Op::Unequal => order.is_ne(),
        Op::Less => order.is_lt(),
        Op::AtMost => order.is_le(),
        Op::Greater => order.is_gt(),
        Op::AtLeast => order.is_ge(),
    }
}

/// Whether the value is there, and is one of these.
fn is_listed(values: &[Node], found: Option<&Node>) -> bool
    ensures { result ≡ is_listed values.now (option_map (λ r. r.now) found.entry) }
{
    match found {
        None => false,
        Some(node) => is_among(node, values),
    }
}

/// Whether a value is one of these.
fn is_among(node: &Node, values: &[Node]) -> bool
    ensures { result ≡ list_any (same_value node.now) values.now }
{
    for value in values {
        if node == value {
            return true;
        }
    }
    false
}

/// Whether the value is an array with this element.
fn has_value(value: &Node, found: Option<&Node>) -> bool
    ensures { result ≡ has_value value.now (option_map (λ r. r.now) found.entry) }
{
    match found {
        None => false,
        Some(node) => match &node.shape {
            Shape::Array(items) => has_item(value, items),
            _ => false,
        },
    }
}

/// Whether a value is one of the elements.
fn has_item(value: &Node, items: &[Node]) -> bool
    ensures { result ≡ has_item value.now (items_of items.now) }
{
    for item in items {
        if item == value {
            return true;
        }
    }
    false
}
