//! The order of values, and equality.
ghost use Rattle.std.specs.Prelude.{◌≡◌, option_map};
ghost use Rattle.q_doc.specs.Tree.{items_of, members_of};
ghost use Rattle.q_doc.specs.Order.{rank, tree_cmp, items_cmp, members_cmp, value_cmp};

use crate::node::{Node, Shape};
use crate::node_text::NodeText;
use std::cmp::Ordering;

/// The order of two values that may be absent. By type, absent first: null, false and true,
/// numbers, texts, arrays, objects; then numbers by value, texts by their bytes, arrays by their
/// elements, and objects by their pairs of key and value. It allocates nothing.
pub fn compare(a: Option<&Node>, b: Option<&Node>) -> Ordering
    ensures { result
        ≡ value_cmp (option_map (λ r. r.now) a.entry) (option_map (λ r. r.now) b.entry) }
{
    match (a, b) {
        (None, None) => Ordering::Equal,
        (None, Some(_)) => Ordering::Less,
        (Some(_), None) => Ordering::Greater,
        (Some(x), Some(y)) => order_of(x, y),
    }
}

fn rank(node: &Node) -> u8
    ensures { result ≡ rank node.now }
{
    match &node.shape {
        Shape::Null => 0,
        Shape::Bool(_) => 1,
        Shape::Number(_) => 2,
        Shape::Text(_) => 3,
        Shape::Array(_) => 4,
        Shape::Object(_) => 5,
    }
}

#[cycle(order_of)]
pub(crate) fn order_of(a: &Node, b: &Node) -> Ordering
    ensures { result ≡ tree_cmp a.now b.now }
{
    match (&a.shape, &b.shape) {
        (Shape::Bool(x), Shape::Bool(y)) => x.cmp(y),
        (Shape::Number(x), Shape::Number(y)) => x.cmp(y),
        (Shape::Text(x), Shape::Text(y)) => x.as_slice().cmp(y.as_slice()),
        (Shape::Array(xs), Shape::Array(ys)) => order_of_items(xs, ys),
        (Shape::Object(xs), Shape::Object(ys)) => order_of_members(xs, ys),
        _ => rank(a).cmp(&rank(b)),
    }
}

#[cycle(order_of)]
fn order_of_items(xs: &[Node], ys: &[Node]) -> Ordering
    ensures { result ≡ items_cmp (items_of xs.now) (items_of ys.now) }
{
    for i in 0..xs.len().min(ys.len()) {
        let order = order_of(&xs[i], &ys[i]);
        if order.is_ne() {
            return order;
        }
    }
    xs.len().cmp(&ys.len())
}

#[cycle(order_of)]
fn order_of_members(xs: &[(NodeText, Node)], ys: &[(NodeText, Node)]) -> Ordering
    ensures { result ≡ members_cmp (members_of xs.now) (members_of ys.now) }
{
    for i in 0..xs.len().min(ys.len()) {
        let keys = xs[i].0.as_slice().cmp(ys[i].0.as_slice());
        if keys.is_ne() {
            return keys;
        }
        let order = order_of(&xs[i].1, &ys[i].1);
        if order.is_ne() {
            return order;
        }
    }
    xs.len().cmp(&ys.len())
}
