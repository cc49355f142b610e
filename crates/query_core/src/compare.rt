//! The order of rows.
ghost use Rattle.std.specs.Prelude.{◌≡◌};
ghost use Rattle.query_core.specs.Window.{turned, rows_cmp};

use crate::query::Order;
use crate::rows::Row;
use q_doc::compare;
use std::cmp::Ordering;

/// The order of two rows by an order's paths in turn, an absent value the least, and then by the
/// bytes of the ids. It takes no memory.
pub fn compare_rows(order: &Order, a: &Row, b: &Row) -> Ordering
    ensures { result ≡ rows_cmp order.now a.now b.now }
{
    for (path, descending) in &order.paths {
        let by_path = turned(*descending, compare(a.2.at(path), b.2.at(path)));
        if by_path.is_ne() {
            return by_path;
        }
    }
    a.0.cmp(&b.0)
}

/// The order, or for a descending path the reverse order.
pub(crate) fn turned(descending: bool, order: Ordering) -> Ordering
    ensures { result ≡ turned descending order }
{
    if descending { order.reverse() } else { order }
}
