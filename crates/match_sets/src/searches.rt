//! Positions among rows that are in the order of a query, found by binary search.
ghost use Rattle.std.specs.Prelude.{◌≡◌, ◌≤◌, true, false, not, length};
ghost use Rattle.std.specs.List.Sorted.{IsPartitionPoint};
ghost use Rattle.std.specs.Ordering.{is_lt};
ghost use Rattle.query_core.specs.Window.{turned, rows_cmp, in_order};

use q_base::Name;
use q_doc::{Doc, compare};
use query_core::{Order, Row, compare_rows};
use std::cmp::Ordering;

/// How a row compares with a document of this id. It takes no memory.
pub fn compare_with(order: &Order, row: &Row, id: &Name, document: &Doc) -> Ordering
    ensures { result ≡ rows_cmp order.now row.now (id.now, 0, document.now) }
{
    for (path, descending) in order.as_slice() {
        let by_path = turned(*descending, compare(row.2.at(path), document.at(path)));
        if by_path.is_ne() {
            return by_path;
        }
    }
    row.0.cmp(id)
}

/// The order, or for a descending path the reverse of it.
fn turned(descending: bool, order: Ordering) -> Ordering
    ensures { result ≡ turned descending order }
{
    if descending { order.reverse() } else { order }
}

/// The number of rows before a document of this id.
pub fn position_of(rows: &[Row], order: &Order, id: &Name, document: &Doc) -> usize
    ensures within { result ≤ length rows.now }
    ensures point { in_order (rows_cmp order.now) rows.now ≡ rows.now
        → IsPartitionPoint (λ x. is_lt (rows_cmp order.now x (id.now, 0, document.now)) ≡ true) (λ x. is_lt (rows_cmp order.now x (id.now, 0, document.now)) ≡ false) rows.now result }
{
    rows.partition_point(|row| compare_with(order, row, id, document).is_lt())
}

/// The position at which a new row goes: behind the rows that it is not before.
pub fn position_for(rows: &[Row], order: &Order, new: &Row) -> usize
    ensures within { result ≤ length rows.now }
    ensures point { in_order (rows_cmp order.now) rows.now ≡ rows.now
        → IsPartitionPoint (λ x. not (is_lt (rows_cmp order.now new.now x)) ≡ true) (λ x. not (is_lt (rows_cmp order.now new.now x)) ≡ false) rows.now result }
{
    rows.partition_point(|row| !compare_rows(order, new, row).is_lt())
}
