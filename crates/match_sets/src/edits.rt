//! One row taken out, put in or cut off, and each of these taken back.
ghost use Rattle.std.specs.Prelude.{◌≡◌, ◌<◌, ◌≤◌, ◌+◌, ◌++◌, ◌||◌, ℕ, not, true, slice_get, length, take, nat_le, is_some, vec_capacity, IfSome, IfOk, Option, Some};
ghost use Rattle.std.specs.Option.{option_copied};
ghost use Rattle.query_core.specs.Changes.{list_of, without, placed_if};
ghost use Rattle.query_core.specs.Window.{rows_cmp, placed, in_order};
ghost use Rattle.match_sets.specs.Rows.{IsTaken, IsPutAt, IsReady, HasOld, others, new_row, kept_part, reaches, last_of, is_of_some, un_put, un_taken, count_of};

use crate::searches::{compare_with, position_for, position_of};
use commit_book::CommitRow;
use q_base::{Memory, Name};
use q_doc::Doc;
use query_core::{Order, Row, compare_rows};

/// The row that a commit puts, where its document is one that the query asks for.
pub fn new_row(row: &CommitRow, after: bool) -> Result<Option<Row>, Memory>
    ensures { IfOk result (λ new. new ≡ new_row row.now after) }
{
    match &row.after {
        Some(document) if after => Ok(Some((row.id.clone()?, row.commit, document.clone()?))),
        _ => Ok(None),
    }
}

/// The new row, where it is kept: always in a whole set, else where it is not behind the last row.
pub fn kept_part(order: &Order, whole: bool, rows: &[Row], new: Option<Row>) -> Option<Row>
    ensures { result ≡ kept_part order.now whole rows.now new }
{
    match new {
        Some(new) => {
            if keeps(order, whole, rows, &new) {
                Some(new)
            } else {
                None
            }
        }
        None => None,
    }
}

/// Whether a new row is kept.
fn keeps(order: &Order, whole: bool, rows: &[Row], new: &Row) -> bool
    ensures { result ≡ (whole || reaches order.now (last_of rows.now) new.now) }
{
    whole || reaches(order, last_of(rows), new)
}

/// The last row.
fn last_of(rows: &[Row]) -> Option<&Row>
    ensures { option_copied result ≡ last_of rows.now }
{
    rows.last()
}

/// Whether a row is not behind the last one.
fn reaches(order: &Order, last: Option<&Row>, new: &Row) -> bool
    ensures { result ≡ reaches order.now (option_copied last.entry) new.now }
{
    match last {
        Some(last) => !compare_rows(order, last, new).is_lt(),
        None => false,
    }
}

/// Takes the old row of a commit out, where its document was one that the query asked for.
pub fn take_out(
    rows: &mut Vec<Row>,
    order: &Order,
    row: &CommitRow,
    before: bool,
) -> Option<(usize, Row)>
    ensures taken { IsTaken rows.old.items result rows.new.items }
    ensures own { IfSome result (λ t. t.1.0 ≡ row.now.id) }
    ensures without { IsReady order.now row.now before rows.old.items → rows.new.items ≡ others before row.now.id rows.old.items }
    ensures capacity { vec_capacity rows.new ≡ vec_capacity rows.old }
{
    match &row.before {
        Some(document) => {
            if before {
                take_out_row(rows, order, &row.id, document)
            } else {
                None
            }
        }
        None => None,
    }
}

/// Whether the old row of a commit is there. It takes no memory.
pub fn has_old(rows: &[Row], order: &Order, row: &CommitRow, before: bool) -> bool
    ensures { IsReady order.now row.now before rows.now → length rows.now ≡ length (others before row.now.id rows.now) + count_of result }
{
    match &row.before {
        Some(document) => before && has_row(rows, order, &row.id, document),
        None => false,
    }
}

/// Whether the row of an id with this document is there.
fn has_row(rows: &[Row], order: &Order, id: &Name, document: &Doc) -> bool
    ensures { in_order (rows_cmp order.now) rows.now ≡ rows.now → HasOld id.now (Some document.now) rows.now → length rows.now ≡ length (without id.now rows.now) + count_of result }
{
    let position = position_of(rows, order, id, document);
    is_at(rows, position, id)
}

/// Whether there is a row of this id at the position.
fn is_at(rows: &[Row], position: usize, id: &Name) -> bool
    ensures is_at { result ≡ is_of_some id.now (slice_get rows.now position) }
    ensures within { result ≡ true → position < length rows.now }
{
    match rows.get(position) {
        Some(row) => row.0 == *id,
        None => false,
    }
}

/// Whether the new row of a commit is kept. It takes no memory.
pub fn has_new(order: &Order, whole: bool, rows: &[Row], row: &CommitRow, after: bool) -> bool
    ensures { result ≡ is_some (kept_part order.now whole rows.now (new_row row.now after)) }
{
    match &row.after {
        Some(document) if after => keeps_with(order, whole, rows, &row.id, document),
        _ => false,
    }
}

/// Whether a document of this id is kept.
fn keeps_with(order: &Order, whole: bool, rows: &[Row], id: &Name, document: &Doc) -> bool
    ensures { (version : ℕ) → result ≡ (whole || reaches order.now (last_of rows.now) (id.now, version, document.now)) }
{
    whole || reaches_with(order, last_of(rows), id, document)
}

/// Whether a document of this id is not behind the last row.
fn reaches_with(order: &Order, last: Option<&Row>, id: &Name, document: &Doc) -> bool
    ensures { (version : ℕ) → result ≡ reaches order.now (option_copied last.entry) (id.now, version, document.now) }
{
    match last {
        Some(last) => !compare_with(order, last, id, document).is_lt(),
        None => false,
    }
}

/// Takes the row of an id with this document out.
fn take_out_row(
    rows: &mut Vec<Row>,
    order: &Order,
    id: &Name,
    document: &Doc,
) -> Option<(usize, Row)>
    ensures taken { IsTaken rows.old.items result rows.new.items }
    ensures own { IfSome result (λ t. t.1.0 ≡ id.now) }
    ensures without { in_order (rows_cmp order.now) rows.old.items ≡ rows.old.items → HasOld id.now (Some document.now) rows.old.items → rows.new.items ≡ without id.now rows.old.items }
    ensures capacity { vec_capacity rows.new ≡ vec_capacity rows.old }
{
    let position = position_of(rows.as_slice(), order, id, document);
    if is_at(rows.as_slice(), position, id) {
        let row = rows.remove(position);
        Some((position, row))
    } else {
        None
    }
}

/// Puts a row in, if there is one. It takes no memory.
pub fn put_in(rows: &mut Vec<Row>, order: &Order, new: Option<Row>) -> Option<usize>
    requires { length rows.old.items < vec_capacity rows.old }
    ensures put { IsPutAt rows.old.items result new rows.new.items }
    ensures placed { in_order (rows_cmp order.now) rows.old.items ≡ rows.old.items → rows.new.items ≡ placed_if (rows_cmp order.now) rows.old.items new }
    ensures capacity { vec_capacity rows.old ≤ vec_capacity rows.new }
{
    match new {
        Some(new) => Some(put_row(rows, order, new)),
        None => None,
    }
}

/// Puts a row in.
fn put_row(rows: &mut Vec<Row>, order: &Order, new: Row) -> usize
    requires { length rows.old.items < vec_capacity rows.old }
    ensures put { IsPutAt rows.old.items (Some result) (Some new) rows.new.items }
    ensures placed { in_order (rows_cmp order.now) rows.old.items ≡ rows.old.items → rows.new.items ≡ placed (rows_cmp order.now) rows.old.items new }
    ensures capacity { vec_capacity rows.old ≤ vec_capacity rows.new }
{
    let position = position_for(rows.as_slice(), order, &new);
    match rows.insert(position, new) {
        Ok(()) => position,
        Err(_) => unreachable!(),
    }
}

/// Cuts the last row off, where there are more than the limit.
pub fn cut(rows: &mut Vec<Row>, limit: usize) -> Option<Row>
    ensures parts { rows.old.items ≡ rows.new.items ++ list_of result }
    ensures kept { length rows.old.items ≤ limit + 1 → rows.new.items ≡ take limit rows.old.items }
    ensures is_cut { is_some result ≡ not (nat_le (length rows.old.items) limit) }
    ensures capacity { vec_capacity rows.new ≡ vec_capacity rows.old }
{
    if rows.len() > limit { rows.pop() } else { None }
}

/// Puts the row that was cut off back. It takes no memory.
pub fn uncut(rows: &mut Vec<Row>, cut: Option<Row>)
    requires { length (rows.old.items ++ list_of cut) ≤ vec_capacity rows.old }
    ensures items { rows.new.items ≡ rows.old.items ++ list_of cut }
    ensures capacity { vec_capacity rows.old ≤ vec_capacity rows.new }
{
    if let Some(row) = cut {
        rows.push_reserved(row);
    }
}

/// Takes the row that was put in out again.
pub fn unput(rows: &mut Vec<Row>, put: Option<usize>)
    requires { IfSome put (λ position. position < length rows.old.items) }
    ensures items { rows.new.items ≡ un_put put rows.old.items }
    ensures capacity { vec_capacity rows.new ≡ vec_capacity rows.old }
{
    if let Some(position) = put {
        let _row = rows.remove(position);
    }
}

/// Puts the row that was taken out in again. It takes no memory.
pub fn untake(rows: &mut Vec<Row>, taken: Option<(usize, Row)>)
    requires { IfSome taken (λ t. (t.0 ≤ length rows.old.items) × (length rows.old.items < vec_capacity rows.old)) }
    ensures items { rows.new.items ≡ un_taken taken rows.old.items }
    ensures capacity { vec_capacity rows.old ≤ vec_capacity rows.new }
{
    if let Some((position, row)) = taken {
        match rows.insert(position, row) {
            Ok(()) => {}
            Err(_) => unreachable!(),
        }
    }
}
