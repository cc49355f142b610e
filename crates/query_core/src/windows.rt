//! The window of a query: the rows that satisfy its filter, in order, from `skip` on, at most `take`.
ghost use Rattle.std.specs.Prelude.{◌≡◌, ◌+◌, ◌++◌, ◌∷◌, [], List, map, filter, take, drop, option_map, IfOk, OnOk};
ghost use Rattle.query_core.specs.Window.{Row as ARow, in_order, matches, window};
ghost use Rattle.query_core.specs.Candidates.{row_of, value_of, value_at, candidates_cmp, is_past, IsRanked, IsLast, HasFirsts, AreFirst};

use crate::compare::turned;
use crate::meaning::satisfies;
use crate::query::{Order, Query};
use crate::rows::{Docs, Row, Rows};
use q_base::Memory;
use q_doc::{Doc, Node, Path, compare};
use std::alloc::{AllocError, Global};
use std::cmp::Ordering;

/// The number of paths of an order whose values are kept beside each row. No query of the language
/// has more.
const KEPT: usize = 4;

/// Above this number of candidates, and above twice the wanted ones, they are sorted and cut off.
const MANY: usize = 32;

/// A row that satisfies the filter, with the values at the first paths of the order, each looked up once.
#[derive(Clone, Copy)]
struct Candidate<'a> {
    row: &'a Row,
    values: [Option<&'a Node>; KEPT],
}

/// The candidates that may be among the first in order of those that were seen.
#[derive(Drop)]
struct Firsts<'a> {
    found: Vec<Candidate<'a>>,
    /// The last candidate that was kept when they were cut off. What is not before it is not needed.
    last: Option<Candidate<'a>>,
}

/// The rows that satisfy a query, in its order, without the first `skip`, at most `take` of them.
/// The order of the documents does not matter, where no two have one id. Besides the rows of the
/// result it takes memory for about `2 * (skip + take)` references, whatever number of documents
/// satisfies the query.
pub fn window(alloc: Global, query: &Query, docs: &Docs) -> Result<Rows, Memory>
    ensures { IfOk result (λ rows. rows ≡ window query.now docs.now) }
{
    let (skip, count) = (query.skip as usize, query.take as usize);
    let found = sorted(alloc, query, docs, skip + count)?;
    let rows = cloned_rows(alloc, &found, skip, count)?;
    Ok(Rows { rows })
}

/// The rows that satisfy, in order, as far as the first `count`.
fn sorted<'a>(
    alloc: Global,
    query: &Query,
    docs: &'a Docs,
    count: usize,
) -> Result<Vec<Candidate<'a>>, AllocError>
    ensures { IfOk result (λ found. take count (map row_of found.items) ≡ take count (matches query.now docs.now)) }
{
    let mut found = candidates(alloc, query, &docs.rows, count)?;
    sort(&mut found, query.order.as_slice())?;
    Ok(found)
}

/// The rows that satisfy, except some that are not among the first `count` in order.
fn candidates<'a>(
    alloc: Global,
    query: &Query,
    docs: &'a [Row],
    count: usize,
) -> Result<Vec<Candidate<'a>>, AllocError>
    ensures { IfOk result (λ found. AreFirst query.now docs.now count found.items) }
{
    let mut firsts = Firsts {
        found: Vec::new(alloc),
        last: None,
    };
    for row in docs {
        if satisfies(&query.filter, &row.2) {
            offer(&mut firsts, &query.order, count, &ranked(&query.order, row))?;
        }
    }
    Ok(firsts.found)
}

/// Takes one more candidate, unless it comes after the first `count`.
fn offer<'a>(
    firsts: &mut Firsts<'a>,
    order: &Order,
    count: usize,
    new: &Candidate<'a>,
) -> Result<(), AllocError>
    ensures { (seen : List ARow) → IsRanked order.now new.now → HasFirsts order.now count seen firsts.old
        → OnOk result (HasFirsts order.now count (seen ++ row_of new.now ∷ []) firsts.new) }
{
    let paths = order.as_slice();
    if is_past(paths, &firsts.last, new) {
        return Ok(());
    }
    cut_if_many(firsts, paths, count)?;
    firsts.found.push(*new)?;
    Ok(())
}

/// Sorts the candidates and cuts them off, where they are many.
fn cut_if_many(
    firsts: &mut Firsts<'_>,
    order: &[(Path, bool)],
    count: usize,
) -> Result<(), AllocError>
    ensures { (seen : List ARow) → HasFirsts order.now count seen firsts.old → OnOk result (HasFirsts order.now count seen firsts.new) }
{
    if firsts.found.len() / 2 <= count.max(MANY) {
        return Ok(());
    }
    firsts.last = cut(&mut firsts.found, order, count)?;
    Ok(())
}

/// Whether a candidate is not before the last one that may be among the first.
fn is_past(order: &[(Path, bool)], last: &Option<Candidate<'_>>, new: &Candidate<'_>) -> bool
    ensures { result ≡ is_past order.now last.now new.now }
{
    match last {
        None => false,
        Some(last) => !compare_candidates(order, new, last).is_lt(),
    }
}

/// Puts candidates in order and keeps the first `count`. The result is the last of these, where there
/// are `count`.
fn cut<'a>(
    found: &mut Vec<Candidate<'a>>,
    order: &[(Path, bool)],
    count: usize,
) -> Result<Option<Candidate<'a>>, AllocError>
    ensures kept { OnOk result (found.new.items ≡ take count (in_order (candidates_cmp order.now 0) found.old.items)) }
    ensures last { IfOk result (λ last. IsLast count found.new.items last) }
{
    sort(found, order)?;
    found.truncate(count);
    if count > 0 && found.len() == count {
        Ok(Some(found[count - 1]))
    } else {
        Ok(None)
    }
}

/// Puts candidates in order.
fn sort(found: &mut Vec<Candidate<'_>>, order: &[(Path, bool)]) -> Result<(), AllocError>
    ensures { OnOk result (found.new.items ≡ in_order (candidates_cmp order.now 0) found.old.items) }
{
    found.sort_by(|a, b| compare_candidates(order, a, b))?;
    Ok(())
}

fn ranked<'a>(order: &Order, row: &'a Row) -> Candidate<'a>
    ensures row { row_of result ≡ row.now }
    ensures ranked { IsRanked order.now result }
{
    Candidate {
        row,
        values: [
            value_at(order, 0, &row.2),
            value_at(order, 1, &row.2),
            value_at(order, 2, &row.2),
            value_at(order, 3, &row.2),
        ],
    }
}

/// The value of a document at the path that stands at a index of the order.
fn value_at<'a>(order: &Order, index: usize, doc: &'a Doc) -> Option<&'a Node>
    ensures { option_map (λ r. r.now) result ≡ value_at order.now index doc.now }
{
    match order.paths.get(index) {
        Some((path, _)) => doc.at(path),
        None => None,
    }
}

/// The order of two candidates, which is that of their rows.
fn compare_candidates(order: &[(Path, bool)], a: &Candidate<'_>, b: &Candidate<'_>) -> Ordering
    ensures { result ≡ candidates_cmp order.now 0 a.now b.now }
{
    for (index, (path, descending)) in order.iter().enumerate() {
        let by_path = turned(
            *descending,
            compare(value_of(a, index, path), value_of(b, index, path)),
        );
        if by_path.is_ne() {
            return by_path;
        }
    }
    a.row.0.cmp(&b.row.0)
}

/// The value by which a candidate is ordered at a index of the order.
fn value_of<'a>(candidate: &Candidate<'a>, index: usize, path: &Path) -> Option<&'a Node>
    ensures { option_map (λ r. r.now) result ≡ value_of candidate.now index path.now }
{
    let values = &candidate.values[..];
    if index < KEPT {
        values[index]
    } else {
        candidate.row.2.at(path)
    }
}

/// Clones of the rows of candidates, without the first `skip`, at most `count` of them.
fn cloned_rows(
    alloc: Global,
    found: &[Candidate<'_>],
    skip: usize,
    count: usize,
) -> Result<Vec<Row>, AllocError>
    ensures { IfOk result (λ rows. rows.items ≡ take count (drop skip (map row_of found.now))) }
{
    let start = skip.min(found.len());
    let rest = &found[start..];
    let end = count.min(rest.len());
    let kept = &rest[..end];
    let mut rows = Vec::with_capacity(alloc, kept.len())?;
    for candidate in kept {
        rows.push(cloned_row(candidate.row)?)?;
    }
    Ok(rows)
}

fn cloned_row(row: &Row) -> Result<Row, AllocError>
    ensures { IfOk result (λ cloned. row.now ≡ cloned) }
{
    Ok((row.0.clone()?, row.1, row.2.clone()?))
}
