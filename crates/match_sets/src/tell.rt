//! What a step did to the window, told by the positions of the written row among the others.
ghost use Rattle.std.specs.Prelude.{◌≡◌, ◌||◌, ◌<◌, ◌≤◌, ◌+◌, ◌^◌, is_some, IfOk, IfSome};
ghost use Rattle.match_sets.specs.Told.{shift, is_before, is_behind, shown_at, slid, name_of, shows_ids, shows_objects, step_with, step_in};
ghost use Rattle.match_sets.specs.Windows.{notice_of};

use crate::steps::{MatchStep, Notice};
use q_base::{Memory, Name};
use query_core::{Query, Row};

/// The step that took the written row from the old position among the others to the new one. The rows
/// are those with the written one at its new position.
pub fn told(
    query: &Query,
    rows: &[Row],
    old: Option<usize>,
    new: Option<usize>,
) -> Result<MatchStep, Memory>
    ensures { IfOk result (λ step. step ≡ step_in query.now rows.now old new) }
{
    let start = query.skip as usize;
    let end = start + query.take as usize;
    let notice = notice_of(shown_at(start, end, old), shown_at(start, end, new));
    let slid_in = name_of(rows, new, slid(start, end, new, old))?;
    let slid_out = name_of(rows, new, slid(start, end, old, new))?;
    Ok(step_with(notice, slid_in, slid_out))
}

/// The position in the window.
fn shown_at(start: usize, end: usize, position: Option<usize>) -> Option<usize>
    ensures { result ≡ shown_at start end position }
{
    match position {
        Some(here) if start <= here && here < end => Some(here - start),
        _ => None,
    }
}

/// What happened to a document that had one position and has another.
fn notice_of(old: Option<usize>, new: Option<usize>) -> Notice
    ensures { result ≡ notice_of old new }
{
    match (old, new) {
        (None, None) => Notice::Nothing,
        (None, Some(_)) => Notice::Added,
        (Some(_), None) => Notice::Removed,
        (Some(old), Some(new)) => {
            if old == new {
                Notice::Changed
            } else {
                Notice::Moved
            }
        }
    }
}

/// Whether the written row is before the window.
fn is_before(start: usize, position: Option<usize>) -> bool
    ensures { result ≡ is_before start position }
{
    match position {
        Some(here) => here < start,
        None => false,
    }
}

/// Whether it is behind the window. A row that is not there is behind all.
fn is_behind(end: usize, position: Option<usize>) -> bool
    ensures { result ≡ is_behind end position }
{
    match position {
        Some(here) => end <= here,
        None => true,
    }
}

/// Which of the others is in the window where the written row is here, and not where it is there.
fn slid(start: usize, end: usize, here: Option<usize>, there: Option<usize>) -> Option<usize>
    requires forward { start ≤ end }
    requires fits { end < 2 ^ 63 }
    ensures index { result ≡ slid start end here there }
    ensures below { IfSome result (λ k. k < 2 ^ 63) }
{
    if is_before(start, here) && !is_before(start, there) {
        Some(start - 1)
    } else if is_behind(end, here) && !is_behind(end, there) {
        Some(end - 1)
    } else {
        None
    }
}

/// The id of one of the others, found among the rows with the written one at `here`.
fn name_of(rows: &[Row], here: Option<usize>, other: Option<usize>) -> Result<Option<Name>, Memory>
    requires { IfSome other (λ k. k < 2 ^ 63) }
    ensures { IfOk result (λ name. name ≡ name_of rows.now here other) }
{
    let Some(k) = other else {
        return Ok(None);
    };
    match rows.get(shift(here, k)) {
        Some(row) => Ok(Some(row.0.clone()?)),
        None => Ok(None),
    }
}

/// Where the k-th of the others is among the rows with the written one.
fn shift(here: Option<usize>, k: usize) -> usize
    requires { k < 2 ^ 63 }
    ensures { result ≡ shift here k }
{
    match here {
        Some(here) if k >= here => k + 1,
        _ => k,
    }
}

/// The step with these ids that slid.
fn step_with(notice: Notice, slid_in: Option<Name>, slid_out: Option<Name>) -> MatchStep
    ensures { result ≡ step_with notice slid_in slid_out }
{
    let has_slid = slid_in.is_some() || slid_out.is_some();
    MatchStep {
        notice,
        slid_in,
        slid_out,
        objects_changed: notice.shows_objects() || has_slid,
        ids_changed: notice.shows_ids() || has_slid,
    }
}
