//! The document of a record at a commit, found by what is kept of the record.
ghost use Rattle.std.specs.Prelude.{◌≡◌, ℕ, ◌≤◌, ◌<◌, Option, IfOk, option_map};
ghost use Rattle.std.specs.List.Sorted.{IsNonDecreasing};
ghost use Rattle.q_doc.specs.Tree.{Tree};
ghost use Rattle.commit_book.specs.Index.{AreCommits, base_cost, base_kept, commits_kept, version_of, document_in};
ghost use Rattle.commit_book.specs.Journal.{put_at, printed_of};

use crate::base::Base;
use crate::change::Change;
use crate::index::Record;
use crate::row::{Row, cost_with};
use q_base::{Commit, SharedText};
use q_doc::Doc;
use std::alloc::AllocError;
use std::collections::VecDeque;

/// A document, the commit that put it, and its printed text.
#[derive(Clone, Copy)]
pub struct Found<'a> {
    pub commit: Commit,
    pub document: &'a Doc,
    pub text: &'a SharedText,
}

/// The last of ascending commits that is not above a commit. The last of all is seen at once.
fn version_of(commits: &VecDeque<Commit>, commit: Commit) -> Option<Commit>
    requires { IsNonDecreasing commits.now.items }
    ensures { result ≡ version_of commits.now.items commit }
{
    let last = *commits.back()?;
    if last <= commit {
        return Some(last);
    }
    let count = commits.partition_point(|version| *version <= commit);
    if count == 0 {
        None
    } else {
        Some(commits[count - 1])
    }
}

/// The document of a record after a commit: that of its last row which is not behind the commit, or the
/// one that it has at the horizon.
pub fn found_in<'a>(
    rows: &'a VecDeque<Row>,
    horizon: Commit,
    record: &'a Record,
    commit: Commit,
) -> Option<Found<'a>>
    requires { AreCommits horizon rows.now.items record.now.commits.items }
    ensures documents { option_map (λ f. (f.commit, f.document.now)) result ≡ document_in horizon rows.now.items record.now.base record.now.commits.items commit }
    ensures texts { option_map (λ f. (f.commit, f.text.now)) result ≡ printed_of (document_in horizon rows.now.items record.now.base record.now.commits.items commit) }
{
    match version_of(&record.commits, commit) {
        Some(version) => found_in_row(version, &rows[(version - horizon - 1) as usize]),
        None => found_in_base(&record.base),
    }
}

/// The document that the row of a commit puts.
fn found_in_row<'a>(commit: Commit, row: &'a Row) -> Option<Found<'a>>
    ensures documents { option_map (λ f. (f.commit, f.document.now)) result ≡ put_at commit row.now.document }
    ensures texts { option_map (λ f. (f.commit, f.text.now)) result ≡ printed_of (put_at commit row.now.document) }
{
    match row.document() {
        Some(document) => Some(Found {
            commit,
            document,
            text: row.text(),
        }),
        None => None,
    }
}

/// The document of a base.
fn found_in_base<'a>(base: &'a Option<Base>) -> Option<Found<'a>>
    ensures documents { option_map (λ f. (f.commit, f.document.now)) result ≡ base.now }
    ensures texts { option_map (λ f. (f.commit, f.text.now)) result ≡ printed_of base.now }
{
    match base {
        Some(base) => Some(Found {
            commit: base.commit(),
            document: base.document(),
            text: base.text(),
        }),
        None => None,
    }
}

/// What the document of the record of a row takes of the capacity after a commit, in bytes.
pub fn document_cost(
    row: &Row,
    known: Option<&Record>,
    rows: &VecDeque<Row>,
    horizon: Commit,
    commit: Commit,
) -> u64
    requires { AreCommits horizon rows.now.items (commits_kept (option_map (λ r. r.now) known)) }
    ensures { result ≡ base_cost row.now.collection row.now.id (document_in horizon rows.now.items (base_kept (option_map (λ r. r.now) known.entry)) (commits_kept (option_map (λ r. r.now) known.entry)) commit) }
{
    match known {
        Some(record) => found_cost(row.change(), found_in(rows, horizon, record, commit)),
        None => 0,
    }
}

/// What a document takes of the capacity under the names of a change, in bytes.
fn found_cost(change: &Change, found: Option<Found<'_>>) -> u64
    ensures { (document : Option (ℕ × Tree)) → option_map (λ f. (f.commit, f.text.now)) found.entry ≡ printed_of document → result ≡ base_cost change.now.collection change.now.id document }
{
    match found {
        Some(found) => cost_with(change, found.text.as_slice().len()),
        None => 0,
    }
}

/// A copy of the document that was found.
pub fn copy_of_found(found: Option<(Commit, &Doc)>) -> Result<Option<Doc>, AllocError>
    ensures { IfOk result (λ document. document ≡ option_map (λ d. d.1.now) found.entry) }
{
    match found {
        Some((_, document)) => Ok(Some(document.clone()?)),
        None => Ok(None),
    }
}
