//! The outcome of a read of a query.
ghost use Rattle.std.specs.Prelude.{◌≡◌, ◌==◌, ◌≤◌, max, filter, length, map, IfOk};
ghost use Rattle.std.specs.List.{list_any, reduce};
ghost use Rattle.query_core.specs.Window.{window};
ghost use Rattle.query_normal.specs.declared.key.KeyShape.TheVariants.{Query as QueryKey};
ghost use Rattle.result_kinds.specs.Results.{printed_row, result_of, text_of_result};
ghost use Rattle.commit_book.specs.Documents.{docs};
ghost use Rattle.hub_model.specs.declared.entry.Tags.TheVariants.{Listed as ListedTags};
ghost use Rattle.hub_model.specs.Journal.{result_at};
ghost use Rattle.hub_model.specs.Known.{has_result_of, known_at};
ghost use Rattle.hub_model.specs.Reply.{outcome_of};
ghost use Rattle.hub_core.specs.Invalidations.{is_after};
ghost use Rattle.hub_core.specs.QueryRows.{IsKept, AreKept, AreChangesOf, is_better};

use commit_book::Book;
use commit_book::laws::collections_have_the_documents_of_their_records;
use hub_model::laws::{query_results_are_told_by_versions, the_greatest_same_result_is_told};
use hub_model::{Outcome, Tags};
use q_base::{Commit, Memory, Name};
use query_core::{Docs, Kind, Query, Row, Rows, window};
use result_kinds::{PrintedRow, ResultText, ids_of, same_result};
use std::alloc::Global;

/// The outcome of a read of the result of a query at a commit, of a caller with these tags: the commit by
/// which it knows the result, or the text of the result. The rows are those of its window at the commit;
/// they are neither scanned for nor copied. The commits after `from` that changed the result are given,
/// so that an older tag costs no more than looking through them where none comes after it. Only a tag
/// before `from`, or before a change, is compared by its own rows, which are scanned for.
pub fn query_outcome(
    alloc: Global,
    book: &Book,
    commit: Commit,
    kind: Kind,
    query: &Query,
    rows: &[Row],
    from: Commit,
    changed: &[Commit],
    tags: &Tags,
) -> Result<Outcome, Memory>
    requires above { book.now.horizon ≤ commit }
    requires within { commit ≤ length book.now.journal }
    requires rows { rows.now ≡ window query.now (docs book.now.journal commit query.now.collection) }
    requires changed { AreChangesOf (QueryKey kind query.now) book.now.journal from commit changed.now }
    ensures { IfOk result (λ o. o ≡ outcome_of (result_at (QueryKey kind query.now) book.now.journal commit) (known_at (QueryKey kind query.now) book.now.journal book.now.horizon commit tags.now)) }
{
    match tags {
        Tags::Any => Ok(Outcome::Same {
            tag: commit,
            version: None,
        }),
        Tags::Listed(tags) => listed_outcome(
            alloc,
            book,
            commit,
            kind,
            query,
            rows,
            from,
            changed,
            tags.as_slice(),
        ),
    }
}

/// The outcome of a read of a caller that lists these commits.
fn listed_outcome(
    alloc: Global,
    book: &Book,
    commit: Commit,
    kind: Kind,
    query: &Query,
    rows: &[Row],
    from: Commit,
    changed: &[Commit],
    tags: &[Commit],
) -> Result<Outcome, Memory>
    requires above { book.now.horizon ≤ commit }
    requires within { commit ≤ length book.now.journal }
    requires rows { rows.now ≡ window query.now (docs book.now.journal commit query.now.collection) }
    requires changed { AreChangesOf (QueryKey kind query.now) book.now.journal from commit changed.now }
    ensures { IfOk result (λ o. o ≡ outcome_of (result_at (QueryKey kind query.now) book.now.journal commit) (known_at (QueryKey kind query.now) book.now.journal book.now.horizon commit (ListedTags tags.now))) }
{
    the_greatest_same_result_is_told();
    if is_listed(tags, commit) {
        return Ok(Outcome::Same {
            tag: commit,
            version: None,
        });
    }
    match greatest_known(alloc, book, commit, kind, query, rows, from, changed, tags)? {
        Some(tag) => Ok(Outcome::Same { tag, version: None }),
        None => {
            collections_have_the_documents_of_their_records();
            Ok(Outcome::Whole {
                text: text_of(alloc, book, commit, &query.collection, kind, rows)?,
                version: None,
            })
        }
    }
}

/// Whether a commit is listed.
fn is_listed(tags: &[Commit], commit: Commit) -> bool
    ensures { result ≡ list_any (λ tag. tag == commit) tags.now }
{
    tags.iter().any(|tag| *tag == commit)
}

/// The rows of a query at a commit, which are scanned for.
pub(crate) fn rows_at(
    alloc: Global,
    book: &Book,
    commit: Commit,
    query: &Query,
) -> Result<Rows, Memory>
    requires above { book.now.horizon ≤ commit }
    requires within { commit ≤ length book.now.journal }
    ensures { IfOk result (λ rows. rows ≡ window query.now (docs book.now.journal commit query.now.collection)) }
{
    collections_have_the_documents_of_their_records();
    let documents = Docs::of(book.documents_of(commit, &query.collection)?);
    let rows = window(alloc, query, &documents)?;
    Ok(rows)
}

/// The greatest of the tags that is a commit with the same result, of which the rows are given. A commit
/// that is not above one found before is not looked at.
fn greatest_known(
    alloc: Global,
    book: &Book,
    commit: Commit,
    kind: Kind,
    query: &Query,
    rows: &[Row],
    from: Commit,
    changed: &[Commit],
    tags: &[Commit],
) -> Result<Option<Commit>, Memory>
    requires above { book.now.horizon ≤ commit }
    requires within { commit ≤ length book.now.journal }
    requires rows { rows.now ≡ window query.now (docs book.now.journal commit query.now.collection) }
    requires changed { AreChangesOf (QueryKey kind query.now) book.now.journal from commit changed.now }
    ensures { IfOk result (λ known. known ≡ reduce max (filter (has_result_of (QueryKey kind query.now) book.now.journal book.now.horizon commit) tags.now)) }
{
    let mut known = None;
    for tag in tags {
        if is_better(known, *tag)
            && is_known(alloc, book, commit, kind, query, rows, from, changed, *tag)?
        {
            known = Some(*tag);
        }
    }
    Ok(known)
}

/// Whether a tag is above the commit that was found before, if one was.
fn is_better(known: Option<Commit>, tag: Commit) -> bool
    ensures { result ≡ is_better known tag }
{
    match known {
        Some(commit) => commit < tag,
        None => true,
    }
}

/// Whether a tag is a commit with the same result as another, whose rows are given. One below the horizon
/// is not known. No row is looked at where no commit after the tag changed the result.
fn is_known(
    alloc: Global,
    book: &Book,
    commit: Commit,
    kind: Kind,
    query: &Query,
    rows: &[Row],
    from: Commit,
    changed: &[Commit],
    tag: Commit,
) -> Result<bool, Memory>
    requires above { book.now.horizon ≤ commit }
    requires within { commit ≤ length book.now.journal }
    requires rows { rows.now ≡ window query.now (docs book.now.journal commit query.now.collection) }
    requires changed { AreChangesOf (QueryKey kind query.now) book.now.journal from commit changed.now }
    ensures { IfOk result (λ known. known ≡ has_result_of (QueryKey kind query.now) book.now.journal book.now.horizon commit tag) }
{
    let horizon = book.horizon();
    if tag < horizon {
        return Ok(false);
    }
    if tag > commit {
        return Ok(false);
    }
    if from <= tag && !has_after(changed, tag, commit) {
        return Ok(true);
    }
    query_results_are_told_by_versions();
    let found = rows_at(alloc, book, tag, query)?;
    Ok(same_result(kind, found.as_slice(), rows))
}

/// Whether one of these commits comes after another, and not after a last one.
fn has_after(commits: &[Commit], from: Commit, to: Commit) -> bool
    ensures { result ≡ list_any (is_after from to) commits.now }
{
    commits.iter().any(|commit| from < *commit && *commit <= to)
}

/// The text of the result with these rows. It is not written here, and shares the documents of the book.
fn text_of(
    alloc: Global,
    book: &Book,
    commit: Commit,
    collection: &Name,
    kind: Kind,
    rows: &[Row],
) -> Result<ResultText, Memory>
    requires above { book.now.horizon ≤ commit }
    requires within { commit ≤ length book.now.journal }
    requires kept { AreKept book.now.journal commit collection.now rows.now }
    ensures { IfOk result (λ text. text ≡ text_of_result (result_of kind rows.now)) }
{
    match kind {
        Kind::Objects => {
            ResultText::of_objects(kept_rows(alloc, book, commit, collection, rows)?)
        }
        Kind::Ids => ResultText::of_ids(ids_of(alloc, rows)?),
    }
}

/// The rows with their printed documents, which the book keeps.
fn kept_rows(
    alloc: Global,
    book: &Book,
    commit: Commit,
    collection: &Name,
    rows: &[Row],
) -> Result<Vec<PrintedRow>, Memory>
    requires above { book.now.horizon ≤ commit }
    requires within { commit ≤ length book.now.journal }
    requires kept { AreKept book.now.journal commit collection.now rows.now }
    ensures { IfOk result (λ kept. kept.items ≡ map printed_row rows.now) }
{
    let mut kept = Vec::with_capacity(alloc, rows.len())?;
    for row in rows {
        kept.push(kept_row(book, commit, collection, row)?)?;
    }
    Ok(kept)
}

/// A row with its printed document, which the book keeps. It is shared.
fn kept_row(book: &Book, commit: Commit, collection: &Name, row: &Row) -> Result<PrintedRow, Memory>
    requires above { book.now.horizon ≤ commit }
    requires within { commit ≤ length book.now.journal }
    requires kept { IsKept book.now.journal commit collection.now row.now }
    ensures { IfOk result (λ kept. kept ≡ printed_row row.now) }
{
    match book.text_at(commit, collection, &row.0) {
        Some((version, text)) => Ok(PrintedRow {
            id: row.0.clone()?,
            version,
            text: text.clone()?,
        }),
        None => unreachable!(),
    }
}
