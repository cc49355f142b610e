//! The documents of a collection.
ghost use Rattle.std.specs.Prelude.{◌≡◌, ℕ, List, ◌++◌, IfOk, OnOk};
ghost use Rattle.commit_book.specs.Documents.{list_of, row_of, HasDocuments};
ghost use Rattle.commit_book.specs.Index.{commits_under, document_in, document_under, AreCommits};

use crate::found::found_in;
use crate::index::{Record, Records};
use crate::row::Row;
use q_base::{Commit, Memory, Name};
use q_doc::Doc;
use std::alloc::Global;
use std::collections::VecDeque;

/// The documents of the records of a collection after a commit, in the order in which their ids came.
pub fn documents_under(
    alloc: Global,
    rows: &VecDeque<Row>,
    horizon: Commit,
    records: &Records,
    commit: Commit,
) -> Result<Vec<(Name, Commit, Doc)>, Memory>
    requires { (id : List ℕ) → AreCommits horizon rows.now.items (commits_under records.now id) }
    ensures { IfOk result (λ found. HasDocuments (document_under horizon rows.now.items records.now commit) found.items) }
{
    let count = records.len();
    let mut found = Vec::with_capacity(alloc, count)?;
    for index in 0..count {
        match records.get_index(index) {
            Some((id, record)) => push_document(&mut found, rows, horizon, id, record, commit)?,
            None => unreachable!(),
        }
    }
    Ok(found)
}

/// Adds the document of an id after a commit, where there is one.
fn push_document(
    found: &mut Vec<(Name, Commit, Doc)>,
    rows: &VecDeque<Row>,
    horizon: Commit,
    id: &Name,
    record: &Record,
    commit: Commit,
) -> Result<(), Memory>
    requires { AreCommits horizon rows.now.items record.now.commits.items }
    ensures { OnOk result (found.new.items ≡ found.old.items ++ list_of (row_of id.now (document_in horizon rows.now.items record.now.base record.now.commits.items commit))) }
{
    if let Some(there) = found_in(rows, horizon, record, commit) {
        found.push((id.clone()?, there.commit, there.document.clone()?))?;
    }
    Ok(())
}
