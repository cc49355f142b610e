//! Rows with printed documents.
ghost use Rattle.std.specs.Prelude.{◌≡◌, ◌+◌, ◌≤◌, ◌++◌, length, map, vec_len, vec_capacity, IfOk};
ghost use Rattle.result_kinds.specs.Results.{object_text, id_text, ids_of, printed_row};

use crate::append::{append, append_number, digit_count};
use q_base::{Commit, Memory, Name, SharedText};
use query_core::{Row, Rows};
use std::alloc::Global;

/// The bytes of an object beside its document, its id and its version.
const FIXED_BYTES: usize = 27;

/// A row with its document printed, as the book of commits keeps it.
#[derive(Debug, Drop)]
pub struct PrintedRow {
    pub id: Name,
    /// The commit that put the document there.
    pub version: Commit,
    /// The printed document.
    pub text: SharedText,
}

impl PrintedRow {
    /// The length of the row as an object.
    pub(crate) fn object_len(&self) -> usize
        ensures { result ≡ length (object_text self.now) }
    {
        FIXED_BYTES
            + self.text.as_slice().len()
            + self.id.as_slice().len()
            + digit_count(self.version)
    }

    /// Writes the row as an object.
    pub(crate) fn append_object(&self, buffer: &mut Vec<u8>)
        requires { vec_len buffer.old + length (object_text self.now) ≤ vec_capacity buffer.old }
        ensures items { buffer.new.items ≡ buffer.old.items ++ object_text self.now }
        ensures len { vec_len buffer.new ≡ vec_len buffer.old + length (object_text self.now) }
        ensures capacity { vec_capacity buffer.old ≤ vec_capacity buffer.new }
    {
        append(buffer, b"{\"doc\":");
        append(buffer, self.text.as_slice());
        append(buffer, b",\"id\":\"");
        append(buffer, self.id.as_slice());
        append(buffer, b"\",\"version\":");
        append_number(buffer, self.version);
        append(buffer, b"}");
    }
}

/// The length of an id in quotes.
pub(crate) fn id_len(id: &Name) -> usize
    ensures { result ≡ length (id_text id.now) }
{
    id.as_slice().len() + 2
}

/// Writes an id in quotes. No byte of a name is escaped.
pub(crate) fn append_id(buffer: &mut Vec<u8>, id: &Name)
    requires { vec_len buffer.old + length (id_text id.now) ≤ vec_capacity buffer.old }
    ensures items { buffer.new.items ≡ buffer.old.items ++ id_text id.now }
    ensures len { vec_len buffer.new ≡ vec_len buffer.old + length (id_text id.now) }
    ensures capacity { vec_capacity buffer.old ≤ vec_capacity buffer.new }
{
    append(buffer, b"\"");
    append(buffer, id.as_slice());
    append(buffer, b"\"");
}

/// The rows with their documents printed, each once.
pub fn printed_rows(alloc: Global, rows: &Rows) -> Result<Vec<PrintedRow>, Memory>
    ensures { IfOk result (λ printed. printed.items ≡ map printed_row rows.now) }
{
    let found = rows.as_slice();
    let mut printed = Vec::with_capacity(alloc, found.len())?;
    for row in found {
        printed.push(printed_row(alloc, row)?)?;
    }
    Ok(printed)
}

fn printed_row(alloc: Global, row: &Row) -> Result<PrintedRow, Memory>
    ensures { IfOk result (λ printed. printed ≡ printed_row row.now) }
{
    let Ok(text) = row.2.print(alloc) else {
        return Err(Memory);
    };
    Ok(PrintedRow {
        id: row.0.clone()?,
        version: row.1,
        text: SharedText::of(alloc, text.into_vec())?,
    })
}

/// The ids of the rows.
pub fn ids_of(alloc: Global, rows: &[Row]) -> Result<Vec<Name>, Memory>
    ensures { IfOk result (λ ids. ids.items ≡ ids_of rows.now) }
{
    let mut ids = Vec::with_capacity(alloc, rows.len())?;
    for row in rows {
        ids.push(row.0.clone()?)?;
    }
    Ok(ids)
}
