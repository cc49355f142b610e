//! The text of the result of a query.
ghost use Rattle.std.specs.Prelude.{◌≡◌, ◌+◌, ◌^◌, ◌<◌, ◌≤◌, ◌++◌, length, min, vec_len, vec_capacity, IsOk, IfOk, IfSome, OnOk, OnErr, ◌-◌, codes};
ghost use Rattle.std.specs.List.{join_by};
ghost use Rattle.result_kinds.specs.Results.{object_text, id_text, objects_text, ids_text, result_of, text_of_result};
ghost use Rattle.result_kinds.specs.Shown.{shown_text};

use crate::append::append;
use crate::rows::{PrintedRow, append_id, id_len, ids_of, printed_rows};
use q_base::{Memory, Name, SharedText, Text};
use query_core::{Kind, Rows};
use std::alloc::Global;
use std::marker::Model;

/// The greatest length of the text of a list, in bytes.
const LONGEST: usize = 9_223_372_036_854_775_807;

/// What a text shows.
#[derive(Debug, Drop)]
pub enum Shown {
    /// A printed document, as it is.
    Document(SharedText),
    /// The objects of these rows, in brackets and with commas between them.
    Objects(Vec<PrintedRow>),
    /// These ids in quotes, in brackets and with commas between them.
    Ids(Vec<Name>),
}

/// The text of a result that is not yet written: what it shows, and its length. The documents in it are
/// shared with whoever keeps them. Contracts see the bytes.
#[derive(Debug, Drop)]
pub struct ResultText {
    shown: Shown,
    len: usize,
}

impl Model for ResultText {
    ghost use Rattle.std.specs.Prelude.{◌≡◌, ℕ, List, length};
    ghost use Rattle.result_kinds.specs.Shown.{shown_text};

    ghost Value = { List ℕ };

    ghost view = { λ t. shown_text t.shown };

    ghost invariant = { λ t. t.len ≡ length (shown_text t.shown) };
}

impl ResultText {
    /// The text of a document, which is the document. It allocates nothing.
    #[inline(always)]
    pub fn of_document(text: SharedText) -> ResultText
        ensures { result ≡ text }
    {
        let len = text.as_slice().len();
        ResultText {
            shown: Shown::Document(text),
            len,
        }
    }

    /// The text of a result of kind objects. It allocates nothing: `Memory` is answered only where no
    /// buffer could hold the text.
    pub fn of_objects(rows: Vec<PrintedRow>) -> Result<ResultText, Memory>
        ensures text { IfOk result (λ text. text ≡ objects_text rows.items) }
        ensures fits { length (objects_text rows.items) < 2 ^ 63 → IsOk result }
    {
        ResultText::of(Shown::Objects(rows))
    }

    /// The text of a result of kind ids. It allocates nothing: `Memory` is answered only where no
    /// buffer could hold the text.
    pub fn of_ids(ids: Vec<Name>) -> Result<ResultText, Memory>
        ensures text { IfOk result (λ text. text ≡ ids_text ids.items) }
        ensures fits { length (ids_text ids.items) < 2 ^ 63 → IsOk result }
    {
        ResultText::of(Shown::Ids(ids))
    }

    /// The text of what is shown.
    fn of(shown: Shown) -> Result<ResultText, Memory>
        ensures text { IfOk result (λ text. text ≡ shown_text shown) }
        ensures fits { length (shown_text shown) < 2 ^ 63 → IsOk result }
    {
        let len = shown.len();
        if len > LONGEST {
            return Err(Memory);
        }
        Ok(ResultText { shown, len })
    }

    /// The number of bytes. It is known before they are written.
    pub fn len(&self) -> usize
        ensures { result ≡ length self.now }
    {
        self.len
    }

    /// What it shows.
    pub fn shown(&self) -> &Shown
        ensures { shown_text result.now ≡ self.now }
    {
        &self.shown
    }

    /// The bytes, where they are those of a document.
    #[inline(always)]
    pub fn as_document(&self) -> Option<&[u8]>
        ensures { IfSome result (λ bytes. bytes.now ≡ self.now) }
    {
        match &self.shown {
            Shown::Document(text) => Some(text.as_slice()),
            _ => None,
        }
    }

    /// The text written: that of a document is shared, another is written into a buffer of its own.
    pub fn to_shared(&self, alloc: Global) -> Result<SharedText, Memory>
        ensures { IfOk result (λ text. text ≡ self.now) }
    {
        if let Shown::Document(text) = &self.shown {
            return Ok(text.clone()?);
        }
        let mut buffer = Vec::with_capacity(alloc, self.len)?;
        self.write_into(&mut buffer)?;
        Ok(SharedText::of(alloc, buffer)?)
    }

    /// Writes the text at the end of a buffer. Memory is taken once, and none where the buffer has room.
    pub fn write_into(&self, buffer: &mut Vec<u8>) -> Result<(), Memory>
        ensures text { OnOk result (buffer.new.items ≡ buffer.old.items ++ self.now) }
        ensures memory { OnErr result (buffer.new.items ≡ buffer.old.items) }
        ensures room { vec_len buffer.old + length self.now ≤ vec_capacity buffer.old → IsOk result }
    {
        buffer.reserve(self.len)?;
        self.shown.append(buffer);
        Ok(())
    }
}

impl Shown {
    /// The length of its text, or the greatest number where that is less.
    fn len(&self) -> usize
        ensures { result ≡ min (length (shown_text self.now)) (2 ^ 64 - 1) }
    {
        match self {
            Shown::Document(text) => text.as_slice().len(),
            Shown::Objects(rows) => objects_len(rows),
            Shown::Ids(ids) => ids_len(ids),
        }
    }

    /// Writes its text.
    fn append(&self, buffer: &mut Vec<u8>)
        requires { vec_len buffer.old + length (shown_text self.now) ≤ vec_capacity buffer.old }
        ensures { buffer.new.items ≡ buffer.old.items ++ shown_text self.now }
    {
        match self {
            Shown::Document(text) => append(buffer, text.as_slice()),
            Shown::Objects(rows) => append_objects(buffer, rows),
            Shown::Ids(ids) => append_ids(buffer, ids),
        }
    }
}

/// The text of the result of a query with these rows, in a buffer of its own. Each document is
/// printed once.
pub fn result_text(alloc: Global, kind: Kind, rows: &Rows) -> Result<Text, Memory>
    ensures { IfOk result (λ text. text ≡ text_of_result (result_of kind rows.now)) }
{
    let text = match kind {
        Kind::Objects => ResultText::of_objects(printed_rows(alloc, rows)?)?,
        Kind::Ids => ResultText::of_ids(ids_of(alloc, rows.as_slice())?)?,
    };
    let mut buffer = Vec::new(alloc);
    text.write_into(&mut buffer)?;
    Ok(Text::of(buffer))
}

/// The length of the list of objects, or the greatest number where that is less.
fn objects_len(rows: &[PrintedRow]) -> usize
    ensures { result ≡ min (length (objects_text rows.now)) (2 ^ 64 - 1) }
{
    let Some((first, rest)) = rows.split_first() else {
        return 2;
    };
    let mut len = first.object_len().saturating_add(2);
    for row in rest {
        len = len.saturating_add(row.object_len()).saturating_add(1);
    }
    len
}

/// Writes the list of objects.
fn append_objects(buffer: &mut Vec<u8>, rows: &[PrintedRow])
    requires { vec_len buffer.old + length (objects_text rows.now) ≤ vec_capacity buffer.old }
    ensures { buffer.new.items ≡ buffer.old.items ++ objects_text rows.now }
{
    append(buffer, b"[");
    append_each_object(buffer, rows);
    append(buffer, b"]");
}

/// Writes the objects, with commas between them.
fn append_each_object(buffer: &mut Vec<u8>, rows: &[PrintedRow])
    requires { vec_len buffer.old + length (join_by object_text (codes ",") rows.now) ≤ vec_capacity buffer.old }
    ensures items { buffer.new.items ≡ buffer.old.items ++ join_by object_text (codes ",") rows.now }
    ensures len { vec_len buffer.new ≡ vec_len buffer.old + length (join_by object_text (codes ",") rows.now) }
    ensures capacity { vec_capacity buffer.old ≤ vec_capacity buffer.new }
{
    let Some((first, rest)) = rows.split_first() else {
        return;
    };
    first.append_object(buffer);
    for row in rest {
        append(buffer, b",");
        row.append_object(buffer);
    }
}

/// The length of the list of ids, or the greatest number where that is less.
fn ids_len(ids: &[Name]) -> usize
    ensures { result ≡ min (length (ids_text ids.now)) (2 ^ 64 - 1) }
{
    let Some((first, rest)) = ids.split_first() else {
        return 2;
    };
    let mut len = id_len(first).saturating_add(2);
    for id in rest {
        len = len.saturating_add(id_len(id)).saturating_add(1);
    }
    len
}

/// Writes the list of ids.
fn append_ids(buffer: &mut Vec<u8>, ids: &[Name])
    requires { vec_len buffer.old + length (ids_text ids.now) ≤ vec_capacity buffer.old }
    ensures { buffer.new.items ≡ buffer.old.items ++ ids_text ids.now }
{
    append(buffer, b"[");
    append_each_id(buffer, ids);
    append(buffer, b"]");
}

/// Writes the ids, with commas between them.
fn append_each_id(buffer: &mut Vec<u8>, ids: &[Name])
    requires { vec_len buffer.old + length (join_by id_text (codes ",") ids.now) ≤ vec_capacity buffer.old }
    ensures items { buffer.new.items ≡ buffer.old.items ++ join_by id_text (codes ",") ids.now }
    ensures len { vec_len buffer.new ≡ vec_len buffer.old + length (join_by id_text (codes ",") ids.now) }
    ensures capacity { vec_capacity buffer.old ≤ vec_capacity buffer.new }
{
    let Some((first, rest)) = ids.split_first() else {
        return;
    };
    append_id(buffer, first);
    for id in rest {
        append(buffer, b",");
        append_id(buffer, id);
    }
}
