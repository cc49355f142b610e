//! The texts of results, given by way of a buffer: a result is never written as a whole.
ghost use Rattle.std.specs.Prelude.{◌≤◌, ◌++◌, codes, length, take};
ghost use Rattle.q_outside.specs.Ends.{Gave};
ghost use Rattle.result_kinds.specs.Results.{ids_text, objects_text};
ghost use Rattle.result_kinds.specs.Shown.{shown_text};
ghost use Rattle.http_front.specs.Buffered.{Adds};
ghost use Rattle.http_front.specs.ResultTexts.{object_rest};

use crate::body::{NUMBERS_CAPACITY, number_body};
use crate::buffered::{add, add_both};
use q_base::Name;
use q_outside::{Failed, Sink, give_all};
use result_kinds::{PrintedRow, ResultText, Shown};

/// Gives what waits in a buffer and then the text of a result, which is written through the buffer.
pub(crate) fn give_result<K: Sink>(
    sink: &mut K,
    buffer: &mut [u8],
    at: usize,
    text: &ResultText,
) -> Result<(), Failed>
    requires { at ≤ length buffer.old }
    ensures { Gave (K.at sink.old) (K.at sink.new) (take at buffer.old ++ text.now) result }
{
    let end = add_shown(sink, buffer, at, text.shown())?;
    give_all(sink, &buffer[..end])
}

/// Adds what a text shows.
fn add_shown<K: Sink>(
    sink: &mut K,
    buffer: &mut [u8],
    at: usize,
    shown: &Shown,
) -> Result<usize, Failed>
    requires { at ≤ length buffer.old }
    ensures { Adds (K.at sink.old) (K.at sink.new) (take at buffer.old) (shown_text shown.now) buffer.new result }
{
    match shown {
        Shown::Document(text) => add(sink, buffer, at, text.as_slice()),
        Shown::Objects(rows) => add_objects(sink, buffer, at, rows),
        Shown::Ids(ids) => add_ids(sink, buffer, at, ids),
    }
}

/// Adds a list of objects.
fn add_objects<K: Sink>(
    sink: &mut K,
    buffer: &mut [u8],
    at: usize,
    rows: &[PrintedRow],
) -> Result<usize, Failed>
    requires { at ≤ length buffer.old }
    ensures { Adds (K.at sink.old) (K.at sink.new) (take at buffer.old) (objects_text rows.now) buffer.new result }
{
    let Some((first, rest)) = rows.split_first() else {
        return add(sink, buffer, at, b"[]");
    };
    let mut end = add_object(sink, buffer, at, b"[{\"doc\":", first)?;
    for row in rest {
        end = add_object(sink, buffer, end, b",{\"doc\":", row)?;
    }
    add(sink, buffer, end, b"]")
}

/// Adds the start of an object and then the rest of a row as one.
fn add_object<K: Sink>(
    sink: &mut K,
    buffer: &mut [u8],
    at: usize,
    start: &[u8],
    row: &PrintedRow,
) -> Result<usize, Failed>
    requires { at ≤ length buffer.old }
    ensures { Adds (K.at sink.old) (K.at sink.new) (take at buffer.old) (start.now ++ object_rest row.now) buffer.new result }
{
    let mut numbers = [0; NUMBERS_CAPACITY];
    let shown = add_both(sink, buffer, at, start, row.text.as_slice())?;
    let named = add_both(sink, buffer, shown, b",\"id\":\"", row.id.as_slice())?;
    let version = number_body(b"\",\"version\":", row.version, b"}", &mut numbers);
    add(sink, buffer, named, version)
}

/// Adds a list of ids.
fn add_ids<K: Sink>(
    sink: &mut K,
    buffer: &mut [u8],
    at: usize,
    ids: &[Name],
) -> Result<usize, Failed>
    requires { at ≤ length buffer.old }
    ensures { Adds (K.at sink.old) (K.at sink.new) (take at buffer.old) (ids_text ids.now) buffer.new result }
{
    let Some((first, rest)) = ids.split_first() else {
        return add(sink, buffer, at, b"[]");
    };
    let mut end = add_id(sink, buffer, at, b"[\"", first)?;
    for id in rest {
        end = add_id(sink, buffer, end, b",\"", id)?;
    }
    add(sink, buffer, end, b"]")
}

/// Adds what comes before an id, and the id with the quote behind it.
fn add_id<K: Sink>(
    sink: &mut K,
    buffer: &mut [u8],
    at: usize,
    start: &[u8],
    id: &Name,
) -> Result<usize, Failed>
    requires { at ≤ length buffer.old }
    ensures { Adds (K.at sink.old) (K.at sink.new) (take at buffer.old) (start.now ++ (id.now ++ codes "\"")) buffer.new result }
{
    let named = add_both(sink, buffer, at, start, id.as_slice())?;
    add(sink, buffer, named, b"\"")
}
