//! The fields of a reply's head: their values, and which is refused.
ghost use Rattle.std.specs.Prelude.{◌≡◌, ℕ, List, [], length, map, All, codes};
ghost use Rattle.httparse.specs.Spans.{header_bytes, IsHeaderWithin};
ghost use Rattle.client_wire.specs.Numbers.{number_in, length_in, date_in};
ghost use Rattle.client_wire.specs.ReplyFields.{stands, is_refused_as, is_refused, first_refused, first_value};
ghost use Rattle.client_wire.specs.Values.{IsValue};

use crate::numbers::{date_in, length_in, number_in};
use http_message::is_named;
use httparse::spans::HeaderSpan;

/// Whether a field of this name stands among these.
fn stands(text: &[u8], fields: &[HeaderSpan], name: &[u8]) -> bool
    requires { All (IsHeaderWithin (length text.now)) fields.now }
    ensures { result ≡ stands name.now (map (header_bytes text.now) fields.now) }
{
    let mut rest = fields;
    while let [field, others @ ..] = rest {
        if is_named(text, *field, name) {
            return true;
        }
        rest = others;
    }
    false
}

/// The value of the first field of this name.
pub(crate) fn first_value<'a>(
    text: &'a [u8],
    fields: &[HeaderSpan],
    name: &[u8],
) -> Option<&'a [u8]>
    requires { All (IsHeaderWithin (length text.now)) fields.now }
    ensures { IsValue (first_value name.now (map (header_bytes text.now) fields.now)) result }
{
    let mut rest = fields;
    while let [field, others @ ..] = rest {
        if is_named(text, *field, name) {
            return Some(field.value.of(text));
        }
        rest = others;
    }
    None
}

/// The index of the first field that is refused in a reply of this status.
pub(crate) fn first_refused(text: &[u8], status: u16, fields: &[HeaderSpan]) -> Option<usize>
    requires { All (IsHeaderWithin (length text.now)) fields.now }
    ensures { result ≡ first_refused status [] (map (header_bytes text.now) fields.now) }
{
    let mut index = 0;
    while index < fields.len() {
        if is_refused(text, status, &fields[..index], fields[index]) {
            return Some(index);
        }
        index += 1;
    }
    None
}

/// Whether the field is refused in a reply of this status, behind these fields.
fn is_refused(text: &[u8], status: u16, before: &[HeaderSpan], field: HeaderSpan) -> bool
    requires before { All (IsHeaderWithin (length text.now)) before.now }
    requires field { IsHeaderWithin (length text.now) field }
    ensures { result ≡ is_refused status (map (header_bytes text.now) before.now) (header_bytes text.now field) }
{
    is_named(text, field, b"transfer-encoding")
        || (status != 304 && is_refused_length(text, before, field))
        || is_refused_date(text, before, field)
        || (is_named(text, field, b"etag") && stands(text, before, b"etag"))
        || is_refused_number(text, before, field, b"quaestor-commit")
        || is_refused_number(text, before, field, b"quaestor-version")
        || is_refused_number(text, before, field, b"quaestor-until")
}

/// Whether the field is a second length, or none.
fn is_refused_length(text: &[u8], before: &[HeaderSpan], field: HeaderSpan) -> bool
    requires before { All (IsHeaderWithin (length text.now)) before.now }
    requires field { IsHeaderWithin (length text.now) field }
    ensures { result ≡ is_refused_as (codes "content-length") length_in (map (header_bytes text.now) before.now) (header_bytes text.now field) }
{
    is_named(text, field, b"content-length")
        && (stands(text, before, b"content-length") || length_in(field.value.of(text)).is_none())
}

/// Whether the field is a second date, or none.
fn is_refused_date(text: &[u8], before: &[HeaderSpan], field: HeaderSpan) -> bool
    requires before { All (IsHeaderWithin (length text.now)) before.now }
    requires field { IsHeaderWithin (length text.now) field }
    ensures { result ≡ is_refused_as (codes "date") date_in (map (header_bytes text.now) before.now) (header_bytes text.now field) }
{
    is_named(text, field, b"date")
        && (stands(text, before, b"date") || date_in(field.value.of(text)).is_none())
}

/// Whether the field is a second number of this name, or none.
fn is_refused_number(text: &[u8], before: &[HeaderSpan], field: HeaderSpan, name: &[u8]) -> bool
    requires before { All (IsHeaderWithin (length text.now)) before.now }
    requires field { IsHeaderWithin (length text.now) field }
    ensures { result ≡ is_refused_as name.now number_in (map (header_bytes text.now) before.now) (header_bytes text.now field) }
{
    is_named(text, field, name)
        && (stands(text, before, name) || number_in(field.value.of(text)).is_none())
}
