//! The fields of a head, found by their names.
ghost use Rattle.std.specs.Prelude.{◌≡◌, ℕ, List, ◌++◌, [], ◌∷◌, ◌&&◌, ◌<◌, length, map, slice_get, All, codes};
ghost use Rattle.std.specs.List.{list_any};
ghost use Rattle.std.specs.Str.{str_eq_ignore_ascii_case};
ghost use Rattle.httparse.specs.Spans.{header_bytes, span_bytes, IsHeaderWithin};
ghost use Rattle.http_message.specs.Fields.{values, is_named, has_option, lists};
ghost use Rattle.http_message.specs.Message.{expects};
ghost use Rattle.http_message.specs.Named.{IsNamed};

use crate::options::has_option;
use httparse::spans::HeaderSpan;

/// How often a name occurs among the fields of a head.
#[derive(Clone, Copy, Debug, PartialEq, Eq)]
pub enum Named<'a> {
    /// No field has it.
    Absent,
    /// One field has it, with this value.
    Once(&'a [u8]),
    /// Several fields have it.
    Repeated,
}

impl<'a> Named<'a> {
    /// With one more field that has the name.
    fn with(self, value: &'a [u8]) -> Named<'a>
        ensures { (found : List (List ℕ)) → IsNamed found self.entry → IsNamed (found ++ value.now ∷ []) result }
    {
        match self {
            Named::Absent => Named::Once(value),
            Named::Once(_) => Named::Repeated,
            Named::Repeated => Named::Repeated,
        }
    }
}

/// The field with this index.
pub fn field_at(text: &[u8], fields: &[HeaderSpan], index: usize) -> HeaderSpan
    requires within { All (IsHeaderWithin (length text.now)) fields.now }
    requires index { index < length fields.now }
    ensures within { IsHeaderWithin (length text.now) result }
    ensures is { slice_get (map (header_bytes text.now) fields.now) index ≡ Some (header_bytes text.now result) }
{
    fields[index]
}

/// How often this name occurs among the fields, and its value where it occurs once.
pub fn find_named<'a>(text: &'a [u8], fields: &[HeaderSpan], name: &[u8]) -> Named<'a>
    requires { All (IsHeaderWithin (length text.now)) fields.now }
    ensures { IsNamed (values name.now (map (header_bytes text.now) fields.now)) result }
{
    let mut found = Named::Absent;
    for field in fields {
        if !is_named(text, *field, name) {
            continue;
        }
        found = found.with(field.value.of(text));
    }
    found
}

/// Whether the field has this name, without regard to ASCII case.
pub fn is_named(text: &[u8], field: HeaderSpan, name: &[u8]) -> bool
    requires { IsHeaderWithin (length text.now) field }
    ensures { result ≡ is_named name.now (header_bytes text.now field) }
{
    field.name.of(text).eq_ignore_ascii_case(name)
}

/// Whether some field of this name lists the option.
pub fn lists(text: &[u8], fields: &[HeaderSpan], name: &[u8], option: &[u8]) -> bool
    requires { All (IsHeaderWithin (length text.now)) fields.now }
    ensures { result ≡ lists name.now option.now (map (header_bytes text.now) fields.now) }
{
    for field in fields {
        if is_listed(text, *field, name, option) {
            return true;
        }
    }
    false
}

/// Whether this field has the name, and does.
fn is_listed(text: &[u8], field: HeaderSpan, name: &[u8], option: &[u8]) -> bool
    requires { IsHeaderWithin (length text.now) field }
    ensures { result ≡ (is_named name.now (header_bytes text.now field) && has_option option.now (span_bytes text.now field.value)) }
{
    is_named(text, field, name) && has_option(field.value.of(text), option)
}

/// Whether some field of Expect asks for `100 Continue`.
pub fn expects(text: &[u8], fields: &[HeaderSpan]) -> bool
    requires { All (IsHeaderWithin (length text.now)) fields.now }
    ensures { result ≡ expects (map (header_bytes text.now) fields.now) }
{
    for field in fields {
        if is_expectation(text, *field) {
            return true;
        }
    }
    false
}

/// Whether this field does.
fn is_expectation(text: &[u8], field: HeaderSpan) -> bool
    requires { IsHeaderWithin (length text.now) field }
    ensures { result ≡ (is_named (codes "expect") (header_bytes text.now field) && str_eq_ignore_ascii_case (span_bytes text.now field.value) (codes "100-continue")) }
{
    is_named(text, field, b"expect") && field.value.of(text).eq_ignore_ascii_case(b"100-continue")
}
