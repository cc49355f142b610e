//! For how long a reply is fresh, by its directives for caches.
ghost use Rattle.std.specs.Prelude.{◌≡◌, length, map, All};
ghost use Rattle.httparse.specs.Grammar.{trim_ows};
ghost use Rattle.httparse.specs.Spans.{header_bytes, IsHeaderWithin};
ghost use Rattle.http_message.specs.Fields.{pieces_between};
ghost use Rattle.client_wire.specs.ReplyFields.{directives, lifetime_by, is_no_store, seconds_in};
ghost use Rattle.client_wire.specs.Values.{with_one, with_all, with_field};

use crate::numbers::number_within;
use http_message::{is_named, split_once, trimmed};
use httparse::spans::HeaderSpan;

/// What the directives that were read say.
#[derive(Clone, Copy, Debug, PartialEq, Eq)]
pub struct Directives {
    /// Whether one is `no-store` (RFC 9111, section 5.2.2.5).
    pub no_store: bool,
    /// The seconds of the first `max-age` with a number (RFC 9111, section 5.2.2.1).
    pub seconds: Option<u32>,
}

/// For how many seconds the reply is fresh, where it says so and no directive is `no-store`.
pub(crate) fn lifetime_in(text: &[u8], fields: &[HeaderSpan]) -> Option<u32>
    requires { All (IsHeaderWithin (length text.now)) fields.now }
    ensures { result ≡ lifetime_by (directives (map (header_bytes text.now) fields.now)) }
{
    let mut found = Directives {
        no_store: false,
        seconds: None,
    };
    for field in fields {
        found = with_field(text, found, *field);
    }
    if found.no_store {
        return None;
    }
    found.seconds
}

/// The directives of a field, where it has some, after those that were read.
fn with_field(text: &[u8], found: Directives, field: HeaderSpan) -> Directives
    requires { IsHeaderWithin (length text.now) field }
    ensures { result ≡ with_field found (header_bytes text.now field) }
{
    if is_named(text, field, b"cache-control") {
        return with_list(found, field.value.of(text));
    }
    found
}

/// The directives of a list, which commas part, after those that were read.
fn with_list(found: Directives, list: &[u8]) -> Directives
    ensures { result ≡ with_all found (map trim_ows (pieces_between 44 list.now)) }
{
    let mut all = found;
    let mut rest = list;
    while let Some((piece, others)) = split_once(rest) {
        all = with_one(all, trimmed(piece));
        rest = others;
    }
    with_one(all, trimmed(rest))
}

/// One more directive.
fn with_one(found: Directives, directive: &[u8]) -> Directives
    ensures { result ≡ with_one found directive.now }
{
    Directives {
        no_store: found.no_store || directive.eq_ignore_ascii_case(b"no-store"),
        seconds: match found.seconds {
            None => seconds_in(directive),
            Some(seconds) => Some(seconds),
        },
    }
}

/// The seconds of a directive `max-age=N`.
fn seconds_in(directive: &[u8]) -> Option<u32>
    ensures { result ≡ seconds_in directive.now }
{
    if directive.len() < 8 || !directive[..8].eq_ignore_ascii_case(b"max-age=") {
        return None;
    }
    match number_within(u64::from(u32::MAX), &directive[8..]) {
        Some(seconds) => Some(seconds as u32),
        None => None,
    }
}
