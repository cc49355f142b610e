//! The values of a request's fields of one name.
ghost use Rattle.std.specs.Prelude.{◌≡◌, ◌<◌, ◌+◌, ◌++◌, length, take, option_to_list};
ghost use Rattle.std.specs.Option.{option_copied};
ghost use Rattle.std.specs.Str.{str_eq_ignore_ascii_case};
ghost use Rattle.http_message.specs.Fields.{values};
ghost use Rattle.http_front.specs.Asks.{has_condition, has_host, has_length, has_no_coding};

use http_message::{Named, Request};

/// The value of the field with this index, where it has this name.
pub fn value_at<'a>(request: &Request<'a>, index: usize, name: &[u8]) -> Option<&'a [u8]>
    requires { index < length request.now.fields }
    ensures { values name.now (take (index + 1) request.now.fields) ≡ values name.now (take index request.now.fields) ++ option_to_list (option_copied result) }
{
    if is_same_word(request.name(index), name) {
        return Some(request.value(index));
    }
    None
}

/// Whether there are as many fields of Host as the version asks for.
#[tactic(auto, unfolding(crate::specs::Asks::has_host))]
pub fn has_host(request: &Request<'_>) -> bool
    ensures { result ≡ has_host request.now }
{
    match request.named(b"host") {
        Named::Absent => request.minor() == 0,
        Named::Once(_) => true,
        Named::Repeated => false,
    }
}

/// Whether the length of the body is given (RFC 9112, section 6).
#[tactic(auto, unfolding(crate::specs::Asks::has_length))]
pub fn has_length(request: &Request<'_>) -> bool
    ensures { result ≡ has_length request.now }
{
    request.named(b"content-length") != Named::Absent
        || request.named(b"transfer-encoding") != Named::Absent
}

/// Whether the request has If-Match or If-None-Match.
pub fn has_condition(request: &Request<'_>) -> bool
    ensures { result ≡ has_condition request.now }
{
    request.named(b"if-match") != Named::Absent || request.named(b"if-none-match") != Named::Absent
}

/// Whether the content has no coding but `identity`.
pub fn has_no_coding(request: &Request<'_>) -> bool
    ensures { result ≡ has_no_coding request.now }
{
    for index in 0..request.field_count() {
        if let Some(coding) = value_at(request, index, b"content-encoding")
            && !is_same_word(coding, b"identity")
        {
            return false;
        }
    }
    true
}

/// Whether two texts are the same without regard to ASCII case.
pub(crate) fn is_same_word(text: &[u8], other: &[u8]) -> bool
    ensures { result ≡ str_eq_ignore_ascii_case text.now other.now }
{
    text.eq_ignore_ascii_case(other)
}
