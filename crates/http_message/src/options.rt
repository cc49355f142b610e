//! Options in a field that lists them, separated by commas (RFC 9110, section 5.6.1).
ghost use Rattle.std.specs.Prelude.{◌≡◌, ◌<◌, ◌≤◌, [], ◌∷◌, length, reverse, IfSome, IfNone};
ghost use Rattle.std.specs.Str.{str_eq_ignore_ascii_case};
ghost use Rattle.httparse.specs.Grammar.{skip_ows, trim_ows};
ghost use Rattle.http_message.specs.Fields.{has_option, pieces_between};

use httparse::is_space_or_tab;
use memchr::memchr;

/// Whether the list has this option.
pub fn has_option(text: &[u8], option: &[u8]) -> bool
    ensures { result ≡ has_option option.now text.now }
{
    let mut rest = text;
    while let Some((member, others)) = split_once(rest) {
        if is_option(member, option) {
            return true;
        }
        rest = others;
    }
    is_option(rest, option)
}

/// The list before its first comma and after it, or nothing where it has none.
pub fn split_once(list: &[u8]) -> Option<(&[u8], &[u8])>
    ensures parts { IfSome result (λ parts. pieces_between 44 list.now ≡ parts.0.now ∷ pieces_between 44 parts.1.now) }
    ensures less { IfSome result (λ parts. length parts.1.now < length list.now) }
    ensures none { IfNone result (pieces_between 44 list.now ≡ list.now ∷ []) }
{
    match memchr(b',', list) {
        Some(end) => Some((&list[..end], &list[end + 1..])),
        None => None,
    }
}

/// Whether the member is this option, with white space around it.
fn is_option(member: &[u8], option: &[u8]) -> bool
    ensures { result ≡ str_eq_ignore_ascii_case (trim_ows member.now) option.now }
{
    trimmed(member).eq_ignore_ascii_case(option)
}

/// Without the white space around it.
#[tactic(auto, unfolding(httparse::specs::Grammar::trim_ows))]
pub fn trimmed(text: &[u8]) -> &[u8]
    ensures { result.now ≡ trim_ows text.now }
{
    trim_end(trim_start(text))
}

/// Without the white space at the start.
pub fn trim_start(text: &[u8]) -> &[u8]
    ensures value { result.now ≡ skip_ows text.now }
    ensures shorter { length result.now ≤ length text.now }
{
    let mut rest = text;
    while let [first, others @ ..] = rest
        && is_space_or_tab(*first)
    {
        rest = others;
    }
    rest
}

/// Without the white space at the end.
fn trim_end(text: &[u8]) -> &[u8]
    ensures { result.now ≡ reverse (skip_ows (reverse text.now)) }
{
    let mut rest = text;
    while let [others @ .., last] = rest
        && is_space_or_tab(*last)
    {
        rest = others;
    }
    rest
}
