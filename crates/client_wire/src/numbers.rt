//! Numbers, dates and entity tags in the fields of a reply.
ghost use Rattle.std.specs.Prelude.{◌≡◌, ◌<◌, ◌≤◌, min, true, IfSome, IsTrue};
ghost use Rattle.std.specs.Char.{is_ascii_digit, digit_value};
ghost use Rattle.std.specs.List.{list_all};
ghost use Rattle.std.specs.Str.Parse.{digits_value};
ghost use Rattle.client_wire.specs.Numbers.{body_limit, is_number, number_within, number_in, length_in, date_in, tag_in};

use http_message::are_digits;
use httpdate::HttpDate;

/// The longest body that a client takes, in bytes.
pub const BODY_LIMIT: u64 = 134_217_730;

/// The decimal number that the text is, where it is at most this one. It may begin with zeros.
pub(crate) fn number_within(most: u64, text: &[u8]) -> Option<u64>
    ensures value { result ≡ number_within most text.now }
    ensures limit { IfSome result (λ n. n ≤ most) }
{
    if !is_number(text) {
        return None;
    }
    let number = capped(text, u128::from(most) + 1);
    if number > u128::from(most) {
        return None;
    }
    Some(number as u64)
}

/// Whether the text is one digit or more.
#[tactic(auto, unfolding(crate::specs::Numbers::is_number))]
fn is_number(text: &[u8]) -> bool
    ensures value { result ≡ is_number text.now }
    ensures digits { IsTrue result → list_all is_ascii_digit text.now ≡ true }
{
    !text.is_empty() && are_digits(text)
}

/// The number that the digits write, or this one where it is above.
fn capped(digits: &[u8], most: u128) -> u128
    requires digits { list_all is_ascii_digit digits.now ≡ true }
    requires some { 0 < most }
    requires small { most ≤ 18446744073709551616 }
    ensures { result ≡ min (digits_value 10 digits.now) most }
{
    let mut number: u128 = 0;
    for byte in digits {
        number = (number * 10 + u128::from(digit(*byte))).min(most);
    }
    number
}

/// The number that a digit writes.
fn digit(byte: u8) -> u8
    ensures value { is_ascii_digit byte ≡ true → result ≡ digit_value byte }
    ensures small { result < 256 }
{
    byte.wrapping_sub(b'0')
}

/// A number of 64 bits.
pub(crate) fn number_in(text: &[u8]) -> Option<u64>
    ensures { result ≡ number_in text.now }
{
    number_within(u64::MAX, text)
}

/// The length of a body: 1 to 19 digits, and within the limit.
pub(crate) fn length_in(text: &[u8]) -> Option<u64>
    ensures value { result ≡ length_in text.now }
    ensures limit { IfSome result (λ n. n ≤ body_limit) }
{
    if text.len() > 19 {
        return None;
    }
    number_within(BODY_LIMIT, text)
}

/// The second at which a date begins (RFC 9110, section 5.6.7).
pub(crate) fn date_in(text: &[u8]) -> Option<u64>
    ensures { result ≡ date_in text.now }
{
    if text.len() != 29 {
        return None;
    }
    match HttpDate::parse_ascii(text) {
        Ok(date) => Some(date.unix_secs()),
        Err(_) => None,
    }
}

/// The commit that an entity tag names: a number of 64 bits in double quotes.
pub(crate) fn tag_in(text: &[u8]) -> Option<u64>
    ensures { result ≡ tag_in text.now }
{
    if text.len() > 1 && text[0] == b'"' && text[text.len() - 1] == b'"' {
        return number_in(&text[1..text.len() - 1]);
    }
    None
}
