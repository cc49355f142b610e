//! How the body of a request is framed.
ghost use Rattle.std.specs.Prelude.{◌≡◌, ℕ, ◌+◌, ◌<◌, List, [], length, map, min, true, All, IsTrue};
ghost use Rattle.std.specs.Char.{is_ascii_digit, digit_value};
ghost use Rattle.std.specs.List.{list_all};
ghost use Rattle.std.specs.Str.Parse.{digits_value};
ghost use Rattle.httparse.specs.Spans.{header_bytes, IsHeaderWithin};
ghost use Rattle.http_message.specs.Framing.{framing_in, framing_by, framing_by_length, framing_by_codings, is_length, has_body};
ghost use Rattle.http_message.specs.Limits.{body_limit};
ghost use Rattle.http_message.specs.Message.{is_continue_expected};
ghost use Rattle.http_message.specs.Named.{IsNamed};

use crate::fields::{Named, expects, find_named};
use crate::limits::{BODY_LIMIT, MOST_FIELDS};
use crate::refusal::FramingRefusal;
use httparse::spans::HeaderSpan;

/// How the body of a request is framed (RFC 9112, section 6).
#[derive(Clone, Copy, Debug, PartialEq, Eq)]
pub enum Framing {
    /// By its length.
    Sized(usize),
    /// In chunks.
    Chunked,
}

impl Framing {
    /// Whether there are bytes to take.
    fn has_body(self) -> bool
        ensures { result ≡ has_body self }
    {
        match self {
            Framing::Sized(size) => size > 0,
            Framing::Chunked => true,
        }
    }
}

/// How the body is framed behind a head of this minor version and these fields, or why the head is
/// refused.
pub fn framing_in(text: &[u8], minor: u8, fields: &[HeaderSpan]) -> Result<Framing, FramingRefusal>
    requires { All (IsHeaderWithin (length text.now)) fields.now }
    ensures { result ≡ framing_in minor (map (header_bytes text.now) fields.now) }
{
    if fields.len() > MOST_FIELDS {
        return Err(FramingRefusal::HeadTooLarge);
    }
    let lengths = find_named(text, fields, b"content-length");
    let codings = find_named(text, fields, b"transfer-encoding");
    framing_by(minor, lengths, codings)
}

/// The same, by how often the two fields occur.
fn framing_by(minor: u8, lengths: Named, codings: Named) -> Result<Framing, FramingRefusal>
    ensures { (texts names : List (List ℕ)) → IsNamed texts lengths.entry → IsNamed names codings.entry
        → result ≡ framing_by minor texts names }
{
    match (lengths, codings) {
        (Named::Absent, Named::Absent) => Ok(Framing::Sized(0)),
        (Named::Once(text), Named::Absent) => framing_by_length(text),
        (Named::Repeated, Named::Absent) => Err(FramingRefusal::BadLength),
        (Named::Absent, _) if minor == 0 => Err(FramingRefusal::BadLength),
        (Named::Absent, Named::Once(coding)) => framing_by_coding(coding),
        (Named::Absent, Named::Repeated) => Err(FramingRefusal::BadCoding),
        _ => Err(FramingRefusal::BadLength),
    }
}

/// The same, of the only value of Transfer-Encoding.
fn framing_by_coding(coding: &[u8]) -> Result<Framing, FramingRefusal>
    ensures { result ≡ framing_by_codings coding.now [] }
{
    if coding.eq_ignore_ascii_case(b"chunked") {
        Ok(Framing::Chunked)
    } else {
        Err(FramingRefusal::BadCoding)
    }
}

/// The same, of the only value of Content-Length.
fn framing_by_length(text: &[u8]) -> Result<Framing, FramingRefusal>
    ensures { result ≡ framing_by_length text.now }
{
    if !is_length(text) {
        return Err(FramingRefusal::BadLength);
    }
    let size = number(text);
    if size > BODY_LIMIT {
        return Err(FramingRefusal::BodyTooLarge);
    }
    Ok(Framing::Sized(size))
}

/// Whether the text is 1 to 19 digits.
#[tactic(auto, unfolding(crate::specs::Framing::is_length))]
fn is_length(text: &[u8]) -> bool
    ensures value { result ≡ is_length text.now }
    ensures digits { IsTrue result → list_all is_ascii_digit text.now ≡ true }
{
    !text.is_empty() && text.len() <= 19 && are_digits(text)
}

/// Whether each byte is a digit.
pub fn are_digits(text: &[u8]) -> bool
    ensures { result ≡ list_all is_ascii_digit text.now }
{
    text.iter().all(|byte| byte.is_ascii_digit())
}

/// The number that the digits write, or one more than the limit where it is above this.
fn number(digits: &[u8]) -> usize
    requires { list_all is_ascii_digit digits.now ≡ true }
    ensures { result ≡ min (digits_value 10 digits.now) (body_limit + 1) }
{
    let mut number: usize = 0;
    for byte in digits {
        number = (number * 10 + digit(*byte)).min(BODY_LIMIT + 1);
    }
    number
}

/// The number that a digit writes.
fn digit(byte: u8) -> usize
    ensures value { is_ascii_digit byte ≡ true → result ≡ digit_value byte }
    ensures small { result < 256 }
{
    byte.wrapping_sub(b'0') as usize
}

/// Whether a head of this minor version and these fields, with this framing of its body, expects
/// `100 Continue`.
pub fn expects_continue(text: &[u8], minor: u8, fields: &[HeaderSpan], framing: Framing) -> bool
    requires { All (IsHeaderWithin (length text.now)) fields.now }
    ensures { result ≡ is_continue_expected minor (map (header_bytes text.now) fields.now) (has_body framing) }
{
    minor == 1 && framing.has_body() && expects(text, fields)
}
