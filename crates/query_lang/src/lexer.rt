//! The tokens of a text, one by one.
ghost use Rattle.std.specs.Prelude.{◌≡◌, ◌+◌, ◌-◌, ◌<◌, ◌≤◌, ◌++◌, length, take, drop, slice_index};
ghost use Rattle.std.specs.Str.Parse.{IsNumeral, without_leading_sign};
ghost use Rattle.query_lang.specs.Bytes.{after_blanks};
ghost use Rattle.query_lang.specs.Lexing.{lexeme, lexeme_at, word_token, reserved_of, number_at, number_token, minus_len, quoted_at, sign_at, sign_lexeme};
ghost use Rattle.query_lang.specs.Seen.{seen_lexeme, seen_kind, Shortens};

use crate::bytes::{Class, after_blanks, byte_at, cut, first, is_letter, run_len, skip, split_run};
use crate::quoted::{QuotedScan, find_end};
use crate::token::{Beginning, Lexeme, Reserved, Sign, Token, TokenKind};
use query_core::Op;

/// What comes next in a text.
#[tactic(auto, unfolding(crate::specs::Lexing::lexeme))]
pub fn next_lexeme(text: &str) -> Lexeme<'_>
    ensures value { seen_lexeme result ≡ lexeme text.now }
    ensures shorter { Shortens result text.now }
{
    let from = after_blanks(text);
    if from.is_empty() {
        return Lexeme::End;
    }
    let byte = first(from);
    if is_letter(byte) {
        let (span, rest) = split_run(from, Class::Word);
        Lexeme::Found(Token {
            kind: word_kind(span),
            left: from.len(),
            span,
            rest,
        })
    } else if byte.is_ascii_digit() || byte == b'-' {
        number(from)
    } else if byte == b'"' {
        quoted(from)
    } else {
        sign(from)
    }
}

/// The token of a word.
fn word_kind(word: &str) -> TokenKind<'_>
    ensures { seen_kind result ≡ word_token word.now }
{
    match reserved_of(word) {
        Some(reserved) => TokenKind::Word(reserved),
        None => TokenKind::Name(word),
    }
}

/// The reserved word of these bytes, if one is.
fn reserved_of(word: &str) -> Option<Reserved>
    ensures { result ≡ reserved_of word.now }
{
    if word == "and" {
        Some(Reserved::And)
    } else if word == "or" {
        Some(Reserved::Or)
    } else if word == "not" {
        Some(Reserved::Not)
    } else if word == "in" {
        Some(Reserved::In)
    } else if word == "has" {
        Some(Reserved::Has)
    } else if word == "exists" {
        Some(Reserved::Exists)
    } else if word == "true" {
        Some(Reserved::True)
    } else if word == "false" {
        Some(Reserved::False)
    } else if word == "null" {
        Some(Reserved::Null)
    } else if word == "asc" {
        Some(Reserved::Asc)
    } else if word == "desc" {
        Some(Reserved::Desc)
    } else {
        None
    }
}

/// What begins with a digit or `-`.
pub(crate) fn number(from: &str) -> Lexeme<'_>
    ensures value { seen_lexeme result ≡ number_at from.now }
    ensures shorter { Shortens result from.now }
{
    let minus = minus_len(from);
    let digits = after_minus(from);
    let count = run_len(digits, Class::Digit);
    if count > 0 {
        let (span, rest) = cut(from, minus + count);
        Lexeme::Found(Token {
            kind: number_kind(span),
            left: from.len(),
            span,
            rest,
        })
    } else if digits.is_empty() {
        Lexeme::Unfinished {
            what: Beginning::Number,
            left: from.len(),
        }
    } else {
        Lexeme::Unknown { left: from.len() }
    }
}

/// 1 where a text begins with `-`.
fn minus_len(text: &str) -> usize
    ensures { result ≡ minus_len text.now }
{
    if first(text) == b'-' { 1 } else { 0 }
}

/// The text without a `-` at its beginning.
fn after_minus(text: &str) -> &str
    ensures { result.now ≡ drop (minus_len text.now) text.now }
{
    if first(text) == b'-' {
        skip(text, 1)
    } else {
        text
    }
}

/// The token of a numeral.
fn number_kind(span: &str) -> TokenKind<'_>
    requires { IsNumeral 10 (without_leading_sign span.now) }
    ensures { seen_kind result ≡ number_token span.now }
{
    if span.len() > 1 && byte_at(span, minus_len(span)) == b'0' {
        return TokenKind::BadNumber;
    }
    match span.parse::<i64>() {
        Ok(number) => TokenKind::Number(number),
        Err(_) => TokenKind::BadNumber,
    }
}

/// What begins with a quote.
fn quoted(from: &str) -> Lexeme<'_>
    requires { slice_index from.now 0 ≡ 34 }
    ensures value { seen_lexeme result ≡ quoted_at from.now }
    ensures shorter { Shortens result from.now }
{
    match find_end(skip(from, 1)) {
        QuotedScan::Closed { body } => {
            let (span, rest) = cut(from, body.len() + 2);
            Lexeme::Found(Token {
                kind: TokenKind::Quoted(body),
                left: from.len(),
                span,
                rest,
            })
        }
        QuotedScan::Open => Lexeme::Unfinished {
            what: Beginning::Text,
            left: from.len(),
        },
        QuotedScan::Bad { at } => Lexeme::BadText {
            left: from.len(),
            left_there: at.len(),
        },
    }
}

/// What begins with another byte: a sign, or nothing of the language.
fn sign(from: &str) -> Lexeme<'_>
    ensures value { seen_lexeme result ≡ sign_lexeme from.now }
    ensures shorter { Shortens result from.now }
{
    match sign_at(first(from), byte_at(from, 1)) {
        Some((sign, length)) => {
            let (span, rest) = cut(from, length);
            Lexeme::Found(Token {
                kind: TokenKind::Sign(sign),
                left: from.len(),
                span,
                rest,
            })
        }
        None if first(from) == b'!' && from.len() == 1 => Lexeme::Unfinished {
            what: Beginning::Unequal,
            left: 1,
        },
        None => Lexeme::Unknown { left: from.len() },
    }
}

/// The sign that begins with this byte, which the next one follows, and its length.
fn sign_at(byte: u8, next: u8) -> Option<(Sign, usize)>
    ensures { result ≡ sign_at byte next }
{
    match byte {
        b'=' => Some((Sign::Compare(Op::Equal), 1)),
        b'!' if next == b'=' => Some((Sign::Compare(Op::Unequal), 2)),
        b'<' if next == b'=' => Some((Sign::Compare(Op::AtMost), 2)),
        b'<' => Some((Sign::Compare(Op::Less), 1)),
        b'>' if next == b'=' => Some((Sign::Compare(Op::AtLeast), 2)),
        b'>' => Some((Sign::Compare(Op::Greater), 1)),
        b'(' => Some((Sign::Open, 1)),
        b')' => Some((Sign::Close, 1)),
        b'[' => Some((Sign::OpenList, 1)),
        b']' => Some((Sign::CloseList, 1)),
        b',' => Some((Sign::Comma, 1)),
        b'.' => Some((Sign::Dot, 1)),
        _ => None,
    }
}
