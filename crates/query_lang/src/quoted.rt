//! Texts in quotes: where one ends, and the text that it decodes to.
ghost use Rattle.std.specs.Prelude.{◌≡◌, ◌+◌, ◌<◌, ◌≤◌, length, IfOk, IfSome};
ghost use Rattle.query_lang.specs.Quoted.{escape, escape_code, escape_second, escape_high, escape_low, scan, seen_escape, seen_scan, unescaped, unescaped_byte};

use q_doc::Text;
use std::alloc::{AllocError, Global};

/// What comes after a backslash.
#[derive(Clone, Copy)]
pub(crate) enum Escape {
    /// An escape of `length` bytes after the backslash, which decodes to this byte.
    Byte { byte: u8, length: usize },
    /// The text ends inside an escape.
    Cut,
    /// No escape.
    Wrong,
}

/// The escape of which `bytes` are what follows the backslash.
pub(crate) fn read_escape(bytes: &[u8]) -> Escape
    ensures { seen_escape result ≡ escape bytes.now }
{
    let Some((byte, rest)) = bytes.split_first() else {
        return Escape::Cut;
    };
    if *byte == b'"' || *byte == b'\\' {
        Escape::Byte {
            byte: *byte,
            length: 1,
        }
    } else if *byte == b'u' {
        escape_code(rest)
    } else {
        Escape::Wrong
    }
}

/// The escape after `\u`: the first of four digits.
fn escape_code(bytes: &[u8]) -> Escape
    ensures { seen_escape result ≡ escape_code bytes.now }
{
    let Some((byte, rest)) = bytes.split_first() else {
        return Escape::Cut;
    };
    if *byte == b'0' {
        escape_second(rest)
    } else {
        Escape::Wrong
    }
}

/// The escape after `\u0`.
fn escape_second(bytes: &[u8]) -> Escape
    ensures { seen_escape result ≡ escape_second bytes.now }
{
    let Some((byte, rest)) = bytes.split_first() else {
        return Escape::Cut;
    };
    if *byte == b'0' {
        escape_high(rest)
    } else {
        Escape::Wrong
    }
}

/// The escape after `\u00`.
fn escape_high(bytes: &[u8]) -> Escape
    ensures { seen_escape result ≡ escape_high bytes.now }
{
    let Some((byte, rest)) = bytes.split_first() else {
        return Escape::Cut;
    };
    if *byte == b'0' {
        escape_low(0, rest)
    } else if *byte == b'1' {
        escape_low(16, rest)
    } else {
        Escape::Wrong
    }
}

/// The escape at its last digit, which is added to `high`.
fn escape_low(high: u8, bytes: &[u8]) -> Escape
    requires { high ≤ 16 }
    ensures { seen_escape result ≡ escape_low high bytes.now }
{
    let Some((byte, _)) = bytes.split_first() else {
        return Escape::Cut;
    };
    if byte.is_ascii_digit() {
        Escape::Byte {
            byte: high + (*byte - b'0'),
            length: 5,
        }
    } else if *byte >= b'a' && *byte <= b'f' {
        Escape::Byte {
            byte: high + (*byte - b'a') + 10,
            length: 5,
        }
    } else {
        Escape::Wrong
    }
}

/// How a text in quotes continues after its first quote.
pub(crate) enum QuotedScan<'a> {
    /// The bytes up to the last quote.
    Closed { body: &'a str },
    /// The text ends before a quote.
    Open,
    /// It cannot continue from here: a raw control character, or a backslash that begins no escape.
    Bad { at: &'a str },
}

/// Finds the end of a text in quotes, of which `text` is what follows the first quote.
pub(crate) fn find_end(text: &str) -> QuotedScan<'_>
    ensures { seen_scan result ≡ scan 0 text.now }
{
    let bytes = text.as_bytes();
    let mut inside = 0;
    'bytes: for index in 0..bytes.len() {
        let byte = bytes[index];
        if inside > 0 {
            inside -= 1;
        } else if byte == b'"' {
            return QuotedScan::Closed {
                body: &text[..index],
            };
        } else if byte == b'\\' {
            match read_escape(&bytes[index + 1..]) {
                Escape::Byte { byte: _, length } => inside = length,
                Escape::Cut => return QuotedScan::Open,
                Escape::Wrong => return QuotedScan::Bad { at: &text[index..] },
            }
        } else if byte < 32 {
            return QuotedScan::Bad { at: &text[index..] };
        }
    }
    QuotedScan::Open
}

/// The text that the bytes between quotes decode to.
pub(crate) fn unescape(alloc: Global, body: &str) -> Result<Text, AllocError>
    ensures { IfOk result (λ text. text ≡ unescaped 0 body.now) }
{
    let bytes = body.as_bytes();
    let mut out = Vec::with_capacity(alloc, bytes.len())?;
    let mut inside = 0;
    'bytes: for index in 0..bytes.len() {
        if inside > 0 {
            inside -= 1;
        } else {
            let (byte, length) = unescaped_byte(bytes[index], &bytes[index + 1..]);
            out.push(byte)?;
            inside = length;
        }
    }
    Ok(Text::of(out))
}

/// The byte that a byte decodes to, before these others, and how many of those belong to it.
fn unescaped_byte(byte: u8, rest: &[u8]) -> (u8, usize)
    ensures { result ≡ unescaped_byte byte rest.now }
{
    if byte != b'\\' {
        return (byte, 0);
    }
    match read_escape(rest) {
        Escape::Byte { byte, length } => (byte, length),
        _ => (byte, 0),
    }
}
