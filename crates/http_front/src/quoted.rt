//! Texts as strings of JSON (RFC 8259, section 7).
ghost use Rattle.std.specs.Prelude.{◌≡◌, ◌∷◌, [], ◌++◌, ◌≤◌, ◌<◌, length, take, true};
ghost use Rattle.json.specs.Print.{escape, escape_byte, escape_letter, quoted};
ghost use Rattle.std.specs.Char.{digit_char};
ghost use Rattle.http_front.specs.Bodies.{up_to_greatest};
ghost use Rattle.http_front.specs.Buffered.{Adds};

use crate::buffered::add;
use q_outside::{Failed, Sink};

/// The greatest length of what stands for one byte.
const ESCAPE_CAPACITY: usize = 6;

/// The length of a text in quotes, or the greatest number where that is less.
pub(crate) fn quoted_len(text: &[u8]) -> usize
    ensures { result ≡ up_to_greatest (length (quoted text.now)) }
{
    let mut len: usize = 2;
    for byte in text {
        len = len.saturating_add(escape_len(*byte));
    }
    len
}

/// Adds a text in quotes to what waits in a buffer.
pub(crate) fn add_quoted<K: Sink>(
    sink: &mut K,
    buffer: &mut [u8],
    at: usize,
    text: &[u8],
) -> Result<usize, Failed>
    requires { at ≤ length buffer.old }
    ensures { Adds (K.at sink.old) (K.at sink.new) (take at buffer.old) (quoted text.now) buffer.new result }
{
    let opened = add(sink, buffer, at, b"\"")?;
    let written = add_escaped(sink, buffer, opened, text)?;
    add(sink, buffer, written, b"\"")
}

/// Adds a text with its escapes. What needs none is copied as it is.
fn add_escaped<K: Sink>(
    sink: &mut K,
    buffer: &mut [u8],
    at: usize,
    text: &[u8],
) -> Result<usize, Failed>
    requires { at ≤ length buffer.old }
    ensures { Adds (K.at sink.old) (K.at sink.new) (take at buffer.old) (escape text.now) buffer.new result }
{
    let mut escaped = [0; ESCAPE_CAPACITY];
    let mut end = at;
    let mut rest = text;
    loop {
        let (plain, behind) = part_plain(rest);
        end = add(sink, buffer, end, plain)?;
        let Some((byte, others)) = behind.split_first() else {
            return Ok(end);
        };
        end = add(sink, buffer, end, escape_of(*byte, &mut escaped))?;
        rest = others;
    }
}

/// The bytes at the front of a text that need no escape, and those behind them.
fn part_plain(text: &[u8]) -> (&[u8], &[u8])
    ensures parts { text.now ≡ result.0.now ++ result.1.now }
    ensures plain { escape result.0.now ≡ result.0.now }
{
    text.split_at(plain_len(text))
}

/// How many bytes at the front of a text need no escape.
fn plain_len(text: &[u8]) -> usize
    ensures within { result ≤ length text.now }
    ensures plain { escape (take result text.now) ≡ take result text.now }
{
    for (index, byte) in text.iter().enumerate() {
        if !is_plain(*byte) {
            return index;
        }
    }
    text.len()
}

/// Whether a byte needs no escape.
#[tactic(auto, unfolding(json::specs::Print::escape_byte))]
fn is_plain(byte: u8) -> bool
    ensures { result ≡ true → escape_byte byte ≡ byte ∷ [] }
{
    byte >= 32 && escape_letter(byte) == 0
}

/// The length of what stands for a byte.
#[tactic(auto, unfolding(json::specs::Print::escape_byte))]
fn escape_len(byte: u8) -> usize
    ensures { result ≡ length (escape_byte byte) }
{
    if escape_letter(byte) > 0 {
        2
    } else if byte < 32 {
        ESCAPE_CAPACITY
    } else {
        1
    }
}

/// What stands for a byte, which is written into the buffer.
#[tactic(auto, unfolding(json::specs::Print::escape_byte))]
fn escape_of(byte: u8, buffer: &mut [u8; ESCAPE_CAPACITY]) -> &[u8]
    ensures { result.now ≡ escape_byte byte }
{
    let letter = escape_letter(byte);
    if letter > 0 {
        *buffer = [b'\\', letter, 0, 0, 0, 0];
        return &buffer[..2];
    }
    if byte < 32 {
        *buffer = [
            b'\\',
            b'u',
            b'0',
            b'0',
            hex_digit(byte / 16),
            hex_digit(byte % 16),
        ];
        return &buffer[..];
    }
    *buffer = [byte, 0, 0, 0, 0, 0];
    &buffer[..1]
}

/// The letter after the backslash of a byte's short escape, or 0 where it has none.
fn escape_letter(byte: u8) -> u8
    ensures { result ≡ escape_letter byte }
{
    match byte {
        b'"' | b'\\' => byte,
        8 => b'b',
        12 => b'f',
        10 => b'n',
        13 => b'r',
        9 => b't',
        _ => 0,
    }
}

/// The digit of a number below 16.
fn hex_digit(value: u8) -> u8
    requires { value < 16 }
    ensures { result ≡ digit_char value }
{
    if value < 10 { b'0' + value } else { 87 + value }
}
