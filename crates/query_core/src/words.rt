//! The printed text of paths and of texts in quotes.
ghost use Rattle.std.specs.Prelude.{◌≡◌, ◌++◌, ◌∷◌, [], OnOk, ◌<◌, ◌||◌};
ghost use Rattle.std.specs.List.{list_all};
ghost use Rattle.std.specs.Str.{bytes_eq};
ghost use Rattle.query_core.specs.Print.{is_letter, is_digit, starts_word, is_bare, is_word, is_reserved, hex_digit, quoted_byte, quoted, segment_text, path_text};

use q_doc::Path;
use std::alloc::AllocError;

/// Writes the segments of a path with dots between them, each bare where it may be.
pub(crate) fn write_path(out: &mut Vec<u8>, path: &Path) -> Result<(), AllocError>
    ensures { OnOk result (out.new.items ≡ out.old.items ++ path_text path.now) }
{
    let Some((first, rest)) = path.segments().split_first() else {
        return Ok(());
    };
    write_segment(out, first.as_slice())?;
    for segment in rest {
        out.push(b'.')?;
        write_segment(out, segment.as_slice())?;
    }
    Ok(())
}

fn write_segment(out: &mut Vec<u8>, segment: &[u8]) -> Result<(), AllocError>
    ensures { OnOk result (out.new.items ≡ out.old.items ++ segment_text segment.now) }
{
    if is_bare(segment) {
        out.extend_from_slice(segment)?;
    } else {
        write_quoted(out, segment)?;
    }
    Ok(())
}

/// Writes a text in quotes, with its quotes, backslashes and control characters escaped.
pub(crate) fn write_quoted(out: &mut Vec<u8>, text: &[u8]) -> Result<(), AllocError>
    ensures { OnOk result (out.new.items ≡ out.old.items ++ quoted text.now) }
{
    out.push(b'"')?;
    for byte in text {
        write_quoted_byte(out, *byte)?;
    }
    out.push(b'"')?;
    Ok(())
}

fn write_quoted_byte(out: &mut Vec<u8>, byte: u8) -> Result<(), AllocError>
    ensures { OnOk result (out.new.items ≡ out.old.items ++ quoted_byte byte) }
{
    if byte == b'"' {
        out.extend_from_slice(b"\\\"")?;
    } else if byte == b'\\' {
        out.extend_from_slice(b"\\\\")?;
    } else if byte < 32 {
        out.extend_from_slice(b"\\u00")?;
        out.push(hex_digit(byte / 16))?;
        out.push(hex_digit(byte % 16))?;
    } else {
        out.push(byte)?;
    }
    Ok(())
}

fn hex_digit(number: u8) -> u8
    requires { number < 16 }
    ensures { result ≡ hex_digit number }
{
    if number < 10 {
        b'0' + number
    } else {
        b'a' - 10 + number
    }
}

/// Whether a segment is printed without quotes: it is a word, and not reserved.
fn is_bare(segment: &[u8]) -> bool
    ensures { result ≡ is_bare segment.now }
{
    is_word(segment) && !is_reserved(segment)
}

fn is_word(text: &[u8]) -> bool
    ensures { result ≡ is_word text.now }
{
    starts_word(text) && are_word_bytes(text)
}

fn are_word_bytes(text: &[u8]) -> bool
    ensures { result ≡ list_all (λ b. is_letter b || is_digit b) text.now }
{
    text.iter().all(|byte| is_letter(*byte) || is_digit(*byte))
}

fn starts_word(text: &[u8]) -> bool
    ensures { result ≡ starts_word text.now }
{
    match text {
        [] => false,
        [first, ..] => is_letter(*first),
    }
}

fn is_letter(byte: u8) -> bool
    ensures { result ≡ is_letter byte }
{
    byte.is_ascii_lowercase() || byte.is_ascii_uppercase() || byte == b'_'
}

fn is_digit(byte: u8) -> bool
    ensures { result ≡ is_digit byte }
{
    byte.is_ascii_digit()
}

/// Whether a word is one of the language.
fn is_reserved(word: &[u8]) -> bool
    ensures { result ≡ is_reserved word.now }
{
    is_same(word, b"and")
        || is_same(word, b"or")
        || is_same(word, b"not")
        || is_same(word, b"in")
        || is_same(word, b"has")
        || is_same(word, b"exists")
        || is_same(word, b"true")
        || is_same(word, b"false")
        || is_same(word, b"null")
        || is_same(word, b"asc")
        || is_same(word, b"desc")
}

fn is_same(a: &[u8], b: &[u8]) -> bool
    ensures { result ≡ bytes_eq a.now b.now }
{
    a == b
}
