//! The parts of the text of a key.
ghost use Rattle.std.specs.Prelude.{◌≡◌, length, option_map};
ghost use Rattle.std.specs.List.{prefix_len};
ghost use Rattle.std.specs.Option.{option_copied};
ghost use Rattle.query_lang.specs.KeyTexts.{after_byte, is_end, part_len, is_no_slash, parted, at_slash, at_semicolon, after_sign, utf8_text, field_text, kind_of, query_parts, seen_cut, seen_parts};

use query_core::Kind;
use std::str;

/// Where the next byte of a text is.
#[derive(Clone, Copy)]
pub(crate) enum Quoting {
    /// Outside quoted texts.
    Outside,
    /// In one.
    Inside,
    /// In one, after a backslash.
    Escaping,
}

/// What follows `q/` in the text of a query's key.
#[derive(Clone, Copy)]
pub(crate) struct QueryParts<'a> {
    pub collection: &'a [u8],
    pub kind: Kind,
    pub f: &'a str,
    pub o: &'a str,
    pub s: &'a str,
    pub n: &'a str,
}

/// The parts of a text after `q/`.
#[tactic(auto, unfolding(crate::specs::KeyTexts::query_parts))]
pub(crate) fn query_parts(text: &[u8]) -> Option<QueryParts<'_>>
    ensures { option_map seen_parts result ≡ query_parts text.now }
{
    let (collection, rest) = at_slash(text)?;
    let (word, rest) = at_slash(rest)?;
    let kind = kind_of(word)?;
    let (f, rest) = at_semicolon(rest)?;
    let (o, rest) = at_semicolon(rest)?;
    let (s, n) = at_semicolon(rest)?;
    Some(QueryParts {
        collection,
        kind,
        f: field_text(b"f=", f)?,
        o: field_text(b"o=", o)?,
        s: field_text(b"s=", s)?,
        n: field_text(b"n=", n)?,
    })
}

/// A text at its first slash.
pub(crate) fn at_slash(text: &[u8]) -> Option<(&[u8], &[u8])>
    ensures { option_map seen_cut result ≡ at_slash text.now }
{
    parted(text, slash_offset(text))
}

/// A text at its first `;` outside quoted texts.
fn at_semicolon(text: &[u8]) -> Option<(&[u8], &[u8])>
    ensures { option_map seen_cut result ≡ at_semicolon text.now }
{
    parted(text, part_len(text))
}

/// A text up to the byte at an offset, and what follows that byte.
fn parted(text: &[u8], offset: usize) -> Option<(&[u8], &[u8])>
    ensures { option_map seen_cut result ≡ parted text.now offset }
{
    if offset >= text.len() {
        return None;
    }
    let (before, _) = text.split_at(offset);
    let (_, after) = text.split_at(offset + 1);
    Some((before, after))
}

/// The number of bytes before the first slash, or of all.
fn slash_offset(text: &[u8]) -> usize
    ensures { result ≡ prefix_len is_no_slash text.now }
{
    text.iter().take_while(|byte| is_no_slash(**byte)).count()
}

fn is_no_slash(byte: u8) -> bool
    ensures { result ≡ is_no_slash byte }
{
    byte != b'/'
}

/// The number of bytes before the first `;` outside quoted texts, or of all.
fn part_len(text: &[u8]) -> usize
    ensures { result ≡ part_len Quoting.Outside text.now }
{
    let mut quoting = Quoting::Outside;
    'bytes: for offset in 0..text.len() {
        let byte = text[offset];
        if is_end(quoting, byte) {
            return offset;
        }
        quoting = after_byte(quoting, byte);
    }
    text.len()
}

/// Where the byte after this one is.
fn after_byte(quoting: Quoting, byte: u8) -> Quoting
    ensures { result ≡ after_byte quoting byte }
{
    match quoting {
        Quoting::Outside if byte == b'"' => Quoting::Inside,
        Quoting::Outside => Quoting::Outside,
        Quoting::Inside if byte == b'"' => Quoting::Outside,
        Quoting::Inside if byte == b'\\' => Quoting::Escaping,
        Quoting::Inside => Quoting::Inside,
        Quoting::Escaping => Quoting::Inside,
    }
}

/// Whether a byte is a `;` outside quoted texts.
fn is_end(quoting: Quoting, byte: u8) -> bool
    ensures { result ≡ is_end quoting byte }
{
    match quoting {
        Quoting::Outside => byte == b';',
        Quoting::Inside | Quoting::Escaping => false,
    }
}

/// The text of a field, after its sign.
fn field_text<'a>(sign: &[u8], text: &'a [u8]) -> Option<&'a str>
    requires { length sign.now ≡ 2 }
    ensures { option_copied result ≡ field_text sign.now text.now }
{
    utf8_text(after_sign(sign, text)?)
}

/// The bytes as a text, where they are UTF-8.
fn utf8_text(bytes: &[u8]) -> Option<&str>
    ensures { option_copied result ≡ utf8_text bytes.now }
{
    match str::from_utf8(bytes) {
        Ok(text) => Some(text),
        Err(_) => None,
    }
}

/// What follows a sign of two bytes.
pub(crate) fn after_sign<'a>(sign: &[u8], text: &'a [u8]) -> Option<&'a [u8]>
    requires { length sign.now ≡ 2 }
    ensures { option_copied result ≡ after_sign sign.now text.now }
{
    if !text.starts_with(sign) {
        return None;
    }
    let (_, after) = text.split_at(2);
    Some(after)
}

/// The kind of a word.
fn kind_of(word: &[u8]) -> Option<Kind>
    ensures { result ≡ kind_of word.now }
{
    if word == b"objects".as_slice() {
        return Some(Kind::Objects);
    }
    if word == b"ids".as_slice() {
        return Some(Kind::Ids);
    }
    None
}
