//! Functions on a text that take no memory.
ghost use Rattle.std.specs.Prelude.{◌≡◌, ◌+◌, ◌-◌, ◌<◌, ◌≤◌, length, take, drop, slice_index};
ghost use Rattle.std.specs.List.{prefix_len};
ghost use Rattle.query_lang.specs.Bytes.{is_blank, is_letter, is_word_byte, after_blanks, class_test};

/// A set of bytes, to find a run of them.
#[derive(Clone, Copy)]
pub(crate) enum Class {
    /// Space, tab, CR and LF.
    Blank,
    /// Letters, digits and `_`.
    Word,
    /// `0` to `9`.
    Digit,
}

/// The byte at `index`, or 0 past the end.
#[inline]
pub(crate) fn byte_at(text: &str, index: usize) -> u8
    ensures { result ≡ slice_index text.now index }
{
    let bytes = text.as_bytes();
    if index < bytes.len() { bytes[index] } else { 0 }
}

/// What follows the first `count` bytes, of which the last is ASCII and not 0.
#[inline]
pub(crate) fn skip(text: &str, count: usize) -> &str
    requires some { 0 < count }
    requires there { 0 < slice_index text.now (count - 1) }
    requires ascii { slice_index text.now (count - 1) < 128 }
    ensures rest { result.now ≡ drop count text.now }
    ensures shorter { length result.now < length text.now }
{
    &text[count..]
}

/// A letter or `_`.
#[inline]
pub(crate) fn is_letter(byte: u8) -> bool
    ensures { result ≡ is_letter byte }
{
    byte.is_ascii_lowercase() || byte.is_ascii_uppercase() || byte == b'_'
}

#[inline]
fn is_in(class: Class, byte: u8) -> bool
    ensures { result ≡ class_test class byte }
{
    match class {
        Class::Blank => byte == b' ' || byte == b'\t' || byte == b'\r' || byte == b'\n',
        Class::Word => is_letter(byte) || byte.is_ascii_digit(),
        Class::Digit => byte.is_ascii_digit(),
    }
}

/// The number of bytes at the beginning that are of the class.
#[inline]
pub(crate) fn run_len(text: &str, class: Class) -> usize
    ensures len { result ≡ prefix_len (class_test class) text.now }
    ensures within { result ≤ length text.now }
{
    text.as_bytes()
        .iter()
        .take_while(|byte| is_in(class, **byte))
        .count()
}

/// The longest prefix whose bytes are of the class, and the rest.
#[inline]
pub(crate) fn split_run(text: &str, class: Class) -> (&str, &str)
    ensures prefix { result.0.now ≡ take (prefix_len (class_test class) text.now) text.now }
    ensures rest { result.1.now ≡ drop (prefix_len (class_test class) text.now) text.now }
    ensures lengths { length result.0.now + length result.1.now ≡ length text.now }
{
    text.split_at(run_len(text, class))
}

/// The text from its first byte on that is no blank.
#[inline]
pub(crate) fn after_blanks(text: &str) -> &str
    ensures rest { result.now ≡ after_blanks text.now }
    ensures within { length result.now ≤ length text.now }
{
    split_run(text, Class::Blank).1
}

/// The first byte, or 0.
#[inline]
pub(crate) fn first(text: &str) -> u8
    ensures { result ≡ slice_index text.now 0 }
{
    byte_at(text, 0)
}

/// The first `count` bytes, of which the last is ASCII and not 0, and what follows them.
#[inline]
pub(crate) fn cut(text: &str, count: usize) -> (&str, &str)
    requires some { 0 < count }
    requires there { 0 < slice_index text.now (count - 1) }
    requires ascii { slice_index text.now (count - 1) < 128 }
    ensures prefix { result.0.now ≡ take count text.now }
    ensures rest { result.1.now ≡ drop count text.now }
    ensures shorter { length result.1.now < length text.now }
{
    text.split_at(count)
}
