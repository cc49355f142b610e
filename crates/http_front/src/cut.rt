//! A text cut at a byte.
ghost use Rattle.std.specs.Prelude.{◌≡◌, ◌==◌};
ghost use Rattle.std.specs.List.{position};
ghost use Rattle.std.specs.Option.{option_copied};
ghost use Rattle.http_front.specs.Target.{ahead_of, after, behind};

/// The text before the first such byte, and after it where there is one.
pub fn cut_at(text: &[u8], separator: u8) -> (&[u8], Option<&[u8]>)
    ensures ahead { result.0.now ≡ ahead_of separator text.now }
    ensures behind { option_copied result.1 ≡ behind separator text.now }
{
    match offset_of(text, separator) {
        Some(offset) => (&text[..offset], Some(&text[offset + 1..])),
        None => (text, None),
    }
}

/// The text before the first such byte, and after it, which is empty where there is none.
pub fn cut_in_two(text: &[u8], separator: u8) -> (&[u8], &[u8])
    ensures ahead { result.0.now ≡ ahead_of separator text.now }
    ensures after { result.1.now ≡ after separator text.now }
{
    match offset_of(text, separator) {
        Some(offset) => (&text[..offset], &text[offset + 1..]),
        None => (text, &[]),
    }
}

/// The offset of the first such byte.
fn offset_of(text: &[u8], separator: u8) -> Option<usize>
    ensures { result ≡ position (λ byte. byte == separator) text.now }
{
    text.iter().position(|byte| *byte == separator)
}
