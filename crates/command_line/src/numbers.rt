//! The numbers that a command line shows.
ghost use Rattle.std.specs.Prelude.{◌≡◌, ℕ, ◌<◌, ◌≤◌, ◌^◌, ◌↔◌, decimal, IfNone, IfSome, IsTrue};

use itoa::Buffer;

/// The number that a text shows, where it is from the least to the greatest.
pub(crate) fn number_within(text: &str, least: u64, most: u64) -> Option<u64>
    ensures some { IfSome result (λ n. (text.now ≡ decimal n) × (least ≤ n) × (n ≤ most)) }
    ensures none { IfNone result ((n : ℕ) → text.now ≡ decimal n → least ≤ n → n ≤ most → ⊥) }
{
    match read_number(text) {
        Some(number) => {
            if number < least {
                None
            } else if number > most {
                None
            } else {
                Some(number)
            }
        }
        None => None,
    }
}

/// The number that a text shows in decimal digits, without a sign and without leading zeros.
pub(crate) fn read_number(text: &str) -> Option<u64>
    ensures some { IfSome result (λ n. (text.now ≡ decimal n) × (n < 2 ^ 64)) }
    ensures none { IfNone result ((n : ℕ) → n < 2 ^ 64 → text.now ≡ decimal n → ⊥) }
{
    match text.parse::<u64>() {
        Ok(number) => {
            if shows(number, text) {
                Some(number)
            } else {
                None
            }
        }
        Err(_) => None,
    }
}

/// Whether the text is that of the number.
fn shows(number: u64, text: &str) -> bool
    ensures { IsTrue result ↔ (text.now ≡ decimal number) }
{
    let mut digits = Buffer::new();
    digits.format(number) == text
}
