//! Writing bytes into a buffer from an offset on. Each call answers the offset of the end of what it wrote.
ghost use Rattle.std.specs.Prelude.{◌≡◌, ◌+◌, ◌<◌, ◌≤◌, ◌++◌, length, take, decimal};
ghost use Rattle.http_front.specs.Lines.{number_line};

use itoa::write_digits;

/// Writes a piece.
#[inline(always)]
pub(crate) fn put(buffer: &mut [u8], at: usize, piece: &[u8]) -> usize
    requires { at + length piece.now ≤ length buffer.old }
    ensures end { result ≡ at + length piece.now }
    ensures text { take result buffer.new ≡ take at buffer.old ++ piece.now }
{
    let end = at + piece.len();
    buffer[at..end].copy_from_slice(piece);
    end
}

/// Writes a number.
#[inline(never)]
pub(crate) fn put_number(buffer: &mut [u8], at: usize, number: u64) -> usize
    requires { at + 20 ≤ length buffer.old }
    ensures end { result ≤ at + 20 }
    ensures text { take result buffer.new ≡ take at buffer.old ++ decimal number }
{
    let end = at + digit_count(number);
    write_digits(number, buffer, end);
    end
}

/// How many digits a number has.
#[tactic(auto, using(crate::proofs::DigitLemmas::four_more, crate::proofs::DigitLemmas::few_digits))]
fn digit_count(number: u64) -> usize
    ensures digits { result ≡ length (decimal number) }
    ensures few { result ≤ 20 }
{
    let mut left = number;
    let mut count = 0;
    while left >= 10_000 {
        left /= 10_000;
        count += 4;
    }
    count + short_count(left)
}

/// How many digits a number below 10,000 has.
#[tactic(auto, using(crate::proofs::DigitLemmas::short_numbers))]
#[inline(always)]
fn short_count(number: u64) -> usize
    requires { number < 10_000 }
    ensures { result ≡ length (decimal number) }
{
    match number {
        0..10 => 1,
        10..100 => 2,
        100..1000 => 3,
        _ => 4,
    }
}

/// Writes a number between two pieces, where there is one.
#[inline(always)]
pub(crate) fn put_field(
    buffer: &mut [u8],
    at: usize,
    name: &[u8],
    number: Option<u64>,
    end: &[u8],
) -> usize
    requires { at + length name.now + 20 + length end.now ≤ length buffer.old }
    ensures end { result ≤ at + length name.now + 20 + length end.now }
    ensures text { take result buffer.new ≡ take at buffer.old ++ number_line name.now number end.now }
{
    let Some(number) = number else {
        return at;
    };
    let mut behind = put(buffer, at, name);
    behind = put_number(buffer, behind, number);
    put(buffer, behind, end)
}
