//! The search for a line of a chunk or for trailers. It goes on where it was when more bytes
//! come.
ghost use Rattle.std.specs.Prelude.{◌≡◌, ◌≤◌, take};
ghost use Rattle.http_message.specs.Input.{Grows};
ghost use Rattle.http_message.specs.Limits.{line_limit};
ghost use Rattle.http_message.specs.Line.{IsPassed, IsEndOf, IsOpenIn, IsSight, IsTextFound, PassesLine};
ghost use Rattle.http_message.specs.HeadScan.{Passes};
ghost use Rattle.http_message.specs.declared.line.Sought.TheVariants.{Line, Trailers};

use crate::incomplete::Incomplete;
use crate::input::Input;
use crate::scan::{TextEnd, empty_line, find_head_end};
use memchr::memchr;
use q_outside::Source;

/// What is looked for.
#[derive(Clone, Copy, Debug, PartialEq, Eq)]
pub enum Sought {
    /// A line of a chunk, up to its line feed.
    Line,
    /// Trailers, up to their empty line.
    Trailers,
}

/// What was found.
#[derive(Clone, Copy, Debug, PartialEq, Eq)]
pub enum TextFound {
    /// What is looked for, of this length.
    Whole(usize),
    /// It does not end within its limit.
    Overlong,
}

/// Takes bytes until what is looked for is whole, or is longer than its limit.
pub fn find_text<S: Source>(
    source: &mut S,
    input: &mut Input,
    sought: Sought,
    capacity: usize,
) -> Result<TextFound, Incomplete>
    requires { capacity ≤ line_limit }
    ensures grows { Grows (S.at source.old) (S.at source.new) (IsOpenIn sought capacity) input.old input.new }
    ensures found { IsTextFound (S.at source.old) (S.at source.new) sought capacity input.new result }
{
    let mut passed = 0;
    loop {
        match look_for(input.bytes(), sought, capacity, passed) {
            Ok(found) => return Ok(found),
            Err(further) => {
                input.fill(source)?;
                passed = further;
            }
        }
    }
}

/// Looks for it in the bytes, after those that were passed. Where more bytes are needed, it answers
/// how many are passed then.
fn look_for(
    bytes: &[u8],
    sought: Sought,
    capacity: usize,
    passed: usize,
) -> Result<TextFound, usize>
    requires { IsPassed sought (take capacity bytes.now) passed }
    ensures { IsSight sought capacity bytes.now result }
{
    match end_of(first(bytes, capacity), sought, passed) {
        TextEnd::At(size) => Ok(TextFound::Whole(size)),
        TextEnd::Behind(_) if bytes.len() >= capacity => Ok(TextFound::Overlong),
        TextEnd::Behind(further) => Err(further),
    }
}

/// The first bytes, at most `most` of them.
fn first(bytes: &[u8], most: usize) -> &[u8]
    ensures { result.now ≡ take most bytes.now }
{
    if bytes.len() > most {
        return &bytes[..most];
    }
    bytes
}

/// Where it ends, which it does not in the bytes that were passed.
fn end_of(bytes: &[u8], sought: Sought, passed: usize) -> TextEnd
    requires { IsPassed sought bytes.now passed }
    ensures { IsEndOf sought bytes.now result }
{
    match sought {
        Sought::Line => line_end(bytes, passed),
        Sought::Trailers => trailers_end(bytes, passed),
    }
}

/// Where the line ends.
fn line_end(bytes: &[u8], passed: usize) -> TextEnd
    requires { PassesLine bytes.now passed }
    ensures { IsEndOf Line bytes.now result }
{
    match memchr(b'\n', &bytes[passed..]) {
        None => TextEnd::Behind(bytes.len()),
        Some(offset) => TextEnd::At(passed + offset + 1),
    }
}

/// Where the trailers end.
fn trailers_end(bytes: &[u8], passed: usize) -> TextEnd
    requires { Passes bytes.now passed }
    ensures { IsEndOf Trailers bytes.now result }
{
    match empty_line(bytes) {
        None => TextEnd::Behind(0),
        Some(0) => find_head_end(bytes, passed),
        Some(size) => TextEnd::At(size),
    }
}
