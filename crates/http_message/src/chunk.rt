//! One part of a chunked coding: a chunk, or the last line with the trailers.
ghost use Rattle.std.specs.Prelude.{◌≡◌, ◌<◌, ◌≤◌, ℕ, ◌+◌, List, length, take, IfSome, IfNone};
ghost use Rattle.http_message.specs.Coded.{IsCutShort, IsPart, IsProgress, IsContent, IsLineEnd, IsLineHere};
ghost use Rattle.http_message.specs.Coding.{IsSizeLine, IsNoLine};
ghost use Rattle.http_message.specs.Input.{Reads};
ghost use Rattle.http_message.specs.Limits.{body_limit, trailer_capacity};

use crate::body::take_exact;
use crate::incomplete::Incomplete;
use crate::input::Input;
use crate::limits::{capacity_behind, fits, overlong_at};
use crate::line::{Sought, TextFound, find_text};
use crate::refusal::FramingRefusal;
use crate::trailers::take_trailers;
use httparse::spans::HeaderSpan;
use httparse::{Status, parse_chunk_size};
use q_outside::Source;

/// How far a coding has come.
#[derive(Clone, Copy, Debug, PartialEq, Eq)]
pub struct Progress {
    /// The number of its bytes up to here.
    pub coded: usize,
    /// The number of bytes of its body up to here.
    pub got: usize,
}

/// A part of a coding.
#[derive(Clone, Copy, Debug, PartialEq, Eq)]
pub enum Part {
    /// It is a chunk, and the coding has come so far.
    Chunk(Progress),
    /// It is the last one; `coded` is the length of the coding with it.
    End {
        coded: usize,
    },
    /// It is refused, after this number of bytes of the coding.
    Broken {
        refused: FramingRefusal,
        coded: usize,
    },
}

/// Takes the next part of a coding. The content of a chunk is taken straight into the body.
pub fn take_part<S: Source>(
    source: &mut S,
    input: &mut Input,
    body: &mut [u8],
    trailer_spans: &mut [HeaderSpan],
    at: Progress,
) -> Result<Part, Incomplete>
    requires body { length body.old ≡ body_limit }
    requires trailer_spans { length trailer_spans.old ≡ trailer_capacity }
    requires at { IsProgress at }
    ensures { Reads (S.at source.old) (S.at source.new) input.old input.new (IsCutShort at.coded at.got) (IsPart at body.old body.new) result }
{
    let capacity = capacity_behind(at.coded);
    match find_text(source, input, Sought::Line, capacity)? {
        TextFound::Whole(line) => take_announced(source, input, body, trailer_spans, at, line),
        TextFound::Overlong => {
            input.skip(capacity);
            Ok(Part::Broken {
                refused: overlong_at(at.coded),
                coded: at.coded + capacity,
            })
        }
    }
}

/// Takes the part whose line has come.
fn take_announced<S: Source>(
    source: &mut S,
    input: &mut Input,
    body: &mut [u8],
    trailer_spans: &mut [HeaderSpan],
    at: Progress,
    line: usize,
) -> Result<Part, Incomplete>
    requires body { length body.old ≡ body_limit }
    requires trailer_spans { length trailer_spans.old ≡ trailer_capacity }
    requires at { IsProgress at }
    requires within { line ≤ length input.old }
    requires here { IsLineHere at.coded (take line input.old) }
    ensures { Reads (S.at source.old) (S.at source.new) input.old input.new (IsCutShort at.coded at.got) (IsPart at body.old body.new) result }
{
    match read_size(&input.bytes()[..line]) {
        None => {
            input.skip(line);
            Ok(Part::Broken {
                refused: FramingRefusal::BadLength,
                coded: at.coded + line,
            })
        }
        Some(0) => take_last(source, input, trailer_spans, at, line),
        Some(size) => take_chunk(source, input, body, at, line, size),
    }
}

/// The size of the chunk whose line the whole text is, or nothing where it is none.
fn read_size(text: &[u8]) -> Option<usize>
    ensures size { IfSome result (IsSizeLine text.now) }
    ensures none { IfNone result (IsNoLine text.now) }
{
    match parse_chunk_size(text) {
        Ok(Status::Complete((len, size))) => {
            if len == text.len() {
                return Some(size as usize);
            }
            None
        }
        Ok(Status::Partial) => None,
        Err(_) => None,
    }
}

/// Takes the chunk whose line has come.
fn take_chunk<S: Source>(
    source: &mut S,
    input: &mut Input,
    body: &mut [u8],
    at: Progress,
    line: usize,
    size: usize,
) -> Result<Part, Incomplete>
    requires body { length body.old ≡ body_limit }
    requires at { IsProgress at }
    requires within { line ≤ length input.old }
    requires here { IsLineHere at.coded (take line input.old) }
    requires is { IsSizeLine (take line input.old) size }
    requires some { 0 < size }
    ensures { Reads (S.at source.old) (S.at source.new) input.old input.new (IsCutShort at.coded at.got) (IsPart at body.old body.new) result }
{
    input.skip(line);
    if !fits(at, line, size) {
        return Ok(Part::Broken {
            refused: FramingRefusal::BodyTooLarge,
            coded: at.coded + line,
        });
    }
    let next = Progress {
        coded: at.coded + line + size + 2,
        got: at.got + size,
    };
    if take_content(source, input, &mut body[at.got..next.got])? {
        return Ok(Part::Chunk(next));
    }
    Ok(Part::Broken {
        refused: FramingRefusal::BadLength,
        coded: next.coded,
    })
}

/// Takes the content of a chunk and the two bytes behind it, and answers whether these are CR LF.
fn take_content<S: Source>(
    source: &mut S,
    input: &mut Input,
    into: &mut [u8],
) -> Result<bool, Incomplete>
    ensures { Reads (S.at source.old) (S.at source.new) input.old input.new (λ bytes. length bytes < length into.new + 2) (IsContent into.new) result }
{
    take_exact(source, input, into)?;
    take_line_end(source, input)
}

/// Takes two bytes, and answers whether they are CR LF.
fn take_line_end<S: Source>(source: &mut S, input: &mut Input) -> Result<bool, Incomplete>
    ensures { Reads (S.at source.old) (S.at source.new) input.old input.new (λ bytes. length bytes < 2) IsLineEnd result }
{
    while input.len() < 2 {
        input.fill(source)?;
    }
    let whole = &input.bytes()[..2] == b"\r\n".as_slice();
    input.skip(2);
    Ok(whole)
}

/// Takes the trailers behind the last line, which has come.
fn take_last<S: Source>(
    source: &mut S,
    input: &mut Input,
    trailer_spans: &mut [HeaderSpan],
    at: Progress,
    line: usize,
) -> Result<Part, Incomplete>
    requires trailer_spans { length trailer_spans.old ≡ trailer_capacity }
    requires at { IsProgress at }
    requires within { line ≤ length input.old }
    requires here { IsLineHere at.coded (take line input.old) }
    requires is { IsSizeLine (take line input.old) 0 }
    ensures { (body : List ℕ) → Reads (S.at source.old) (S.at source.new) input.old input.new (IsCutShort at.coded at.got) (IsPart at body body) result }
{
    input.skip(line);
    take_trailers(source, input, trailer_spans, at.coded + line)
}
