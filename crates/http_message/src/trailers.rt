//! The trailers of a chunked coding, which are dropped.
ghost use Rattle.std.specs.Prelude.{◌≡◌, ◌≤◌, ℕ, List, length, IsTrue, IsFalse};
ghost use Rattle.http_message.specs.Coded.{IsEnding, EndsCoding};
ghost use Rattle.http_message.specs.Coding.{AreTrailers, AreNoTrailers, Unfinished};
ghost use Rattle.http_message.specs.Input.{Reads};
ghost use Rattle.http_message.specs.Limits.{coding_limit, trailer_capacity};

use crate::chunk::Part;
use crate::incomplete::Incomplete;
use crate::input::Input;
use crate::limits::{capacity_behind, overlong_at};
use crate::line::{Sought, TextFound, find_text};
use crate::refusal::FramingRefusal;
use httparse::Status;
use httparse::spans::{HeaderSpan, parse_headers};
use q_outside::Source;

/// Takes the trailers after this number of bytes of a coding.
pub fn take_trailers<S: Source>(
    source: &mut S,
    input: &mut Input,
    trailer_spans: &mut [HeaderSpan],
    coded: usize,
) -> Result<Part, Incomplete>
    requires trailer_spans { length trailer_spans.old ≡ trailer_capacity }
    requires coded { coded ≤ coding_limit }
    ensures { Reads (S.at source.old) (S.at source.new) input.old input.new (λ bytes. EndsCoding coded bytes Unfinished) (IsEnding coded) result }
{
    let capacity = capacity_behind(coded);
    match find_text(source, input, Sought::Trailers, capacity)? {
        TextFound::Whole(size) => {
            let whole = are_trailers(&input.bytes()[..size], trailer_spans);
            input.skip(size);
            let coded = coded + size;
            if whole {
                return Ok(Part::End { coded });
            }
            Ok(Part::Broken {
                refused: FramingRefusal::BadLength,
                coded,
            })
        }
        TextFound::Overlong => {
            input.skip(capacity);
            Ok(Part::Broken {
                refused: overlong_at(coded),
                coded: coded + capacity,
            })
        }
    }
}

/// Whether the whole text is trailers.
fn are_trailers(text: &[u8], trailer_spans: &mut [HeaderSpan]) -> bool
    requires { length trailer_spans.old ≡ trailer_capacity }
    ensures yes { IsTrue result → AreTrailers text.now }
    ensures no { IsFalse result → AreNoTrailers text.now }
{
    match parse_headers(text, trailer_spans) {
        Ok(Status::Complete((len, _))) => len == text.len(),
        _ => false,
    }
}
