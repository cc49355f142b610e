//! The chunked coding of a body.
ghost use Rattle.std.specs.Prelude.{◌≡◌, length};
ghost use Rattle.http_message.specs.Coded.{IsCutShort, IsCoded};
ghost use Rattle.http_message.specs.Input.{Reads};
ghost use Rattle.http_message.specs.Limits.{body_limit, trailer_capacity};

use crate::chunk::{Part, Progress, take_part};
use crate::incomplete::Incomplete;
use crate::input::Input;
use crate::refusal::FramingRefusal;
use httparse::spans::HeaderSpan;
use q_outside::Source;

/// How a body came.
#[derive(Clone, Copy, Debug, PartialEq, Eq)]
pub enum Coded {
    /// Whole: the length of its content, and that of the coding.
    Whole {
        size: usize,
        used: usize,
    },
    /// It is refused, after this number of bytes of the coding.
    Broken {
        refused: FramingRefusal,
        used: usize,
    },
}

/// Takes a chunked body (RFC 9112, section 7.1). Its content is taken straight into the buffer for it.
/// The trailer fields are found in the spans for them, and dropped.
pub fn take_coded<S: Source>(
    source: &mut S,
    input: &mut Input,
    body: &mut [u8],
    trailer_spans: &mut [HeaderSpan],
) -> Result<Coded, Incomplete>
    requires body { length body.old ≡ body_limit }
    requires trailer_spans { length trailer_spans.old ≡ trailer_capacity }
    ensures { Reads (S.at source.old) (S.at source.new) input.old input.new (IsCutShort 0 0) (IsCoded body.new) result }
{
    let mut at = Progress { coded: 0, got: 0 };
    loop {
        match take_part(source, input, body, trailer_spans, at)? {
            Part::Chunk(next) => at = next,
            Part::End { coded } => {
                return Ok(Coded::Whole {
                    size: at.got,
                    used: coded,
                });
            }
            Part::Broken { refused, coded } => {
                return Ok(Coded::Broken {
                    refused,
                    used: coded,
                });
            }
        }
    }
}
