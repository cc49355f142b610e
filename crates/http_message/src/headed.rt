//! The head of the next item: found, judged, and copied to where it stays.
ghost use Rattle.std.specs.Prelude.{◌≡◌, ◌≤◌, length, drop};
ghost use Rattle.http_message.specs.HeadFound.{IsTextAt};
ghost use Rattle.http_message.specs.Headed.{IsHeadOf, Heads};
ghost use Rattle.http_message.specs.Limits.{head_limit, field_capacity};
ghost use Rattle.http_message.specs.Incomplete.{before_head};
ghost use Rattle.http_message.specs.Text.{is_blank};

use crate::find::{HeadFound, find_head};
use crate::framing::Framing;
use crate::incomplete::Incomplete;
use crate::input::Input;
use crate::judge::judge;
use crate::limits::HEAD_LIMIT;
use crate::refusal::FramingRefusal;
use httparse::spans::{HeaderSpan, RequestSpans};
use q_outside::Source;

/// A head that frames a body.
#[derive(Clone, Copy, Debug, PartialEq, Eq)]
pub struct Framed {
    /// The length of its text with the empty lines before it.
    pub used: usize,
    /// The length of its text.
    pub text: usize,
    /// Where its parts are in the text.
    pub parts: RequestSpans,
    /// How the body is framed.
    pub framing: Framing,
    /// Whether it expects `100 Continue`.
    pub expects_continue: bool,
    /// Whether the method is HEAD.
    pub is_head_request: bool,
}

/// What comes of the head of the next item.
#[derive(Clone, Copy, Debug, PartialEq, Eq)]
pub enum Headed {
    /// The head frames a body.
    Framed(Framed),
    /// No body is framed. `used` is the number of bytes used.
    Bad {
        refused: FramingRefusal,
        used: usize,
    },
}

/// Takes the head of the next item. Its text is copied to the start of the buffer for it.
pub fn next_head<S: Source>(
    source: &mut S,
    input: &mut Input,
    text: &mut [u8],
    spans: &mut [HeaderSpan],
) -> Result<Headed, Incomplete>
    requires text { length text.old ≡ head_limit }
    requires spans { length spans.old ≡ field_capacity }
    ensures { Heads (S.at source.old) (S.at source.new) input.old input.new text.new spans.new result }
{
    match find_head(source, input) {
        Ok(HeadFound::BareCr { empty_lines }) => Ok(refuse(
            input,
            FramingRefusal::BadHead,
            empty_lines + 2,
        )),
        Ok(HeadFound::Text { empty_lines, size }) => Ok(judge_text(
            input,
            text,
            spans,
            empty_lines,
            size,
        )),
        Ok(HeadFound::TooLarge) => Ok(refuse(input, FramingRefusal::HeadTooLarge, HEAD_LIMIT)),
        Err(incomplete) => Err(incomplete.before_head(is_blank(input.bytes()))),
    }
}

/// Judges the head whose text is there.
fn judge_text(
    input: &mut Input,
    text: &mut [u8],
    spans: &mut [HeaderSpan],
    empty_lines: usize,
    size: usize,
) -> Headed
    requires text { length text.old ≡ head_limit }
    requires spans { length spans.old ≡ field_capacity }
    requires at { IsTextAt input.old empty_lines size }
    ensures { IsHeadOf input.old input.new text.new spans.new result }
{
    let used = empty_lines + size;
    text[..size].copy_from_slice(&input.bytes()[empty_lines..used]);
    match judge(&text[..size], spans) {
        Err(refused) => refuse(input, refused, used),
        Ok(judged) => {
            input.skip(used);
            Headed::Framed(Framed {
                used,
                text: size,
                parts: judged.parts,
                framing: judged.framing,
                expects_continue: judged.expects_continue,
                is_head_request: judged.is_head_request,
            })
        }
    }
}

/// Drops the bytes of an item that has no body.
fn refuse(input: &mut Input, refused: FramingRefusal, used: usize) -> Headed
    requires { used ≤ length input.old }
    ensures skips { input.new ≡ drop used input.old }
    ensures is { result ≡ Headed.Bad refused used }
{
    input.skip(used);
    Headed::Bad { refused, used }
}

/// Whether there is nothing but CR and LF.
fn is_blank(bytes: &[u8]) -> bool
    ensures { result ≡ is_blank bytes.now }
{
    bytes.iter().all(|byte| *byte == b'\r' || *byte == b'\n')
}
