//! What the whole text of a head is.
ghost use Rattle.std.specs.Prelude.{◌≡◌, length};
ghost use Rattle.std.specs.Str.{bytes_eq};
ghost use Rattle.std.specs.Prelude.{codes};
ghost use Rattle.httparse.specs.Grammar.{RequestHead};
ghost use Rattle.http_message.specs.Head.{IsHeadAt};
ghost use Rattle.http_message.specs.Judged.{IsJudged};
ghost use Rattle.http_message.specs.Limits.{field_capacity};

use crate::framing::{Framing, expects_continue, framing_in};
use crate::head::read_head;
use crate::refusal::FramingRefusal;
use httparse::spans::{HeaderSpan, RequestSpans};

/// A head that frames a body.
#[derive(Clone, Copy, Debug, PartialEq, Eq)]
pub struct Judged {
    /// Where its parts are in the text.
    pub parts: RequestSpans,
    /// How the body is framed.
    pub framing: Framing,
    /// Whether it expects `100 Continue`.
    pub expects_continue: bool,
    /// Whether the method is HEAD.
    pub is_head_request: bool,
}

/// Reads the head that the whole text is, or says why it is none or is refused. The offsets of its
/// fields are written to the start of `spans`.
pub fn judge(text: &[u8], spans: &mut [HeaderSpan]) -> Result<Judged, FramingRefusal>
    requires { length spans.old ≡ field_capacity }
    ensures { IsJudged text.now spans.new result }
{
    match read_head(text, spans) {
        Some(parts) => judge_head(text, spans, parts),
        None => Err(FramingRefusal::BadHead),
    }
}

/// Judges the head whose parts these are.
fn judge_head(
    text: &[u8],
    spans: &[HeaderSpan],
    parts: RequestSpans,
) -> Result<Judged, FramingRefusal>
    requires { (head : RequestHead) × IsHeadAt text.now spans.now parts head }
    ensures { IsJudged text.now spans.now result }
{
    let fields = &spans[..parts.headers];
    match framing_in(text, parts.version, fields) {
        Ok(framing) => Ok(Judged {
            parts,
            framing,
            expects_continue: expects_continue(text, parts.version, fields, framing),
            is_head_request: is_head_request(parts.method.of(text)),
        }),
        Err(refused) => Err(refused),
    }
}

/// Whether the method is HEAD.
fn is_head_request(method: &[u8]) -> bool
    ensures { result ≡ bytes_eq method.now (codes "HEAD") }
{
    method == b"HEAD".as_slice()
}
