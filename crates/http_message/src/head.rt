//! The head of a request, read from its whole text.
ghost use Rattle.std.specs.Prelude.{◌≡◌, ℕ, length, IfSome, IfNone};
ghost use Rattle.httparse.specs.Grammar.{RequestHead};
ghost use Rattle.http_message.specs.Head.{IsHeadAt, IsNoHead};
ghost use Rattle.http_message.specs.Limits.{field_capacity};

use httparse::Status;
use httparse::spans::{HeaderSpan, RequestSpans, parse_request};

/// The parts of the head that the whole text is, or nothing where it is none.
pub fn read_head(text: &[u8], spans: &mut [HeaderSpan]) -> Option<RequestSpans>
    requires { length spans.old ≡ field_capacity }
    ensures head { IfSome result (λ parts. (head : RequestHead) × IsHeadAt text.now spans.new parts head) }
    ensures none { IfNone result (IsNoHead text.now) }
{
    match parse_request(text, spans) {
        Ok(Status::Complete(parts)) if parts.len == text.len() => Some(parts),
        _ => None,
    }
}
