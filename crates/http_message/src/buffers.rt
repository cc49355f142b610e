//! The buffers into which the items of a connection are taken.
ghost use Rattle.std.specs.Prelude.{◌≡◌, [], IfOk};
ghost use Rattle.http_message.specs.Room.{IsLastRequest, last_message};

use crate::input::Input;
use crate::last_request::LastRequest;
use crate::limits::{BODY_LIMIT, FIELD_CAPACITY, HEAD_LIMIT, TRAILER_CAPACITY};
use crate::message::Request;
use httparse::spans::{EMPTY_HEADER_SPAN, HeaderSpan};
use q_base::Memory;
use std::alloc::Global;
use std::marker::Model;

/// The bytes that were taken from a source and are not used yet, the text of the last head, the offsets
/// of its fields, those of the last trailers, and the last body. All memory is taken by `new`.
#[derive(Drop)]
pub struct Buffers {
    pub input: Input,
    pub text: Vec<u8>,
    pub spans: Vec<HeaderSpan>,
    pub trailer_spans: Vec<HeaderSpan>,
    pub body: Vec<u8>,
}

impl Model for Buffers {
    ghost use Rattle.http_message.specs.Buffers.{Contents, IsSized};

    ghost Value = { Contents };

    ghost view = { λ b. record { bytes = b.input; text = b.text.items; spans = b.spans.items; body = b.body.items } };

    ghost invariant = { λ b. IsSized b.text.items b.spans.items b.trailer_spans.items b.body.items };
}

impl Buffers {
    /// The buffers, which hold no byte of a source.
    pub fn new(alloc: Global) -> Result<Buffers, Memory>
        ensures { IfOk result (λ buffers. buffers.bytes ≡ []) }
    {
        let input = Input::new(alloc)?;
        let text = vec![in alloc; 0; HEAD_LIMIT]?;
        let spans = vec![in alloc; EMPTY_HEADER_SPAN; FIELD_CAPACITY]?;
        let trailer_spans = vec![in alloc; EMPTY_HEADER_SPAN; TRAILER_CAPACITY]?;
        let body = vec![in alloc; 0; BODY_LIMIT]?;
        Ok(Buffers {
            input,
            text,
            spans,
            trailer_spans,
            body,
        })
    }

    /// The last request, whose parts are in them.
    pub fn request(&self, last_request: LastRequest) -> Request<'_>
        requires { IsLastRequest self.now last_request }
        ensures { result ≡ last_message self.now last_request }
    {
        Request {
            text: &self.text[..last_request.text],
            spans: &self.spans,
            parts: last_request.parts,
            body: &self.body[..last_request.body],
        }
    }

    /// Drops the bytes that are not used yet.
    pub fn clear(&mut self)
        ensures { self.new ≡ record self.old { bytes = [] } }
    {
        self.input.clear();
    }
}
