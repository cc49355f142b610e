//! A request in the buffers that it was taken into.
ghost use Rattle.std.specs.Prelude.{◌≡◌, ◌<◌, length, map, slice_get};
ghost use Rattle.http_message.specs.Fields.{values, lists};
ghost use Rattle.http_message.specs.Message.{asks_to_close};
ghost use Rattle.http_message.specs.Named.{IsNamed};

use crate::fields::{Named, field_at, find_named, lists};
use httparse::spans::{HeaderSpan, RequestSpans};
use std::marker::Model;

/// A request, whose parts are in the buffers that it was taken into.
#[derive(Drop)]
pub struct Request<'a> {
    pub(crate) text: &'a [u8],
    pub(crate) spans: &'a [HeaderSpan],
    pub(crate) parts: RequestSpans,
    pub(crate) body: &'a [u8],
}

impl<'a> Model for Request<'a> {
    ghost use Rattle.http_message.specs.Message.{Message, message_in};
    ghost use Rattle.httparse.specs.Spans.{IsRequestWithin};

    ghost Value = { Message };

    ghost view = { λ r. message_in r.text.now r.spans.now r.parts r.body.now };

    ghost invariant = { λ r. IsRequestWithin r.text.now r.spans.now r.parts };
}

impl<'a> Request<'a> {
    /// The method, as it was written.
    pub fn method(&self) -> &'a [u8]
        ensures { result.now ≡ self.now.method }
    {
        self.parts.method.of(self.text)
    }

    /// The target, as it was written.
    pub fn target(&self) -> &'a [u8]
        ensures { result.now ≡ self.now.target }
    {
        self.parts.path.of(self.text)
    }

    /// 0 for HTTP/1.0, and 1 for HTTP/1.1.
    pub fn minor(&self) -> u8
        ensures { result ≡ self.now.minor }
    {
        self.parts.version
    }

    /// The body, without its framing.
    pub fn body(&self) -> &'a [u8]
        ensures { result.now ≡ self.now.body }
    {
        self.body
    }

    /// How many fields the head has.
    pub fn field_count(&self) -> usize
        ensures { result ≡ length self.now.fields }
    {
        self.parts.headers
    }

    /// The name of the field with this index, as it was written.
    pub fn name(&self, index: usize) -> &'a [u8]
        requires { index < length self.now.fields }
        ensures { slice_get (map (λ pair. pair.0) self.now.fields) index ≡ Some result.now }
    {
        let field = field_at(self.text, &self.spans[..self.parts.headers], index);
        field.name.of(self.text)
    }

    /// The value of the field with this index, without the white space around it.
    pub fn value(&self, index: usize) -> &'a [u8]
        requires { index < length self.now.fields }
        ensures { slice_get (map (λ pair. pair.1) self.now.fields) index ≡ Some result.now }
    {
        let field = field_at(self.text, &self.spans[..self.parts.headers], index);
        field.value.of(self.text)
    }

    /// How often this name occurs among the fields, without regard to ASCII case (RFC 9110, section 5.1).
    pub fn named(&self, name: &[u8]) -> Named<'a>
        ensures { IsNamed (values name.now self.now.fields) result }
    {
        find_named(self.text, &self.spans[..self.parts.headers], name)
    }

    /// Whether some field of this name lists the option (RFC 9110, section 5.6.1). Both are compared
    /// without regard to ASCII case.
    pub fn lists(&self, name: &[u8], option: &[u8]) -> bool
        ensures { result ≡ lists name.now option.now self.now.fields }
    {
        lists(self.text, &self.spans[..self.parts.headers], name, option)
    }

    /// Whether the connection ends after this request.
    pub fn closes(&self) -> bool
        ensures { result ≡ asks_to_close self.now }
    {
        self.parts.version == 0 || self.lists(b"connection", b"close")
    }
}
