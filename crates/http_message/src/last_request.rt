//! Where the last request is in the buffers.

use httparse::spans::{RequestSpans, Span};

/// The last request: the lengths of its head's text and of its body, and where the parts of the head
/// are in the text.
#[derive(Clone, Copy, Debug, PartialEq, Eq)]
pub struct LastRequest {
    pub text: usize,
    pub parts: RequestSpans,
    pub body: usize,
}

impl LastRequest {
    /// No request.
    pub const NONE: LastRequest = LastRequest {
        text: 0,
        parts: RequestSpans {
            method: Span { start: 0, end: 0 },
            path: Span { start: 0, end: 0 },
            version: 0,
            headers: 0,
            len: 0,
        },
        body: 0,
    };
}
