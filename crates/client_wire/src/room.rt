//! The buffers for the heads of replies.
ghost use Rattle.std.specs.Prelude.{◌≡◌, length};

use httparse::spans::{EMPTY_HEADER_SPAN, HeaderSpan};
use q_base::Memory;
use std::alloc::Global;

/// The longest head of a reply, with the empty lines before it, in bytes.
pub const HEAD_LIMIT: usize = 16_384;

/// The number of fields that fit into the buffer for them: as many as the longest head can have.
pub const FIELD_CAPACITY: usize = 5_462;

/// The text of a reply's head, and the offsets of its fields. All memory is taken by `new`.
#[derive(Drop)]
pub struct ReplyRoom {
    pub(crate) text: Vec<u8>,
    pub(crate) spans: Vec<HeaderSpan>,
    ghost text_size: { length text.items ≡ 16384 },
    ghost spans_size: { length spans.items ≡ 5462 },
}

impl ReplyRoom {
    /// The buffers.
    pub fn new(alloc: Global) -> Result<ReplyRoom, Memory> {
        let text = vec![in alloc; 0; HEAD_LIMIT]?;
        let spans = vec![in alloc; EMPTY_HEADER_SPAN; FIELD_CAPACITY]?;
        Ok(ReplyRoom { text, spans })
    }
}
