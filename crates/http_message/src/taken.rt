//! The answers of `next_request`.

use crate::refusal::FramingRefusal;

/// What was taken. A place is the offset of the item's first byte in the bytes of the connection.
#[derive(Clone, Copy, Debug, PartialEq, Eq)]
pub enum Taken {
    /// A request with all of its body, which is in the buffers.
    Request {
        place: usize,
    },
    /// A request whose end cannot be determined. The head was not refused and its method is HEAD where
    /// `head` says so.
    Framing {
        refused: FramingRefusal,
        place: usize,
        head: bool,
    },
    /// The source has ended, and no byte but CR and LF is left.
    InputEnd,
    /// The source has ended inside a request.
    Truncated,
    /// The source has failed.
    ReadFault,
    /// The sink has failed while it was given `100 Continue`.
    WriteFault,
}
