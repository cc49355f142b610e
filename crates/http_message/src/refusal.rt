//! Why a request cannot be framed.

/// Why the end of a request cannot be determined. The connection ends after it.
#[derive(Clone, Copy, Debug, PartialEq, Eq)]
pub enum FramingRefusal {
    /// The bytes are no head of a request.
    BadHead,
    /// The head does not end in 16,384 bytes, or has more than 64 fields.
    HeadTooLarge,
    /// The length of the body is not given, or not in one way (RFC 9112, section 6.3).
    BadLength,
    /// The body has another transfer coding than `chunked` (RFC 9112, section 6.1).
    BadCoding,
    /// The body has more than 65,536 bytes, or its chunked coding more than 524,288.
    BodyTooLarge,
}
