//! The limits of a request, and what they say of a chunked coding.
ghost use Rattle.std.specs.Prelude.{◌≡◌, ◌+◌, ◌≤◌};
ghost use Rattle.http_message.specs.Coded.{IsProgress};
ghost use Rattle.http_message.specs.Coding.{capacity_behind, overlong_at, fits};
ghost use Rattle.http_message.specs.Limits.{coding_limit};

use crate::chunk::Progress;
use crate::refusal::FramingRefusal;

/// The longest head, with the empty lines before it, in bytes.
pub const HEAD_LIMIT: usize = 16_384;

/// The greatest number of fields of a head.
pub const MOST_FIELDS: usize = 64;

/// The number of fields that fit into the buffer for them: as many as the longest head can have.
pub const FIELD_CAPACITY: usize = 5_462;

/// The longest body, in bytes.
pub const BODY_LIMIT: usize = 65_536;

/// The longest line of a chunk with its line end, and the longest trailers with their empty line, in
/// bytes.
pub const LINE_LIMIT: usize = 4_096;

/// The number of trailer fields that fit into the buffer for them.
pub const TRAILER_CAPACITY: usize = 1_366;

/// The longest chunked coding of a body, in bytes.
pub const CODING_LIMIT: usize = 524_288;

/// The longest line, or the longest trailers, that may follow this number of bytes of a coding.
pub fn capacity_behind(coded: usize) -> usize
    requires { coded ≤ coding_limit }
    ensures { result ≡ capacity_behind coded }
{
    LINE_LIMIT.min(CODING_LIMIT - coded)
}

/// Why a text that does not end within its limit is refused: it is too long itself, or the coding is.
pub fn overlong_at(coded: usize) -> FramingRefusal
    requires { coded ≤ coding_limit }
    ensures { result ≡ overlong_at coded }
{
    if LINE_LIMIT <= CODING_LIMIT - coded {
        return FramingRefusal::BadLength;
    }
    FramingRefusal::BodyTooLarge
}

/// Whether a chunk of this size fits, after its line.
pub fn fits(at: Progress, line: usize, size: usize) -> bool
    requires at { IsProgress at }
    requires line { at.coded + line ≤ coding_limit }
    ensures { result ≡ fits at.coded at.got line size }
{
    size <= BODY_LIMIT - at.got && at.coded + line + size + 2 <= CODING_LIMIT
}
