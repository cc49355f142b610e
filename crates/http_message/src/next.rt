//! The next item, and where its request is.
ghost use Rattle.std.specs.Prelude.{◌≡◌};

use crate::last_request::LastRequest;
use crate::refusal::FramingRefusal;
use crate::taken::Taken;

/// The item, the offset of the first byte after it, and the request, where it is one.
#[derive(Clone, Copy, Debug, PartialEq, Eq)]
pub struct Next {
    pub taken: Taken,
    pub offset: usize,
    pub last_request: LastRequest,
}

impl Next {
    /// A request whose end cannot be determined.
    pub fn unframed(refused: FramingRefusal, offset: usize, behind: usize, head: bool) -> Next
        ensures taken { result.taken ≡ Taken.Framing refused offset head }
        ensures offset { result.offset ≡ behind }
        ensures last_request { result.last_request ≡ LastRequest.NONE }
    {
        Next {
            taken: Taken::Framing {
                refused,
                place: offset,
                head,
            },
            offset: behind,
            last_request: LastRequest::NONE,
        }
    }
}
