//! What is noted of a reply.
ghost use Rattle.std.specs.Prelude.{◌≡◌, ℕ, Bool, nat_lt};
ghost use Rattle.http_front.specs.ReplyText.{head_of};

use crate::head::Head;
use crate::shape::Shape;
use crate::told::Told;
use crate::why::why_of;
use q_outside::Note;

/// What is noted of the reply to a request of this method and target: its status, whether it is a copy
/// that caches may keep, and why it refuses, where it does. It takes no memory.
pub fn note_of<'a>(shape: &Shape<'_>, told: &Told, method: &'a [u8], target: &'a [u8]) -> Note<'a>
    ensures status { (size : ℕ) (close : Bool) → result.status ≡ (head_of shape.now told.now size close).status }
    ensures copies { (size : ℕ) (close : Bool) → result.is_copy ≡ nat_lt 0 (head_of shape.now told.now size close).ttl }
{
    let head = Head::of(shape, told, 0, false);
    let status = head.status.as_u16();
    Note {
        method,
        target,
        status,
        is_copy: head.ttl > 0,
        why: why_of(told, target),
    }
}
