//! Bytes that are taken straight into a buffer of their own.
ghost use Rattle.std.specs.Prelude.{◌≡◌, ℕ, ◌<◌, List, length};
ghost use Rattle.http_message.specs.Input.{Reads, IsFull};

use crate::incomplete::Incomplete;
use crate::input::Input;
use q_outside::{Failed, Source};

/// Fills the buffer, first with the bytes that are held, then from the source. No more bytes are
/// taken.
pub fn take_exact<S: Source>(
    source: &mut S,
    input: &mut Input,
    into: &mut [u8],
) -> Result<(), Incomplete>
    ensures { Reads (S.at source.old) (S.at source.new) input.old input.new (λ bytes. length bytes < length into.new) (λ _ used. used ≡ into.new) result }
{
    let held = input.len().min(into.len());
    into[..held].copy_from_slice(&input.bytes()[..held]);
    input.skip(held);
    take_all(source, &mut into[held..])
}

/// Fills the buffer from the source.
fn take_all<S: Source>(source: &mut S, into: &mut [u8]) -> Result<(), Incomplete>
    ensures full { IsFull (S.at source.old) (S.at source.new) into.new result }
    ensures idle { length into.new ≡ 0 → S.at source.new ≡ S.at source.old }
{
    let mut at = 0;
    while at < into.len() {
        match source.take(&mut into[at..]) {
            Ok(0) => return Err(Incomplete::Truncated),
            Ok(count) => at += count,
            Err(Failed) => return Err(Incomplete::ReadFault),
        }
    }
    Ok(())
}
