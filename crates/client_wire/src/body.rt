//! The body of a reply, taken by its length.
ghost use Rattle.std.specs.Prelude.{◌≡◌, length};
ghost use Rattle.client_wire.specs.Heads.{Fills};

use crate::head::Cut;
use q_outside::{Failed, Source};

/// Why a body is not whole.
#[derive(Clone, Copy, Debug, PartialEq, Eq)]
pub struct ShortBody {
    /// The number of its bytes that came.
    pub taken: usize,
    /// Why no more came.
    pub cut: Cut,
}

/// Fills the buffer from the source. No more bytes are taken.
pub(crate) fn take_body<S: Source>(source: &mut S, into: &mut [u8]) -> Result<(), ShortBody>
    ensures len { length into.new ≡ length into.old }
    ensures fills { Fills (S.at source.old) (S.at source.new) into.new result }
{
    let mut taken = 0;
    while taken < into.len() {
        match source.take(&mut into[taken..]) {
            Ok(0) => {
                return Err(ShortBody {
                    taken,
                    cut: Cut::Ended,
                });
            }
            Ok(count) => taken += count,
            Err(Failed) => {
                return Err(ShortBody {
                    taken,
                    cut: Cut::Failed,
                });
            }
        }
    }
    Ok(())
}
