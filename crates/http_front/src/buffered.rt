//! Giving a text to a sink by way of a buffer, so that it is given in few pieces. The first bytes of the
//! buffer wait to be given; a call answers how many they are then.
ghost use Rattle.std.specs.Prelude.{◌≡◌, ◌≤◌, ◌++◌, length, take};
ghost use Rattle.http_front.specs.Buffered.{Adds};

use crate::put::put;
use q_outside::{Failed, Sink, give_all};

/// Adds a piece to what waits. Where the buffer has no space for it, what waits is given first.
pub(crate) fn add<K: Sink>(
    sink: &mut K,
    buffer: &mut [u8],
    at: usize,
    piece: &[u8],
) -> Result<usize, Failed>
    requires { at ≤ length buffer.old }
    ensures { Adds (K.at sink.old) (K.at sink.new) (take at buffer.old) piece.now buffer.new result }
{
    if piece.len() <= buffer.len() - at {
        return Ok(put(buffer, at, piece));
    }
    give_all(sink, &buffer[..at])?;
    if piece.len() <= buffer.len() {
        return Ok(put(buffer, 0, piece));
    }
    give_all(sink, piece)?;
    Ok(0)
}

/// Adds two pieces.
pub(crate) fn add_both<K: Sink>(
    sink: &mut K,
    buffer: &mut [u8],
    at: usize,
    first: &[u8],
    second: &[u8],
) -> Result<usize, Failed>
    requires { at ≤ length buffer.old }
    ensures { Adds (K.at sink.old) (K.at sink.new) (take at buffer.old) (first.now ++ second.now) buffer.new result }
{
    let added = add(sink, buffer, at, first)?;
    add(sink, buffer, added, second)
}
