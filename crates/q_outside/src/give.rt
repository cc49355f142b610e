//! Giving whole texts to a sink.
ghost use Rattle.std.specs.Prelude.{◌++◌};
ghost use Rattle.q_outside.specs.Ends.{Gave};

use crate::environment::{Failed, Sink};

/// Gives a text whole, however much the sink takes at a time.
pub fn give_all<K: Sink>(sink: &mut K, bytes: &[u8]) -> Result<(), Failed>
    ensures { Gave (K.at sink.old) (K.at sink.new) bytes.now result }
{
    let mut at = 0;
    while at < bytes.len() {
        match sink.give(&bytes[at..]) {
            Ok(count) => at += count,
            Err(_) => return Err(Failed),
        }
    }
    Ok(())
}

/// Gives one text whole and then another.
pub fn give_both<K: Sink>(sink: &mut K, first: &[u8], second: &[u8]) -> Result<(), Failed>
    ensures { Gave (K.at sink.old) (K.at sink.new) (first.now ++ second.now) result }
{
    match give_all(sink, first) {
        Ok(()) => give_all(sink, second),
        Err(_) => Err(Failed),
    }
}
