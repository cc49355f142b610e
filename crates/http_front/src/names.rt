//! The names in a path.
ghost use Rattle.std.specs.Prelude.{◌≡◌, ◌&&◌, is_ok, length, IfOk};
ghost use Rattle.q_base.specs.Name.{is_name_byte};
ghost use Rattle.std.specs.List.{list_all};
ghost use Rattle.http_front.specs.Asks.{name_in};
ghost use Rattle.percent_encoding.specs.Percent.{percent_decode};

use crate::refused::Refused;
use percent_encoding::percent_decode;
use q_base::{Memory, Name, NameRefusal};
use std::alloc::Global;

/// The name that bytes are once their escapes are decoded.
#[tactic(auto, unfolding(crate::specs::Asks::name_in))]
pub(crate) fn name_in(alloc: Global, text: &[u8]) -> Result<Result<Name, Refused>, Memory>
    ensures { IfOk result (λ name. name ≡ name_in text.now) }
{
    let Ok(text) = percent_decode(text).into_cow(alloc) else {
        return Err(Memory);
    };
    match Name::read(alloc, &text) {
        Ok(name) => Ok(Ok(name)),
        Err(NameRefusal::Memory) => Err(Memory),
        Err(_) => Ok(Err(Refused::BadTarget)),
    }
}

/// Whether two texts are names once their escapes are decoded. It takes no memory.
pub(crate) fn are_names(first: &[u8], second: &[u8]) -> bool
    ensures { result ≡ (is_ok (name_in first.now) && is_ok (name_in second.now)) }
{
    is_name(first) && is_name(second)
}

/// Whether a text is a name once its escapes are decoded. It takes no memory.
#[tactic(auto, unfolding(crate::specs::Asks::name_in))]
pub(crate) fn is_name(text: &[u8]) -> bool
    ensures { result ≡ is_ok (name_in text.now) }
{
    let length = decoded_length(text);
    if length == 0 {
        return false;
    }
    if length > 64 {
        return false;
    }
    has_name_bytes(text)
}

/// The length of a text without its escapes.
fn decoded_length(text: &[u8]) -> usize
    ensures { result ≡ length (percent_decode text.now) }
{
    percent_decode(text).count()
}

/// Whether a name may have each of the bytes of a text without its escapes.
fn has_name_bytes(text: &[u8]) -> bool
    ensures { result ≡ list_all is_name_byte (percent_decode text.now) }
{
    for byte in percent_decode(text) {
        if !is_name_byte(byte) {
            return false;
        }
    }
    true
}

/// Whether a name may have the byte.
fn is_name_byte(byte: u8) -> bool
    ensures { result ≡ is_name_byte byte }
{
    matches!(byte, b'a'..=b'z' | b'0'..=b'9' | b'_' | b'-')
}
