//! The numbers by which the calls tell a host what they found.
ghost use Rattle.std.specs.Prelude.{◌≡◌};
ghost use Rattle.client_web.specs.Answer.{level_by, number_of_why, number_of_refusal};

use client_core::{Level, Why};
use flat_snapshot::PageRefusal;

/// The call did what it says, or there is no cause to ask the server.
pub const DONE: u32 = 0;

/// The number of a level is none of 0 to 2.
pub const BAD_LEVEL: u32 = 16;

/// The bytes are not the text of a state.
pub const BAD_STATE: u32 = 21;

/// There is no such row, or it holds nothing that a state tells.
pub const NO_ENTRY: u32 = 22;

/// The buffer has fewer bytes than an entry.
pub const NO_ROOM: u32 = 23;

/// The level of a number: 0 for Session, 1 for Causal, 2 for Strong.
pub fn level_by(number: u32) -> Option<Level>
    ensures { result ≡ level_by number }
{
    match number {
        0 => Some(Level::Session),
        1 => Some(Level::Causal),
        2 => Some(Level::Strong),
        _ => None,
    }
}

/// Why the server is asked, as a number: 0 where there is no cause, and 1 to 5 in the order of `Why`.
pub fn number_of_why(why: Option<Why>) -> u32
    ensures { result ≡ number_of_why why }
{
    match why {
        None => DONE,
        Some(Why::Strong) => 1,
        Some(Why::Flagged) => 2,
        Some(Why::Older) => 3,
        Some(Why::Expired) => 4,
        Some(Why::BelowFloor) => 5,
    }
}

/// Why bytes are not a page, as a number from 17 on.
pub fn number_of_refusal(refusal: PageRefusal) -> u32
    ensures { result ≡ number_of_refusal refusal }
{
    match refusal {
        PageRefusal::BadSize { .. } => 17,
        PageRefusal::BadMark => 18,
        PageRefusal::BadField { .. } => 19,
        PageRefusal::Memory => 20,
    }
}
