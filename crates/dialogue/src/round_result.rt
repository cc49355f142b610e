//! How a round of a connection came out.
ghost use Rattle.dialogue.specs.Round.{IsRoundResult};

use q_outside::{Failed, Why};

/// How a round came out.
#[derive(Clone, Copy, Debug, PartialEq, Eq)]
pub enum RoundResult {
    /// An item was answered, and the connection goes on.
    KeptOpen,
    /// An item was answered, and it ended the connection, for this reason.
    Closed(Why),
    /// An item was answered, and the sink failed inside the reply.
    SinkFailed,
    /// No item was answered, for this reason.
    Incomplete(Why),
}

impl RoundResult {
    /// By how the answer to an item came out, and how the item ends the connection, where it does.
    pub(crate) fn of(given: Result<(), Failed>, end: Option<Why>) -> RoundResult
        ensures { IsRoundResult given end result }
    {
        match (given, end) {
            (Ok(()), None) => RoundResult::KeptOpen,
            (Ok(()), Some(why)) => RoundResult::Closed(why),
            (Err(_), _) => RoundResult::SinkFailed,
        }
    }
}
