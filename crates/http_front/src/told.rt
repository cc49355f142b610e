//! What is answered to a request.
ghost use Rattle.std.specs.Prelude.{◌≡◌};
ghost use Rattle.http_front.specs.ReplyText.{written_clock, clock_of};

use crate::refused::Refused;
use hub_model::{Answer, Dropped, Matched, PurgeReply, Stats, Written};
use q_base::Moment;

/// What is answered to a request.
#[derive(Debug, Drop)]
pub enum Told {
    /// The reply to a write.
    Write(Written),
    /// The reply to a read.
    Read(Answer),
    /// The front after a match.
    Match(Matched),
    /// The horizon after a drop of old changes.
    Dropped(Dropped),
    /// A page, whose bytes are in the buffer that it was fetched into. The moment is the clock after
    /// its entry.
    Page(Moment),
    /// The counts of the store.
    Count(Stats),
    /// The list of purges from a number on.
    Purges(PurgeReply),
    /// The request is refused. The moment is the clock after its entry.
    Refusal(Refused, Moment),
    /// There was no memory, and no entry was made.
    Memory,
    /// An entry was made, and what it could show cannot be kept.
    Unkept,
}

impl Told {
    /// The moment of the reply's date.
    pub(crate) fn clock(&self) -> Moment
        ensures { result ≡ clock_of self.now }
    {
        match self {
            Told::Write(written) => written_clock(written),
            Told::Read(answer) => answer.clock,
            Told::Match(matched) => matched.clock,
            Told::Dropped(dropped) => dropped.clock,
            Told::Page(clock) | Told::Refusal(_, clock) => *clock,
            Told::Count(stats) => stats.clock,
            Told::Purges(reply) => reply.clock,
            Told::Memory | Told::Unkept => Moment::of(0),
        }
    }
}

/// The clock after a write.
fn written_clock(written: &Written) -> Moment
    ensures { result ≡ written_clock written.now }
{
    match written {
        Written::Done { clock, .. }
        | Written::Precondition { clock, .. }
        | Written::Full { clock, .. } => *clock,
    }
}
