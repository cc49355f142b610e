//! The traits of the environment: sources, sinks and clocks.
//!
//! A source may show the bytes that are left, and a sink those that it holds. Of one that shows none
//! nothing is claimed. Each has a count of faults that never falls, and fails only where that count rose.
//! A source that has bytes in a buffer of its own lends them, and gives them first.
ghost use Rattle.std.specs.Prelude.{◌≡◌, ℕ, ◌<◌, List, [], length, true, None};
ghost use Rattle.q_outside.specs.Ends.{End, HasEnded, LastEnd, Took, GaveFromBuffer, GaveSome};

use crate::note::Note;
use q_base::Moment;

/// A source or sink has failed. Its count of faults has risen.
#[derive(Clone, Copy, Debug, PartialEq, Eq)]
pub struct Failed;

/// Where bytes come from.
pub trait Source {
    /// What contracts see of the source: the bytes that are left, where it shows them, and its faults.
    ghost at: { Self → End };

    /// The bytes that it has in a buffer of its own. One without such a buffer has none there.
    ghost buffered: { Self → List ℕ } = { λ _. [] };

    /// The bytes that it has in a buffer of its own, which are the next that it gives.
    fn held(&self) -> &[u8]
        ensures { result.now ≡ buffered self.now };

    /// Copies the next bytes to the start of the buffer and returns their number. 0 is the end.
    fn take(&mut self, into: &mut [u8]) -> Result<usize, Failed>
        requires { 0 < length into.old }
        ensures took { Took (at self.old) (at self.new) into.new result }
        ensures buffered { GaveFromBuffer (buffered self.old) (buffered self.new) into.new result };

    /// A new request begins, of which bytes were taken already where `held` says so. A source with limits
    /// of time begins to count.
    fn begin(&mut self, held: bool)
        ensures { at self.new ≡ at self.old };

    /// Whether a byte or the end is there now. Either answer is right, and is of no effect on what is
    /// served: it says whether a connection goes on at once, or gives its buffers back and waits.
    fn is_ready(&mut self) -> bool
        ensures { at self.new ≡ at self.old };

    /// Returns when bytes, the end or a limit of time is there.
    fn wait(&mut self)
        ensures { at self.new ≡ at self.old };

    /// Whether the connection is to end behind the request in hand, whose reply then says so. Only a
    /// source that shows no bytes may say it.
    fn is_stopping(&mut self) -> bool
        ensures keeps { at self.new ≡ at self.old }
        ensures hidden { result ≡ true → (at self.old).bytes ≡ None };
}

/// Where bytes go to.
pub trait Sink {
    /// What contracts see of the sink: the bytes that it holds, where it shows them, and its faults.
    ghost at: { Self → End };

    /// What it showed of its bytes when it was ended last, or none where it never was. So where this is
    /// what it shows now, it was ended behind all that it holds.
    ghost ended: { Self → LastEnd };

    /// Gives the first bytes of a piece and returns their number, at least one.
    fn give(&mut self, bytes: &[u8]) -> Result<usize, Failed>
        requires { 0 < length bytes.now }
        ensures gave { GaveSome (at self.old) (at self.new) bytes.now result }
        ensures keeps_end { ended self.new ≡ ended self.old };

    /// Says that nothing more will be given. The bytes that it holds stay the same.
    fn end(&mut self)
        ensures keeps { at self.new ≡ at self.old }
        ensures ends { HasEnded (ended self.new) (at self.new).bytes };

    /// Takes note of a request and its reply, behind the reply. It is of no effect on what is served.
    fn note(&mut self, note: &Note<'_>)
        ensures same { at self.new ≡ at self.old }
        ensures keeps_end { ended self.new ≡ ended self.old };
}

/// A source of moments. It never fails. It may stop or go back.
pub trait Clock {
    /// From the first state the clock gave this moment and came to the second state, where it shows so.
    ghost tick: { Self → ℕ → Self → Type 0 };

    /// The current moment.
    fn now(&mut self) -> Moment
        ensures { tick self.old result self.new };
}
