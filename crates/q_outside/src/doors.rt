//! Doors, through which connections come and go.
//!
//! Doors may show the connections that are left to give, how many they gave, and those that were handed
//! back, each with how many had been given by then. Of doors that show none of it nothing is claimed of
//! them. They have a count of faults and a count of the times that they were closed. Neither falls.
ghost use Rattle.std.specs.Prelude.{◌<◌, IfSome};
ghost use Rattle.q_outside.specs.Doors.{DoorsView, GaveNext, TookBack};

use crate::connections::Next;
use crate::environment::{Failed, Sink, Source};
use crate::served::Served;

/// Where connections come from, and where they are handed back to.
pub trait Doors {
    /// What the bytes of a connection come from. A thread may serve it.
    type From: Source + Send + Drop + 'static;

    /// What they go to.
    type To: Sink + Send + Drop + 'static;

    /// What contracts see of the doors: the connections left to give, how many were given, those handed
    /// back and those in between, where the doors show them, and the two counts.
    ghost at: { Self → DoorsView Self.From Self.To };

    /// Waits for the next connection.
    fn next(&mut self) -> Result<Next<Self::From, Self::To>, Failed>
        ensures { GaveNext (at self.old) (at self.new) result };

    /// Hands a connection back, with how it was served, or none where it was not. It takes no memory.
    fn back(&mut self, source: Self::From, sink: Self::To, served: Option<Served>)
        requires { IfSome (at self.old).away (λ n. 0 < n) }
        ensures { TookBack (at self.old) (at self.new) source sink served };
}
