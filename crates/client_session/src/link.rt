//! What a session asks through: a server, and the caches on the way to it.
//!
//! A link may tell the history behind it. Of one that tells none nothing is claimed of its replies. It has a
//! count of faults and one of replies that are not of the format. Neither falls, and a link answers either
//! only where its count rose.
ghost use Rattle.std.specs.Prelude.{Result};
ghost use Rattle.client_session.specs.Link.{Exchange, LinkView, Went, through, direct, page};

use crate::ask::{ClientAsk, LinkRefusal};
use client_model::Reply;
use flat_snapshot::Page;

/// What a session asks through.
pub trait Link {
    /// What contracts see of the link.
    ghost at: { Self → LinkView };

    /// From the first state the call was answered so and left the second state.
    ghost answers: { Self → Exchange → Self → Type 0 };

    /// Asks the caches, and the server where none of them has a reply.
    fn through(&mut self, ask: &ClientAsk) -> Result<Reply, LinkRefusal>
        ensures answered { answers self.old (through ask.now result) self.new }
        ensures went { Went (at self.old) (at self.new) (through ask.now result) };

    /// Asks the server.
    fn direct(&mut self, ask: &ClientAsk) -> Result<Reply, LinkRefusal>
        ensures answered { answers self.old (direct ask.now result) self.new }
        ensures went { Went (at self.old) (at self.new) (direct ask.now result) };

    /// Asks the server for the page of the outdated keys.
    fn page(&mut self) -> Result<Page, LinkRefusal>
        ensures answered { answers self.old (page result) self.new }
        ensures went { Went (at self.old) (at self.new) (page result) };
}
