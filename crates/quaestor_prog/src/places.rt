//! Places, where connections are listened for, and which clients reach.
//!
//! They have a count of faults that never falls, and fail only where it rose.
ghost use Rattle.std.specs.Prelude.{◌≡◌, true, is_some, ℕ, List, Some, IfOk};
ghost use Rattle.q_outside.specs.declared.limits.Limits.{Limits as LimitsOf};
ghost use Rattle.command_line.specs.Data.{DataAsk, asked_data};
ghost use Rattle.command_line.specs.Watching.{WatchAsk, watch_of};
ghost use Rattle.quaestor_prog.specs.Places.{AreNew, HasGiven, IsUnasked, PlacesView};

use client_session::{Link, SessionRefusal};
use command_line::{Data, Watching};
use kept_desk::Keeper;
use q_outside::{Doors, Failed, Limits};

/// Where connections are listened for, and servers are reached, by address.
pub trait Places {
    /// Doors, through which the connections of an address come.
    type Doors: Doors;
    /// A link to the server of an address.
    type Link: Link;
    /// What hears how the server goes, for who watches it.
    type Monitor: quaestor_serve::Monitor + Clone + Send + Drop + 'static;
    /// Who keeps the commits of a store in a file.
    type Keeper: Keeper + Drop;

    /// What contracts see of the places: the number of their faults, and the doors and the link last
    /// handed back.
    ghost at: { Self → PlacesView Self.Doors Self.Link };

    /// From the first state the places gave these doors at this address, within these limits of time and
    /// for who watches so, and came to the second state, where they show so.
    ghost gives: { Self → List ℕ → LimitsOf → WatchAsk → Self.Doors → Self → Type 0 };

    /// The places tell this as the address at which they gave doors last, where they show so.
    ghost tells: { Self → List ℕ → Type 0 };

    /// From the first state the places opened or made the file of this store, where one is given, gave this
    /// keeper of it for as long as caches may keep replies for so many seconds, and came to the second state,
    /// where they show so.
    ghost opens: { Self → DataAsk → ℕ → Self.Keeper → Self → Type 0 };

    /// From the first state the places gave this link to this address and came to the second state, where
    /// they show so.
    ghost links: { Self → List ℕ → Self.Link → Self → Type 0 };

    /// Listens for connections at an address. They are served within these limits of time, and watched so:
    /// the log is opened, and the address of the metrics listened at, or they fail as a whole.
    fn listen(
        &mut self,
        address: &str,
        limits: Limits,
        watching: Watching<'_>,
    ) -> Result<Self::Doors, Failed>
        ensures gives { IfOk result (λ d. gives self.old address.now limits (watch_of watching.entry) d self.new) }
        ensures unused { IfOk result (λ d. AreNew (Self.Doors.at d)) }
        ensures count { HasGiven (at self.old) (at self.new) result };

    /// The address at which they gave doors last, as it is told: with the port that the system chose.
    fn address(&self) -> &str
        ensures { tells self.now result.now };

    /// What hears how the server of the doors goes that they gave last.
    fn monitor(&self) -> Self::Monitor;

    /// Opens or makes the file of a store, where one is given; without it nothing is kept. Caches may keep
    /// replies of the store for so many seconds. They fail where it is no store, or another program has it.
    fn keeper(&mut self, store: Option<Data<'_>>, longest: u64) -> Result<Self::Keeper, Failed>
        ensures opens { IfOk result (λ k. opens self.old (asked_data store.entry) longest k self.new) }
        ensures keeps { IfOk result (λ k. Self.Keeper.may_fail k ≡ true → is_some store.entry ≡ true) }
        ensures lasts { IfOk result (λ k. Self.Keeper.may_fail k ≡ true → Self.Keeper.longest k ≡ longest) }
        ensures count { HasGiven (at self.old) (at self.new) result };

    /// Reaches the server at an address.
    fn reach(&mut self, address: &str) -> Result<Self::Link, Failed>
        ensures links { IfOk result (λ l. links self.old address.now l self.new) }
        ensures unasked { IfOk result (λ l. IsUnasked (Self.Link.at l)) }
        ensures count { HasGiven (at self.old) (at self.new) result };

    /// Hands doors back. It takes no memory.
    fn keep_doors(&mut self, doors: Self::Doors)
        ensures { at self.new ≡ record (at self.old) { kept = Some doors } };

    /// Hears why a read over a link has no answer, for a message. It takes no memory.
    fn hear(&mut self, refusal: SessionRefusal)
        ensures { at self.new ≡ at self.old };

    /// Hears now and then how many of the steps of a world are done, for a message. It takes no memory.
    fn note(&self, done: u32, count: u32);

    /// Hands a link back. It takes no memory.
    fn keep_link(&mut self, link: Self::Link)
        ensures { at self.new ≡ record (at self.old) { link = Some link } };
}
