//! Places with doors and a link in memory.
ghost use Rattle.std.specs.Prelude.{◌≡◌, ◌<◌, ◌↔◌, Some, None, IfOk, IfSome, IsTrue, option_map, string_bytes};
ghost use Rattle.command_line.specs.Watching.{watch_of};
ghost use Rattle.quaestor_prog.specs.ListPlaces.{AreUnused, AreUnusedIn, watched_of};

use crate::places::Places;
use client_session::{LastReplies, LinkAnswer, ListLink, SessionRefusal};
use command_line::{Data, Watching};
use kept_desk::NoKeeper;
use q_outside::{Failed, Faults, Limits, ListDoors, Sink, Source};
use quaestor_serve::NoMonitor;
use std::alloc::{AllocError, Global};
use std::sync::ledger::{Blank, Ledger};

/// Who watches a server, as places keep it.
#[derive(Debug, Drop)]
pub struct Watched {
    /// The address at which its figures are asked for.
    pub metrics: Option<String>,
    /// The file that gets a line for each request.
    pub log: Option<String>,
    /// Whether these lines are JSON.
    pub json: bool,
}

/// The same, kept by places.
fn watched_by(alloc: Global, watching: Watching<'_>) -> Result<Watched, AllocError>
    ensures { IfOk result (λ w. watched_of w ≡ watch_of watching.entry) }
{
    Ok(Watched {
        metrics: kept_text(alloc, watching.metrics)?,
        log: kept_text(alloc, watching.log)?,
        json: watching.json,
    })
}

/// A text where there is one, kept by places.
fn kept_text(alloc: Global, text: Option<&str>) -> Result<Option<String>, AllocError>
    ensures { IfOk result (λ t. option_map string_bytes t ≡ option_map (λ s. s.now) text.entry) }
{
    match text {
        Some(text) => Ok(Some(String::from_str(alloc, text)?)),
        None => Ok(None),
    }
}

/// Whether the address is this one.
fn is_address(kept: &String, address: &str) -> bool
    ensures { IsTrue result ↔ (string_bytes kept.now ≡ address.now) }
{
    kept.as_str() == address
}

/// Places that have one address, give its doors and its link once, and otherwise fail. They show all that
/// they give, hear and keep.
#[derive(Drop)]
pub struct ListPlaces<S: Drop, K: Drop, L: Ledger, F: Ledger> {
    /// The address.
    pub address: String,
    /// Its doors, until they are given.
    pub left: Option<ListDoors<S, K, L>>,
    /// The limits of time that were last asked for.
    pub limits: Option<Limits>,
    /// Who was last to watch.
    pub watched: Option<Watched>,
    /// The doors last handed back.
    pub kept: Option<ListDoors<S, K, L>>,
    /// What its link answers, the first answer last, until it is given.
    pub answers: Option<Vec<LinkAnswer>>,
    /// The link last handed back.
    pub link: Option<ListLink>,
    /// Why a read over a link last had no answer.
    pub heard: Option<SessionRefusal>,
    /// The number of faults so far.
    pub faults: Faults<F>,
    ghost unused: { AreUnusedIn left },
}

impl<S: Drop, K: Drop, L: Ledger, F: Ledger> ListPlaces<S, K, L, F> {
    /// Places that give these doors at this address, or none, and a link with these answers, or none.
    pub fn new(
        address: String,
        doors: Option<ListDoors<S, K, L>>,
        answers: Option<Vec<LinkAnswer>>,
        blank: Blank,
    ) -> ListPlaces<S, K, L, F>
        requires unused { IfSome doors AreUnused }
        requires name { blank.name ≡ F.name }
        requires parts { blank.parts ≡ F.parts }
        requires some { 0 < F.parts }
        ensures address { result.address ≡ address }
        ensures left { result.left ≡ doors }
        ensures kept { result.kept ≡ None }
        ensures answers { result.answers ≡ answers }
        ensures link { result.link ≡ None }
        ensures faults { result.faults ≡ 0 }
    {
        ListPlaces {
            address,
            left: doors,
            limits: None,
            watched: None,
            kept: None,
            answers,
            link: None,
            heard: None,
            faults: Faults::new(blank),
        }
    }
}

impl<S, K, L: Ledger, F: Ledger> Places for ListPlaces<S, K, L, F>
where
    S: Source + Send + Drop + 'static,
    K: Sink + Send + Drop + 'static,
{
    type Doors = ListDoors<S, K, L>;

    type Link = ListLink;

    type Monitor = NoMonitor;

    type Keeper = NoKeeper;

    ghost at = { λ p. record { faults = p.faults; kept = p.kept; link = p.link } };

    ghost gives = { λ p address limits watching doors q. (string_bytes p.address ≡ address) × (p.left ≡ Some doors) × (q.limits ≡ Some limits) × (option_map watched_of q.watched ≡ Some watching) × (q.address ≡ p.address) };

    ghost tells = { λ p address. string_bytes p.address ≡ address };

    ghost opens = { λ p store _ _ q. (store.file ≡ None) × (q ≡ p) };

    ghost links = { λ p address link q. (string_bytes p.address ≡ address) × (p.answers ≡ Some link.answers) × (q.address ≡ p.address) };

    fn listen(
        &mut self,
        address: &str,
        limits: Limits,
        watching: Watching<'_>,
    ) -> Result<ListDoors<S, K, L>, Failed> {
        if !is_address(&self.address, address) {
            self.faults.rise();
            return Err(Failed);
        }
        self.limits = Some(limits);
        match watched_by(*self.address.allocator(), watching) {
            Ok(watched) => self.watched = Some(watched),
            Err(_) => {
                self.faults.rise();
                return Err(Failed);
            }
        }
        match self.left.take() {
            Some(doors) => Ok(doors),
            None => {
                self.faults.rise();
                Err(Failed)
            }
        }
    }

    fn address(&self) -> &str {
        self.address.as_str()
    }

    fn monitor(&self) -> NoMonitor {
        NoMonitor
    }

    /// They have no files.
    fn keeper(&mut self, store: Option<Data<'_>>, _longest: u64) -> Result<NoKeeper, Failed> {
        if store.is_some() {
            self.faults.rise();
            return Err(Failed);
        }
        Ok(NoKeeper)
    }

    fn reach(&mut self, address: &str) -> Result<ListLink, Failed> {
        if !is_address(&self.address, address) {
            self.faults.rise();
            return Err(Failed);
        }
        match self.answers.take() {
            Some(answers) => Ok(ListLink {
                answers,
                faults: 0,
                bad_replies: 0,
                last: LastReplies::none(),
            }),
            None => {
                self.faults.rise();
                Err(Failed)
            }
        }
    }

    fn keep_doors(&mut self, doors: ListDoors<S, K, L>) {
        self.kept = Some(doors);
    }

    fn hear(&mut self, refusal: SessionRefusal) {
        self.heard = Some(refusal);
    }

    fn note(&self, _done: u32, _count: u32) {}

    fn keep_link(&mut self, link: ListLink) {
        self.link = Some(link);
    }
}
