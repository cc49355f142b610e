//! A session: a level, the held page, and what its reads and writes have seen.
//!
//! 1. The floor of a key is the greatest commit that the session must not fall behind: of its own writes,
//!    and of its reads of the key, or of all its reads.
//! 2. A key whose bits are all set is asked of the server once for each page. It is then whitelisted, and its
//!    copies from the front on are accepted. A new page empties the whitelist.
//! 3. Memory is taken before the link is asked, so that what a call learns is always noted.
//! 4. A key's text is hashed at its first read alone: the key's mark is kept beside its floor.
ghost use Rattle.std.specs.Prelude.{◌≡◌, ◌≤◌, List, [], None, Ok, IfOk, OnErr};
ghost use Rattle.query_normal.specs.Keys.{key_text, same_key};
ghost use Rattle.query_normal.specs.declared.key.KeyShape.{KeyShape as AKey};
ghost use Rattle.client_core.specs.Choice.{front_of};
ghost use Rattle.client_core.specs.Floor.{Event, floor_of};
ghost use Rattle.flat_snapshot.specs.Sight.{mark_of};
ghost use Rattle.client_session.specs.Noted.{noted, floor_at};
ghost use Rattle.client_session.specs.declared.ask.ClientAsk.TheVariants.{Delete as a_delete};
ghost use Rattle.client_session.specs.Link.{Makes};
ghost use Rattle.client_session.specs.Read.{IsReadBy, IsFresh, StaysHeld, Holds, IsResult, sight_by};
ghost use Rattle.client_session.specs.Session.{HasPast, IsAboveFloor, IsKept, IsRefreshedBy, IsWriteBy, IsRefreshedIf, Fetches, commit_by, floor_with, is_behind, is_flagged, is_newer, past_after, past_refreshed, past_written, position_of, put_of, writes_with, written_by};

use crate::ask::{ClientAsk, LinkRefusal};
use crate::link::Link;
use crate::noted::{KeyFloor, floor_at, is_listed, list, note, noted};
use crate::read_out::{ReadOut, Refreshed, Way};
use crate::reading::{Position, read_by};
use crate::refusal::{SessionRefusal, refused};
use client_core::{Level, Why};
use client_model::Reply;
use flat_snapshot::{KeyMark, Page, Sight};
use hub_model::Condition;
use indexmap::{IndexMap, IndexSet};
use q_base::{Commit, Memory, Name};
use q_doc::Doc;
use query_normal::Key;
use std::alloc::Global;
use std::marker::Model;

/// A client's session. Each call takes the link that it asks through.
#[derive(Drop)]
pub struct Session {
    alloc: Global,
    level: Level,
    page: Option<Page>,
    floors: IndexMap<Key, KeyFloor>,
    listed: IndexSet<Key>,
    writes: Commit,
    reads: Commit,
}

impl Model for Session {
    ghost use Rattle.std.specs.Coded.{codes};
    ghost use Rattle.q_doc.specs.Code.{tree_code};
    ghost use Rattle.query_core.specs.Code.{filter_code};
    ghost use Rattle.client_session.specs.Session.{SessionView};

    ghost Value = { SessionView };

    ghost coded = { Prim.hlevel (codes, tree_code, filter_code) };

    ghost view = { λ s. record { level = s.level; page = s.page; floors = s.floors.entries; listed = s.listed.keys; writes = s.writes; reads = s.reads } };

    ghost use Rattle.client_session.specs.Noted.{AreMarked};

    ghost invariant = { λ s. AreMarked s.floors.entries };
}

/// What the held page says of a key with this mark.
fn sight_at(held: &Option<Page>, mark: KeyMark) -> Option<Sight>
    ensures { (key : AKey) → mark ≡ mark_of (key_text key) → result ≡ sight_by held.now key }
{
    match held {
        Some(page) => Some(page.sight_at(mark)),
        None => None,
    }
}

/// The held page's front, and 0 without a page.
fn front_by(held: &Option<Page>) -> Commit
    ensures { (key : AKey) → result ≡ front_of (sight_by held.now key) }
{
    match held {
        Some(page) => page.front(),
        None => 0,
    }
}

/// Whether a page is newer than the held one.
fn is_newer(held: &Option<Page>, page: &Page) -> bool
    ensures { result ≡ is_newer held.now page.now }
{
    match held {
        None => true,
        Some(held) => {
            held.front() < page.front()
                || held.front() == page.front() && held.moment().seconds() < page.moment().seconds()
        }
    }
}

/// Whether the way is that of a flagged key.
fn is_flagged(way: Way) -> bool
    ensures { result ≡ is_flagged way }
{
    match way {
        Way::Direct(Why::Flagged) => true,
        _ => false,
    }
}

/// What the server's answer to a write gives.
fn commit_by(told: Result<Reply, LinkRefusal>) -> Result<Commit, SessionRefusal>
    ensures { result ≡ commit_by told }
{
    let reply = match told {
        Ok(reply) => reply,
        Err(refusal) => return Err(refused(refusal)),
    };
    let code = reply.status;
    if code == 200 || code == 201 {
        return Ok(reply.commit);
    }
    Err(SessionRefusal::Status { code })
}

/// The greatest commit of the writes, after one more.
fn writes_with(writes: Commit, told: Result<Commit, SessionRefusal>) -> Commit
    ensures { result ≡ writes_with writes told }
{
    match told {
        Ok(commit) => writes.max(commit),
        Err(_) => writes,
    }
}

impl Session {
    /// A session that has seen nothing and holds no page.
    pub fn new(alloc: Global, level: Level) -> Result<Session, Memory>
        ensures empty { IfOk result (λ session. HasPast session []) }
        ensures level { IfOk result (λ session. session.level ≡ level) }
        ensures page { IfOk result (λ session. session.page ≡ None) }
    {
        Ok(Session {
            alloc,
            level,
            page: None,
            floors: IndexMap::new(alloc),
            listed: IndexSet::new(alloc),
            writes: 0,
            reads: 0,
        })
    }

    /// Where the session stands before a read of a key of which this is noted.
    fn position(&self, key: &Key, known: KeyFloor) -> Position
        requires { known ≡ floor_at self.now.floors key.now }
        ensures { result ≡ position_of self.now key.now }
    {
        Position {
            level: self.level,
            sight: sight_at(&self.page, known.mark),
            is_whitelisted: is_listed(&self.listed, key),
            floor: self.floor_from(known.commit),
        }
    }

    /// The floor for a key that was read at this commit.
    fn floor_from(&self, commit: Commit) -> Commit
        ensures { (key : AKey) → commit ≡ noted self.now.floors key → result ≡ floor_with self.now.level self.now key }
    {
        match self.level {
            Level::Session => self.writes.max(commit),
            Level::Causal => self.writes.max(self.reads),
            Level::Strong => self.writes.max(self.reads),
        }
    }

    /// The floor for a key: no read of it answers below this commit.
    pub fn floor(&self, key: &Key) -> Commit
        ensures by { result ≡ floor_with self.now.level self.now key.now }
        ensures floor { (past : List (Event AKey)) → HasPast self.now past → result ≡ floor_of same_key self.now.level past key.now }
    {
        self.floor_from(noted(&self.floors, key))
    }

    /// Reads a key: the result at a commit that is below neither the held page's front nor the floor.
    pub fn read<L: Link>(&mut self, link: &mut L, key: &Key) -> Result<ReadOut, SessionRefusal>
        // The calls of the link, in order, and the answer that they give.
        ensures by { Makes L.at L.answers link.old link.new (λ xs. IsReadBy (position_of self.old key.now) key.now xs result) }

        // No answer is older than the held page, or than what the session has seen.
        ensures front { IfOk result (λ out. front_of (sight_by self.old.page key.now) ≤ out.commit) }
        ensures floor { IsAboveFloor self.old key.now result }

        // Over a link that tells its history the answer is the result at its commit.
        ensures fresh { Holds (L.at link.old) self.old.page → IfOk result (λ out. IsResult (L.at link.new) key.now out) }
        ensures holds { Holds (L.at link.old) self.old.page → Holds (L.at link.new) self.new.page }

        // What the session has seen since, and nothing of it where it is refused.
        ensures past { (past : List (Event AKey)) → HasPast self.old past → HasPast self.new (past_after key.now result past) }
        ensures refused { OnErr result (self.new ≡ self.old) }
        ensures level { self.new.level ≡ self.old.level }
        ensures page { self.new.page ≡ self.old.page }
    {
        self.read_noting(link, key)
    }

    /// The same read, of which the held page is not spoken.
    fn read_noting<L: Link>(&mut self, link: &mut L, key: &Key) -> Result<ReadOut, SessionRefusal>
        ensures by { Makes L.at L.answers link.old link.new (λ xs. IsReadBy (position_of self.old key.now) key.now xs result) }
        ensures front { IfOk result (λ out. front_of (sight_by self.old.page key.now) ≤ out.commit) }
        ensures floor { IfOk result (λ out. floor_with self.old.level self.old key.now ≤ out.commit) }
        ensures fresh { IsFresh (L.at link.old) (L.at link.new) (position_of self.old key.now) key.now result }
        ensures holds { StaysHeld (L.at link.old) (L.at link.new) }
        ensures past { (past : List (Event AKey)) → HasPast self.old past → HasPast self.new (past_after key.now result past) }
        ensures refused { OnErr result (self.new ≡ self.old) }
        ensures level { self.new.level ≡ self.old.level }
        ensures page { self.new.page ≡ self.old.page }
    {
        let seen = key.clone()?;
        let asked = key.clone()?;
        self.floors.reserve(1)?;
        self.listed.reserve(1)?;
        let known = floor_at(&self.floors, key);
        let position = self.position(key, known);
        let out = read_by(link, position, key)?;
        note(&mut self.floors, seen, known, out.commit);
        self.reads = self.reads.max(out.commit);
        list(&mut self.listed, asked, is_flagged(out.way));
        Ok(out)
    }

    /// Fetches a page. A newer one is held from then on, and empties the whitelist.
    pub fn refresh<L: Link>(&mut self, link: &mut L) -> Result<Refreshed, SessionRefusal>
        ensures by { Fetches L.at L.answers link.old link.new (λ told. IsRefreshedBy self.old self.new told result) }
        ensures holds { Holds (L.at link.old) self.old.page → Holds (L.at link.new) self.new.page }
        ensures past { (past : List (Event AKey)) → HasPast self.old past → HasPast self.new (past_refreshed result past) }
    {
        match link.page() {
            Err(refusal) => Err(refused(refusal)),
            Ok(page) => Ok(self.keep(page)),
        }
    }

    /// Whether the held page is behind what the session has seen of a key.
    fn is_behind(&self, key: &Key) -> bool
        ensures { result ≡ is_behind self.now key.now }
    {
        front_by(&self.page) < self.floor(key)
    }

    /// Fetches a page where the held one is behind what the session has seen of a key, so that its copies are
    /// accepted more often. No read does this by itself.
    pub fn refresh_if_behind<L: Link>(
        &mut self,
        link: &mut L,
        key: &Key,
    ) -> Result<Refreshed, SessionRefusal>
        ensures by { IsRefreshedIf L.at L.answers (is_behind self.old key.now) link.old link.new self.old self.new result }
        ensures holds { Holds (L.at link.old) self.old.page → Holds (L.at link.new) self.new.page }
        ensures past { (past : List (Event AKey)) → HasPast self.old past → HasPast self.new (past_refreshed result past) }
    {
        if !self.is_behind(key) {
            return Ok(Refreshed::Older);
        }
        self.refresh(link)
    }

    /// Holds a page from now on, if it is newer than the held one.
    fn keep(&mut self, page: Page) -> Refreshed
        ensures { IsKept (is_newer self.old.page page) self.old self.new page (Ok result) }
    {
        if !is_newer(&self.page, &page) {
            return Refreshed::Older;
        }
        self.page = Some(page);
        self.listed.clear();
        Refreshed::Newer
    }

    /// Puts a document, and gives the commit of the write.
    pub fn put<L: Link>(
        &mut self,
        link: &mut L,
        collection: &Name,
        id: &Name,
        doc: &Doc,
        condition: &Condition,
    ) -> Result<Commit, SessionRefusal>
        ensures by { Makes L.at L.answers link.old link.new (λ xs. IsWriteBy (put_of collection.now id.now doc.now condition.now) xs result) }
        ensures session { self.new ≡ written_by self.old result }
        ensures holds { Holds (L.at link.old) self.old.page → Holds (L.at link.new) self.new.page }
        ensures past { (past : List (Event AKey)) → HasPast self.old past → HasPast self.new (past_written result past) }
    {
        let ask = ClientAsk::Put {
            collection: collection.clone()?,
            id: id.clone()?,
            text: doc.print(self.alloc)?,
            condition: condition.clone()?,
        };
        self.write(link, &ask)
    }

    /// Deletes a record, and gives the commit of the write.
    pub fn delete<L: Link>(
        &mut self,
        link: &mut L,
        collection: &Name,
        id: &Name,
        condition: &Condition,
    ) -> Result<Commit, SessionRefusal>
        ensures by { Makes L.at L.answers link.old link.new (λ xs. IsWriteBy (a_delete collection.now id.now condition.now) xs result) }
        ensures session { self.new ≡ written_by self.old result }
        ensures holds { Holds (L.at link.old) self.old.page → Holds (L.at link.new) self.new.page }
        ensures past { (past : List (Event AKey)) → HasPast self.old past → HasPast self.new (past_written result past) }
    {
        let ask = ClientAsk::Delete {
            collection: collection.clone()?,
            id: id.clone()?,
            condition: condition.clone()?,
        };
        self.write(link, &ask)
    }

    /// Asks the server for a write, and notes its commit.
    fn write<L: Link>(&mut self, link: &mut L, ask: &ClientAsk) -> Result<Commit, SessionRefusal>
        ensures by { Makes L.at L.answers link.old link.new (λ xs. IsWriteBy ask.now xs result) }
        ensures session { self.new ≡ written_by self.old result }
        ensures holds { Holds (L.at link.old) self.old.page → Holds (L.at link.new) self.new.page }
        ensures past { (past : List (Event AKey)) → HasPast self.old past → HasPast self.new (past_written result past) }
    {
        self.write_noting(link, ask)
    }

    /// The same write, of which the held page is not spoken.
    fn write_noting<L: Link>(
        &mut self,
        link: &mut L,
        ask: &ClientAsk,
    ) -> Result<Commit, SessionRefusal>
        ensures by { Makes L.at L.answers link.old link.new (λ xs. IsWriteBy ask.now xs result) }
        ensures session { self.new ≡ written_by self.old result }
        ensures holds { StaysHeld (L.at link.old) (L.at link.new) }
    {
        let told = commit_by(link.direct(ask));
        self.writes = writes_with(self.writes, told);
        told
    }
}
