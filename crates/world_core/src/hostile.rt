//! A link that is used against its clients: its caches need not keep the rules, and it repeats itself.
//!
//! Before each ask a move says whether the link gives an earlier reply again, as a cache would that keeps
//! replies too long, or in another order than it got them. All that it gives for a key was issued for that
//! key, and no more is promised of it: so whatever its moves, a session reads what the history says.
//!
//! 1. Only replies to reads are noted, each that was given, also one that was given again. Only reads are
//!    answered by them.
//! 2. A call of `through` or `direct` uses up a move, whatever is asked. A page uses up none.
//! 3. A reply that is given again leaves the caches and the store as they were.
ghost use Rattle.std.specs.Prelude.{◌≡◌, drop, option_copied, IfErr, IfOk, IfSome, OnOk};
ghost use Rattle.client_session.specs.declared.ask.LinkRefusal.TheVariants.{Memory as out_of_memory};
ghost use Rattle.world_core.specs.Hostile.{back_by, earlier, given_with, hostile_start, with_last, IsHostileCall, IsReadOf};
ghost use Rattle.world_core.specs.Link.{IsAnswer, IsAnswerOf, IsHeldReply, IsPageAnswer, IsRead, IsUncounted, turned};
ghost use Rattle.world_core.specs.Store.{HasGrown, advanced, after_match, commits_in, state_in};

use crate::link::{WorldLink, new_cache};
use crate::reply::linked;
use crate::store::Store;
use cache_model::Manner;
use client_model::{Reply, copy_of};
use client_session::{ClientAsk, LastReplies, Link, LinkRefusal};
use flat_snapshot::Page;
use hub_desk::Config;
use hub_model::laws::{longer_histories_are_later, more_entries, result_of_prefix};
use q_base::{Commit, Memory, Moment};
use query_normal::Key;
use std::alloc::Global;
use std::collections::VecDeque;
use std::marker::Model;

/// What a hostile link does at a call of `through` or `direct`.
#[derive(Clone, Copy, Debug, PartialEq, Eq)]
pub enum Move {
    /// It answers a read by a reply that it gave for the key before. Where there is none, it asks.
    Again {
        /// Which one, counting from the latest as 1.
        back: usize,
    },
    /// It asks its caches and its store.
    Ask,
}

/// A store with two caches of one manner before it, which asks them or gives an earlier reply again, as its
/// moves say. Behind the last move it asks.
#[derive(Drop)]
pub struct HostileLink {
    link: WorldLink,
    /// The replies to reads, the latest first.
    given: VecDeque<(Key, Reply)>,
    /// The moves that are left.
    moves: VecDeque<Move>,
}

impl Model for HostileLink {
    ghost use Rattle.std.specs.Coded.{codes};
    ghost use Rattle.q_doc.specs.Code.{tree_code};
    ghost use Rattle.query_core.specs.Code.{filter_code};
    ghost use Rattle.world_core.specs.Hostile.{HostileView, GivesIssued};

    ghost Value = { HostileView };

    ghost coded = { Prim.hlevel (codes, tree_code, filter_code) };

    ghost view = { λ l. record {
      link = l.link;
      given = l.given.items;
      moves = l.moves.items;
    } };

    ghost invariant = { λ l. GivesIssued (record {
      link = l.link;
      given = l.given.items;
      moves = l.moves.items;
    }) };
}

impl HostileLink {
    /// A link over a new store, at moment 0, whose caches are empty and have this manner.
    pub fn new(
        alloc: Global,
        config: Config,
        manner: Manner,
        moves: Vec<Move>,
    ) -> Result<HostileLink, Memory>
        ensures { IfOk result (λ link. link ≡ hostile_start config manner moves.items) }
    {
        let first = new_cache(alloc, manner)?;
        let second = new_cache(alloc, manner)?;
        let store = Store::new(alloc, config, Moment::of(0))?;
        let link = WorldLink::new(alloc, store, first, second);
        Ok(HostileLink {
            link,
            given: VecDeque::new(alloc),
            moves: VecDeque::from_vec(moves),
        })
    }

    /// From now on asks go through the cache of a client: clients 0 and 1 read through cache 0, and client 2
    /// through cache 1.
    pub fn turn_to(&mut self, client: usize)
        ensures { self.new ≡ record self.old { link = turned client self.old.link } }
    {
        self.link.turn_to(client);
    }

    /// Matches all commits.
    pub fn match_all(&mut self) -> Result<(), Memory>
        ensures ok { OnOk result (self.new ≡ record self.old { link = record self.old.link { store = after_match self.old.link.store } }) }
        ensures grown { HasGrown self.old.link.store self.new.link.store }
    {
        longer_histories_are_later();
        result_of_prefix();
        self.link.legal();
        self.link.match_all()
    }

    /// Seconds pass, up to the greatest moment. No entry is made.
    pub fn advance(&mut self, seconds: u32)
        ensures { self.new ≡ record self.old { link = record self.old.link { store = advanced self.old.link.store seconds } } }
    {
        self.link.advance(seconds);
    }

    /// The number of commits.
    pub fn commits(&self) -> Commit
        ensures { result ≡ commits_in self.now.link.store }
    {
        self.link.commits()
    }

    /// How many replies back the next call goes, and 0 where it asks. A move is used up.
    fn next_back(&mut self) -> usize
        ensures back { result ≡ back_by self.old.moves }
        ensures rest { self.new ≡ record self.old { moves = drop 1 self.old.moves } }
    {
        match self.moves.pop_front() {
            Some(Move::Again { back }) => back,
            Some(Move::Ask) => 0,
            None => 0,
        }
    }

    /// The reply so many back for a key, if there is one.
    fn again(&self, back: usize, key: &Key) -> Result<Option<Reply>, Memory>
        ensures found { IfOk result (λ found. found ≡ earlier back key.now self.now.given) }
        ensures told { IfOk result (λ found. IfSome found (λ reply. IsHeldReply (state_in self.now.link.store) key.now reply)) }
    {
        copied(earlier(&self.given, back, key))
    }

    /// A read through the cache.
    fn ask(&mut self, key: &Key, no_cache: bool) -> Result<Reply, Memory>
        ensures ok { IfOk result (λ reply. IsRead self.old.link self.new.link key.now no_cache reply) }
        ensures told { IfOk result (λ reply. IsHeldReply (state_in self.new.link.store) key.now reply) }
        ensures grown { HasGrown self.old.link.store self.new.link.store }
        ensures last { self.new.link.last ≡ self.old.link.last }
        ensures rest { self.new ≡ record self.old { link = self.new.link } }
    {
        longer_histories_are_later();
        result_of_prefix();
        self.link.legal();
        self.link.read(key, no_cache)
    }

    /// A read: the reply so many back, or a read through the cache.
    fn told(&mut self, back: usize, key: &Key, no_cache: bool) -> Result<Reply, Memory>
        ensures ok { IsReadOf (earlier back key.now self.old.given) self.old.link self.new.link key.now no_cache result }
        ensures told { IfOk result (λ reply. IsHeldReply (state_in self.new.link.store) key.now reply) }
        ensures grown { HasGrown self.old.link.store self.new.link.store }
        ensures last { self.new.link.last ≡ self.old.link.last }
        ensures rest { self.new ≡ record self.old { link = self.new.link } }
    {
        let found = self.again(back, key)?;
        match found {
            Some(reply) => Ok(reply),
            None => self.ask(key, no_cache),
        }
    }

    /// Notes a reply to a read, and gives it.
    fn note(&mut self, key: &Key, reply: Reply) -> Result<Reply, Memory>
        requires { IsHeldReply (state_in self.old.link.store) key.now reply }
        ensures same { IfOk result (λ told. told ≡ reply) }
        ensures given { self.new ≡ record self.old { given = given_with self.old.given key.now result } }
    {
        let noted = key.clone()?;
        let copy = copy_of(&reply)?;
        self.given.push_front((noted, copy))?;
        Ok(reply)
    }

    /// The same read, which is noted.
    fn read(&mut self, back: usize, key: &Key, no_cache: bool) -> Result<Reply, Memory>
        ensures ok { IsReadOf (earlier back key.now self.old.given) self.old.link self.new.link key.now no_cache result }
        ensures told { IfOk result (λ reply. IsHeldReply (state_in self.new.link.store) key.now reply) }
        ensures grown { HasGrown self.old.link.store self.new.link.store }
        ensures last { self.new.link.last ≡ self.old.link.last }
        ensures rest { self.new ≡ record self.old { link = self.new.link; given = given_with self.old.given key.now result } }
    {
        let reply = self.told(back, key, no_cache)?;
        self.note(key, reply)
    }

    /// What its caches and its store answer to an ask.
    fn pass(&mut self, ask: &ClientAsk) -> Result<Reply, LinkRefusal>
        ensures answer { IsAnswer self.old.link self.new.link ask.now result }
        ensures told { IsAnswerOf self.old.link.store self.new.link.store ask.now result }
        ensures refused { IfErr result IsUncounted }
        ensures grown { HasGrown self.old.link.store self.new.link.store }
        ensures last { self.new.link.last ≡ self.old.link.last }
        ensures rest { self.new ≡ record self.old { link = self.new.link } }
    {
        longer_histories_are_later();
        result_of_prefix();
        self.link.legal();
        self.link.answer(ask)
    }

    /// What is answered to an ask: to a read as the next move says.
    fn answer(&mut self, ask: &ClientAsk) -> Result<Reply, LinkRefusal>
        ensures call { IsHostileCall self.old self.new ask.now result }
        ensures told { IsAnswerOf self.old.link.store self.new.link.store ask.now result }
        ensures refused { IfErr result IsUncounted }
        ensures grown { HasGrown self.old.link.store self.new.link.store }
        ensures last { self.new.link.last ≡ self.old.link.last }
    {
        let back = self.next_back();
        match ask {
            ClientAsk::Read { key, no_cache } => linked(self.read(back, key, *no_cache)),
            ClientAsk::Put { .. } => self.pass(ask),
            ClientAsk::Delete { .. } => self.pass(ask),
            ClientAsk::Page => self.pass(ask),
        }
    }

    /// The page of the store. The caches, the moves and what was given stay.
    fn fetched(&mut self) -> Result<Page, LinkRefusal>
        ensures answered { IsPageAnswer self.old.link self.new.link result }
        ensures refused { IfErr result (λ refused. refused ≡ out_of_memory) }
        ensures grown { HasGrown self.old.link.store self.new.link.store }
        ensures last { self.new.link.last ≡ self.old.link.last }
        ensures rest { self.new ≡ record self.old { link = self.new.link } }
    {
        longer_histories_are_later();
        result_of_prefix();
        self.link.legal();
        self.link.fetched()
    }

    /// The last replies.
    fn last(&self) -> LastReplies
        ensures { result ≡ self.now.link.last }
    {
        self.link.last()
    }

    /// Keeps the last replies.
    fn keep(&mut self, last: LastReplies)
        ensures { self.new ≡ with_last last self.old }
    {
        self.link.keep(last);
    }
}

/// The reply so many back for a key, counting from the latest as 1, if there is one.
fn earlier<'a>(given: &'a VecDeque<(Key, Reply)>, back: usize, key: &Key) -> Option<&'a Reply>
    ensures { option_copied result ≡ earlier back key.now given.now.items }
{
    if back == 0 {
        return None;
    }
    let mut left = back;
    for index in 0..given.len() {
        let pair = &given[index];
        if *key == pair.0 {
            if left == 1 {
                return Some(&pair.1);
            }
            left -= 1;
        }
    }
    None
}

/// The same reply, where there is one.
fn copied(found: Option<&Reply>) -> Result<Option<Reply>, Memory>
    ensures { IfOk result (λ copy. copy ≡ option_copied found.entry) }
{
    match found {
        Some(reply) => Ok(Some(copy_of(reply)?)),
        None => Ok(None),
    }
}

impl Link for HostileLink {
    ghost use Rattle.world_core.specs.Hostile.{HostileAnswers, hostile_as};

    ghost at = { hostile_as };

    ghost answers = { HostileAnswers };

    fn through(&mut self, ask: &ClientAsk) -> Result<Reply, LinkRefusal> {
        more_entries();
        let last = self.last();
        let told = self.answer(ask);
        let kept = last.after_through(&told);
        self.keep(kept);
        told
    }

    fn direct(&mut self, ask: &ClientAsk) -> Result<Reply, LinkRefusal> {
        more_entries();
        let last = self.last();
        let told = self.answer(ask);
        let kept = last.after_direct(ask, &told);
        self.keep(kept);
        told
    }

    fn page(&mut self) -> Result<Page, LinkRefusal> {
        more_entries();
        let last = self.last();
        let told = self.fetched();
        let kept = last.after_page(&told);
        self.keep(kept);
        told
    }
}
