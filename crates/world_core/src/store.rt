//! The store of a run: a hub in this process, at a moment.
ghost use Rattle.std.specs.Prelude.{◌≡◌, ◌<◌, ◌≤◌, ◌+◌, ◌^◌, [], ◌∷◌, IfOk, OnOk, Some, is_some, length};
ghost use Rattle.q_base.specs.Moment.{greatest_moment};
ghost use Rattle.query_normal.specs.Pages.{Page as APage};
ghost use Rattle.flat_snapshot.specs.PageText.{IsPage, page_text};
ghost use Rattle.hub_core.specs.PageRoom.{IsRoomFor};
ghost use Rattle.hub_desk.specs.Desk.{most_entries};
ghost use Rattle.hub_model.specs.Legal.{IsLegal};
ghost use Rattle.hub_model.specs.Record.{record_of};
ghost use Rattle.hub_model.specs.Reply.{told_of};
ghost use Rattle.hub_model.specs.Step.{state_of};
ghost use Rattle.world_core.specs.Replies.{read_reply, write_reply};
ghost use Rattle.world_core.specs.Store.{HasGrown, advanced, after_match, after_page, after_purges, after_write, answer_to, answer_with, commits_in, entry_with, page_now, purges_now, state_in, store_of, tags_of, with_entries, with_read, written_to};

use crate::reply::{read_reply, write_reply};
use client_model::Reply;
use flat_snapshot::{Page, pages_have_one_encoding};
use hub_desk::{
    Answer, Change, Condition, Config, Desk, Owned, PageRoom, PurgeReply, Tags, Written,
};
use hub_model::Commits;
use hub_model::laws::{front_is_within, more_entries, one_entry_more};
use q_base::{Commit, Memory, Moment};
use query_normal::Key;
use std::alloc::Global;
use std::marker::Model;

/// A hub with its history, the buffer for its pages, and the moment at which it is asked.
#[derive(Drop)]
pub struct Store {
    alloc: Global,
    desk: Owned,
    room: PageRoom,
    moment: Moment,
}

impl Model for Store {
    ghost use Rattle.std.specs.Coded.{codes};
    ghost use Rattle.q_doc.specs.Code.{tree_code};
    ghost use Rattle.query_core.specs.Code.{filter_code};
    ghost use Rattle.world_core.specs.Store.{IsSoundStore, StoreView};

    ghost Value = { StoreView };

    ghost coded = { Prim.hlevel (codes, tree_code, filter_code) };

    ghost view = { λ s. record {
      setting = s.desk.setting;
      entries = s.desk.entries;
      moment = s.moment;
    } };

    ghost invariant = { λ s. IsSoundStore s.desk.setting s.room };
}

impl Store {
    /// A store of no entry.
    pub fn new(alloc: Global, config: Config, moment: Moment) -> Result<Store, Memory>
        ensures setting { IfOk result (λ store. store.setting ≡ config) }
        ensures empty { IfOk result (λ store. store.entries ≡ []) }
        ensures moment { IfOk result (λ store. store.moment ≡ moment) }
    {
        // The configuration is within its limits.
        let _bits = config.log2_bits();
        let room = PageRoom::new(alloc, &config)?;
        let desk = Owned::new(alloc, config)?;
        Ok(Store {
            alloc,
            desk,
            room,
            moment,
        })
    }

    /// The moment of the next entry.
    pub fn moment(&self) -> Moment
        ensures { result ≡ self.now.moment }
    {
        self.moment
    }

    /// Reads a key, of which the result of a tag may be known.
    pub fn read(&mut self, key: &Key, tag: Option<Commit>) -> Result<Reply, Memory>
        ensures told { IfOk result (λ reply. reply ≡ read_reply (answer_to self.old key.now tag)) }
        ensures ok { OnOk result (self.new ≡ with_read self.old key.now tag) }
        ensures grown { HasGrown self.old self.new }
    {
        let answer = read_from(self.alloc, &mut self.desk, self.moment, key, tag)?;
        read_reply(self.alloc, answer)
    }

    /// Puts a document, or deletes.
    pub fn write(&mut self, change: Change, condition: Condition) -> Result<Reply, Memory>
        ensures told { IfOk result (λ reply. reply ≡ write_reply (is_some change.document) (written_to self.old change condition)) }
        ensures ok { OnOk result (self.new ≡ after_write self.old change condition) }
        ensures grown { HasGrown self.old self.new }
    {
        let is_put = change.document.is_some();
        let written = write_to(&mut self.desk, self.moment, change, condition)?;
        write_reply(self.alloc, is_put, written)
    }

    /// Fetches a page.
    pub fn page(&mut self) -> Result<Page, Memory>
        ensures told { IfOk result (λ page. page ≡ page_now self.old) }
        ensures ok { OnOk result (self.new ≡ after_page self.old) }
        ensures grown { HasGrown self.old self.new }
    {
        // The laws by which the page is within its limits.
        front_is_within();
        known(&self.desk);
        fetch_from(&mut self.desk, self.moment, &mut self.room)?;
        page_in(self.alloc, &self.room)
    }

    /// Matches all commits.
    pub fn match_all(&mut self) -> Result<(), Memory>
        ensures ok { OnOk result (self.new ≡ after_match self.old) }
        ensures grown { HasGrown self.old self.new }
    {
        match_from(&mut self.desk, self.moment)
    }

    /// The purges from a number on.
    pub fn purges(&mut self, from: u64) -> Result<PurgeReply, Memory>
        ensures told { IfOk result (λ reply. told_of reply ≡ purges_now self.old from) }
        ensures ok { OnOk result (self.new ≡ after_purges self.old from) }
        ensures grown { HasGrown self.old self.new }
    {
        purge_from(&mut self.desk, self.moment, from)
    }

    /// The moment advances. No entry is made.
    pub fn advance(&mut self, seconds: u32)
        ensures { self.new ≡ advanced self.old seconds }
    {
        self.moment = Moment::of(self.moment.seconds() + seconds as u64);
    }

    /// The number of commits.
    pub fn commits(&self) -> Commit
        ensures { result ≡ commits_in self.now }
    {
        known(&self.desk)
    }

    /// The number of keys in the record, at the clock of the history.
    pub fn record_count(&self) -> u32
        ensures { result ≡ length (record_of (state_in self.now)) }
    {
        recorded(&self.desk)
    }

    /// The history is legal.
    pub fn legal(&self)
        ensures { IsLegal self.now.setting self.now.entries }
    {
        known(&self.desk);
    }
}

/// The number of commits of a desk, whose history is legal.
fn known(desk: &Owned) -> Commit
    ensures commits { result ≡ length (state_of desk.now.setting desk.now.entries).journal }
    ensures few { result < 2 ^ 64 }
    ensures legal { IsLegal desk.now.setting desk.now.entries }
{
    desk.hub().commits()
}

/// The number of keys in the record of a desk.
fn recorded(desk: &Owned) -> u32
    ensures { result ≡ length (record_of (state_of desk.now.setting desk.now.entries)) }
{
    desk.hub().record_count()
}

/// Reserves memory for the next entries. The history stays.
fn prepare(desk: &mut Owned) -> Result<(), Memory>
    ensures ready { OnOk result (length desk.new.entries + most_entries ≤ desk.new.capacity) }
    ensures entries { desk.new.entries ≡ desk.old.entries }
    ensures setting { desk.new.setting ≡ desk.old.setting }
{
    desk.ready()
}

/// Reads a key at the last commit, of which the result of a tag may be known.
fn read_from(
    alloc: Global,
    desk: &mut Owned,
    moment: Moment,
    key: &Key,
    tag: Option<Commit>,
) -> Result<Answer, Memory>
    ensures told { IfOk result (λ answer. answer ≡ answer_to (store_of desk.old moment) key.now tag) }
    ensures ok { OnOk result (store_of desk.new moment ≡ with_read (store_of desk.old moment) key.now tag) }
    ensures grown { HasGrown (store_of desk.old moment) (store_of desk.new moment) }
{
    let tags = tags_of(alloc, tag)?;
    let key = key.clone()?;
    read_at(desk, moment, key, tags)
}

/// Reads a key at the last commit.
fn read_at(desk: &mut Owned, moment: Moment, key: Key, tags: Tags) -> Result<Answer, Memory>
    ensures told { IfOk result (λ answer. answer ≡ answer_with (store_of desk.old moment) key tags) }
    ensures ok { OnOk result (store_of desk.new moment ≡ with_entries (store_of desk.old moment) (entry_with (store_of desk.old moment) key tags ∷ [])) }
    ensures grown { HasGrown (store_of desk.old moment) (store_of desk.new moment) }
{
    // The law by which a read is not above the last commit.
    one_entry_more();
    prepare(desk)?;
    desk.read(moment, key, tags)
}

/// Writes to a desk.
fn write_to(
    desk: &mut Owned,
    moment: Moment,
    change: Change,
    condition: Condition,
) -> Result<Written, Memory>
    ensures told { IfOk result (λ written. written ≡ written_to (store_of desk.old moment) change condition) }
    ensures ok { OnOk result (store_of desk.new moment ≡ after_write (store_of desk.old moment) change condition) }
    ensures grown { HasGrown (store_of desk.old moment) (store_of desk.new moment) }
{
    more_entries();
    prepare(desk)?;
    desk.write(moment, change, condition)
}

/// Fetches a page into a buffer.
fn fetch_from(desk: &mut Owned, moment: Moment, room: &mut PageRoom) -> Result<(), Memory>
    requires { IsRoomFor desk.old.setting room.old }
    ensures page { OnOk result (room.new.page ≡ Some (page_now (store_of desk.old moment))) }
    ensures ok { OnOk result (store_of desk.new moment ≡ after_page (store_of desk.old moment)) }
    ensures grown { HasGrown (store_of desk.old moment) (store_of desk.new moment) }
    ensures room { IsRoomFor desk.old.setting room.new }
{
    prepare(desk)?;
    desk.fetch(moment, room);
    Ok(())
}

/// The page in a buffer.
fn page_in(alloc: Global, room: &PageRoom) -> Result<Page, Memory>
    ensures { (p : APage) → room.now.page ≡ Some p → (p.moment ≤ greatest_moment → IsPage p) → IfOk result (λ page. page ≡ p) }
{
    let _seconds = room.moment().seconds();
    page_of_text(alloc, room.bytes())
}

/// The page of a text.
fn page_of_text(alloc: Global, text: &[u8]) -> Result<Page, Memory>
    ensures { (p : APage) → text.now ≡ page_text p → IsPage p → IfOk result (λ page. page ≡ p) }
{
    pages_have_one_encoding();
    match Page::read(alloc, text) {
        Ok(page) => Ok(page),
        Err(_) => Err(Memory),
    }
}

/// Matches all commits of a desk.
fn match_from(desk: &mut Owned, moment: Moment) -> Result<(), Memory>
    ensures ok { OnOk result (store_of desk.new moment ≡ after_match (store_of desk.old moment)) }
    ensures grown { HasGrown (store_of desk.old moment) (store_of desk.new moment) }
{
    prepare(desk)?;
    desk.match_all(moment)?;
    Ok(())
}

/// The purges of a desk from a number on.
fn purge_from(desk: &mut Owned, moment: Moment, from: u64) -> Result<PurgeReply, Memory>
    ensures told { IfOk result (λ reply. told_of reply ≡ purges_now (store_of desk.old moment) from) }
    ensures ok { OnOk result (store_of desk.new moment ≡ after_purges (store_of desk.old moment) from) }
    ensures grown { HasGrown (store_of desk.old moment) (store_of desk.new moment) }
{
    prepare(desk)?;
    desk.purges(moment, from)
}

/// What is known: the result of a tag, or nothing.
fn tags_of(alloc: Global, tag: Option<Commit>) -> Result<Tags, Memory>
    ensures { IfOk result (λ tags. tags ≡ tags_of tag) }
{
    let mut commits = Commits::new(alloc);
    let Some(tag) = tag else {
        return Ok(Tags::Listed(commits));
    };
    commits.push(tag)?;
    Ok(Tags::Listed(commits))
}
