//! The link of the clients: through a cache to the store.
//!
//! A cache that has no hit asks the store, with its tag where it has one. A 304 freshens its entry, which
//! is then the answer; any other reply is offered to the cache, and is the answer. Writes and pages go to
//! the store. What the caches hold is what the store has issued, so a client that reads through them by
//! a page of the store reads what its history says.
ghost use Rattle.std.specs.Prelude.{◌≡◌, [], ◌⊎◌, ◌+◌, ◌<◌, ◌^◌, fold, length, is_some, if◌then◌else◌, IfErr, IfOk, IfSome, OnOk, Some, None, false, true};
ghost use Rattle.std.specs.Mem.{manually_drop_value};
ghost use Rattle.cache_model.specs.Cache.{empty_cache, held_by, looked_up, purged};
ghost use Rattle.client_session.specs.declared.ask.LinkRefusal.TheVariants.{Memory as out_of_memory};
ghost use Rattle.q_doc.specs.Printed.{printed};
ghost use Rattle.hub_model.specs.Legal.{IsLegal};
ghost use Rattle.hub_model.specs.Record.{record_of};
ghost use Rattle.world_core.specs.Link.{capacity, evicted, link_over, linked, turned, HoldsIssued, IsAnswer, IsAnswerOf, IsHeldReply, IsPageAnswer, IsPulled, IsPulledSome, IsPut, IsRead, IsReadThrough, IsSomeRead, IsUncounted, IsWrite, settled, told_by};
ghost use Rattle.world_core.specs.Store.{HasGrown, advanced, after_match, commits_in, state_in};

use crate::reply::{bare_reply, linked, page_linked};
use crate::store::Store;
use cache_model::{Answer, Cache, Manner};
use client_model::{Reply, copy_of};
use client_session::{ClientAsk, LastReplies, Link, LinkRefusal};
use flat_snapshot::Page;
use hub_desk::{Change, Condition};
use hub_model::laws::{
    longer_histories_are_later, more_entries, result_of_prefix, the_greatest_same_result_is_told,
};
use q_base::{Commit, Memory, Name};
use q_doc::{Doc, Text};
use query_normal::Key;
use std::alloc::Global;
use std::marker::Model;
use std::mem::ManuallyDrop;

/// How many replies a cache holds at most.
const CAPACITY: usize = 500;

/// The store with two caches before it. The calls of a link go through one of them.
#[derive(Drop)]
pub struct WorldLink {
    alloc: Global,
    store: Store,
    /// Cache 0, which applies purges.
    first: Cache,
    /// Cache 1, which does not.
    second: Cache,
    /// Whether the next asks go through cache 1.
    is_second: bool,
    /// The number of the last purge that cache 0 knows.
    purges: u64,
    last: LastReplies,
}

impl Model for WorldLink {
    ghost use Rattle.std.specs.Coded.{codes};
    ghost use Rattle.q_doc.specs.Code.{tree_code};
    ghost use Rattle.query_core.specs.Code.{filter_code};
    ghost use Rattle.world_core.specs.Link.{WorldLinkView, IsSound};

    ghost Value = { WorldLinkView };

    ghost coded = { Prim.hlevel (codes, tree_code, filter_code) };

    ghost view = { λ l. record {
      store = l.store;
      first = l.first;
      second = l.second;
      is_second = l.is_second;
      purges = l.purges;
      last = l.last;
    } };

    ghost invariant = { λ l. IsSound (record {
      store = l.store;
      first = l.first;
      second = l.second;
      is_second = l.is_second;
      purges = l.purges;
      last = l.last;
    }) };
}

impl WorldLink {
    /// A link over a store, with empty caches.
    pub(crate) fn new(
        alloc: Global,
        store: Store,
        first: ManuallyDrop<Cache>,
        second: ManuallyDrop<Cache>,
    ) -> WorldLink
        requires first_is_empty { (manually_drop_value first).pairs ≡ [] }
        requires second_is_empty { (manually_drop_value second).pairs ≡ [] }
        ensures { result ≡ link_over store (manually_drop_value first) (manually_drop_value second) }
    {
        let first = ManuallyDrop::into_inner(first);
        let second = ManuallyDrop::into_inner(second);
        WorldLink {
            alloc,
            store,
            first,
            second,
            is_second: false,
            purges: 0,
            last: LastReplies::none(),
        }
    }

    /// The allocator.
    fn alloc(&self) -> Global {
        self.alloc
    }

    /// From now on asks go through the cache of a client: clients 0 and 1 read through cache 0, and client 2
    /// through cache 1.
    pub(crate) fn turn_to(&mut self, client: usize)
        ensures { self.new ≡ turned client self.old }
    {
        self.is_second = client >= 2;
    }

    /// A read through the cache.
    pub(crate) fn read(&mut self, key: &Key, no_cache: bool) -> Result<Reply, Memory>
        ensures ok { IfOk result (λ reply. IsRead self.old self.new key.now no_cache reply) }
        ensures told { IfOk result (λ reply. IsHeldReply (state_in self.new.store) key.now reply) }
        ensures grown { HasGrown self.old.store self.new.store }
        ensures last { self.new.last ≡ self.old.last }
    {
        longer_histories_are_later();
        result_of_prefix();
        self.store.legal();
        if self.is_second {
            return read_through(&mut self.store, &mut self.second, key, no_cache);
        }
        read_through(&mut self.store, &mut self.first, key, no_cache)
    }

    /// What is answered to an ask: a read goes through the cache, and a write to the store.
    pub(crate) fn answer(&mut self, ask: &ClientAsk) -> Result<Reply, LinkRefusal>
        ensures answer { IsAnswer self.old self.new ask.now result }
        ensures told { IsAnswerOf self.old.store self.new.store ask.now result }
        ensures refused { IfErr result IsUncounted }
        ensures grown { HasGrown self.old.store self.new.store }
        ensures last { self.new.last ≡ self.old.last }
    {
        match ask {
            ClientAsk::Read { key, no_cache } => linked(self.read(key, *no_cache)),
            ClientAsk::Put {
                collection,
                id,
                text,
                condition,
            } => linked(self.put(collection, id, text, condition)),
            ClientAsk::Delete {
                collection,
                id,
                condition,
            } => linked(self.delete(collection, id, condition)),
            ClientAsk::Page => Err(LinkRefusal::Status { code: 405 }),
        }
    }

    /// Puts the document that a text prints. Any other text is refused.
    fn put(
        &mut self,
        collection: &Name,
        id: &Name,
        text: &Text,
        condition: &Condition,
    ) -> Result<Reply, Memory>
        ensures ok { IfOk result (λ reply. IsPut self.old self.new collection.now id.now text.now condition.now reply) }
        ensures grown { HasGrown self.old.store self.new.store }
        ensures last { self.new.last ≡ self.old.last }
    {
        let found = printed_doc(self.alloc(), text)?;
        match found {
            Some(doc) => self.put_doc(collection, id, doc, condition),
            None => bare_reply(self.alloc(), 400, 0),
        }
    }

    /// Puts a document.
    fn put_doc(
        &mut self,
        collection: &Name,
        id: &Name,
        doc: Doc,
        condition: &Condition,
    ) -> Result<Reply, Memory>
        ensures ok { IfOk result (λ reply. IsWrite self.old self.new (record { collection = collection.now; id = id.now; document = Some doc }) condition.now true reply) }
        ensures grown { HasGrown self.old.store self.new.store }
        ensures last { self.new.last ≡ self.old.last }
    {
        let change = change_of(collection, id, Some(doc))?;
        let condition = condition.clone()?;
        self.write(change, condition)
    }

    /// Deletes a record.
    fn delete(
        &mut self,
        collection: &Name,
        id: &Name,
        condition: &Condition,
    ) -> Result<Reply, Memory>
        ensures ok { IfOk result (λ reply. IsWrite self.old self.new (record { collection = collection.now; id = id.now; document = None }) condition.now false reply) }
        ensures grown { HasGrown self.old.store self.new.store }
        ensures last { self.new.last ≡ self.old.last }
    {
        let change = change_of(collection, id, None)?;
        let condition = condition.clone()?;
        self.write(change, condition)
    }

    /// Writes to the store. The caches stay.
    fn write(&mut self, change: Change, condition: Condition) -> Result<Reply, Memory>
        ensures ok { IfOk result (λ reply. IsWrite self.old self.new change condition (is_some change.document) reply) }
        ensures grown { HasGrown self.old.store self.new.store }
        ensures last { self.new.last ≡ self.old.last }
    {
        longer_histories_are_later();
        result_of_prefix();
        self.store.legal();
        self.store.write(change, condition)
    }

    /// The page of the store. The caches stay.
    pub(crate) fn fetched(&mut self) -> Result<Page, LinkRefusal>
        ensures answered { IsPageAnswer self.old self.new result }
        ensures refused { IfErr result (λ refused. refused ≡ out_of_memory) }
        ensures grown { HasGrown self.old.store self.new.store }
        ensures last { self.new.last ≡ self.old.last }
    {
        longer_histories_are_later();
        result_of_prefix();
        self.store.legal();
        page_linked(self.store.page())
    }

    /// The last replies.
    pub(crate) fn last(&self) -> LastReplies
        ensures { result ≡ self.now.last }
    {
        self.last
    }

    /// Keeps the last replies.
    pub(crate) fn keep(&mut self, last: LastReplies)
        ensures { self.new ≡ record self.old { last = last } }
    {
        self.last = last;
    }

    /// Matches all commits.
    pub(crate) fn match_all(&mut self) -> Result<(), Memory>
        ensures ok { OnOk result (self.new ≡ record self.old { store = after_match self.old.store }) }
        ensures grown { HasGrown self.old.store self.new.store }
    {
        longer_histories_are_later();
        result_of_prefix();
        self.store.legal();
        self.store.match_all()
    }

    /// The moment advances. No entry is made.
    pub(crate) fn advance(&mut self, seconds: u32)
        ensures { self.new ≡ record self.old { store = advanced self.old.store seconds } }
    {
        self.store.advance(seconds);
    }

    /// Cache 0 asks for the purges that it does not know, until it knows all, and drops those keys.
    pub(crate) fn pull(&mut self) -> Result<(), Memory>
        ensures ok { OnOk result (IsPulled self.old self.new) }
        ensures grown { HasGrown self.old.store self.new.store }
    {
        more_entries();
        loop {
            let is_more = self.pull_some()?;
            if !is_more {
                return Ok(());
            }
        }
    }

    /// Cache 0 asks once for the purges that it does not know, and drops those keys. Answers whether there
    /// are more.
    fn pull_some(&mut self) -> Result<bool, Memory>
        ensures ok { IfOk result (λ is_more. IsPulledSome is_more self.old self.new) }
        ensures grown { HasGrown self.old.store self.new.store }
    {
        longer_histories_are_later();
        result_of_prefix();
        self.store.legal();
        let reply = self.store.purges(self.purges.saturating_add(1))?;
        if self.purges >= reply.last {
            return Ok(false);
        }
        purge_all(&mut self.first, &reply.keys);
        self.purges = number_behind(self.purges, reply.keys.len());
        Ok(self.purges < reply.last)
    }

    /// A cache drops its least recently used reply, if it has one.
    pub(crate) fn evict(&mut self, is_second: bool)
        ensures { self.new ≡ evicted is_second self.old }
    {
        if is_second {
            self.second.drop_last();
            return;
        }
        self.first.drop_last();
    }

    /// The history is legal.
    pub(crate) fn legal(&self)
        ensures { IsLegal self.now.store.setting self.now.store.entries }
    {
        self.store.legal();
    }

    /// The number of commits.
    pub(crate) fn commits(&self) -> Commit
        ensures { result ≡ commits_in self.now.store }
    {
        self.store.commits()
    }

    /// The number of keys in the record, at the clock of the history.
    pub(crate) fn record_count(&self) -> u32
        ensures { result ≡ length (record_of (state_in self.now.store)) }
    {
        self.store.record_count()
    }
}

/// A cache that holds nothing yet.
pub(crate) fn new_cache(alloc: Global, manner: Manner) -> Result<ManuallyDrop<Cache>, Memory>
    ensures { IfOk result (λ cache. manually_drop_value cache ≡ empty_cache capacity manner) }
{
    let cache = Cache::new(alloc, CAPACITY, manner)?;
    Ok(ManuallyDrop::new(cache))
}

/// A change of a record.
fn change_of(collection: &Name, id: &Name, document: Option<Doc>) -> Result<Change, Memory>
    ensures { IfOk result (λ change. change ≡ record { collection = collection.now; id = id.now; document = document }) }
{
    Ok(Change {
        collection: collection.clone()?,
        id: id.clone()?,
        document,
    })
}

/// A cache drops these keys.
fn purge_all(cache: &mut Cache, keys: &[Key])
    ensures { cache.new ≡ fold purged cache.old keys.now }
{
    for key in keys {
        cache.purge(key);
    }
}

/// The number of a purge so many behind another.
fn number_behind(known: u64, count: usize) -> u64
    requires { known + count < 2 ^ 64 }
    ensures { result ≡ known + count }
{
    known + count as u64
}

/// The document that a text prints, if it prints one.
fn printed_doc(alloc: Global, text: &Text) -> Result<Option<Doc>, Memory>
    ensures { IfOk result (λ found. IfSome found (λ doc. printed doc ≡ text.now)) }
{
    let Ok(doc) = Doc::read(alloc, text.as_slice()) else {
        return Ok(None);
    };
    let Ok(printed) = doc.print(alloc) else {
        return Err(Memory);
    };
    if printed == *text {
        Ok(Some(doc))
    } else {
        Ok(None)
    }
}

/// A read through a cache, which asks the store where it has no hit, with its tag where it has one.
fn read_through(
    store: &mut Store,
    cache: &mut Cache,
    key: &Key,
    no_cache: bool,
) -> Result<Reply, Memory>
    ensures ok { IfOk result (λ reply. IsReadThrough (looked_up cache.old store.old.moment key.now no_cache) store.old store.new cache.old cache.new key.now reply) }
    ensures told { HoldsIssued (state_in store.old) cache.old → IfOk result (λ reply. IsHeldReply (state_in store.new) key.now reply) }
    ensures holds { HoldsIssued (state_in store.old) cache.old → HoldsIssued (state_in store.new) cache.new }
    ensures grown { HasGrown store.old store.new }
{
    longer_histories_are_later();
    result_of_prefix();
    the_greatest_same_result_is_told();
    more_entries();
    store.legal();
    looked_through(store, cache, key, no_cache)
}

/// The same read, of which nothing is said of what was issued.
fn looked_through(
    store: &mut Store,
    cache: &mut Cache,
    key: &Key,
    no_cache: bool,
) -> Result<Reply, Memory>
    ensures ok { IfOk result (λ reply. IsReadThrough (looked_up cache.old store.old.moment key.now no_cache) store.old store.new cache.old cache.new key.now reply) }
    ensures some { IsSomeRead (looked_up cache.old store.old.moment key.now no_cache) store.old store.new cache.old cache.new key.now }
    ensures grown { HasGrown store.old store.new }
{
    match cache.touch(store.moment(), key, no_cache) {
        Answer::Hit => held(cache, key),
        Answer::Validate { tag } => {
            let reply = store.read(key, Some(tag))?;
            settle(cache, key, reply)
        }
        Answer::Miss => {
            let reply = store.read(key, None)?;
            settle(cache, key, reply)
        }
    }
}

/// A reply of the store in a cache, and what the cache answers then.
fn settle(cache: &mut Cache, key: &Key, reply: Reply) -> Result<Reply, Memory>
    ensures ok { IfOk result (λ told. (cache.new ≡ settled cache.old key.now reply) × (told_by cache.new key.now reply ≡ Some told)) }
    ensures cache { (cache.new ≡ cache.old) ⊎ (cache.new ≡ settled cache.old key.now reply) }
{
    if reply.status == 304 {
        cache.freshen(key, &reply);
        return held(cache, key);
    }
    cache.offer(key, &reply)?;
    Ok(reply)
}

/// A copy of the held reply.
fn held(cache: &Cache, key: &Key) -> Result<Reply, Memory>
    ensures { IfOk result (λ reply. held_by cache.now key.now ≡ Some reply) }
{
    match cache.reply(key) {
        Some(reply) => copy_of(reply),
        None => Err(Memory),
    }
}

impl Link for WorldLink {
    ghost use Rattle.world_core.specs.Link.{Answers, seen_as};

    ghost at = { seen_as };

    ghost answers = { Answers };

    fn through(&mut self, ask: &ClientAsk) -> Result<Reply, LinkRefusal> {
        more_entries();
        let last = self.last();
        let told = self.answer(ask);
        let kept = last.after_through(&told);
        self.keep(kept);
        told
    }

    fn direct(&mut self, ask: &ClientAsk) -> Result<Reply, LinkRefusal> {
        more_entries();
        let last = self.last();
        let told = self.answer(ask);
        let kept = last.after_direct(ask, &told);
        self.keep(kept);
        told
    }

    fn page(&mut self) -> Result<Page, LinkRefusal> {
        more_entries();
        let last = self.last();
        let told = self.fetched();
        let kept = last.after_page(&told);
        self.keep(kept);
        told
    }
}
