//! The cache.
ghost use Rattle.std.specs.Prelude.{◌≡◌, ◌<◌, ◌∷◌, IfOk, OnOk, OnErr, option_copied};
ghost use Rattle.std.specs.Map.{lookup};
ghost use Rattle.query_normal.specs.Keys.{same_key};
ghost use Rattle.cache_model.specs.Cache.{empty_cache, held_by, is_held, answer_of, looked_up, lookup_of, touched, is_storable, offered, is_freshened, freshened, same_tag, purged, has_last, without_last, beside, brought_first, told_again};

use crate::lookup::{Answer, Lookup};
use crate::manner::Manner;
use client_model::{Reply, copy_of};
use lru::LruCache;
use q_base::{Memory, Moment};
use query_normal::Key;
use std::alloc::Global;
use std::marker::Model;
use std::num::NonZeroUsize;

/// The replies that a cache holds, at most one for each key, the most recently used first.
#[derive(Drop)]
pub struct Cache {
    entries: LruCache<Key, Reply>,
    manner: Manner,
}

impl Model for Cache {
    ghost use Rattle.std.specs.Coded.{codes};
    ghost use Rattle.q_doc.specs.Code.{tree_code};
    ghost use Rattle.query_core.specs.Code.{filter_code};
    ghost use Rattle.cache_model.specs.Cache.{Held};

    ghost Value = { Held };

    ghost coded = { Prim.hlevel (codes, tree_code, filter_code) };

    ghost view = { λ c. record {
      pairs = c.entries.entries;
      capacity = c.entries.cap;
      manner = c.manner;
    } };
}

impl Cache {
    /// An empty cache of at most this many replies. It takes space as replies come.
    pub fn new(alloc: Global, capacity: usize, manner: Manner) -> Result<Cache, Memory>
        requires { 0 < capacity }
        ensures { IfOk result (λ cache. cache ≡ empty_cache capacity manner) }
    {
        match NonZeroUsize::new(capacity) {
            Some(capacity) => Ok(Cache {
                entries: LruCache::sparse(alloc, capacity)?,
                manner,
            }),
            None => unreachable!(),
        }
    }

    /// What the cache does with a request for a key at a moment. A held key becomes the most recently used.
    pub fn touch(&mut self, moment: Moment, key: &Key, no_cache: bool) -> Answer
        ensures answer { result ≡ answer_of (looked_up self.old moment key.now no_cache) }
        ensures order { self.new ≡ touched self.old key.now }
        ensures held { held_by self.new key.now ≡ held_by self.old key.now }
    {
        let answer = self.answer(moment, key, no_cache);
        bring_first(&mut self.entries, key);
        answer
    }

    /// What the cache does with a request for a key at a moment. The order stays.
    fn answer(&self, moment: Moment, key: &Key, no_cache: bool) -> Answer
        ensures { result ≡ answer_of (looked_up self.now moment key.now no_cache) }
    {
        match self.entries.peek(key) {
            Some(reply) => self.manner.answer(moment, reply, no_cache),
            None => Answer::Miss,
        }
    }

    /// The reply that is held for a key. The order stays.
    pub fn reply(&self, key: &Key) -> Option<&Reply>
        ensures { option_copied result ≡ held_by self.now key.now }
    {
        self.entries.peek(key)
    }

    /// What the cache does with a request for a key at a moment, with the reply of a hit. A held key
    /// becomes the most recently used, as after `touch`.
    pub fn lookup(&mut self, moment: Moment, key: &Key, no_cache: bool) -> Lookup<'_>
        ensures { lookup_of result ≡ looked_up self.old moment key.now no_cache }
    {
        let answer = self.touch(moment, key, no_cache);
        found(answer, self.reply(key))
    }

    /// Stores a reply, if it may be stored, and answers whether it did. It becomes the most recently
    /// used, in place of the key's old reply; where the cache was full and the key new, the least
    /// recently used one goes.
    pub fn offer(&mut self, key: &Key, reply: &Reply) -> Result<bool, Memory>
        ensures stored { IfOk result (λ stored. stored ≡ is_storable reply.now) }
        ensures ok { OnOk result (self.new ≡ offered self.old key.now reply.now) }
        ensures err { OnErr result (self.new ≡ self.old) }
    {
        if !is_storable(reply) {
            return Ok(false);
        }
        let key = key.clone()?;
        let reply = copy_of(reply)?;
        store(&mut self.entries, key, reply)?;
        Ok(true)
    }

    /// Updates the held reply by a 304 of the same entity tag, and answers whether it did (RFC 9111,
    /// section 4.3.4).
    pub fn freshen(&mut self, key: &Key, reply: &Reply) -> bool
        ensures told { result ≡ is_freshened self.old key.now reply.now }
        ensures cache { self.new ≡ freshened self.old key.now reply.now }
    {
        if !self.may_update(key, reply) {
            return false;
        }
        let Some(held) = self.entries.peek_mut(key) else {
            return false;
        };
        held.commit = reply.commit;
        held.until = reply.until;
        held.date = reply.date;
        held.max_age = reply.max_age;
        true
    }

    /// Whether a 304 updates what the cache holds for a key.
    fn may_update(&self, key: &Key, reply: &Reply) -> bool
        ensures { result ≡ is_freshened self.now key.now reply.now }
    {
        match self.entries.peek(key) {
            Some(held) => is_tagged_alike(held, reply),
            None => false,
        }
    }

    /// Drops the reply of a key, and answers whether there was one.
    pub fn purge(&mut self, key: &Key) -> bool
        ensures held { result ≡ is_held self.old key.now }
        ensures cache { self.new ≡ purged self.old key.now }
    {
        self.entries.pop(key).is_some()
    }

    /// Drops the least recently used reply, and answers whether there was one.
    pub fn drop_last(&mut self) -> bool
        ensures held { result ≡ has_last self.old }
        ensures cache { self.new ≡ without_last self.old }
    {
        let held = !self.entries.is_empty();
        self.entries.pop_lru();
        held
    }
}

/// Makes a key the most recently used, where it is held.
fn bring_first(entries: &mut LruCache<Key, Reply>, key: &Key)
    ensures pairs { entries.new.entries ≡ brought_first key.now (lookup (same_key key.now) entries.old.entries) entries.old.entries }
    ensures capacity { entries.new.cap ≡ entries.old.cap }
    ensures held { lookup (same_key key.now) entries.new.entries ≡ lookup (same_key key.now) entries.old.entries }
{
    entries.promote(key);
}

/// Stores a reply as the most recently used.
fn store(entries: &mut LruCache<Key, Reply>, key: Key, reply: Reply) -> Result<(), Memory>
    ensures pairs { OnOk result (entries.new.entries ≡ (key, reply) ∷ beside key entries.old.cap (lookup (same_key key) entries.old.entries) entries.old.entries) }
    ensures capacity { OnOk result (entries.new.cap ≡ entries.old.cap) }
    ensures err { OnErr result (entries.new ≡ entries.old) }
{
    entries.put(key, reply)?;
    Ok(())
}

/// An answer with the reply that is held.
fn found<'a>(answer: Answer, reply: Option<&'a Reply>) -> Lookup<'a>
    ensures { lookup_of result ≡ told_again answer (option_copied reply.entry) }
{
    match (answer, reply) {
        (Answer::Hit, Some(reply)) => Lookup::Hit { reply },
        (Answer::Hit, None) => Lookup::Miss,
        (Answer::Validate { tag }, _) => Lookup::Validate { tag },
        (Answer::Miss, _) => Lookup::Miss,
    }
}

/// Whether a reply may be stored: it has the status 200 or 404, and a lifetime.
fn is_storable(reply: &Reply) -> bool
    ensures { result ≡ is_storable reply.now }
{
    (reply.status == 200 || reply.status == 404) && reply.max_age.is_some()
}

/// Whether two replies have the same tag.
fn is_tagged_alike(held: &Reply, reply: &Reply) -> bool
    ensures { result ≡ same_tag held.now.tag reply.now.tag }
{
    match (held.tag, reply.tag) {
        (Some(tag), Some(other)) => tag == other,
        _ => false,
    }
}
