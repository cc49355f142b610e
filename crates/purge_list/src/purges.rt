//! The list of purges.
ghost use Rattle.std.specs.Prelude.{◌≡◌, ◌-◌, ◌<◌, ◌≤◌, [], ◌∷◌, ◌++◌, IfOk, OnOk, length, map, take, drop};
ghost use Rattle.query_normal.specs.Keys.{key_text};
ghost use Rattle.purge_list.specs.Purged.{texts_from};

use q_base::Memory;
use query_normal::Key;
use std::alloc::Global;
use std::marker::Model;

/// The purged keys in the order of their purges. The first has number 1.
#[derive(Drop)]
pub struct Purges {
    keys: Vec<Key>,
}

impl Model for Purges {
    ghost use Rattle.std.specs.Prelude.{◌-◌, map, vec_len, vec_capacity};
    ghost use Rattle.query_normal.specs.Keys.{key_text};
    ghost use Rattle.purge_list.specs.Purged.{Purged};

    ghost Value = { Purged };

    ghost view = { λ p. record { texts = map key_text p.keys.items; spare = vec_capacity p.keys - vec_len p.keys } };
}

impl Purges {
    /// No key is purged yet. It takes no memory.
    pub fn new(alloc: Global) -> Purges
        ensures { result.texts ≡ [] }
    {
        Purges {
            keys: Vec::new(alloc),
        }
    }

    /// Makes room for a number of keys, so that as many calls of `push` take no memory.
    pub fn reserve(&mut self, count: usize) -> Result<(), Memory>
        ensures room { OnOk result (count ≤ self.new.spare) }
        ensures kept { self.old.spare ≤ self.new.spare }
        ensures texts { self.new.texts ≡ self.old.texts }
    {
        self.keys.reserve(count)?;
        Ok(())
    }

    /// Adds a key with the next number. There must be room for it.
    pub fn push(&mut self, key: Key)
        requires { 0 < self.old.spare }
        ensures { self.new ≡ record { texts = self.old.texts ++ key_text key ∷ []; spare = self.old.spare - 1 } }
    {
        self.keys.push_reserved(key);
    }

    /// The number of the last key, which is the number of all purges.
    pub fn last(&self) -> u64
        ensures { result ≡ length self.now.texts }
    {
        self.keys.len() as u64
    }

    /// The first keys from a number on, at most `room` of them. Number 0 counts as 1. It takes memory
    /// for the answer alone, and time for it alone.
    pub fn after(&self, alloc: Global, from: u64, room: u32) -> Result<Vec<Key>, Memory>
        ensures texts { IfOk result (λ keys. map key_text keys.items ≡ texts_from from room self.now.texts) }
        ensures few { IfOk result (λ keys. length keys.items ≤ room) }
    {
        keys_from(alloc, &self.keys, from, room)
    }
}

/// Copies of the first keys from a number on.
fn keys_from(alloc: Global, keys: &[Key], from: u64, room: u32) -> Result<Vec<Key>, Memory>
    ensures { IfOk result (λ found. found.items ≡ take room (drop (from - 1) keys.now)) }
{
    let length = keys.len();
    let skipped = from.saturating_sub(1).min(length as u64) as usize;
    let rest = &keys[skipped..];
    let count = (room as usize).min(rest.len());
    copies(alloc, &rest[..count])
}

/// Copies of keys, which share what the keys keep.
fn copies(alloc: Global, keys: &[Key]) -> Result<Vec<Key>, Memory>
    ensures { IfOk result (λ copies. copies.items ≡ keys.now) }
{
    let mut copies = Vec::with_capacity(alloc, keys.len())?;
    for key in keys {
        copies.push(key.clone()?)?;
    }
    Ok(copies)
}
