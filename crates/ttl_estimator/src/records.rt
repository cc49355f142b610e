//! The writes of all records.
ghost use Rattle.std.specs.Prelude.{◌≡◌, [], ◌∷◌, ◌++◌, List, ℕ, None, Some, ◌&&◌, if◌then◌else◌, bytes_eq, is_some, IsTrue, OnOk, OnErr};
ghost use Rattle.std.specs.Map.{lookup};
ghost use Rattle.ttl_estimator.specs.Rates.{last_eight, rate_at};
ghost use Rattle.ttl_estimator.specs.Records.{ExtendsAll, KeepOthers, entry_of, clocks_of};

use crate::collection::Collection;
use crate::places::index_of;
use indexmap::IndexMap;
use q_base::{Memory, Name};
use std::alloc::Global;
use std::marker::Model;

/// The clocks of the writes of each record, by its collection and its id.
#[derive(Drop)]
pub struct Records {
    alloc: Global,
    collections: IndexMap<Name, Collection>,
    /// Where `reserve` or `note` found or put a collection last. It only says where to look first.
    last: usize,
}

impl Model for Records {
    ghost use Rattle.ttl_estimator.specs.Records.{Names};

    ghost Value = { Names };

    ghost view = { λ r. r.collections.entries };
}

impl Records {
    /// No record.
    pub fn new(alloc: Global) -> Records
        ensures { result ≡ [] }
    {
        Records {
            alloc,
            collections: IndexMap::new(alloc),
            last: 0,
        }
    }

    /// Makes an entry for a record, without a write, if it has none.
    pub fn reserve(&mut self, collection: &Name, id: &Name) -> Result<(), Memory>
        ensures known { OnOk result (IsTrue (is_some (entry_of self.new collection.now id.now))) }
        ensures extends { ExtendsAll self.old self.new }
        ensures others { KeepOthers collection.now id.now self.old self.new }
        ensures err { OnErr result (self.new ≡ self.old) }
    {
        match index_of(&self.collections, self.last, collection) {
            Some(index) => {
                self.last = index;
                self.collections[index].reserve(id)
            }
            None => {
                self.last = self.collections.len();
                add_collection(self.alloc, &mut self.collections, collection, id)
            }
        }
    }

    /// Notes a write of a record that has an entry.
    pub fn note(&mut self, collection: &Name, id: &Name, clock: u64)
        requires { IsTrue (is_some (entry_of self.old collection.now id.now)) }
        ensures written { (c i : List ℕ) → entry_of self.new c i ≡ (if bytes_eq collection.now c && bytes_eq id.now i then Some (last_eight (clocks_of self.old collection.now id.now ++ clock ∷ [])) else entry_of self.old c i) }
    {
        match index_of(&self.collections, self.last, collection) {
            Some(index) => {
                self.last = index;
                self.collections[index].note(id, clock);
            }
            None => unreachable!(),
        }
    }

    /// The writes of a record in a million seconds.
    pub fn rate(&self, collection: &Name, id: &Name, now: u64) -> u64
        ensures { result ≡ rate_at now (clocks_of self.now collection.now id.now) }
    {
        match index_of(&self.collections, self.last, collection) {
            None => 0,
            Some(index) => match self.collections[index].get(id) {
                None => 0,
                Some(clocks) => clocks.rate(now),
            },
        }
    }
}

/// Makes a collection with an entry for one record.
#[cold]
#[inline(never)]
fn add_collection(
    alloc: Global,
    collections: &mut IndexMap<Name, Collection>,
    collection: &Name,
    id: &Name,
) -> Result<(), Memory>
    requires { lookup (bytes_eq collection.now) collections.old.entries ≡ None }
    ensures known { OnOk result (IsTrue (is_some (entry_of collections.new.entries collection.now id.now))) }
    ensures extends { ExtendsAll collections.old.entries collections.new.entries }
    ensures others { KeepOthers collection.now id.now collections.old.entries collections.new.entries }
    ensures err { OnErr result (collections.new.entries ≡ collections.old.entries) }
{
    let mut records = Collection::new(alloc);
    records.reserve(id)?;
    let name = collection.clone()?;
    match collections.insert(name, records) {
        Ok(_) => Ok(()),
        Err(_) => Err(Memory),
    }
}
