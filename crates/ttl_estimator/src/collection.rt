//! The writes of the records of one collection.
ghost use Rattle.std.specs.Prelude.{◌≡◌, [], ◌∷◌, ◌++◌, List, ℕ, None, Some, if◌then◌else◌, bytes_eq, is_some, IsTrue, OnOk, OnErr, option_copied};
ghost use Rattle.std.specs.Map.{lookup};
ghost use Rattle.ttl_estimator.specs.Rates.{last_eight};
ghost use Rattle.ttl_estimator.specs.Records.{Extends, KeepOtherIds, clocks_under};

use crate::clocks::Clocks;
use crate::places::index_of;
use indexmap::IndexMap;
use q_base::{Memory, Name};
use std::alloc::Global;
use std::marker::Model;

/// The clocks of the writes of each record, by its id.
#[derive(Drop)]
pub struct Collection {
    records: IndexMap<Name, Clocks>,
    /// Where `reserve` or `note` found or put a record last. It only says where to look first.
    last: usize,
}

impl Model for Collection {
    ghost use Rattle.ttl_estimator.specs.Records.{Ids};

    ghost Value = { Ids };

    ghost view = { λ c. c.records.entries };
}

impl Collection {
    /// No record.
    pub fn new(alloc: Global) -> Collection
        ensures { result ≡ [] }
    {
        Collection {
            records: IndexMap::new(alloc),
            last: 0,
        }
    }

    /// The writes of a record.
    pub fn get(&self, id: &Name) -> Option<&Clocks>
        ensures { option_copied result ≡ lookup (bytes_eq id.now) self.now }
    {
        match index_of(&self.records, self.last, id) {
            None => None,
            Some(index) => Some(&self.records[index]),
        }
    }

    /// Makes an entry for a record, without a write, if it has none.
    pub fn reserve(&mut self, id: &Name) -> Result<(), Memory>
        ensures known { OnOk result (IsTrue (is_some (lookup (bytes_eq id.now) self.new))) }
        ensures extends { Extends self.old self.new }
        ensures others { KeepOtherIds id.now self.old self.new }
        ensures err { OnErr result (self.new ≡ self.old) }
    {
        match index_of(&self.records, self.last, id) {
            Some(index) => {
                self.last = index;
                Ok(())
            }
            None => {
                self.last = self.records.len();
                add_record(&mut self.records, id)
            }
        }
    }

    /// Notes a write of a record that has an entry.
    pub fn note(&mut self, id: &Name, clock: u64)
        requires { IsTrue (is_some (lookup (bytes_eq id.now) self.old)) }
        ensures written { (other : List ℕ) → lookup (bytes_eq other) self.new ≡ (if bytes_eq id.now other then Some (last_eight (clocks_under self.old id.now ++ clock ∷ [])) else lookup (bytes_eq other) self.old) }
    {
        match index_of(&self.records, self.last, id) {
            Some(index) => {
                self.last = index;
                self.records[index].note(clock);
            }
            None => unreachable!(),
        }
    }
}

/// Makes an entry for one record, without a write.
#[inline(never)]
fn add_record(records: &mut IndexMap<Name, Clocks>, id: &Name) -> Result<(), Memory>
    requires { lookup (bytes_eq id.now) records.old.entries ≡ None }
    ensures known { OnOk result (IsTrue (is_some (lookup (bytes_eq id.now) records.new.entries))) }
    ensures extends { Extends records.old.entries records.new.entries }
    ensures others { KeepOtherIds id.now records.old.entries records.new.entries }
    ensures err { OnErr result (records.new.entries ≡ records.old.entries) }
{
    let id = id.clone()?;
    match records.insert(id, Clocks::none()) {
        Ok(_) => Ok(()),
        Err(_) => Err(Memory),
    }
}
