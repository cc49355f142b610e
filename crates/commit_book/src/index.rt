//! The index of a book: what is kept of each record, by the names of its collection and of its document.
ghost use Rattle.std.specs.Prelude.{◌≡◌, ℕ, ◌<◌, ◌++◌, ◌∷◌, [], List, ◌≢◌, IfOk, None, Some, false, option_map};
ghost use Rattle.std.specs.Str.{bytes_eq};
ghost use Rattle.std.specs.Map.{keys_of};
ghost use Rattle.indexmap.specs.IndexMap.{get_by, spare};
ghost use Rattle.commit_book.specs.declared.index.Slot.TheVariants.{Known, InCollection};
ghost use Rattle.commit_book.specs.Index.{base_under, commits_under, record_in, collection_of, index_under, space_under, names_of, AddsCommit, IsNew, IsSlotUnder, IsSlotIn, KeepsSpace, KeepsSpaceUnder};
ghost use Rattle.commit_book.specs.Names.{collection_index, has_collection};

use crate::base::Base;
use indexmap::IndexMap;
use q_base::{Commit, Memory, Name};
use std::alloc::Global;
use std::collections::VecDeque;

/// What is kept of a record: it has a base or a commit.
#[derive(Drop)]
pub struct Record {
    /// The document that it has at the horizon.
    pub base: Option<Base>,
    /// Its commits above the horizon, ascending.
    pub commits: VecDeque<Commit>,
}

/// The records of a collection, by their ids.
pub type Records = IndexMap<Name, Record>;

/// The records of each collection. Each collection has one.
pub type Collections = IndexMap<Name, Records>;

/// A record that is not in the index, with memory reserved for its first commit.
#[derive(Drop)]
pub struct NewRecord {
    pub id: Name,
    pub commits: VecDeque<Commit>,
}

/// A collection that is not in the index, and its first record, with memory reserved for both.
#[derive(Drop)]
pub struct NewCollection {
    pub name: Name,
    pub records: Records,
    pub first: NewRecord,
}

/// Where the next commit of a record goes. Memory for it is reserved. A slot is small, since each
/// write moves it, and has indexes, so that no name is hashed again.
#[derive(Drop)]
pub enum Slot {
    /// The record is in the index: the index of its collection, and its own in that collection.
    Known { collection: usize, record: usize },
    /// Its collection is, at this index, and has spare capacity for the record.
    InCollection { collection: usize, new: NewRecord },
    /// The index has spare capacity for the collection, and the collection for the record.
    InNewCollection(Box<NewCollection>),
}

impl Slot {
    /// The index of its collection, where that is in the index.
    pub fn collection(&self) -> Option<usize>
        ensures { result ≡ collection_of self.now }
    {
        match self {
            Slot::Known { collection, .. } => Some(*collection),
            Slot::InCollection { collection, .. } => Some(*collection),
            Slot::InNewCollection(_) => None,
        }
    }
}

/// The index of a collection. The name at the likely index is compared first, and where it is the
/// right one no name is hashed; the answer is the same whatever is likely.
pub fn index_of(collections: &Collections, likely: usize, name: &Name) -> Option<usize>
    ensures { result ≡ collection_index (names_of collections.now) name.now }
{
    if let Some((there, _)) = collections.as_slice().get_index(likely) {
        if name == there {
            return Some(likely);
        }
    }
    collections.get_index_of(name)
}

/// What is kept of a record, whose collection has likely this index.
pub fn record_in<'a>(
    collections: &'a Collections,
    likely: usize,
    collection: &Name,
    id: &Name,
) -> Option<&'a Record>
    ensures { option_map (λ r. r.now) result ≡ record_in collections.now collection.now id.now }
{
    match index_of(collections, likely, collection) {
        Some(index) => collections[index].get(id),
        None => None,
    }
}

/// What is kept of the record of a slot. It hashes no name.
pub fn record_of<'a>(collections: &'a Collections, slot: &Slot) -> Option<&'a Record>
    ensures { (collection id : List ℕ) → IsSlotIn collections.now collection id slot.now → option_map (λ r. r.now) result ≡ record_in collections.now collection id }
{
    match slot {
        Slot::Known { collection, record } => known_record(collections, *collection, *record),
        Slot::InCollection { .. } => None,
        Slot::InNewCollection(_) => None,
    }
}

/// What is kept of the record with this index in the collection with this index.
fn known_record<'a>(
    collections: &'a Collections,
    collection: usize,
    index: usize,
) -> Option<&'a Record>
    ensures { (name id : List ℕ) → IsSlotIn collections.now name id (Known collection index) → option_map (λ r. r.now) result ≡ record_in collections.now name id }
{
    let (_, records) = collections.get_index(collection)?;
    let (_, record) = records.get_index(index)?;
    Some(record)
}

/// Adds a commit of a record in its slot. It takes no memory, and hashes no name of a record that is
/// in the index.
pub fn push_in(collections: &mut Collections, slot: Slot, commit: Commit)
    requires { (collection : List ℕ) × (id : List ℕ) × IsSlotIn collections.old collection id slot }
    ensures { (collection id : List ℕ) → IsSlotIn collections.old collection id slot → AddsCommit collection id commit collections.old collections.new }
{
    match slot {
        Slot::Known { collection, record } => push_known(collections, collection, record, commit),
        Slot::InCollection { collection, new } => put_record(collections, collection, new, commit),
        Slot::InNewCollection(new) => put_collection(collections, Box::into_inner(new), commit),
    }
}

/// Adds a commit of the record with this index in the collection with this index.
fn push_known(collections: &mut Collections, collection: usize, index: usize, commit: Commit)
    requires { (name : List ℕ) × (id : List ℕ) × IsSlotIn collections.old name id (Known collection index) }
    ensures { (name id : List ℕ) → IsSlotIn collections.old name id (Known collection index) → AddsCommit name id commit collections.old collections.new }
{
    let (_, records) = collections.pair_mut(collection);
    push_under(records, index, commit);
}

/// Adds a commit of the id with this index among those of its collection.
fn push_under(records: &mut Records, index: usize, commit: Commit)
    requires { (id : List ℕ) × (index_under records.old id ≡ Some index) × (0 < space_under records.old id) }
    ensures own { (id : List ℕ) → index_under records.old id ≡ Some index → commits_under records.new id ≡ commits_under records.old id ++ commit ∷ [] }
    ensures others { (id other : List ℕ) → index_under records.old id ≡ Some index → other ≢ id → commits_under records.new other ≡ commits_under records.old other }
    ensures bases { (id : List ℕ) → index_under records.old id ≡ Some index → (other : List ℕ) → base_under records.new other ≡ base_under records.old other }
    ensures ids { keys_of records.new.entries ≡ keys_of records.old.entries }
{
    let (_, record) = records.pair_mut(index);
    record.commits.push_back_reserved(commit);
}

/// Puts a record with its first commit into the collection with this index.
fn put_record(collections: &mut Collections, collection: usize, new: NewRecord, commit: Commit)
    requires { (name : List ℕ) × IsSlotIn collections.old name new.id (InCollection collection new) }
    ensures { (name : List ℕ) → IsSlotIn collections.old name new.id (InCollection collection new) → AddsCommit name new.id commit collections.old collections.new }
{
    let (_, records) = collections.pair_mut(collection);
    put_under(records, new, commit);
}

/// Puts a record with its first commit under its id.
fn put_under(records: &mut Records, new: NewRecord, commit: Commit)
    requires new { IsNew new.id new }
    requires spare { 0 < spare records.old }
    requires absent { get_by (bytes_eq new.id) records.old ≡ None }
    ensures own { commits_under records.new new.id ≡ commit ∷ [] }
    ensures others { (other : List ℕ) → other ≢ new.id → commits_under records.new other ≡ commits_under records.old other }
    ensures bases { (other : List ℕ) → base_under records.new other ≡ base_under records.old other }
    ensures ids { keys_of records.new.entries ≡ keys_of records.old.entries ++ new.id ∷ [] }
{
    let NewRecord { id, mut commits } = new;
    commits.push_back_reserved(commit);
    let record = Record {
        base: None,
        commits,
    };
    match records.insert(id, record) {
        Ok(_) => {}
        Err(_) => unreachable!(),
    }
}

/// Puts a collection in, with one record and its first commit.
fn put_collection(collections: &mut Collections, new: NewCollection, commit: Commit)
    requires new { IsNew new.first.id new.first }
    requires empty { new.records.entries ≡ [] }
    requires among { 0 < spare new.records }
    requires spare { 0 < spare collections.old }
    requires absent { has_collection (names_of collections.old) new.name ≡ false }
    ensures { AddsCommit new.name new.first.id commit collections.old collections.new }
{
    let NewCollection {
        name,
        mut records,
        first,
    } = new;
    put_under(&mut records, first, commit);
    match collections.insert(name, records) {
        Ok(_) => {}
        Err(_) => unreachable!(),
    }
}

/// The slot of the next commit of a record, whose collection has likely this index, with memory
/// reserved. It adds no name to the index.
pub fn slot_in(
    collections: &mut Collections,
    likely: usize,
    collection: &Name,
    id: &Name,
) -> Result<Slot, Memory>
    ensures ok { IfOk result (λ slot. IsSlotIn collections.new collection.now id.now slot) }
    ensures keeps { KeepsSpace collections.old collections.new }
{
    match index_of(collections, likely, collection) {
        Some(index) => {
            let (_, records) = collections.pair_mut(index);
            slot_under(records, index, id)
        }
        None => new_slot(collections, collection, id),
    }
}

/// The slot of the next commit of an id in the collection with this index, with memory reserved.
fn slot_under(records: &mut Records, collection: usize, id: &Name) -> Result<Slot, Memory>
    ensures ok { IfOk result (λ slot. IsSlotUnder records.new collection id.now slot) }
    ensures keeps { KeepsSpaceUnder records.old records.new }
{
    match records.get_index_of(id) {
        Some(record) => {
            let (_, known) = records.pair_mut(record);
            known.commits.reserve(1)?;
            Ok(Slot::Known { collection, record })
        }
        None => {
            records.reserve(1)?;
            let new = new_record(*records.allocator(), id)?;
            Ok(Slot::InCollection { collection, new })
        }
    }
}

/// The slot of a record whose collection is not in the index, with memory reserved for both.
fn new_slot(collections: &mut Collections, collection: &Name, id: &Name) -> Result<Slot, Memory>
    requires { get_by (bytes_eq collection.now) collections.old ≡ None }
    ensures ok { IfOk result (λ slot. IsSlotIn collections.new collection.now id.now slot) }
    ensures keeps { KeepsSpace collections.old collections.new }
{
    collections.reserve(1)?;
    let alloc = *collections.allocator();
    let new = new_collection(alloc, collection, id)?;
    Ok(Slot::InNewCollection(Box::new(alloc, new)?))
}

/// A collection without a record, with memory reserved for one.
fn new_collection(alloc: Global, name: &Name, id: &Name) -> Result<NewCollection, Memory>
    ensures name { IfOk result (λ new. new.name ≡ name.now) }
    ensures empty { IfOk result (λ new. new.records.entries ≡ []) }
    ensures spare { IfOk result (λ new. 0 < spare new.records) }
    ensures first { IfOk result (λ new. IsNew id.now new.first) }
{
    let mut records = IndexMap::new(alloc);
    records.reserve(1)?;
    Ok(NewCollection {
        name: name.clone()?,
        records,
        first: new_record(alloc, id)?,
    })
}

/// A record without a commit, with memory reserved for one.
fn new_record(alloc: Global, id: &Name) -> Result<NewRecord, Memory>
    ensures { IfOk result (λ new. IsNew id.now new) }
{
    Ok(NewRecord {
        id: id.clone()?,
        commits: VecDeque::with_capacity(alloc, 1)?,
    })
}
