//! Dropping rows from the index of a book.
ghost use Rattle.std.specs.Prelude.{◌≡◌, ◌≤◌, ◌<◌, ◌^◌, drop, length};
ghost use Rattle.commit_book.specs.Index.{base_in, base_under, commits_in, commits_under, freed_by, is_bare, DropsIn, DropsUnder};
ghost use Rattle.commit_book.specs.Journal.{put_at};

use crate::base::{Base, base_cost};
use crate::index::{Collections, Record, Records, index_of};
use crate::row::{Dropped, Row};
use q_base::{Commit, Name};
use std::collections::VecDeque;
use std::mem;

/// Drops the row of a commit, which is the first of its record above the horizon. Its document becomes
/// the base of the record, whose collection has likely this index. It returns what is not kept any more,
/// in bytes.
pub fn drop_row(collections: &mut Collections, likely: usize, commit: Commit, row: Row) -> u64
    requires commits { 0 < length (commits_in collections.old row.collection row.id) }
    requires fits { freed_by row (base_in collections.old row.collection row.id) < 2 ^ 64 }
    ensures freed { result ≡ freed_by row (base_in collections.old row.collection row.id) }
    ensures drops { DropsIn row.collection row.id (put_at commit row.document) collections.old collections.new }
{
    let own = if row.has_document() { 0 } else { row.cost() };
    let Dropped {
        collection,
        id,
        base,
    } = row.into_dropped(commit);
    let was = drop_in(collections, likely, &collection, &id, base);
    own + base_cost(&collection, &id, &was)
}

/// Takes away the first commit of a record and its base, and gives it this base. A record without both
/// leaves the index, and a collection without a record does. The base that the record had is returned.
fn drop_in(
    collections: &mut Collections,
    likely: usize,
    collection: &Name,
    id: &Name,
    base: Option<Base>,
) -> Option<Base>
    requires { 0 < length (commits_in collections.old collection.now id.now) }
    ensures was { result ≡ base_in collections.old collection.now id.now }
    ensures drops { DropsIn collection.now id.now base collections.old collections.new }
{
    match index_of(collections, likely, collection) {
        Some(index) => {
            let (_, records) = collections.pair_mut(index);
            let was = drop_under(records, id, base);
            if records.is_empty() {
                collections.swap_remove(collection);
            }
            was
        }
        None => unreachable!(),
    }
}

/// The same of an id among the records of its collection.
fn drop_under(records: &mut Records, id: &Name, base: Option<Base>) -> Option<Base>
    requires { 0 < length (commits_under records.old id.now) }
    ensures was { result ≡ base_under records.old id.now }
    ensures drops { DropsUnder id.now base records.old records.new }
{
    match records.get_mut(id) {
        Some(record) => {
            let was = drop_first(record, base);
            if is_bare(record) {
                records.swap_remove(id);
            }
            was
        }
        None => unreachable!(),
    }
}

/// Takes away the first commit of a record and its base, and gives it this base. Commits that are all
/// gone keep no memory.
fn drop_first(record: &mut Record, base: Option<Base>) -> Option<Base>
    ensures was { result ≡ record.old.base }
    ensures base { record.new.base ≡ base }
    ensures commits { record.new.commits.items ≡ drop 1 record.old.commits.items }
{
    let _ = record.commits.pop_front();
    if record.commits.is_empty() {
        record.commits = VecDeque::new(*record.commits.allocator());
    }
    mem::replace(&mut record.base, base)
}

/// Whether nothing is kept of a record.
fn is_bare(record: &Record) -> bool
    ensures { result ≡ is_bare record.now.base record.now.commits.items }
{
    record.base.is_none() && record.commits.is_empty()
}
