//! The book: its rows, and what finds them.
ghost use Rattle.std.specs.Prelude.{◌≡◌, ◌⊎◌, ◌+◌, ◌≤◌, ◌^◌, Some, None, Err, IsOk, IsErr, IsSome, IfOk, OnOk, OnErr, length, slice_get, option_map, is_some, ◌<◌, ℕ};
ghost use Rattle.commit_book.specs.declared.change.Change.{Change as AChange};
ghost use Rattle.commit_book.specs.declared.refusal.BookRefusal.TheVariants.{Memory as NoMemory};
ghost use Rattle.commit_book.specs.Contents.{empty_book, judged, added, refusal_of, is_reserved, with_commit, with_horizon};
ghost use Rattle.commit_book.specs.CommitRows.{commit_row, commit_rows};
ghost use Rattle.commit_book.specs.Documents.{docs, HasDocuments};
ghost use Rattle.commit_book.specs.Journal.{document_at, text_at, alteration, kept, kept_rows};
ghost use Rattle.commit_book.specs.Names.{AreNamesOf};

use crate::change::{Change, CommitRow, copy_of, is_same};
use crate::documents::documents_under;
use crate::dropping::drop_row;
use crate::found::{Found, copy_of_found, document_cost, found_in};
use crate::index::{Collections, push_in, record_in, record_of, slot_in};
use crate::past::Past;
use crate::refusal::BookRefusal;
use crate::row::{Reserved, Row, cost_of, text_of};
use indexmap::IndexMap;
use q_base::{Commit, Memory, Name, SharedText};
use q_doc::Doc;
use std::alloc::Global;
use std::collections::VecDeque;
use std::marker::Model;

/// Every change in turn, the first being commit 1, within a capacity in bytes. Contracts see the
/// changes, the capacity, and the change for which memory is reserved.
#[derive(Drop)]
pub struct Book {
    alloc: Global,
    capacity: u64,
    /// The sum of the costs of the kept rows.
    bytes: u64,
    /// The same of the newest documents alone.
    live: u64,
    /// The number of rows that were dropped.
    horizon: Commit,
    /// The rows above the horizon.
    rows: VecDeque<Row>,
    /// What is kept of each record.
    collections: Collections,
    /// The index of the collection of the change that was reserved last. Most calls concern the same
    /// collection, so its name is compared before a name is hashed.
    last: usize,
    reserved: Option<Reserved>,
    /// The changes of all rows, those that were dropped too.
    past: Past,
}

impl Model for Book {
    ghost use Rattle.std.specs.Coded.{codes};
    ghost use Rattle.q_doc.specs.Code.{tree_code};
    ghost use Rattle.commit_book.specs.Contents.{Contents};
    ghost use Rattle.std.specs.Prelude.{option_map};
    ghost use Rattle.commit_book.specs.Index.{IsSound, names_of};

    ghost Value = { Contents };

    ghost coded = { Prim.hlevel (codes, tree_code) };

    ghost view = { λ b. record {
      capacity = b.capacity;
      journal = b.past;
      horizon = b.horizon;
      reserved = option_map (λ r. r.row) b.reserved;
      names = names_of b.collections;
    } };

    ghost invariant = { λ b. IsSound b.capacity b.bytes b.live b.horizon b.rows b.past b.collections b.reserved };
}

impl Book {
    /// A book without a commit. It takes no memory.
    pub fn new(alloc: Global, capacity: u64) -> Result<Book, Memory>
        requires { capacity ≤ 2 ^ 62 }
        ensures made { IsOk result }
        ensures empty { IfOk result (λ book. book ≡ empty_book capacity) }
    {
        Ok(Book {
            alloc,
            capacity,
            bytes: 0,
            live: 0,
            horizon: 0,
            rows: VecDeque::new(alloc),
            collections: IndexMap::new(alloc),
            last: 0,
            reserved: None,
            past: Past::new(),
        })
    }

    /// Reserves memory for a change, so that adding it takes none. It replaces the change
    /// that was reserved before.
    pub fn reserve(&mut self, change: &Change) -> Result<(), BookRefusal>
        ensures told { (result ≡ Err NoMemory) ⊎ (result ≡ judged self.old change.now) }
        ensures full { IsErr (judged self.old change.now) → result ≡ judged self.old change.now }
        ensures after { OnOk result (self.new ≡ record self.old { reserved = Some change.now }) }
        ensures err { OnErr result (self.new ≡ self.old) }
    {
        let text = match text_of(self.alloc, change) {
            Ok(text) => text,
            Err(Memory) => return Err(self.refusal_of(change)),
        };
        let bytes = self.bytes + cost_of(change, &text);
        if bytes > self.capacity {
            return Err(BookRefusal::Full { bytes });
        }
        let row = Row::of(self.alloc, change, text)?;
        self.rows.reserve(1)?;
        let slot = slot_in(
            &mut self.collections,
            self.last,
            &change.collection,
            &change.id,
        )?;
        // A new collection will be behind the others.
        self.last = match slot.collection() {
            Some(index) => index,
            None => self.collections.len(),
        };
        self.reserved = Some(Reserved { row, slot });
        Ok(())
    }

    /// Why a change is refused for whose text there is no memory: that it is above the capacity, if it is.
    #[cold]
    fn refusal_of(&self, change: &Change) -> BookRefusal
        ensures { result ≡ refusal_of self.now change.now }
    {
        let bytes = self.bytes + change.cost();
        if bytes > self.capacity {
            BookRefusal::Full { bytes }
        } else {
            BookRefusal::Memory
        }
    }

    /// Adds the change that was reserved, as the next commit. It takes no memory.
    pub fn add_reserved(&mut self) -> Commit
        requires reserved { IsSome self.old.reserved }
        requires count { length self.old.journal + 1 < 2 ^ 64 }
        ensures commit { result ≡ length self.old.journal + 1 }
        ensures after { (change : AChange) → self.old.reserved ≡ Some change → self.new ≡ with_commit self.old change self.new.names }
        ensures names { AreNamesOf (kept_rows self.new.journal self.new.horizon) self.new.names }
        ensures fits { kept self.new.journal self.new.horizon ≤ self.new.capacity }
    {
        match self.reserved.take() {
            Some(Reserved { row, slot }) => {
                let last = self.horizon + self.rows.len() as u64;
                let known = record_of(&self.collections, &slot);
                let replaced = document_cost(&row, known, &self.rows, self.horizon, last);
                self.live = self.live + row.put_cost() - replaced;
                self.bytes += row.cost();
                let commit = last + 1;
                push_in(&mut self.collections, slot, commit);
                self.past.note(row.change());
                self.rows.push_back_reserved(row);
                commit
            }
            None => unreachable!(),
        }
    }

    /// Gives back what was reserved for a change.
    pub fn forget_reserved(&mut self)
        ensures { self.new ≡ record self.old { reserved = None } }
    {
        self.reserved = None;
    }

    /// Adds a change as the next commit. It takes no memory where the change was reserved.
    pub fn add(&mut self, change: &Change) -> Result<Commit, BookRefusal>
        requires { length self.old.journal + 1 < 2 ^ 64 }
        ensures told { (result ≡ Err NoMemory) ⊎ (result ≡ added self.old change.now) }
        ensures full { IsErr (added self.old change.now) → result ≡ added self.old change.now }
        ensures after { OnOk result (self.new ≡ with_commit self.old change.now self.new.names) }
        ensures names { OnOk result (AreNamesOf (kept_rows self.new.journal self.new.horizon) self.new.names) }
        ensures reserved { self.old.reserved ≡ Some change.now → IsOk result }
        ensures err { OnErr result (self.new ≡ self.old) }
    {
        if !self.is_reserved(change) {
            self.reserve(change)?;
        }
        Ok(self.add_reserved())
    }

    /// Whether memory is reserved for this change.
    fn is_reserved(&self, change: &Change) -> bool
        ensures told { result ≡ is_reserved self.now change.now }
        ensures within { self.now.horizon ≤ length self.now.journal }
    {
        match &self.reserved {
            Some(reserved) => is_same(reserved.row.change(), change),
            None => false,
        }
    }

    /// The number of commits. The index has the names of the kept rows, and no others.
    pub fn count(&self) -> Commit
        ensures count { result ≡ length self.now.journal }
        ensures above { self.now.horizon ≤ result }
        ensures names { AreNamesOf (kept_rows self.now.journal self.now.horizon) self.now.names }
        ensures fits { kept self.now.journal self.now.horizon ≤ self.now.capacity }
    {
        self.horizon + self.rows.len() as u64
    }

    /// The commit up to which rows were dropped: what the store had been before it is not known any more.
    pub fn horizon(&self) -> Commit
        ensures horizon { result ≡ self.now.horizon }
        ensures within { result ≤ length self.now.journal }
    {
        self.horizon
    }

    /// What the kept rows take of the capacity, in bytes.
    pub fn bytes(&self) -> u64
        ensures { result ≡ kept self.now.journal self.now.horizon }
    {
        self.bytes
    }

    /// What the newest documents take of the capacity, in bytes: what would be kept were the horizon at the
    /// last commit.
    pub fn live(&self) -> u64
        ensures { result ≡ kept self.now.journal (length self.now.journal) }
    {
        self.live
    }

    /// Drops the rows up to a commit, but for those whose documents are there at that commit. It takes no
    /// memory, and the time of the rows that it passes. What was reserved for a change is given back.
    pub fn drop_to(&mut self, to: Commit)
        requires forward { self.old.horizon ≤ to }
        requires within { to ≤ length self.old.journal }
        ensures after { self.new ≡ with_horizon self.old to self.new.names }
        ensures names { AreNamesOf (kept_rows self.new.journal to) self.new.names }
        ensures fits { kept self.new.journal to ≤ self.new.capacity }
    {
        self.forget_reserved();
        while self.horizon < to {
            self.drop_next();
        }
    }

    /// Drops the first row above the horizon.
    fn drop_next(&mut self)
        requires forgotten { self.old.reserved ≡ None }
        requires within { self.old.horizon < length self.old.journal }
        ensures { self.new ≡ with_horizon self.old (self.old.horizon + 1) self.new.names }
    {
        match self.rows.pop_front() {
            Some(row) => {
                let commit = self.horizon + 1;
                self.bytes -= drop_row(&mut self.collections, self.last, commit, row);
                self.horizon = commit;
            }
            None => unreachable!(),
        }
    }

    /// The document of a record after a commit, and the commit that put it. It takes no memory.
    pub fn document_at<'a>(
        &'a self,
        commit: Commit,
        collection: &Name,
        id: &Name,
    ) -> Option<(Commit, &'a Doc)>
        requires kept { self.now.horizon ≤ commit }
        requires within { commit ≤ length self.now.journal }
        ensures { option_map (λ d. (d.0, d.1.now)) result ≡ document_at self.now.journal commit collection.now id.now }
    {
        let found = self.found_at(commit, collection, id)?;
        Some((found.commit, found.document))
    }

    /// The printed text of the document of a record after a commit, and the commit that put it. It takes
    /// no memory.
    pub fn text_at<'a>(
        &'a self,
        commit: Commit,
        collection: &Name,
        id: &Name,
    ) -> Option<(Commit, &'a SharedText)>
        requires kept { self.now.horizon ≤ commit }
        requires within { commit ≤ length self.now.journal }
        ensures { option_map (λ t. (t.0, t.1.now)) result ≡ text_at self.now.journal commit collection.now id.now }
    {
        let found = self.found_at(commit, collection, id)?;
        Some((found.commit, found.text))
    }

    /// The document of a record after a commit, with its text.
    fn found_at<'a>(&'a self, commit: Commit, collection: &Name, id: &Name) -> Option<Found<'a>>
        requires kept { self.now.horizon ≤ commit }
        requires within { commit ≤ length self.now.journal }
        ensures documents { option_map (λ f. (f.commit, f.document.now)) result ≡ document_at self.now.journal commit collection.now id.now }
        ensures texts { option_map (λ f. (f.commit, f.text.now)) result ≡ text_at self.now.journal commit collection.now id.now }
    {
        match record_in(&self.collections, self.last, collection, id) {
            Some(record) => found_in(&self.rows, self.horizon, record, commit),
            None => None,
        }
    }

    /// The change of a commit, where it altered its record: where it put a document, or took one away.
    /// It takes no memory.
    pub fn altered(&self, commit: Commit) -> Option<&Change>
        requires { self.now.horizon < commit }
        ensures { option_map (λ c. c.now) result ≡ alteration self.now.journal commit }
    {
        let earlier = commit - 1;
        let change = self.rows.get((earlier - self.horizon) as usize)?.change();
        if change.document.is_some() || self.has_document(earlier, change) {
            Some(change)
        } else {
            None
        }
    }

    /// Whether the record of a change has a document after a commit.
    fn has_document(&self, commit: Commit, change: &Change) -> bool
        requires kept { self.now.horizon ≤ commit }
        requires within { commit ≤ length self.now.journal }
        ensures { result ≡ is_some (document_at self.now.journal commit change.now.collection change.now.id) }
    {
        self.document_at(commit, &change.collection, &change.id)
            .is_some()
    }

    /// The commits after `from`, up to `to`.
    pub fn commits(&self, from: Commit, to: Commit) -> Result<Vec<CommitRow>, Memory>
        requires kept { self.now.horizon ≤ from }
        requires forward { from ≤ to }
        requires within { to ≤ length self.now.journal }
        ensures { IfOk result (λ rows. rows.items ≡ commit_rows self.now.journal from to) }
    {
        let mut rows = Vec::with_capacity(self.alloc, (to - from) as usize)?;
        for index in from as usize..to as usize {
            rows.push(self.commit_row(index)?)?;
        }
        Ok(rows)
    }

    /// The commit of the row at a index.
    fn commit_row(&self, index: usize) -> Result<CommitRow, Memory>
        requires kept { self.now.horizon ≤ index }
        requires within { index < length self.now.journal }
        ensures { IfOk result (λ row. (change : AChange) → slice_get self.now.journal index ≡ Some change → row ≡ commit_row self.now.journal (index + 1) change) }
    {
        let change = self.rows[index - self.horizon as usize].change();
        let before = self.document_at(index as u64, &change.collection, &change.id);
        Ok(CommitRow {
            commit: index as u64 + 1,
            collection: change.collection.clone()?,
            id: change.id.clone()?,
            before: copy_of_found(before)?,
            after: copy_of(&change.document)?,
        })
    }

    /// The documents of a collection after a commit, each with its id and the commit that put it, in
    /// byte order of the ids.
    pub fn docs_at(
        &self,
        commit: Commit,
        collection: &Name,
    ) -> Result<Vec<(Name, Commit, Doc)>, Memory>
        requires kept { self.now.horizon ≤ commit }
        requires within { commit ≤ length self.now.journal }
        ensures { IfOk result (λ rows. rows.items ≡ docs self.now.journal commit collection.now) }
    {
        let mut rows = self.documents_of(commit, collection)?;
        rows.sort_by(|a, b| a.0.cmp(&b.0))?;
        Ok(rows)
    }

    /// The documents of a collection after a commit, each with its id and the commit that put it, in no
    /// particular order. A query's window over them is that over `docs_at`, since its rows are put in order
    /// anyhow, and no ids are sorted.
    pub fn documents_of(
        &self,
        commit: Commit,
        collection: &Name,
    ) -> Result<Vec<(Name, Commit, Doc)>, Memory>
        requires kept { self.now.horizon ≤ commit }
        requires within { commit ≤ length self.now.journal }
        ensures { IfOk result (λ rows. HasDocuments (document_at self.now.journal commit collection.now) rows.items) }
    {
        match self.collections.get(collection) {
            Some(records) => documents_under(self.alloc, &self.rows, self.horizon, records, commit),
            None => Ok(Vec::new(self.alloc)),
        }
    }
}
