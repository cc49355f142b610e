//! A bucket: some documents of a collection, in byte order of their ids.
ghost use Rattle.std.specs.Prelude.{◌≡◌, ◌++◌, [], Some, None, length, OnOk, OnErr};
ghost use Rattle.std.specs.Arc.{arc_value};
ghost use Rattle.std.specs.Cmp.Lexicographic.{slice_cmp};
ghost use Rattle.std.specs.List.Sorted.{IsBinarySearchResult, IsSearchInRange};
ghost use Rattle.std.specs.Ordering.{nat_cmp};
ghost use Rattle.commit_book.specs.Documents.{row_of};
ghost use Rattle.commit_book.specs.Journal.{put_at};
ghost use Rattle.query_core.specs.Changes.{IsChange};

use commit_book::Change;
use q_base::{Commit, Memory, Name};
use query_core::Row;
use std::alloc::{AllocError, Global};
use std::marker::Model;
use std::sync::Arc;

/// Documents, each with its id and the commit that put it, in byte order of their ids, each id once.
/// Contracts see the list.
#[derive(Drop)]
pub struct Bucket {
    rows: Vec<Row>,
}

impl Model for Bucket {
    ghost use Rattle.std.specs.Prelude.{List};
    ghost use Rattle.std.specs.Coded.{codes};
    ghost use Rattle.q_doc.specs.Code.{tree_code};
    ghost use Rattle.query_core.specs.Window.{Row};
    ghost use Rattle.bucket_store.specs.Rising.{Rises};

    ghost Value = { List Row };

    ghost coded = { Prim.hlevel (codes, tree_code) };

    ghost view = { λ b. b.rows.items };

    ghost invariant = { λ b. Rises b.rows.items };
}

impl Bucket {
    /// No document. It takes no memory.
    pub fn new(alloc: Global) -> Bucket
        ensures { result ≡ [] }
    {
        Bucket {
            rows: Vec::new(alloc),
        }
    }

    /// The documents.
    pub fn as_slice(&self) -> &[Row]
        ensures { result.now ≡ self.now }
    {
        self.rows.as_slice()
    }

    /// Puts the document of a change of this commit, or deletes.
    fn change(&mut self, commit: Commit, change: &Change) -> Result<(), Memory>
        ensures ok { OnOk result (IsChange change.now.id (row_of change.now.id (put_at commit change.now.document)) self.old self.new) }
        ensures err { OnErr result (self.new ≡ self.old) }
    {
        match &change.document {
            Some(document) => self.put((change.id.clone()?, commit, document.clone()?)),
            None => {
                self.remove(&change.id);
                Ok(())
            }
        }
    }

    /// Puts a document under its id, in place of the one that is there.
    fn put(&mut self, row: Row) -> Result<(), Memory>
        ensures ok { OnOk result (IsChange row.0 (Some row) self.old self.new) }
        ensures err { OnErr result (self.new ≡ self.old) }
    {
        match position_of(self.rows.as_slice(), &row.0) {
            Ok(index) => self.rows[index] = row,
            Err(index) => self.rows.insert(index, row)?,
        }
        Ok(())
    }

    /// Deletes the document of an id, if it is there.
    fn remove(&mut self, id: &Name)
        ensures { IsChange id.now None self.old self.new }
    {
        if let Ok(index) = position_of(self.rows.as_slice(), id) {
            self.rows.remove(index);
        }
    }
}

impl Clone for Bucket {
    ghost is_clone = { λ s t. s ≡ t };

    /// It has memory for one document more, since a bucket is copied to be changed.
    fn clone(&self) -> Result<Bucket, AllocError> {
        let own = self.rows.as_slice();
        let mut rows = Vec::with_capacity(*self.rows.allocator(), own.len() + 1)?;
        push_all(&mut rows, own)?;
        Ok(Bucket { rows })
    }
}

/// The index of an id among documents in order of their ids, or the index at which it belongs.
fn position_of(rows: &[Row], id: &Name) -> Result<usize, usize>
    ensures within { IsSearchInRange result (length rows.now) }
    ensures position { IsBinarySearchResult (λ row. slice_cmp nat_cmp row.0 id.now) rows.now result }
{
    rows.binary_search_by(|row| row.0.cmp(id))
}

/// Adds copies of documents. If memory runs out, some may have been added.
pub fn push_all(rows: &mut Vec<Row>, more: &[Row]) -> Result<(), AllocError>
    ensures { OnOk result (rows.new.items ≡ rows.old.items ++ more.now) }
{
    for row in more {
        rows.push((row.0.clone()?, row.1, row.2.clone()?))?;
    }
    Ok(())
}

/// Makes a change of this commit in a bucket. One that is shared is copied first, and stays as it was
/// for those that share it.
pub fn change_in(shared: &mut Arc<Bucket>, commit: Commit, change: &Change) -> Result<(), Memory>
    ensures ok { OnOk result (IsChange change.now.id (row_of change.now.id (put_at commit change.now.document)) (arc_value shared.old) (arc_value shared.new)) }
    ensures err { OnErr result (arc_value shared.new ≡ arc_value shared.old) }
{
    let bucket = Arc::make_mut(shared)?;
    bucket.change(commit, change)
}
