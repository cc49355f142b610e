//! A match set: the first rows of a query's result at a commit.
ghost use Rattle.std.specs.Prelude.{not, is_some, position, ◌≡◌, ◌<◌, ◌≤◌, ◌+◌, ◌^◌, ℕ, false, true, List, Option, ◌&&◌, nat_le, nat_lt, length, take, drop, option_map, IfOk, OnOk, OnErr, slice_get};
ghost use Rattle.commit_book.specs.declared.change.Change.{Change as AChange};
ghost use Rattle.commit_book.specs.Documents.{docs as documents_at, HasDocuments};
ghost use Rattle.commit_book.specs.Journal.{document_at};
ghost use Rattle.query_core.specs.declared.query.Kind.{Kind as AKind};
ghost use Rattle.query_core.specs.Limits.{IsQuery};
ghost use Rattle.query_core.specs.Window.{Row as ARow, matches, window};
ghost use Rattle.match_sets.specs.Contents.{Contents as AContents, HasFirst, StandsFor, IsNext, IsSame, IsMade, IsRewind, ArePlaced, IsToldBy, window_of, rows_with, rows_after, is_short, most_rows};
ghost use Rattle.match_sets.specs.Rows.{IsReady, count_of, others, kept_part, new_row};
ghost use Rattle.match_sets.specs.Told.{step_in, place_where};
ghost use Rattle.match_sets.specs.Windows.{IsStepBetween, ShowsChange, quiet};
ghost use Rattle.query_core.specs.Changes.{is_of};

use crate::edits::{
    cut, has_new, has_old, kept_part, new_row, put_in, take_out, uncut, unput, untake,
};
use crate::laws::{matches_stay_in_any_order_of_documents, rows_follow_the_journal};
use crate::steps::MatchStep;
use crate::tell::told;
use crate::undo::{Places, Rewind, Undo};
use commit_book::CommitRow;
use commit_book::laws::versions_are_of_one_document;
use q_base::{Commit, Memory, Name};
use query_core::{Docs, Query, Row, Verdict, window};
use result_kinds::laws::results_are_told_by_versions;
use std::alloc::Global;
use std::marker::Model;
use std::mem;

/// The number of rows that are kept beyond the window, so that deletions seldom ask for the documents.
const SLACK: usize = 100;

/// The first rows that satisfy a query at a commit, in its order: those of its window and at most 100
/// more. Contracts see the query, the commit and the rows.
#[derive(Drop)]
pub struct MatchSet {
    query: Query,
    at: Commit,
    rows: Vec<Row>,
    /// Whether all rows that satisfy are kept.
    whole: bool,
}

impl Model for MatchSet {
    ghost use Rattle.std.specs.Coded.{codes};
    ghost use Rattle.std.specs.Vec.{vec_capacity};
    ghost use Rattle.q_doc.specs.Code.{tree_code};
    ghost use Rattle.query_core.specs.Code.{filter_code};
    ghost use Rattle.query_core.specs.Limits.{IsQuery};
    ghost use Rattle.match_sets.specs.Contents.{Contents};

    ghost Value = { Contents };

    ghost coded = { Prim.hlevel (codes, tree_code, filter_code) };

    ghost view = { λ s. record { query = s.query; at = s.at; rows = s.rows.items; whole = s.whole; capacity = vec_capacity s.rows } };

    ghost invariant = { λ s. IsQuery s.query };
}

impl MatchSet {
    /// The set of a query over the documents of its collection at a commit, in any order. It keeps the
    /// first `skip + take + 100` rows, or all where there are fewer.
    pub fn start(alloc: Global, query: &Query, docs: &Docs, at: Commit) -> Result<MatchSet, Memory>
        requires { IsQuery query.now }
        ensures query { IfOk result (λ set. set.query ≡ query.now) }
        ensures at { IfOk result (λ set. set.at ≡ at) }
        ensures rows { IfOk result (λ set. set.rows ≡ take (most_rows query.now) (matches query.now docs.now)) }
        ensures whole { IfOk result (λ set. set.whole ≡ nat_le (length (matches query.now docs.now)) (most_rows query.now)) }
        ensures first { IfOk result (λ set. HasFirst set (matches query.now docs.now)) }
        ensures stands { (journal : List AChange) → at ≤ length journal → HasDocuments (document_at journal at query.now.collection) docs.now → IfOk result (λ set. StandsFor set journal) }
    {
        matches_stay_in_any_order_of_documents();
        let most = limit_of(query);
        let own = query.clone()?;
        let mut rows = first_rows(alloc, query, docs, most + 1)?;
        let whole = rows.len() <= most;
        rows.truncate(most);
        Ok(MatchSet {
            query: own,
            at,
            rows,
            whole,
        })
    }

    /// The query. The verdicts on commits are those of this query.
    pub fn query(&self) -> &Query
        ensures { result.now ≡ self.now.query }
    {
        &self.query
    }

    /// The commit at which it is. It may lag behind commits that pass by.
    pub fn at(&self) -> Commit
        ensures { result ≡ self.now.at }
    {
        self.at
    }

    /// The number of rows that are kept.
    pub fn kept(&self) -> usize
        ensures { result ≡ length self.now.rows }
    {
        self.rows.len()
    }

    /// The rows of the window. None is copied.
    pub fn window(&self) -> &[Row]
        ensures { result.now ≡ window_of self.now }
    {
        shown(&self.query, self.rows.as_slice())
    }

    /// The row at a position of the window, counted from 0. It takes no memory.
    pub fn row(&self, position: u32) -> Option<&Row>
        ensures { option_map (λ r. r.now) result ≡ slice_get (window_of self.now) position }
    {
        if position < self.query.take {
            self.rows.get(self.query.skip as usize + position as usize)
        } else {
            None
        }
    }

    /// Whether the set is not whole and would keep too few rows for its window after this commit:
    /// then it takes `renew` and not `step`. It takes no memory.
    pub fn short(&self, row: &CommitRow, verdict: Verdict) -> bool
        ensures { (journal : List AChange) → StandsFor self.now journal → IsNext self.now journal row.now verdict → result ≡ is_short self.now row.now verdict }
    {
        rows_follow_the_journal();
        let wanted = self.query.skip as usize + self.query.take as usize;
        let count = self.count_after(row, verdict);
        is_less(self.whole, count, wanted)
    }

    /// The number of rows after a commit, before any is cut off.
    fn count_after(&self, row: &CommitRow, verdict: Verdict) -> usize
        ensures { IsReady self.now.query.order row.now verdict.before self.now.rows → result ≡ length (rows_after self.now row.now verdict) }
    {
        let order = &self.query.order;
        let rows = self.rows.as_slice();
        let others = rows.len() - count(has_old(rows, order, row, verdict.before));
        others + count(has_new(order, self.whole, rows, row, verdict.after))
    }

    /// The set at the commit of the row. It stands for the journal there, and its window is that of
    /// the query over the documents at that commit, made from scratch. It says what this did to the
    /// window. It takes two binary searches.
    pub fn step(&mut self, row: &CommitRow, verdict: Verdict) -> Result<(MatchStep, Undo), Memory>
        ensures stands { (journal : List AChange) → StandsFor self.old journal → IsNext self.old journal row.now verdict → is_short self.old row.now verdict ≡ false
            → OnOk result (StandsFor self.new journal) }
        ensures window { (journal : List AChange) → StandsFor self.old journal → IsNext self.old journal row.now verdict → is_short self.old row.now verdict ≡ false
            → OnOk result (window_of self.new ≡ window self.old.query (documents_at journal row.now.commit self.old.query.collection)) }
        ensures told { (journal : List AChange) → StandsFor self.old journal → IsNext self.old journal row.now verdict → is_short self.old row.now verdict ≡ false
            → row.now.collection ≡ self.old.query.collection → IfOk result (λ made. IsStepBetween row.now.id (window_of self.old) (window_of self.new) made.0) }
        ensures changed { (journal : List AChange) → StandsFor self.old journal → IsNext self.old journal row.now verdict → is_short self.old row.now verdict ≡ false
            → IfOk result (λ made. (kind : AKind) → ShowsChange kind (window_of self.old) (window_of self.new) made.0) }
        ensures quiet { (journal : List AChange) → StandsFor self.old journal → verdict ≡ record { before = false; after = false }
            → IfOk result (λ made. (made.0 ≡ quiet) × (self.new.rows ≡ self.old.rows) × (self.new.whole ≡ self.old.whole)) }
        ensures kept { (journal : List AChange) → StandsFor self.old journal → IsNext self.old journal row.now verdict
            → OnOk result (self.new.rows ≡ take (most_rows self.old.query) (rows_after self.old row.now verdict)) }
        ensures whole { (journal : List AChange) → StandsFor self.old journal → IsNext self.old journal row.now verdict
            → OnOk result (self.new.whole ≡ (self.old.whole && nat_le (length (rows_after self.old row.now verdict)) (most_rows self.old.query))) }
        ensures at { OnOk result (self.new.at ≡ row.now.commit) }
        ensures query { self.new.query ≡ self.old.query }
        ensures undo { IfOk result (λ made. IsMade self.old made.1 self.new) }
        ensures err { OnErr result (IsSame self.old self.new) }
    {
        let _query = &self.query;
        let made = self.go(row, verdict)?;
        rows_follow_the_journal();
        versions_are_of_one_document();
        results_are_told_by_versions();
        Ok(made)
    }

    /// Changes the rows by a commit, and tells what this did to the window.
    fn go(&mut self, row: &CommitRow, verdict: Verdict) -> Result<(MatchStep, Undo), Memory>
        ensures rows { IsReady self.old.query.order row.now verdict.before self.old.rows → length self.old.rows ≤ most_rows self.old.query
            → OnOk result (self.new.rows ≡ take (most_rows self.old.query) (rows_after self.old row.now verdict)) }
        ensures whole { IsReady self.old.query.order row.now verdict.before self.old.rows
            → OnOk result (self.new.whole ≡ (self.old.whole && nat_le (length (rows_after self.old row.now verdict)) (most_rows self.old.query))) }
        ensures at { OnOk result (self.new.at ≡ row.now.commit) }
        ensures query { self.new.query ≡ self.old.query }
        ensures undo { IfOk result (λ made. IsMade self.old made.1 self.new) }
        ensures told { IsReady self.old.query.order row.now verdict.before self.old.rows → IfOk result (λ made. IsToldBy self.old row.now verdict self.new.rows made.0) }
        ensures err { OnErr result (IsSame self.old self.new) }
    {
        let made = self.apply(row, verdict)?;
        let (places, undo) = made;
        match self.tell(places) {
            Ok(step) => Ok((step, undo)),
            Err(memory) => {
                self.back(undo);
                Err(memory)
            }
        }
    }

    /// Changes the rows by a commit.
    fn apply(&mut self, row: &CommitRow, verdict: Verdict) -> Result<(Places, Undo), Memory>
        ensures rows { IsReady self.old.query.order row.now verdict.before self.old.rows → length self.old.rows ≤ most_rows self.old.query
            → OnOk result (self.new.rows ≡ take (most_rows self.old.query) (rows_after self.old row.now verdict)) }
        ensures whole { IsReady self.old.query.order row.now verdict.before self.old.rows
            → OnOk result (self.new.whole ≡ (self.old.whole && nat_le (length (rows_after self.old row.now verdict)) (most_rows self.old.query))) }
        ensures at { OnOk result (self.new.at ≡ row.now.commit) }
        ensures query { self.new.query ≡ self.old.query }
        ensures undo { IfOk result (λ made. IsMade self.old made.1 self.new) }
        ensures placed { IsReady self.old.query.order row.now verdict.before self.old.rows
            → IfOk result (λ made. ArePlaced self.old.rows row.now.id (others verdict.before row.now.id self.old.rows) (kept_part self.old.query.order self.old.whole self.old.rows (new_row row.now verdict.after)) (rows_after self.old row.now verdict) made.0) }
        ensures err { OnErr result (IsSame self.old self.new) }
    {
        let new = new_row(row, verdict.after)?;
        self.reserve()?;
        Ok(self.change(row, verdict.before, new))
    }

    /// What happened to the window, from the positions of the written row.
    fn tell(&self, places: Places) -> Result<MatchStep, Memory>
        ensures { IfOk result (λ step. step ≡ step_in self.now.query self.now.rows places.old places.new) }
    {
        told(&self.query, self.rows.as_slice(), places.old, places.new)
    }

    /// Takes memory for one row more.
    fn reserve(&mut self) -> Result<(), Memory>
        ensures same { IsSame self.old self.new }
        ensures fits { OnOk result (length self.new.rows < self.new.capacity) }
    {
        self.rows.reserve(1)?;
        Ok(())
    }

    /// Changes the rows by the old and the new row of a commit. It takes no memory.
    fn change(&mut self, row: &CommitRow, before: bool, new: Option<Row>) -> (Places, Undo)
        requires { length self.old.rows < self.old.capacity }
        ensures rows { IsReady self.old.query.order row.now before self.old.rows → length self.old.rows ≤ most_rows self.old.query
            → self.new.rows ≡ take (most_rows self.old.query) (rows_with self.old row.now.id before new) }
        ensures whole { IsReady self.old.query.order row.now before self.old.rows
            → self.new.whole ≡ (self.old.whole && nat_le (length (rows_with self.old row.now.id before new)) (most_rows self.old.query)) }
        ensures at { self.new.at ≡ row.now.commit }
        ensures query { self.new.query ≡ self.old.query }
        ensures undo { IsMade self.old result.1 self.new }
        ensures placed { IsReady self.old.query.order row.now before self.old.rows
            → ArePlaced self.old.rows row.now.id (others before row.now.id self.old.rows) (kept_part self.old.query.order self.old.whole self.old.rows new) (rows_with self.old row.now.id before new) result.0 }
    {
        let new = kept_part(&self.query.order, self.whole, self.rows.as_slice(), new);
        let taken = take_out(&mut self.rows, &self.query.order, row, before);
        let put = put_in(&mut self.rows, &self.query.order, new);
        let cut = cut(&mut self.rows, limit_of(&self.query));
        let (at, whole) = (self.at, self.whole);
        self.at = row.commit;
        self.whole = still_whole(whole, &cut);
        let places = Places {
            old: position_taken(&taken),
            new: put,
        };
        let undo = Undo {
            at,
            whole,
            rows: Rewind::Step { taken, put, cut },
        };
        (places, undo)
    }

    /// Takes the last step that was not taken back, back. It takes no memory.
    pub fn back(&mut self, undo: Undo)
        requires { (before : AContents) × IsMade before undo self.old }
        ensures { (before : AContents) → IsMade before undo self.old → IsSame before self.new }
    {
        let Undo { at, whole, rows } = undo;
        self.rewind(rows);
        self.at = at;
        self.whole = whole;
    }

    /// Takes the rows back.
    fn rewind(&mut self, rows: Rewind)
        requires { (before : AContents) × IsRewind before rows self.old }
        ensures rows { (before : AContents) → IsRewind before rows self.old → self.new.rows ≡ before.rows }
        ensures capacity { (before : AContents) → IsRewind before rows self.old → before.capacity ≤ self.new.capacity }
        ensures query { self.new.query ≡ self.old.query }
    {
        match rows {
            Rewind::Step { taken, put, cut } => {
                uncut(&mut self.rows, cut);
                unput(&mut self.rows, put);
                untake(&mut self.rows, taken);
            }
            Rewind::Renewal { rows } => self.rows = rows,
        }
    }

    /// The set at the commit of the row, made anew from the documents there, in any order. It answers
    /// what `step` would, also where the set is short of rows.
    pub fn renew(
        &mut self,
        alloc: Global,
        docs: &Docs,
        row: &CommitRow,
        verdict: Verdict,
    ) -> Result<(MatchStep, Undo), Memory>
        ensures stands { (journal : List AChange) → row.now.commit ≤ length journal → HasDocuments (document_at journal row.now.commit self.old.query.collection) docs.now
            → OnOk result (StandsFor self.new journal) }
        ensures window { (journal : List AChange) → row.now.commit ≤ length journal → HasDocuments (document_at journal row.now.commit self.old.query.collection) docs.now
            → OnOk result (window_of self.new ≡ window self.old.query (documents_at journal row.now.commit self.old.query.collection)) }
        ensures told { (journal : List AChange) → StandsFor self.old journal → IsNext self.old journal row.now verdict
            → HasDocuments (document_at journal row.now.commit self.old.query.collection) docs.now → row.now.collection ≡ self.old.query.collection
            → IfOk result (λ made. IsStepBetween row.now.id (window_of self.old) (window_of self.new) made.0) }
        ensures changed { (journal : List AChange) → StandsFor self.old journal → IsNext self.old journal row.now verdict
            → HasDocuments (document_at journal row.now.commit self.old.query.collection) docs.now
            → IfOk result (λ made. (kind : AKind) → ShowsChange kind (window_of self.old) (window_of self.new) made.0) }
        ensures quiet { verdict ≡ record { before = false; after = false } → IfOk result (λ made. made.0 ≡ quiet) }
        ensures kept { OnOk result (self.new.rows ≡ take (most_rows self.old.query) (matches self.old.query docs.now)) }
        ensures whole { OnOk result (self.new.whole ≡ nat_le (length (matches self.old.query docs.now)) (most_rows self.old.query)) }
        ensures at { OnOk result (self.new.at ≡ row.now.commit) }
        ensures query { self.new.query ≡ self.old.query }
        ensures undo { IfOk result (λ made. IsMade self.old made.1 self.new) }
        ensures err { OnErr result (IsSame self.old self.new) }
    {
        let _query = &self.query;
        let made = self.remake(alloc, docs, row, verdict)?;
        rows_follow_the_journal();
        matches_stay_in_any_order_of_documents();
        versions_are_of_one_document();
        results_are_told_by_versions();
        Ok(made)
    }

    /// Makes the rows anew, and tells what this did to the window.
    fn remake(
        &mut self,
        alloc: Global,
        docs: &Docs,
        row: &CommitRow,
        verdict: Verdict,
    ) -> Result<(MatchStep, Undo), Memory>
        ensures first { OnOk result (HasFirst self.new (matches self.old.query docs.now)) }
        ensures rows { OnOk result (self.new.rows ≡ take (most_rows self.old.query) (matches self.old.query docs.now)) }
        ensures whole { OnOk result (self.new.whole ≡ nat_le (length (matches self.old.query docs.now)) (most_rows self.old.query)) }
        ensures told { IfOk result (λ made. made.0 ≡ step_in self.old.query self.new.rows (place_where verdict.before row.now.id self.old.rows) (place_where verdict.after row.now.id self.new.rows)) }
        ensures at { OnOk result (self.new.at ≡ row.now.commit) }
        ensures query { self.new.query ≡ self.old.query }
        ensures undo { IfOk result (λ made. IsMade self.old made.1 self.new) }
        ensures err { OnErr result (IsSame self.old self.new) }
    {
        let made = MatchSet::start(alloc, &self.query, docs, row.commit)?;
        let old = place_where(verdict.before, &row.id, self.rows.as_slice());
        let new = place_where(verdict.after, &row.id, made.rows.as_slice());
        let step = told(&self.query, made.rows.as_slice(), old, new)?;
        let whole = made.whole;
        let rows = mem::replace(&mut self.rows, made.rows);
        let undo = Undo {
            at: self.at,
            whole: self.whole,
            rows: Rewind::Renewal { rows },
        };
        self.at = row.commit;
        self.whole = whole;
        Ok((step, undo))
    }
}

/// The rows of a query's window among those that satisfy it, in its order.
fn shown<'a>(query: &Query, rows: &'a [Row]) -> &'a [Row]
    ensures { result.now ≡ take query.now.take (drop query.now.skip rows.now) }
{
    let skip = query.skip as usize;
    let start = skip.min(rows.len());
    let end = (skip + query.take as usize).min(rows.len());
    &rows[start..end]
}

/// The first rows that satisfy a query, in its order.
fn first_rows(alloc: Global, query: &Query, docs: &Docs, count: usize) -> Result<Vec<Row>, Memory>
    requires { count < 2 ^ 32 }
    ensures { IfOk result (λ rows. rows.items ≡ take count (matches query.now docs.now)) }
{
    let mut wide = query.clone()?;
    wide.skip = 0;
    wide.take = count as u32;
    Ok(window(alloc, &wide, docs)?.into_vec())
}

/// The number of rows that a set of this query keeps at most.
fn limit_of(query: &Query) -> usize
    ensures { result ≡ most_rows query.now }
{
    query.skip as usize + query.take as usize + SLACK
}

/// One, or none.
fn count(there: bool) -> usize
    ensures { result ≡ count_of there }
{
    if there { 1 } else { 0 }
}

/// The position of the row that was taken out.
fn position_taken(taken: &Option<(usize, Row)>) -> Option<usize>
    ensures { result ≡ option_map (λ t. t.0) taken.now }
{
    match taken {
        Some((position, _)) => Some(*position),
        None => None,
    }
}

/// The position of the row of an id, where it is asked for.
fn place_where(wanted: bool, id: &Name, rows: &[Row]) -> Option<usize>
    ensures { result ≡ place_where wanted id.now rows.now }
{
    if wanted {
        position_by_id(id, rows)
    } else {
        None
    }
}

/// The position of the row of an id.
fn position_by_id(id: &Name, rows: &[Row]) -> Option<usize>
    ensures { result ≡ position (is_of id.now) rows.now }
{
    rows.iter().position(|row| row.0 == *id)
}

/// Whether a set is still whole, where this row was cut off.
fn still_whole(whole: bool, cut: &Option<Row>) -> bool
    ensures { result ≡ (whole && not (is_some cut.now)) }
{
    whole && cut.is_none()
}

/// Whether a set that is not whole has fewer rows than are wanted.
fn is_less(whole: bool, count: usize, wanted: usize) -> bool
    ensures { result ≡ (not whole && nat_lt count wanted) }
{
    !whole && count < wanted
}
