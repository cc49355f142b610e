//! An active query: a match set that follows the journal, and the commits that changed its result.
//!
//! The set is at a commit; the commits after it, up to the last that was seen, pass by, so that the set
//! shows the result at each of them. A commit that passes by costs its verdict alone, and one of another
//! collection a comparison of names. Each commit is seen whole or not at all: what it needs of memory is
//! taken before the set steps, so that a step that was made is always noted.
ghost use Rattle.std.specs.Prelude.{◌≡◌, ◌<◌, ◌≤◌, ◌+◌, ◌∷◌, ◌++◌, [], ℕ, ◌||◌, max, if◌then◌else◌, IfOk, OnOk, OnErr, length};
ghost use Rattle.std.specs.Vec.{vec_capacity};
ghost use Rattle.commit_book.specs.CommitRows.{commit_rows};
ghost use Rattle.query_core.specs.declared.query.Kind.{Kind as AKind};
ghost use Rattle.query_core.specs.declared.query.Query.{Query as AQuery};
ghost use Rattle.query_core.specs.Limits.{IsQuery};
ghost use Rattle.query_core.specs.Meaning.{satisfies_if};
ghost use Rattle.match_sets.specs.Contents.{window_of, StandsFor, IsNext, IsSame};
ghost use Rattle.match_sets.specs.Follow.{verdict_on};
ghost use Rattle.match_sets.specs.Windows.{has_changed, ShowsChange};
ghost use Rattle.active_queries.specs.Following.{Follows, HasFollowed, AreAbove, IsRowAfter, IsRowOf, forgotten, lifted};
ghost use Rattle.active_queries.specs.Queries.{has_any};

use crate::followed::Followed;
use commit_book::{Book, CommitRow};
use hub_model::laws::equal_results_are_tested;
use match_sets::laws::{
    sets_that_are_the_same_stand_for_the_same, windows_stay_where_a_commit_passes_by,
    windows_stay_while_commits_pass_by,
};
use match_sets::{MatchSet, MatchStep};
use q_base::{Commit, Memory};
use q_doc::Doc;
use query_core::{Docs, Filter, Kind, Query, Row, Verdict, satisfies};
use std::alloc::Global;
use std::marker::Model;

/// A query's match set, with the commits that changed the result that it shows.
#[derive(Drop)]
pub struct ActiveQuery {
    kind: Kind,
    set: MatchSet,
    /// The last commit that was seen.
    seen: Commit,
    /// The commit above which all that changed the result are listed.
    from: Commit,
    /// The commits that changed the result.
    changed: Vec<Commit>,
}

impl Model for ActiveQuery {
    ghost use Rattle.std.specs.Coded.{codes};
    ghost use Rattle.q_doc.specs.Code.{tree_code};
    ghost use Rattle.query_core.specs.Code.{filter_code};
    ghost use Rattle.active_queries.specs.Following.{Following};

    ghost Value = { Following };

    ghost coded = { Prim.hlevel (codes, tree_code, filter_code) };

    ghost view = { λ a. record { kind = a.kind; set = a.set; seen = a.seen; from = a.from; changed = a.changed.items } };
}

impl ActiveQuery {
    /// The query at a commit. Only commits after it will be listed.
    pub fn start(
        alloc: Global,
        book: &Book,
        kind: Kind,
        query: &Query,
        commit: Commit,
    ) -> Result<ActiveQuery, Memory>
        requires query { IsQuery query.now }
        requires kept { book.now.horizon ≤ commit }
        requires within { commit ≤ length book.now.journal }
        ensures follows { IfOk result (λ a. Follows kind query.now a book.now.journal) }
        ensures from { IfOk result (λ a. a.from ≡ commit) }
        ensures seen { IfOk result (λ a. a.seen ≡ commit) }
        ensures changed { IfOk result (λ a. a.changed ≡ []) }
    {
        let documents = Docs::of(book.documents_of(commit, &query.collection)?);
        let set = MatchSet::start(alloc, query, &documents, commit)?;
        Ok(ActiveQuery {
            kind,
            set,
            seen: commit,
            from: commit,
            changed: Vec::new(alloc),
        })
    }

    /// The rows of the result at the last commit that was seen. None is copied.
    pub fn rows(&self) -> &[Row]
        ensures { result.now ≡ window_of self.now.set }
    {
        self.set.window()
    }

    /// What the result shows of its rows.
    pub fn kind(&self) -> Kind
        ensures { result ≡ self.now.kind }
    {
        self.kind
    }

    /// The last commit that was seen.
    pub fn seen(&self) -> Commit
        ensures { result ≡ self.now.seen }
    {
        self.seen
    }

    /// The commit above which all that changed the result are listed.
    pub fn from(&self) -> Commit
        ensures { result ≡ self.now.from }
    {
        self.from
    }

    /// The commits that changed the result, of those that are not forgotten.
    pub fn changed(&self) -> &[Commit]
        ensures { result.now ≡ self.now.changed }
    {
        self.changed.as_slice()
    }

    /// Whether it lists a changed commit.
    pub(crate) fn has_changed(&self) -> bool
        ensures { result ≡ has_any self.now.changed }
    {
        !self.changed.is_empty()
    }

    /// Seen by itself.
    pub fn followed(&self) -> Followed<'_>
        ensures { result ≡ self.now }
    {
        Followed::of(self, self.seen, self.from)
    }

    /// Takes what it has in common with others as its own: that all have seen a commit, and list changed
    /// commits above one.
    pub(crate) fn settle(&mut self, seen: Commit, from: Commit)
        ensures { self.new ≡ lifted seen from self.old }
    {
        self.seen = self.seen.max(seen);
        self.from = self.from.max(from);
    }

    /// Sees the commits up to one, where it has this in common with others.
    pub(crate) fn go_on(
        &mut self,
        alloc: Global,
        book: &Book,
        seen: Commit,
        from: Commit,
        to: Commit,
    ) -> Result<(), Memory>
        requires kept { book.now.horizon ≤ max self.old.seen seen }
        requires within { to ≤ length book.now.journal }
        ensures on { HasFollowed book.now.journal (lifted seen from self.old) self.new }
        ensures reached { OnOk result (to ≤ self.new.seen) }
    {
        self.settle(seen, from);
        self.follow_to(alloc, book, to)
    }

    /// Sees a commit, if it has not, and has seen the one before.
    pub(crate) fn go_on_by(
        &mut self,
        alloc: Global,
        book: &Book,
        seen: Commit,
        from: Commit,
        row: &CommitRow,
    ) -> Result<(), Memory>
        requires row { IsRowOf book.now.journal row.now }
        requires kept { book.now.horizon < row.now.commit }
        requires recent { row.now.commit ≤ max self.old.seen seen + 1 }
        ensures on { HasFollowed book.now.journal (lifted seen from self.old) self.new }
        ensures reached { OnOk result (row.now.commit ≤ self.new.seen) }
    {
        self.settle(seen, from);
        if row.commit <= self.seen {
            return Ok(());
        }
        self.see(alloc, book, row)
    }

    /// Sees the commits up to one. It takes no memory where they were seen.
    fn follow_to(&mut self, alloc: Global, book: &Book, to: Commit) -> Result<(), Memory>
        requires kept { book.now.horizon ≤ self.old.seen }
        requires within { to ≤ length book.now.journal }
        ensures follows { (kind : AKind) (query : AQuery) → Follows kind query self.old book.now.journal → Follows kind query self.new book.now.journal }
        ensures from { self.new.from ≡ self.old.from }
        ensures seen { self.old.seen ≤ self.new.seen }
        ensures above { (n : ℕ) → n ≤ self.old.seen → AreAbove n self.old.changed → AreAbove n self.new.changed }
        ensures reached { OnOk result (to ≤ self.new.seen) }
    {
        let from = self.seen;
        if to <= from {
            return Ok(());
        }
        let rows = book.commits(from, to)?;
        self.follow(alloc, book, &rows, from, to)
    }

    /// Sees the commits up to one, of which the rows after another are given. Where memory runs out the
    /// query has seen a part of them, and goes on from there the next time.
    fn follow(
        &mut self,
        alloc: Global,
        book: &Book,
        rows: &[CommitRow],
        from: Commit,
        to: Commit,
    ) -> Result<(), Memory>
        requires rows { rows.now ≡ commit_rows book.now.journal from to }
        requires kept { book.now.horizon ≤ from }
        requires forward { from ≤ to }
        requires behind { from ≤ self.old.seen }
        requires within { to ≤ length book.now.journal }
        ensures follows { (kind : AKind) (query : AQuery) → Follows kind query self.old book.now.journal → Follows kind query self.new book.now.journal }
        ensures from { self.new.from ≡ self.old.from }
        ensures seen { self.old.seen ≤ self.new.seen }
        ensures above { (n : ℕ) → n ≤ self.old.seen → AreAbove n self.old.changed → AreAbove n self.new.changed }
        ensures reached { OnOk result (to ≤ self.new.seen) }
    {
        while self.seen < to {
            let row = &rows[(self.seen - from) as usize];
            self.see(alloc, book, row)?;
        }
        Ok(())
    }

    /// Sees the next commit.
    fn see(&mut self, alloc: Global, book: &Book, row: &CommitRow) -> Result<(), Memory>
        requires next { IsRowAfter book.now.journal self.old.seen row.now }
        requires kept { book.now.horizon ≤ self.old.seen }
        ensures follows { (kind : AKind) (query : AQuery) → Follows kind query self.old book.now.journal → Follows kind query self.new book.now.journal }
        ensures from { self.new.from ≡ self.old.from }
        ensures seen { self.old.seen ≤ self.new.seen }
        ensures above { (n : ℕ) → n ≤ self.old.seen → AreAbove n self.old.changed → AreAbove n self.new.changed }
        ensures reached { OnOk result (self.new.seen ≡ self.old.seen + 1) }
    {
        windows_stay_while_commits_pass_by();
        windows_stay_where_a_commit_passes_by();
        sets_that_are_the_same_stand_for_the_same();
        equal_results_are_tested();
        let verdict = verdict_of(self.set.query(), row);
        if !is_either(verdict) {
            self.seen = row.commit;
            return Ok(());
        }
        self.changed.reserve(1)?;
        let step = take_step(&mut self.set, alloc, book, row, verdict)?;
        note(&mut self.changed, self.kind, &step, row.commit);
        self.seen = row.commit;
        Ok(())
    }

    /// Drops the changed commits up to one. It takes no memory.
    pub fn forget(&mut self, to: Commit)
        ensures { self.new ≡ forgotten to self.old }
    {
        self.from = self.from.max(to);
        self.changed.retain(|commit| to < *commit);
    }
}

/// The verdict on a commit. One of another collection costs a comparison of names.
fn verdict_of(query: &Query, row: &CommitRow) -> Verdict
    ensures { result ≡ verdict_on query.now row.now }
{
    if row.collection == query.collection {
        Verdict {
            before: satisfies_if(&query.filter, &row.before),
            after: satisfies_if(&query.filter, &row.after),
        }
    } else {
        Verdict {
            before: false,
            after: false,
        }
    }
}

/// Whether there is a document, and it satisfies a filter.
fn satisfies_if(filter: &Filter, document: &Option<Doc>) -> bool
    ensures { result ≡ satisfies_if filter.now document.now }
{
    match document {
        Some(document) => satisfies(filter, document),
        None => false,
    }
}

/// Whether a document satisfied before or after.
fn is_either(verdict: Verdict) -> bool
    ensures { result ≡ (verdict.before || verdict.after) }
{
    verdict.before || verdict.after
}

/// Takes a set to the next commit that does not pass by. Where it would be short of rows it is made anew
/// from the documents there.
fn take_step(
    set: &mut MatchSet,
    alloc: Global,
    book: &Book,
    row: &CommitRow,
    verdict: Verdict,
) -> Result<MatchStep, Memory>
    requires kept { book.now.horizon ≤ row.now.commit }
    requires within { row.now.commit ≤ length book.now.journal }
    ensures stands { StandsFor set.old book.now.journal → IsNext set.old book.now.journal row.now verdict → OnOk result (StandsFor set.new book.now.journal) }
    ensures changed { StandsFor set.old book.now.journal → IsNext set.old book.now.journal row.now verdict → IfOk result (λ step. (kind : AKind) → ShowsChange kind (window_of set.old) (window_of set.new) step) }
    ensures at { OnOk result (set.new.at ≡ row.now.commit) }
    ensures query { set.new.query ≡ set.old.query }
    ensures err { OnErr result (IsSame set.old set.new) }
{
    if set.short(row, verdict) {
        let documents = Docs::of(book.documents_of(row.commit, &set.query().collection)?);
        Ok(set.renew(alloc, &documents, row, verdict)?.0)
    } else {
        Ok(set.step(row, verdict)?.0)
    }
}

/// Notes a commit whose step changed the result. It takes no memory.
fn note(changed: &mut Vec<Commit>, kind: Kind, step: &MatchStep, commit: Commit)
    requires { length changed.old.items < vec_capacity changed.old }
    ensures { changed.new.items ≡ (if has_changed kind step.now then changed.old.items ++ commit ∷ [] else changed.old.items) }
{
    if has_changed(kind, step) {
        changed.push_reserved(commit);
    }
}

/// Whether a step changed the result of a kind.
fn has_changed(kind: Kind, step: &MatchStep) -> bool
    ensures { result ≡ has_changed kind step.now }
{
    match kind {
        Kind::Objects => step.objects_changed,
        Kind::Ids => step.ids_changed,
    }
}
