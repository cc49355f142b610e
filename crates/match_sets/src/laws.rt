//! What holds of journals, of sets that stand for them, and of steps that are taken back.
ghost use Rattle.std.specs.Prelude.{◌≡◌, ◌≤◌, ℕ, suc, true, List, ◌++◌, Some, length, slice_get};
ghost use Rattle.commit_book.specs.declared.change.Change.{Change as AChange};
ghost use Rattle.commit_book.specs.CommitRows.{commit_row};
ghost use Rattle.commit_book.specs.Documents.{docs, HasDocuments};
ghost use Rattle.commit_book.specs.Journal.{document_at};
ghost use Rattle.query_core.specs.declared.query.Query.{Query as AQuery};
ghost use Rattle.query_core.specs.Changes.{passes_by};
ghost use Rattle.query_core.specs.Window.{Row as ARow, matches, window};
ghost use Rattle.match_sets.specs.declared.undo.Undo.{Undo as AUndo};
ghost use Rattle.match_sets.specs.Contents.{Contents as AContents, StandsFor, IsMade, IsSame, window_of};
ghost use Rattle.match_sets.specs.Follow.{Follows, ArePassing};

use commit_book::laws::{collections_have_the_documents_of_their_records, older_commits_stay};

// The rows that satisfy a query.

/// From a commit to the next the rows that satisfy a query change by the old and the new document of
/// the commit's record.
pub fn rows_follow_the_journal()
    ensures { (q : AQuery) (journal : List AChange) (n : ℕ) (change : AChange) → slice_get journal n ≡ Some change → Follows q journal n (commit_row journal (suc n) change) }
{
    collections_have_the_documents_of_their_records();
}

/// They do not depend on the order of the documents of the collection.
pub fn matches_stay_in_any_order_of_documents()
    ensures { (q : AQuery) (journal : List AChange) (n : ℕ) (rows : List ARow) → HasDocuments (document_at journal n q.collection) rows → matches q rows ≡ matches q (docs journal n q.collection) }
{
    collections_have_the_documents_of_their_records();
}

/// A commit that passes by leaves the window of a query as it was.
pub fn windows_stay_where_a_commit_passes_by()
    ensures { (q : AQuery) (journal : List AChange) (n : ℕ) (change : AChange) → slice_get journal n ≡ Some change
        → passes_by q change.collection (commit_row journal (suc n) change).before change.document ≡ true
        → window q (docs journal (suc n) q.collection) ≡ window q (docs journal n q.collection) }
{
    rows_follow_the_journal();
}

// Sets that stand for a journal.

/// A set shows the window of each later commit up to which all commits pass by.
pub fn windows_stay_while_commits_pass_by()
    ensures { (set : AContents) (journal : List AChange) (n : ℕ) → StandsFor set journal → set.at ≤ n → n ≤ length journal → ArePassing set.query journal set.at n
        → window_of set ≡ window set.query (docs journal n set.query.collection) }
{
    rows_follow_the_journal();
}

/// A set stands for its journal also when more commits follow.
pub fn sets_stand_for_longer_journals()
    ensures { (set : AContents) (journal more : List AChange) → StandsFor set journal → StandsFor set (journal ++ more) }
{
    older_commits_stay();
}

/// What a set stands for does not depend on its memory.
pub fn sets_that_are_the_same_stand_for_the_same()
    ensures { (before after : AContents) (journal : List AChange) → IsSame before after → StandsFor before journal → StandsFor after journal }
{}

// Steps that are taken back.

/// What takes a step back still does after later steps that were taken back, which may leave more memory
/// for rows.
pub fn steps_are_taken_back_in_turn()
    ensures { (before after later : AContents) (undo : AUndo) → IsMade before undo after → IsSame after later → IsMade before undo later }
{}
