//! Laws of candidates. Each is a function that does nothing; its contract is the law.
ghost use Rattle.std.specs.Prelude.{◌≡◌, ◌||◌, ℕ, suc, true, false, List, Option, Some, slice_get};
ghost use Rattle.commit_book.specs.declared.change.Change.{Change as AChange};
ghost use Rattle.commit_book.specs.declared.change.CommitRow.{CommitRow as ARow};
ghost use Rattle.commit_book.specs.CommitRows.{commit_row};
ghost use Rattle.commit_book.specs.Documents.{docs};
ghost use Rattle.q_doc.specs.Tree.{Tree as ATree};
ghost use Rattle.query_core.specs.declared.query.Query.{Query as AQuery};
ghost use Rattle.query_core.specs.Changes.{passes_by};
ghost use Rattle.query_core.specs.Filters.{Filter as AFilter};
ghost use Rattle.query_core.specs.Meaning.{satisfies};
ghost use Rattle.query_core.specs.Window.{window};
ghost use Rattle.query_normal.specs.declared.key.KeyShape.{KeyShape as AKey};
ghost use Rattle.match_index.specs.Candidates.{probe_of, is_found, is_candidate, is_candidate_key, passes_key};

use match_sets::laws::windows_stay_where_a_commit_passes_by;

/// The equality of a filter, if it has one, is true of each document that satisfies the filter.
pub fn satisfying_documents_are_found()
    ensures { (f : AFilter) (t : ATree) → satisfies f t ≡ true → is_found (probe_of f) (Some t) ≡ true }
{}

/// A change passes by each query that is no candidate of it: neither document satisfies the query.
pub fn others_pass_by()
    ensures queries { (q : AQuery) (collection : List ℕ) (before after : Option ATree) → is_candidate q collection before after ≡ false → passes_by q collection before after ≡ true }
    ensures keys { (key : AKey) (row : ARow) → is_candidate_key key row ≡ false → passes_key key row ≡ true }
{}

/// So a commit leaves the window of each query that is no candidate of it as it was.
pub fn windows_of_others_stay()
    ensures { (q : AQuery) (journal : List AChange) (n : ℕ) (change : AChange) → slice_get journal n ≡ Some change
        → is_candidate q change.collection (commit_row journal (suc n) change).before change.document ≡ false
        → window q (docs journal (suc n) q.collection) ≡ window q (docs journal n q.collection) }
{
    others_pass_by();
    windows_stay_where_a_commit_passes_by();
}
