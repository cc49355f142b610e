//! What holds of queries that follow a journal. Each function states one law, and does nothing.
ghost use Rattle.std.specs.Prelude.{◌≡◌, List, ◌++◌};
ghost use Rattle.commit_book.specs.declared.change.Change.{Change as AChange};
ghost use Rattle.commit_book.specs.Documents.{docs};
ghost use Rattle.query_core.specs.declared.query.Kind.{Kind as AKind};
ghost use Rattle.query_core.specs.declared.query.Query.{Query as AQuery};
ghost use Rattle.query_core.specs.Window.{window};
ghost use Rattle.query_normal.specs.declared.key.KeyShape.{KeyShape as AKey};
ghost use Rattle.match_sets.specs.Contents.{window_of};
ghost use Rattle.active_queries.specs.Following.{Following, Follows, AreFollowing};

use commit_book::laws::older_commits_stay;
use hub_model::laws::result_of_prefix;
use match_sets::laws::{sets_stand_for_longer_journals, windows_stay_while_commits_pass_by};

/// The rows of a query are those of its window at the last commit that it has seen.
pub fn rows_are_those_of_the_last_commit_seen()
    ensures { (kind : AKind) (query : AQuery) (a : Following) (journal : List AChange) → Follows kind query a journal → window_of a.set ≡ window query (docs journal a.seen query.collection) }
{
    windows_stay_while_commits_pass_by();
}

/// A query follows its journal also when more commits come after those that it has seen.
pub fn queries_follow_longer_journals()
    ensures one { (kind : AKind) (query : AQuery) (a : Following) (journal more : List AChange) → Follows kind query a journal → Follows kind query a (journal ++ more) }
    ensures all { (journal more : List AChange) (entries : List (AKey × Following)) → AreFollowing journal entries → AreFollowing (journal ++ more) entries }
{
    sets_stand_for_longer_journals();
    older_commits_stay();
    result_of_prefix();
}
