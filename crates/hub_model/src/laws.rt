//! What follows of histories from the definitions alone. Each function states one law, and does
//! nothing.
ghost use Rattle.std.specs.Prelude.{◌≡◌, ◌≢◌, ◌↔◌, ◌+◌, ◌^◌, ◌<◌, ◌≤◌, ℕ, Bool, true, false, suc, max, List, [], ◌∷◌, ◌++◌, length, Option, Some, None, IsTrue, Contains, slice_get, is_some, nat_lt, ◌&&◌, ◌||◌, if◌then◌else◌};
ghost use Rattle.std.specs.Bool.{Decides};
ghost use Rattle.std.specs.List.{list_any, IsDistinct};
ghost use Rattle.std.specs.List.Sorted.{IsPermutation};
ghost use Rattle.q_doc.specs.Tree.{Tree};
ghost use Rattle.query_core.specs.declared.query.Kind.{Kind as AKind};
ghost use Rattle.query_core.specs.declared.query.Query.{Query as AQuery};
ghost use Rattle.query_core.specs.Window.{window};
ghost use Rattle.query_normal.specs.declared.key.KeyShape.{KeyShape};
ghost use Rattle.query_normal.specs.Keys.{same_key};
ghost use Rattle.query_normal.specs.Pages.{is_set, page_holds, positions};
ghost use Rattle.commit_book.specs.declared.change.Change.{Change as AChange};
ghost use Rattle.hub_model.specs.declared.entry.Condition.{Condition as ACondition};
ghost use Rattle.hub_model.specs.declared.entry.Condition.TheVariants.{Unchanged};
ghost use Rattle.hub_model.specs.declared.entry.Entry.{Entry as AnEntry};
ghost use Rattle.hub_model.specs.declared.entry.Entry.TheVariants.{Write, Read, Tick, Horizon};
ghost use Rattle.hub_model.specs.declared.entry.Tags.{Tags as SomeTags};
ghost use Rattle.hub_model.specs.declared.entry.Tags.TheVariants.{Listed};
ghost use Rattle.hub_model.specs.Copies.{IsActive, live, active_keys, is_active};
ghost use Rattle.hub_model.specs.Desk.{IsPrefix};
ghost use Rattle.hub_model.specs.Direct.{clock_of, front_of, horizon_of, found_behind, IsMet, IsAccepted, IsEqualAtOne, IsJournalOf, IsRead};
ghost use Rattle.commit_book.specs.Documents.{docs};
ghost use Rattle.commit_book.specs.Journal.{is_of, document_at};
ghost use Rattle.result_kinds.specs.Same.{same_result};
ghost use Rattle.hub_model.specs.Journal.{Finding, result_at, same_finding};
ghost use Rattle.hub_model.specs.Known.{known_at};
ghost use Rattle.hub_model.specs.KnownSince.{known_since, IsGreatestSame};
ghost use Rattle.hub_model.specs.Later.{IsLater};
ghost use Rattle.hub_model.specs.Helps.{helps_of, match_between};
ghost use Rattle.hub_model.specs.Legal.{most_unmatched, Admits, MayFollow, IsLegalFrom, IsLegal};
ghost use Rattle.hub_model.specs.Lifetime.{ttl_of, kept_for};
ghost use Rattle.hub_model.specs.Outdated.{IsOutdated, IsChangedAfter, is_outdated, is_changed};
ghost use Rattle.hub_model.specs.Purge.{is_newly_outdated};
ghost use Rattle.hub_model.specs.Record.{IsRecorded, is_recorded, record_of, outdated_copies, bits_of, page_of};
ghost use Rattle.hub_model.specs.Setting.{Setting};
ghost use Rattle.hub_model.specs.State.{IssuedCopy, State, start, at_moment};
ghost use Rattle.hub_model.specs.Step.{is_accepted, after, after_all, copy_of_read, has_matched, has_read, state_of};
ghost use Rattle.hub_model.specs.Until.{until_among, latest_until, until_of_outdated};

// What the tests of the definitions decide.

/// The test whether two results are equal decides it.
pub fn equal_results_are_tested()
    ensures { (a b : Finding) → Decides (same_finding a b) (a ≡ b) }
{}

/// The test of what is outdated is true exactly where it is.
pub fn outdated_is_tested()
    ensures { (key : KeyShape) (commit : ℕ) (journal : List AChange) (front : ℕ) → IsTrue (is_outdated key commit journal front) ↔ IsOutdated key commit journal front }
{}

/// The test of what a write asks is true exactly where it is accepted.
pub fn acceptance_is_tested()
    ensures { (g : Setting) (s : State) (change : AChange) (condition : ACondition) → IsTrue (is_accepted g s change condition) ↔ IsAccepted g s.journal s.horizon change condition }
{}

/// What is listed is unchanged exactly where there is a document, and a listed commit had it in the
/// same version. An equal document that was put again is another version.
pub fn listed_results_are_unchanged()
    ensures { (journal : List AChange) (change : AChange) (tags : List ℕ) → IsMet (Unchanged (Listed tags)) (found_behind journal change) (length journal) ↔ IsEqualAtOne journal change tags }
{}

/// A read whose caller lists commits is told the greatest of those from the horizon on that are not above
/// its own and find the same, and no commit exactly where none of them does.
pub fn the_greatest_same_result_is_told()
    ensures told { (key : KeyShape) (journal : List AChange) (horizon at : ℕ) (tags : List ℕ) (tag : ℕ) → (known_at key journal horizon at (Listed tags) ≡ Some tag) ↔ IsGreatestSame key journal horizon at tags tag }
    ensures none { (key : KeyShape) (journal : List AChange) (horizon at : ℕ) (tags : List ℕ) → (known_at key journal horizon at (Listed tags) ≡ None) ↔ ((t : ℕ) → Contains tags t → horizon ≤ t → t ≤ at → result_at key journal t ≢ result_at key journal at) }
{}

/// A caller knows a record's document exactly by the commits from its version and the horizon on.
pub fn records_are_known_since_their_version()
    ensures { (journal : List AChange) (collection id : List ℕ) (horizon at : ℕ) (found : ℕ × Tree) (tags : SomeTags) → document_at journal at collection id ≡ Some found → known_at (KeyShape.Record collection id) journal horizon at tags ≡ known_since (max horizon found.0) at tags }
{}

/// A key is among the active keys, each of which is listed once, exactly where it is active.
pub fn active_keys_are_listed()
    ensures tested { (s : State) (key : KeyShape) → IsTrue (is_active s key) ↔ IsActive s key }
    ensures listed { (s : State) (key : KeyShape) → Contains (active_keys s) key ↔ IsActive s key }
    ensures once { (s : State) → IsDistinct same_key (active_keys s) }
{}

/// A key is in the record, where each is listed once, exactly where an unexpired copy of it is outdated.
pub fn recorded_keys_are_listed()
    ensures tested { (s : State) (key : KeyShape) → IsTrue (is_recorded s key) ↔ IsRecorded s key }
    ensures listed { (s : State) (key : KeyShape) → Contains (record_of s) key ↔ IsRecorded s key }
    ensures once { (s : State) → IsDistinct same_key (record_of s) }
{}

/// From the guard on a bit of the page is set exactly where it is at a position of a key in the record.
/// Below it each is set.
pub fn bits_are_of_recorded_keys()
    ensures recorded { (g : Setting) (s : State) (j : ℕ) → g.guard ≤ s.clock → IsTrue (is_set (page_of g s) j) ↔ ((key : KeyShape) × IsRecorded s key × Contains (positions key g.log2_bits g.hashes) j) }
    ensures guarded { (g : Setting) (s : State) (j : ℕ) → s.clock < g.guard → IsTrue (is_set (page_of g s) j) ↔ (j < 2 ^ g.log2_bits) }
{}

/// The page holds each key in the record, and below the guard each key.
pub fn page_holds_recorded_keys()
    ensures recorded { (g : Setting) (s : State) (key : KeyShape) → IsRecorded s key → IsTrue (page_holds (page_of g s) key) }
    ensures guarded { (g : Setting) (s : State) (key : KeyShape) → s.clock < g.guard → IsTrue (page_holds (page_of g s) key) }
{}

// What holds of queries.

/// The results of a query at two commits are equal exactly where its windows there have the same ids and
/// versions in order, or for one of ids the same ids.
pub fn query_results_are_told_by_versions()
    ensures { (kind : AKind) (normal : AQuery) (journal : List AChange) (n m : ℕ) → same_finding (result_at (KeyShape.Query kind normal) journal n) (result_at (KeyShape.Query kind normal) journal m) ≡ same_result kind (window normal (docs journal n normal.collection)) (window normal (docs journal m normal.collection)) }
{}

// What a history comes to, said of its entries.

/// The clock is the greatest moment.
pub fn clock_is_greatest()
    ensures { (g : Setting) (history : List AnEntry) → (state_of g history).clock ≡ clock_of history }
{}

/// The journal is the changes of the accepted writes, each judged by those before it and by the horizon
/// there, and no other list is. No drop takes a change out of it.
pub fn journal_is_of_writes()
    ensures { (g : Setting) (history : List AnEntry) (journal : List AChange) → IsJournalOf g history journal ↔ (journal ≡ (state_of g history).journal) }
{}

/// The front is that of the last match.
pub fn front_is_last()
    ensures { (g : Setting) (history : List AnEntry) → (state_of g history).front ≡ front_of history }
{}

/// The horizon is that of the last drop.
pub fn horizon_is_last()
    ensures { (g : Setting) (history : List AnEntry) → (state_of g history).horizon ≡ horizon_of history }
{}

/// The copies are the reads, each with the clock after it, for how long some cache may keep it, and whether
/// it tells of no record.
pub fn copies_are_of_reads()
    ensures { (g : Setting) (history : List AnEntry) (key : KeyShape) (at clock ttl : ℕ) (absent : Bool) → IsRead g history key at clock ttl absent ↔ Contains (state_of g history).copies (record { key = key; at = at; clock = clock; ttl = ttl; absent = absent }) }
{}

// What outdated means.

/// A copy is outdated exactly where some commit after it changed the result.
pub fn outdated_by_steps()
    ensures { (key : KeyShape) (commit : ℕ) (journal : List AChange) (front : ℕ) → IsOutdated key commit journal front ↔ IsChangedAfter key commit journal front }
{}

/// A result depends on the first changes alone.
pub fn result_of_prefix()
    ensures { (key : KeyShape) (journal more : List AChange) (n : ℕ) → n ≤ length journal → result_at key (journal ++ more) n ≡ result_at key journal n }
{}

/// What is outdated stays so.
pub fn outdated_stays()
    ensures { (key : KeyShape) (commit : ℕ) (journal more : List AChange) (front later : ℕ) → front ≤ length journal → front ≤ later → IsOutdated key commit journal front → IsOutdated key commit (journal ++ more) later }
{}

/// A commit changes what a record's key finds exactly where its change is of the record, unless it
/// deletes what is not there.
pub fn record_changes_by_its_own_commits()
    ensures { (collection id : List ℕ) (journal : List AChange) (n : ℕ) (change : AChange) → slice_get journal n ≡ Some change → is_changed (KeyShape.Record collection id) journal (suc n) ≡ (is_of collection id change && (is_some change.document || is_some (document_at journal n collection id))) }
{}

// What holds of legal histories.

/// A history without entries is legal.
pub fn no_entry_is_legal()
    ensures state { (g : Setting) → state_of g [] ≡ start }
    ensures legal { (g : Setting) → IsLegal g [] }
{}

/// A history is legal with one entry more exactly where it is legal and the entry may follow.
pub fn one_entry_more()
    ensures state { (g : Setting) (history : List AnEntry) (e : AnEntry) → state_of g (history ++ e ∷ []) ≡ after g (state_of g history) e }
    ensures legal { (g : Setting) (history : List AnEntry) (e : AnEntry) → IsLegal g (history ++ e ∷ []) ↔ (IsLegal g history × MayFollow g (state_of g history) e) }
{}

/// A history goes on by any entries as by one: its state is what they make of the state before them,
/// and it is legal exactly where it was and each may follow in turn.
pub fn more_entries()
    ensures whole { (g : Setting) (history : List AnEntry) → state_of g history ≡ after_all g start history }
    ensures state { (g : Setting) (history more : List AnEntry) → state_of g (history ++ more) ≡ after_all g (state_of g history) more }
    ensures legal { (g : Setting) (history more : List AnEntry) → IsLegal g (history ++ more) ↔ (IsLegal g history × IsLegalFrom g (state_of g history) more) }
{}

/// A beginning of a legal history is legal.
pub fn beginnings_are_legal()
    ensures { (g : Setting) (history longer : List AnEntry) → IsPrefix history longer → IsLegal g longer → IsLegal g history }
{}

/// The state of a longer legal history is later.
pub fn longer_histories_are_later()
    ensures { (g : Setting) (history longer : List AnEntry) → IsPrefix history longer → IsLegal g longer → IsLater (state_of g history) (state_of g longer) }
{}

/// States are ordered: each is as late as itself, and what is later than a later one is later.
pub fn later_states_are_ordered()
    ensures itself { (s : State) → IsLater s s }
    ensures onward { (s t u : State) → IsLater s t → IsLater t u → IsLater s u }
{}

/// There are no more commits than entries, since an entry adds one at most.
pub fn commits_are_of_entries()
    ensures { (g : Setting) (history : List AnEntry) → length (state_of g history).journal ≤ length history }
{}

/// The front is not above the number of commits.
pub fn front_is_within()
    ensures { (g : Setting) (history : List AnEntry) → IsLegal g history → (state_of g history).front ≤ length (state_of g history).journal }
{}

/// The horizon is not above the front: what a page or a match looks at is kept.
pub fn horizon_is_within()
    ensures { (g : Setting) (history : List AnEntry) → IsLegal g history → (state_of g history).horizon ≤ (state_of g history).front }
{}

/// No more than so many commits come after the front.
pub fn few_commits_are_unmatched()
    ensures { (g : Setting) (history : List AnEntry) → IsLegal g history → length (state_of g history).journal ≤ (state_of g history).front + most_unmatched }
{}

/// Behind the entries that a call makes ahead of its own a write may always follow, and so may any entry
/// that the state admits: of a state with few commits after the front, as that of a legal history is.
pub fn helped_writes_may_follow()
    ensures write { (g : Setting) (s : State) (moment : ℕ) (change : AChange) (condition : ACondition) → s.front ≤ length s.journal → length s.journal ≤ s.front + most_unmatched → IsLegalFrom g s (helps_of g s (Write moment change condition) ++ Write moment change condition ∷ []) }
    ensures other { (g : Setting) (s : State) (e : AnEntry) → s.front ≤ length s.journal → length s.journal ≤ s.front + most_unmatched → Admits s e → IsLegalFrom g s (helps_of g s e ++ e ∷ []) }
    ensures history { (g : Setting) (history : List AnEntry) (e : AnEntry) → IsLegal g history → Admits (state_of g history) e → IsLegalFrom g (state_of g history) (helps_of g (state_of g history) e ++ e ∷ []) }
{}

/// What helped a write is told by the fronts before it and after it: a match up to the later one where it
/// is above, and else nothing.
pub fn helps_are_told_by_the_front()
    ensures { (g : Setting) (s : State) (moment : ℕ) (change : AChange) (condition : ACondition) → helps_of g s (Write moment change condition) ≡ match_between moment s.front (after_all g s (helps_of g s (Write moment change condition) ++ Write moment change condition ∷ [])).front }
{}

/// The front never falls.
pub fn front_never_falls()
    ensures { (g : Setting) (history more : List AnEntry) → IsLegal g (history ++ more) → (state_of g history).front ≤ (state_of g (history ++ more)).front }
{}

/// The horizon never falls.
pub fn horizon_never_falls()
    ensures { (g : Setting) (history more : List AnEntry) → IsLegal g (history ++ more) → (state_of g history).horizon ≤ (state_of g (history ++ more)).horizon }
{}

/// A read adds nothing to the outdated copies.
pub fn read_outdates_nothing()
    ensures { (g : Setting) (history : List AnEntry) (moment : ℕ) (key : KeyShape) (tags : SomeTags) (at : ℕ) → IsLegal g (history ++ Read moment key tags at ∷ []) → outdated_copies (state_of g (history ++ Read moment key tags at ∷ [])) ≡ outdated_copies (state_of g history) }
{}

/// A write changes the record by its clock alone, as a tick at its moment does.
pub fn write_records_nothing()
    ensures { (g : Setting) (history : List AnEntry) (moment : ℕ) (change : AChange) (condition : ACondition) → IsLegal g history → record_of (state_of g (history ++ Write moment change condition ∷ [])) ≡ record_of (state_of g (history ++ Tick moment ∷ [])) }
{}

/// A drop of old changes alters the record by its clock alone, as a tick at its moment does.
pub fn drop_records_nothing()
    ensures { (g : Setting) (history : List AnEntry) (moment to : ℕ) → record_of (state_of g (history ++ Horizon moment to ∷ [])) ≡ record_of (state_of g (history ++ Tick moment ∷ [])) }
{}

/// A copy that a match outdates is newly outdated by no later match: a key is purged once for the same
/// copies.
pub fn a_copy_purges_its_key_once()
    ensures { (g : Setting) (s t : State) (to later : ℕ) (r : IssuedCopy) → to ≤ length s.journal → IsLater (has_matched g to s) t → IsTrue (is_newly_outdated s to r) → is_newly_outdated t later r ≡ false }
{}

// By what a store may keep the record, without the definitions' lists.

/// The keys of the record, or the active keys, each once and in any order, are a permutation of them.
pub fn keys_in_any_order()
    ensures recorded { (s : State) (keys : List KeyShape) → IsDistinct same_key keys → ((key : KeyShape) → list_any (same_key key) keys ≡ is_recorded s key) → IsPermutation keys (record_of s) }
    ensures active { (s : State) (keys : List KeyShape) → IsDistinct same_key keys → ((key : KeyShape) → list_any (same_key key) keys ≡ is_active s key) → IsPermutation keys (active_keys s) }
{}

/// The bits of keys do not depend on their order, and neither does their number.
pub fn bits_in_any_order()
    ensures bits { (keys others : List KeyShape) (log2_bits hashes : ℕ) → IsPermutation keys others → bits_of keys log2_bits hashes ≡ bits_of others log2_bits hashes }
    ensures number { (keys others : List KeyShape) → IsPermutation keys others → length keys ≡ length others }
{}

/// A key is active exactly as long as the greatest until of its unexpired copies is above the clock.
pub fn active_until()
    ensures { (s : State) (key : KeyShape) → is_active s key ≡ nat_lt s.clock (until_among key (λ r. true) (live s)) }
{}

/// A key is in the record exactly as long as its greatest until of an unexpired outdated copy is above
/// the clock.
pub fn recorded_until()
    ensures { (s : State) (key : KeyShape) → is_recorded s key ≡ nat_lt s.clock (until_of_outdated s key) }
{}

/// The greatest until of any copies of a key stays while it is above the clock, and then there is none.
pub fn untils_pass()
    ensures { (s : State) (moment : ℕ) (key : KeyShape) (test : IssuedCopy → Bool) → until_among key test (live (at_moment s moment)) ≡ (if nat_lt (max s.clock moment) (until_among key test (live s)) then until_among key test (live s) else 0) }
{}

/// A read with a lifetime above 0 issues one copy, behind those there were.
pub fn reads_issue()
    ensures { (g : Setting) (s : State) (key : KeyShape) (at : ℕ) → live (has_read g key at s) ≡ live s ++ (if nat_lt 0 (ttl_of g s key at) then copy_of_read g s key at ∷ [] else []) }
{}

/// It raises the greatest until of the copies that pass a test exactly where its own copy passes.
pub fn reads_raise()
    ensures { (g : Setting) (s : State) (key : KeyShape) (at : ℕ) (other : KeyShape) (test : IssuedCopy → Bool) → until_among other test (live (has_read g key at s)) ≡ max (until_among other test (live s)) (if nat_lt 0 (ttl_of g s key at) && (same_key other key && test (copy_of_read g s key at)) then s.clock + kept_for g (ttl_of g s key at) else 0) }
{}

/// A read at the front or above it leaves how long each key stays in the record.
pub fn reads_record_nothing()
    ensures { (g : Setting) (s : State) (key : KeyShape) (at : ℕ) (other : KeyShape) → s.front ≤ at → until_of_outdated (has_read g key at s) other ≡ until_of_outdated s other }
{}

/// A longer journal leaves how long each key stays in the record.
pub fn commits_record_nothing()
    ensures { (s : State) (more : List AChange) (key : KeyShape) → s.front ≤ length s.journal → until_of_outdated (record s { journal = s.journal ++ more }) key ≡ until_of_outdated s key }
{}

/// One commit more that is matched: where it changes the result, the key's copies of commits before it
/// are outdated from there on, and else no further copy is.
pub fn matches_record_commit_by_commit()
    ensures raised { (s : State) (key : KeyShape) (n : ℕ) → until_of_outdated (record s { front = suc n }) key ≡ max (until_of_outdated (record s { front = n }) key) (if is_changed key s.journal (suc n) then latest_until s key 0 (suc n) else 0) }
    ensures changed { (s : State) (key : KeyShape) (n : ℕ) → IsTrue (is_changed key s.journal (suc n)) → until_of_outdated (record s { front = suc n }) key ≡ latest_until s key 0 (suc n) }
{}
