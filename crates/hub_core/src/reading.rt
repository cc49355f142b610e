//! A read: its outcome, and the copy that it issues.
ghost use Rattle.std.specs.Prelude.{◌≡◌, ◌≤◌, ◌<◌, ◌+◌, ℕ, max, true, List, [], ◌∷◌, length, false, ◌&&◌, if◌then◌else◌, nat_lt, IfOk, OnOk, OnErr, IsTrue, IfSome, None};
ghost use Rattle.std.specs.Map.{lookup};
ghost use Rattle.query_core.specs.Limits.{IsQuery};
ghost use Rattle.query_core.specs.Window.{window};
ghost use Rattle.commit_book.specs.Documents.{docs};
ghost use Rattle.query_normal.specs.Keys.{same_key};
ghost use Rattle.query_normal.specs.declared.key.KeyShape.{KeyShape as AKey};
ghost use Rattle.query_normal.specs.declared.key.KeyShape.TheVariants.{Record, Query as QueryKey};
ghost use Rattle.issued_expiries.specs.Copies.{Copy, SameCopies, active_keys, is_active};
ghost use Rattle.issued_expiries.specs.Expiries.{is_reserved};
ghost use Rattle.ttl_estimator.specs.Estimates.{is_known, kept_of};
ghost use Rattle.ttl_estimator.specs.Estimator.{lifetime};
ghost use Rattle.hub_model.specs.Journal.{result_at};
ghost use Rattle.hub_model.specs.Known.{known_at};
ghost use Rattle.hub_model.specs.KnownSince.{known_since};
ghost use Rattle.hub_model.specs.Lifetime.{is_absence, is_bounded, kept_for, limits_of, ttl_of};
ghost use Rattle.hub_model.specs.Reply.{outcome_of};
ghost use Rattle.hub_model.specs.State.{State, at_moment};
ghost use Rattle.hub_model.specs.Step.{has_read};
ghost use Rattle.active_queries.specs.Following.{Follows, AreFollowing};
ghost use Rattle.active_queries.specs.Queries.{HaveSeen};
ghost use Rattle.hub_core.specs.ActiveQueries.{is_query, CanBeAdded, IsAtHand, IsStarted, KeepsQueries, query_at_hand, with_started};
ghost use Rattle.hub_core.specs.CopiesView.{IsReadyFor, Passes};
ghost use Rattle.hub_core.specs.HubState.{HaveGoneOn, IsAt, hub_of};
ghost use Rattle.hub_core.specs.Lifetimes.{KeepsLifetimes, ids_at};

use crate::absents::{bound, reserve_absent};
use crate::copies::Copies;
use crate::lifetimes::{Lifetimes, note_read};
use crate::passing::drop_idle;
use crate::query_outcome::query_outcome;
use active_queries::laws::rows_are_those_of_the_last_commit_seen;
use active_queries::{ActiveQueries, ActiveQuery, Followed};
use commit_book::Book;
use hub_model::{Outcome, Tags};
use issued_expiries::Expiries;
use q_base::{Commit, Memory, Moment, Name};
use query_core::{Kind, Query, Row};
use query_normal::{Key, KeyShape};
use result_kinds::ResultText;
use std::alloc::Global;
use ttl_estimator::Estimator;

/// Lets the query of a key see the last commit, or starts it there. The key of a record has none.
pub fn follow_or_start(
    alloc: Global,
    book: &Book,
    queries: &mut ActiveQueries,
    key: &Key,
) -> Result<Option<(Key, ActiveQuery)>, Memory>
    requires seen { HaveSeen book.now.horizon queries.old.entries }
    requires above { book.now.horizon ≤ length book.now.journal }
    ensures at_hand { IfOk result (λ started. IsAtHand book.now.journal key.now started queries.new) }
    ensures gone_on { HaveGoneOn queries.old.entries queries.new.entries }
    ensures kept { (front : ℕ) (copies : List Copy) (idle : List AKey) → KeepsQueries book.now.journal front copies idle queries.old.entries → KeepsQueries book.now.journal front copies idle queries.new.entries }
{
    match key.shape() {
        KeyShape::Record { .. } => Ok(None),
        KeyShape::Query { kind, normal } => {
            if queries.get(key).is_some() {
                queries.follow(alloc, book, key, book.count())?;
                Ok(None)
            } else {
                let query = normal.query();
                Ok(Some(start(alloc, book, queries, key, *kind, query)?))
            }
        }
    }
}

/// Starts the query of a key at the last commit, with space for it beside the others.
fn start(
    alloc: Global,
    book: &Book,
    queries: &mut ActiveQueries,
    key: &Key,
    kind: Kind,
    query: &Query,
) -> Result<(Key, ActiveQuery), Memory>
    requires query { IsQuery query.now }
    requires key { key.now ≡ QueryKey kind query.now }
    requires absent { lookup (same_key key.now) queries.old.entries ≡ None }
    requires above { book.now.horizon ≤ length book.now.journal }
    ensures started { IfOk result (λ new. IsStarted book.now.journal key.now new queries.new) }
    ensures entries { queries.new.entries ≡ queries.old.entries }
{
    let query = ActiveQuery::start(alloc, book, kind, query, book.count())?;
    queries.reserve(key)?;
    Ok((key.clone()?, query))
}

/// The outcome of a read of a key at the last commit, of a caller with these tags: the commit by which it
/// knows the result, or the text of the result.
pub fn outcome_at(
    alloc: Global,
    book: &Book,
    queries: &ActiveQueries,
    started: &Option<(Key, ActiveQuery)>,
    key: &Key,
    tags: &Tags,
) -> Result<Outcome, Memory>
    requires at_hand { IsAtHand book.now.journal key.now started.now queries.now }
    requires following { AreFollowing book.now.journal queries.now.entries }
    requires above { book.now.horizon ≤ length book.now.journal }
    ensures { IfOk result (λ o. o ≡ outcome_of (result_at key.now book.now.journal (length book.now.journal)) (known_at key.now book.now.journal book.now.horizon (length book.now.journal) tags.now)) }
{
    match key.shape() {
        KeyShape::Record { collection, id } => {
            record_outcome(book, book.count(), collection, id, tags)
        }
        KeyShape::Query { kind, normal } => match query_at_hand(queries, started, key) {
            Some(query) => active_outcome(alloc, book, &query, *kind, normal.query(), tags),
            None => unreachable!(),
        },
    }
}

/// The query that was started, or else the one that the key has.
fn query_at_hand<'a>(
    queries: &'a ActiveQueries,
    started: &'a Option<(Key, ActiveQuery)>,
    key: &Key,
) -> Option<Followed<'a>>
    ensures { result ≡ query_at_hand key.now started.now queries.now }
{
    match started {
        Some(new) => Some(new.1.followed()),
        None => queries.get(key),
    }
}

/// The outcome of a read of a query that has seen the last commit. Its rows are those of its match set:
/// no document is looked at for them.
fn active_outcome(
    alloc: Global,
    book: &Book,
    active: &Followed<'_>,
    kind: Kind,
    query: &Query,
    tags: &Tags,
) -> Result<Outcome, Memory>
    requires follows { Follows kind query.now active.now book.now.journal }
    requires seen { active.now.seen ≡ length book.now.journal }
    requires above { book.now.horizon ≤ length book.now.journal }
    ensures { IfOk result (λ o. o ≡ outcome_of (result_at (QueryKey kind query.now) book.now.journal (length book.now.journal)) (known_at (QueryKey kind query.now) book.now.journal book.now.horizon (length book.now.journal) tags.now)) }
{
    rows_are_those_of_the_last_commit_seen();
    query_outcome(
        alloc,
        book,
        book.count(),
        kind,
        query,
        active.rows(),
        active.from(),
        active.changed(),
        tags,
    )
}

/// The outcome of a read of a record at a commit: the commit by which the caller knows the document, which
/// is not below the horizon, or the text that the book keeps, which is shared.
#[tactic(auto, using(crate::proofs::OutcomeLemmas::outcome_rules))]
pub fn record_outcome(
    book: &Book,
    commit: Commit,
    collection: &Name,
    id: &Name,
    tags: &Tags,
) -> Result<Outcome, Memory>
    requires above { book.now.horizon ≤ commit }
    requires within { commit ≤ length book.now.journal }
    ensures { IfOk result (λ o. o ≡ outcome_of (result_at (Record collection.now id.now) book.now.journal commit) (known_at (Record collection.now id.now) book.now.journal book.now.horizon commit tags.now)) }
{
    let Some((version, text)) = book.text_at(commit, collection, id) else {
        return Ok(Outcome::Absent);
    };
    match known_since(book, tags, version, commit) {
        Some(tag) => Ok(Outcome::Same {
            tag,
            version: Some(version),
        }),
        None => Ok(Outcome::Whole {
            text: ResultText::of_document(text.clone()?),
            version: Some(version),
        }),
    }
}

/// The commit by which a caller knows a document of this version that is read at a commit. One below the
/// horizon is not known.
fn known_since(book: &Book, tags: &Tags, version: Commit, commit: Commit) -> Option<Commit>
    ensures { result ≡ known_since (max book.now.horizon version) commit tags.now }
{
    tags.known_since(book.horizon().max(version), commit)
}

/// The lifetime of a read of a record's key at the last commit, at a moment, where the read changes nothing:
/// it is not bounded, the clock has reached the moment, and a copy of that commit may be kept as long.
pub fn known_lifetime(
    book: &Book,
    copies: &Copies,
    estimator: &Estimator,
    moment: Moment,
    key: &Key,
    bounded: bool,
) -> Option<u32>
    requires { is_query key.now ≡ false }
    ensures unbounded { IfSome result (λ _. bounded ≡ false) }
    ensures passes { IfSome result (λ _. Passes moment copies.now copies.now) }
    ensures ttl { IfSome result (λ ttl. ttl ≡ lifetime estimator.now key.now (ids_at key.now book.now.journal) copies.now.clock (is_active copies.now.copies key.now) (active_keys copies.now.copies)) }
    ensures same { IfSome result (λ ttl. SameCopies copies.now.copies (if nat_lt 0 ttl then (key.now, length book.now.journal, copies.now.clock + kept_for copies.now.setting ttl) ∷ copies.now.copies else copies.now.copies)) }
{
    if bounded {
        return None;
    }
    if !copies.has_reached(moment) {
        return None;
    }
    let commit = book.count();
    let until = copies.latest_until(key, commit, commit.saturating_add(1));
    if until == 0 {
        return None;
    }
    let clock = copies.clock();
    let ttl = estimator.ttl(key, &[], clock, true, copies.active_count());
    if until < clock.seconds() + copies.kept_for(ttl) as u64 {
        return None;
    }
    Some(ttl)
}

/// Makes an entry for the estimate of a query's key.
fn reserve_estimate(estimator: &mut Estimator, key: &Key) -> Result<(), Memory>
    ensures known { OnOk result (is_query key.now ≡ true → IsTrue (is_known estimator.new.keys key.now)) }
    ensures others { (other : AKey) → (is_query key.now && same_key key.now other) ≡ false → is_known estimator.new.keys other ≡ is_known estimator.old.keys other }
    ensures kept { (other : AKey) → kept_of estimator.new.keys other ≡ kept_of estimator.old.keys other }
    ensures err { OnErr result (estimator.new ≡ estimator.old) }
    ensures rest { estimator.new ≡ record estimator.old { keys = estimator.new.keys } }
{
    match key.shape() {
        KeyShape::Record { .. } => Ok(()),
        KeyShape::Query { .. } => estimator.reserve(key),
    }
}

/// Reserves memory for a copy of a key, and for the estimate of a query's key.
pub fn reserve_copy(copies: &mut Copies, estimator: &mut Estimator, key: &Key) -> Result<(), Memory>
    requires { copies.old.ready ≡ [] }
    ensures ready { OnOk result (IsReadyFor copies.new key.now) }
    ensures known { OnOk result (is_query key.now ≡ true → IsTrue (is_known estimator.new.keys key.now)) }
    ensures others { (other : AKey) → (is_query key.now && same_key key.now other) ≡ false → is_known estimator.new.keys other ≡ is_known estimator.old.keys other }
    ensures kept { (other : AKey) → kept_of estimator.new.keys other ≡ kept_of estimator.old.keys other }
    ensures err { OnErr result (copies.new ≡ copies.old) }
    ensures estimator { OnErr result (estimator.new ≡ estimator.old) }
    ensures rest { copies.new ≡ record copies.old { ready = copies.new.ready } }
    ensures estimates { estimator.new ≡ record estimator.old { keys = estimator.new.keys } }
{
    copies.reserve(key)?;
    match reserve_estimate(estimator, key) {
        Ok(()) => Ok(()),
        Err(Memory) => {
            copies.forget_reserved();
            Err(Memory)
        }
    }
}

/// Reserves memory for a copy of a record's key, and for that among those of absent records where the
/// lifetime is bounded.
pub fn reserve_record(
    copies: &mut Copies,
    absents: &mut Expiries,
    key: &Key,
    bounded: bool,
) -> Result<(), Memory>
    requires { copies.old.ready ≡ [] }
    ensures ready { OnOk result (IsReadyFor copies.new key.now) }
    ensures absent { OnOk result (bounded ≡ true → IsTrue (is_reserved absents.new key.now)) }
    ensures unbounded { bounded ≡ false → absents.new ≡ absents.old }
    ensures err { OnErr result (copies.new ≡ copies.old) }
    ensures absents_err { OnErr result (absents.new ≡ absents.old) }
    ensures rest { copies.new ≡ record copies.old { ready = copies.new.ready } }
    ensures absents { absents.new ≡ record absents.old { reserved = absents.new.reserved } }
{
    copies.reserve(key)?;
    match reserve_absent(absents, key, bounded) {
        Ok(()) => Ok(()),
        Err(Memory) => {
            copies.forget_reserved();
            Err(Memory)
        }
    }
}

/// Issues the copy of a read at the last commit, at a moment, for which memory is ready; for how many
/// seconds it may be kept. The query that the read started is kept with it. It takes no memory.
pub fn issue_copy(
    book: &Book,
    copies: &mut Copies,
    queries: &mut ActiveQueries,
    life: &mut Lifetimes,
    moment: Moment,
    key: &Key,
    started: Option<(Key, ActiveQuery)>,
    bounded: bool,
) -> u32
    requires ready { IsReadyFor copies.old key.now }
    requires bounded { bounded ≡ is_bounded copies.old.setting (is_absence (result_at key.now book.now.journal (length book.now.journal))) }
    requires absent { bounded ≡ true → IsTrue (is_reserved life.old.absents key.now) }
    requires present { bounded ≡ false → life.old.absents.reserved ≡ [] }
    requires absents_idle { life.old.absents.idle ≡ [] }
    requires at_hand { IsAtHand book.now.journal key.now started queries.old }
    requires following { AreFollowing book.now.journal queries.old.entries }
    requires known { is_query key.now ≡ true → IsTrue (is_known life.old.estimator.keys key.now) }
    requires limits { life.old.estimator.limits ≡ limits_of copies.old.setting }
    ensures ttl { (front : ℕ) (s : State) → IsAt (hub_of book.now front copies.old life.old) s → result ≡ ttl_of copies.old.setting (at_moment s moment) key.now (length book.now.journal) }
    ensures issued { (front : ℕ) (s : State) → front ≤ length book.now.journal → copies.old.idle ≡ [] → IsAt (hub_of book.now front copies.old life.old) s → IsAt (hub_of book.now front copies.new life.new) (has_read copies.old.setting key.now (length book.now.journal) (at_moment s moment)) }
    ensures kept { (front : ℕ) → front ≤ length book.now.journal → KeepsQueries book.now.journal front copies.old.copies copies.old.idle queries.old.entries → KeepsQueries book.now.journal front copies.new.copies copies.new.idle queries.new.entries }
    ensures lifetimes { (front : ℕ) → front ≤ length book.now.journal → copies.old.idle ≡ [] → KeepsLifetimes book.now.journal front copies.old life.old → KeepsLifetimes book.now.journal front copies.new life.new }
    ensures writes { life.new.estimator.records ≡ life.old.estimator.records }
    ensures clock { copies.new.clock ≡ max copies.old.clock moment }
    ensures setting { copies.new.setting ≡ copies.old.setting }
    ensures idle { copies.new.idle ≡ [] }
    ensures ready { copies.new.ready ≡ [] }
    ensures absents_idle { life.new.absents.idle ≡ [] }
    ensures absents_ready { life.new.absents.reserved ≡ [] }
    ensures invalidatable { copies.new.invalidatable ≡ copies.old.invalidatable }
{
    copies.advance(moment);
    let commit = book.count();
    let active = copies.is_active(key);
    let estimated = lifetime(
        book,
        copies,
        queries,
        &life.estimator,
        &started,
        key,
        active,
    );
    let ttl = bound(&mut life.absents, copies, key, commit, estimated, bounded);
    copies.issue(key, commit, ttl);
    note_read(&mut life.estimator, key, active, ttl, copies.clock());
    add_started(queries, started, ttl);
    drop_idle(copies, queries, life);
    ttl
}

/// For how many seconds a copy of a key may be kept at the clock, where nothing is said of absent records: by
/// the writes of the records that its result is of, or by the estimate of an active query.
fn lifetime(
    book: &Book,
    copies: &Copies,
    queries: &ActiveQueries,
    estimator: &Estimator,
    started: &Option<(Key, ActiveQuery)>,
    key: &Key,
    active: bool,
) -> u32
    requires at_hand { IsAtHand book.now.journal key.now started.now queries.now }
    requires following { AreFollowing book.now.journal queries.now.entries }
    ensures { result ≡ lifetime estimator.now key.now (ids_at key.now book.now.journal) copies.now.clock active (active_keys copies.now.copies) }
{
    let count = copies.active_count();
    let clock = copies.clock();
    match key.shape() {
        KeyShape::Record { .. } => estimator.ttl(key, &[], clock, active, count),
        KeyShape::Query { kind, normal } => match query_at_hand(queries, started, key) {
            Some(query) => {
                let rows = last_rows(book, &query, *kind, normal.query());
                estimator.ttl(key, rows, clock, active, count)
            }
            None => unreachable!(),
        },
    }
}

/// The rows of a query that has seen the last commit.
fn last_rows<'a>(book: &Book, active: &Followed<'a>, kind: Kind, query: &Query) -> &'a [Row]
    requires follows { Follows kind query.now active.now book.now.journal }
    requires seen { active.now.seen ≡ length book.now.journal }
    ensures { result.now ≡ window query.now (docs book.now.journal (length book.now.journal) query.now.collection) }
{
    rows_are_those_of_the_last_commit_seen();
    active.rows()
}

/// Adds the query that a read started, where a copy of its result may be kept.
fn add_started(queries: &mut ActiveQueries, started: Option<(Key, ActiveQuery)>, ttl: u32)
    requires { IfSome started (λ new. CanBeAdded new queries.old) }
    ensures { queries.new.entries ≡ with_started started ttl queries.old.entries }
{
    if ttl == 0 {
        return;
    }
    if let Some((key, query)) = started {
        queries.add(key, query);
    }
}
