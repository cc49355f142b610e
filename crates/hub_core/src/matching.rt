//! A match of commits against the issued copies.
ghost use Rattle.std.specs.Prelude.{◌≡◌, ◌≤◌, ◌||◌, true, max, length, IsTrue, IfOk, OnOk, OnErr, All, IfSome, Some, option_copied};
ghost use Rattle.std.specs.List.{list_any, IsDistinct};
ghost use Rattle.std.specs.List.Sorted.{IsSorted};
ghost use Rattle.query_normal.specs.Keys.{same_key};
ghost use Rattle.query_normal.specs.declared.key.KeyShape.{KeyShape as AKey};
ghost use Rattle.issued_expiries.specs.Copies.{is_active};
ghost use Rattle.ttl_estimator.specs.Estimator.{has_record};
ghost use Rattle.ttl_estimator.specs.Records.{ExtendsAll};
ghost use Rattle.purge_list.specs.LastChanges.{change_of, is_known as has_change};
ghost use Rattle.purge_list.specs.Purged.{text_cmp};
ghost use Rattle.hub_model.specs.declared.entry.Entry.TheVariants.{Match};
ghost use Rattle.hub_model.specs.State.{State};
ghost use Rattle.hub_model.specs.Step.{after, after_all};
ghost use Rattle.active_queries.specs.Queries.{HaveSeen};
ghost use Rattle.hub_core.specs.ActiveQueries.{KeepsQueries};
ghost use Rattle.hub_core.specs.CopiesView.{IsInvalidationReserved};
ghost use Rattle.hub_core.specs.HubState.{HaveGoneOn, IsAt, IsLeanCopies, help_of, hub_of};
ghost use Rattle.hub_core.specs.Invalidations.{AreInvalidationsOf, HaveEntries, purges_at};
ghost use Rattle.hub_core.specs.Lifetimes.{KeepsLifetimes, MakesEntry, ViewedAlike};

use crate::copies::Copies;
use crate::invalidations::{Invalidation, invalidate_all, reserve_invalidations};
use crate::lifetimes::{Lifetimes, note_purges, raise_all};
use crate::passing::pass;
use crate::purging::{purged_keys, reserve_changes};
use active_queries::ActiveQueries;
use commit_book::{Book, Change};
use q_base::{Commit, Memory, Moment};
use query_normal::Key;
use std::alloc::Global;
use ttl_estimator::Estimator;

/// How many commits may come after the front.
const MOST_UNMATCHED: u64 = 1_024;

/// What a match does, with all memory taken: the invalidations by its commits, and the keys that it purges.
#[derive(Drop)]
struct Prepared {
    invalidations: Vec<Invalidation>,
    purged: Vec<Key>,
}

/// Matches the commits after one, up to another, at a moment; and makes an entry for the writes of the
/// record of a change, if there is one. All memory is taken before anything that lasts is done, but that
/// the queries may have seen these commits.
pub fn match_commits(
    alloc: Global,
    book: &Book,
    copies: &mut Copies,
    queries: &mut ActiveQueries,
    life: &mut Lifetimes,
    front: Commit,
    to: Commit,
    moment: Moment,
    change: Option<&Change>,
) -> Result<(), Memory>
    requires above { book.now.horizon ≤ front }
    requires forward { front ≤ to }
    requires within { to ≤ length book.now.journal }
    requires lean { IsLeanCopies copies.old }
    requires kept { KeepsQueries book.now.journal front copies.old.copies copies.old.idle queries.old.entries }
    requires lifetimes { KeepsLifetimes book.now.journal front copies.old life.old }
    ensures matches { OnOk result ((s : State) → IsAt (hub_of book.now front copies.old life.old) s → IsAt (hub_of book.now to copies.new life.new) (after copies.old.setting s (Match moment to))) }
    ensures kept { OnOk result (KeepsQueries book.now.journal to copies.new.copies copies.new.idle queries.new.entries) }
    ensures still { OnErr result (KeepsQueries book.now.journal front copies.new.copies copies.new.idle queries.new.entries) }
    ensures lifetimes { OnOk result (KeepsLifetimes book.now.journal to copies.new life.new) }
    ensures lifetimes_still { OnErr result (KeepsLifetimes book.now.journal front copies.new life.new) }
    ensures known { OnOk result (IfSome change.entry (λ c. IsTrue (has_record life.new.estimator c.now.collection c.now.id))) }
    ensures entered { OnOk result (MakesEntry (option_copied change.entry) life.old.estimator.records life.new.estimator.records) }
    ensures err { OnErr result (copies.new ≡ copies.old) }
    ensures alike { OnErr result (ViewedAlike life.old life.new) }
    ensures gone_on { OnErr result (HaveGoneOn queries.old.entries queries.new.entries) }
    ensures absents { life.new.absents ≡ life.old.absents }
    ensures setting { copies.new.setting ≡ copies.old.setting }
    ensures lean { IsLeanCopies copies.new }
{
    match prepare(
        alloc, book, copies, queries, life, front, to, moment, change,
    ) {
        Ok(prepared) => {
            queries.forget(to);
            pass(copies, queries, life, moment);
            invalidate_all(copies, &prepared.invalidations);
            copies.forget_invalidations();
            raise_all(&mut life.changes, &prepared.invalidations);
            note_purges(life, prepared.purged, copies.clock());
            Ok(())
        }
        Err(Memory) => {
            copies.forget_invalidations();
            Err(Memory)
        }
    }
}

/// Takes all memory that a match of the commits after one, up to another, at a moment needs, and that which
/// the entry for the writes of the record of a change needs, if there is one.
fn prepare(
    alloc: Global,
    book: &Book,
    copies: &mut Copies,
    queries: &mut ActiveQueries,
    life: &mut Lifetimes,
    front: Commit,
    to: Commit,
    moment: Moment,
    change: Option<&Change>,
) -> Result<Prepared, Memory>
    requires above { book.now.horizon ≤ front }
    requires forward { front ≤ to }
    requires within { to ≤ length book.now.journal }
    requires kept { KeepsQueries book.now.journal front copies.old.copies copies.old.idle queries.old.entries }

    // The invalidations.
    ensures invalidations { IfOk result (λ p. AreInvalidationsOf book.now.journal front to copies.old.copies p.invalidations.items) }
    ensures within { IfOk result (λ p. All (λ m. m.commit ≤ to) p.invalidations.items) }
    ensures reserved { IfOk result (λ p. All (λ m. IsInvalidationReserved copies.new m.key) p.invalidations.items) }
    ensures entries { IfOk result (λ p. HaveEntries copies.old.copies life.new.changes p.invalidations.items) }
    ensures seen { OnOk result (HaveSeen to queries.new.entries) }
    ensures gone_on { HaveGoneOn queries.old.entries queries.new.entries }

    // The keys that the match purges.
    ensures purged { IfOk result (λ p. (key : AKey) → list_any (same_key key) p.purged.items ≡ list_any (purges_at copies.old.copies life.old.changes (max copies.old.clock moment) key) p.invalidations.items) }
    ensures once { IfOk result (λ p. IsDistinct same_key p.purged.items) }
    ensures sorted { IfOk result (λ p. IsSorted text_cmp p.purged.items) }
    ensures room { IfOk result (λ p. length p.purged.items ≤ life.new.purges.spare) }

    // What stays.
    ensures known { OnOk result (IfSome change.entry (λ c. IsTrue (has_record life.new.estimator c.now.collection c.now.id))) }
    ensures kept { KeepsQueries book.now.journal front copies.old.copies copies.old.idle queries.new.entries }
    ensures changes { (key : AKey) → change_of life.new.changes key ≡ change_of life.old.changes key }
    ensures active { (key : AKey) → has_change life.new.changes key ≡ true → (has_change life.old.changes key || is_active copies.old.copies key) ≡ true }
    ensures entered { OnOk result (MakesEntry (option_copied change.entry) life.old.estimator.records life.new.estimator.records) }
    ensures records { ExtendsAll life.old.estimator.records life.new.estimator.records }
    ensures estimator { life.new.estimator ≡ record life.old.estimator { records = life.new.estimator.records } }
    ensures alike { OnErr result (ViewedAlike life.old life.new) }
    ensures texts { life.new.purges.texts ≡ life.old.purges.texts }
    ensures absents { life.new.absents ≡ life.old.absents }
    ensures rest { copies.new ≡ record copies.old { invalidatable = copies.new.invalidatable } }
{
    let invalidations = reserve_invalidations(alloc, book, copies, queries, front, to)?;
    let second = copies.clock().seconds().max(moment.seconds());
    let purged = purged_keys(alloc, copies, &life.changes, &invalidations, second)?;
    reserve_changes(copies, &mut life.changes, &invalidations)?;
    life.purges.reserve(purged.len())?;
    make_entry(&mut life.estimator, change)?;
    Ok(Prepared {
        invalidations,
        purged,
    })
}

/// Makes an entry for the writes of the record of a change, if there is one.
fn make_entry(estimator: &mut Estimator, change: Option<&Change>) -> Result<(), Memory>
    ensures known { OnOk result (IfSome change.entry (λ c. IsTrue (has_record estimator.new c.now.collection c.now.id))) }
    ensures entered { OnOk result (MakesEntry (option_copied change.entry) estimator.old.records estimator.new.records) }
    ensures extends { ExtendsAll estimator.old.records estimator.new.records }
    ensures rest { estimator.new ≡ record estimator.old { records = estimator.new.records } }
    ensures err { OnErr result (estimator.new ≡ estimator.old) }
{
    match change {
        Some(change) => estimator.reserve_record(&change.collection, &change.id),
        None => Ok(()),
    }
}

/// Makes an entry for the writes of the record of a change, and matches all commits at a moment where as
/// many come after the front as may, so that the change may come.
pub fn make_way(
    alloc: Global,
    book: &Book,
    copies: &mut Copies,
    queries: &mut ActiveQueries,
    life: &mut Lifetimes,
    front: &mut Commit,
    moment: Moment,
    change: &Change,
) -> Result<(), Memory>
    requires above { book.now.horizon ≤ front.old }
    requires within { front.old ≤ length book.now.journal }
    requires lean { IsLeanCopies copies.old }
    requires kept { KeepsQueries book.now.journal front.old copies.old.copies copies.old.idle queries.old.entries }
    requires lifetimes { KeepsLifetimes book.now.journal front.old copies.old life.old }
    ensures matches { OnOk result ((s : State) → IsAt (hub_of book.now front.old copies.old life.old) s → IsAt (hub_of book.now front.new copies.new life.new) (after_all copies.old.setting s (help_of s moment))) }
    ensures kept { KeepsQueries book.now.journal front.new copies.new.copies copies.new.idle queries.new.entries }
    ensures lifetimes { KeepsLifetimes book.now.journal front.new copies.new life.new }
    ensures forward { front.old ≤ front.new }
    ensures within { front.new ≤ length book.now.journal }
    ensures known { OnOk result (IsTrue (has_record life.new.estimator change.now.collection change.now.id)) }
    ensures entered { OnOk result (MakesEntry (Some change.now) life.old.estimator.records life.new.estimator.records) }
    ensures err { OnErr result (copies.new ≡ copies.old) }
    ensures front { OnErr result (front.new ≡ front.old) }
    ensures alike { OnErr result (ViewedAlike life.old life.new) }
    ensures gone_on { OnErr result (HaveGoneOn queries.old.entries queries.new.entries) }
    ensures absents { life.new.absents ≡ life.old.absents }
    ensures setting { copies.new.setting ≡ copies.old.setting }
    ensures lean { IsLeanCopies copies.new }
{
    let commits = book.count();
    if commits - *front < MOST_UNMATCHED {
        life.estimator
            .reserve_record(&change.collection, &change.id)?;
        return Ok(());
    }
    match_commits(
        alloc,
        book,
        copies,
        queries,
        life,
        *front,
        commits,
        moment,
        Some(change),
    )?;
    *front = commits;
    Ok(())
}
