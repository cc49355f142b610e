//! The hub.
ghost use Rattle.std.specs.Prelude.{◌≡◌, ◌+◌, ◌^◌, ◌<◌, ◌≤◌, ◌++◌, ◌∷◌, [], length, max, option_map, Some, true, IfOk, OnOk, OnErr, false};
ghost use Rattle.hub_model.specs.declared.entry.Entry.TheVariants.{Write, Read, Match, Fetch, Purges, Tick, Horizon};
ghost use Rattle.commit_book.specs.Journal.{document_at, kept, kept_with};
ghost use Rattle.query_normal.specs.declared.key.KeyShape.TheVariants.{Record};
ghost use Rattle.hub_model.specs.Copies.{active_keys};
ghost use Rattle.hub_model.specs.Journal.{result_at};
ghost use Rattle.hub_model.specs.Known.{known_at};
ghost use Rattle.hub_model.specs.Lifetime.{is_absence, is_bounded};
ghost use Rattle.hub_model.specs.Record.{is_recorded, page_of, record_of};
ghost use Rattle.hub_model.specs.Reply.{wrote, read, matched, fetched, purged, counted, dropped, outcome_of, reply_in, told_of};
ghost use Rattle.hub_model.specs.State.{State, start};
ghost use Rattle.hub_model.specs.Step.{found_of, is_accepted, after, after_all};
ghost use Rattle.hub_model.specs.Helps.{helps_of};
ghost use Rattle.hub_core.specs.Foreseen.{tells_done};
ghost use Rattle.hub_core.specs.PageRoom.{IsRoomFor};
ghost use Rattle.hub_core.specs.ActiveQueries.{is_query};
ghost use Rattle.hub_core.specs.HubState.{IsAsBefore, IsAt, IsLean};
ghost use Rattle.hub_core.specs.ReadAnswer.{AnswersRead};

use crate::absents::is_bounded;
use crate::config::Config;
use crate::copies::Copies;
use crate::lifetimes::Lifetimes;
use crate::matching::{make_way, match_commits};
use crate::page_room::{Numbers, PageRoom};
use crate::passing::pass;
use crate::reading::{
    follow_or_start, issue_copy, known_lifetime, outcome_at, record_outcome, reserve_copy,
    reserve_record,
};
use active_queries::ActiveQueries;
use active_queries::laws::queries_follow_longer_journals;
use commit_book::{Book, BookRefusal};
use hub_model::{
    Answer, Change, Condition, Dropped, Found, Matched, Outcome, PurgeReply, Stats, Tags, Written,
};
use q_base::{Commit, Memory, Moment, Name};
use query_normal::{Key, KeyShape};
use std::alloc::Global;
use std::marker::Model;

/// A store of documents, which knows of each copy of a result that it issued whether it is
/// outdated. Each call that makes an entry of the history says so.
#[derive(Drop)]
pub struct Hub {
    alloc: Global,
    book: Book,
    front: Commit,
    copies: Copies,
    /// The queries of the active keys that are queries'.
    queries: ActiveQueries,
    life: Lifetimes,
}

/// The greatest number of purges that one reply tells.
const MOST_PURGES: u32 = 1_000;

impl Model for Hub {
    ghost use Rattle.std.specs.Coded.{codes};
    ghost use Rattle.q_doc.specs.Code.{tree_code};
    ghost use Rattle.query_core.specs.Code.{filter_code};
    ghost use Rattle.hub_core.specs.HubState.{HubView, IsSoundHub, hub_with};

    ghost Value = { HubView };

    ghost coded = { Prim.hlevel (codes, tree_code, filter_code) };

    ghost view = { λ h. hub_with h.book h.front h.copies h.queries.entries h.life };

    ghost invariant = { λ h. IsSoundHub h.book h.front h.copies h.queries.entries h.life };
}

impl Hub {
    /// A hub that represents the empty history.
    pub fn new(alloc: Global, config: Config) -> Result<Hub, Memory>
        ensures setting { IfOk result (λ hub. hub.setting ≡ config) }
        ensures begins { IfOk result (λ hub. IsAt hub start) }
        ensures lean { IfOk result (λ hub. IsLean hub) }
    {
        let life = Lifetimes::new(alloc, &config);
        Ok(Hub {
            alloc,
            book: Book::new(alloc, config.capacity())?,
            front: 0,
            copies: Copies::new(alloc, config)?,
            queries: ActiveQueries::new(alloc),
            life,
        })
    }

    /// Writes, as one entry: the condition is tested first, and then the capacity; an accepted change is
    /// the next commit. Where as many commits come after the front as may, all are matched first, as an
    /// entry of the same moment.
    pub fn write(
        &mut self,
        moment: Moment,
        change: &Change,
        condition: &Condition,
    ) -> Result<Written, Memory>
        requires { self.old.commits + 1 < 2 ^ 64 }

        // What Ok means.
        ensures told { IfOk result (λ w. (s : State) → IsAt self.old s → wrote w ≡ reply_in self.old.setting (after_all self.old.setting s (helps_of self.old.setting s (Write moment change.now condition.now))) (Write moment change.now condition.now)) }
        ensures accepted { OnErr result ((s : State) → IsAt self.old s → is_accepted self.old.setting s change.now condition.now ≡ true) }
        ensures after { OnOk result ((s : State) → IsAt self.old s → IsAt self.new (after_all self.old.setting s (helps_of self.old.setting s (Write moment change.now condition.now) ++ Write moment change.now condition.now ∷ []))) }

        // What stays.
        ensures setting { self.new.setting ≡ self.old.setting }
        ensures memory { OnErr result (IsAsBefore self.old self.new) }
        ensures still { OnErr result ((s : State) → IsAt self.old s → IsAt self.new s) }
        ensures lean { IsLean self.new }
    {
        queries_follow_longer_journals();
        let before = found(&self.book, change);
        if !condition.is_met(before, self.book.count()) {
            pass(&mut self.copies, &mut self.queries, &mut self.life, moment);
            return Ok(Written::Precondition {
                found: before,
                clock: self.copies.clock(),
            });
        }
        match self.book.reserve(change) {
            Ok(()) => match make_way(
                self.alloc,
                &self.book,
                &mut self.copies,
                &mut self.queries,
                &mut self.life,
                &mut self.front,
                moment,
                change,
            ) {
                Ok(()) => {
                    pass(&mut self.copies, &mut self.queries, &mut self.life, moment);
                    let clock = self.copies.clock();
                    self.life
                        .estimator
                        .note_write(&change.collection, &change.id, clock);
                    Ok(Written::Done {
                        commit: self.book.add_reserved(),
                        before,
                        clock,
                    })
                }
                Err(Memory) => {
                    self.book.forget_reserved();
                    Err(Memory)
                }
            },
            Err(BookRefusal::Full { bytes }) => {
                pass(&mut self.copies, &mut self.queries, &mut self.life, moment);
                Ok(Written::Full {
                    bytes,
                    clock: self.copies.clock(),
                })
            }
            Err(BookRefusal::Memory) => Err(Memory),
        }
    }

    /// What `write` would answer. It makes no entry, takes no memory, and as long as printing the document.
    pub fn foresee(&self, moment: Moment, change: &Change, condition: &Condition) -> Written
        requires { self.now.commits + 1 < 2 ^ 64 }
        ensures told { (s : State) → IsAt self.now s → wrote result ≡ reply_in self.now.setting (after_all self.now.setting s (helps_of self.now.setting s (Write moment change.now condition.now))) (Write moment change.now condition.now) }
        ensures accepted { (s : State) → IsAt self.now s → is_accepted self.now.setting s change.now condition.now ≡ tells_done result }
    {
        let before = found(&self.book, change);
        let clock = self.copies.clock_at(moment);
        if !condition.is_met(before, self.book.count()) {
            return Written::Precondition {
                found: before,
                clock,
            };
        }
        let capacity = self.copies.config().capacity();
        let bytes = bytes_with(&self.book, change);
        if bytes > capacity {
            return Written::Full { bytes, clock };
        }
        Written::Done {
            commit: self.book.count() + 1,
            before,
            clock,
        }
    }

    /// Reads the result of a key at the last commit, as one entry. A result that the caller knows by its
    /// tags is neither printed nor copied. The rows of an active query are those of its match set.
    pub fn read(&mut self, moment: Moment, key: &Key, tags: &Tags) -> Result<Answer, Memory>
        // What Ok means.
        ensures last { IfOk result (λ a. a.commit ≡ self.old.commits) }
        ensures told { IfOk result (λ a. (s : State) → IsAt self.old s → read a ≡ reply_in self.old.setting s (Read moment key.now tags.now a.commit)) }
        ensures after { IfOk result (λ a. (s : State) → IsAt self.old s → IsAt self.new (after self.old.setting s (Read moment key.now tags.now a.commit))) }

        // What stays.
        ensures setting { self.new.setting ≡ self.old.setting }
        ensures memory { OnErr result (IsAsBefore self.old self.new) }
        ensures still { OnErr result ((s : State) → IsAt self.old s → IsAt self.new s) }
        ensures lean { IsLean self.new }
    {
        match key.shape() {
            KeyShape::Record { collection, id } => {
                self.read_record(moment, key, collection, id, tags)
            }
            KeyShape::Query { .. } => self.read_query(moment, key, tags),
        }
    }

    /// Reads a record. Where a copy of the last commit may be kept as long, that is all.
    fn read_record(
        &mut self,
        moment: Moment,
        key: &Key,
        collection: &Name,
        id: &Name,
        tags: &Tags,
    ) -> Result<Answer, Memory>
        requires { key.now ≡ Record collection.now id.now }
        ensures answers { IfOk result (AnswersRead self.old self.new moment key.now tags.now) }
        ensures setting { self.new.setting ≡ self.old.setting }
        ensures memory { OnErr result (self.new ≡ self.old) }
        ensures lean { IsLean self.new }
    {
        let commit = self.book.count();
        let result = record_outcome(&self.book, commit, collection, id, tags)?;
        let bounded = is_bounded(&self.copies, &result);
        match known_lifetime(
            &self.book,
            &self.copies,
            &self.life.estimator,
            moment,
            key,
            bounded,
        ) {
            Some(ttl) => Ok(Answer {
                commit,
                clock: self.copies.clock(),
                ttl,
                shared: self.copies.shared_of(ttl),
                result,
            }),
            None => self.issue_record(moment, key, tags, result, bounded),
        }
    }

    /// Issues the copy of a record's read, of which the outcome is known.
    #[inline(never)]
    fn issue_record(
        &mut self,
        moment: Moment,
        key: &Key,
        tags: &Tags,
        found: Outcome,
        bounded: bool,
    ) -> Result<Answer, Memory>
        requires kind { is_query key.now ≡ false }
        requires bounded { bounded ≡ is_bounded self.old.setting (is_absence (result_at key.now self.old.rows self.old.commits)) }
        requires outcome { found ≡ outcome_of (result_at key.now self.old.rows self.old.commits) (known_at key.now self.old.rows self.old.horizon self.old.commits tags.now) }
        ensures answers { IfOk result (AnswersRead self.old self.new moment key.now tags.now) }
        ensures setting { self.new.setting ≡ self.old.setting }
        ensures memory { OnErr result (self.new ≡ self.old) }
        ensures lean { IsLean self.new }
    {
        reserve_record(&mut self.copies, &mut self.life.absents, key, bounded)?;
        let ttl = issue_copy(
            &self.book,
            &mut self.copies,
            &mut self.queries,
            &mut self.life,
            moment,
            key,
            None,
            bounded,
        );
        Ok(Answer {
            commit: self.book.count(),
            clock: self.copies.clock(),
            ttl,
            shared: self.copies.shared_of(ttl),
            result: found,
        })
    }

    /// Reads a query.
    #[inline(never)]
    fn read_query(&mut self, moment: Moment, key: &Key, tags: &Tags) -> Result<Answer, Memory>
        requires { is_query key.now ≡ true }
        ensures answers { IfOk result (AnswersRead self.old self.new moment key.now tags.now) }
        ensures setting { self.new.setting ≡ self.old.setting }
        ensures memory { OnErr result (IsAsBefore self.old self.new) }
        ensures lean { IsLean self.new }
    {
        let started = follow_or_start(self.alloc, &self.book, &mut self.queries, key)?;
        let result = outcome_at(self.alloc, &self.book, &self.queries, &started, key, tags)?;
        reserve_copy(&mut self.copies, &mut self.life.estimator, key)?;
        let ttl = issue_copy(
            &self.book,
            &mut self.copies,
            &mut self.queries,
            &mut self.life,
            moment,
            key,
            started,
            false,
        );
        Ok(Answer {
            commit: self.book.count(),
            clock: self.copies.clock(),
            ttl,
            shared: self.copies.shared_of(ttl),
            result,
        })
    }

    /// Matches the commits up to one against the issued copies, as one entry. It looks at the records that
    /// these commits changed, and at the queries of active keys.
    pub fn match_to(&mut self, moment: Moment, to: Commit) -> Result<Matched, Memory>
        requires above { self.old.front < to }
        requires within { to ≤ self.old.commits }

        // What Ok means.
        ensures told { IfOk result (λ m. (s : State) → IsAt self.old s → matched m ≡ reply_in self.old.setting s (Match moment to)) }
        ensures after { OnOk result ((s : State) → IsAt self.old s → IsAt self.new (after self.old.setting s (Match moment to))) }

        // What stays.
        ensures setting { self.new.setting ≡ self.old.setting }
        ensures memory { OnErr result (IsAsBefore self.old self.new) }
        ensures still { OnErr result ((s : State) → IsAt self.old s → IsAt self.new s) }
        ensures lean { IsLean self.new }
    {
        match_commits(
            self.alloc,
            &self.book,
            &mut self.copies,
            &mut self.queries,
            &mut self.life,
            self.front,
            to,
            moment,
            None,
        )?;
        self.front = to;
        Ok(Matched {
            front: to,
            clock: self.copies.clock(),
        })
    }

    /// Writes the page into the buffer, as one entry: below the guard with every bit set. It takes no
    /// memory.
    pub fn fetch(&mut self, moment: Moment, room: &mut PageRoom)
        requires { IsRoomFor self.old.setting room.old }
        ensures told { (s : State) → IsAt self.old s → option_map fetched room.new.page ≡ Some (reply_in self.old.setting s (Fetch moment)) }
        ensures page { (s : State) → IsAt self.old s → room.new.page ≡ Some (page_of self.old.setting (after self.old.setting s (Fetch moment))) }
        ensures after { (s : State) → IsAt self.old s → IsAt self.new (after self.old.setting s (Fetch moment)) }
        ensures setting { self.new.setting ≡ self.old.setting }
        ensures sizes { IsRoomFor self.old.setting room.new }
        ensures lean { IsLean self.new }
    {
        pass(&mut self.copies, &mut self.queries, &mut self.life, moment);
        let front = self.front;
        let commits = self.book.count();
        let moment = self.copies.clock();
        let numbers = Numbers {
            front,
            commits,
            moment,
        };
        room.write(numbers, self.copies.bits());
        room.set_below(self.copies.config().guard());
    }

    /// Tells the purged keys from a number on, as one entry: at most 1,000 of them. The first has number 1,
    /// and 0 counts as 1.
    pub fn purges(&mut self, moment: Moment, from: u64) -> Result<PurgeReply, Memory>
        // What Ok means.
        ensures told { IfOk result (λ p. (s : State) → IsAt self.old s → purged (told_of p) ≡ reply_in self.old.setting s (Purges moment from)) }
        ensures after { OnOk result ((s : State) → IsAt self.old s → IsAt self.new (after self.old.setting s (Purges moment from))) }

        // What stays.
        ensures setting { self.new.setting ≡ self.old.setting }
        ensures memory { OnErr result (self.new ≡ self.old) }
        ensures lean { IsLean self.new }
    {
        let keys = self.life.purges.after(self.alloc, from, MOST_PURGES)?;
        pass(&mut self.copies, &mut self.queries, &mut self.life, moment);
        Ok(PurgeReply {
            from,
            last: self.life.purges.last(),
            front: self.front,
            clock: self.copies.clock(),
            keys,
        })
    }

    /// Lets time pass, as one entry. It takes no memory.
    pub fn tick(&mut self, moment: Moment) -> Stats
        ensures told { (s : State) → IsAt self.old s → counted result ≡ reply_in self.old.setting s (Tick moment) }
        ensures after { (s : State) → IsAt self.old s → IsAt self.new (after self.old.setting s (Tick moment)) }
        ensures setting { self.new.setting ≡ self.old.setting }
        ensures lean { IsLean self.new }
    {
        pass(&mut self.copies, &mut self.queries, &mut self.life, moment);
        Stats {
            front: self.front,
            commits: self.book.count(),
            clock: self.copies.clock(),
        }
    }

    /// Drops the changes up to a commit, but the last of each record that has a document there, as one
    /// entry. The bytes that they took are free, and results are known from that commit on. It takes no
    /// memory, and the time of the changes that it passes.
    pub fn drop_to(&mut self, moment: Moment, to: Commit) -> Dropped
        requires above { self.old.horizon < to }
        requires within { to ≤ self.old.front }
        ensures told { (s : State) → IsAt self.old s → dropped result ≡ reply_in self.old.setting s (Horizon moment to) }
        ensures after { (s : State) → IsAt self.old s → IsAt self.new (after self.old.setting s (Horizon moment to)) }
        ensures setting { self.new.setting ≡ self.old.setting }
        ensures lean { IsLean self.new }
    {
        pass(&mut self.copies, &mut self.queries, &mut self.life, moment);
        self.book.drop_to(to);
        Dropped {
            horizon: to,
            clock: self.copies.clock(),
        }
    }

    /// The clock after an entry of a moment.
    pub fn clock_at(&self, moment: Moment) -> Moment
        ensures { result ≡ max self.now.clock moment }
    {
        self.copies.clock_at(moment)
    }

    /// The commit up to which old changes were dropped.
    pub fn horizon(&self) -> Commit
        ensures same { result ≡ self.now.horizon }
        ensures within { self.now.horizon ≤ self.now.front }
    {
        self.book.horizon()
    }

    /// What the kept changes take of the capacity, in bytes.
    pub fn bytes(&self) -> u64
        ensures { result ≡ kept self.now.rows self.now.horizon }
    {
        self.book.bytes()
    }

    /// The last commit that was matched.
    pub fn front(&self) -> Commit
        ensures same { result ≡ self.now.front }
        ensures within { self.now.front ≤ self.now.commits }
    {
        self.front
    }

    /// The number of commits.
    pub fn commits(&self) -> Commit
        ensures { result ≡ self.now.commits }
    {
        self.book.count()
    }

    /// Whether a key is in the record: it has an unexpired copy that is outdated.
    pub fn holds(&self, key: &Key) -> bool
        ensures { (s : State) → IsAt self.now s → result ≡ is_recorded s key.now }
    {
        self.copies.is_invalidated(key)
    }

    /// The greatest number of bytes that may be kept.
    pub fn capacity(&self) -> u64
        ensures { result ≡ self.now.setting.capacity }
    {
        self.copies.config().capacity()
    }

    /// The configuration.
    pub fn config(&self) -> &Config
        ensures { result.now ≡ self.now.setting }
    {
        self.copies.config()
    }

    /// What the documents of the last commit take of the capacity, in bytes.
    pub fn live(&self) -> u64
        ensures { result ≡ kept self.now.rows (length self.now.rows) }
    {
        self.book.live()
    }

    /// The number of active keys.
    pub fn active_count(&self) -> u32
        ensures { (s : State) → IsAt self.now s → result ≡ length (active_keys s) }
    {
        self.copies.active_count()
    }

    /// The number of purged keys so far.
    pub fn purge_count(&self) -> u64
        ensures { result ≡ length self.now.purges }
    {
        self.life.purges.last()
    }

    /// The number of keys in the record.
    pub fn record_count(&self) -> u32
        ensures { (s : State) → IsAt self.now s → result ≡ length (record_of s) }
    {
        self.copies.invalidated_count()
    }
}

/// What the kept changes would take of the capacity with one more, in bytes.
fn bytes_with(book: &Book, change: &Change) -> u64
    requires { book.now.capacity ≤ 2 ^ 62 }
    ensures { result ≡ kept_with book.now.journal book.now.horizon change.now }
{
    // Its count shows that what is kept is within the capacity.
    let _count = book.count();
    book.bytes() + change.cost()
}

/// What the last commit has of the record that a change is of.
fn found(book: &Book, change: &Change) -> Found
    requires { book.now.horizon ≤ length book.now.journal }
    ensures { result ≡ found_of (document_at book.now.journal (length book.now.journal) change.now.collection change.now.id) }
{
    match book.document_at(book.count(), &change.collection, &change.id) {
        Some((version, _)) => Found::At(version),
        None => Found::Missing,
    }
}
