//! A hub as the value of a turnstile.
ghost use Rattle.std.specs.Prelude.{◌≡◌, ◌+◌, ◌<◌, ◌≤◌, ◌^◌, [], List, length, true, nat_lt, if◌then◌else◌, IfOk, OnErr};
ghost use Rattle.hub_core.specs.PageRoom.{IsRoomFor};
ghost use Rattle.hub_model.specs.declared.entry.Entry.{Entry as AnEntry};
ghost use Rattle.hub_model.specs.declared.entry.Entry.TheVariants.{Write, Read, Match, Purges, Tick, Horizon};
ghost use Rattle.hub_model.specs.Reply.{wrote, read, matched, purged, counted, dropped, told_of};
ghost use Rattle.hub_model.specs.Step.{is_accepted, state_of};
ghost use Rattle.hub_desk.specs.Figures.{AreFiguresOf};
ghost use Rattle.hub_desk.specs.HubValue.{hub_setting, StandsFor, StandsStill, Adds, AddsPage};

use crate::figures::{Figures, figures_of};
use crate::laws::calls_make_entries;
use crate::trim::{Trim, is_far_behind};
use crate::turn_time::TurnTime;
use hub_core::{Config, Hub, PageRoom, hubs_represent_histories};
use hub_model::laws::{front_is_within, helps_are_told_by_the_front};
use hub_model::{
    Answer, Change, Condition, Dropped, Entry, Matched, PurgeReply, Stats, Tags, Written,
};
use q_base::{Commit, Memory, Moment};
use query_normal::Key;
use std::alloc::Global;
use std::marker::Model;
use turnstile::Stands;

/// What clauses see of an entry at a turnstile: the entry itself. No value of it is made.
#[derive(Drop)]
pub struct Noted {
    entry: Entry,
}

impl Model for Noted {
    ghost use Rattle.std.specs.Coded.{codes};
    ghost use Rattle.q_doc.specs.Code.{tree_code};
    ghost use Rattle.query_core.specs.Code.{filter_code};
    ghost use Rattle.hub_model.specs.declared.entry.Entry.{Entry};

    ghost Value = { Entry };

    ghost coded = { Prim.hlevel (codes, tree_code, filter_code) };

    ghost view = { λ n. n.entry };
}

/// How long a window of turns is, in microseconds: a minute.
const WINDOW: u64 = 60_000_000;

/// A hub, and how many entries the history has that it represents. The hub is on the heap, so that a
/// turn moves a few words. How many turns were taken, how long they were, and when writers rest, no clause
/// reads.
#[derive(Drop)]
pub struct HubValue {
    hub: Box<Hub, Global>,
    count: u64,
    /// The trim by which old changes are dropped, where writers rest while that is far behind.
    pace: Option<Trim>,
    /// How many turns were taken.
    turns: u64,
    /// Whether they are timed: from the first time on that the figures are asked for.
    is_timed: bool,
    /// The number of the window in which the last of them ended.
    window: u64,
    /// The longest of them in that window, in microseconds.
    longest: u64,
    /// The longest of them in the window before.
    longest_before: u64,
}

impl Model for HubValue {
    ghost use Rattle.std.specs.Coded.{codes};
    ghost use Rattle.q_doc.specs.Code.{tree_code};
    ghost use Rattle.query_core.specs.Code.{filter_code};
    ghost use Rattle.hub_desk.specs.HubValue.{HubValueView};

    ghost Value = { HubValueView };

    ghost coded = { Prim.hlevel (codes, tree_code, filter_code) };

    ghost view = { λ v. record {
      hub = v.hub.value;
      count = v.count;
    } };
}

impl Stands for HubValue {
    ghost use Rattle.hub_model.specs.Legal.{IsLegal};
    ghost use Rattle.hub_desk.specs.HubValue.{hub_setting, StandsFor};

    type Entry = Noted;

    type Setting = Config;

    ghost setting = { hub_setting };

    ghost legal = { IsLegal };

    ghost stands = { StandsFor };

    ghost is_legal = { λ value history stands. stands.represents.legal };

    fn entries(&self) -> u64 {
        self.count
    }
}

impl HubValue {
    /// A new hub, which represents no entry.
    pub fn new(alloc: Global, config: Config) -> Result<HubValue, Memory>
        ensures setting { IfOk result (λ value. hub_setting value ≡ config) }
        ensures stands { IfOk result (λ value. StandsFor value []) }
    {
        // The law of a hub that represents no entry.
        hubs_represent_histories();
        let hub = Box::new(alloc, Hub::new(alloc, config)?)?;
        Ok(HubValue {
            hub,
            count: 0,
            pace: None,
            turns: 0,
            is_timed: false,
            window: 0,
            longest: 0,
            longest_before: 0,
        })
    }

    /// The same value, whose writers rest while the dropping by this trim is far behind.
    pub fn paced(self, trim: Trim) -> HubValue
        ensures { result ≡ self }
    {
        HubValue {
            pace: Some(trim),
            ..self
        }
    }

    /// Whether a writer should rest before its next turn, where it rests at all.
    pub(crate) fn is_behind(&self, is_paced: bool) -> bool {
        match self.pace {
            Some(trim) if is_paced => is_far_behind(self.hub(), trim),
            _ => false,
        }
    }

    /// The hub.
    pub fn hub(&self) -> &Hub
        ensures { result.now ≡ self.now.hub }
    {
        &self.hub
    }

    /// Whether turns are timed.
    pub(crate) fn is_timed(&self) -> bool {
        self.is_timed
    }

    /// The figures of the hub and of the turns, which are timed from then on.
    pub(crate) fn figures(&mut self) -> Figures
        ensures figures { (history : List AnEntry) → StandsFor self.old history → AreFiguresOf (hub_setting self.old) (state_of (hub_setting self.old) history) result }
        ensures same { self.new ≡ self.old }
    {
        let longest = self.longest.max(self.longest_before);
        let figures = figures_of(self.hub(), self.turns, longest);
        self.is_timed = true;
        figures
    }

    /// Notes how long a turn was that ends.
    pub(crate) fn note_turn(&mut self, time: TurnTime)
        ensures { self.new ≡ self.old }
    {
        self.turns = self.turns.saturating_add(1);
        if time.ended == 0 {
            return;
        }
        let window = time.ended / WINDOW;
        if window != self.window {
            let is_next = window == self.window.saturating_add(1);
            self.longest_before = if is_next { self.longest } else { 0 };
            self.longest = 0;
            self.window = window;
        }
        self.longest = self.longest.max(time.lasted());
    }

    /// Writes, as one entry behind those that have to come ahead of it. There are no more commits than
    /// entries.
    pub(crate) fn write(
        &mut self,
        moment: Moment,
        change: &Change,
        condition: &Condition,
    ) -> Result<Written, Memory>
        requires count { self.old.count + 2 < 2 ^ 64 }
        requires commits { self.old.hub.commits ≤ self.old.count }
        ensures made { IfOk result (λ w. Adds self.old self.new (Write moment change.now condition.now) (wrote w)) }
        ensures accepted { OnErr result ((history : List AnEntry) → StandsFor self.old history → is_accepted (hub_setting self.old) (state_of (hub_setting self.old) history) change.now condition.now ≡ true) }
        ensures memory { OnErr result (StandsStill self.old self.new) }
        ensures setting { hub_setting self.new ≡ hub_setting self.old }
    {
        // The law by which the fronts tell what helped a write.
        helps_are_told_by_the_front();
        calls_make_entries();
        let front = self.hub.front();
        let written = self.hub.write(moment, change, condition)?;
        self.count += written_entries(front, self.hub.front());
        Ok(written)
    }

    /// Reads at the last commit, as one entry.
    pub(crate) fn read(&mut self, moment: Moment, key: &Key, tags: &Tags) -> Result<Answer, Memory>
        requires { self.old.count + 1 < 2 ^ 64 }
        ensures made { IfOk result (λ a. Adds self.old self.new (Read moment key.now tags.now a.commit) (read a)) }
        ensures last { IfOk result (λ a. (history : List AnEntry) → StandsFor self.old history → a.commit ≡ length (state_of (hub_setting self.old) history).journal) }
        ensures memory { OnErr result (StandsStill self.old self.new) }
        ensures setting { hub_setting self.new ≡ hub_setting self.old }
    {
        // The law by which a read of the last commit is not below the front.
        front_is_within();
        calls_make_entries();
        let answer = self.hub.read(moment, key, tags)?;
        self.count += 1;
        Ok(answer)
    }

    /// Matches the commits up to one, as one entry.
    pub(crate) fn match_to(&mut self, moment: Moment, to: Commit) -> Result<Matched, Memory>
        requires count { self.old.count + 1 < 2 ^ 64 }
        requires above { self.old.hub.front < to }
        requires within { to ≤ self.old.hub.commits }
        ensures made { IfOk result (λ m. Adds self.old self.new (Match moment to) (matched m)) }
        ensures memory { OnErr result (StandsStill self.old self.new) }
        ensures setting { hub_setting self.new ≡ hub_setting self.old }
    {
        calls_make_entries();
        let matched = self.hub.match_to(moment, to)?;
        self.count += 1;
        Ok(matched)
    }

    /// Drops the old changes up to a commit, as one entry. It takes no memory.
    pub(crate) fn drop_to(&mut self, moment: Moment, to: Commit) -> Dropped
        requires count { self.old.count + 1 < 2 ^ 64 }
        requires above { self.old.hub.horizon < to }
        requires within { to ≤ self.old.hub.front }
        ensures made { Adds self.old self.new (Horizon moment to) (dropped result) }
        ensures setting { hub_setting self.new ≡ hub_setting self.old }
    {
        calls_make_entries();
        let dropped = self.hub.drop_to(moment, to);
        self.count += 1;
        dropped
    }

    /// Writes the page into the buffer, as one entry. It takes no memory.
    pub(crate) fn fetch(&mut self, moment: Moment, room: &mut PageRoom)
        requires count { self.old.count + 1 < 2 ^ 64 }
        requires room { IsRoomFor (hub_setting self.old) room.old }
        ensures made { AddsPage self.old self.new moment room.new }
        ensures room { IsRoomFor (hub_setting self.old) room.new }
        ensures setting { hub_setting self.new ≡ hub_setting self.old }
    {
        calls_make_entries();
        self.hub.fetch(moment, room);
        self.count += 1;
    }

    /// Tells the purged keys from a number on, as one entry.
    pub(crate) fn purges(&mut self, moment: Moment, from: u64) -> Result<PurgeReply, Memory>
        requires { self.old.count + 1 < 2 ^ 64 }
        ensures made { IfOk result (λ p. Adds self.old self.new (Purges moment from) (purged (told_of p))) }
        ensures memory { OnErr result (self.new ≡ self.old) }
        ensures setting { hub_setting self.new ≡ hub_setting self.old }
    {
        calls_make_entries();
        let reply = self.hub.purges(moment, from)?;
        self.count += 1;
        Ok(reply)
    }

    /// Lets time pass, as one entry. It takes no memory.
    pub(crate) fn tick(&mut self, moment: Moment) -> Stats
        requires { self.old.count + 1 < 2 ^ 64 }
        ensures made { Adds self.old self.new (Tick moment) (counted result) }
        ensures setting { hub_setting self.new ≡ hub_setting self.old }
    {
        calls_make_entries();
        let stats = self.hub.tick(moment);
        self.count += 1;
        stats
    }
}

/// The number of entries of a write that finds one front and leaves another: a match that moved it, and
/// the write.
fn written_entries(front: Commit, later: Commit) -> u64
    ensures { result ≡ (if nat_lt front later then 2 else 1) }
{
    if front < later { 2 } else { 1 }
}
