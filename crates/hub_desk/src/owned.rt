//! A desk that owns its hub, and keeps the list of its entries.
ghost use Rattle.std.specs.Prelude.{◌≡◌, ◌+◌, ◌<◌, ◌≤◌, true, [], ◌∷◌, ◌++◌, length, vec_len, vec_capacity, IfOk};
ghost use Rattle.std.specs.List.{enumerate_from};
ghost use Rattle.hub_core.specs.HubState.{Represents};
ghost use Rattle.hub_model.specs.Helps.{match_between};
ghost use Rattle.hub_desk.specs.Desk.{most_entries};

use crate::desk::{Desk, Unkept};
use crate::figures::{Figures, figures_of};
use crate::laws::calls_make_entries;
use crate::trim::{Trim, target_of};
use hub_core::{Config, Hub, PageRoom};
use hub_model::laws::{
    commits_are_of_entries, front_is_within, helps_are_told_by_the_front, no_entry_is_legal,
};
use hub_model::{
    Answer, Change, Condition, Dropped, Entry, Matched, PurgeReply, Stats, Tags, Written,
};
use q_base::{Commit, Memory, Moment};
use query_normal::Key;
use std::alloc::Global;
use std::marker::Model;

/// The greatest number of entries of one call: one ahead of its own, and its own.
const MOST_ENTRIES: usize = 2;

/// A hub with the history that it represents, all of whose entries are of this desk. Contracts see
/// the configuration, the history, and the capacity for entries.
#[derive(Drop)]
pub struct Owned {
    hub: Hub,
    entries: Vec<Entry>,
}

impl Model for Owned {
    ghost use Rattle.std.specs.Prelude.{vec_capacity};
    ghost use Rattle.std.specs.Coded.{codes};
    ghost use Rattle.q_doc.specs.Code.{tree_code};
    ghost use Rattle.query_core.specs.Code.{filter_code};
    ghost use Rattle.hub_desk.specs.Desk.{OwnedView};
    ghost use Rattle.hub_core.specs.HubState.{Represents};

    ghost Value = { OwnedView };

    ghost coded = { Prim.hlevel (codes, tree_code, filter_code) };

    ghost view = { λ o. record {
      setting = o.hub.setting;
      entries = o.entries.items;
      capacity = vec_capacity o.entries;
    } };

    ghost invariant = { λ o. Represents o.hub o.entries.items };
}

impl Owned {
    /// A desk over a new hub, whose history is empty.
    pub fn new(alloc: Global, config: Config) -> Result<Owned, Memory>
        ensures setting { IfOk result (λ desk. desk.setting ≡ config) }
        ensures empty { IfOk result (λ desk. desk.entries ≡ []) }
    {
        // The law that an empty history is legal.
        no_entry_is_legal();
        let hub = Hub::new(alloc, config)?;
        Ok(Owned {
            hub,
            entries: Vec::new(alloc),
        })
    }

    /// The hub, which represents the history.
    pub fn hub(&self) -> &Hub
        ensures setting { result.now.setting ≡ self.now.setting }
        ensures represents { Represents result.now self.now.entries }
    {
        &self.hub
    }
}

/// Stores an entry in the memory that was reserved for it.
fn note(entries: &mut Vec<Entry>, entry: Entry)
    requires { vec_len entries.old < vec_capacity entries.old }
    ensures stored { entries.new.items ≡ entries.old.items ++ entry ∷ [] }
    ensures capacity { vec_capacity entries.old ≤ vec_capacity entries.new }
{
    if entries.push(entry).is_err() {
        unreachable!()
    }
}

/// Stores the match that a call made ahead of its own entry, where it moved the front.
fn note_match(entries: &mut Vec<Entry>, moment: Moment, front: Commit, later: Commit)
    requires { vec_len entries.old + 2 ≤ vec_capacity entries.old }
    ensures stored { entries.new.items ≡ entries.old.items ++ match_between moment front later }
    ensures room { vec_len entries.new < vec_capacity entries.new }
{
    if front < later {
        note(entries, Entry::Match { moment, to: later });
    }
}

impl Desk for Owned {
    type Anchor = ();

    ghost anchor = { λ _. tt };

    ghost setting = { λ o. o.setting };

    ghost seen = { λ o. o.entries };

    ghost mine = { λ o. enumerate_from 0 o.entries };

    ghost is_ready = { λ o. length o.entries + most_entries ≤ o.capacity };

    ghost may_be_unready = { true };

    ghost is_kept = { λ _. Unit {0} };

    fn ready(&mut self) -> Result<(), Memory> {
        self.entries.reserve(MOST_ENTRIES)?;
        Ok(())
    }

    fn write(
        &mut self,
        moment: Moment,
        change: Change,
        condition: Condition,
    ) -> Result<Written, Memory> {
        // The laws by which the fronts tell what helped a write, and there is a number for the next commit.
        helps_are_told_by_the_front();
        commits_are_of_entries();
        calls_make_entries();
        let front = self.hub.front();
        let written = self.hub.write(moment, &change, &condition)?;
        note_match(&mut self.entries, moment, front, self.hub.front());
        note(
            &mut self.entries,
            Entry::Write {
                moment,
                change,
                condition,
            },
        );
        Ok(written)
    }

    fn read(&mut self, moment: Moment, key: Key, tags: Tags) -> Result<Answer, Memory> {
        // The law by which a read of the last commit is not below the front.
        front_is_within();
        calls_make_entries();
        let answer = self.hub.read(moment, &key, &tags)?;
        let at = answer.commit;
        note(
            &mut self.entries,
            Entry::Read {
                moment,
                key,
                tags,
                at,
            },
        );
        Ok(answer)
    }

    fn match_all(&mut self, moment: Moment) -> Result<Matched, Memory> {
        calls_make_entries();
        let to = self.hub.commits();
        if self.hub.front() < to {
            let matched = self.hub.match_to(moment, to)?;
            note(&mut self.entries, Entry::Match { moment, to });
            Ok(matched)
        } else {
            let stats = self.hub.tick(moment);
            note(&mut self.entries, Entry::Tick { moment });
            Ok(Matched {
                front: stats.front,
                clock: stats.clock,
            })
        }
    }

    fn drop_old(&mut self, moment: Moment, trim: Trim) -> Dropped {
        calls_make_entries();
        let horizon = self.hub.horizon();
        let to = target_of(&self.hub, trim);
        if horizon < to {
            let dropped = self.hub.drop_to(moment, to);
            note(&mut self.entries, Entry::Horizon { moment, to });
            dropped
        } else {
            let stats = self.hub.tick(moment);
            note(&mut self.entries, Entry::Tick { moment });
            Dropped {
                horizon,
                clock: stats.clock,
            }
        }
    }

    fn fetch(&mut self, moment: Moment, room: &mut PageRoom) {
        calls_make_entries();
        self.hub.fetch(moment, room);
        note(&mut self.entries, Entry::Fetch { moment });
    }

    fn purges(&mut self, moment: Moment, from: u64) -> Result<PurgeReply, Memory> {
        calls_make_entries();
        let reply = self.hub.purges(moment, from)?;
        note(&mut self.entries, Entry::Purges { moment, from });
        Ok(reply)
    }

    fn tick(&mut self, moment: Moment) -> Stats {
        calls_make_entries();
        let stats = self.hub.tick(moment);
        note(&mut self.entries, Entry::Tick { moment });
        stats
    }

    fn commits(&self) -> Option<Commit> {
        Some(self.hub.commits())
    }

    fn keep(&mut self) -> Result<(), Unkept> {
        Ok(())
    }

    /// It has one owner, and no turns.
    fn figures(&mut self) -> Figures {
        figures_of(&self.hub, 0, 0)
    }
}
