//! The calls of a desk, each in one turn.
ghost use Rattle.std.specs.Prelude.{◌≡◌, false};
ghost use Rattle.turnstile.specs.Seats.{seen, mine, setting_of};
ghost use Rattle.hub_desk.specs.HubValue.{hub_setting};
ghost use Rattle.hub_desk.specs.Seated.{turnstile_of, seat_of, anchor_of};

use super::gives::{give_unchanged, give_with};
use super::{Seated, rest};
use crate::desk::{Desk, Unkept};
use crate::figures::Figures;
use crate::hub_value::{HubValue, Noted};
use crate::trim::{Trim, target_of};
use crate::turn_time::TurnTime;
use hub_core::PageRoom;
use hub_model::laws::{commits_are_of_entries, longer_histories_are_later};
use hub_model::{
    Answer, Change, Condition, Dropped, Entry, Matched, PurgeReply, Stats, Tags, Written,
};
use q_base::{Commit, Memory, Moment};
use query_normal::Key;
use std::collections::LinkedList;
use std::rt::Clock;
use std::sync::Wait;
use turnstile::Turnstile;

impl<R: Wait + Clock> Desk for Seated<'_, R> {
    /// The turnstile, and of the seat its number, the entries that it met, how many seats were split
    /// off it, what was seen at its joins, and the levels of the seats that it is made of and of those
    /// that were split off these.
    type Anchor = (
        Turnstile<HubValue>,
        (
            u64,
            (
                LinkedList<(u64, Noted)>,
                (
                    u64,
                    (
                        LinkedList<LinkedList<Noted>>,
                        (LinkedList<u64>, LinkedList<u64>),
                    ),
                ),
            ),
        ),
    );

    ghost anchor = { anchor_of };

    ghost setting = { λ desk. setting_of hub_setting (turnstile_of desk) };

    ghost seen = { λ desk. seen (seat_of desk) };

    ghost mine = { λ desk. mine (seat_of desk) };

    ghost is_ready = { λ _. Unit {0} };

    ghost may_be_unready = { false };

    ghost is_kept = { λ _. Unit {0} };

    fn ready(&mut self) -> Result<(), Memory> {
        Ok(())
    }

    fn write(
        &mut self,
        moment: Moment,
        change: Change,
        condition: Condition,
    ) -> Result<Written, Memory> {
        // The law by which there is a number for the next commit.
        commits_are_of_entries();
        if self.is_behind {
            rest(self.rt);
        }
        let mut turn = self.turnstile.take(self.rt, &mut self.seat);
        let mut value = turn.value();
        let time = TurnTime::begin(self.rt, value.is_timed());
        match value.write(moment, &change, &condition) {
            Ok(written) => {
                let entry = Entry::Write {
                    moment,
                    change,
                    condition,
                };
                let is_behind = value.is_behind(self.is_paced);
                self.commits = Some(give_with(turn, value, entry, time.end(self.rt)));
                self.is_behind = is_behind;
                Ok(written)
            }
            Err(Memory) => {
                self.commits = Some(give_unchanged(turn, value, time.end(self.rt)));
                Err(Memory)
            }
        }
    }

    fn read(&mut self, moment: Moment, key: Key, tags: Tags) -> Result<Answer, Memory> {
        // The law by which no commit that was known before is above the last one.
        longer_histories_are_later();
        let mut turn = self.turnstile.take(self.rt, &mut self.seat);
        let mut value = turn.value();
        let time = TurnTime::begin(self.rt, value.is_timed());
        match value.read(moment, &key, &tags) {
            Ok(answer) => {
                let at = answer.commit;
                let entry = Entry::Read {
                    moment,
                    key,
                    tags,
                    at,
                };
                self.commits = Some(give_with(turn, value, entry, time.end(self.rt)));
                Ok(answer)
            }
            Err(Memory) => {
                self.commits = Some(give_unchanged(turn, value, time.end(self.rt)));
                Err(Memory)
            }
        }
    }

    fn match_all(&mut self, moment: Moment) -> Result<Matched, Memory> {
        let mut turn = self.turnstile.take(self.rt, &mut self.seat);
        let mut value = turn.value();
        let time = TurnTime::begin(self.rt, value.is_timed());
        let to = value.hub().commits();
        if value.hub().front() < to {
            match value.match_to(moment, to) {
                Ok(matched) => {
                    self.commits = Some(give_with(
                        turn,
                        value,
                        Entry::Match { moment, to },
                        time.end(self.rt),
                    ));
                    Ok(matched)
                }
                Err(Memory) => {
                    self.commits = Some(give_unchanged(turn, value, time.end(self.rt)));
                    Err(Memory)
                }
            }
        } else {
            let stats = value.tick(moment);
            self.commits = Some(give_with(turn, value, Entry::Tick { moment }, time.end(self.rt)));
            Ok(Matched {
                front: stats.front,
                clock: stats.clock,
            })
        }
    }

    fn drop_old(&mut self, moment: Moment, trim: Trim) -> Dropped {
        let mut turn = self.turnstile.take(self.rt, &mut self.seat);
        let mut value = turn.value();
        let time = TurnTime::begin(self.rt, value.is_timed());
        let horizon = value.hub().horizon();
        let to = target_of(value.hub(), trim);
        if horizon < to {
            let dropped = value.drop_to(moment, to);
            self.commits = Some(give_with(
                turn,
                value,
                Entry::Horizon { moment, to },
                time.end(self.rt),
            ));
            dropped
        } else {
            let stats = value.tick(moment);
            self.commits = Some(give_with(turn, value, Entry::Tick { moment }, time.end(self.rt)));
            Dropped {
                horizon,
                clock: stats.clock,
            }
        }
    }

    fn fetch(&mut self, moment: Moment, room: &mut PageRoom) {
        let mut turn = self.turnstile.take(self.rt, &mut self.seat);
        let mut value = turn.value();
        let time = TurnTime::begin(self.rt, value.is_timed());
        value.fetch(moment, room);
        self.commits = Some(give_with(turn, value, Entry::Fetch { moment }, time.end(self.rt)));
    }

    fn purges(&mut self, moment: Moment, from: u64) -> Result<PurgeReply, Memory> {
        let mut turn = self.turnstile.take(self.rt, &mut self.seat);
        let mut value = turn.value();
        let time = TurnTime::begin(self.rt, value.is_timed());
        match value.purges(moment, from) {
            Ok(reply) => {
                self.commits = Some(give_with(
                    turn,
                    value,
                    Entry::Purges { moment, from },
                    time.end(self.rt),
                ));
                Ok(reply)
            }
            Err(Memory) => {
                self.commits = Some(give_unchanged(turn, value, time.end(self.rt)));
                Err(Memory)
            }
        }
    }

    fn tick(&mut self, moment: Moment) -> Stats {
        let mut turn = self.turnstile.take(self.rt, &mut self.seat);
        let mut value = turn.value();
        let time = TurnTime::begin(self.rt, value.is_timed());
        let stats = value.tick(moment);
        self.commits = Some(give_with(turn, value, Entry::Tick { moment }, time.end(self.rt)));
        stats
    }

    fn commits(&self) -> Option<Commit> {
        self.commits
    }

    fn keep(&mut self) -> Result<(), Unkept> {
        Ok(())
    }

    fn figures(&mut self) -> Figures {
        let mut turn = self.turnstile.take(self.rt, &mut self.seat);
        let mut value = turn.value();
        let time = TurnTime::begin(self.rt, value.is_timed());
        let figures = value.figures();
        self.commits = Some(give_unchanged(turn, value, time.end(self.rt)));
        figures
    }
}
