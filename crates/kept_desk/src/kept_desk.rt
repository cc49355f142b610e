//! A desk whose commits are kept.
//!
//! Each call is that of the desk below, and makes the same entry: *entry first, reply last*. The record of
//! a change is made before the write, so that want of memory leaves all as it was, and is handed on once
//! the write was accepted. `keep` then waits until all commits that the desk has seen are kept, and a moment
//! behind the end of each copy of a reply that its hand heard of. So a reply that is given behind it shows no
//! commit that a crash could take back, whoever made it, and a store that is opened behind a crash knows
//! until when copies of the reply may be kept.
ghost use Rattle.std.specs.Prelude.{◌≡◌, ℕ, true, length};
ghost use Rattle.hub_model.specs.Step.{state_of};

use crate::keeping::Keeping;
use hub_core::PageRoom;
use hub_desk::{
    Answer, Change, Condition, Desk, Dropped, Figures, Matched, PurgeReply, Stats, Tags, Trim,
    Unkept, Written,
};
use q_base::{Commit, Memory, Moment};
use query_normal::Key;

/// A desk, and who keeps its commits.
#[derive(Drop)]
pub struct KeptDesk<D: Desk + Drop, H: Keeping + Drop> {
    desk: D,
    hand: H,
    ghost told: { H.may_fail hand ≡ true → (D.setting desk).keeps ≡ true },
}

impl<D: Desk + Drop, H: Keeping + Drop> KeptDesk<D, H> {
    /// The desk, whose commits are kept by this one.
    pub fn new(desk: D, hand: H) -> KeptDesk<D, H>
        requires { H.may_fail hand ≡ true → (D.setting desk).keeps ≡ true }
        ensures desk { result.desk ≡ desk }
        ensures hand { result.hand ≡ hand }
    {
        KeptDesk { desk, hand }
    }

    /// Both again.
    pub fn into_parts(self) -> (D, H)
        ensures desk { result.0 ≡ self.desk }
        ensures hand { result.1 ≡ self.hand }
    {
        (self.desk, self.hand)
    }
}

impl<D: Desk + Drop, H: Keeping + Drop> Desk for KeptDesk<D, H> {
    type Anchor = (D::Anchor, H::Log);

    ghost anchor = { λ k. (D.anchor k.desk, H.log k.hand) };

    ghost setting = { λ k. D.setting k.desk };

    ghost seen = { λ k. D.seen k.desk };

    ghost mine = { λ k. D.mine k.desk };

    ghost is_ready = { λ k. D.is_ready k.desk };

    ghost may_be_unready = { D.may_be_unready };

    ghost is_kept = { λ k. H.keeps k.hand (length (state_of (D.setting k.desk) (D.seen k.desk)).journal) × ((until : ℕ) → H.asks k.hand until → H.covers k.hand until) };

    fn ready(&mut self) -> Result<(), Memory> {
        self.desk.ready()
    }

    fn write(
        &mut self,
        moment: Moment,
        change: Change,
        condition: Condition,
    ) -> Result<Written, Memory> {
        match self.hand.prepare(&change) {
            Ok(()) => {}
            Err(_) => return Err(Memory),
        }
        match self.desk.write(moment, change, condition) {
            Ok(written) => {
                if let Written::Done { commit, clock, .. } = written {
                    self.hand.take(commit, clock);
                }
                Ok(written)
            }
            Err(_) => Err(Memory),
        }
    }

    fn read(&mut self, moment: Moment, key: Key, tags: Tags) -> Result<Answer, Memory> {
        match self.desk.read(moment, key, tags) {
            Ok(answer) => {
                self.hand.hear_read(answer.clock);
                Ok(answer)
            }
            Err(_) => Err(Memory),
        }
    }

    fn match_all(&mut self, moment: Moment) -> Result<Matched, Memory> {
        self.desk.match_all(moment)
    }

    fn drop_old(&mut self, moment: Moment, trim: Trim) -> Dropped {
        self.desk.drop_old(moment, trim)
    }

    fn fetch(&mut self, moment: Moment, room: &mut PageRoom) {
        self.desk.fetch(moment, room);
    }

    fn purges(&mut self, moment: Moment, from: u64) -> Result<PurgeReply, Memory> {
        self.desk.purges(moment, from)
    }

    fn tick(&mut self, moment: Moment) -> Stats {
        self.desk.tick(moment)
    }

    fn commits(&self) -> Option<Commit> {
        self.desk.commits()
    }

    fn keep(&mut self) -> Result<(), Unkept> {
        let commits = self.desk.commits();
        self.hand.keep(commits)
    }

    fn figures(&mut self) -> Figures {
        self.desk.figures()
    }
}
