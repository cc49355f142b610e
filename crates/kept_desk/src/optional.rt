//! Commits that are kept, or not, as who runs a server says.
ghost use Rattle.std.specs.Prelude.{false};
ghost use Rattle.std.specs.Option.{option_map_or};

use crate::keeper::{Keeper, fill_with_none};
use crate::keeping::Keeping;
use crate::unfilled::Unfilled;
use hub_desk::{Change, Desk, Unkept};
use q_base::{Commit, Memory, Moment};

impl<H: Keeping> Keeping for Option<H> {
    ghost use Rattle.std.specs.Prelude.{false, option_map};
    ghost use Rattle.kept_desk.specs.Optional.{keeps_by, number_of};
    ghost use Rattle.std.specs.Option.{option_map_or};

    type Log = Option<H::Log>;

    ghost log = { λ o. option_map H.log o };

    ghost keeps = { λ o n. keeps_by H.keeps o n };

    ghost longest = { λ o. number_of H.longest o };

    ghost asks = { λ o until. keeps_by H.asks o until };

    ghost covers = { λ o until. keeps_by H.covers o until };

    ghost may_fail = { λ o. option_map_or H.may_fail o false };

    fn prepare(&mut self, change: &Change) -> Result<(), Memory> {
        match self {
            Some(hand) => hand.prepare(change),
            None => Ok(()),
        }
    }

    fn take(&mut self, commit: Commit, clock: Moment) {
        if let Some(hand) = self {
            hand.take(commit, clock);
        }
    }

    fn hear_read(&mut self, clock: Moment) {
        if let Some(hand) = self {
            hand.hear_read(clock);
        }
    }

    fn keep(&mut self, commits: Option<Commit>) -> Result<(), Unkept> {
        match self {
            Some(hand) => hand.keep(commits),
            None => Ok(()),
        }
    }
}

impl<Q: Keeper> Keeper for Option<Q> {
    type Hand = Option<Q::Hand>;

    ghost use Rattle.std.specs.Prelude.{false};
    ghost use Rattle.kept_desk.specs.Optional.{kept_with, log_of, number_of, opens_with};
    ghost use Rattle.std.specs.Option.{option_map_or};

    ghost may_fail = { λ o. option_map_or Q.may_fail o false };

    ghost kept = { λ o changes. kept_with Q.kept o changes };

    ghost moment = { λ o. number_of Q.moment o };

    ghost longest = { λ o. number_of Q.longest o };

    ghost log = { λ o. log_of Q.log o };

    ghost opens = { λ o place. opens_with Q.opens o place };

    fn guard(&self) -> u64 {
        match self {
            Some(keeper) => keeper.guard(),
            None => 0,
        }
    }

    fn fill<D: Desk>(&mut self, desk: &mut D, up_to: Moment) -> Result<(), Unfilled> {
        match self {
            Some(keeper) => keeper.fill(desk, up_to),
            None => {
                fill_with_none(desk);
                Ok(())
            }
        }
    }

    fn hand(&mut self) -> Result<Option<Q::Hand>, Memory> {
        match self {
            Some(keeper) => Ok(Some(keeper.hand()?)),
            None => Ok(None),
        }
    }
}
