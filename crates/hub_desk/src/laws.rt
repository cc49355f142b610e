//! What calls make of a hub and of the history that it represents, as laws: these functions do nothing.
ghost use Rattle.std.specs.Prelude.{ℕ, List};
ghost use Rattle.hub_model.specs.declared.entry.Dropped.{Dropped as ADropped};
ghost use Rattle.hub_model.specs.declared.entry.Entry.{Entry as AnEntry};
ghost use Rattle.hub_model.specs.Setting.{Setting};
ghost use Rattle.hub_desk.specs.declared.trim.Trim.TheVariants.{All};
ghost use Rattle.hub_desk.specs.Calls.{EntriesAreRepresented, RepliesAreBehind};
ghost use Rattle.hub_desk.specs.Desk.{DropsOld, IsWholeDropOf};

use hub_model::laws::{
    beginnings_are_legal, helped_writes_may_follow, horizon_is_within, more_entries,
};

/// A hub represents its history with the entries of a call, where the state before them admits the
/// call's own entry. The reply to that entry is the one behind those that come ahead of it.
pub(crate) fn calls_make_entries()
    ensures represented { EntriesAreRepresented }
    ensures replies { RepliesAreBehind }
{
    helped_writes_may_follow();
    more_entries();
}

/// A desk that drops all old changes tells the front as the horizon where it makes a tick: the horizon
/// is there.
pub fn all_is_dropped_up_to_the_front()
    ensures { (g : Setting) (old new : List AnEntry) (mine_old mine_new : List (ℕ × AnEntry)) (moment : ℕ) (told : ADropped) → (d : DropsOld g old new mine_old mine_new moment All told) → IsWholeDropOf d.replied told }
{
    beginnings_are_legal();
    horizon_is_within();
}
