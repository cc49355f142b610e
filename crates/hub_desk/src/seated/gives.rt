//! To give the turn back, and say which entries were made in it.
ghost use Rattle.std.specs.Prelude.{◌≡◌, [], ◌++◌, length};
ghost use Rattle.hub_model.specs.Step.{state_of};
ghost use Rattle.atomic_table.specs.Table.{rest};
ghost use Rattle.turnstile.specs.declared.view.Phase.TheVariants.{Free};
ghost use Rattle.turnstile.specs.Seats.{IsSame, IsOut, setting_of};
ghost use Rattle.turnstile.specs.Turns.{IsTurnOf, turn_seen};
ghost use Rattle.turnstile.specs.Views.{in_phase, with_entries};
ghost use Rattle.hub_desk.specs.HubValue.{hub_setting, entries_for, StandsFor};

use crate::hub_value::{HubValue, Noted};
use crate::turn_time::TurnTime;
use hub_model::Entry;
use q_base::Commit;
use std::marker::Brand;
use turnstile::{Made, Turn};

/// Where a call of `give` picks no entries, none were made.
impl Made<Noted> for Brand {
    ghost made = { [] };
}

/// Gives the turn back with the value, where no entry was made, and returns the number of commits.
pub(super) fn give_unchanged(
    turn: Turn<'_, HubValue>,
    mut value: HubValue,
    time: TurnTime,
) -> Commit
    requires turn { IsTurnOf hub_setting turn.turnstile.now turn }
    requires out { IsOut turn.seat.now }
    requires stands { StandsFor value (turn_seen turn) }
    requires setting { hub_setting value ≡ setting_of hub_setting turn.turnstile.now }
    ensures commits { result ≡ length (state_of (setting_of hub_setting turn.entry.turnstile.now) (turn_seen turn.entry)).journal }
    ensures same { IsSame turn.entry.seat.now turn.exit.0.now }
    ensures view { turn.exit.0.now.me ≡ (in_phase Free (with_entries [] turn.entry.seat.now.me.0), rest turn.entry.seat.now.me.1) }
{
    value.note_turn(time);
    let commits = value.hub().commits();
    turn.give::<Brand>(value);
    commits
}

/// Gives the turn back with the value, where the entries of a call for this one were made, and returns the
/// number of commits.
pub(super) fn give_with(
    turn: Turn<'_, HubValue>,
    mut value: HubValue,
    entry: Entry,
    time: TurnTime,
) -> Commit
    requires turn { IsTurnOf hub_setting turn.turnstile.now turn }
    requires out { IsOut turn.seat.now }
    requires stands { StandsFor value (turn_seen turn ++ entries_for (setting_of hub_setting turn.turnstile.now) (turn_seen turn) entry) }
    requires setting { hub_setting value ≡ setting_of hub_setting turn.turnstile.now }
    ensures commits { result ≡ length (state_of (setting_of hub_setting turn.entry.turnstile.now) (turn_seen turn.entry ++ entries_for (setting_of hub_setting turn.entry.turnstile.now) (turn_seen turn.entry) entry)).journal }
    ensures same { IsSame turn.entry.seat.now turn.exit.0.now }
    ensures view { turn.exit.0.now.me ≡ (in_phase Free (with_entries (entries_for (setting_of hub_setting turn.entry.turnstile.now) (turn_seen turn.entry) entry) turn.entry.seat.now.me.0), rest turn.entry.seat.now.me.1) }
{
    value.note_turn(time);
    let commits = value.hub().commits();
    give_made::<Brand>(turn, value, entry);
    commits
}

/// The same with the entries picked: a pick is made of the arguments, so the entry is one.
fn give_made<M: Made<Noted>>(turn: Turn<'_, HubValue>, value: HubValue, entry: Entry)
    requires turn { IsTurnOf hub_setting turn.turnstile.now turn }
    requires out { IsOut turn.seat.now }
    requires made { M.made ≡ entries_for (setting_of hub_setting turn.turnstile.now) (turn_seen turn) entry }
    requires stands { StandsFor value (turn_seen turn ++ M.made) }
    requires setting { hub_setting value ≡ setting_of hub_setting turn.turnstile.now }
    ensures same { IsSame turn.entry.seat.now turn.exit.0.now }
    ensures view { turn.exit.0.now.me ≡ (in_phase Free (with_entries M.made turn.entry.seat.now.me.0), rest turn.entry.seat.now.me.1) }
{
    let _made = entry;
    turn.give::<M>(value);
}
