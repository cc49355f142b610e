//! To give the log's turn back, and say which entry was made in it.
ghost use Rattle.std.specs.Prelude.{◌≡◌, [], ◌∷◌, ◌++◌};
ghost use Rattle.atomic_table.specs.Table.{rest};
ghost use Rattle.turnstile.specs.declared.view.Phase.TheVariants.{Free};
ghost use Rattle.turnstile.specs.Seats.{IsSame, IsOut, setting_of};
ghost use Rattle.turnstile.specs.Turns.{IsTurnOf, turn_seen};
ghost use Rattle.turnstile.specs.Views.{in_phase, with_entries};
ghost use Rattle.shared_log.specs.LogValues.{StandsFor, opened_of};
ghost use Rattle.shared_log.specs.Notes.{Queued, Stored};

use crate::log_value::LogValue;
use crate::noted::Noted;
use disks::Disk;
use record_log::Log;
use std::marker::Brand;
use std::snapshot::Snapshot;
use turnstile::{Made, Turn};

/// Where a call of `give` picks no entries, none were made.
impl Made<Noted> for Brand {
    ghost made = { [] };
}

/// Gives the turn back, where no entry was made.
pub(crate) fn give_unchanged<K: Disk + Drop>(turn: Turn<'_, LogValue<K>>, value: LogValue<K>)
    requires turn { IsTurnOf opened_of turn.turnstile.now turn }
    requires out { IsOut turn.seat.now }
    requires stands { StandsFor value (turn_seen turn) }
    requires setting { opened_of value ≡ setting_of opened_of turn.turnstile.now }
    ensures same { IsSame turn.entry.seat.now turn.exit.0.now }
    ensures view { turn.exit.0.now.me ≡ (in_phase Free (with_entries [] turn.entry.seat.now.me.0), rest turn.entry.seat.now.me.1) }
{
    turn.give::<Brand>(value);
}

/// Gives the turn back, where a record of this kind, clock and body was queued.
pub(crate) fn give_queued<K: Disk + Drop>(
    turn: Turn<'_, LogValue<K>>,
    value: LogValue<K>,
    kind: u8,
    clock: u64,
    body: &[u8],
)
    requires turn { IsTurnOf opened_of turn.turnstile.now turn }
    requires out { IsOut turn.seat.now }
    requires stands { StandsFor value (turn_seen turn ++ Queued (record { kind = kind; clock = clock; body = body.now }) ∷ []) }
    requires setting { opened_of value ≡ setting_of opened_of turn.turnstile.now }
    ensures same { IsSame turn.entry.seat.now turn.exit.0.now }
    ensures view { turn.exit.0.now.me ≡ (in_phase Free (with_entries (Queued (record { kind = kind; clock = clock; body = body.now }) ∷ []) turn.entry.seat.now.me.0), rest turn.entry.seat.now.me.1) }
{
    give_frame::<Brand, K>(turn, value, kind, clock, body);
}

/// The same with the entry picked: a pick is made of the arguments.
fn give_frame<M: Made<Noted>, K: Disk + Drop>(
    turn: Turn<'_, LogValue<K>>,
    value: LogValue<K>,
    kind: u8,
    clock: u64,
    body: &[u8],
)
    requires turn { IsTurnOf opened_of turn.turnstile.now turn }
    requires out { IsOut turn.seat.now }
    requires made { M.made ≡ Queued (record { kind = kind; clock = clock; body = body.now }) ∷ [] }
    requires stands { StandsFor value (turn_seen turn ++ M.made) }
    requires setting { opened_of value ≡ setting_of opened_of turn.turnstile.now }
    ensures same { IsSame turn.entry.seat.now turn.exit.0.now }
    ensures view { turn.exit.0.now.me ≡ (in_phase Free (with_entries M.made turn.entry.seat.now.me.0), rest turn.entry.seat.now.me.1) }
{
    let _made = (kind, clock, body.first().copied());
    turn.give::<M>(value);
}

/// Gives the turn back, where so many of the records that were queued are stored, in a log that shows this.
pub(crate) fn give_stored<K: Disk + Drop>(
    turn: Turn<'_, LogValue<K>>,
    value: LogValue<K>,
    frames: u64,
    log: Snapshot<Log<K>>,
)
    requires turn { IsTurnOf opened_of turn.turnstile.now turn }
    requires out { IsOut turn.seat.now }
    requires stands { StandsFor value (turn_seen turn ++ Stored frames log.value ∷ []) }
    requires setting { opened_of value ≡ setting_of opened_of turn.turnstile.now }
    ensures same { IsSame turn.entry.seat.now turn.exit.0.now }
    ensures view { turn.exit.0.now.me ≡ (in_phase Free (with_entries (Stored frames log.value ∷ []) turn.entry.seat.now.me.0), rest turn.entry.seat.now.me.1) }
{
    give_mark::<Brand, K>(turn, value, frames, log);
}

/// The same with the entry picked.
fn give_mark<M: Made<Noted>, K: Disk + Drop>(
    turn: Turn<'_, LogValue<K>>,
    value: LogValue<K>,
    frames: u64,
    log: Snapshot<Log<K>>,
)
    requires turn { IsTurnOf opened_of turn.turnstile.now turn }
    requires out { IsOut turn.seat.now }
    requires made { M.made ≡ Stored frames log.value ∷ [] }
    requires stands { StandsFor value (turn_seen turn ++ M.made) }
    requires setting { opened_of value ≡ setting_of opened_of turn.turnstile.now }
    ensures same { IsSame turn.entry.seat.now turn.exit.0.now }
    ensures view { turn.exit.0.now.me ≡ (in_phase Free (with_entries M.made turn.entry.seat.now.me.0), rest turn.entry.seat.now.me.1) }
{
    let _made = (frames, log);
    turn.give::<M>(value);
}
