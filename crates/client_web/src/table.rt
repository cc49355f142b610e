//! What a session has seen: its floors and its whitelist, in rows of the host.
ghost use Rattle.std.specs.Prelude.{◌≡◌, ◌∷◌, [], List};
ghost use Rattle.flat_snapshot.specs.declared.sight.KeyMark.{KeyMark as AMark};
ghost use Rattle.client_core.specs.declared.floors.FloorRow.{FloorRow as ARow};
ghost use Rattle.client_core.specs.Floor.{Event, wrote, read, listed, paged};
ghost use Rattle.client_core.specs.Table.{HasPast};

use client_core::{FloorRow, Floors};
use flat_snapshot::KeyMark;
use q_base::Commit;

/// Begins a session that has done nothing yet. The rows are cleared, whatever they held.
#[unsafe(no_mangle)]
pub extern "C" fn client_web_new(floors: &mut Floors, rows: &mut [FloorRow])
    ensures { HasPast floors.new rows.new [] }
{
    *floors = Floors::new(rows);
}

/// A write of the session was accepted as this commit.
#[unsafe(no_mangle)]
pub extern "C" fn client_web_note_write(floors: &mut Floors, commit: Commit)
    ensures { (rows : List ARow) (past : List (Event AMark)) → HasPast floors.old rows past → HasPast floors.new rows (wrote commit ∷ past) }
{
    floors.note_write(commit);
}

/// The key of a mark was read at this commit.
#[unsafe(no_mangle)]
pub extern "C" fn client_web_note_read(
    floors: &mut Floors,
    rows: &mut [FloorRow],
    mark: &KeyMark,
    commit: Commit,
)
    ensures { (past : List (Event AMark)) → HasPast floors.old rows.old past → HasPast floors.new rows.new (read mark.now commit ∷ past) }
{
    note_read(floors, rows, *mark, commit);
}

/// The flagged key of a mark was asked for again.
#[unsafe(no_mangle)]
pub extern "C" fn client_web_list(floors: &mut Floors, rows: &mut [FloorRow], mark: &KeyMark)
    ensures { (past : List (Event AMark)) → HasPast floors.old rows.old past → HasPast floors.new rows.new (listed mark.now ∷ past) }
{
    list(floors, rows, *mark);
}

/// A newer page is held.
#[unsafe(no_mangle)]
pub extern "C" fn client_web_new_page(floors: &mut Floors, rows: &mut [FloorRow])
    ensures { (past : List (Event AMark)) → HasPast floors.old rows.old past → HasPast floors.new rows.new (paged ∷ past) }
{
    floors.new_page(rows);
}

/// The key of a mark was read at this commit.
pub fn note_read(floors: &mut Floors, rows: &mut [FloorRow], mark: KeyMark, commit: Commit)
    ensures { (past : List (Event AMark)) → HasPast floors.old rows.old past → HasPast floors.new rows.new (read mark commit ∷ past) }
{
    floors.note_read(rows, mark, commit);
}

/// The flagged key of a mark was asked for again.
pub fn list(floors: &mut Floors, rows: &mut [FloorRow], mark: KeyMark)
    ensures { (past : List (Event AMark)) → HasPast floors.old rows.old past → HasPast floors.new rows.new (listed mark ∷ past) }
{
    floors.list(rows, mark);
}

/// The number of bytes of a row, so that a host lays out its rows right.
#[unsafe(no_mangle)]
pub extern "C" fn client_web_row_bytes() -> usize {
    size_of::<FloorRow>()
}
