//! What a step is to say of two windows, row by row.

use match_sets::{MatchSet, MatchStep, Notice};
use q_base::Name;
use query_core::{Row, Rows};

/// The position of the row of an id.
fn position(rows: &[Row], id: &Name) -> Option<usize> {
    for i in 0..rows.len() {
        if rows[i].0 == *id {
            return Some(i);
        }
    }
    None
}

fn notice(old: Option<usize>, new: Option<usize>) -> Notice {
    match (old, new) {
        (None, None) => Notice::Nothing,
        (None, Some(_)) => Notice::Added,
        (Some(_), None) => Notice::Removed,
        (Some(old), Some(new)) if old == new => Notice::Changed,
        _ => Notice::Moved,
    }
}

/// Whether the name is that of the only other id that the first rows have and the second do not, or
/// none where there is none.
fn has_slid(written: &Name, here: &[Row], there: &[Row], name: &Option<Name>) -> bool {
    let mut found = 0u32;
    for row in here {
        if row.0 != *written && position(there, &row.0).is_none() {
            match name {
                Some(name) if *name == row.0 => found = 1,
                _ => return false,
            }
        }
    }
    name.is_some() == (found == 1)
}

fn same_objects(old: &[Row], new: &[Row]) -> bool {
    if old.len() != new.len() {
        return false;
    }
    for i in 0..old.len().min(new.len()) {
        if old[i].0 != new[i].0 || old[i].1 != new[i].1 {
            return false;
        }
    }
    true
}

fn same_ids(old: &[Row], new: &[Row]) -> bool {
    if old.len() != new.len() {
        return false;
    }
    for i in 0..old.len().min(new.len()) {
        if old[i].0 != new[i].0 {
            return false;
        }
    }
    true
}

/// Whether the step says of the two windows what happened.
pub fn is_step(written: &Name, old: &Rows, new: &Rows, step: &MatchStep) -> bool {
    let (old, new) = (old.as_slice(), new.as_slice());
    step.notice == notice(position(old, written), position(new, written))
        && has_slid(written, new, old, &step.slid_in)
        && has_slid(written, old, new, &step.slid_out)
        && step.objects_changed != same_objects(old, new)
        && step.ids_changed != same_ids(old, new)
}

/// Whether the set shows exactly these rows, at once and one by one.
pub fn shows(set: &MatchSet, rows: &Rows) -> bool {
    let rows = rows.as_slice();
    if !same_objects(set.window(), rows) {
        return false;
    }
    let mut position = 0u32;
    for row in rows {
        match set.row(position) {
            Some(shown) if shown.0 == row.0 && shown.1 == row.1 => {}
            _ => return false,
        }
        if position == u32::MAX {
            return false;
        }
        position += 1;
    }
    set.row(position).is_none()
}
