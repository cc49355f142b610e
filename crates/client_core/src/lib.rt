//! What a session decides, with no memory of its own: whether a cached copy is accepted, and the floors and
//! the whitelist in a table of the caller.
#![tactic(auto)]

mod choice;
mod floors;
mod level;

pub use choice::{
    Why, commit_with, copies_without_a_cause_are_accepted, front_of, is_accepted, why_before,
    why_of, why_with,
};
pub use floors::{FloorRow, Floors, WAYS, pasts_of_few_keys_have_room};
pub use level::Level;
