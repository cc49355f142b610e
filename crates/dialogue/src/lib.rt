//! A connection as a dialogue: one item after the other is taken and answered, whoever answers.
#![tactic(auto)]

mod answers;
mod dialogue;
mod laws;
mod round_result;
mod rounds;
mod visits;

pub use answers::Answers;
pub use dialogue::hold_dialogue;
pub use laws::{bytes_determine_the_items, end_is_determined_by_the_bytes, one_end_is_determined};
pub use visits::{Pause, REQUEST_LIMIT, VisitEnd, hold_visit};
