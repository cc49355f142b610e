//! The unexpired issued copies of keys, and the idle keys, of which no copy is left.
#![tactic(auto)]

mod expiries;
mod held;
mod key_copies;
mod laws;
mod maxima;
mod sorted_copies;

pub use expiries::Expiries;
pub use laws::{
    calls_leave_the_unexpired_copies, same_copies_answer_alike, same_copies_by_commit,
    same_copies_stay,
};
