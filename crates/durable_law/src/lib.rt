//! Laws that join a store on a disk with a later one on the same disk: what the later one opened with, and
//! until when copies of the earlier one are kept.
#![tactic(auto)]

mod laws;

pub use laws::{
    later_stores_follow, stores_behind_a_call_follow, stores_behind_a_crash_follow,
    stores_behind_openings_follow, what_a_crash_leaves_goes_on,
};
