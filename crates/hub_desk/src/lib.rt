//! The store as a connection sees it: calls that make entries of one history.
#![tactic(auto)]

mod desk;
mod figures;
mod hub_value;
mod laws;
mod owned;
mod seated;
mod trim;
mod turn_time;

pub use desk::{Desk, Unkept};
pub use figures::Figures;
pub use hub_core::{Config, ConfigRefusal, Hub, PageRoom};
pub use hub_model::{
    Answer, Change, Condition, Dropped, Entry, Found, Matched, Outcome, PurgeReply, Stats, Tags,
    Written,
};
pub use hub_value::{HubValue, Noted};
pub use laws::all_is_dropped_up_to_the_front;
pub use owned::Owned;
pub use seated::Seated;
pub use trim::Trim;
pub use turnstile::{Seat, Turnstile};
