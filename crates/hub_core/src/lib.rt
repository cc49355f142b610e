//! The hub: it represents a history, and answers each entry as the definitions do.
#![tactic(auto)]

mod absents;
mod config;
mod copies;
mod hub;
mod invalidations;
mod laws;
mod lifetimes;
mod matching;
mod page_room;
mod passing;
mod purging;
mod query_outcome;
mod reading;

pub use config::{Config, ConfigRefusal};
pub use hub::Hub;
pub use laws::hubs_represent_histories;
pub use page_room::PageRoom;
