//! A connection over a document store: each request is answered by one entry of one legal history.
#![tactic(auto)]

mod answer;
mod connection;
mod laws;
mod responder;
mod visits;

pub use connection::{Room, serve_connection};
pub use dialogue::{
    REQUEST_LIMIT, bytes_determine_the_items, end_is_determined_by_the_bytes, one_end_is_determined,
};
pub use http_front::{Allow, Ask, DocumentReason, Refused, ReplyRoom, Routes, Shape, Told};
pub use http_message::FramingRefusal;
pub use hub_core::{Config, ConfigRefusal, Hub, PageRoom};
pub use hub_desk::{Desk, Owned, Trim};
pub use hub_model::{
    Answer, Change, Condition, Dropped, Entry, Found, Matched, Outcome, PurgeReply, Stats, Tags,
    Written,
};
pub use laws::{
    bytes_and_moments_determine_the_texts, own_entries_are_in_place, owned_histories_are_alone,
    well_served_stays,
};
pub use visits::{Rooms, serve_visits};
