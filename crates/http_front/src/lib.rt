//! What the requests of a connection ask of the store, and the texts of the replies.
#![tactic(auto)]

mod ask;
mod body;
mod buffered;
mod cut;
mod date;
mod fields;
mod filter;
mod give;
mod head;
mod hosts;
mod laws;
mod names;
mod note;
mod number;
mod origins;
mod pieces;
mod purges;
mod put;
mod query;
mod quoted;
mod refused;
mod reply;
mod results;
mod routes;
mod shape;
mod status;
mod tags;
mod target;
mod told;
mod why;

pub use ask::{Ask, ask_of, ask_to};
pub use body::write_body;
pub use give::give_reply;
pub use head::{Head, MediaType};
pub use laws::{
    one_reply_is_read, paths_of_records_have_two_names, replies_are_framed, replies_have_one_text,
    replies_read_back,
};
pub use note::note_of;
pub use origins::Leave;
pub use pieces::{Body, Bytes, Parts, give_pieces};
pub use query::{FieldValue, QueryFields, fields_in};
pub use refused::{Allow, DocumentReason, FilterReason, FilterRefusal, QueryField, Refused};
pub use reply::{REPLY_CAPACITY, ReplyRoom, reply_text};
pub use routes::{ALL_ROUTES, Route, Routes, Served};
pub use shape::{Shape, shape_of};
pub use told::Told;
