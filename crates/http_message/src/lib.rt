//! The requests of a stream of bytes: where each ends, what it says, and which cannot be framed.
#![tactic(auto)]

mod body;
mod buffers;
mod chunk;
mod coding;
mod fields;
mod find;
mod framing;
mod head;
mod headed;
mod incomplete;
mod input;
mod judge;
mod last_request;
mod laws;
mod limits;
mod line;
mod message;
mod next;
mod options;
mod refusal;
mod request;
mod room;
mod scan;
mod taken;
mod trailers;

pub use fields::{Named, is_named};
pub use framing::{Framing, are_digits};
pub use laws::{
    limits_are_named, no_item_is_in_open_bytes, one_expectation_holds, one_item_is_first,
    one_split_is_there,
};
pub use message::Request;
pub use options::{split_once, trim_start, trimmed};
pub use refusal::FramingRefusal;
pub use room::{RequestRoom, next_request};
pub use scan::{HeadScan, TextEnd, begins_bare_cr, find_head_end, pass_empty_lines};
pub use taken::Taken;
