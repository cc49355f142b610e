//! A client's requests and the replies to them as bytes, and the link that they make.
#![tactic(auto)]

mod body;
mod fields;
mod head;
mod judge;
mod lifetime;
mod numbers;
mod parts;
mod place;
mod refusal;
mod reply;
mod request;
mod room;
mod wire_link;

pub use parts::ReplyParts;
pub use refusal::{Lacks, WireRefusal};
pub use reply::{read_reply, take_reply};
pub use request::write_request;
pub use room::ReplyRoom;
pub use wire_link::WireLink;
