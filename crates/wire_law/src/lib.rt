//! Laws that join the replies of the server with the reading of the client: what the one prints, the other
//! reads.
#![tactic(auto)]

mod laws;

pub use laws::{fields_are_read, head_is_taken, part_is_truncated, reply_is_read, told_is_read};
