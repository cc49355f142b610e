//! Pages, which say what copies are outdated, and their encoding as bytes.
#![tactic(auto)]

mod laws;
mod page;
mod read;
mod sight;
mod write;

pub use laws::pages_have_one_encoding;
pub use page::Page;
pub use read::{PageHead, PageRefusal, head_in};
pub use sight::{KeyMark, Sight, look_into, sight_at};
pub use write::{set_bit, write_head, write_page};
