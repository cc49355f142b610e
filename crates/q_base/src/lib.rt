//! The values that every layer uses: moments, commits, names, texts and positions.
#![tactic(auto)]

mod memory;
mod moment;
mod name;
mod positions;
mod shared_text;
mod text;

pub use memory::Memory;
pub use moment::{Commit, GREATEST_SECONDS, Moment};
pub use name::{Name, NameRefusal};
pub use positions::{Positions, positions_of};
pub use shared_text::SharedText;
pub use text::Text;
