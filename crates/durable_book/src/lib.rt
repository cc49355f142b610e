//! A store that keeps its commits on a disk, so that no crash takes back what was told done.
#![tactic(auto)]

mod kept_hub;
pub mod laws;
mod moments;
mod opening;
mod records;
mod refusal;

pub use kept_hub::KeptHub;
pub use moments::{KEPT_AHEAD, guard_of, moment_to_keep};
pub use opening::{Store, open_store};
pub use refusal::{KeptRefusal, OpenRefusal};
