//! Documents: JSON objects of whole numbers, read, printed, walked and put in order.
#![tactic(auto)]

mod clones;
mod convert;
mod doc;
mod equality;
pub mod laws;
mod node;
mod node_text;
mod order;
mod path;
mod print;
mod print_length;
mod reading;
mod refusal;
mod text;
mod trim;

pub use doc::{Doc, MAX_DEPTH, MAX_LENGTH};
pub use node::{Node, Shape};
pub use node_text::NodeText;
pub use order::compare;
pub use path::{MAX_SEGMENTS, Path};
pub use reading::ReadBuffer;
pub use refusal::{DocRefusal, Memory};
pub use text::Text;
