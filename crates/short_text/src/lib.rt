//! A text that is stored inline where it is short, and on the heap where it is long.
#![tactic(auto)]

mod text;

pub use text::ShortText;
