//! A run of a store on a disk that crashes again and again, which a number repeats.
#![tactic(auto)]

mod expected;
mod lines;
mod machine;
mod product;
mod run;
mod step;

pub use lines::OpenLine;
pub use run::crash_text;
pub use step::{CrashStep, QuietStep, Stopped};
