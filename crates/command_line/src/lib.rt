//! What the words of a command line ask for.
#![tactic(auto)]

mod command_name;
mod commands;
mod help;
mod names;
mod numbers;
mod options;
mod ranges;
mod refusal;
mod store;
mod trim;
mod watching;
mod words;

pub use command_name::Simulation;
pub use disks::SyncPolicy;
pub use help::HelpText;
pub use options::{Invocation, PipeOptions, ReadOptions, ServeOptions, SimulationOptions};
pub use refusal::{BadValue, Refusal};
pub use store::Data;
pub use watching::Watching;
pub use words::{read_words, refusal_of};
