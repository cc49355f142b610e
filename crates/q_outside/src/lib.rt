//! The environment of the program, which the name of the crate calls the outside: sources and sinks of
//! bytes, clocks, doors, and how a connection ended.
#![tactic(auto)]

mod adapters;
mod buffered;
mod clocks;
mod connections;
mod doors;
mod environment;
mod faults;
mod gates;
mod give;
mod limits;
mod list_doors;
mod note;
mod script;
mod served;
mod sinks;
mod sources;

pub use adapters::{ReadSource, SystemClock, WriteSink};
pub use buffered::BufferedSource;
pub use clocks::{FixedClock, ListClock};
pub use connections::{Back, Next};
pub use doors::Doors;
pub use environment::{Clock, Failed, Sink, Source};
pub use faults::Faults;
pub use gates::{Gate, HoldGate, OpenGate};
pub use give::{give_all, give_both};
pub use limits::Limits;
pub use list_doors::ListDoors;
pub use note::Note;
pub use script::Script;
pub use served::{Served, Why};
pub use sinks::{EndlessSink, ListSink};
pub use sources::{ListSource, PlainSource};
