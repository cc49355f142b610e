//! Doors through which connections come over TCP, with their sources and sinks.
#![tactic(auto)]

mod accept;
mod connection;
mod counters;
mod doors;
mod ending;
mod entrance;
mod late;
mod listeners;
mod log;
mod observer;
mod pace;
mod ready;
mod sink;
mod source;
mod stream;
mod watch;

pub use counters::Counters;
pub use doors::TcpDoors;
pub use ending::Ending;
pub use log::LogQueue;
pub use observer::Observer;
pub use sink::TcpSink;
pub use source::TcpSource;
