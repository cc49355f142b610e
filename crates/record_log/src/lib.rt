//! A log of records on a disk, which loses nothing that it has stored.
#![tactic(auto)]

mod adding;
mod batch;
mod gate;
mod head;
pub mod laws;
mod log;
mod log_record;
mod opened;
mod opening;
mod refusal;
mod start;
mod store;

pub use adding::{CLOSED, OPEN};
pub use batch::{Batch, Body};
pub use log::Log;
pub use log_record::{COMMIT, GREATEST_CLOCK, LogRecord, MOMENT};
pub use opened::{Opened, open_log};
pub use opening::Opening;
pub use refusal::LogRefusal;
