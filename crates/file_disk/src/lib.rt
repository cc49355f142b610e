//! A disk over a file of the operating system.
#![tactic(auto)]

mod file_disk;
mod opening;
mod refusal;

pub use file_disk::FileDisk;
pub use refusal::FileRefusal;
