//! Disks: bytes that are stored once they are synced, and what a crash may leave of them.
#![tactic(auto)]

mod disk;
mod memory_disk;
mod past;
mod plan;
mod range;
mod sync_policy;

pub use disk::Disk;
pub use memory_disk::MemoryDisk;
pub use range::ByteRange;
pub use sync_policy::SyncPolicy;
