//! What a sync waits for.

/// What a sync waits for.
#[derive(Clone, Copy, Debug, PartialEq, Eq)]
pub enum SyncPolicy {
    /// Nothing: what is queued is stored at once.
    Always,
    /// Others, for so many milliseconds, so that they share it.
    Batch { millis: u64 },
}
