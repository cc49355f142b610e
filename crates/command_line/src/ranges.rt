//! The numbers that the options of `serve`, and the words of `world` and `crash`, may have. Definitions and
//! code read them here.

/// How many connections may be there at the same time.
pub(crate) const MOST_PLACES: u64 = 32_768;

/// That number where none is given.
pub(crate) const DEFAULT_PLACES: u64 = 4_096;

/// How many of them may be served at the same time.
pub(crate) const MOST_WORKERS: u64 = 64;

/// That number where none is given.
pub(crate) const DEFAULT_WORKERS: u64 = 16;

/// How many threads may match.
pub(crate) const MOST_MATCHERS: u64 = 16;

/// That number where none is given.
pub(crate) const DEFAULT_MATCHERS: u64 = 1;

/// How many commits below the front may be kept, 2^40.
pub(crate) const MOST_KEPT: u64 = 1_099_511_627_776;

/// How many connections may be asked for in all, 2^40.
pub(crate) const MOST_CONNECTIONS: u64 = 1_099_511_627_776;

/// How many seconds any limit of time may have.
pub(crate) const MOST_SECONDS: u64 = 3_600;

/// For how many seconds a connection waits for its next request, where none is given; 0 is for any time.
pub(crate) const DEFAULT_IDLE: u64 = 30;

/// How many seconds a request has beside those of its bytes, where none is given.
pub(crate) const DEFAULT_HEAD_TIME: u64 = 10;

/// How many seconds a reply has beside those of its bytes, where none is given.
pub(crate) const DEFAULT_REPLY_TIME: u64 = 10;

/// How many bytes may give a second more.
pub(crate) const MOST_RATE: u64 = 1_000_000;

/// That number where none is given.
pub(crate) const DEFAULT_RATE: u64 = 1_000;

/// How many seconds a server that was told to end goes on answering, where none is given.
pub(crate) const DEFAULT_GRACE: u64 = 10;

/// How many seconds the lifetime of an absent record, and that in shared caches, may have: a year.
pub(crate) const MOST_LIFETIME: u64 = 31_536_000;

/// The greatest seed of a run, 2^64 - 1.
pub(crate) const MOST_SEED: u64 = 18_446_744_073_709_551_615;

/// How many steps a world may have.
pub(crate) const MOST_WORLD_STEPS: u64 = 1_000_000;

/// How many steps a run with crashes may have.
pub(crate) const MOST_CRASH_STEPS: u64 = 100_000;

/// The greatest number of milliseconds for which a sync waits for others.
pub(crate) const MOST_MILLIS: u64 = 1_000;
