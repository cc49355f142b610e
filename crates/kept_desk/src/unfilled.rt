//! Why a store is not filled with what was kept.

use record_log::LogRefusal;
use std::error::Error;
use std::fmt;

/// Why a store is not filled with what was kept.
#[derive(Clone, Copy, Debug, PartialEq, Eq)]
pub enum Unfilled {
    /// The log is refused.
    Log(LogRefusal),
    /// What lives of so many commits takes more than the capacity.
    TooSmall { commits: u64 },
    /// The store had commits already.
    NotEmpty,
    Memory,
}

impl From<LogRefusal> for Unfilled {
    fn from(refusal: LogRefusal) -> Unfilled {
        Unfilled::Log(refusal)
    }
}

impl fmt::Display for Unfilled {
    fn fmt<W: fmt::Write>(&self, f: &mut fmt::Formatter<W>) -> fmt::Result {
        match self {
            Unfilled::Log(refusal) => write!(f, "{refusal}"),
            Unfilled::TooSmall { commits } => {
                write!(
                    f,
                    "what lives of {commits} commits is more than the capacity"
                )
            }
            Unfilled::NotEmpty => write!(f, "the store is not empty"),
            Unfilled::Memory => write!(f, "out of memory"),
        }
    }
}

impl Error for Unfilled {}
