//! Why a log is not opened.

use std::error::Error;
use std::fmt;

/// Why a log is not opened.
#[derive(Clone, Copy, Debug, PartialEq, Eq)]
pub enum LogRefusal {
    /// The disk has more than 5 bytes, and does not begin with `QSJ1`.
    BadMark,
    /// A gate is missing, or no record is behind an open one.
    BadRecord {
        /// The place of the gate.
        place: u64,
    },
    /// The disk failed.
    DiskFault,
    Memory,
}

impl fmt::Display for LogRefusal {
    fn fmt<W: fmt::Write>(&self, f: &mut fmt::Formatter<W>) -> fmt::Result {
        match self {
            LogRefusal::BadMark => write!(f, "a log begins with QSJ1"),
            LogRefusal::BadRecord { place } => {
                write!(
                    f,
                    "no gate, or no record behind an open one, at byte {place}"
                )
            }
            LogRefusal::DiskFault => write!(f, "the disk failed"),
            LogRefusal::Memory => write!(f, "out of memory"),
        }
    }
}

impl Error for LogRefusal {}
