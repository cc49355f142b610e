//! Why a base is not read.

use std::error::Error;
use std::fmt;

/// Why a base is not read. Each place is that of a byte of the disk.
#[derive(Clone, Copy, Debug, PartialEq, Eq)]
pub enum BaseRefusal {
    /// The disk does not begin with `QSJ2`: it has no base, and is a log.
    NoBase,
    /// The disk ends inside what begins here.
    Torn { place: u64 },
    /// A number here is above its greatest: a horizon with no commit behind it, or a clock more than a
    /// minute past the year 9999.
    BadNumber { place: u64 },
    /// No record's name stands here, and not two lengths of 0.
    BadTail { place: u64 },
    /// The row here has no later commit than the one before it.
    Falls { place: u64 },
    /// The row here has a commit above the horizon.
    AboveHorizon { place: u64 },
    /// The body of the row here is longer than any.
    TooLong { place: u64 },
    /// No change that puts a document stands here.
    BadChange { place: u64 },
    /// The rows end here before the horizon, and there is no tail.
    NoTail { place: u64 },
    /// The base ends here, which is not its size.
    BadSize { place: u64 },
    /// The disk failed.
    DiskFault,
    Memory,
}

impl fmt::Display for BaseRefusal {
    fn fmt<W: fmt::Write>(&self, f: &mut fmt::Formatter<W>) -> fmt::Result {
        match self {
            BaseRefusal::NoBase => write!(f, "a base begins with QSJ2"),
            BaseRefusal::Torn { place } => {
                write!(f, "the disk ends inside what begins at byte {place}")
            }
            BaseRefusal::BadNumber { place } => {
                write!(f, "the number at byte {place} is too great")
            }
            BaseRefusal::BadTail { place } => { write!(f, "no names of a record at byte {place}") }
            BaseRefusal::Falls { place } => {
                write!(f, "the row at byte {place} is not behind the one before it")
            }
            BaseRefusal::AboveHorizon { place } => {
                write!(f, "the row at byte {place} is above the horizon")
            }
            BaseRefusal::TooLong { place } => {
                write!(f, "the body of the row at byte {place} is too long")
            }
            BaseRefusal::BadChange { place } => {
                write!(f, "no change that puts a document at byte {place}")
            }
            BaseRefusal::NoTail { place } => {
                write!(
                    f,
                    "the rows end at byte {place} below the horizon, with no tail"
                )
            }
            BaseRefusal::BadSize { place } => {
                write!(f, "the base ends at byte {place}, which is not its size")
            }
            BaseRefusal::DiskFault => write!(f, "the disk failed"),
            BaseRefusal::Memory => write!(f, "out of memory"),
        }
    }
}

impl Error for BaseRefusal {}
