//! Why a store is not opened, and why a call of an open one has no answer.
ghost use Rattle.std.specs.Prelude.{◌≡◌};
ghost use Rattle.durable_book.specs.Opened.{refusal_of_log};

use q_base::Memory;
use record_log::LogRefusal;
use std::error::Error;
use std::fmt;

/// Why a store is not opened.
#[derive(Clone, Copy, Debug, PartialEq, Eq)]
pub enum OpenRefusal {
    /// The disk has more than 5 bytes, and does not begin with `QSJ1`.
    BadMark,
    /// A gate is missing, or no record is behind an open one.
    BadRecord {
        /// The place of the gate.
        place: u64,
    },
    /// The commits take more than the capacity.
    TooSmall {
        /// What they take, in bytes; the greatest number of 64 bits stands for any that is greater.
        bytes: u64,
    },
    /// The disk failed.
    DiskFault,
    Memory,
}

/// Why a call of an open store has no answer.
#[derive(Clone, Copy, Debug, PartialEq, Eq)]
pub enum KeptRefusal {
    /// The disk failed. The store is broken, and is to be opened again.
    DiskFault,
    /// The store is broken.
    Reopen,
    /// Where something was written before, the store is broken too.
    Memory,
}

impl fmt::Display for OpenRefusal {
    fn fmt<W: fmt::Write>(&self, f: &mut fmt::Formatter<W>) -> fmt::Result {
        match self {
            OpenRefusal::BadMark => write!(f, "a store begins with QSJ1"),
            OpenRefusal::BadRecord { place } => write!(
                f,
                "no gate, or no record behind an open one, at byte {place}"
            ),
            OpenRefusal::TooSmall { bytes } => {
                write!(f, "the commits take {bytes} bytes, more than the capacity")
            }
            OpenRefusal::DiskFault => write!(f, "the disk failed"),
            OpenRefusal::Memory => write!(f, "out of memory"),
        }
    }
}

impl Error for OpenRefusal {}

impl fmt::Display for KeptRefusal {
    fn fmt<W: fmt::Write>(&self, f: &mut fmt::Formatter<W>) -> fmt::Result {
        match self {
            KeptRefusal::DiskFault => write!(f, "the disk failed"),
            KeptRefusal::Reopen => write!(f, "the store is to be opened again"),
            KeptRefusal::Memory => write!(f, "out of memory"),
        }
    }
}

impl Error for KeptRefusal {}

impl From<Memory> for KeptRefusal {
    ghost use Rattle.std.specs.Prelude.{◌≡◌};
    ghost use Rattle.durable_book.specs.declared.refusal.KeptRefusal.TheVariants.{Memory as NoMemory};

    ghost from_gives = { λ _ e. e ≡ NoMemory };

    fn from(_memory: Memory) -> KeptRefusal {
        KeptRefusal::Memory
    }
}

/// Why a store is not opened whose log is refused.
pub(crate) fn refusal_of_log(refusal: LogRefusal) -> OpenRefusal
    ensures { result ≡ refusal_of_log refusal }
{
    match refusal {
        LogRefusal::BadMark => OpenRefusal::BadMark,
        LogRefusal::BadRecord { place } => OpenRefusal::BadRecord { place },
        LogRefusal::DiskFault => OpenRefusal::DiskFault,
        LogRefusal::Memory => OpenRefusal::Memory,
    }
}
