//! Why a change is not taken.
ghost use Rattle.std.specs.Prelude.{◌≡◌};

use q_base::Memory;
use std::alloc::{AllocError, AllocFailed};
use std::error::Error;
use std::fmt;

/// Why a book does not take a change.
#[derive(Clone, Copy, Debug, PartialEq, Eq)]
pub enum BookRefusal {
    /// The change would take the book above its capacity.
    Full {
        /// What would be kept with the change, in bytes.
        bytes: u64,
    },
    /// There was no memory for the change.
    Memory,
}

impl fmt::Display for BookRefusal {
    ghost use Rattle.std.specs.Prelude.{Some};
    ghost use Rattle.commit_book.specs.BookRefusal.{sentence};

    ghost output = { λ e. Some (sentence e) };

    fn fmt<W: fmt::Write>(&self, f: &mut fmt::Formatter<W>) -> fmt::Result {
        match self {
            BookRefusal::Full { bytes } => {
                write!(f, "{bytes} bytes are above the capacity of the book")
            }
            BookRefusal::Memory => write!(f, "out of memory"),
        }
    }
}

impl Error for BookRefusal {}

impl From<AllocError> for BookRefusal {
    ghost use Rattle.std.specs.Prelude.{◌≡◌};
    ghost use Rattle.commit_book.specs.declared.refusal.BookRefusal.TheVariants.{Memory as NoMemory};

    ghost from_gives = { λ _ e. e ≡ NoMemory };

    fn from(_error: AllocError) -> BookRefusal {
        BookRefusal::Memory
    }
}

impl From<Memory> for BookRefusal {
    ghost use Rattle.std.specs.Prelude.{◌≡◌};
    ghost use Rattle.commit_book.specs.declared.refusal.BookRefusal.TheVariants.{Memory as NoMemory};

    ghost from_gives = { λ _ e. e ≡ NoMemory };

    fn from(_memory: Memory) -> BookRefusal {
        BookRefusal::Memory
    }
}
