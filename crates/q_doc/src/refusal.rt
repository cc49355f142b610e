//! Why a text is not a document.
ghost use Rattle.std.specs.Prelude.{◌≡◌};

use std::alloc::{AllocError, AllocFailed};
use std::error::Error;
use std::fmt;

/// Out of memory.
#[derive(Clone, Copy, Debug, PartialEq, Eq)]
pub struct Memory;

/// Why a text is not a document. The first cause, in this order, is returned.
#[derive(Clone, Copy, Debug, PartialEq, Eq)]
pub enum DocRefusal {
    /// The text has more bytes than a document may have.
    TooLong { length: usize },
    /// The text is not JSON (RFC 8259), nests more than 127 deep, or has a number too large for a float.
    NotJson,
    /// The value is not an object.
    NotObject,
    /// The value nests deeper than a document may.
    TooDeep { depth: usize },
    /// Some number is not whole, or does not fit 64 bits with a sign.
    NotWhole,
    /// Memory ran out.
    Memory,
}

impl DocRefusal {
    ghost use Rattle.q_doc.specs.DocRefusal.{word};

    /// The refusal's name, as replies write it.
    pub fn word(&self) -> &'static [u8]
        ensures { result.now ≡ word self.now }
    {
        match self {
            DocRefusal::TooLong { .. } => b"too_long",
            DocRefusal::NotJson => b"not_json",
            DocRefusal::NotObject => b"not_object",
            DocRefusal::TooDeep { .. } => b"too_deep",
            DocRefusal::NotWhole => b"not_whole",
            DocRefusal::Memory => b"memory",
        }
    }
}

impl fmt::Display for Memory {
    ghost use Rattle.std.specs.Prelude.{Some, codes};

    ghost output = { λ _. Some (codes "there is no memory left") };

    fn fmt<W: fmt::Write>(&self, f: &mut fmt::Formatter<W>) -> fmt::Result {
        f.write_str("there is no memory left")
    }
}

impl Error for Memory {}

impl fmt::Display for DocRefusal {
    ghost use Rattle.std.specs.Prelude.{Some};
    ghost use Rattle.q_doc.specs.DocRefusal.{sentence};

    ghost output = { λ e. Some (sentence e) };

    fn fmt<W: fmt::Write>(&self, f: &mut fmt::Formatter<W>) -> fmt::Result {
        match self {
            DocRefusal::TooLong { length } => write!(
                f,
                "the text has {length} bytes, more than 65536"
            ),
            DocRefusal::NotJson => write!(f, "the text is not JSON"),
            DocRefusal::NotObject => write!(f, "the value is not an object"),
            DocRefusal::TooDeep { depth } => write!(
                f,
                "the value nests {depth} deep, more than 32"
            ),
            DocRefusal::NotWhole => write!(f, "a number is not a whole number of 64 bits"),
            DocRefusal::Memory => write!(f, "there is no memory left"),
        }
    }
}

impl Error for DocRefusal {}

impl From<AllocError> for Memory {
    fn from(_error: AllocError) -> Memory {
        Memory
    }
}

impl<T: Drop> From<AllocFailed<T>> for Memory {
    fn from(_error: AllocFailed<T>) -> Memory {
        Memory
    }
}

impl From<Memory> for DocRefusal {
    ghost use Rattle.std.specs.Prelude.{◌≡◌};
    ghost use Rattle.q_doc.specs.declared.refusal.DocRefusal.TheVariants.{Memory as NoMemory};

    ghost from_gives = { λ _ e. e ≡ NoMemory };

    fn from(_error: Memory) -> DocRefusal {
        DocRefusal::Memory
    }
}

impl From<AllocError> for DocRefusal {
    ghost use Rattle.std.specs.Prelude.{◌≡◌};
    ghost use Rattle.q_doc.specs.declared.refusal.DocRefusal.TheVariants.{Memory as NoMemory};

    ghost from_gives = { λ _ e. e ≡ NoMemory };

    fn from(_error: AllocError) -> DocRefusal {
        DocRefusal::Memory
    }
}

impl<T: Drop> From<AllocFailed<T>> for DocRefusal {
    ghost use Rattle.std.specs.Prelude.{◌≡◌};
    ghost use Rattle.q_doc.specs.declared.refusal.DocRefusal.TheVariants.{Memory as NoMemory};

    ghost from_gives = { λ _ e. e ≡ NoMemory };

    fn from(_error: AllocFailed<T>) -> DocRefusal {
        DocRefusal::Memory
    }
}
