//! Why the fields of a query are refused.
ghost use Rattle.std.specs.Prelude.{◌≡◌};
ghost use Rattle.query_lang.specs.Refusals.{refused, word};

use std::alloc::{AllocError, AllocFailed};
use std::error::Error;
use std::fmt;

/// Why the fields of a query are refused. A field is named by its letter: `f`, `o`, `s`, `n` or `k`.
#[derive(Clone, Copy, Debug, PartialEq, Eq)]
pub enum QueryRefusal {
    /// The text is not in the grammar.
    Syntax {
        field: u8,
        /// The offset where that begins which is not allowed there, or the text's length.
        place: usize,
    },
    /// A number has leading zeros, is `-0`, does not fit 64 bits, or is outside its field's limits.
    BadNumber {
        field: u8,
        place: usize,
    },
    /// A fifth path begins in the order.
    TooManyPaths {
        place: usize,
    },
    /// The filter has more than 256 atoms and listed values.
    TooMany {
        leaves: usize,
    },
    /// A 65th parenthesis is open.
    TooNested {
        place: usize,
    },
    /// The filter's height is above 32.
    TooDeep {
        depth: usize,
    },
    /// There was no memory.
    Memory,
}

impl QueryRefusal {
    /// The refusal's word in replies.
    pub fn word(self) -> &'static [u8]
        ensures { result.now ≡ word self }
    {
        match self {
            QueryRefusal::Syntax { .. } => b"syntax",
            QueryRefusal::BadNumber { .. } => b"bad_number",
            QueryRefusal::TooManyPaths { .. } => b"too_many_paths",
            QueryRefusal::TooMany { .. } => b"too_many",
            QueryRefusal::TooNested { .. } => b"too_nested",
            QueryRefusal::TooDeep { .. } => b"too_deep",
            QueryRefusal::Memory => b"memory",
        }
    }
}

impl fmt::Display for QueryRefusal {
    ghost use Rattle.std.specs.Prelude.{Some};
    ghost use Rattle.query_lang.specs.Sentence.{sentence};

    ghost output = { λ refusal. Some (sentence refusal) };

    fn fmt<W: fmt::Write>(&self, f: &mut fmt::Formatter<W>) -> fmt::Result {
        match self {
            QueryRefusal::Syntax { field, place } => {
                let field = char::from(*field);
                write!(f, "field {field} cannot be read from byte {place} on")
            }
            QueryRefusal::BadNumber { field, place } => {
                let field = char::from(*field);
                write!(
                    f,
                    "the number at byte {place} of field {field} is not allowed"
                )
            }
            QueryRefusal::TooManyPaths { place } => {
                write!(
                    f,
                    "an order has at most 4 paths, and a fifth begins at byte {place}"
                )
            }
            QueryRefusal::TooMany { leaves } => {
                write!(
                    f,
                    "a filter has at most 256 atoms and listed values, and this has {leaves}"
                )
            }
            QueryRefusal::TooNested { place } => {
                write!(
                    f,
                    "at most 64 parentheses are open, and another opens at byte {place}"
                )
            }
            QueryRefusal::TooDeep { depth } => {
                write!(
                    f,
                    "a filter has a height of at most 32, and this has {depth}"
                )
            }
            QueryRefusal::Memory => write!(f, "out of memory"),
        }
    }
}

impl Error for QueryRefusal {}

impl From<AllocError> for QueryRefusal {
    ghost use Rattle.std.specs.Prelude.{◌≡◌};
    ghost use Rattle.query_lang.specs.declared.refusal.QueryRefusal.TheVariants.{Memory};

    ghost from_gives = { λ _ e. e ≡ Memory };

    fn from(_refused: AllocError) -> QueryRefusal {
        QueryRefusal::Memory
    }
}

/// Why a token does not go on what is before it.
#[derive(Clone, Copy, Debug, PartialEq, Eq)]
pub(crate) enum Cause {
    Syntax,
    BadNumber,
    TooManyPaths,
    TooNested,
    Memory,
}

impl Cause {
    /// The refusal of a field for this cause at an offset.
    pub(crate) fn at(self, field: u8, place: usize) -> QueryRefusal
        ensures { result ≡ refused field place self }
    {
        match self {
            Cause::Syntax => QueryRefusal::Syntax { field, place },
            Cause::BadNumber => QueryRefusal::BadNumber { field, place },
            Cause::TooManyPaths => QueryRefusal::TooManyPaths { place },
            Cause::TooNested => QueryRefusal::TooNested { place },
            Cause::Memory => QueryRefusal::Memory,
        }
    }
}

impl From<AllocError> for Cause {
    ghost use Rattle.std.specs.Prelude.{◌≡◌};
    ghost use Rattle.query_lang.specs.declared.refusal.Cause.TheVariants.{Memory};

    ghost from_gives = { λ _ e. e ≡ Memory };

    fn from(_refused: AllocError) -> Cause {
        Cause::Memory
    }
}

impl<T: Drop> From<AllocFailed<T>> for Cause {
    ghost use Rattle.std.specs.Prelude.{◌≡◌};
    ghost use Rattle.query_lang.specs.declared.refusal.Cause.TheVariants.{Memory};

    ghost from_gives = { λ _ e. e ≡ Memory };

    fn from(_refused: AllocFailed<T>) -> Cause {
        Cause::Memory
    }
}
