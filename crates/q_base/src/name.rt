//! The names of collections and of the documents in them.
ghost use Rattle.std.specs.Prelude.{◌≡◌, ◌⊎◌, nat_eq, Some, refl, IfOk, IsErr};
ghost use Rattle.q_base.specs.Name.{IsName, read_name, is_name_byte, first_bad};
ghost use Rattle.std.specs.Ordering.{nat_cmp};
ghost use Rattle.std.specs.Cmp.{partial_equiv_from_equiv};
ghost use Rattle.std.specs.Cmp.Lexicographic.{pointwise, slice_cmp, nat_list_eq_equiv, nat_list_cmp_total, texts_po, texts_ties};
ghost use Rattle.std.specs.Cmp.Rules.{hashing};
ghost use Rattle.std.specs.Hash as fed;
ghost use Rattle.std.proofs.Common.{rules};

use short_text::ShortText;
use std::alloc::{AllocError, Global};
use std::cmp::Ordering;
use std::error::Error;
use std::fmt;
use std::hash::{Hash, Hasher};
use std::marker::Model;

/// The greatest length of a name.
pub const MOST_NAME_BYTES: usize = 64;

/// The name of a collection or of a document: 1 to 64 bytes of `a` to `z`, `0` to `9`, `_` and `-`.
/// It is 24 bytes large. It allocates only where it has more than 22 bytes.
#[derive(Drop)]
pub struct Name {
    text: ShortText,
}

impl Model for Name {
    ghost use Rattle.std.specs.Prelude.{ℕ, List};
    ghost use Rattle.q_base.specs.Name.{IsName};

    ghost Value = { List ℕ };

    ghost view = { λ n. n.text };

    ghost invariant = { λ n. IsName n.text };
}

/// Why bytes are not a name. The first cause, in this order, is returned.
#[derive(Clone, Copy, Debug, PartialEq, Eq)]
pub enum NameRefusal {
    /// There is no byte.
    Empty,
    /// There are more than 64 bytes.
    TooLong {
        /// The number of bytes.
        length: usize,
    },
    /// There is a byte that a name cannot have.
    BadByte {
        /// The offset of the first such byte.
        place: usize,
    },
    /// Memory ran out. Only a name of more than 22 bytes allocates.
    Memory,
}

impl fmt::Display for NameRefusal {
    ghost use Rattle.std.specs.Prelude.{Some};
    ghost use Rattle.q_base.specs.NameRefusal.{sentence};

    ghost output = { λ e. Some (sentence e) };

    fn fmt<W: fmt::Write>(&self, f: &mut fmt::Formatter<W>) -> fmt::Result {
        match self {
            NameRefusal::Empty => write!(f, "a name has at least one byte"),
            NameRefusal::TooLong { length } => {
                write!(f, "a name has at most 64 bytes, and this has {length}")
            }
            NameRefusal::BadByte { place } => {
                write!(
                    f,
                    "a name has a to z, 0 to 9, _ and - alone, and byte {place} is none"
                )
            }
            NameRefusal::Memory => write!(f, "out of memory"),
        }
    }
}

impl Error for NameRefusal {}

impl Name {
    /// Reads bytes as a name. It allocates only where there are more than 22.
    pub fn read(alloc: Global, bytes: &[u8]) -> Result<Name, NameRefusal>
        ensures told { (result ≡ Err NameRefusal.Memory) ⊎ (result ≡ read_name bytes.now) }
        ensures refused { IsErr (read_name bytes.now) → result ≡ read_name bytes.now }
    {
        if bytes.is_empty() {
            return Err(NameRefusal::Empty);
        }
        let length = bytes.len();
        if length > MOST_NAME_BYTES {
            return Err(NameRefusal::TooLong { length });
        }
        match first_bad(bytes) {
            Some(place) => Err(NameRefusal::BadByte { place }),
            None => match Name::of(alloc, bytes) {
                Ok(name) => Ok(name),
                Err(_) => Err(NameRefusal::Memory),
            },
        }
    }

    /// The name of bytes that were checked.
    fn of(alloc: Global, bytes: &[u8]) -> Result<Name, AllocError>
        requires { IsName bytes.now }
        ensures { IfOk result (λ name. name ≡ bytes.now) }
    {
        Ok(Name {
            text: ShortText::from_slice(alloc, bytes)?,
        })
    }

    /// The bytes of the name.
    #[inline]
    pub fn as_slice(&self) -> &[u8]
        ensures same { result.now ≡ self.now }
        ensures is_name { IsName self.now }
    {
        self.text.as_slice()
    }
}

/// Whether a name may have this byte.
fn is_name_byte(byte: u8) -> bool
    ensures { result ≡ is_name_byte byte }
{
    byte.is_ascii_lowercase() || byte.is_ascii_digit() || byte == b'_' || byte == b'-'
}

/// The offset of the first byte that a name cannot have.
fn first_bad(bytes: &[u8]) -> Option<usize>
    ensures { result ≡ first_bad bytes.now }
{
    bytes.iter().position(|byte| !is_name_byte(*byte))
}

impl fmt::Debug for Name {
    fn fmt<W: fmt::Write>(&self, f: &mut fmt::Formatter<W>) -> fmt::Result {
        f.debug_struct("Name")
            .field("text", &self.as_slice())
            .finish()
    }
}

impl Clone for Name {
    ghost is_clone = { λ s t. s ≡ t };

    #[inline]
    fn clone(&self) -> Result<Name, AllocError> {
        Ok(Name {
            text: self.text.clone()?,
        })
    }
}

impl PartialEq for Name {
    ghost eq = { pointwise nat_eq };

    ghost laws = { partial_equiv_from_equiv nat_list_eq_equiv };

    fn eq(&self, other: &Name) -> bool {
        self.as_slice() == other.as_slice()
    }
}

impl Eq for Name {
    ghost laws = { nat_list_eq_equiv };
}

impl PartialOrd for Name {
    ghost partial_cmp = { λ s t. Some (slice_cmp nat_cmp s t) };

    ghost laws = { texts_po };

    fn partial_cmp(&self, other: &Name) -> Option<Ordering> {
        Some(self.cmp(other))
    }
}

impl Ord for Name {
    ghost cmp = { slice_cmp nat_cmp };

    ghost total = { nat_list_cmp_total };

    ghost matches_partial_cmp = { λ s t. refl };

    ghost matches_eq = { texts_ties };

    fn cmp(&self, other: &Name) -> Ordering {
        self.as_slice().cmp(other.as_slice())
    }
}

impl Hash for Name {
    ghost hash_input = { fed.slice fed.u8 };

    ghost respects_eq = { Prim.search (hashing, rules) };

    fn hash<H: Hasher>(&self, state: &mut H) {
        self.as_slice().hash(state);
    }
}
