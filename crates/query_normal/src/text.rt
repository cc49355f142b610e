//! The text of a key, which is stored inline where it is short.
ghost use Rattle.std.specs.Prelude.{◌≡◌, ◌+◌, ◌≤◌, ◌++◌, length, take};

use std::fmt;
use std::marker::Model;

/// The greatest length of a text that is stored inline.
pub const MAX_INLINE: usize = 30;

/// Any bytes. Contracts see the list of them. The value is 32 bytes large.
#[derive(Drop)]
pub struct KeyText {
    storage: Storage,
}

/// Where the bytes are stored.
#[derive(Drop)]
enum Storage {
    /// The first `len` bytes, inline. The others are not read.
    Short { len: u8, bytes: [u8; MAX_INLINE] },
    Long(Vec<u8>),
}

impl Model for KeyText {
    ghost use Rattle.std.specs.Prelude.{ℕ, List};
    ghost use Rattle.query_normal.specs.Storage.{stored_bytes, IsStored};

    ghost Value = { List ℕ };

    ghost view = { λ t. stored_bytes t.storage };

    ghost invariant = { λ t. IsStored t.storage };
}

impl KeyText {
    /// The first `len` bytes of these.
    #[inline(always)]
    pub fn inline(bytes: [u8; MAX_INLINE], len: usize) -> KeyText
        requires { len ≤ MAX_INLINE }
        ensures { result ≡ take len bytes }
    {
        KeyText {
            storage: Storage::Short {
                len: len as u8,
                bytes,
            },
        }
    }

    /// The text of these bytes, which are taken over.
    pub fn long(bytes: Vec<u8>) -> KeyText
        ensures { result ≡ bytes.items }
    {
        KeyText {
            storage: Storage::Long(bytes),
        }
    }

    /// The bytes.
    #[inline]
    pub fn as_slice(&self) -> &[u8]
        ensures { result.now ≡ self.now }
    {
        match &self.storage {
            Storage::Short { len, bytes } => &bytes[..*len as usize],
            Storage::Long(bytes) => bytes.as_slice(),
        }
    }
}

impl fmt::Debug for KeyText {
    fn fmt<W: fmt::Write>(&self, f: &mut fmt::Formatter<W>) -> fmt::Result {
        f.debug_struct("KeyText")
            .field("text", &self.as_slice())
            .finish()
    }
}

/// Writes a piece into a buffer from an offset on, and answers the offset of its end.
#[inline(always)]
pub fn put(buffer: &mut [u8], at: usize, piece: &[u8]) -> usize
    requires { at + length piece.now ≤ length buffer.old }
    ensures end { result ≡ at + length piece.now }
    ensures text { take result buffer.new ≡ take at buffer.old ++ piece.now }
{
    let end = at + piece.len();
    buffer[at..end].copy_from_slice(piece);
    end
}
