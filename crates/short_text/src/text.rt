//! Texts of any bytes, most of which are short.
ghost use Rattle.std.specs.Prelude.{◌≡◌, ◌≤◌, length, IfOk};

use std::alloc::{AllocError, Global};
use std::marker::Model;

/// The greatest length of a text that is stored inline.
const MAX_INLINE: usize = 22;

/// Any bytes. Contracts see the list of them. The value is 24 bytes large. It allocates only where the
/// text has more than 22 bytes.
#[derive(Drop)]
pub struct ShortText {
    storage: Storage,
}

/// Where the bytes are stored.
#[derive(Drop)]
enum Storage {
    /// The first `len` bytes, inline. The others are not read.
    Short { len: u8, bytes: [u8; MAX_INLINE] },
    Long(Box<Vec<u8>>),
}

impl Model for ShortText {
    ghost use Rattle.std.specs.Prelude.{ℕ, List};
    ghost use Rattle.short_text.specs.Storage.{stored_bytes, IsStored};

    ghost Value = { List ℕ };

    ghost view = { λ t. stored_bytes t.storage };

    ghost invariant = { λ t. IsStored t.storage };
}

impl ShortText {
    /// The text of these bytes, which are copied.
    #[inline]
    pub fn from_slice(alloc: Global, bytes: &[u8]) -> Result<ShortText, AllocError>
        ensures { IfOk result (λ text. text ≡ bytes.now) }
    {
        if bytes.len() <= MAX_INLINE {
            Ok(ShortText::inline(bytes))
        } else {
            ShortText::on_heap(alloc, Vec::from_slice(alloc, bytes)?)
        }
    }

    /// The text of these bytes. It takes the vector over where there are more than 22.
    #[inline]
    pub fn from_vec(alloc: Global, bytes: Vec<u8>) -> Result<ShortText, AllocError>
        ensures { IfOk result (λ text. text ≡ bytes.items) }
    {
        if bytes.len() <= MAX_INLINE {
            Ok(ShortText::inline(&bytes))
        } else {
            ShortText::on_heap(alloc, bytes)
        }
    }

    #[inline]
    fn inline(text: &[u8]) -> ShortText
        requires { length text.now ≤ MAX_INLINE }
        ensures { result ≡ text.now }
    {
        let mut bytes = [0u8; MAX_INLINE];
        bytes[..text.len()].copy_from_slice(text);
        ShortText {
            storage: Storage::Short {
                len: text.len() as u8,
                bytes,
            },
        }
    }

    fn on_heap(alloc: Global, bytes: Vec<u8>) -> Result<ShortText, AllocError>
        ensures { IfOk result (λ text. text ≡ bytes.items) }
    {
        Ok(ShortText {
            storage: Storage::Long(Box::new(alloc, bytes)?),
        })
    }

    /// The bytes.
    #[inline]
    pub fn as_slice(&self) -> &[u8]
        ensures { result.now ≡ self.now }
    {
        match &self.storage {
            Storage::Short { len, bytes } => &bytes[..*len as usize],
            Storage::Long(bytes) => bytes.as_slice(),
        }
    }
}

impl Clone for ShortText {
    ghost is_clone = { λ s t. s ≡ t };

    #[inline]
    fn clone(&self) -> Result<ShortText, AllocError> {
        match &self.storage {
            Storage::Short { len, bytes } => Ok(ShortText {
                storage: Storage::Short {
                    len: *len,
                    bytes: *bytes,
                },
            }),
            Storage::Long(bytes) => clone_of(bytes),
        }
    }
}

/// A clone of a text on the heap.
fn clone_of(bytes: &Vec<u8>) -> Result<ShortText, AllocError>
    ensures { IfOk result (λ text. text ≡ bytes.now.items) }
{
    let alloc = *bytes.allocator();
    let bytes = Vec::from_slice(alloc, bytes)?;
    ShortText::on_heap(alloc, bytes)
}
