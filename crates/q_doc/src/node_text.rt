//! A text of a node, or a key, which is UTF-8. A short one is stored inline.
ghost use Rattle.std.specs.Prelude.{◌≡◌, IfOk, string_bytes};
ghost use Rattle.std.specs.Str.{IsUtf8};

use crate::text::Text;
use short_text::ShortText;
use std::alloc::{AllocError, Global};
use std::marker::Model;
use std::str;

/// A text of a node, or a key. Contracts see its bytes. It is 24 bytes large and allocates only
/// where it has more than 22 bytes.
#[derive(Drop)]
pub struct NodeText {
    text: ShortText,
}

impl Model for NodeText {
    ghost use Rattle.std.specs.Prelude.{ℕ, List};
    ghost use Rattle.std.specs.Str.{IsUtf8};

    ghost Value = { List ℕ };

    ghost view = { λ a. a.text };

    ghost invariant = { λ a. IsUtf8 a.text };
}

impl NodeText {
    /// The text of these bytes.
    pub fn of(alloc: Global, text: Text) -> Result<NodeText, AllocError>
        ensures { IfOk result (λ t. t ≡ text) }
    {
        NodeText::from_string(alloc, text.into_string())
    }

    /// The text of a string slice.
    #[inline]
    pub fn from_str(alloc: Global, text: &str) -> Result<NodeText, AllocError>
        ensures value { IfOk result (λ t. t ≡ text.now) }
        ensures utf8 { IfOk result IsUtf8 }
    {
        Ok(NodeText {
            text: ShortText::from_slice(alloc, text.as_bytes())?,
        })
    }

    /// The text of a string, which is taken over where it is long.
    pub(crate) fn from_string(alloc: Global, text: String) -> Result<NodeText, AllocError>
        ensures value { IfOk result (λ t. t ≡ string_bytes text) }
        ensures utf8 { IfOk result IsUtf8 }
    {
        Ok(NodeText {
            text: ShortText::from_vec(alloc, text.into_bytes())?,
        })
    }

    /// The bytes of the text.
    #[inline]
    pub fn as_slice(&self) -> &[u8]
        ensures value { result.now ≡ self.now }
        ensures utf8 { IsUtf8 result.now }
    {
        self.text.as_slice()
    }

    /// The text as a string slice.
    #[inline]
    pub fn as_str(&self) -> &str
        ensures { result.now ≡ self.now }
    {
        unsafe { str::from_utf8_unchecked(self.as_slice()) }
    }
}

impl Clone for NodeText {
    ghost is_clone = { λ s t. s ≡ t };

    #[inline]
    fn clone(&self) -> Result<NodeText, AllocError> {
        Ok(NodeText {
            text: self.text.clone()?,
        })
    }
}
