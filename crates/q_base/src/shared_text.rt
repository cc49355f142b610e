//! Bytes that are shared and never change.
ghost use Rattle.std.specs.Prelude.{◌≡◌, IfOk};

use std::alloc::{AllocError, Global};
use std::marker::Model;
use std::sync::Arc;

/// Any bytes, which all clones of the text share: a clone allocates nothing and takes constant time.
/// Contracts see the list of them.
#[derive(Debug, Drop)]
pub struct SharedText {
    bytes: Arc<Vec<u8>>,
}

impl Model for SharedText {
    ghost use Rattle.std.specs.Prelude.{ℕ, List};
    ghost use Rattle.std.specs.Arc.{arc_value};

    ghost Value = { List ℕ };

    ghost view = { λ t. (arc_value t.bytes).items };
}

impl SharedText {
    /// The text of these bytes, which are taken over.
    pub fn of(alloc: Global, bytes: Vec<u8>) -> Result<SharedText, AllocError>
        ensures { IfOk result (λ text. text ≡ bytes.items) }
    {
        Ok(SharedText {
            bytes: Arc::new(alloc, bytes)?,
        })
    }

    /// The bytes.
    pub fn as_slice(&self) -> &[u8]
        ensures { result.now ≡ self.now }
    {
        self.bytes.as_slice()
    }
}

impl Clone for SharedText {
    ghost is_clone = { λ s t. s ≡ t };

    fn clone(&self) -> Result<SharedText, AllocError> {
        Ok(SharedText {
            bytes: Arc::try_clone(&self.bytes)?,
        })
    }
}
