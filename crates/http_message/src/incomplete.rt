//! Why no item was taken.
ghost use Rattle.std.specs.Prelude.{◌≡◌};
ghost use Rattle.http_message.specs.Incomplete.{before_head, taken_by};

use crate::taken::Taken;

/// Why no item is complete. `?` passes it on, from the call that failed to the answer.
#[derive(Clone, Copy, Debug, PartialEq, Eq)]
pub enum Incomplete {
    /// The source has ended, and no byte but CR and LF is left.
    InputEnd,
    /// The source has ended.
    Truncated,
    /// The source has failed.
    ReadFault,
    /// The sink has failed.
    WriteFault,
}

impl Incomplete {
    /// The same before the head of an item, where `blank` says that no byte but CR and LF is left.
    pub fn before_head(self, blank: bool) -> Incomplete
        ensures { result ≡ before_head self blank }
    {
        match self {
            Incomplete::Truncated if blank => Incomplete::InputEnd,
            incomplete => incomplete,
        }
    }

    /// The answer.
    pub fn taken(self) -> Taken
        ensures { result ≡ taken_by self }
    {
        match self {
            Incomplete::InputEnd => Taken::InputEnd,
            Incomplete::Truncated => Taken::Truncated,
            Incomplete::ReadFault => Taken::ReadFault,
            Incomplete::WriteFault => Taken::WriteFault,
        }
    }
}
