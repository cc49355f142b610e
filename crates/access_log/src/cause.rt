//! Why a request was not served.

/// Why a request was answered 503.
#[derive(Clone, Copy, Debug, PartialEq, Eq)]
pub enum Cause {
    /// There was no memory for its answer.
    Memory,
    /// Anything else.
    Other,
}

impl Cause {
    /// The cause that a reply tells.
    pub fn of(why: &str) -> Cause {
        if why == "memory" {
            Cause::Memory
        } else {
            Cause::Other
        }
    }

    /// Its name.
    pub fn name(self) -> &'static str {
        match self {
            Cause::Memory => "memory",
            Cause::Other => "other",
        }
    }
}
