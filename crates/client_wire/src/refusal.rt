//! Why there is no reply, and which fields a reply lacks.

/// Which of the fields that the reply to a read needs are absent.
#[derive(Clone, Copy, Debug, PartialEq, Eq)]
pub struct Lacks {
    /// Quaestor-Commit.
    pub commit: bool,
    /// Quaestor-Until.
    pub until: bool,
}

/// Why no reply was read.
#[derive(Clone, Copy, Debug, PartialEq, Eq)]
pub enum WireRefusal {
    /// The bytes are not of the format.
    BadReply {
        /// The offset of the first refused field's value, or 0 where the head is refused as a whole.
        place: usize,
    },
    /// The source has failed.
    ReadFault,
    /// The source has ended inside the reply.
    Truncated {
        /// The number of bytes that were taken.
        taken: usize,
    },
    /// Memory ran out.
    Memory,
}
