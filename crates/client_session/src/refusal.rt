//! Why a session has no answer.
ghost use Rattle.std.specs.Prelude.{◌≡◌};
ghost use Rattle.client_session.specs.Read.{refused_of};

use crate::ask::LinkRefusal;
use q_base::{Commit, Memory};
use q_doc::Memory as NoMemory;
use std::alloc::AllocError;
use std::error::Error;
use std::fmt;

/// Why a session has no answer. The session is as before.
#[derive(Clone, Copy, Debug, PartialEq, Eq)]
pub enum SessionRefusal {
    /// The link failed.
    LinkFault,
    /// The bytes of a reply or of a page are not of the format.
    BadReply {
        /// The offset of the first wrong byte.
        place: usize,
    },
    /// A reply has another status than the call's own.
    Status {
        code: u16,
    },
    /// The server's answer is below what the session has seen.
    Behind {
        /// The greater of the page's front and the session's floor.
        floor: Commit,
        /// The commit of the answer.
        got: Commit,
    },
    /// Memory ran out.
    Memory,
}

/// Why a session has no answer where the link had none.
pub fn refused(refusal: LinkRefusal) -> SessionRefusal
    ensures { result ≡ refused_of refusal }
{
    match refusal {
        LinkRefusal::Fault => SessionRefusal::LinkFault,
        LinkRefusal::BadReply { place } => SessionRefusal::BadReply { place },
        LinkRefusal::Memory => SessionRefusal::Memory,
        LinkRefusal::Status { code } => SessionRefusal::Status { code },
    }
}

impl From<Memory> for SessionRefusal {
    ghost use Rattle.std.specs.Prelude.{◌≡◌};
    ghost use Rattle.client_session.specs.declared.refusal.SessionRefusal.TheVariants as refusal;

    ghost from_gives = { λ _ r. r ≡ refusal.Memory };

    fn from(_: Memory) -> SessionRefusal {
        SessionRefusal::Memory
    }
}

impl From<NoMemory> for SessionRefusal {
    ghost use Rattle.std.specs.Prelude.{◌≡◌};
    ghost use Rattle.client_session.specs.declared.refusal.SessionRefusal.TheVariants as refusal;

    ghost from_gives = { λ _ r. r ≡ refusal.Memory };

    fn from(_: NoMemory) -> SessionRefusal {
        SessionRefusal::Memory
    }
}

impl From<AllocError> for SessionRefusal {
    ghost use Rattle.std.specs.Prelude.{◌≡◌};
    ghost use Rattle.client_session.specs.declared.refusal.SessionRefusal.TheVariants as refusal;

    ghost from_gives = { λ _ r. r ≡ refusal.Memory };

    fn from(_: AllocError) -> SessionRefusal {
        SessionRefusal::Memory
    }
}

impl fmt::Display for SessionRefusal {
    fn fmt<W: fmt::Write>(&self, f: &mut fmt::Formatter<W>) -> fmt::Result {
        match self {
            SessionRefusal::LinkFault => write!(f, "the link failed: connect again"),
            SessionRefusal::BadReply { place } => {
                write!(
                    f,
                    "the reply is not of the format at byte {place}: ask another server"
                )
            }
            SessionRefusal::Status { code } => write!(f, "the server answered with status {code}"),
            SessionRefusal::Behind { floor, got } => write!(
                f,
                "the server answered at commit {got}, below commit {floor}, which was seen before: ask again later"
            ),
            SessionRefusal::Memory => write!(f, "out of memory"),
        }
    }
}

impl Error for SessionRefusal {}
