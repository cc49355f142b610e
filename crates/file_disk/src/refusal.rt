//! Why a file is not taken as a disk.

use std::alloc::AllocError;
use std::error::Error;
use std::{fmt, io};

/// Why a file is not taken as a disk.
#[derive(Clone, Copy, Debug)]
pub enum FileRefusal {
    /// Another program has it, or this one has it already.
    Busy,
    /// It is a folder, a device or a pipe.
    NotAFile,
    /// The system refuses it.
    System(io::Error),
}

impl From<io::Error> for FileRefusal {
    fn from(error: io::Error) -> FileRefusal {
        FileRefusal::System(error)
    }
}

impl From<AllocError> for FileRefusal {
    fn from(_: AllocError) -> FileRefusal {
        FileRefusal::System(io::Error::from(io::ErrorKind::OutOfMemory))
    }
}

impl fmt::Display for FileRefusal {
    fn fmt<W: fmt::Write>(&self, f: &mut fmt::Formatter<W>) -> fmt::Result {
        match self {
            FileRefusal::Busy => write!(f, "another server has it"),
            FileRefusal::NotAFile => write!(f, "it is no regular file"),
            FileRefusal::System(error) => write!(f, "{error}"),
        }
    }
}

impl Error for FileRefusal {}
