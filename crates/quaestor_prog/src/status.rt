//! The exit status of the program.
ghost use Rattle.std.specs.Prelude.{◌≡◌};
ghost use Rattle.quaestor_prog.specs.Status.{code_of, or_write_fault, status_of, status_of_read, status_of_server};

use crate::reading::ReadEnd;
use client_session::SessionRefusal;
use q_outside::Why;
use quaestor_serve::ServeWhy;

/// How a run of the program ended.
#[derive(Clone, Copy, Debug, PartialEq, Eq)]
pub enum Status {
    /// The connection was served to the end of its input, or until a request asked for its end; or as
    /// many connections were served as were asked for, or all that came before the doors were closed; or
    /// a read has its answer.
    Done,
    /// No command takes these words.
    Words,
    /// The source failed.
    ReadFault,
    /// The sink failed.
    WriteFault,
    /// There was no memory before a connection began, for a text of the help, or for a read.
    Memory,
    /// The input ended inside a request, or its framing was refused.
    BadInput,
    /// As many requests were answered as one connection may make.
    RequestLimit,
    /// No connection could be waited for: listening failed, or the doors of an address did. Or a server
    /// could not be reached.
    PlaceFault,
    /// The link to a server failed.
    LinkFault,
    /// What the server answered to a read was refused: its bytes are not of the format, its status is not
    /// that of a read, or its commit is below the page's.
    Refused,
    /// The file of a store cannot be opened, or is no store, or its store does not fit.
    StoreFault,
}

impl Status {
    /// The status as the program exits with it.
    pub fn code(self) -> u8
        ensures { result ≡ code_of self }
    {
        match self {
            Status::Done => 0,
            Status::Words => 2,
            Status::ReadFault => 3,
            Status::WriteFault => 4,
            Status::Memory => 5,
            Status::BadInput => 6,
            Status::RequestLimit => 7,
            Status::PlaceFault => 8,
            Status::LinkFault => 9,
            Status::Refused => 10,
            Status::StoreFault => 11,
        }
    }

    /// The status of a connection that ended for this reason.
    pub(crate) fn of(why: Why) -> Status
        ensures { result ≡ status_of why }
    {
        match why {
            Why::InputEnd | Why::CloseAsked | Why::Stopped => Status::Done,
            Why::Truncated | Why::BadFraming { .. } => Status::BadInput,
            Why::RequestLimit => Status::RequestLimit,
            Why::ReadFault => Status::ReadFault,
            Why::WriteFault => Status::WriteFault,
        }
    }

    /// The status of a server that ended for this reason.
    pub(crate) fn of_server(why: ServeWhy) -> Status
        ensures { result ≡ status_of_server why }
    {
        match why {
            ServeWhy::Limit | ServeWhy::Closed => Status::Done,
            ServeWhy::DoorFault => Status::PlaceFault,
            ServeWhy::Memory => Status::Memory,
            ServeWhy::Unfilled => Status::StoreFault,
        }
    }

    /// The status of a read that ended so.
    pub(crate) fn of_read(end: ReadEnd) -> Status
        ensures { result ≡ status_of_read end }
    {
        match end {
            ReadEnd::Answered => Status::Done,
            ReadEnd::WriteFault => Status::WriteFault,
            ReadEnd::Refused(refusal) => match refusal {
                SessionRefusal::LinkFault => Status::LinkFault,
                SessionRefusal::BadReply { .. } => Status::Refused,
                SessionRefusal::Status { .. } => Status::Refused,
                SessionRefusal::Behind { .. } => Status::Refused,
                SessionRefusal::Memory => Status::Memory,
            },
        }
    }

    /// The status where the sink failed behind an end that had this one: the first cause in time.
    pub(crate) fn or_write_fault(self) -> Status
        ensures { result ≡ or_write_fault self }
    {
        match self {
            Status::Done => Status::WriteFault,
            status => status,
        }
    }
}
