//! The sink of a connection over TCP.
ghost use Rattle.std.specs.Prelude.{◌≡◌, Some, None};

use crate::stream::Shared;
use q_outside::{Failed, Note, Sink};
use std::rt::Clock;

/// The sink over a connection. It shows no bytes.
///
/// Each piece that it is given is one write, which may take a beginning of it. One that would be later
/// than the limits allow is a fault. At the greatest count of faults, 2^64 - 1, a further fault is
/// reported as bytes that were taken.
///
/// Where a request was cut off by its limit of time, of which some has come and to which no reply was
/// begun, the end of the sink answers it by 408: only this adapter knows of time. So these bytes are of
/// no dialogue, as no bytes of this sink are shown.
#[derive(Drop)]
pub struct TcpSink<R: Clock + Drop> {
    shared: Shared<R>,
    faults: u64,
    /// Whether somebody counts or logs what the connection does.
    is_seen: bool,
    /// The bytes that were given since the last reply was noted, where somebody does.
    bytes: u64,
}

impl<R: Clock + Drop> TcpSink<R> {
    /// The sink over this connection, with no fault yet.
    pub(crate) fn new(shared: Shared<R>, is_seen: bool) -> TcpSink<R>
        ensures { result.faults ≡ 0 }
    {
        TcpSink {
            shared,
            faults: 0,
            is_seen,
            bytes: 0,
        }
    }

    /// The connection has ended.
    pub(crate) fn leave(&self) {
        if self.is_seen {
            self.shared.leave();
        }
    }
}

impl<R: Clock + Drop> Sink for TcpSink<R> {
    ghost at = { λ s. record { bytes = None; faults = s.faults } };

    ghost ended = { λ _. Some None };

    fn give(&mut self, bytes: &[u8]) -> Result<usize, Failed> {
        match self.shared.write(bytes) {
            Ok(count) if count > 0 => {
                self.bytes = self.bytes.wrapping_add(count as u64);
                Ok(count)
            }
            _ if self.faults < u64::MAX => {
                self.faults += 1;
                Err(Failed)
            }
            _ => Ok(bytes.len()),
        }
    }

    fn note(&mut self, note: &Note<'_>) {
        if self.is_seen {
            self.shared.note(note, self.bytes);
            self.bytes = 0;
        }
    }

    fn end(&mut self) {
        self.shared.end();
    }
}
