//! The two handles of a connection.
//!
//! A connection's source and its sink share it. Its stream is closed when the sink is ended, in the
//! thread that served the connection, and not only once both are handed back: until then its client
//! would wait, and its descriptor would be held.
//!
//! The lock is never waited for, since one thread has both halves. Whoever found it taken is told of an
//! error.
ghost use Rattle.std.specs.Io.{ReadsAtMost, WritesAtMost};

use crate::connection::Connection;
use q_outside::Note;
use std::alloc::{AllocError, Global};
use std::io;
use std::io::ErrorKind;
use std::rt::Clock;
use std::sync::{Arc, Mutex};

/// One of the two handles of a connection.
#[derive(Drop)]
pub(crate) struct Shared<R: Clock + Drop> {
    connection: Arc<Mutex<Connection<R>>>,
}

impl<R: Clock + Drop> Shared<R> {
    /// The two handles of a connection.
    pub(crate) fn pair(
        alloc: Global,
        connection: Connection<R>,
    ) -> Result<(Shared<R>, Shared<R>), AllocError> {
        let first = Arc::new(alloc, Mutex::new(connection))?;
        let second = Arc::try_clone(&first)?;
        Ok((Shared { connection: first }, Shared { connection: second }))
    }

    /// Reads the next bytes. 0 is the end.
    pub(crate) fn read(&self, into: &mut [u8]) -> io::Result<usize>
        ensures { ReadsAtMost result into.new }
    {
        match self.connection.try_lock() {
            Some(mut connection) => connection.read(into),
            None => Err(io::Error::from(ErrorKind::ResourceBusy)),
        }
    }

    /// Writes a beginning of the bytes.
    pub(crate) fn write(&self, bytes: &[u8]) -> io::Result<usize>
        ensures { WritesAtMost result bytes.now }
    {
        match self.connection.try_lock() {
            Some(mut connection) => connection.write(bytes),
            None => Err(io::Error::from(ErrorKind::ResourceBusy)),
        }
    }

    /// Begins a request.
    pub(crate) fn begin(&self, held: bool) {
        if let Some(mut connection) = self.connection.try_lock() {
            connection.begin(held);
        }
    }

    /// Whether the next request or the end is there.
    pub(crate) fn is_ready(&self) -> bool {
        match self.connection.try_lock() {
            Some(mut connection) => connection.is_ready(),
            None => true,
        }
    }

    /// Waits until it is, within the limits.
    pub(crate) fn wait(&self) {
        if let Some(mut connection) = self.connection.try_lock() {
            connection.wait();
        }
    }

    /// Whether the server was told to end, so that the connection ends behind the request in hand.
    pub(crate) fn is_stopping(&self) -> bool {
        match self.connection.try_lock() {
            Some(connection) => connection.is_stopping(),
            None => false,
        }
    }

    /// Counts and logs a reply of so many bytes.
    pub(crate) fn note(&self, note: &Note<'_>, bytes: u64) {
        if let Some(connection) = self.connection.try_lock() {
            connection.note(note, bytes);
        }
    }

    /// The connection has ended, if only now.
    pub(crate) fn leave(&self) {
        if let Some(mut connection) = self.connection.try_lock() {
            connection.leave();
        }
    }

    /// Ends the connection and closes its stream.
    pub(crate) fn end(&self) {
        if let Some(mut connection) = self.connection.try_lock() {
            connection.end();
        }
    }
}
