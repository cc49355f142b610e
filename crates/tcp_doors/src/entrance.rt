//! Where connections come in: the listeners of an address.

use crate::accept::{Again, again_after};
use crate::connection::Connection;
use crate::ending::Ending;
use crate::listeners::listen_at;
use crate::observer::{Observer, Seen};
use crate::ready::{For, asked, wait_for};
use crate::sink::TcpSink;
use crate::source::TcpSource;
use crate::stream::Shared;
use crate::watch::Watch;
use libc::types::pollfd;
use q_outside::Limits;
use std::alloc::{AllocError, Global};
use std::fs::{File, Files};
use std::net::{Net, SocketAddr, TcpListener, TcpStream};
use std::os::fd::AsRawFd;
use std::rt::Clock;
use std::sync::Arc;
use std::time::Duration;
use std::{io, thread};

/// For how many milliseconds is waited where there is no descriptor or memory for a further connection.
const PAUSE_MILLIS: u64 = 100;

/// After how many milliseconds one who waits looks whether the server was told to end.
const TICK_MILLIS: u64 = 100;

/// How many connections that came before the server was told to end are still taken then: as many as the
/// system keeps for a listener.
const LAST_CONNECTIONS: u32 = 128;

/// What came of waiting for a connection for a while.
#[derive(Drop)]
pub(crate) enum Entry<R: Clock + Drop> {
    /// A connection.
    Given(TcpSource<R>, TcpSink<R>),
    /// Nothing.
    Nothing,
    /// The server was told to end, and no connection that came before is left.
    Closed,
    /// A listener has failed.
    Failed,
}

/// The listeners of an address.
#[derive(Drop)]
pub(crate) struct Entrance<R: Drop> {
    rt: R,
    alloc: Global,
    listeners: Vec<TcpListener>,
    /// What `poll` is asked of them.
    asked: Vec<pollfd>,
    /// Which of them was asked last.
    turn: usize,
    /// How many connections may still be taken once the server was told to end.
    last: u32,
    watch: Arc<Watch, Global>,
    limits: Limits,
    /// Who counts and logs what the connections do, where somebody does.
    observer: Option<Arc<Observer, Global>>,
    /// How many connections were taken.
    taken: u64,
}

impl<R> Entrance<R>
where
    R: Net<Listener = TcpListener, Stream = TcpStream> + Files<File = File> + AllocGlobal + Drop,
{
    /// The listeners at each address of a name. They end as the watch says.
    pub(crate) fn bind(
        rt: R,
        name: &str,
        limits: Limits,
        watch: Watch,
        observer: Option<Arc<Observer, Global>>,
    ) -> io::Result<Entrance<R>> {
        let alloc = rt.alloc();
        let listeners = listen_at(&rt, alloc, name)?;
        let mut polled = Vec::new(alloc);
        for listener in &listeners {
            polled.push(asked(listener.as_raw_fd(), For::Bytes))?;
        }
        let watch = Arc::new(alloc, watch)?;
        Ok(Entrance {
            rt,
            alloc,
            listeners,
            asked: polled,
            turn: 0,
            last: LAST_CONNECTIONS,
            watch,
            limits,
            observer,
            taken: 0,
        })
    }
}

impl<R: Drop> Entrance<R> {
    /// The first address that is listened at.
    pub(crate) fn address(&self) -> io::Result<SocketAddr> {
        match self.listeners.first() {
            Some(listener) => listener.local_addr(),
            None => Err(io::Error::from(io::ErrorKind::NotConnected)),
        }
    }

    /// Whether the server was told to end, for others than its connections.
    pub(crate) fn ending(&self) -> Result<Ending, AllocError> {
        Ok(Ending::new(Arc::try_clone(&self.watch)?))
    }
}

impl<R: Clock + Copy + Drop> Entrance<R> {
    /// Waits for the next connection for a while.
    pub(crate) fn wait(&mut self) -> Entry<R> {
        self.watch.look(&self.rt);
        if self.watch.is_stopped() {
            return self.take_last();
        }
        match self.accept() {
            Ok((stream, client)) => self.entry_of(stream, client),
            Err(error) => self.pause_after(&error),
        }
    }

    /// The next of the connections that came before the server was told to end. Behind the last one
    /// nobody listens any more.
    fn take_last(&mut self) -> Entry<R> {
        if self.last > 0 {
            self.last -= 1;
            if let Ok((stream, client)) = self.accept() {
                return self.entry_of(stream, client);
            }
            self.last = 0;
        }
        self.listeners.clear();
        Entry::Closed
    }

    /// The next connection that is there, by the listeners in turn.
    fn accept(&mut self) -> io::Result<(TcpStream, SocketAddr)> {
        let mut failed = io::Error::from(io::ErrorKind::WouldBlock);
        for _n in 0..self.listeners.len() {
            self.turn = next_turn(self.turn, self.listeners.len());
            let Some(listener) = self.listeners.get(self.turn) else {
                continue;
            };
            match listener.accept() {
                Ok((stream, client)) => return Ok((stream, client)),
                Err(error) if error.kind() == io::ErrorKind::WouldBlock => {}
                Err(error) => failed = error,
            }
        }
        Err(failed)
    }

    /// Waits after no connection was there, or could be taken.
    fn pause_after(&mut self, error: &io::Error) -> Entry<R> {
        if error.kind() == io::ErrorKind::WouldBlock {
            wait_for(&self.rt, &mut self.asked, TICK_MILLIS);
            return Entry::Nothing;
        }
        match again_after(error) {
            Again::AtOnce => Entry::Nothing,
            Again::Later => {
                thread::sleep(&self.rt, Duration::from_millis(PAUSE_MILLIS));
                Entry::Nothing
            }
            Again::Never => Entry::Failed,
        }
    }

    /// The source and the sink of a stream, or nothing where it fails.
    fn entry_of(&mut self, stream: TcpStream, client: SocketAddr) -> Entry<R> {
        match self.halves_of(stream, client) {
            Ok((source, sink)) => Entry::Given(source, sink),
            Err(_) => Entry::Nothing,
        }
    }

    /// The source and the sink of a stream. Its small pieces are sent at once, and it does not block.
    fn halves_of(
        &mut self,
        stream: TcpStream,
        client: SocketAddr,
    ) -> io::Result<(TcpSource<R>, TcpSink<R>)> {
        stream.set_nodelay(true)?;
        stream.set_nonblocking(true)?;
        let watch = Arc::try_clone(&self.watch)?;
        let seen = self.seen_of(client)?;
        let is_seen = seen.is_some();
        let connection = Connection::new(self.rt, watch, self.limits, stream, seen);
        let (first, second) = Shared::pair(self.alloc, connection)?;
        Ok((TcpSource::new(first), TcpSink::new(second, is_seen)))
    }

    /// What the next connection has for the observer, where there is one.
    fn seen_of(&mut self, client: SocketAddr) -> Result<Option<Seen>, AllocError> {
        let Some(observer) = &self.observer else {
            return Ok(None);
        };
        let observer = Arc::try_clone(observer)?;
        self.taken = self.taken.wrapping_add(1);
        let seen = Seen::new(self.alloc, observer, self.taken, client.ip())?;
        Ok(Some(seen))
    }
}

/// The turn behind this one, of so many.
fn next_turn(turn: usize, count: usize) -> usize {
    if turn < count.saturating_sub(1) {
        turn + 1
    } else {
        0
    }
}
