//! Doors over the listeners of an address.
ghost use Rattle.std.specs.Prelude.{◌≡◌, None, IfOk};

use crate::ending::Ending;
use crate::entrance::{Entrance, Entry};
use crate::observer::Observer;
use crate::sink::TcpSink;
use crate::source::TcpSource;
use crate::watch::Watch;
use q_outside::{Doors, Failed, Limits, Next, Served};
use std::alloc::{AllocError, Global};
use std::fs::{File, Files};
use std::io;
use std::net::{Net, SocketAddr, TcpListener, TcpStream};
use std::rt::Clock;
use std::sync::{Arc, Wait};

/// Doors over the listeners of an address. They show no connections, and are closed once the process was
/// told to end, by SIGTERM or SIGINT, where it was started with these blocked.
///
/// Only a fault of a listener is a fault of the doors. A connection that fails before it is given is
/// dropped, and the next one is given. Where there is no descriptor or memory for a further connection
/// the doors wait until there is. At the greatest count of faults or of closings, 2^64 - 1, they wait
/// for ever in place of a further one.
#[derive(Drop)]
pub struct TcpDoors<R: Drop> {
    rt: R,
    entrance: Entrance<R>,
    closings: u64,
    faults: u64,
}

impl<R> TcpDoors<R>
where
    R: Net<Listener = TcpListener, Stream = TcpStream>
        + Files<File = File>
        + AllocGlobal
        + Copy
        + Drop,
{
    /// Doors at an address, such as `127.0.0.1:8080`, `[::1]:8080` or `localhost:8080`, which were not
    /// closed and have not failed yet. They listen at each address that a name has.
    pub fn bind(rt: R, address: &str, limits: Limits) -> io::Result<TcpDoors<R>>
        ensures closings { IfOk result (λ d. d.closings ≡ 0) }
        ensures faults { IfOk result (λ d. d.faults ≡ 0) }
    {
        TcpDoors::bind_seen(rt, address, limits, None)
    }

    /// The same with somebody who counts and logs what the connections do, where somebody does.
    pub fn bind_seen(
        rt: R,
        address: &str,
        limits: Limits,
        observer: Option<Arc<Observer, Global>>,
    ) -> io::Result<TcpDoors<R>>
        ensures closings { IfOk result (λ d. d.closings ≡ 0) }
        ensures faults { IfOk result (λ d. d.faults ≡ 0) }
    {
        let watch = Watch::new(&rt, limits.grace);
        let entrance = Entrance::bind(rt, address, limits, watch, observer)?;
        Ok(TcpDoors::over(rt, entrance))
    }

    /// Doors that no signal closes, for those who look at a server until its end.
    pub fn bind_beside(rt: R, address: &str, limits: Limits) -> io::Result<TcpDoors<R>>
        ensures closings { IfOk result (λ d. d.closings ≡ 0) }
        ensures faults { IfOk result (λ d. d.faults ≡ 0) }
    {
        let entrance = Entrance::bind(rt, address, limits, Watch::idle(), None)?;
        Ok(TcpDoors::over(rt, entrance))
    }
}

impl<R: Drop> TcpDoors<R> {
    /// Doors over an entrance, which were not closed and have not failed yet.
    fn over(rt: R, entrance: Entrance<R>) -> TcpDoors<R>
        ensures closings { result.closings ≡ 0 }
        ensures faults { result.faults ≡ 0 }
    {
        TcpDoors {
            rt,
            entrance,
            closings: 0,
            faults: 0,
        }
    }

    /// The first address at which the doors are, with the port that the system chose where it was to.
    pub fn address(&self) -> io::Result<SocketAddr> {
        self.entrance.address()
    }

    /// Whether the server was told to end, for others than its connections.
    pub fn ending(&self) -> Result<Ending, AllocError> {
        self.entrance.ending()
    }
}

impl<R: Wait + Clock + Copy + Send + Drop + 'static> Doors for TcpDoors<R> {
    type From = TcpSource<R>;

    type To = TcpSink<R>;

    ghost at = { λ d. record { left = None; given = None; handed = None; away = None; closings = d.closings; faults = d.faults } };

    fn next(&mut self) -> Result<Next<TcpSource<R>, TcpSink<R>>, Failed> {
        for _ in self.rt.forever() {
            match self.entrance.wait() {
                Entry::Given(source, sink) => return Ok(Next::Connection { source, sink }),
                Entry::Closed if self.closings < u64::MAX => {
                    self.closings += 1;
                    return Ok(Next::Closed);
                }
                Entry::Failed if self.faults < u64::MAX => {
                    self.faults += 1;
                    return Err(Failed);
                }
                _ => {}
            }
        }
        unreachable!()
    }

    /// The stream of the connection was closed when its sink was ended, and is now at the latest.
    fn back(&mut self, _source: TcpSource<R>, sink: TcpSink<R>, _served: Option<Served>) {
        sink.leave();
    }
}
