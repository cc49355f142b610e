//! A server at a port of its own, and a client of it.

use hub_core::Config;
use kept_desk::NoKeeper;
use q_base::Moment;
use q_outside::{FixedClock, Limits, OpenGate};
use quaestor_serve::{Crew, NoMonitor, ServeEnd, Trim, serve};
use std::fs::{File, Files};
use std::io::{Read, Write};
use std::net::{Net, TcpListener, TcpStream};
use std::rt::Clock;
use std::sync::Wait;
use std::test::Fail;
use std::thread::{JoinHandle, Threads};
use std::{io, thread};
use tcp_doors::TcpDoors;

/// A server of one connection, in a thread of its own, and a connection to it.
#[derive(Drop)]
pub(crate) struct Server {
    pub handle: JoinHandle<ServeEnd>,
    pub client: TcpStream,
}

/// Serves one connection.
fn serve_one<R>(rt: R, doors: TcpDoors<R>) -> ServeEnd
where
    R: AllocGlobal + Clock + Threads + Wait + Copy + Send + 'static,
{
    let mut doors = doors;
    let clock = FixedClock {
        at: Moment::of(100),
    };
    let crew = Crew {
        places: 1,
        workers: 1,
        matchers: 1,
        trim: Trim::Full,
    };
    serve(
        &rt,
        rt.alloc(),
        Config::default(),
        &mut doors,
        &clock,
        &OpenGate,
        &mut NoKeeper,
        &NoMonitor,
        crew,
        1,
    )
}

/// Limits of time that no client here meets, but one that is silent for ever.
pub(crate) const AMPLE: Limits = Limits {
    idle: 30,
    head_time: 30,
    reply_time: 30,
    least_rate: 1_000,
    grace: 30,
};

/// Starts a server with these limits of time, and connects to it.
pub(crate) fn start<R>(rt: R, limits: Limits) -> Result<Server, Fail>
where
    R: Net<Listener = TcpListener, Stream = TcpStream>
        + Files<File = File>
        + AllocGlobal
        + Clock
        + Threads
        + Wait
        + Copy
        + Send
        + 'static,
{
    let doors = TcpDoors::bind(rt, "127.0.0.1:0", limits)?;
    let address = doors.address()?;
    let handle = thread::spawn(&rt, move || serve_one(rt, doors))?;
    let client = TcpStream::connect(&rt, address)?;
    Ok(Server { handle, client })
}

/// Sends bytes.
pub(crate) fn send(client: &TcpStream, bytes: &[u8]) -> io::Result<()> {
    let mut client = client;
    client.write_all(bytes)
}

/// So many bytes of what the server sends.
pub(crate) fn receive<R: AllocGlobal>(
    rt: &R,
    client: &TcpStream,
    count: usize,
) -> io::Result<Vec<u8>> {
    let mut client = client;
    let mut bytes = vec![in rt.alloc(); 0; count]?;
    client.read_exact(&mut bytes)?;
    Ok(bytes)
}

/// All that the server still sends.
pub(crate) fn receive_all<R: AllocGlobal>(rt: &R, client: &TcpStream) -> io::Result<Vec<u8>> {
    let mut client = client;
    let mut bytes = Vec::new(rt.alloc());
    client.read_to_end(&mut bytes)?;
    Ok(bytes)
}
