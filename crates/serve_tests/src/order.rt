//! What was acknowledged on a connection that is over is read on a later one.
ghost use Rattle.std.specs.Prelude.{◌≡◌, ◌<◌};

use crate::sinks::{KeptSink, connection_from};
use hub_core::Config;
use kept_desk::NoKeeper;
use q_base::{Memory, Moment};
use q_outside::{FixedClock, ListDoors, OpenGate, PlainSource, Script};
use quaestor_serve::{Crew, NoMonitor, Trim, serve};
use std::alloc::Global;
use std::collections::VecDeque;
use std::marker::Brand;
use std::rt::Clock;
use std::sync::Wait;
use std::sync::ledger::{Blank, Ledger};
use std::test::Fail;
use std::thread::Threads;

/// A write of a document.
pub(crate) const PUT: &[u8] =
    b"PUT /v1/d/shop/p1 HTTP/1.1\r\nHost: a\r\nContent-Length: 7\r\n\r\n{\"a\":1}";

/// A read of it.
pub(crate) const GET: &[u8] = b"GET /v1/d/shop/p1 HTTP/1.1\r\nHost: a\r\n\r\n";

/// A connection that was handed back: how many had come by then, what it was told, and what was noted of
/// that.
#[derive(Debug, Drop)]
struct Told {
    after: usize,
    reply: Vec<u8>,
    noted: Vec<u16>,
}

/// Serves a connection for each request, at one place, so that each one comes behind the end of the one
/// before.
fn serve_counted<L: Ledger, R: Threads + Wait + Clock + Copy + Send + 'static>(
    rt: &R,
    alloc: Global,
    asked: &[&[u8]],
    blank: Blank,
) -> Result<Vec<Told>, Memory>
    requires name { blank.name ≡ L.name }
    requires parts { blank.parts ≡ L.parts }
    requires some { 0 < L.parts }
{
    let mut connections = VecDeque::new(alloc);
    for request in asked {
        let mut bytes = Vec::new(alloc);
        bytes.extend_from_slice(request)?;
        connections.push_back(connection_from(alloc, bytes, None))?;
    }
    let most = connections.len() as u64;
    let script = Script::of(Vec::new(alloc), Vec::new(alloc));
    let mut doors = ListDoors::<PlainSource, KeptSink, L>::new(alloc, connections, script, blank)?;
    let clock = FixedClock {
        at: Moment::of(100),
    };
    let crew = Crew {
        places: 1,
        workers: 1,
        matchers: 0,
        trim: Trim::Full,
    };
    let _ = serve(
        rt,
        alloc,
        Config::default(),
        &mut doors,
        &clock,
        &OpenGate,
        &mut NoKeeper,
        &NoMonitor,
        crew,
        most,
    );
    let mut told = Vec::new(alloc);
    for back in &doors.handed {
        let mut reply = Vec::new(alloc);
        reply.extend_from_slice(back.sink.bytes.as_slice())?;
        let mut noted = Vec::new(alloc);
        noted.extend_from_slice(back.sink.noted.as_slice())?;
        told.push(Told {
            after: back.after,
            reply,
            noted,
        })?;
    }
    Ok(told)
}

/// The same with a ledger of its own.
fn serve_each<R: Threads + Wait + Clock + Copy + Send + 'static>(
    rt: &R,
    alloc: Global,
    asked: &[&[u8]],
) -> Result<Vec<Told>, Memory> {
    serve_counted::<Brand, R>(rt, alloc, asked, Blank::new(1))
}

#[test]
fn what_was_acknowledged_is_read_on_a_later_connection(rt: HostRuntime) -> Result<(), Fail> {
    let told = serve_each(&rt, rt.alloc(), &[GET, PUT, GET])?;
    assert_eq!(rt; told.len(), 3);
    let heads: [(&[u8], usize, [u16; 1]); 3] = [
        (b"HTTP/1.1 404 Not Found\r\n", 1, [404]),
        (b"HTTP/1.1 201 Created\r\n", 2, [201]),
        (b"HTTP/1.1 200 OK\r\n", 3, [200]),
    ];
    for (told, (head, after, noted)) in told.iter().zip(heads) {
        assert!(rt; told.reply.as_slice().starts_with(head));
        assert_eq!(rt; told.after, after);
        assert_eq!(rt; told.noted.as_slice(), noted.as_slice());
    }
    if let Some(last) = told.last() {
        assert!(rt; last.reply.as_slice().ends_with(b"\r\n\r\n{\"a\":1}"));
    }
    Ok(())
}
