//! How a server ends, and what it hands back.
ghost use Rattle.std.specs.Prelude.{◌≡◌, ◌<◌};

use crate::sinks::{GET, KeptSink, connections_of, requests};
use hub_core::Config;
use kept_desk::NoKeeper;
use q_base::{Memory, Moment};
use q_outside::{FixedClock, ListDoors, OpenGate, PlainSource, Script, Served};
use quaestor_serve::{Crew, NoMonitor, ServeEnd, ServeWhy, Trim, serve};
use std::alloc::Global;
use std::marker::Brand;
use std::rt::Clock;
use std::sync::Wait;
use std::sync::ledger::{Blank, Ledger};
use std::test::Fail;
use std::thread::Threads;

/// How a server ended, and how each connection was served that it handed back, with the number of bytes
/// that it was given.
#[derive(Debug, Drop)]
struct Outcome {
    end: ServeEnd,
    handed: Vec<(Option<Served>, usize)>,
}

/// A case: how many connections there are, which call of the doors fails, how many places, workers and
/// matchers there are, and how many connections are to be served.
#[derive(Clone, Copy, Debug)]
struct Case {
    connections: usize,
    failing: Option<u64>,
    crew: Crew,
    most: u64,
}

/// Serves connections of one request each.
fn serve_counted<L: Ledger, R: Threads + Wait + Clock + Copy + Send + 'static>(
    rt: &R,
    alloc: Global,
    case: Case,
    blank: Blank,
) -> Result<Outcome, Memory>
    requires name { blank.name ≡ L.name }
    requires parts { blank.parts ≡ L.parts }
    requires some { 0 < L.parts }
    requires places { 0 < case.crew.places }
    requires workers { 0 < case.crew.workers }
{
    let connections = connections_of(alloc, case.connections)?;
    let mut failing = Vec::new(alloc);
    if let Some(call) = case.failing {
        failing.push(call)?;
    }
    let script = Script::of(failing, Vec::new(alloc));
    let mut doors = ListDoors::<PlainSource, KeptSink, L>::new(alloc, connections, script, blank)?;
    let clock = FixedClock {
        at: Moment::of(100),
    };
    let end = serve(
        rt,
        alloc,
        Config::default(),
        &mut doors,
        &clock,
        &OpenGate,
        &mut NoKeeper,
        &NoMonitor,
        case.crew,
        case.most,
    );
    let mut handed = Vec::new(alloc);
    for back in &doors.handed {
        handed.push((back.served, back.sink.bytes.len()))?;
    }
    Ok(Outcome { end, handed })
}

/// The same with a ledger of its own.
fn serve_case<R: Threads + Wait + Clock + Copy + Send + 'static>(
    rt: &R,
    alloc: Global,
    case: Case,
) -> Result<Outcome, Memory>
    requires places { 0 < case.crew.places }
    requires workers { 0 < case.crew.workers }
{
    serve_counted::<Brand, R>(rt, alloc, case, Blank::new(1))
}

/// A case without matchers, with a worker for each place.
fn case_of(connections: usize, failing: Option<u64>, places: u32, most: u64) -> Case
    ensures places { result.crew.places ≡ places }
    ensures workers { result.crew.workers ≡ places }
{
    let crew = Crew {
        places,
        workers: places,
        matchers: 0,
        trim: Trim::Full,
    };
    Case {
        connections,
        failing,
        crew,
        most,
    }
}

#[test]
fn a_server_ends_for_each_cause(rt: HostRuntime) -> Result<(), Fail> {
    let alloc = rt.alloc();
    let two = serve_case(&rt, alloc, case_of(2, None, 1, 2))?;
    let one = serve_case(&rt, alloc, case_of(1, None, 2, 2))?;
    let failed = serve_case(&rt, alloc, case_of(3, Some(1), 2, 3))?;
    let none = serve_case(&rt, alloc, case_of(1, None, 1, 0))?;
    let cases = [
        (two, ServeWhy::Limit, 2),
        (one, ServeWhy::Closed, 1),
        (failed, ServeWhy::DoorFault, 1),
        (none, ServeWhy::Limit, 0),
    ];
    for (outcome, why, connections) in cases {
        assert_eq!(rt; outcome.end, ServeEnd { connections, why });
        assert_eq!(rt; outcome.handed.len() as u64, connections);
        for (served, bytes) in &outcome.handed {
            assert_eq!(rt; *served, Some(requests(1)));
            assert!(rt; *bytes > GET.len());
        }
    }
    Ok(())
}

#[test]
fn many_connections_are_served_beside_matchers(rt: HostRuntime) -> Result<(), Fail> {
    let case = Case {
        connections: 100,
        failing: None,
        crew: Crew {
            places: 4,
            workers: 4,
            matchers: 2,
            trim: Trim::Full,
        },
        most: 100,
    };
    let outcome = serve_case(&rt, rt.alloc(), case)?;
    assert_eq!(rt; outcome.end.why, ServeWhy::Limit);
    assert_eq!(rt; outcome.handed.len(), 100);
    for (served, _) in &outcome.handed {
        assert_eq!(rt; *served, Some(requests(1)));
    }
    Ok(())
}
