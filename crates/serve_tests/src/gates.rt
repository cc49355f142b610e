//! Connections are served beside each other.
ghost use Rattle.std.specs.Prelude.{◌≡◌, ◌<◌};

use crate::sinks::{KeptSink, connection_of, requests};
use hub_core::Config;
use kept_desk::NoKeeper;
use q_base::{Memory, Moment};
use q_outside::{FixedClock, HoldGate, ListDoors, PlainSource, Script, Served};
use quaestor_serve::{Crew, NoMonitor, Trim, serve};
use std::alloc::Global;
use std::collections::VecDeque;
use std::marker::Brand;
use std::rt::Clock;
use std::sync::Wait;
use std::sync::ledger::{Blank, Ledger};
use std::test::Fail;
use std::thread::Threads;

/// How connections were served, in the order in which they were handed back, where the first is held at
/// the gate until another has opened it.
fn hold_counted<L: Ledger, R: Threads + Wait + Clock + Copy + Send + 'static>(
    rt: &R,
    alloc: Global,
    gate: &HoldGate,
    connections: VecDeque<(PlainSource, KeptSink)>,
    crew: Crew,
    blank: Blank,
) -> Result<Vec<Option<Served>>, Memory>
    requires name { blank.name ≡ L.name }
    requires parts { blank.parts ≡ L.parts }
    requires some { 0 < L.parts }
    requires places { 0 < crew.places }
    requires workers { 0 < crew.workers }
{
    let most = connections.len() as u64;
    let script = Script::of(Vec::new(alloc), Vec::new(alloc));
    let mut doors = ListDoors::<PlainSource, KeptSink, L>::new(alloc, connections, script, blank)?;
    let clock = FixedClock {
        at: Moment::of(100),
    };
    let _ = serve(
        rt,
        alloc,
        Config::default(),
        &mut doors,
        &clock,
        gate,
        &mut NoKeeper,
        &NoMonitor,
        crew,
        most,
    );
    let mut handed = Vec::new(alloc);
    for back in &doors.handed {
        handed.push(back.served)?;
    }
    Ok(handed)
}

/// The same with a ledger of its own, where the last of so many connections opens the gate.
fn hold<R: Threads + Wait + Clock + Copy + Send + 'static>(
    rt: &R,
    alloc: Global,
    gate: &HoldGate,
    others: usize,
    places: u32,
) -> Result<Vec<Option<Served>>, Memory>
    requires { 0 < places }
{
    let mut connections = VecDeque::new(alloc);
    connections.push_back(connection_of(alloc, 2, None)?)?;
    for n in 0..others {
        let opens = if n + 1 == others {
            Some(gate.clone()?)
        } else {
            None
        };
        connections.push_back(connection_of(alloc, 1, opens)?)?;
    }
    let crew = Crew {
        places,
        workers: places,
        matchers: 0,
        trim: Trim::Full,
    };
    hold_counted::<Brand, R>(rt, alloc, gate, connections, crew, Blank::new(1))
}

#[test]
fn a_connection_that_stays_holds_back_no_other(rt: HostRuntime) -> Result<(), Fail> {
    for (others, places) in [(1, 2), (20, 4)] {
        let gate = HoldGate::new(rt.alloc(), 0)?;
        let handed = hold(&rt, rt.alloc(), &gate, others, places)?;
        assert!(rt; !gate.has_given_up());
        assert_eq!(rt; handed.len(), others + 1);
        // The one that stayed has two requests. It ends behind all others but those that have a place
        // beside it when it is let go on.
        let mut has_stayed = false;
        for (n, served) in handed.iter().enumerate() {
            if *served == Some(requests(2)) {
                assert!(rt; !has_stayed);
                assert!(rt; n + places as usize >= handed.len());
                has_stayed = true;
            } else {
                assert_eq!(rt; *served, Some(requests(1)));
            }
        }
        assert!(rt; has_stayed);
    }
    Ok(())
}
