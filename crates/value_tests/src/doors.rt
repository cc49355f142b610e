//! Doors in memory, and gates: which calls a script fails, and that calls succeed where there is memory.
ghost use Rattle.std.specs.Prelude.{◌≡◌, ◌<◌};

use q_base::Memory;
use q_outside::{
    Doors, EndlessSink, Gate, HoldGate, ListDoors, Next, OpenGate, PlainSource, Script, Served, Why,
};
use std::alloc::Global;
use std::collections::VecDeque;
use std::marker::Brand;
use std::sync::ledger::{Blank, Ledger};
use std::test::Fail;

/// What doors answered, a letter for each call, and how many connections they have back.
#[derive(Debug, Drop)]
struct Outcome {
    answers: Vec<u8>,
    handed: usize,
    closings: u64,
}

/// The source of one byte.
fn source_of(alloc: Global, byte: u8) -> Result<PlainSource, Memory> {
    Ok(PlainSource::of(vec![in alloc; byte]?))
}

/// Five calls of doors of two connections, of which the second call fails. Each connection is handed
/// back at once.
fn walk_counted<L: Ledger>(alloc: Global, blank: Blank) -> Result<Outcome, Memory>
    requires name { blank.name ≡ L.name }
    requires parts { blank.parts ≡ L.parts }
    requires some { 0 < L.parts }
{
    let mut connections = VecDeque::with_capacity(alloc, 2)?;
    connections.push_back((source_of(alloc, b'a')?, EndlessSink))?;
    connections.push_back((source_of(alloc, b'b')?, EndlessSink))?;
    let script = Script::of(vec![in alloc; 1]?, Vec::new(alloc));
    let mut doors = ListDoors::<PlainSource, EndlessSink, L>::new(
        alloc,
        connections,
        script,
        blank,
    )?;
    let mut answers = Vec::new(alloc);
    let mut closings = 0u64;
    for _ in 0..5 {
        let letter = match doors.next() {
            Ok(Next::Connection { source, sink }) => {
                let letter = source.bytes.first().copied().unwrap_or(b'?');
                let served = Served {
                    requests: 0,
                    why: Why::InputEnd,
                };
                doors.back(source, sink, Some(served));
                letter
            }
            Ok(Next::Closed) => {
                closings = closings.saturating_add(1);
                b'.'
            }
            Err(_) => b'!',
        };
        answers.push(letter)?;
    }
    Ok(Outcome {
        answers,
        handed: doors.handed.len(),
        closings,
    })
}

/// The same with a ledger of its own.
fn walk(alloc: Global) -> Result<Outcome, Memory> {
    walk_counted::<Brand>(alloc, Blank::new(1))
}

#[test]
fn doors_give_their_connections_in_order(rt: HostRuntime) -> Result<(), Fail> {
    let outcome = walk(rt.alloc())?;
    assert_eq!(rt; outcome.answers.as_slice(), b"a!b..".as_slice());
    assert_eq!(rt; outcome.handed, 2);
    assert_eq!(rt; outcome.closings, 2);
    Ok(())
}

#[test]
fn a_gate_holds_its_worker_alone_and_gives_up(rt: HostRuntime) -> Result<(), Fail> {
    OpenGate.pass(0);
    let gate = HoldGate::new(rt.alloc(), 1)?;
    gate.pass(0);
    gate.pass(2);
    assert!(rt; !gate.has_given_up());
    let other = gate.clone()?;
    other.open();
    gate.pass(1);
    assert!(rt; !gate.has_given_up());
    let closed = HoldGate::new(rt.alloc(), 1)?;
    closed.pass(1);
    assert!(rt; closed.has_given_up());
    Ok(())
}
