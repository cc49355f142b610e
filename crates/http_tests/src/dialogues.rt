//! Each end of a connection, and that the source waits for nothing before what is due was given.
ghost use Rattle.std.specs.Prelude.{◌≡◌, ◌<◌, Some, None, codes, if◌then◌else◌};
ghost use Rattle.q_outside.specs.Ends.{Gave};

use crate::asks::new_room;
use dialogue::{Answers, hold_dialogue};
use http_message::{FramingRefusal, Request, RequestRoom};
use q_base::Memory;
use q_outside::{Failed, ListSink, ListSource, Note, Script, Served, Sink, Source, Why, give_all};
use std::alloc::Global;
use std::cell::Cell;
use std::marker::Brand;
use std::process::Abort;
use std::sync::ledger::{Blank, Ledger};
use std::test::Fail;

/// A request that asks for nothing more.
const GET: &[u8] = b"GET / HTTP/1.1\r\nHost: a\r\n\r\n";

/// One that asks for the end of the connection.
const CLOSING: &[u8] = b"GET / HTTP/1.1\r\nHost: a\r\nConnection: close\r\n\r\n";

/// The head of one that waits for `100 Continue`, and its body.
const EXPECTING: &[u8] =
    b"PUT / HTTP/1.1\r\nHost: a\r\nExpect: 100-continue\r\nContent-Length: 2\r\n\r\n";

const BODY: &[u8] = b"{}";

/// What it waits for (RFC 9110, section 15.2.1).
const CONTINUE: &[u8] = b"HTTP/1.1 100 Continue\r\n\r\n";

/// What has no head.
const UNFRAMED: &[u8] = b"x\r\n\r\n";

/// The replies here: the last of a connection is another one.
const NEXT: &[u8] = b"next;";

const LAST: &[u8] = b"last;";

/// Who answers each item by one of these replies, and counts the calls.
#[derive(Drop)]
struct Counter {
    answered: u64,
}

impl Answers for Counter {
    ghost can = { λ _. Unit {0} };

    ghost answers = { λ _ _ close text _. text ≡ (if close then codes "last;" else codes "next;") };

    ghost keeps = { λ _ _. Unit {0} };

    fn answer<K: Sink>(
        &mut self,
        sink: &mut K,
        _request: &Request<'_>,
        close: bool,
    ) -> Result<(), Failed> {
        self.answered = self.answered.saturating_add(1);
        reply(sink, close)
    }

    fn refuse<K: Sink>(
        &mut self,
        sink: &mut K,
        _refused: FramingRefusal,
        _head: bool,
    ) -> Result<(), Failed> {
        self.answered = self.answered.saturating_add(1);
        reply(sink, true)
    }

    ghost kept = { λ _. tt };

    ghost kept_on = { λ _ _ _ _ _. tt };
}

/// Gives a reply.
fn reply<K: Sink>(sink: &mut K, close: bool) -> Result<(), Failed>
    ensures { Gave (K.at sink.old) (K.at sink.new) (if close then codes "last;" else codes "next;") result }
{
    if close {
        return give_all(sink, LAST);
    }
    give_all(sink, NEXT)
}

/// How a connection went: how it ended, what was given, and how many items were answered.
#[derive(Debug, Drop)]
struct Outcome {
    served: Served,
    written: Vec<u8>,
    answered: u64,
}

/// Holds a dialogue over a sink whose faults are counted by this ledger.
fn hold_counted<L: Ledger, S: Source>(
    alloc: Global,
    room: &mut RequestRoom,
    source: &mut S,
    script: Script,
    blank: Blank,
) -> Result<Outcome, Memory>
    requires name { blank.name ≡ L.name }
    requires parts { blank.parts ≡ L.parts }
    requires some { 0 < L.parts }
{
    let mut sink = ListSink::<L>::new(alloc, 100_000, script, blank)?;
    let mut counter = Counter { answered: 0 };
    let served = hold_dialogue(&mut counter, source, &mut sink, room);
    Ok(Outcome {
        served,
        written: sink.bytes,
        answered: counter.answered,
    })
}

/// A script of which this call fails, and whose others move at most `size` bytes.
fn script_of(alloc: Global, failing: Option<u64>, size: usize) -> Result<Script, Memory> {
    let mut calls = Vec::new(alloc);
    if let Some(call) = failing {
        calls.push(call)?;
    }
    let sizes = vec![in alloc; size]?;
    Ok(Script::of(calls, sizes))
}

/// A source of these texts, one after another, of which this call fails.
fn source_of(
    alloc: Global,
    texts: &[&[u8]],
    failing: Option<u64>,
) -> Result<Box<ListSource>, Memory> {
    let bytes = all_of(alloc, texts)?;
    let source = ListSource::of(bytes, script_of(alloc, failing, 100_000)?);
    Ok(Box::new(alloc, source)?)
}

/// Holds a dialogue over a source.
fn hold_over<S: Source>(
    alloc: Global,
    room: &mut RequestRoom,
    source: &mut S,
    gives: Option<u64>,
    size: usize,
) -> Result<Outcome, Memory> {
    let script = script_of(alloc, gives, size)?;
    hold_counted::<Brand, S>(alloc, room, source, script, Blank::new(1))
}

/// Holds a dialogue over these texts, one after another.
fn hold(
    alloc: Global,
    texts: &[&[u8]],
    takes: Option<u64>,
    gives: Option<u64>,
    size: usize,
) -> Result<Outcome, Memory> {
    let mut room = new_room(alloc)?;
    let mut source = source_of(alloc, texts, takes)?;
    hold_over(alloc, &mut room, &mut *source, gives, size)
}

/// Texts, one after another.
fn all_of(alloc: Global, texts: &[&[u8]]) -> Result<Vec<u8>, Memory> {
    let mut all = Vec::new(alloc);
    for text in texts {
        all.extend_from_slice(text)?;
    }
    Ok(all)
}

/// The outcome is this one.
fn assert_outcome(
    rt: &impl Abort,
    outcome: &Outcome,
    requests: u64,
    why: Why,
    written: &[u8],
    at: usize,
) {
    assert_eq!(rt; outcome.served, Served { requests, why }, "at {at}");
    assert_eq!(rt; outcome.answered, requests, "at {at}");
    assert_eq!(rt; outcome.written.as_slice(), written, "at {at}");
}

/// Checks the outcome over these texts, whose source fails at this call.
fn check_end(
    rt: &impl Abort,
    alloc: Global,
    texts: &[&[u8]],
    fails: Option<u64>,
    requests: u64,
    why: Why,
    written: &[&[u8]],
    at: usize,
) -> Result<(), Memory> {
    let written = all_of(alloc, written)?;
    let outcome = hold(alloc, texts, fails, None, 100_000)?;
    assert_outcome(rt, &outcome, requests, why, &written, at);
    Ok(())
}

#[test]
fn a_connection_ends_in_each_way(rt: HostRuntime) -> Result<(), Fail> {
    let rows: [(&[&[u8]], Option<u64>, u64, Why, &[&[u8]]); 9] = [
        (&[], None, 0, Why::InputEnd, &[]),
        (&[GET, b"\r\n"], None, 1, Why::InputEnd, &[NEXT]),
        (&[GET, b"GET"], None, 1, Why::Truncated, &[NEXT]),
        (
            &[GET, EXPECTING, b"{"],
            None,
            1,
            Why::Truncated,
            &[NEXT, CONTINUE],
        ),
        (
            &[UNFRAMED, GET],
            None,
            1,
            Why::BadFraming { place: 0 },
            &[LAST],
        ),
        (
            &[GET, UNFRAMED],
            None,
            2,
            Why::BadFraming { place: 27 },
            &[NEXT, LAST],
        ),
        (
            &[GET, CLOSING, GET],
            None,
            2,
            Why::CloseAsked,
            &[NEXT, LAST],
        ),
        (&[GET], Some(0), 0, Why::ReadFault, &[]),
        (&[GET], Some(1), 1, Why::ReadFault, &[NEXT]),
    ];
    for (at, (texts, fails, requests, why, written)) in rows.into_iter().enumerate() {
        check_end(&rt, rt.alloc(), texts, fails, requests, why, written, at)?;
    }
    Ok(())
}

/// A text so many times, and then another.
fn repeated(alloc: Global, text: &[u8], count: usize, last: &[u8]) -> Result<Vec<u8>, Memory> {
    let mut all = Vec::new(alloc);
    for _ in 0..count {
        all.extend_from_slice(text)?;
    }
    all.extend_from_slice(last)?;
    Ok(all)
}

/// How a connection of 10,001 requests goes.
fn hold_many(alloc: Global) -> Result<Outcome, Memory> {
    let input = repeated(alloc, GET, 10_001, b"")?;
    hold(alloc, &[&input], None, None, 100_000)
}

#[test]
fn the_last_of_ten_thousand_replies_says_so(rt: HostRuntime) -> Result<(), Fail> {
    let replies = repeated(rt.alloc(), NEXT, 9_999, LAST)?;
    let outcome = hold_many(rt.alloc())?;
    assert_outcome(&rt, &outcome, 10_000, Why::RequestLimit, &replies, 0);
    Ok(())
}

/// Checks the outcome where this call of the sink fails, in pieces of 5 bytes: five calls are for
/// `100 Continue`, and one for each reply.
fn check_failing(rt: &impl Abort, alloc: Global, replies: &[u8], call: u64) -> Result<(), Memory> {
    let outcome = hold(alloc, &[EXPECTING, BODY, GET], None, Some(call), 5)?;
    let (requests, why) = match call {
        0..=4 => (0, Why::WriteFault),
        5 => (1, Why::WriteFault),
        6 => (2, Why::WriteFault),
        _ => (2, Why::InputEnd),
    };
    let given = call.min(7).saturating_mul(5) as usize;
    let written = replies.get(..given).unwrap_or(replies);
    assert_outcome(rt, &outcome, requests, why, written, given);
    Ok(())
}

#[test]
fn an_item_whose_continue_failed_is_not_answered(rt: HostRuntime) -> Result<(), Fail> {
    let replies = all_of(rt.alloc(), &[CONTINUE, NEXT, NEXT])?;
    for call in 0..8_u64 {
        check_failing(&rt, rt.alloc(), &replies, call)?;
    }
    Ok(())
}

/// A sink that shows how many bytes it was given.
#[derive(Drop)]
struct Shown<'a> {
    count: &'a Cell<usize>,
}

impl Sink for Shown<'_> {
    ghost at = { λ _. record { bytes = None; faults = 0 } };

    ghost ended = { λ _. Some None };

    fn give(&mut self, bytes: &[u8]) -> Result<usize, Failed> {
        self.count.set(self.count.get().saturating_add(bytes.len()));
        Ok(bytes.len())
    }

    fn end(&mut self) {}

    fn note(&mut self, _note: &Note<'_>) {}
}

/// A source of pieces that fails where it is asked for one before the due number of bytes was given.
#[derive(Drop)]
struct Patient<'a> {
    pieces: &'a [(&'a [u8], usize)],
    at: usize,
    given: &'a Cell<usize>,
    faults: u64,
}

impl Source for Patient<'_> {
    ghost at = { λ s. record { bytes = None; faults = s.faults } };

    fn held(&self) -> &[u8] {
        &[]
    }

    fn take(&mut self, into: &mut [u8]) -> Result<usize, Failed> {
        let Some((piece, due)) = self.pieces.get(self.at) else {
            return Ok(0);
        };
        if self.given.get() != *due && self.faults < u64::MAX {
            self.faults += 1;
            return Err(Failed);
        }
        self.at = self.at.saturating_add(1);
        let count = piece.len().min(into.len());
        into[..count].copy_from_slice(&piece[..count]);
        Ok(count)
    }

    fn begin(&mut self, _held: bool) {}

    fn is_ready(&mut self) -> bool {
        true
    }

    fn wait(&mut self) {}

    fn is_stopping(&mut self) -> bool {
        false
    }
}

/// Holds a dialogue over these pieces. How it was served, and how many bytes were given.
fn hold_patient(room: &mut RequestRoom, pieces: &[(&[u8], usize)]) -> (Served, usize) {
    let given = Cell::new(0);
    let mut source = Patient {
        pieces,
        at: 0,
        given: &given,
        faults: 0,
    };
    let mut sink = Shown { count: &given };
    let mut counter = Counter { answered: 0 };
    let served = hold_dialogue(&mut counter, &mut source, &mut sink, room);
    (served, given.get())
}

#[test]
fn nothing_is_taken_before_what_is_due_was_given(rt: HostRuntime) -> Result<(), Fail> {
    let mut room = new_room(rt.alloc())?;
    let both = all_of(rt.alloc(), &[GET, GET, EXPECTING])?;
    let pieces: [(&[u8], usize); 5] = [
        (&both, 0),
        (BODY, 10 + 25),
        (&GET[..9], 15 + 25),
        (&GET[9..], 15 + 25),
        (CLOSING, 20 + 25),
    ];
    let (served, given) = hold_patient(&mut room, &pieces);
    let wanted = Served {
        requests: 5,
        why: Why::CloseAsked,
    };
    assert_eq!(rt; served, wanted);
    assert_eq!(rt; given, 25 + 25);
    Ok(())
}

/// A source of these bytes whose server is ending.
#[derive(Drop)]
struct Stopping<'a> {
    left: &'a [u8],
}

impl Source for Stopping<'_> {
    ghost at = { λ _. record { bytes = None; faults = 0 } };

    fn held(&self) -> &[u8] {
        &[]
    }

    fn take(&mut self, into: &mut [u8]) -> Result<usize, Failed> {
        let count = self.left.len().min(into.len());
        into[..count].copy_from_slice(&self.left[..count]);
        self.left = &self.left[count..];
        Ok(count)
    }

    fn begin(&mut self, _held: bool) {}

    fn is_ready(&mut self) -> bool {
        true
    }

    fn wait(&mut self) {}

    fn is_stopping(&mut self) -> bool {
        true
    }
}

#[test]
fn a_stopped_connection_ends_behind_the_request_in_hand(rt: HostRuntime) -> Result<(), Fail> {
    let mut room = new_room(rt.alloc())?;
    for (first, why) in [(GET, Why::Stopped), (CLOSING, Why::CloseAsked)] {
        let both = all_of(rt.alloc(), &[first, GET])?;
        let mut source = Stopping { left: &both };
        let outcome = hold_over(rt.alloc(), &mut room, &mut source, None, 100_000)?;
        assert_outcome(&rt, &outcome, 1, why, LAST, 0);
    }
    Ok(())
}
