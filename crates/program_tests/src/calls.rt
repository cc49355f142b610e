//! The program over bytes and connections in memory, with calls that fail.
ghost use Rattle.std.specs.Prelude.{◌≡◌, ◌<◌, IfOk, IfSome};
ghost use Rattle.quaestor_prog.specs.ListPlaces.{AreUnused};

use crate::worked::GIVEN;
use client_session::{LinkAnswer, SessionRefusal};
use q_base::{Memory, Moment};
use q_outside::{
    Clock, EndlessSink, Limits, ListDoors, ListSink, ListSource, PlainSource, Script, Served, Sink,
};
use quaestor_prog::{ListPlaces, Status, Watched, run};
use std::alloc::Global;
use std::collections::VecDeque;
use std::marker::Brand;
use std::process::Abort;
use std::rt;
use std::sync::Wait;
use std::sync::ledger::{Blank, Ledger};
use std::thread::Threads;

/// A capacity that no output here uses up.
pub(crate) const AMPLE: usize = 2_000_000;

/// A size of pieces that no input and no output here reaches.
pub(crate) const WHOLE: usize = 10_000_000;

/// What a source or a sink does in a run: the call that fails, and the size of the others' pieces.
#[derive(Clone, Copy)]
pub(crate) struct Calls {
    failing: Option<usize>,
    size: usize,
}

/// This call fails.
pub(crate) fn failing_at(call: usize, size: usize) -> Calls {
    Calls {
        failing: Some(call),
        size,
    }
}

/// No call fails.
pub(crate) fn calls_of(size: usize) -> Calls {
    Calls {
        failing: None,
        size,
    }
}

/// The request of each connection that comes.
const REQUEST: &[u8] = b"GET /v1/stats HTTP/1.1\r\nHost: a\r\n\r\n";

/// The doors of an address: how many connections come, and which call fails.
#[derive(Clone, Copy)]
pub(crate) struct Comers {
    pub connections: usize,
    pub failing: Option<u64>,
}

/// How a run ended, what it wrote, and what the places have then.
#[derive(Debug, Drop)]
pub(crate) struct Outcome {
    pub status: Status,
    pub written: Vec<u8>,
    pub kept: Kept,
}

/// What the places have at the end of a run.
#[derive(Debug, Drop)]
pub(crate) struct Kept {
    /// How the connections were served, where the places have doors.
    pub handed: Option<Vec<Option<Served>>>,
    /// The limits of time that they were asked for.
    pub limits: Option<Limits>,
    /// Who they were told to watch.
    pub watched: Option<Watched>,
    /// How many answers the link has left, where the places have one.
    pub left: Option<usize>,
    /// Why a read had no answer.
    pub heard: Option<SessionRefusal>,
}

/// A script of such calls.
pub(crate) fn script_of(alloc: Global, calls: Calls) -> Result<Script, Memory> {
    let mut failing = Vec::new(alloc);
    if let Some(call) = calls.failing {
        failing.push(call as u64)?;
    }
    let sizes = vec![in alloc; calls.size]?;
    Ok(Script::of(failing, sizes))
}

/// The words of a command line.
pub(crate) fn words_of(alloc: Global, line: &[&str]) -> Result<Vec<String>, Memory> {
    let mut words = Vec::new(alloc);
    for word in line {
        words.push(String::from_str(alloc, word)?)?;
    }
    Ok(words)
}

/// The doors of an address, where there are any.
fn doors_of<M: Ledger>(
    alloc: Global,
    comers: Option<Comers>,
    blank: Blank,
) -> Result<Option<ListDoors<PlainSource, EndlessSink, M>>, Memory>
    requires name { blank.name ≡ M.name }
    requires parts { blank.parts ≡ M.parts }
    requires some { 0 < M.parts }
    ensures { IfOk result (λ doors. IfSome doors AreUnused) }
{
    let Some(comers) = comers else {
        return Ok(None);
    };
    let mut connections = VecDeque::new(alloc);
    for _ in 0..comers.connections {
        let source = PlainSource::of(Vec::from_slice(alloc, REQUEST)?);
        connections.push_back((source, EndlessSink))?;
    }
    let mut failing = Vec::new(alloc);
    if let Some(call) = comers.failing {
        failing.push(call)?;
    }
    let script = Script::of(failing, Vec::new(alloc));
    Ok(Some(ListDoors::new(alloc, connections, script, blank)?))
}

/// How connections were served that doors have back.
fn handed_of<M: Ledger>(
    alloc: Global,
    doors: Option<ListDoors<PlainSource, EndlessSink, M>>,
) -> Result<Option<Vec<Option<Served>>>, Memory> {
    let Some(doors) = doors else {
        return Ok(None);
    };
    let mut handed = Vec::new(alloc);
    for back in &doors.handed {
        handed.push(back.served)?;
    }
    Ok(Some(handed))
}

/// The moments of a clock that stands at the greatest.
pub(crate) const STANDING: &[u64] = &[GIVEN];

/// A clock that gives moments in turn, and the last of them again and again.
#[derive(Clone, Drop)]
struct Turns {
    now: u64,
    left: &'static [u64],
}

impl Turns {
    /// The clock of these moments.
    fn of(moments: &'static [u64]) -> Turns {
        Turns {
            now: 0,
            left: moments,
        }
    }
}

impl Clock for Turns {
    ghost tick = { λ _ _ _. Unit {0} };

    fn now(&mut self) -> Moment {
        if let Some((first, others)) = self.left.split_first() {
            self.now = *first;
            self.left = others;
        }
        Moment::of(self.now)
    }
}

/// What there is around a run: the moments of the clock, who comes to the address, and what a link there
/// answers, the first answer last.
#[derive(Drop)]
pub(crate) struct Place {
    pub moments: &'static [u64],
    pub comers: Option<Comers>,
    pub answers: Option<Vec<LinkAnswer>>,
}

/// Runs the program over doors and places whose counts are those of these ledgers. Its status, and what
/// the places have at the end.
pub(crate) fn run_with<K, M, F, R>(
    rt: &R,
    alloc: Global,
    words: &[String],
    source: &mut ListSource,
    sink: &mut K,
    place: Place,
    doors: Blank,
    places: Blank,
) -> Result<(Status, Kept), Memory>
where
    K: Sink,
    M: Ledger,
    F: Ledger,
    R: Threads + Wait + rt::Clock + Copy + Send + 'static,
    requires doors { (doors.name ≡ M.name) × (doors.parts ≡ M.parts) × (0 < M.parts) }
    requires places { (places.name ≡ F.name) × (places.parts ≡ F.parts) × (0 < F.parts) }
{
    let mut clock = Turns::of(place.moments);
    let address = String::from_str(alloc, "here")?;
    let doors = doors_of::<M>(alloc, place.comers, doors)?;
    let mut places = ListPlaces::<PlainSource, EndlessSink, M, F>::new(
        address,
        doors,
        place.answers,
        places,
    );
    let status = run(rt, alloc, words, source, sink, &mut clock, &mut places);
    let kept = Kept {
        handed: handed_of(alloc, places.kept)?,
        limits: places.limits,
        watched: places.watched,
        left: places.link.as_ref().map(|link| link.answers.len()),
        heard: places.heard,
    };
    Ok((status, kept))
}

/// The same, over a sink that keeps what it is given.
fn run_counted<L, M, F, R>(
    rt: &R,
    alloc: Global,
    words: &[String],
    source: &mut ListSource,
    capacity: usize,
    script: Script,
    place: Place,
    sink: Blank,
    doors: Blank,
    places: Blank,
) -> Result<Outcome, Memory>
where
    L: Ledger,
    M: Ledger,
    F: Ledger,
    R: Threads + Wait + rt::Clock + Copy + Send + 'static,
    requires sink { (sink.name ≡ L.name) × (sink.parts ≡ L.parts) × (0 < L.parts) }
    requires doors { (doors.name ≡ M.name) × (doors.parts ≡ M.parts) × (0 < M.parts) }
    requires places { (places.name ≡ F.name) × (places.parts ≡ F.parts) × (0 < F.parts) }
{
    let mut sink = ListSink::<L>::new(alloc, capacity, script, sink)?;
    let (status, kept) = run_with::<ListSink<L>, M, F, R>(
        rt, alloc, words, source, &mut sink, place, doors, places,
    )?;
    Ok(Outcome {
        status,
        written: sink.bytes,
        kept,
    })
}

/// Runs the program with these words over this input and this place.
fn run_in<R: Threads + Wait + rt::Clock + Copy + Send + AllocGlobal + 'static>(
    rt: &R,
    line: &[&str],
    input: &[u8],
    takes: Calls,
    capacity: usize,
    gives: Calls,
    place: Place,
) -> Result<Outcome, Memory> {
    let alloc = rt.alloc();
    let words = words_of(alloc, line)?;
    let bytes = Vec::from_slice(alloc, input)?;
    let mut source = ListSource::of(bytes, script_of(alloc, takes)?);
    let script = script_of(alloc, gives)?;
    run_counted::<Brand, Brand, Brand, R>(
        rt,
        alloc,
        &words,
        &mut source,
        capacity,
        script,
        place,
        Blank::new(1),
        Blank::new(1),
        Blank::new(1),
    )
}

/// Runs the program with these words over this input, where such connections come.
pub(crate) fn run_at<R: Threads + Wait + rt::Clock + Copy + Send + AllocGlobal + 'static>(
    rt: &R,
    line: &[&str],
    input: &[u8],
    takes: Calls,
    capacity: usize,
    gives: Calls,
    comers: Option<Comers>,
) -> Result<Outcome, Memory> {
    let place = Place {
        moments: STANDING,
        comers,
        answers: None,
    };
    run_in(rt, line, input, takes, capacity, gives, place)
}

/// Runs the program with these words, where a link answers so, over a sink of this capacity.
pub(crate) fn read_over<R: Threads + Wait + rt::Clock + Copy + Send + AllocGlobal + 'static>(
    rt: &R,
    line: &[&str],
    answers: Option<Vec<LinkAnswer>>,
    capacity: usize,
) -> Result<Outcome, Memory> {
    let place = Place {
        moments: STANDING,
        comers: None,
        answers,
    };
    run_in(
        rt,
        line,
        b"x",
        calls_of(WHOLE),
        capacity,
        calls_of(WHOLE),
        place,
    )
}

/// Runs the program with these words over this input.
pub(crate) fn run_over<R: Threads + Wait + rt::Clock + Copy + Send + AllocGlobal + 'static>(
    rt: &R,
    line: &[&str],
    input: &[u8],
    takes: Calls,
    capacity: usize,
    gives: Calls,
) -> Result<Outcome, Memory> {
    run_at(rt, line, input, takes, capacity, gives, None)
}

/// Serves this input by a clock that gives these moments.
pub(crate) fn pipe_by<R: Threads + Wait + rt::Clock + Copy + Send + AllocGlobal + 'static>(
    rt: &R,
    input: &[u8],
    moments: &'static [u64],
) -> Result<Outcome, Memory> {
    let place = Place {
        moments,
        comers: None,
        answers: None,
    };
    let all = calls_of(WHOLE);
    run_in(rt, &["pipe"], input, all, AMPLE, all, place)
}

/// Serves this input at the moment 100.
pub(crate) fn pipe_over<R: Threads + Wait + rt::Clock + Copy + Send + AllocGlobal + 'static>(
    rt: &R,
    input: &[u8],
    takes: Calls,
    capacity: usize,
    gives: Calls,
) -> Result<Outcome, Memory> {
    run_over(
        rt,
        &["pipe", "--clock", "100"],
        input,
        takes,
        capacity,
        gives,
    )
}

/// The run ended with this status, and wrote this.
pub(crate) fn assert_run(
    rt: &impl Abort,
    outcome: &Outcome,
    status: Status,
    written: &[u8],
    at: usize,
) {
    assert_eq!(rt; outcome.status, status, "at {at}");
    assert_eq!(rt; outcome.written.as_slice(), written, "at {at}");
}
