//! The top call.
ghost use Rattle.std.specs.Prelude.{◌≡◌, ◌⊎◌, ℕ, true, false, is_some, Option, None, IfErr, IfOk, map, string_bytes};
ghost use Rattle.std.specs.List.{enumerate_from};
ghost use Rattle.command_line.specs.declared.command_name.Simulation.{Simulation as ASimulation};
ghost use Rattle.kept_desk.specs.Filling.{Fills};
ghost use Rattle.quaestor_prog.specs.declared.status.Status.TheVariants.{StoreFault, Memory as OutOfMemory};
ghost use Rattle.q_outside.specs.Ends.{HasEnded, Ticks};
ghost use Rattle.command_line.specs.Commands.{AskHelp};
ghost use Rattle.quaestor_prog.specs.Reading.{IsReading};
ghost use Rattle.quaestor_prog.specs.Serving.{IsServing};
ghost use Rattle.quaestor_prog.specs.Run.{AreTimed, GaveText, HasSimulated, HasWritten, IsHelped, IsRefused, IsRun, IsRunKept, IsRunOver, IsSimulationText, IsText, IsUnbegun, IsUsage};
ghost use Rattle.command_line.specs.Words.{AreTaken, IsPipe, IsRead, IsServe, IsSimulation, PipeAsk, ReadAsk, ServeAsk, pipe_ask_of};

use crate::places::Places;
use crate::reading::read_at;
use crate::serving::{guarded, longest_of, serve_at};
use crate::status::Status;
use command_line::{Invocation, PipeOptions, Simulation, SimulationOptions, read_words};
use crash_core::crash_text;
use kept_desk::{Keeper, KeptDesk, NoKeeper};
use q_base::{Memory, Moment};
use q_outside::{Clock, Failed, FixedClock, Sink, Source, give_all};
use quaestor_server::{Config, Owned, Room, serve_connection};
use std::alloc::Global;
use std::mem::ManuallyDrop;
use std::rt;
use std::sync::Wait;
use std::thread::Threads;
use world_core::{Watch, world_text};

/// The line that is written for words that no command takes.
const USAGE: &[u8] = b"usage: quaestor pipe, serve, read or world\n";

/// Does all that the program does with these words, and returns its status.
///
/// `pipe` serves the source and the sink as one connection over a store that begins empty, or with what a
/// file keeps, in the configuration that its options ask for. It asks the clock; with `--clock N` it does the
/// same with a clock that stays at N seconds after 1970. `serve` serves the connections of an address,
/// each in a thread of its own, over one store that begins empty, or with what a file keeps; the sink gets
/// a line before the first and one behind the last. With a file no reply is given before all commits that it
/// shows are kept. `read` fetches a page and reads a key over a link to the server of an address,
/// and writes the answer; where there is none, the places hear why. `world` runs the steps that a seed gives
/// over a server, two caches and three clients in memory, and writes what they read. `crash` runs those that
/// it gives over a store on a disk in memory that crashes, and writes what each opening finds. `--help` and
/// `--version` write a text to the sink.
pub fn run<S: Source, K: Sink, C, P: Places, R>(
    rt: &R,
    alloc: Global,
    words: &[String],
    source: &mut S,
    sink: &mut K,
    clock: &mut C,
    places: &mut P,
) -> Status
where
    C: Clock + Clone + Send + Drop + 'static,
    R: Threads + Wait + rt::Clock + Copy + Send + 'static,
    ensures pipe { (ask : PipeAsk) → IsPipe (map string_bytes words.now) ask → is_some ask.store.file ≡ false
        → IsRun ask.setting (record { source = S.at source.old; sink = K.at sink.old })
        (record { source = S.at source.new; sink = K.at sink.new }) (K.ended sink.new)
        (AreTimed C.tick clock.old clock.new ask.at) result
        × (places.new ≡ places.old) }
    ensures pipe_kept { (ask : PipeAsk) → IsPipe (map string_bytes words.now) ask → is_some ask.store.file ≡ true
        → IsRunOver P.opens P.Keeper.opens P.Keeper.Hand.log P.Keeper.Hand.keeps P.Keeper.kept P.Keeper.moment ask places.old places.new (record { source = S.at source.old; sink = K.at sink.old })
        (record { source = S.at source.new; sink = K.at sink.new }) (K.ended sink.new)
        (AreTimed C.tick clock.old clock.new ask.at) result }
    ensures serve { (ask : ServeAsk) → IsServe (map string_bytes words.now) ask
        → IsServing P.Doors.From.at P.Doors.To.at P.Doors.To.ended C.tick P.Keeper.Hand.log P.Keeper.Hand.keeps (C.is_clone clock.old) P.Doors.at P.at P.gives P.tells P.opens P.Keeper.may_fail P.Keeper.opens P.Keeper.kept P.Keeper.moment ask
        (record { source = S.at source.old; sink = K.at sink.old })
        (record { source = S.at source.new; sink = K.at sink.new }) (K.ended sink.new)
        clock.old clock.new places.old places.new result }
    ensures read { (ask : ReadAsk) → IsRead (map string_bytes words.now) ask
        → IsReading P.Link.at P.Link.answers P.at P.links ask
        (record { source = S.at source.old; sink = K.at sink.old })
        (record { source = S.at source.new; sink = K.at sink.new }) (K.ended sink.new)
        clock.old clock.new places.old places.new result }
    ensures simulation { (which : ASimulation) (seed steps : ℕ) → IsSimulation (map string_bytes words.now) which seed steps
        → HasSimulated which seed steps (record { source = S.at source.old; sink = K.at sink.old })
        (record { source = S.at source.new; sink = K.at sink.new }) (K.ended sink.new)
        (AreTimed C.tick clock.old clock.new None) result
        × (places.new ≡ places.old) }
    ensures help { AskHelp (map string_bytes words.now)
        → (IsHelped (map string_bytes words.now) (record { source = S.at source.old; sink = K.at sink.old })
        (record { source = S.at source.new; sink = K.at sink.new }) (K.ended sink.new)
        (AreTimed C.tick clock.old clock.new None) result
        ⊎ IsUnbegun (record { source = S.at source.old; sink = K.at sink.old })
        (record { source = S.at source.new; sink = K.at sink.new })
        (AreTimed C.tick clock.old clock.new None) result)
        × (places.new ≡ places.old) }
    ensures usage { (AreTaken (map string_bytes words.now) → ⊥)
        → (IsRefused (record { source = S.at source.old; sink = K.at sink.old })
        (record { source = S.at source.new; sink = K.at sink.new }) (K.ended sink.new)
        (AreTimed C.tick clock.old clock.new None) result
        ⊎ IsUnbegun (record { source = S.at source.old; sink = K.at sink.old })
        (record { source = S.at source.new; sink = K.at sink.new })
        (AreTimed C.tick clock.old clock.new None) result)
        × (places.new ≡ places.old) }
{
    match read_words(alloc, words) {
        Ok(Invocation::Pipe(options)) => pipe_kept(alloc, options, source, sink, clock, places),
        Ok(Invocation::Serve(options)) => serve_at(rt, alloc, options, sink, &*clock, places),
        Ok(Invocation::Read(options)) => read_at(alloc, &options, sink, places),
        Ok(Invocation::Simulate(options)) => simulate(alloc, options, sink, &*places),
        Ok(Invocation::Help(asked)) => give_text(sink, asked.text()),
        Ok(Invocation::Invalid(_)) => refuse(sink),
        Err(_) => Status::Memory,
    }
}

/// Serves one connection over a store that a file keeps, where one is given.
fn pipe_kept<S: Source, K: Sink, C: Clock, P: Places>(
    alloc: Global,
    options: PipeOptions<'_>,
    source: &mut S,
    sink: &mut K,
    clock: &mut C,
    places: &mut P,
) -> Status
    ensures run { is_some options.entry.store ≡ false → IsRun options.entry.config (record { source = S.at source.old; sink = K.at sink.old })
        (record { source = S.at source.new; sink = K.at sink.new }) (K.ended sink.new)
        (AreTimed C.tick clock.old clock.new options.entry.clock) result }
    ensures places { is_some options.entry.store ≡ false → places.new ≡ places.old }
    ensures kept { is_some options.entry.store ≡ true → IsRunOver P.opens P.Keeper.opens P.Keeper.Hand.log P.Keeper.Hand.keeps P.Keeper.kept P.Keeper.moment (pipe_ask_of options.entry) places.old places.new (record { source = S.at source.old; sink = K.at sink.old })
        (record { source = S.at source.new; sink = K.at sink.new }) (K.ended sink.new)
        (AreTimed C.tick clock.old clock.new options.entry.clock) result }
{
    let at = options.clock;
    let store = options.store;
    let config = options.config;
    if store.is_none() {
        return pipe_at(alloc, config, at, &mut NoKeeper, source, sink, clock);
    }
    match places.keeper(store, longest_of(&config)) {
        Ok(mut keeper) => {
            let config = guarded(config, store, &keeper);
            pipe_at(alloc, config, at, &mut keeper, source, sink, clock)
        }
        Err(_) => {
            sink.end();
            Status::StoreFault
        }
    }
}

/// Serves one connection by the given clock, or by one that stays at a moment.
fn pipe_at<Q: Keeper, S: Source, K: Sink, C: Clock>(
    alloc: Global,
    config: Config,
    at: Option<u64>,
    keeper: &mut Q,
    source: &mut S,
    sink: &mut K,
    clock: &mut C,
) -> Status
    requires { Q.may_fail keeper.old ≡ true → config.keeps ≡ true }
    ensures run { Q.may_fail keeper.old ≡ false → IsRun config (record { source = S.at source.old; sink = K.at sink.old })
        (record { source = S.at source.new; sink = K.at sink.new }) (K.ended sink.new)
        (AreTimed C.tick clock.old clock.new at) result }
    ensures kept { IsRunKept (Q.opens keeper.old) Q.Hand.log Q.Hand.keeps (Q.kept keeper.old) config (record { source = S.at source.old; sink = K.at sink.old })
        (record { source = S.at source.new; sink = K.at sink.new }) (K.ended sink.new)
        (AreTimed C.tick clock.old clock.new at) result }
{
    match at {
        Some(at) => {
            let mut fixed = FixedClock { at: Moment::of(at) };
            pipe(alloc, config, keeper, source, sink, &mut fixed)
        }
        None => pipe(alloc, config, keeper, source, sink, clock),
    }
}

/// Serves one connection over a store that begins with what is kept, and ends the sink.
fn pipe<Q: Keeper, S: Source, K: Sink, C: Clock>(
    alloc: Global,
    config: Config,
    keeper: &mut Q,
    source: &mut S,
    sink: &mut K,
    clock: &mut C,
) -> Status
    requires { Q.may_fail keeper.old ≡ true → config.keeps ≡ true }
    ensures run { Q.may_fail keeper.old ≡ false → IsRun config (record { source = S.at source.old; sink = K.at sink.old })
        (record { source = S.at source.new; sink = K.at sink.new }) (K.ended sink.new)
        (λ ms. Ticks C.tick clock.old ms clock.new) result }
    ensures kept { IsRunKept (Q.opens keeper.old) Q.Hand.log Q.Hand.keeps (Q.kept keeper.old) config (record { source = S.at source.old; sink = K.at sink.old })
        (record { source = S.at source.new; sink = K.at sink.new }) (K.ended sink.new)
        (λ ms. Ticks C.tick clock.old ms clock.new) result }
{
    let mut room = match Room::new(alloc, &config) {
        Ok(room) => room,
        Err(_) => return Status::Memory,
    };
    let mut desk = match Owned::new(alloc, config) {
        Ok(desk) => desk,
        Err(_) => return Status::Memory,
    };
    match begin(&mut desk, keeper) {
        Ok(hand) => {
            let mut kept = KeptDesk::new(desk, hand);
            let served = serve_connection(alloc, &mut kept, source, sink, clock, &mut room);
            sink.end();
            // The process ends next, which returns the store's memory at once.
            let _left = ManuallyDrop::new(kept);
            Status::of(served.why)
        }
        Err(status) => {
            sink.end();
            // So it does here.
            let _left = ManuallyDrop::new(desk);
            status
        }
    }
}

/// Fills a new store with what is kept, and gives a hand of who keeps it.
fn begin<Q: Keeper>(desk: &mut Owned, keeper: &mut Q) -> Result<Q::Hand, Status>
    ensures setting { desk.new.setting ≡ desk.old.setting }
    ensures fills { Fills desk.old.setting desk.old.entries desk.new.entries (enumerate_from 0 desk.old.entries) (enumerate_from 0 desk.new.entries) }
    ensures written { IfOk result (λ _. HasWritten (Q.kept keeper.old) (enumerate_from 0 desk.old.entries) (enumerate_from 0 desk.new.entries)) }
    ensures none { Q.may_fail keeper.old ≡ false → desk.new.entries ≡ desk.old.entries }
    ensures hand { IfOk result (λ hand. Q.Hand.may_fail hand ≡ Q.may_fail keeper.old) }
    ensures opened { IfOk result (λ hand. Q.opens keeper.old (Q.Hand.log hand)) }
    ensures unfilled { IfErr result (λ status. ((status ≡ StoreFault) × (Q.may_fail keeper.old ≡ true)) ⊎ (status ≡ OutOfMemory)) }
{
    match keeper.fill(desk, Moment::of(0)) {
        Ok(()) => match keeper.hand() {
            Ok(hand) => Ok(hand),
            Err(_) => Err(Status::Memory),
        },
        Err(_) => Err(Status::StoreFault),
    }
}

/// Lets places hear how far a world has come.
#[derive(Drop)]
struct Listener<'a, P: Places> {
    places: &'a P,
    count: u32,
}

impl<P: Places> Watch for Listener<'_, P> {
    fn told(&mut self, done: u32) {
        self.places.note(done, self.count);
    }
}

/// Runs a simulation, writes its text, and ends the sink.
fn simulate<K: Sink, P: Places>(
    alloc: Global,
    options: SimulationOptions,
    sink: &mut K,
    places: &P,
) -> Status
    ensures { GaveText (IsSimulationText options.which options.seed options.steps) (K.at sink.old) (K.at sink.new) (K.ended sink.new) result }
{
    match simulation_text(alloc, options, places) {
        Ok(text) => give_text(sink, text.as_slice()),
        Err(_) => Status::Memory,
    }
}

/// The text of a simulation: what the clients of a world read, or what the openings of a store on a disk that
/// crashes found.
fn simulation_text<P: Places>(
    alloc: Global,
    options: SimulationOptions,
    places: &P,
) -> Result<Vec<u8>, Memory>
    ensures { IfOk result (λ text. IsSimulationText options.which options.seed options.steps text.items) }
{
    match options.which {
        Simulation::World => {
            let mut listener = Listener {
                places,
                count: options.steps,
            };
            world_text(alloc, options.seed, options.steps, &mut listener)
        }
        Simulation::Crash => crash_text(alloc, options.seed, options.steps),
    }
}

/// Writes the usage line, and ends the sink.
fn refuse<K: Sink>(sink: &mut K) -> Status
    ensures usage { IsUsage (K.at sink.old) (K.at sink.new) result }
    ensures ended { HasEnded (K.ended sink.new) (K.at sink.new).bytes }
{
    let given = give_all(sink, USAGE);
    sink.end();
    match given {
        Ok(()) => Status::Words,
        Err(_) => Status::WriteFault,
    }
}

/// Writes a text, and ends the sink.
fn give_text<K: Sink>(sink: &mut K, text: &[u8]) -> Status
    ensures { IsText text.now (K.at sink.old) (K.at sink.new) (K.ended sink.new) result }
{
    let given = give_all(sink, text);
    sink.end();
    match given {
        Ok(()) => Status::Done,
        Err(Failed) => Status::WriteFault,
    }
}
