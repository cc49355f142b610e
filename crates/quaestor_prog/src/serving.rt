//! The command `serve`, over any places.
ghost use Rattle.std.specs.Prelude.{◌≡◌, ◌<◌, ◌++◌, true, is_some, codes};
ghost use Rattle.q_outside.specs.Ends.{Gave};
ghost use Rattle.quaestor_prog.specs.Serving.{HasServed, HasTried, IsServed, IsThrough, guarded, longest_of};
ghost use Rattle.command_line.specs.Words.{ask_of};
ghost use Rattle.quaestor_serve.specs.Served.{IsOfKeeper, KeptBy};
ghost use Rattle.quaestor_serve.specs.Serves.{Serves};

use crate::places::Places;
use crate::status::Status;
use command_line::{Data, ServeOptions};
use itoa::Buffer;
use kept_desk::Keeper;
use q_outside::{Clock, Doors, Failed, OpenGate, Sink, give_all, give_both};
use quaestor_serve::{Crew, Monitor, ServeEnd, serve};
use quaestor_server::Config;
use std::alloc::Global;
use std::rt;
use std::sync::Wait;
use std::thread::Threads;

/// Opens the file of the store, where one is given, listens at an address, serves the connections that come
/// there, and hands the doors back to the places.
pub(crate) fn serve_at<K, C, P, R>(
    rt: &R,
    alloc: Global,
    options: ServeOptions<'_>,
    sink: &mut K,
    clock: &C,
    places: &mut P,
) -> Status
where
    K: Sink,
    C: Clock + Clone + Send + Drop + 'static,
    P: Places,
    R: Threads + Wait + rt::Clock + Copy + Send + 'static,
    requires places { 0 < options.places }
    requires workers { 0 < options.workers }
    requires keeps { is_some options.store ≡ true → options.config.keeps ≡ true }
    ensures { HasServed P.Doors.From.at P.Doors.To.at P.Doors.To.ended C.tick P.Keeper.Hand.log P.Keeper.Hand.keeps (C.is_clone clock.now) P.Doors.at P.at P.gives P.tells P.opens P.Keeper.may_fail P.Keeper.opens P.Keeper.kept P.Keeper.moment (ask_of options.entry) (K.at sink.old) (K.at sink.new) (K.ended sink.new) places.old places.new result }
{
    match places.keeper(options.store, longest_of(&options.config)) {
        Ok(mut keeper) => serve_kept(rt, alloc, options, sink, clock, &mut keeper, places),
        Err(Failed) => {
            sink.end();
            Status::StoreFault
        }
    }
}

/// The same over a store that this one keeps.
fn serve_kept<K, C, P, R>(
    rt: &R,
    alloc: Global,
    options: ServeOptions<'_>,
    sink: &mut K,
    clock: &C,
    keeper: &mut P::Keeper,
    places: &mut P,
) -> Status
where
    K: Sink,
    C: Clock + Clone + Send + Drop + 'static,
    P: Places,
    R: Threads + Wait + rt::Clock + Copy + Send + 'static,
    requires places { 0 < options.places }
    requires workers { 0 < options.workers }
    requires keeps { is_some options.store ≡ true → options.config.keeps ≡ true }
    requires keeper { P.Keeper.may_fail keeper.old ≡ true → is_some options.store ≡ true }
    ensures { HasTried P.Doors.From.at P.Doors.To.at P.Doors.To.ended C.tick P.Keeper.Hand.log P.Keeper.Hand.keeps (C.is_clone clock.now) P.Doors.at P.at P.gives P.tells P.opens P.Keeper.may_fail P.Keeper.opens P.Keeper.kept P.Keeper.moment (ask_of options.entry) keeper.old (K.at sink.old) (K.at sink.new) (K.ended sink.new) places.old places.new result }
{
    match places.listen(options.address, options.limits, options.watching) {
        Ok(mut doors) => {
            let monitor = places.monitor();
            let status = serve_through(
                rt,
                alloc,
                options,
                places.address(),
                sink,
                clock,
                keeper,
                &monitor,
                &mut doors,
            );
            sink.end();
            places.keep_doors(doors);
            status
        }
        Err(_) => {
            sink.end();
            Status::PlaceFault
        }
    }
}

/// For how long caches may keep a reply of a store in this configuration, in seconds.
pub(crate) fn longest_of(config: &Config) -> u64
    ensures { result ≡ longest_of config.now }
{
    config.kept_for(config.ttl_high()) as u64
}

/// The configuration of a store of which this keeper has what was kept before, where a file is given.
pub(crate) fn guarded<Q: Keeper>(config: Config, store: Option<Data<'_>>, keeper: &Q) -> Config
    requires { is_some store ≡ true → config.keeps ≡ true }
    ensures { result ≡ guarded (is_some store.entry) config (Q.moment keeper.now) }
{
    match store {
        Some(_) => config.kept(keeper.guard()),
        None => config,
    }
}

/// Says at which address connections are listened for, and then serves those that come through the doors.
fn serve_through<K, C, Q, M, D, R>(
    rt: &R,
    alloc: Global,
    options: ServeOptions<'_>,
    address: &str,
    sink: &mut K,
    clock: &C,
    keeper: &mut Q,
    monitor: &M,
    doors: &mut D,
) -> Status
where
    K: Sink,
    C: Clock + Clone + Send + Drop + 'static,
    Q: Keeper,
    M: Monitor + Clone + Send + Drop + 'static,
    D: Doors,
    R: Threads + Wait + rt::Clock + Copy + Send + 'static,
    requires places { 0 < options.places }
    requires workers { 0 < options.workers }
    requires keeps { is_some options.store ≡ true → options.config.keeps ≡ true }
    requires keeper { Q.may_fail keeper.old ≡ true → is_some options.store ≡ true }
    ensures { IsThrough D.From.at D.To.at D.To.ended C.tick (KeptBy Q.Hand.log Q.Hand.keeps) (C.is_clone clock.now) (IsOfKeeper Q.opens Q.Hand.log keeper.old) D.at (Q.kept keeper.old) (Q.moment keeper.old) (ask_of options.entry) address.now (K.at sink.old) (K.at sink.new) doors.old doors.new result }
{
    match give_line(sink, b"listening on ", address.as_bytes()) {
        Ok(()) => serve_announced(rt, alloc, options, sink, clock, keeper, monitor, doors),
        Err(_) => Status::WriteFault,
    }
}

/// Serves the connections that come through the doors, and then says how many came.
fn serve_announced<K, C, Q, M, D, R>(
    rt: &R,
    alloc: Global,
    options: ServeOptions<'_>,
    sink: &mut K,
    clock: &C,
    keeper: &mut Q,
    monitor: &M,
    doors: &mut D,
) -> Status
where
    K: Sink,
    C: Clock + Clone + Send + Drop + 'static,
    Q: Keeper,
    M: Monitor + Clone + Send + Drop + 'static,
    D: Doors,
    R: Threads + Wait + rt::Clock + Copy + Send + 'static,
    requires places { 0 < options.places }
    requires workers { 0 < options.workers }
    requires keeps { is_some options.store ≡ true → options.config.keeps ≡ true }
    requires keeper { Q.may_fail keeper.old ≡ true → is_some options.store ≡ true }
    ensures { IsServed D.From.at D.To.at D.To.ended C.tick (KeptBy Q.Hand.log Q.Hand.keeps) (C.is_clone clock.now) (IsOfKeeper Q.opens Q.Hand.log keeper.old) D.at (Q.kept keeper.old) (Q.moment keeper.old) (ask_of options.entry) (K.at sink.old) (K.at sink.new) doors.old doors.new result }
{
    let end = serve_over(rt, alloc, options, clock, keeper, monitor, doors);
    let status = Status::of_server(end.why);
    let mut digits = Buffer::new();
    match give_line(sink, b"served ", digits.format(end.connections).as_bytes()) {
        Ok(()) => status,
        Err(_) => status.or_write_fault(),
    }
}

/// Fills the store with what was kept, and serves the connections that come through the doors.
fn serve_over<C, Q, M, D, R>(
    rt: &R,
    alloc: Global,
    options: ServeOptions<'_>,
    clock: &C,
    keeper: &mut Q,
    monitor: &M,
    doors: &mut D,
) -> ServeEnd
where
    C: Clock + Clone + Send + Drop + 'static,
    Q: Keeper,
    M: Monitor + Clone + Send + Drop + 'static,
    D: Doors,
    R: Threads + Wait + rt::Clock + Copy + Send + 'static,
    requires places { 0 < options.places }
    requires workers { 0 < options.workers }
    requires keeps { is_some options.store ≡ true → options.config.keeps ≡ true }
    requires keeper { Q.may_fail keeper.old ≡ true → is_some options.store ≡ true }
    ensures { Serves D.From.at D.To.at D.To.ended C.tick (KeptBy Q.Hand.log Q.Hand.keeps) (C.is_clone clock.now) (IsOfKeeper Q.opens Q.Hand.log keeper.old) (Q.kept keeper.old) (guarded (is_some (ask_of options.entry).store.file) (ask_of options.entry).setting (Q.moment keeper.old)) (ask_of options.entry).trim (D.at doors.old) (D.at doors.new) (ask_of options.entry).connections result }
{
    let crew = Crew {
        places: options.places,
        workers: options.workers,
        matchers: options.matchers,
        trim: options.trim,
    };
    let connections = options.connections;
    let config = guarded(options.config, options.store, &*keeper);
    serve(
        rt,
        alloc,
        config,
        doors,
        clock,
        &OpenGate,
        keeper,
        monitor,
        crew,
        connections,
    )
}

/// Gives a line of two parts.
pub(crate) fn give_line<K: Sink>(sink: &mut K, first: &[u8], second: &[u8]) -> Result<(), Failed>
    ensures { Gave (K.at sink.old) (K.at sink.new) (first.now ++ second.now ++ codes "\n") result }
{
    match give_both(sink, first, second) {
        Ok(()) => give_all(sink, b"\n"),
        Err(_) => Err(Failed),
    }
}
