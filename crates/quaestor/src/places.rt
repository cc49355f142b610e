//! Places of this machine, where connections are listened for over TCP, and servers are reached.
ghost use Rattle.std.specs.Prelude.{◌≡◌, IfOk};

use crate::board::{Board, BoardMonitor};
use crate::link::{TcpLink, connect};
use crate::log_writer::end_log;
use crate::posts::Posts;
use crate::store::{FileKeeper, keeper_of};
use crate::watching::{Watched, bind_watched};
use client_session::SessionRefusal;
use client_wire::WireLink;
use q_outside::{Failed, Limits, WriteSink};
use quaestor_prog::{Data, Places, Watching};
use std::fs::{File, Files};
use std::io;
use std::net::{Net, TcpListener, TcpStream};
use std::rt::Clock;
use std::sync::atomic::{AtomicU64, Ordering};
use std::sync::{Arc, OnceLock, Wait};
use tcp_doors::TcpDoors;

/// The addresses of this machine, and those that it reaches. Why one of them cannot be listened at or
/// reached, and why a server gives no answer, is said on standard error. The address that is told is that of
/// the first doors: a run has one listener.
#[derive(Drop)]
pub struct TcpPlaces<R: Clock + AllocGlobal + Drop> {
    rt: R,
    faults: u64,
    address: OnceLock<String>,
    kept: Option<TcpDoors<R>>,
    /// The threads that watch, where there are any.
    posts: Option<Arc<Posts<R>>>,
    /// The board of those who watch the first doors, where somebody does.
    board: Option<Arc<Board>>,
    link: Option<TcpLink>,
    /// Whether someone looks at standard error.
    is_watched: bool,
    /// The second since 1970 in which it was last said how far a world has come.
    noted_at: AtomicU64,
}

impl<R: Clock + AllocGlobal + Drop> TcpPlaces<R> {
    /// Places without a fault yet, with the threads that are to watch. How far a world has come is said where
    /// somebody looks.
    pub fn new(rt: R, posts: Option<Arc<Posts<R>>>, is_watched: bool) -> TcpPlaces<R> {
        TcpPlaces {
            address: OnceLock::new(),
            rt,
            faults: 0,
            kept: None,
            posts,
            board: None,
            link: None,
            is_watched,
            noted_at: AtomicU64::new(0),
        }
    }
}

/// Doors at an address, which is noted as it is told, with what is to watch them.
fn listening<R>(
    note: &OnceLock<String>,
    rt: R,
    address: &str,
    limits: Limits,
    watching: Watching<'_>,
    posts: Option<&Posts<R>>,
) -> io::Result<Watched<R>>
where
    R: Net<Listener = TcpListener, Stream = TcpStream>
        + Files<File = File>
        + AllocGlobal
        + Eprint
        + Wait
        + Clock
        + Copy
        + Drop,
    ensures closings { IfOk result (λ w. w.doors.closings ≡ 0) }
    ensures faults { IfOk result (λ w. w.doors.faults ≡ 0) }
{
    let watched = bind_watched(rt, address, limits, watching, posts)?;
    let _ = note.try_set(address_of(&rt, &watched.doors, address)?);
    Ok(watched)
}

/// The address at which doors are, as it is told: with the port that the system chose, where it was to.
fn address_of<R: AllocGlobal + Drop>(
    rt: &R,
    doors: &TcpDoors<R>,
    address: &str,
) -> io::Result<String> {
    match asked_port(address) {
        Some(host) => {
            let port = doors.address()?.port();
            Ok(format!(in rt.alloc(); "{host}:{port}")?)
        }
        None => Ok(String::from_str(rt.alloc(), address)?),
    }
}

/// The address before its port, where the system is to choose the port.
fn asked_port(address: &str) -> Option<&str> {
    let (host, port) = address.rsplit_once(':')?;
    if port.parse::<u16>() == Ok(0) {
        Some(host)
    } else {
        None
    }
}

impl<R> Places for TcpPlaces<R>
where
    R: Net<Listener = TcpListener, Stream = TcpStream>
        + Files<File = File>
        + AllocGlobal
        + Eprint
        + Wait
        + Clock
        + Copy
        + Drop
        + Send
        + 'static,
{
    type Doors = TcpDoors<R>;

    type Link = TcpLink;

    type Monitor = BoardMonitor;

    type Keeper = Option<FileKeeper<R>>;

    ghost at = { λ p. record { faults = p.faults; kept = p.kept; link = p.link } };

    ghost gives = { λ _ _ _ _ _ _. Unit {0} };

    ghost tells = { λ _ _. Unit {0} };

    ghost opens = { λ _ _ _ _ _. Unit {0} };

    ghost links = { λ _ _ _ _. Unit {0} };

    fn listen(
        &mut self,
        address: &str,
        limits: Limits,
        watching: Watching<'_>,
    ) -> Result<TcpDoors<R>, Failed> {
        for _ in self.rt.forever() {
            let posts = self.posts.as_deref();
            match listening(&self.address, self.rt, address, limits, watching, posts) {
                Ok(Watched { doors, board }) => {
                    self.board = board;
                    return Ok(doors);
                }
                Err(error) => {
                    if self.faults < u64::MAX {
                        let _ = eprint!(self.rt; "quaestor: cannot listen on {address}: {error}\n");
                        self.faults += 1;
                        return Err(Failed);
                    }
                }
            }
        }
        unreachable!()
    }

    fn address(&self) -> &str {
        match self.address.get() {
            Some(told) => told.as_str(),
            None => "",
        }
    }

    fn monitor(&self) -> BoardMonitor {
        match &self.board {
            Some(board) => BoardMonitor::new(Arc::try_clone(board).ok()),
            None => BoardMonitor::new(None),
        }
    }

    fn keeper(
        &mut self,
        data: Option<Data<'_>>,
        longest: u64,
    ) -> Result<Option<FileKeeper<R>>, Failed> {
        let Some(data) = data else {
            return Ok(None);
        };
        for _ in self.rt.forever() {
            match keeper_of(self.rt, data, longest, self.is_watched) {
                Ok(keeper) => return Ok(Some(keeper)),
                Err(_) => {
                    if self.faults < u64::MAX {
                        self.faults += 1;
                        return Err(Failed);
                    }
                }
            }
        }
        unreachable!()
    }

    fn reach(&mut self, address: &str) -> Result<TcpLink, Failed> {
        for _ in self.rt.forever() {
            match connect(&self.rt, address) {
                Ok(ends) => {
                    let sink = WriteSink::new(ends.writer);
                    return Ok(WireLink::new(self.rt.alloc(), ends.source, sink, ends.host));
                }
                Err(error) => {
                    if self.faults < u64::MAX {
                        let _ = eprint!(self.rt; "quaestor: cannot reach {address}: {error}\n");
                        self.faults += 1;
                        return Err(Failed);
                    }
                }
            }
        }
        unreachable!()
    }

    fn keep_doors(&mut self, doors: TcpDoors<R>) {
        self.kept = Some(doors);
        if let Some(board) = &self.board {
            if let Some(log) = board.observer.log() {
                end_log(&self.rt, log);
            }
        }
    }

    fn hear(&mut self, refusal: SessionRefusal) {
        let _ = eprint!(self.rt; "quaestor: the read has no answer: {refusal}\n");
    }

    fn note(&self, done: u32, count: u32) {
        let Ok(passed) = self.rt.since_1970() else {
            return;
        };
        let second = passed.as_secs();
        if self.is_watched && self.noted_at.swap(second, Ordering::Relaxed) != second {
            let _ = eprint!(self.rt; "quaestor: {done} of {count} steps\n");
        }
    }

    fn keep_link(&mut self, link: TcpLink) {
        self.link = Some(link);
    }
}
