//! What watches a server: its log and the address of its metrics, each with a thread of its own.
ghost use Rattle.std.specs.Prelude.{◌≡◌, IfOk};

use crate::board::{Board, BoardShows, LIMITS};
use crate::log_writer::{LogFile, Logging};
use crate::posts::Posts;
use access_log::Form;
use dialogue::{Pause, hold_visit};
use http_message::RequestRoom;
use metrics_text::Watcher;
use q_outside::{Doors, Limits, Next, Sink};
use quaestor_prog::Watching;
use std::fs::{File, Files};
use std::io::ErrorKind;
use std::net::{Net, TcpListener, TcpStream};
use std::rt::Clock;
use std::sync::{Arc, Wait};
use std::time::Duration;
use std::{io, thread};
use tcp_doors::{LogQueue, Observer, TcpDoors};

/// For how many milliseconds nobody is answered after a listener has failed.
const PAUSE_MILLIS: u64 = 1_000;

/// Doors, and the board of those who watch them, where somebody does.
#[derive(Drop)]
pub(crate) struct Watched<R: Drop> {
    pub(crate) doors: TcpDoors<R>,
    pub(crate) board: Option<Arc<Board>>,
}

/// Those who watch at doors of their own, and what they are answered by.
#[derive(Drop)]
pub struct Showing<R: Clock + AllocGlobal + Drop> {
    doors: TcpDoors<R>,
    watcher: Watcher<BoardShows<R>>,
    room: RequestRoom,
}

/// Doors at an address, with what is to watch them. The threads for that have to be there.
pub(crate) fn bind_watched<R>(
    rt: R,
    address: &str,
    limits: Limits,
    watching: Watching<'_>,
    posts: Option<&Posts<R>>,
) -> io::Result<Watched<R>>
where
    R: Net<Listener = TcpListener, Stream = TcpStream>
        + Files<File = File>
        + AllocGlobal
        + Eprint
        + Wait
        + Clock
        + Copy
        + Drop,
    ensures closings { IfOk result (λ w. w.doors.closings ≡ 0) }
    ensures faults { IfOk result (λ w. w.doors.faults ≡ 0) }
{
    if watching.metrics.is_none() && watching.log.is_none() {
        let doors = TcpDoors::bind(rt, address, limits)?;
        return Ok(Watched { doors, board: None });
    }
    let Some(posts) = posts else {
        return Err(io::Error::from(ErrorKind::OutOfMemory));
    };
    let observer = Arc::new(rt.alloc(), Observer::new(rt.alloc(), form_of(watching))?)?;
    let file = opened(&rt, watching)?;
    let beside = beside(rt, watching)?;
    let doors = TcpDoors::bind_seen(rt, address, limits, Some(Arc::try_clone(&observer)?))?;
    if let Some(file) = file {
        let spare = LogQueue::buffer(rt.alloc())?;
        let observer = Arc::try_clone(&observer)?;
        posts.log(
            &rt,
            Logging {
                observer,
                file,
                spare,
            },
        );
    }
    let board = Arc::new(rt.alloc(), Board::new(observer))?;
    if let Some(beside) = beside {
        let board = Arc::try_clone(&board)?;
        posts.show(&rt, shown_beside(rt, &doors, beside, board)?);
    }
    Ok(Watched {
        doors,
        board: Some(board),
    })
}

/// The form of the log, where there is one.
fn form_of(watching: Watching<'_>) -> Option<Form> {
    watching.log?;
    if watching.json {
        Some(Form::Json)
    } else {
        Some(Form::Common)
    }
}

/// The file of the log, where there is one. Why it cannot be opened is said.
fn opened<R: Files<File = File> + Eprint>(
    rt: &R,
    watching: Watching<'_>,
) -> io::Result<Option<LogFile>> {
    let Some(name) = watching.log else {
        return Ok(None);
    };
    match LogFile::open(rt, name) {
        Ok(file) => Ok(Some(file)),
        Err(error) => {
            let _ = eprint!(rt; "quaestor: cannot write the log {name}: {error}\n");
            Err(error)
        }
    }
}

/// The doors at the address of the metrics, where there is one. Why nobody can listen there is said.
fn beside<R>(rt: R, watching: Watching<'_>) -> io::Result<Option<TcpDoors<R>>>
where
    R: Net<Listener = TcpListener, Stream = TcpStream>
        + Files<File = File>
        + AllocGlobal
        + Eprint
        + Copy
        + Drop,
{
    let Some(address) = watching.metrics else {
        return Ok(None);
    };
    match TcpDoors::bind_beside(rt, address, LIMITS) {
        Ok(doors) => {
            let at = doors.address()?;
            let _ = eprint!(rt; "quaestor: metrics at http://{at}/v1/metrics\n");
            Ok(Some(doors))
        }
        Err(error) => {
            let _ = eprint!(rt; "quaestor: cannot listen on {address} for metrics: {error}\n");
            Err(error)
        }
    }
}

/// Those who watch at these doors, as the thread that answers them gets them.
fn shown_beside<R: Clock + AllocGlobal + Copy + Drop>(
    rt: R,
    doors: &TcpDoors<R>,
    beside: TcpDoors<R>,
    board: Arc<Board>,
) -> io::Result<Showing<R>> {
    let ending = doors.ending()?;
    let Ok(room) = RequestRoom::new(rt.alloc()) else {
        return Err(io::Error::from(ErrorKind::OutOfMemory));
    };
    let shows = BoardShows { rt, board, ending };
    Ok(Showing {
        doors: beside,
        watcher: Watcher::new(rt.alloc(), shows),
        room,
    })
}

/// Answers those who watch, one connection after the other, until the program ends. Each has one request, or
/// as many as it sent at once.
pub(crate) fn show<R>(rt: R, showing: Showing<R>)
where
    R: AllocGlobal + Wait + Clock + Copy + Drop + Send + 'static,
{
    let Showing {
        mut doors,
        mut watcher,
        mut room,
    } = showing;
    for _ in rt.forever() {
        match doors.next() {
            Ok(
                Next::Connection {
                    mut source,
                    mut sink,
                },
            ) => {
                hold_visit(
                    &mut watcher,
                    &mut source,
                    &mut sink,
                    &mut room,
                    Pause::START,
                    1,
                );
                sink.end();
            }
            Ok(Next::Closed) => return,
            Err(_) => thread::sleep(&rt, Duration::from_millis(PAUSE_MILLIS)),
        }
    }
    unreachable!()
}
