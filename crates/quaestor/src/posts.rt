//! The threads that watch a server. They are started before it is known what they are to do, by the one that
//! starts the program, and wait until they are told.

use crate::board::BoardShows;
use crate::log_writer::{Logging, write_log};
use crate::watching::{Showing, show};
use std::fs::{File, Files};
use std::net::{Net, TcpListener, TcpStream};
use std::rt::Clock;
use std::sync::{Arc, Mutex, Wait};
use std::thread::Threads;
use std::time::Duration;
use std::{io, thread};

/// For how many milliseconds a thread rests between two looks at what it is to do.
const REST_MILLIS: u64 = 5;

/// What the two threads are to do, from the moment on in which it is known.
#[derive(Drop)]
pub struct Posts<R: Clock + AllocGlobal + Drop> {
    showing: Mutex<Option<Showing<R>>>,
    logging: Mutex<Option<Logging>>,
}

impl<R: Clock + AllocGlobal + Drop> Posts<R> {
    /// Nothing is known yet.
    fn new() -> Posts<R> {
        Posts {
            showing: Mutex::new(None),
            logging: Mutex::new(None),
        }
    }

    /// Tells who is to be answered.
    pub(crate) fn show<W: Wait>(&self, rt: &W, showing: Showing<R>) {
        let mut place = self.showing.lock(rt);
        *place = Some(showing);
    }

    /// Tells what is to be written.
    pub(crate) fn log<W: Wait>(&self, rt: &W, logging: Logging) {
        let mut place = self.logging.lock(rt);
        *place = Some(logging);
    }

    /// Who is to be answered, where it is told.
    fn take_showing<W: Wait>(&self, rt: &W) -> Option<Showing<R>> {
        let mut place = self.showing.lock(rt);
        place.take()
    }

    /// What is to be written, where it is told.
    fn take_logging<W: Wait>(&self, rt: &W) -> Option<Logging> {
        let mut place = self.logging.lock(rt);
        place.take()
    }
}

/// Whether a command with these words may want them: one that does not gets threads for nothing.
pub(crate) fn may_watch(words: &[String]) -> bool {
    for word in words {
        if word.starts_with("--metrics") || word.starts_with("--log") {
            return true;
        }
    }
    false
}

/// Starts the threads.
pub(crate) fn start_posts<R>(rt: R) -> io::Result<Arc<Posts<R>>>
where
    R: Net<Listener = TcpListener, Stream = TcpStream>
        + Files<File = File>
        + AllocGlobal
        + Eprint
        + Threads
        + Wait
        + Clock
        + Copy
        + Drop
        + Send
        + 'static,
{
    let posts = Arc::new(rt.alloc(), Posts::new())?;
    let first = Arc::try_clone(&posts)?;
    thread::Builder::new().spawn(&rt, move || show_posted(rt, first))?;
    let second = Arc::try_clone(&posts)?;
    thread::Builder::new().spawn(&rt, move || log_posted(rt, second))?;
    Ok(posts)
}

/// Waits until it is told who is to be answered, and answers them.
fn show_posted<R>(rt: R, posts: Arc<Posts<R>>)
where
    R: Net<Listener = TcpListener, Stream = TcpStream>
        + AllocGlobal
        + Wait
        + Clock
        + Copy
        + Drop
        + Send
        + 'static,
{
    for _ in rt.forever() {
        if let Some(showing) = posts.take_showing(&rt) {
            show(rt, showing);
            return;
        }
        thread::sleep(&rt, Duration::from_millis(REST_MILLIS));
    }
    unreachable!()
}

/// Waits until it is told what is to be written, and writes it.
fn log_posted<R>(rt: R, posts: Arc<Posts<R>>)
where
    R: AllocGlobal + Eprint + Wait + Clock + Copy + Drop + Send + 'static,
{
    for _ in rt.forever() {
        if let Some(logging) = posts.take_logging(&rt) {
            write_log(rt, logging);
            return;
        }
        thread::sleep(&rt, Duration::from_millis(REST_MILLIS));
    }
    unreachable!()
}
