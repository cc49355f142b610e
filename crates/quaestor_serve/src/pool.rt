//! The buffers of a server, which connections take while a request is there and put back.
//!
//! What comes out of a lock is known by its type alone, so each room is asked whether it is for the
//! pool's configuration. All are.
ghost use Rattle.std.specs.Prelude.{◌≡◌, IfOk};
ghost use Rattle.quaestor_server.specs.Rooms.{IsFor};

use hub_desk::Config;
use q_base::Memory;
use quaestor_server::{Room, Rooms};
use std::alloc::Global;
use std::sync::atomic::{AtomicU64, Ordering};
use std::sync::{Mutex, Wait};
use std::time::Duration;

/// How long one who waits for buffers rests at most, in milliseconds.
const REST: u64 = 1_000;

/// How many requests a connection may have answered before it puts its buffers back, where no other waits
/// for some as it takes them.
const SHARE: u64 = 64;

/// The same where others wait.
const CROWDED_SHARE: u64 = 4;

/// The number of bells.
const BELLS: u64 = 1_024;

/// The buffers that no connection has. Those who wait for some get them in the order in which they came:
/// each draws a number, and as many numbers are called as there were rooms and as were put back since.
#[derive(Drop)]
pub struct Pool {
    config: Config,
    rooms: Mutex<Vec<Room>>,
    /// The next number to be drawn.
    drawn: AtomicU64,
    /// How many numbers were called.
    called: AtomicU64,
    /// For each remainder by the number of bells, how often a number that has it was called.
    bells: Vec<AtomicU64>,
}

impl Pool {
    /// So many rooms for hubs of this configuration.
    pub fn new(alloc: Global, config: &Config, count: u32) -> Result<Pool, Memory>
        ensures { IfOk result (λ pool. pool.config ≡ config.now) }
    {
        let mut rooms = Vec::with_capacity(alloc, count as usize)?;
        for _n in 0..count {
            rooms.push(Room::new(alloc, config)?)?;
        }
        let mut bells = Vec::with_capacity(alloc, BELLS as usize)?;
        for _n in 0..BELLS {
            bells.push(AtomicU64::new(0))?;
        }
        Ok(Pool {
            config: config.clone()?,
            rooms: Mutex::new(rooms),
            drawn: AtomicU64::new(0),
            called: AtomicU64::new(u64::from(count)),
            bells,
        })
    }

    /// One of the rooms that are there, if any is.
    fn pop<R: Wait>(&self, rt: &R) -> Option<Room> {
        let mut rooms = self.rooms.lock(rt);
        rooms.pop()
    }

    /// Puts a room to the others. There is memory for it, since it was among them.
    fn push<R: Wait>(&self, rt: &R, room: Room) {
        let mut rooms = self.rooms.lock(rt);
        if rooms.len() < rooms.capacity() {
            rooms.push_reserved(room);
        }
    }

    /// Returns once a number was called.
    fn wait_for<R: Wait>(&self, rt: &R, number: u64) {
        let Some(bell) = self.bells.get((number % BELLS) as usize) else {
            return;
        };
        for _ in rt.forever() {
            let heard = bell.load(Ordering::SeqCst);
            if number < self.called.load(Ordering::SeqCst) {
                return;
            }
            bell.park_timeout(
                rt,
                (heard & 0xffff_ffff) as u32,
                Duration::from_millis(REST),
            );
        }
    }

    /// Calls the next number, and wakes who drew it.
    fn call(&self) {
        let number = self.called.fetch_add(1, Ordering::SeqCst);
        if number >= self.drawn.load(Ordering::SeqCst) {
            return;
        }
        if let Some(bell) = self.bells.get((number % BELLS) as usize) {
            bell.fetch_add(1, Ordering::SeqCst);
            bell.wake_all();
        }
    }

    /// How many requests may be answered with a room that is taken now.
    fn share(&self) -> u64 {
        if self.drawn.load(Ordering::SeqCst) > self.called.load(Ordering::SeqCst) {
            CROWDED_SHARE
        } else {
            SHARE
        }
    }

    /// Takes a room. While none is there, one is waited for.
    pub fn take<R: Wait>(&self, rt: &R) -> Room
        ensures { IsFor self.now.config result.pages result.config }
    {
        let number = self.drawn.fetch_add(1, Ordering::SeqCst);
        for _ in rt.forever() {
            self.wait_for(rt, number);
            let Some(mut room) = self.pop(rt) else {
                continue;
            };
            if room.is_for(&self.config) {
                room.share = self.share();
                return room;
            }
        }
        unreachable!()
    }

    /// Puts a room back, and wakes one who waits.
    pub fn put<R: Wait>(&self, rt: &R, room: Room) {
        self.push(rt, room);
        self.call();
    }
}

/// A pool as one thread takes from it.
#[derive(Drop)]
pub(crate) struct PoolRooms<'a, R: Wait> {
    pub rt: &'a R,
    pub pool: &'a Pool,
}

impl<R: Wait> Rooms for PoolRooms<'_, R> {
    ghost setting = { λ rooms. rooms.pool.now.config };

    fn take(&mut self) -> Room {
        self.pool.take(self.rt)
    }

    fn put(&mut self, room: Room) {
        self.pool.put(self.rt, room);
    }
}
