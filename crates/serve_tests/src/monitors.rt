//! What a monitor hears of a server.
ghost use Rattle.std.specs.Prelude.{◌≡◌, ◌<◌};

use crate::order::{GET, PUT};
use crate::sinks::{KeptSink, connection_from};
use hub_core::Config;
use kept_desk::NoKeeper;
use q_base::{Commit, Memory, Moment};
use q_outside::{FixedClock, Gate, ListDoors, PlainSource, Script};
use quaestor_serve::{Crew, Figures, Monitor, Trim, serve};
use std::alloc::Global;
use std::collections::VecDeque;
use std::marker::Brand;
use std::rt::Clock;
use std::sync::atomic::{AtomicU64, Ordering};
use std::sync::ledger::{Blank, Ledger};
use std::sync::{Arc, Wait};
use std::test::Fail;
use std::thread::{Threads, yield_now};

/// The number of turns after which a gate gives up.
const TURNS: u32 = 100_000_000;

/// A monitor that always asks, and keeps what it heard last. As a gate it holds each connection but the
/// first until it heard of a commit.
#[derive(Clone, Drop)]
struct KeptMonitor {
    words: Arc<Words, Global>,
}

/// What its clones share.
#[derive(Drop)]
struct Words {
    passed: AtomicU64,
    fronts: AtomicU64,
    commits: AtomicU64,
    kept: AtomicU64,
    capacity: AtomicU64,
    turns: AtomicU64,
    ends: AtomicU64,
}

impl KeptMonitor {
    /// One that heard nothing yet.
    fn new(alloc: Global) -> Result<KeptMonitor, Memory> {
        let words = Words {
            passed: AtomicU64::new(0),
            fronts: AtomicU64::new(0),
            commits: AtomicU64::new(0),
            kept: AtomicU64::new(0),
            capacity: AtomicU64::new(0),
            turns: AtomicU64::new(0),
            ends: AtomicU64::new(0),
        };
        Ok(KeptMonitor {
            words: Arc::new(alloc, words)?,
        })
    }
}

impl Monitor for KeptMonitor {
    fn hear_front(&self, front: Commit) {
        self.words.fronts.fetch_max(front, Ordering::SeqCst);
    }

    fn is_asking(&self) -> bool {
        true
    }

    fn hear(&self, figures: &Figures) {
        self.words.kept.store(figures.kept, Ordering::SeqCst);
        self.words
            .capacity
            .store(figures.capacity, Ordering::SeqCst);
        self.words.turns.store(figures.turns, Ordering::SeqCst);
        self.words.commits.store(figures.commits, Ordering::SeqCst);
    }

    fn end(&self) {
        self.words.ends.fetch_add(1, Ordering::SeqCst);
    }
}

impl Gate for KeptMonitor {
    fn pass(&self, _place: u32) {
        if self.words.passed.fetch_add(1, Ordering::SeqCst) == 0 {
            return;
        }
        for _ in 0..TURNS {
            if self.words.commits.load(Ordering::SeqCst) > 0
                && self.words.fronts.load(Ordering::SeqCst) > 0
            {
                return;
            }
            yield_now();
        }
    }
}

/// Serves a write and then a read at one place, beside one matcher.
fn watch_counted<L: Ledger, R: Threads + Wait + Clock + Copy + Send + 'static>(
    rt: &R,
    alloc: Global,
    monitor: &KeptMonitor,
    blank: Blank,
) -> Result<(), Memory>
    requires name { blank.name ≡ L.name }
    requires parts { blank.parts ≡ L.parts }
    requires some { 0 < L.parts }
{
    let mut connections = VecDeque::new(alloc);
    for request in [PUT, GET] {
        let mut bytes = Vec::new(alloc);
        bytes.extend_from_slice(request)?;
        connections.push_back(connection_from(alloc, bytes, None))?;
    }
    let script = Script::of(Vec::new(alloc), Vec::new(alloc));
    let mut doors = ListDoors::<PlainSource, KeptSink, L>::new(alloc, connections, script, blank)?;
    let clock = FixedClock {
        at: Moment::of(100),
    };
    let crew = Crew {
        places: 1,
        workers: 1,
        matchers: 1,
        trim: Trim::Full,
    };
    let _ = serve(
        rt,
        alloc,
        Config::default(),
        &mut doors,
        &clock,
        monitor,
        &mut NoKeeper,
        monitor,
        crew,
        2,
    );
    Ok(())
}

/// The same with a ledger of its own.
fn watch<R: Threads + Wait + Clock + Copy + Send + 'static>(
    rt: &R,
    alloc: Global,
    monitor: &KeptMonitor,
) -> Result<(), Memory> {
    watch_counted::<Brand, R>(rt, alloc, monitor, Blank::new(1))
}

#[test]
fn a_monitor_hears_of_a_write_and_once_of_the_end(rt: HostRuntime) -> Result<(), Fail> {
    let monitor = KeptMonitor::new(rt.alloc())?;
    watch(&rt, rt.alloc(), &monitor)?;
    let words = &monitor.words;
    assert_eq!(rt; words.commits.load(Ordering::SeqCst), 1);
    assert_eq!(rt; words.fronts.load(Ordering::SeqCst), 1);
    assert!(rt; words.kept.load(Ordering::SeqCst) > 0);
    assert_eq!(rt;
        words.capacity.load(Ordering::SeqCst),
        Config::default().capacity()
    );
    assert!(rt; words.turns.load(Ordering::SeqCst) > 0);
    assert_eq!(rt; words.ends.load(Ordering::SeqCst), 1);
    Ok(())
}
