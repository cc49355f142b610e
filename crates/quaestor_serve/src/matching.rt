//! Matching: who matches all commits in turn, so that outdated copies are found, and drops old changes, so
//! that the store does not fill.
//!
//! A step matches all commits. Then it drops old changes, unless the last drop moved nothing and no commit
//! was matched since: so an idle store is asked no more, and one that is behind is asked at each step until
//! there is nothing left to drop. One drop moves the horizon by a few thousand commits at most, and a step
//! comes each millisecond, which keeps ahead of writers. A store that refuses writes, as it is full, makes
//! no commits: there too the last of them was matched after the last drop, or the last drop moved the
//! horizon, so that the next step asks.
ghost use Rattle.std.specs.Prelude.{◌≡◌};
ghost use Rattle.hub_desk.specs.declared.trim.Trim.{Trim as ATrim};
ghost use Rattle.quaestor_serve.specs.Matches.{Matches};

use crate::monitor::Monitor;
use crate::stop::Stop;
use hub_desk::{Desk, Trim};
use q_base::Commit;
use q_outside::Clock;
use std::sync::Wait;

/// What one who matches knows of its last drop.
#[derive(Clone, Copy, Debug, PartialEq, Eq)]
pub(crate) struct LastDrop {
    /// The front of the match before it, or of a later one, as far as it is known.
    front: Option<Commit>,
    /// The horizon behind it.
    horizon: Commit,
    /// The front at which it moved nothing, if it did not.
    settled: Option<Commit>,
}

impl LastDrop {
    /// Where none was made yet.
    pub(crate) fn none() -> LastDrop {
        LastDrop {
            front: None,
            horizon: 0,
            settled: None,
        }
    }

    /// Whether there is nothing to drop at this front; where it is not known there may be.
    fn is_settled_at(self, front: Option<Commit>) -> bool {
        match (self.settled, front) {
            (Some(settled), Some(front)) => settled == front,
            _ => false,
        }
    }

    /// What is known behind the next drop, by the front at which it was made and the horizon that it told,
    /// as far as these are known.
    fn then(self, front: Option<Commit>, horizon: Option<Commit>) -> LastDrop {
        match horizon {
            Some(horizon) if horizon == self.horizon => LastDrop {
                front,
                horizon,
                settled: front,
            },
            Some(horizon) => LastDrop {
                front,
                horizon,
                settled: None,
            },
            None => LastDrop { front, ..self },
        }
    }
}

/// Matches all commits once, and then drops old changes, unless there is nothing to drop as far as is known.
pub(crate) fn match_and_drop<D: Desk, C: Clock>(
    desk: &mut D,
    clock: &mut C,
    trim: Trim,
    last: LastDrop,
) -> LastDrop
    ensures matches { Matches C.tick (D.setting desk.old) trim (D.seen desk.old) (D.seen desk.new) (D.mine desk.old) (D.mine desk.new) clock.old clock.new }
    ensures anchor { D.anchor desk.new ≡ D.anchor desk.old }
    ensures setting { D.setting desk.new ≡ D.setting desk.old }
{
    let front = match_once(desk, clock);
    if last.is_settled_at(front) {
        return LastDrop { front, ..last };
    }
    let horizon = drop_once(desk, clock, trim);
    last.then(front, horizon)
}

/// Tells a monitor the front of the last match, as far as it is known.
fn tell_front<M: Monitor>(monitor: &M, last: LastDrop) {
    if let Some(front) = last.front {
        monitor.hear_front(front);
    }
}

/// The same, and then the monitor hears the front, and the figures, where it asks for them. They are taken
/// without an entry.
pub(crate) fn match_and_tell<D: Desk, C: Clock, M: Monitor>(
    desk: &mut D,
    clock: &mut C,
    trim: Trim,
    last: LastDrop,
    monitor: &M,
) -> LastDrop
    ensures matches { Matches C.tick (D.setting desk.old) trim (D.seen desk.old) (D.seen desk.new) (D.mine desk.old) (D.mine desk.new) clock.old clock.new }
    ensures anchor { D.anchor desk.new ≡ D.anchor desk.old }
    ensures setting { D.setting desk.new ≡ D.setting desk.old }
{
    let last = match_and_drop(desk, clock, trim, last);
    tell_front(monitor, last);
    if monitor.is_asking() {
        let figures = desk.figures();
        monitor.hear(&figures);
        return last;
    }
    last
}

/// Matches all commits once, and tells the front. Where memory runs out, the next call tries again.
fn match_once<D: Desk, C: Clock>(desk: &mut D, clock: &mut C) -> Option<Commit>
    ensures matches { (trim : ATrim) → Matches C.tick (D.setting desk.old) trim (D.seen desk.old) (D.seen desk.new) (D.mine desk.old) (D.mine desk.new) clock.old clock.new }
    ensures anchor { D.anchor desk.new ≡ D.anchor desk.old }
    ensures setting { D.setting desk.new ≡ D.setting desk.old }
{
    if desk.ready().is_err() {
        return None;
    }
    match_ready(desk, clock)
}

/// Matches all commits once, by a desk that is ready.
fn match_ready<D: Desk, C: Clock>(desk: &mut D, clock: &mut C) -> Option<Commit>
    requires { D.is_ready desk.old }
    ensures matches { (trim : ATrim) → Matches C.tick (D.setting desk.old) trim (D.seen desk.old) (D.seen desk.new) (D.mine desk.old) (D.mine desk.new) clock.old clock.new }
    ensures anchor { D.anchor desk.new ≡ D.anchor desk.old }
    ensures setting { D.setting desk.new ≡ D.setting desk.old }
{
    let moment = clock.now();
    match desk.match_all(moment) {
        Ok(matched) => Some(matched.front),
        Err(_) => None,
    }
}

/// Drops old changes once, and tells the horizon. It takes no memory, but what a desk stores may need some.
fn drop_once<D: Desk, C: Clock>(desk: &mut D, clock: &mut C, trim: Trim) -> Option<Commit>
    ensures matches { Matches C.tick (D.setting desk.old) trim (D.seen desk.old) (D.seen desk.new) (D.mine desk.old) (D.mine desk.new) clock.old clock.new }
    ensures anchor { D.anchor desk.new ≡ D.anchor desk.old }
    ensures setting { D.setting desk.new ≡ D.setting desk.old }
{
    if desk.ready().is_err() {
        return None;
    }
    Some(drop_ready(desk, clock, trim))
}

/// Drops old changes once, by a desk that is ready.
fn drop_ready<D: Desk, C: Clock>(desk: &mut D, clock: &mut C, trim: Trim) -> Commit
    requires { D.is_ready desk.old }
    ensures matches { Matches C.tick (D.setting desk.old) trim (D.seen desk.old) (D.seen desk.new) (D.mine desk.old) (D.mine desk.new) clock.old clock.new }
    ensures anchor { D.anchor desk.new ≡ D.anchor desk.old }
    ensures setting { D.setting desk.new ≡ D.setting desk.old }
{
    let moment = clock.now();
    let dropped = desk.drop_old(moment, trim);
    dropped.horizon
}

/// Matches all commits in turn and drops old changes as far as the trim says, with a rest behind each step,
/// until the flag is read as set. Behind a step the monitor hears the front, and the figures, where it asks
/// for them.
pub fn work_until_stopped<D: Desk, C: Clock, R: Wait, M: Monitor>(
    rt: &R,
    desk: &mut D,
    clock: &mut C,
    trim: Trim,
    stop: &Stop,
    monitor: &M,
)
    ensures matches { Matches C.tick (D.setting desk.old) trim (D.seen desk.old) (D.seen desk.new) (D.mine desk.old) (D.mine desk.new) clock.old clock.new }
    ensures anchor { D.anchor desk.new ≡ D.anchor desk.old }
    ensures setting { D.setting desk.new ≡ D.setting desk.old }
{
    let mut last = LastDrop::none();
    for _ in rt.forever() {
        if stop.is_set() {
            return;
        }
        last = match_and_tell(desk, clock, trim, last, monitor);
        stop.rest(rt);
    }
    unreachable!()
}
