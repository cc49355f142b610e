//! Filling an empty store with the records of a log, one at a time: no list of them is made.
//!
//! Each commit of the log is written anew, at its clock and under no condition, so it gets the number that it
//! had. Where the capacity would not take the next one, all is matched and old changes are dropped first, as
//! the matchers of a server do: a log has all changes, and the store what lives of them.
ghost use Rattle.std.specs.Prelude.{◌≡◌, ◌+◌, ◌<◌, ◌^◌, length, [], ◌∷◌, IfOk, OnOk};
ghost use Rattle.kept_desk.specs.Filling.{Fills, Writes};
ghost use Rattle.kept_desk.specs.Kept.{ReadsAll, kept_by, moment_behind};

use crate::log_keeper::Notes;
use crate::looking::moment_with;
use crate::unfilled::Unfilled;
use disks::Disk;
use hub_desk::{Change, Condition, Desk, Figures, Trim, Written};
use q_base::{Commit, Moment};
use record_log::{LogRecord, Opening};
use shared_log::AtOpening;

/// How many drops are made at most before a store is taken as too small: each moves the horizon by some
/// thousands of commits.
const MOST_DROPS: u32 = 1_000_000;

/// Writes the records of a log by a desk, matches all, and lets time pass up to a moment. It tells how many
/// commits there are, and which moment is kept.
pub(crate) fn fill<D: Desk, K: Disk + Drop, N: Notes>(
    desk: &mut D,
    opening: &mut Opening<K>,
    notes: &N,
    moment: Moment,
) -> Result<AtOpening, Unfilled>
    ensures fills { Fills (D.setting desk.old) (D.seen desk.old) (D.seen desk.new) (D.mine desk.old) (D.mine desk.new) }
    ensures read { IfOk result (λ at. ReadsAll opening.old opening.new (D.mine desk.old) (D.mine desk.new) at.commits at.moment) }
    ensures room { OnOk result (opening.new.gate + 1 < 2 ^ 64) }
    ensures anchor { D.anchor desk.new ≡ D.anchor desk.old }
    ensures setting { D.setting desk.new ≡ D.setting desk.old }
{
    let mut filling = Filling {
        at: AtOpening {
            commits: 0,
            moment: 0,
        },
        room: 0,
    };
    for _n in 0..u64::MAX {
        match opening.next() {
            Ok(Some(said)) => filling.add(desk, said)?,
            Ok(None) => return end(desk, filling.at, moment),
            Err(refusal) => return Err(Unfilled::Log(refusal)),
        }
        notes.note(filling.at.commits);
    }
    Err(Unfilled::Memory)
}

/// Matches all and lets time pass up to a moment, behind all that the log has.
fn end<D: Desk>(desk: &mut D, at: AtOpening, moment: Moment) -> Result<AtOpening, Unfilled>
    ensures fills { Fills (D.setting desk.old) (D.seen desk.old) (D.seen desk.new) (D.mine desk.old) (D.mine desk.new) }
    ensures written { Writes (D.mine desk.old) (D.mine desk.new) [] }
    ensures at { IfOk result (λ a. a ≡ at) }
    ensures anchor { D.anchor desk.new ≡ D.anchor desk.old }
    ensures setting { D.setting desk.new ≡ D.setting desk.old }
{
    catch_up(desk, moment)?;
    Ok(at)
}

/// Matches all, and lets time pass up to a moment.
fn catch_up<D: Desk>(desk: &mut D, moment: Moment) -> Result<(), Unfilled>
    ensures fills { Fills (D.setting desk.old) (D.seen desk.old) (D.seen desk.new) (D.mine desk.old) (D.mine desk.new) }
    ensures written { Writes (D.mine desk.old) (D.mine desk.new) [] }
    ensures anchor { D.anchor desk.new ≡ D.anchor desk.old }
    ensures setting { D.setting desk.new ≡ D.setting desk.old }
{
    if desk.ready().is_err() {
        return Err(Unfilled::Memory);
    }
    match_ready(desk, moment)
}

/// The same by a desk that is ready.
fn match_ready<D: Desk>(desk: &mut D, moment: Moment) -> Result<(), Unfilled>
    requires { D.is_ready desk.old }
    ensures fills { Fills (D.setting desk.old) (D.seen desk.old) (D.seen desk.new) (D.mine desk.old) (D.mine desk.new) }
    ensures written { Writes (D.mine desk.old) (D.mine desk.new) [] }
    ensures anchor { D.anchor desk.new ≡ D.anchor desk.old }
    ensures setting { D.setting desk.new ≡ D.setting desk.old }
{
    match desk.match_all(moment) {
        Ok(_) => Ok(()),
        Err(_) => Err(Unfilled::Memory),
    }
}

/// How far a store is filled.
#[derive(Clone, Copy, Debug)]
struct Filling {
    at: AtOpening,
    /// How much of the capacity is left at least, in bytes.
    room: u64,
}

impl Filling {
    /// Adds what a record says.
    fn add<D: Desk>(&mut self, desk: &mut D, said: LogRecord) -> Result<(), Unfilled>
        ensures fills { Fills (D.setting desk.old) (D.seen desk.old) (D.seen desk.new) (D.mine desk.old) (D.mine desk.new) }
        ensures written { OnOk result (Writes (D.mine desk.old) (D.mine desk.new) (kept_by said)) }
        ensures commits { OnOk result (self.new.at.commits ≡ self.old.at.commits + length (kept_by said)) }
        ensures moment { OnOk result (self.new.at.moment ≡ moment_behind self.old.at.moment said) }
        ensures anchor { D.anchor desk.new ≡ D.anchor desk.old }
        ensures setting { D.setting desk.new ≡ D.setting desk.old }
    {
        self.at.moment = moment_with(self.at.moment, &said);
        match said {
            LogRecord::Commit { clock, change } => self.write(desk, Moment::of(clock), change),
            LogRecord::Moment { .. } => Ok(()),
        }
    }

    /// Writes a commit, with room for it.
    fn write<D: Desk>(
        &mut self,
        desk: &mut D,
        clock: Moment,
        change: Change,
    ) -> Result<(), Unfilled>
        ensures fills { Fills (D.setting desk.old) (D.seen desk.old) (D.seen desk.new) (D.mine desk.old) (D.mine desk.new) }
        ensures written { OnOk result (Writes (D.mine desk.old) (D.mine desk.new) ((clock, change) ∷ [])) }
        ensures commits { OnOk result (self.new.at.commits ≡ self.old.at.commits + 1) }
        ensures moment { self.new.at.moment ≡ self.old.at.moment }
        ensures anchor { D.anchor desk.new ≡ D.anchor desk.old }
        ensures setting { D.setting desk.new ≡ D.setting desk.old }
    {
        self.find_room(desk, clock, change.cost())?;
        self.at.commits = write_next(desk, clock, change, self.at.commits)?;
        Ok(())
    }

    /// Takes a cost from the room, and drops old changes before where there is too little.
    #[tactic(auto, using(crate::proofs::FillLemmas::filling_none))]
    fn find_room<D: Desk>(&mut self, desk: &mut D, clock: Moment, cost: u64) -> Result<(), Unfilled>
        ensures fills { Fills (D.setting desk.old) (D.seen desk.old) (D.seen desk.new) (D.mine desk.old) (D.mine desk.new) }
        ensures written { Writes (D.mine desk.old) (D.mine desk.new) [] }
        ensures commits { self.new.at.commits ≡ self.old.at.commits }
        ensures moment { self.new.at.moment ≡ self.old.at.moment }
        ensures anchor { D.anchor desk.new ≡ D.anchor desk.old }
        ensures setting { D.setting desk.new ≡ D.setting desk.old }
    {
        if cost <= self.room {
            self.room -= cost;
            return Ok(());
        }
        let room = make_room(desk, clock, cost, self.at.commits)?;
        self.room = room.saturating_sub(cost);
        Ok(())
    }
}

/// What is left of the capacity, in bytes, once old changes were dropped until a cost has room.
fn make_room<D: Desk>(
    desk: &mut D,
    clock: Moment,
    cost: u64,
    commits: Commit,
) -> Result<u64, Unfilled>
    ensures fills { Fills (D.setting desk.old) (D.seen desk.old) (D.seen desk.new) (D.mine desk.old) (D.mine desk.new) }
    ensures written { Writes (D.mine desk.old) (D.mine desk.new) [] }
    ensures anchor { D.anchor desk.new ≡ D.anchor desk.old }
    ensures setting { D.setting desk.new ≡ D.setting desk.old }
{
    for _n in 0..MOST_DROPS {
        match room_or_drop(desk, clock, cost) {
            Ok(None) => {}
            Ok(Some(room)) => return room_for(cost, room, commits),
            Err(refusal) => return Err(refusal),
        }
    }
    Err(Unfilled::TooSmall { commits })
}

/// So much room, where it is enough for a cost.
fn room_for(cost: u64, room: u64, commits: Commit) -> Result<u64, Unfilled> {
    if room < cost {
        return Err(Unfilled::TooSmall { commits });
    }
    Ok(room)
}

/// What is left of the capacity, in bytes, where a cost has room, or nothing is left to drop. Else old
/// changes were dropped.
fn room_or_drop<D: Desk>(desk: &mut D, clock: Moment, cost: u64) -> Result<Option<u64>, Unfilled>
    ensures fills { Fills (D.setting desk.old) (D.seen desk.old) (D.seen desk.new) (D.mine desk.old) (D.mine desk.new) }
    ensures written { Writes (D.mine desk.old) (D.mine desk.new) [] }
    ensures anchor { D.anchor desk.new ≡ D.anchor desk.old }
    ensures setting { D.setting desk.new ≡ D.setting desk.old }
{
    let figures = desk.figures();
    let room = figures.capacity.saturating_sub(figures.kept);
    if is_settled(&figures, room, cost) {
        return Ok(Some(room));
    }
    drop_some(desk, clock)
}

/// Whether a cost has room and no more than three quarters of the capacity are kept, or nothing is left to
/// drop.
fn is_settled(figures: &Figures, room: u64, cost: u64) -> bool {
    if figures.horizon == figures.commits {
        return true;
    }
    room >= cost && figures.kept <= figures.capacity - figures.capacity / 4
}

/// Matches all and drops some of the old changes.
fn drop_some<D: Desk>(desk: &mut D, clock: Moment) -> Result<Option<u64>, Unfilled>
    ensures fills { Fills (D.setting desk.old) (D.seen desk.old) (D.seen desk.new) (D.mine desk.old) (D.mine desk.new) }
    ensures written { Writes (D.mine desk.old) (D.mine desk.new) [] }
    ensures anchor { D.anchor desk.new ≡ D.anchor desk.old }
    ensures setting { D.setting desk.new ≡ D.setting desk.old }
{
    catch_up(desk, clock)?;
    drop_old(desk, clock)
}

/// Drops some of the old changes.
fn drop_old<D: Desk>(desk: &mut D, clock: Moment) -> Result<Option<u64>, Unfilled>
    ensures fills { Fills (D.setting desk.old) (D.seen desk.old) (D.seen desk.new) (D.mine desk.old) (D.mine desk.new) }
    ensures written { Writes (D.mine desk.old) (D.mine desk.new) [] }
    ensures anchor { D.anchor desk.new ≡ D.anchor desk.old }
    ensures setting { D.setting desk.new ≡ D.setting desk.old }
{
    if desk.ready().is_err() {
        return Err(Unfilled::Memory);
    }
    drop_ready(desk, clock);
    Ok(None)
}

/// The same by a desk that is ready.
fn drop_ready<D: Desk>(desk: &mut D, clock: Moment)
    requires { D.is_ready desk.old }
    ensures fills { Fills (D.setting desk.old) (D.seen desk.old) (D.seen desk.new) (D.mine desk.old) (D.mine desk.new) }
    ensures written { Writes (D.mine desk.old) (D.mine desk.new) [] }
    ensures anchor { D.anchor desk.new ≡ D.anchor desk.old }
    ensures setting { D.setting desk.new ≡ D.setting desk.old }
{
    desk.drop_old(clock, Trim::Below { commits: 0 });
}

/// Writes the commit behind so many, and returns its number.
fn write_next<D: Desk>(
    desk: &mut D,
    clock: Moment,
    change: Change,
    commits: Commit,
) -> Result<Commit, Unfilled>
    ensures fills { Fills (D.setting desk.old) (D.seen desk.old) (D.seen desk.new) (D.mine desk.old) (D.mine desk.new) }
    ensures written { OnOk result (Writes (D.mine desk.old) (D.mine desk.new) ((clock, change) ∷ [])) }
    ensures next { IfOk result (λ n. n ≡ commits + 1) }
    ensures anchor { D.anchor desk.new ≡ D.anchor desk.old }
    ensures setting { D.setting desk.new ≡ D.setting desk.old }
{
    if desk.ready().is_err() {
        return Err(Unfilled::Memory);
    }
    write_ready(desk, clock, change, commits)
}

/// The same by a desk that is ready.
fn write_ready<D: Desk>(
    desk: &mut D,
    clock: Moment,
    change: Change,
    commits: Commit,
) -> Result<Commit, Unfilled>
    requires { D.is_ready desk.old }
    ensures fills { Fills (D.setting desk.old) (D.seen desk.old) (D.seen desk.new) (D.mine desk.old) (D.mine desk.new) }
    ensures written { OnOk result (Writes (D.mine desk.old) (D.mine desk.new) ((clock, change) ∷ [])) }
    ensures next { IfOk result (λ n. n ≡ commits + 1) }
    ensures anchor { D.anchor desk.new ≡ D.anchor desk.old }
    ensures setting { D.setting desk.new ≡ D.setting desk.old }
{
    match desk.write(clock, change, Condition::Always) {
        Ok(written) => number_of(&written, commits),
        Err(_) => Err(Unfilled::Memory),
    }
}

/// The number of a commit that was written behind so many. Another number tells that the store was not empty,
/// or that others used it meanwhile.
fn number_of(written: &Written, commits: Commit) -> Result<Commit, Unfilled>
    ensures { IfOk result (λ n. n ≡ commits + 1) }
{
    let Written::Done { commit, .. } = written else {
        return Err(Unfilled::TooSmall { commits });
    };
    let number = *commit;
    if number <= commits || number - commits != 1 {
        return Err(Unfilled::NotEmpty);
    }
    Ok(number)
}
