//! What a store must have behind the steps of a run. An opening that finds something else ends the run: the
//! disk has then failed where no step stops it, for want of memory.
ghost use Rattle.std.specs.Prelude.{◌≡◌, ◌+◌, ◌&&◌, length, nat_eq, nat_le, nat_lt, slice_index, OnOk};
ghost use Rattle.crash_core.specs.Expected.{nothing, open_for, with_put, with_read, with_stop};
ghost use Rattle.crash_core.specs.Stops.{is_stored, open_after};
ghost use Rattle.hub_model.specs.Setting.{default_setting};

use durable_book::moment_to_keep;
use hub_core::Config;
use q_base::{Commit, Memory, Moment};
use record_log::OPEN;

/// After which call of the disk the gate of a put may hold any byte.
const GATE_CALL: u32 = 3;

/// What a store must have.
#[derive(Clone, Copy, Debug)]
pub(crate) struct Expected {
    pub commits: Commit,
    /// What they take of the capacity, in bytes.
    pub bytes: u64,
    /// The last moment that was kept before a read, in seconds since 1970.
    pub kept: Option<u64>,
}

impl Expected {
    /// What a new store has.
    pub fn nothing() -> Expected
        ensures { result ≡ nothing }
    {
        Expected {
            commits: 0,
            bytes: 0,
            kept: None,
        }
    }

    /// Whether a change is accepted that takes so much of the capacity.
    fn accepts(self, cost: u64) -> bool
        ensures { result ≡ nat_le (self.bytes + cost) default_setting.capacity }
    {
        let config = Config::default();
        match self.bytes.checked_add(cost) {
            Some(bytes) => bytes <= config.capacity(),
            None => false,
        }
    }

    /// A change is put that takes so much of the capacity.
    pub fn put(&mut self, cost: u64) -> Result<(), Memory>
        ensures { OnOk result (self.new ≡ with_put self.old cost) }
    {
        if self.accepts(cost) {
            match (self.commits.checked_add(1), self.bytes.checked_add(cost)) {
                (Some(commits), Some(bytes)) => {
                    self.commits = commits;
                    self.bytes = bytes;
                    Ok(())
                }
                _ => Err(Memory),
            }
        } else {
            Ok(())
        }
    }

    /// A record is read at a moment.
    pub fn read(&mut self, moment: Moment)
        ensures { self.new ≡ with_read self.old moment }
    {
        match moment_to_keep(moment, self.kept.unwrap_or(0)) {
            Some(later) => self.kept = Some(later),
            None => {}
        }
    }

    /// How many bytes of the disk may be any once a put stops behind so many calls, whose record has this
    /// size.
    pub fn open_bytes(self, cost: u64, size: u64, calls: u32) -> u64
        ensures { result ≡ open_for self cost size calls }
    {
        if self.accepts(cost) {
            open_after(size, calls)
        } else {
            0
        }
    }

    /// A put stops behind so many calls, and these bytes are drawn.
    pub fn stop(&mut self, cost: u64, calls: u32, drawn: &[u8]) -> Result<(), Memory>
        ensures { OnOk result (self.new ≡ with_stop self.old cost calls drawn.now) }
    {
        if is_stored(calls, drawn) {
            self.put(cost)
        } else {
            Ok(())
        }
    }
}

/// How many bytes may be any behind so many calls of a put.
fn open_after(size: u64, calls: u32) -> u64
    ensures { result ≡ open_after size calls }
{
    if calls == 1 {
        size
    } else if calls == GATE_CALL {
        1
    } else {
        0
    }
}

/// Whether a put that stopped behind so many calls is there behind a crash that drew these bytes.
fn is_stored(calls: u32, drawn: &[u8]) -> bool
    ensures { result ≡ is_stored calls drawn.now }
{
    calls == GATE_CALL && drawn.len() > 0 && drawn[0] == OPEN
}
