//! The entries of a shared log's history, which contracts alone see.

use crate::mark::AtOpening;
use disks::Disk;
use record_log::Log;
use std::marker::Model;
use std::snapshot::Snapshot;

/// What clauses see of an entry: that a record was queued, or that some are stored. No value of it is made.
#[derive(Drop)]
pub struct Noted {}

impl Model for Noted {
    ghost use Rattle.std.specs.Prelude.{None};
    ghost use Rattle.shared_log.specs.Notes.{LogNote, Stored};

    ghost Value = { LogNote };

    ghost view = { λ _. Stored 0 (record { history = None; faults = 0; gate = 0 }) };
}

/// A log as it was opened. It takes no memory: contracts see what it showed, its commits and its moment.
#[derive(Drop)]
pub struct OpenedLog<K: Disk + Drop> {
    pub log: Snapshot<Log<K>>,
    pub at: AtOpening,
}

impl<K: Disk + Drop> Model for OpenedLog<K> {
    ghost use Rattle.shared_log.specs.Notes.{Opened};

    ghost Value = { Opened };

    ghost view = { λ o. record { log = o.log.value; commits = o.at.commits; moment = o.at.moment } };
}
