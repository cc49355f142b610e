//! The calls that changed a disk, which contracts alone see.
ghost use Rattle.std.specs.Prelude.{◌≡◌, [], ◌∷◌};
ghost use Rattle.disks.specs.Calls.{call_of};

use std::marker::Model;
use std::snapshot::Snapshot;

/// A call that changed a disk.
#[derive(Drop)]
pub enum Call {
    /// Bytes were written from a place on.
    Wrote {
        place: usize,
        bytes: Vec<u8>,
    },
    /// Writing bytes failed, and reads give others from then on.
    Tore {
        place: usize,
        bytes: Vec<u8>,
        left: Vec<u8>,
    },
    /// All that was written is stored.
    Synced,
}

/// All calls that changed a disk. Contracts see their list, the newest first. It takes no memory.
#[derive(Drop)]
pub struct Past {
    noted: Option<(Snapshot<Past>, Snapshot<Call>)>,
}

impl Model for Past {
    ghost use Rattle.std.specs.Prelude.{List, ◌∷◌, [], length};
    ghost use Rattle.std.specs.Option.{option_map_or};
    ghost use Rattle.disks.specs.Devices.{DiskCall};

    ghost Value = { List DiskCall };

    ghost use Rattle.disks.specs.Calls.{call_of};

    ghost view = { λ p. option_map_or (λ n. call_of n.1.value ∷ n.0.value) p.noted [] };

    ghost size = { λ calls. length calls };
}

impl Past {
    /// No call yet.
    pub fn new() -> Past
        ensures { result ≡ [] }
    {
        Past { noted: None }
    }

    /// Notes a call.
    pub fn note(&mut self, call: &Call)
        ensures { self.new ≡ call_of call.now ∷ self.old }
    {
        let before = Snapshot::of(&*self);
        self.noted = Some((before, Snapshot::of(call)));
    }
}
