//! Who keeps the commits of a server.
ghost use Rattle.std.specs.Prelude.{◌≡◌, ℕ, Bool, false, true, List, [], Option, Some, IfOk, OnOk, OnErr};
ghost use Rattle.commit_book.specs.declared.change.Change.{Change as AChange};
ghost use Rattle.kept_desk.specs.Filling.{Fills, Writes};

use crate::keeping::{Keeping, NoKeeping};
use crate::unfilled::Unfilled;
use hub_desk::Desk;
use q_base::{Memory, Moment};

/// Who keeps the commits of a server: it fills an empty store with those that were kept before, and then
/// has a hand for each connection.
pub trait Keeper {
    /// Who keeps the commits that a connection makes and shows.
    type Hand: Keeping + Send + Drop + 'static;

    /// Its hands may fail.
    ghost may_fail: { Self → Bool };

    /// These commits were kept before, each with its clock, in this order, as far as the keeper shows.
    ghost kept: { Self → List (ℕ × AChange) → Type 0 };

    /// No reply that was given before may be kept by caches until this moment or later, in seconds since
    /// 1970; 0 where none was given.
    ghost moment: { Self → ℕ };

    /// For how long caches may keep a reply of this store, in seconds.
    ghost longest: { Self → ℕ };

    /// Where its hands keep what they are given, once the store is filled.
    ghost log: { Self → Option Self.Hand.Log };

    /// This was opened on what was kept before, as far as the keeper shows.
    ghost opens: { Self → Self.Hand.Log → Type 0 };

    /// The second from which on no reply may be shown any more that was given before. Until then the pages of
    /// the store have every bit set.
    fn guard(&self) -> u64
        ensures { result ≡ moment self.now };

    /// Writes what was kept into a store that is empty, by a desk that alone uses it, and lets time pass up
    /// to a moment.
    fn fill<D: Desk>(&mut self, desk: &mut D, up_to: Moment) -> Result<(), Unfilled>
        ensures fills { Fills (D.setting desk.old) (D.seen desk.old) (D.seen desk.new) (D.mine desk.old) (D.mine desk.new) }
        ensures written { OnOk result ((changes : List (ℕ × AChange)) × kept self.old changes × Writes (D.mine desk.old) (D.mine desk.new) changes) }
        ensures opened { OnOk result ((place : Self.Hand.Log) → log self.new ≡ Some place → opens self.old place) }
        ensures refused { OnErr result (may_fail self.old ≡ true) }
        ensures none { may_fail self.old ≡ false → (D.seen desk.new ≡ D.seen desk.old) × (D.mine desk.new ≡ D.mine desk.old) }
        ensures anchor { D.anchor desk.new ≡ D.anchor desk.old }
        ensures setting { D.setting desk.new ≡ D.setting desk.old }
        ensures longest { longest self.new ≡ longest self.old }
        ensures same { may_fail self.new ≡ may_fail self.old };

    /// A hand for one connection more, once the store is filled.
    fn hand(&mut self) -> Result<Self::Hand, Memory>
        ensures hand { IfOk result (λ hand. Self.Hand.may_fail hand ≡ may_fail self.old) }
        ensures lasts { IfOk result (λ hand. Self.Hand.longest hand ≡ longest self.old) }
        ensures tied { IfOk result (λ hand. log self.old ≡ Some (Self.Hand.log hand)) }
        ensures log { log self.new ≡ log self.old }
        ensures longest { longest self.new ≡ longest self.old }
        ensures same { may_fail self.new ≡ may_fail self.old };
}

/// Nobody, who keeps nothing.
#[derive(Clone, Copy, Debug)]
pub struct NoKeeper;

impl Keeper for NoKeeper {
    type Hand = NoKeeping;

    ghost use Rattle.std.specs.Prelude.{◌≡◌, false, [], Some};

    ghost may_fail = { λ _. false };

    ghost kept = { λ _ changes. changes ≡ [] };

    ghost moment = { λ _. 0 };

    ghost longest = { λ _. 0 };

    ghost log = { λ _. Some tt };

    ghost opens = { λ _ _. Unit {0} };

    fn guard(&self) -> u64 {
        0
    }

    fn fill<D: Desk>(&mut self, desk: &mut D, _up_to: Moment) -> Result<(), Unfilled> {
        fill_with_none(desk);
        Ok(())
    }

    fn hand(&mut self) -> Result<NoKeeping, Memory> {
        Ok(NoKeeping)
    }
}

/// Writes nothing.
pub(crate) fn fill_with_none<D: Desk>(desk: &mut D)
    ensures same { desk.new ≡ desk.old }
    ensures fills { Fills (D.setting desk.old) (D.seen desk.old) (D.seen desk.new) (D.mine desk.old) (D.mine desk.new) }
    ensures written { (changes : List (ℕ × AChange)) × (changes ≡ []) × Writes (D.mine desk.old) (D.mine desk.new) changes }
{}
