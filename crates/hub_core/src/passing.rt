//! The clock moves, and the keys whose last copy expires become idle.
ghost use Rattle.std.specs.Prelude.{◌≡◌, ◌+◌, [], true, false, not, ◌&&◌, length};
ghost use Rattle.query_normal.specs.declared.key.KeyShape.{KeyShape as AKey};
ghost use Rattle.hub_core.specs.CopiesView.{Passes, is_idle};
ghost use Rattle.hub_core.specs.ActiveQueries.{StayKept};
ghost use Rattle.hub_core.specs.Lifetimes.{Drops, went_idle};

use crate::copies::Copies;
use crate::lifetimes::Lifetimes;
use active_queries::ActiveQueries;
use q_base::Moment;

/// Moves the clock forward to a moment. What expires is dropped, and so is what is kept of the keys that
/// became idle. It takes no memory.
pub fn pass(copies: &mut Copies, queries: &mut ActiveQueries, life: &mut Lifetimes, moment: Moment)
    ensures passes { Passes moment copies.old copies.new }
    ensures idle { copies.new.idle ≡ [] }
    ensures kept { StayKept copies.old queries.old.entries copies.new queries.new.entries }
    ensures dropped { Drops (went_idle copies.old copies.new) life.old life.new }
{
    copies.advance(moment);
    drop_idle(copies, queries, life);
}

/// Takes each idle key, and drops its query, its estimate and its last change. Whatever a hub keeps of a key
/// besides its copies ends here.
pub fn drop_idle(copies: &mut Copies, queries: &mut ActiveQueries, life: &mut Lifetimes)
    ensures kept { StayKept copies.old queries.old.entries copies.new queries.new.entries }
    ensures dropped { Drops (is_idle copies.old) life.old life.new }
    ensures rest { copies.new ≡ record copies.old { idle = [] } }
{
    while drop_one_idle(copies, queries, life) {}
}

/// Takes an idle key, and drops what is kept of it; whether there was one.
fn drop_one_idle(copies: &mut Copies, queries: &mut ActiveQueries, life: &mut Lifetimes) -> bool
    ensures kept { StayKept copies.old queries.old.entries copies.new queries.new.entries }
    ensures dropped { Drops (λ key. is_idle copies.old key && not (is_idle copies.new key)) life.old life.new }
    ensures idle { (key : AKey) → is_idle copies.new key ≡ true → is_idle copies.old key ≡ true }
    ensures rest { copies.new ≡ record copies.old { idle = copies.new.idle } }
    ensures fewer { result ≡ true → length copies.new.idle + 1 ≡ length copies.old.idle }
    ensures none { result ≡ false → copies.new.idle ≡ [] }
{
    match copies.next_idle() {
        Some(key) => {
            queries.remove(&key);
            life.drop_key(&key);
            true
        }
        None => false,
    }
}
