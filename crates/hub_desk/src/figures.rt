//! The figures of a store, for whoever runs it.
ghost use Rattle.hub_core.specs.HubState.{IsAt};
ghost use Rattle.hub_model.specs.State.{State};
ghost use Rattle.hub_desk.specs.Figures.{AreFiguresOf};

use hub_core::Hub;
use q_base::Commit;

/// The figures of a store, as they were in one turn. They are no reply, so they are taken without an entry.
#[derive(Clone, Copy, Debug, PartialEq, Eq)]
pub struct Figures {
    /// The number of commits.
    pub commits: Commit,
    /// The last commit that was matched.
    pub front: Commit,
    /// The commit up to which old changes were dropped.
    pub horizon: Commit,
    /// What the kept changes take of the capacity, in bytes.
    pub kept: u64,
    /// What the documents of the last commit take of it, in bytes.
    pub live: u64,
    /// The greatest number of bytes that may be kept.
    pub capacity: u64,
    /// The number of keys that have an unexpired copy.
    pub active: u64,
    /// The greatest number of them.
    pub most_active: u64,
    /// The number of keys that the page names.
    pub invalidated: u64,
    /// The number of purged keys so far.
    pub purges: u64,
    /// The logarithm of the number of the page's bits.
    pub log2_bits: u8,
    /// The number of positions of a key in the page.
    pub hashes: u8,
    /// How many turns were taken at the store; 0 where it has one owner. No clause speaks of it.
    pub turns: u64,
    /// The longest turn of this minute and the one before, in microseconds, of those since the figures were
    /// first asked for. No clause speaks of it.
    pub longest_turn: u64,
}

/// The figures of a hub, at which so many turns were taken, the longest of them lately of so many
/// microseconds.
pub(crate) fn figures_of(hub: &Hub, turns: u64, longest_turn: u64) -> Figures
    ensures { (s : State) → IsAt hub.now s → AreFiguresOf hub.now.setting s result }
{
    let config = hub.config();
    let commits = hub.commits();
    let front = hub.front();
    let horizon = hub.horizon();
    let kept = hub.bytes();
    let live = hub.live();
    let capacity = config.capacity();
    let active = hub.active_count();
    let most_active = config.active();
    let invalidated = hub.record_count();
    let purges = hub.purge_count();
    let log2_bits = config.log2_bits();
    let hashes = config.hashes();
    Figures {
        commits,
        front,
        horizon,
        kept,
        live,
        capacity,
        active: active as u64,
        most_active: most_active as u64,
        invalidated: invalidated as u64,
        purges,
        log2_bits,
        hashes,
        turns,
        longest_turn,
    }
}
