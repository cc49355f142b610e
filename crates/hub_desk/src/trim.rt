//! Up to where old changes are dropped.
ghost use Rattle.std.specs.Prelude.{◌≡◌, ◌+◌, ◌≤◌, min};
ghost use Rattle.hub_core.specs.HubState.{IsAt};
ghost use Rattle.hub_model.specs.State.{State};
ghost use Rattle.hub_desk.specs.Desk.{is_filling, most_dropped, target_of};

use hub_core::Hub;
use q_base::Commit;

/// How many commits one drop moves the horizon at most, unless all is to be dropped, so that no turn
/// is long.
const MOST_DROPPED: u64 = 4_096;

/// What the greatest change takes, in bytes.
const GREATEST_COST: u64 = 65_728;

/// How many commits more may be kept than a trim leaves, until writers rest.
const MOST_BEHIND: u64 = 4_096;

/// Up to where a call drops old changes: none above the front.
#[derive(Clone, Copy, Debug, PartialEq, Eq)]
pub enum Trim {
    /// Up to the front, however far that is.
    All,
    /// Up to this number of commits below the front, or part of the way there.
    Below { commits: u64 },
    /// Up to the front, or part of the way there, where the kept bytes are above three quarters of the
    /// capacity, or leave less of it than the greatest change takes, and else nowhere.
    Full,
}

/// The commit up to which old changes of a hub are dropped. Where there is nothing to drop it is not
/// above the horizon.
pub(crate) fn target_of(hub: &Hub, trim: Trim) -> Commit
    ensures target { (s : State) → IsAt hub.now s → result ≡ target_of hub.now.setting s trim }
    ensures within { result ≤ hub.now.front }
{
    match trim {
        Trim::All => hub.front(),
        Trim::Below { commits } => part_way(hub.horizon(), hub.front().saturating_sub(commits)),
        Trim::Full => {
            if is_filling(hub.capacity(), hub.bytes()) {
                part_way(hub.horizon(), hub.front())
            } else {
                hub.horizon()
            }
        }
    }
}

/// Whether so many more commits are kept than a trim leaves that writers should rest until some are dropped:
/// those who drop have had no processor for a while. No clause reads it.
pub(crate) fn is_far_behind(hub: &Hub, trim: Trim) -> bool {
    let kept = hub.commits().saturating_sub(hub.horizon());
    match trim {
        Trim::All => kept > MOST_BEHIND,
        Trim::Below { commits } => kept > commits.saturating_add(MOST_BEHIND),
        Trim::Full => kept > MOST_BEHIND && is_nearly_full(hub.capacity(), hub.bytes()),
    }
}

/// Whether more than seven eighths of a capacity are kept, both in bytes.
fn is_nearly_full(capacity: u64, kept: u64) -> bool {
    7 * u128::from(capacity) < 8 * u128::from(kept)
}

/// From a horizon to a commit, or part of the way there.
fn part_way(horizon: Commit, to: Commit) -> Commit
    ensures { result ≡ min to (horizon + most_dropped) }
{
    to.min(horizon.saturating_add(MOST_DROPPED))
}

/// Whether more than three quarters of a capacity are kept, or the greatest change might not fit, all in
/// bytes.
fn is_filling(capacity: u64, kept: u64) -> bool
    ensures { result ≡ is_filling capacity kept }
{
    let capacity = u128::from(capacity);
    let kept = u128::from(kept);
    3 * capacity < 4 * kept || capacity < kept + u128::from(GREATEST_COST)
}
