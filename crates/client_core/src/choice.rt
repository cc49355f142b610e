//! Whether a copy is accepted, and why the server is asked instead.
//!
//! A copy was read at a commit and issued up to a second, `until`. A page says of the copy's key whether
//! all its bits are set; `None` is a session without a page. A copy from before the page's front is good
//! where the page vouches for it: the copy was issued for longer than the page's moment, so an outdated
//! one would have its key in the page, and the key is not there. A key in the page is asked for at the
//! server once for each page, and is then whitelisted: its copies from the front on are accepted.
ghost use Rattle.std.specs.Prelude.{◌≡◌, ℕ, Bool, Option, None, IsTrue};
ghost use Rattle.flat_snapshot.specs.declared.sight.Sight.{Sight as ASight};
ghost use Rattle.client_core.specs.declared.level.Level.{Level as ALevel};
ghost use Rattle.client_core.specs.Choice.{front_of, commit_with, is_accepted, why_before, why_with, why_of, is_vouched, is_expired, is_held};

use crate::level::Level;
use flat_snapshot::Sight;
use q_base::Commit;

/// Why the server is asked.
#[derive(Clone, Copy, Debug, PartialEq, Eq)]
pub enum Why {
    /// The session's level is Strong.
    Strong,
    /// All bits of the key are set in the page, and it was not asked for since.
    Flagged,
    /// The key is whitelisted, and the copy is from before the page's front.
    Older,
    /// The copy is from before the page's front, and its time was over at the page's moment.
    Expired,
    /// The session has read or written a later commit.
    BelowFloor,
}

/// The page's front, and 0 without a page.
pub fn front_of(sight: Option<Sight>) -> Commit
    ensures { result ≡ front_of sight }
{
    match sight {
        Some(sight) => sight.front,
        None => 0,
    }
}

/// The commit that a copy is good for: its own, or the page's front where that is later.
pub fn commit_with(sight: Option<Sight>, commit: Commit) -> Commit
    ensures { result ≡ commit_with sight commit }
{
    commit.max(front_of(sight))
}

/// Whether a copy is accepted.
pub fn is_accepted(sight: Option<Sight>, commit: Commit, until: u64, floor: Commit) -> bool
    ensures { result ≡ is_accepted sight commit until floor }
{
    (front_of(sight) <= commit || is_vouched(sight, until)) && floor <= commit_with(sight, commit)
}

/// Why the server is asked before any cache is.
pub fn why_before(level: Level, sight: Option<Sight>, is_whitelisted: bool) -> Option<Why>
    ensures { result ≡ why_before level sight is_whitelisted }
{
    match level {
        Level::Strong => Some(Why::Strong),
        _ if is_held(sight) && !is_whitelisted => Some(Why::Flagged),
        _ => None,
    }
}

/// Why the server is asked in place of a copy.
pub fn why_with(
    sight: Option<Sight>,
    is_whitelisted: bool,
    commit: Commit,
    until: u64,
    floor: Commit,
) -> Option<Why>
    ensures { result ≡ why_with sight is_whitelisted commit until floor }
{
    let is_before = commit < front_of(sight);
    if is_whitelisted && is_before {
        Some(Why::Older)
    } else if !is_whitelisted && is_before && is_expired(sight, until) {
        Some(Why::Expired)
    } else if commit_with(sight, commit) < floor {
        Some(Why::BelowFloor)
    } else {
        None
    }
}

/// Why the server is asked, where a copy is at hand.
pub fn why_of(
    level: Level,
    sight: Option<Sight>,
    is_whitelisted: bool,
    commit: Commit,
    until: u64,
    floor: Commit,
) -> Option<Why>
    ensures { result ≡ why_of level sight is_whitelisted commit until floor }
{
    match why_before(level, sight, is_whitelisted) {
        Some(why) => Some(why),
        None => why_with(sight, is_whitelisted, commit, until, floor),
    }
}

/// Whether all bits of the key are set in the page.
fn is_held(sight: Option<Sight>) -> bool
    ensures { result ≡ is_held sight }
{
    match sight {
        Some(sight) => sight.is_held,
        None => false,
    }
}

/// Whether the page says that a copy from before its front is not outdated.
fn is_vouched(sight: Option<Sight>, until: u64) -> bool
    ensures { result ≡ is_vouched sight until }
{
    match sight {
        Some(sight) => sight.moment < until && !sight.is_held,
        None => true,
    }
}

/// Whether the copy's time was over at the page's moment.
fn is_expired(sight: Option<Sight>, until: u64) -> bool
    ensures { result ≡ is_expired sight until }
{
    match sight {
        Some(sight) => until <= sight.moment,
        None => false,
    }
}

/// A copy is accepted where there is no cause to ask the server, whatever is whitelisted.
pub fn copies_without_a_cause_are_accepted()
    ensures { (level : ALevel) (sight : Option ASight) (listed : Bool) (commit until floor : ℕ) →
        why_of level sight listed commit until floor ≡ None → IsTrue (is_accepted sight commit until floor) }
{}
