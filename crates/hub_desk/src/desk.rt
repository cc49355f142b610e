//! The store as a connection sees it: calls that make entries of one history.
ghost use Rattle.std.specs.Prelude.{◌≡◌, ◌⊎◌, ℕ, ◌≤◌, Bool, true, List, length, IfOk, IfSome, OnOk, OnErr};
ghost use Rattle.hub_core.specs.PageRoom.{IsRoomFor};
ghost use Rattle.hub_model.specs.declared.entry.Entry.{Entry as AnEntry};
ghost use Rattle.hub_model.specs.declared.entry.Entry.TheVariants.{Write, Read, Purges, Tick};
ghost use Rattle.hub_model.specs.Desk.{Makes, Learns};
ghost use Rattle.hub_model.specs.Reply.{wrote, read, purged, counted, told_of};
ghost use Rattle.hub_model.specs.Setting.{Setting};
ghost use Rattle.hub_model.specs.Step.{is_accepted, state_of};
ghost use Rattle.hub_desk.specs.Desk.{MatchesAll, DropsOld, Fetches, IsBehind};
ghost use Rattle.hub_desk.specs.Figures.{AreFiguresOf};

use crate::figures::Figures;
use crate::trim::Trim;
use hub_core::PageRoom;
use hub_model::{Answer, Change, Condition, Dropped, Matched, PurgeReply, Stats, Tags, Written};
use q_base::{Commit, Memory, Moment};
use query_normal::Key;

/// What a desk has seen cannot be kept: a disk failed, or a commit found no memory for its record. The
/// entries that were made stay made, and no later call does better.
#[derive(Clone, Copy, Debug, PartialEq, Eq)]
pub struct Unkept;

/// What a connection asks of the store. A desk knows a history, which others may make longer, and
/// its own entries with their places there. A call that answers Memory makes no entry, and
/// may be made again.
pub trait Desk {
    /// What the desk is tied to. It holds whatever else would show entries that the desk made:
    /// places of its own that `mine` leaves out, places at which it was split from another desk,
    /// and lists of others that were joined to its own. A desk that kept one of these elsewhere
    /// could make an entry that is not among `mine`, and answer Memory.
    type Anchor;

    /// What the desk is tied to, which no call changes.
    ghost anchor: { Self → Self.Anchor };

    /// The configuration of the desk's hub, which no call changes.
    ghost setting: { Self → Setting };

    /// The history that the desk knows.
    ghost seen: { Self → List AnEntry };

    /// Its own entries, each with its place, counted from 0.
    ghost mine: { Self → List (ℕ × AnEntry) };

    /// The next request's entries need no memory.
    ghost is_ready: { Self → Type 0 };

    /// There may be no memory for the entries of a request, whatever it asks: so at a desk that stores
    /// its entries, and not at one whose entries need none.
    ghost may_be_unready: { Bool };

    /// No crash takes back a commit of the history that the desk knows. So a desk that is to keep
    /// commits says; one that keeps none says nothing.
    ghost is_kept: { Self → Type 0 };

    /// Reserves memory for the entries of one request: its own, and what comes ahead of it.
    fn ready(&mut self) -> Result<(), Memory>
        ensures ready { OnOk result (is_ready self.new) }
        ensures unready { OnErr result (may_be_unready ≡ true) }
        ensures none { Learns (setting self.old) (seen self.old) (seen self.new) (mine self.old) (mine self.new) }
        ensures anchor { anchor self.new ≡ anchor self.old }
        ensures setting { setting self.new ≡ setting self.old };

    /// Writes: one entry, behind those that have to come ahead of it. It answers Memory only for a
    /// write that would be accepted: a refusal needs no memory. A desk that is to keep commits needs some
    /// for each write.
    fn write(
        &mut self,
        moment: Moment,
        change: Change,
        condition: Condition,
    ) -> Result<Written, Memory>
        requires { is_ready self.old }
        ensures made { IfOk result (λ w. Makes (setting self.old) (seen self.old) (seen self.new) (mine self.old) (mine self.new) (Write moment change condition) (wrote w)) }
        ensures memory { OnErr result (Learns (setting self.old) (seen self.old) (seen self.new) (mine self.old) (mine self.new)) }
        ensures accepted { OnErr result (((setting self.old).keeps ≡ true) ⊎ (is_accepted (setting self.old) (state_of (setting self.old) (seen self.new)) change condition ≡ true)) }
        ensures again { OnErr result (is_ready self.new) }
        ensures anchor { anchor self.new ≡ anchor self.old }
        ensures setting { setting self.new ≡ setting self.old };

    /// Reads at a commit that is not below those known before: one entry.
    fn read(&mut self, moment: Moment, key: Key, tags: Tags) -> Result<Answer, Memory>
        requires { is_ready self.old }
        ensures made { IfOk result (λ a. Makes (setting self.old) (seen self.old) (seen self.new) (mine self.old) (mine self.new) (Read moment key tags a.commit) (read a)) }
        ensures fresh { IfOk result (λ a. length (state_of (setting self.old) (seen self.old)).journal ≤ a.commit) }
        ensures memory { OnErr result (Learns (setting self.old) (seen self.old) (seen self.new) (mine self.old) (mine self.new)) }
        ensures again { OnErr result (is_ready self.new) }
        ensures anchor { anchor self.new ≡ anchor self.old }
        ensures setting { setting self.new ≡ setting self.old };

    /// Matches all commits against the issued copies: one entry, which is a tick
    /// where the front is the last commit already. It answers Memory only where it is not: a tick
    /// needs no memory.
    fn match_all(&mut self, moment: Moment) -> Result<Matched, Memory>
        requires { is_ready self.old }
        ensures made { IfOk result (λ m. MatchesAll (setting self.old) (seen self.old) (seen self.new) (mine self.old) (mine self.new) moment m) }
        ensures memory { OnErr result (Learns (setting self.old) (seen self.old) (seen self.new) (mine self.old) (mine self.new)) }
        ensures behind { OnErr result (IsBehind (state_of (setting self.old) (seen self.new))) }
        ensures again { OnErr result (is_ready self.new) }
        ensures anchor { anchor self.new ≡ anchor self.old }
        ensures setting { setting self.new ≡ setting self.old };

    /// Drops old changes: one entry, which is a tick where the horizon is there already. It takes no
    /// memory.
    fn drop_old(&mut self, moment: Moment, trim: Trim) -> Dropped
        requires { is_ready self.old }
        ensures made { DropsOld (setting self.old) (seen self.old) (seen self.new) (mine self.old) (mine self.new) moment trim result }
        ensures anchor { anchor self.new ≡ anchor self.old }
        ensures setting { setting self.new ≡ setting self.old };

    /// Writes the page of the outdated keys into the buffer: one entry. It takes no memory.
    fn fetch(&mut self, moment: Moment, room: &mut PageRoom)
        requires ready { is_ready self.old }
        requires room { IsRoomFor (setting self.old) room.old }
        ensures made { Fetches (setting self.old) (seen self.old) (seen self.new) (mine self.old) (mine self.new) moment room.new }
        ensures room { IsRoomFor (setting self.old) room.new }
        ensures anchor { anchor self.new ≡ anchor self.old }
        ensures setting { setting self.new ≡ setting self.old };

    /// Tells the purged keys from a number on: one entry.
    fn purges(&mut self, moment: Moment, from: u64) -> Result<PurgeReply, Memory>
        requires { is_ready self.old }
        ensures made { IfOk result (λ p. Makes (setting self.old) (seen self.old) (seen self.new) (mine self.old) (mine self.new) (Purges moment from) (purged (told_of p))) }
        ensures memory { OnErr result (Learns (setting self.old) (seen self.old) (seen self.new) (mine self.old) (mine self.new)) }
        ensures again { OnErr result (is_ready self.new) }
        ensures anchor { anchor self.new ≡ anchor self.old }
        ensures setting { setting self.new ≡ setting self.old };

    /// Lets time pass: one entry. It takes no memory.
    fn tick(&mut self, moment: Moment) -> Stats
        requires { is_ready self.old }
        ensures made { Makes (setting self.old) (seen self.old) (seen self.new) (mine self.old) (mine self.new) (Tick moment) (counted result) }
        ensures anchor { anchor self.new ≡ anchor self.old }
        ensures setting { setting self.new ≡ setting self.old };

    /// The number of commits of the history that the desk knows. A desk may not know it before its first
    /// call, nor behind one that answered Memory.
    fn commits(&self) -> Option<Commit>
        ensures { IfSome result (λ n. n ≡ length (state_of (setting self.now) (seen self.now)).journal) };

    /// Waits until all commits that the desk has seen are kept, where they are to be. What a call answered
    /// is shown to nobody before this call is done. It makes no entry, and sees none.
    fn keep(&mut self) -> Result<(), Unkept>
        ensures kept { OnOk result (is_kept self.new) }
        ensures unkept { OnErr result ((setting self.old).keeps ≡ true) }
        ensures seen { seen self.new ≡ seen self.old }
        ensures mine { mine self.new ≡ mine self.old }
        ensures anchor { anchor self.new ≡ anchor self.old }
        ensures setting { setting self.new ≡ setting self.old };

    /// The figures of the store, as the history is that the desk knows then. It makes no entry, and takes
    /// no memory.
    fn figures(&mut self) -> Figures
        ensures figures { AreFiguresOf (setting self.old) (state_of (setting self.old) (seen self.new)) result }
        ensures none { Learns (setting self.old) (seen self.old) (seen self.new) (mine self.old) (mine self.new) }
        ensures anchor { anchor self.new ≡ anchor self.old }
        ensures setting { setting self.new ≡ setting self.old };
}
