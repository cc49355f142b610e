//! Laws of stores on a disk, over their definitions alone. Each function states one, and does nothing.
ghost use Rattle.std.specs.Prelude.{◌≡◌, ◌⊎◌, ◌≤◌, ℕ, max, List, [], Some, IsTrue, length};
ghost use Rattle.client_core.specs.Choice.{is_accepted};
ghost use Rattle.client_model.specs.declared.reply.Reply.{Reply as AReply};
ghost use Rattle.client_model.specs.Issued.{Has, IsFetched, IsIssued};
ghost use Rattle.commit_book.specs.declared.change.Change.{Change as AChange};
ghost use Rattle.disks.specs.Histories.{DiskView, History, device_of};
ghost use Rattle.durable_book.specs.declared.refusal.OpenRefusal.{OpenRefusal as ARefusal};
ghost use Rattle.durable_book.specs.Across.{Follows};
ghost use Rattle.durable_book.specs.Images.{IsImageOf, IsInRead, IsInWrite, IsSoundImage};
ghost use Rattle.durable_book.specs.Journals.{costs_of, journal_of};
ghost use Rattle.durable_book.specs.Moments.{guarded};
ghost use Rattle.durable_book.specs.Opened.{IsChance, IsFoundIn, IsSoundDisk, RefusesStore};
ghost use Rattle.durable_book.specs.Replay.{opened_state, opening_of};
ghost use Rattle.flat_snapshot.specs.Sight.{sight_of};
ghost use Rattle.hub_model.specs.declared.entry.Entry.{Entry as AnEntry};
ghost use Rattle.hub_model.specs.Journal.{result_at};
ghost use Rattle.hub_model.specs.Legal.{IsLegal};
ghost use Rattle.hub_model.specs.Setting.{Setting};
ghost use Rattle.hub_model.specs.Step.{state_of};
ghost use Rattle.query_normal.specs.declared.key.KeyShape.{KeyShape};
ghost use Rattle.query_normal.specs.Keys.{key_text};
ghost use Rattle.query_normal.specs.Pages.{Page as APage};
ghost use Rattle.record_log.specs.declared.log_record.LogRecord.{LogRecord as ARecord};
ghost use Rattle.record_log.specs.Openings.{IsStart};
ghost use Rattle.record_log.specs.Opened.{IsRepair};

use hub_model::laws::{
    beginnings_are_legal, copies_are_of_reads, front_is_within, helped_writes_may_follow,
    longer_histories_are_later, more_entries, no_entry_is_legal, one_entry_more, result_of_prefix,
};
use record_log::laws::{bytes_have_one_list_of_frames, records_are_not_refused};

/// What a store issued is right in a later store on the same disk, whose journal goes on from its own.
pub fn replies_are_right_across_openings()
    ensures { (g later_g : Setting) (history later : List AnEntry) (guard : ℕ) (key : KeyShape) (reply : AReply) →
        IsLegal g history → IsLegal later_g later → Follows g later_g history later guard
        → IsIssued g history key reply
        → Has (result_at key (state_of later_g later).journal reply.commit) reply }
{
    beginnings_are_legal();
    copies_are_of_reads();
    longer_histories_are_later();
    one_entry_more();
    result_of_prefix();
}

/// A reply of a store that is accepted by a page of a later one is fresh there: below the guard the page
/// has every bit set, and from the guard on the reply is expired.
pub fn earlier_replies_are_fresh()
    ensures { (g later_g : Setting) (history later : List AnEntry) (guard : ℕ) (page : APage) (key : KeyShape) (reply : AReply) →
        IsLegal g history → IsLegal later_g later → Follows g later_g history later guard
        → IsFetched later_g later page → IsIssued g history key reply
        → IsTrue (is_accepted (Some (sight_of (guarded guard page) (key_text key))) reply.commit reply.until 0)
        → result_at key (state_of later_g later).journal reply.commit ≡ result_at key (state_of later_g later).journal (max reply.commit page.front) }
{}

/// A reply of a later store is fresh by any page of an earlier one: it is of no commit below that front.
pub fn later_replies_are_fresh()
    ensures { (g later_g : Setting) (history later : List AnEntry) (guard : ℕ) (page : APage) (key : KeyShape) (reply : AReply) →
        IsLegal g history → IsLegal later_g later → Follows g later_g history later guard
        → IsFetched g history page → IsIssued later_g later key reply
        → result_at key (state_of later_g later).journal reply.commit ≡ result_at key (state_of later_g later).journal (max reply.commit page.front) }
{
    beginnings_are_legal();
    front_is_within();
    longer_histories_are_later();
}

/// An image stands for one journal, with one last kept moment.
pub fn an_image_stands_for_one_journal()
    ensures { (image : List ℕ) (journal other : List AChange) (kept last : ℕ) (waiting behind : List ARecord) → IsImageOf image journal kept waiting → IsImageOf image other last behind → (journal ≡ other) × (kept ≡ last) }
{
    bytes_have_one_list_of_frames();
}

/// The history of an opening by records within the capacity is legal, and has their journal; all of it is
/// matched, nothing was read, and nothing is dropped.
pub fn openings_have_their_journal()
    ensures state { (g : Setting) (records : List ARecord) (moment : ℕ) → state_of g (opening_of g records moment) ≡ opened_state g records moment }
    ensures legal { (g : Setting) (records : List ARecord) (moment : ℕ) → IsLegal g (opening_of g records moment) }
    ensures journal { (g : Setting) (records : List ARecord) (moment : ℕ) → costs_of (journal_of records) ≤ g.capacity → (opened_state g records moment).journal ≡ journal_of records }
    ensures matched { (g : Setting) (records : List ARecord) (moment : ℕ) → (opened_state g records moment).front ≡ length (opened_state g records moment).journal }
    ensures unread { (g : Setting) (records : List ARecord) (moment : ℕ) → (opened_state g records moment).copies ≡ [] }
    ensures whole { (g : Setting) (records : List ARecord) (moment : ℕ) → (opened_state g records moment).horizon ≡ 0 }
{
    front_is_within();
    helped_writes_may_follow();
    more_entries();
    no_entry_is_legal();
}

/// What a crash leaves of a log that is opened, behind its first sync, stands for the journal that was found,
/// with what waited there waiting, in it or gone.
pub fn openings_leave_what_was_found()
    ensures { (h : History) (image : List ℕ) → (IsStart h image ⊎ IsRepair h image) → IsFoundIn (device_of h).seen image }
{
    bytes_have_one_list_of_frames();
}

/// A sound disk is opened but for chance: want of memory, or a fault of the disk.
pub fn sound_disks_are_opened()
    ensures { (g : Setting) (before after : DiskView) (refusal : ARefusal) → IsSoundDisk g.capacity before.history → RefusesStore g before after refusal → IsChance refusal }
{
    bytes_have_one_list_of_frames();
    records_are_not_refused();
}

/// What a crash leaves of a write and of a read is sound, and so is what it leaves of an opening of what was.
pub fn what_calls_leave_is_sound()
    ensures write { (capacity kept : ℕ) (journal : List AChange) (change : AChange) (image : List ℕ) → IsInWrite capacity journal kept change image → IsSoundImage image }
    ensures read { (kept : ℕ) (journal : List AChange) (image : List ℕ) → IsInRead journal kept image → IsSoundImage image }
    ensures opening { (seen image : List ℕ) → IsSoundImage seen → IsFoundIn seen image → IsSoundImage image }
{}
