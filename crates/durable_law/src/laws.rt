//! Stores on one disk follow each other. Each function states one law, and does nothing.
ghost use Rattle.std.specs.Prelude.{◌≡◌, ◌≤◌, ◌++◌, ℕ, List, [], Some};
ghost use Rattle.commit_book.specs.declared.change.Change.{Change as AChange};
ghost use Rattle.disks.specs.Devices.{MayLeave};
ghost use Rattle.disks.specs.Histories.{History, device_of};
ghost use Rattle.durable_book.specs.Across.{Follows};
ghost use Rattle.durable_book.specs.Images.{IsBefore, IsInRead, IsInWrite};
ghost use Rattle.durable_book.specs.Journals.{costs_of, journal_of, last_kept, last_moment};
ghost use Rattle.durable_book.specs.KeptHub.{KeptView, StandsFor};
ghost use Rattle.durable_book.specs.Moments.{guard_of};
ghost use Rattle.durable_book.specs.Opened.{IsFoundIn};
ghost use Rattle.durable_book.specs.Replay.{opening_of};
ghost use Rattle.durable_law.specs.Left.{GoesOn};
ghost use Rattle.durable_law.specs.Outlasts.{Outlasts};
ghost use Rattle.hub_model.specs.declared.entry.Entry.{Entry as AnEntry};
ghost use Rattle.hub_model.specs.Desk.{IsPrefix};
ghost use Rattle.hub_model.specs.Setting.{Setting};
ghost use Rattle.hub_model.specs.Step.{state_of};
ghost use Rattle.record_log.specs.declared.log_record.LogRecord.{LogRecord as ARecord};
ghost use Rattle.record_log.specs.Logs.{LogView};
ghost use Rattle.record_log.specs.Opened.{HasOpened};

use durable_book::laws::{an_image_stands_for_one_journal, openings_have_their_journal};
use hub_model::laws::more_entries;
use record_log::laws::bytes_have_one_list_of_frames;

/// A store that is opened by records within its capacity follows an earlier one, where the records go on
/// from the journal of that one and have no earlier kept moment, and its guard outlasts those copies.
pub fn later_stores_follow()
    ensures { (k : KeptView) (later_g : Setting) (history more : List AnEntry) (records : List ARecord) (moment : ℕ) →
        StandsFor k history
        → IsPrefix (state_of k.hub.setting history).journal (journal_of records) → k.kept ≤ last_kept records
        → costs_of (journal_of records) ≤ later_g.capacity → Outlasts k later_g
        → Follows k.hub.setting later_g history (opening_of later_g records moment ++ more) (guard_of later_g (last_moment records)) }
{
    more_entries();
    openings_have_their_journal();
}

/// What a crash leaves of the disk of a store between two calls is opened as a store that follows it.
pub fn stores_behind_a_crash_follow()
    ensures { (k : KeptView) (later_g : Setting) (history more : List AnEntry) (records : List ARecord) (moment : ℕ)
        (h : History) (image : List ℕ) (log : LogView) →
        StandsFor k history
        → k.log.history ≡ Some h → MayLeave (device_of h) image → HasOpened (Some (record { start = image; calls = [] })) log records
        → costs_of (journal_of records) ≤ later_g.capacity → Outlasts k later_g
        → Follows k.hub.setting later_g history (opening_of later_g records moment ++ more) (guard_of later_g (last_moment records)) }
{
    later_stores_follow();
    an_image_stands_for_one_journal();
    bytes_have_one_list_of_frames();
}

/// So is what a crash leaves at any moment of a write, and of a read: it follows the store as it was
/// before the call.
pub fn stores_behind_a_call_follow()
    ensures write { (k : KeptView) (later_g : Setting) (history more : List AnEntry) (records : List ARecord) (moment : ℕ)
        (capacity : ℕ) (change : AChange) (image : List ℕ) (log : LogView) →
        StandsFor k history
        → IsInWrite capacity (state_of k.hub.setting history).journal k.kept change image
        → HasOpened (Some (record { start = image; calls = [] })) log records
        → costs_of (journal_of records) ≤ later_g.capacity → Outlasts k later_g
        → Follows k.hub.setting later_g history (opening_of later_g records moment ++ more) (guard_of later_g (last_moment records)) }
    ensures read { (k : KeptView) (later_g : Setting) (history more : List AnEntry) (records : List ARecord) (moment : ℕ)
        (image : List ℕ) (log : LogView) →
        StandsFor k history
        → IsInRead (state_of k.hub.setting history).journal k.kept image
        → HasOpened (Some (record { start = image; calls = [] })) log records
        → costs_of (journal_of records) ≤ later_g.capacity → Outlasts k later_g
        → Follows k.hub.setting later_g history (opening_of later_g records moment ++ more) (guard_of later_g (last_moment records)) }
{
    later_stores_follow();
    an_image_stands_for_one_journal();
    bytes_have_one_list_of_frames();
}

/// What a crash leaves of a store goes on from its journal: what it leaves between two calls, and at any
/// moment of a write and of a read; and what it leaves at any moment of an opening of such an image, however
/// often that comes.
pub fn what_a_crash_leaves_goes_on()
    ensures still { (journal : List AChange) (kept : ℕ) (image : List ℕ) → IsBefore journal kept image → GoesOn journal kept image }
    ensures write { (capacity kept : ℕ) (journal : List AChange) (change : AChange) (image : List ℕ) → IsInWrite capacity journal kept change image → GoesOn journal kept image }
    ensures read { (journal : List AChange) (kept : ℕ) (image : List ℕ) → IsInRead journal kept image → GoesOn journal kept image }
    ensures opening { (journal : List AChange) (kept : ℕ) (seen image : List ℕ) → GoesOn journal kept seen → IsFoundIn seen image → GoesOn journal kept image }
{}

/// So a store that is opened follows the earlier one also where openings between the two were cut off.
pub fn stores_behind_openings_follow()
    ensures { (k : KeptView) (later_g : Setting) (history more : List AnEntry) (records : List ARecord) (moment : ℕ)
        (image : List ℕ) (log : LogView) →
        StandsFor k history
        → GoesOn (state_of k.hub.setting history).journal k.kept image
        → HasOpened (Some (record { start = image; calls = [] })) log records
        → costs_of (journal_of records) ≤ later_g.capacity → Outlasts k later_g
        → Follows k.hub.setting later_g history (opening_of later_g records moment ++ more) (guard_of later_g (last_moment records)) }
{
    later_stores_follow();
    an_image_stands_for_one_journal();
    bytes_have_one_list_of_frames();
}
