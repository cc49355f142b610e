//! Laws of the history of a shared log, over their definitions alone.
ghost use Rattle.std.specs.Prelude.{◌≡◌, ◌≤◌, ◌∷◌, ◌++◌, ℕ, List, Some};
ghost use mathlib.Core.List.{IsPrefix};
ghost use Rattle.disks.specs.Devices.{MayLeave};
ghost use Rattle.disks.specs.Histories.{History, device_of};
ghost use Rattle.disks.specs.Moments.{Leaves};
ghost use Rattle.record_log.specs.Frames.{Frame};
ghost use Rattle.record_log.specs.Images.{IsLog};
ghost use Rattle.record_log.specs.Logs.{LogView};
ghost use Rattle.shared_log.specs.LogValues.{LogValueView, StandsFor};
ghost use Rattle.shared_log.specs.Notes.{LogNote, Opened, Stored, HasFirst, IsQueuedAs, KeepsStored, queued, stored, commits_stored, moment_stored};

/// What a history says was queued, and is stored, is so in each history that it begins.
pub fn further_entries_take_nothing_back()
    ensures queued { (o : Opened) (notes later : List LogNote) (commit : ℕ) (f : Frame) → IsPrefix notes later → IsQueuedAs o notes commit f → IsQueuedAs o later commit f }
    ensures commits { (o : Opened) (notes later : List LogNote) → IsPrefix notes later → commits_stored o notes ≤ commits_stored o later }
    ensures moment { (o : Opened) (notes later : List LogNote) → IsPrefix notes later → moment_stored o notes ≤ moment_stored o later }
{}

/// A crash leaves the frames of the opening and, in order, the first of those that were queued: now at least
/// as many as were said to be stored, and at any moment since an entry at least as many as that said. So it
/// is too where the disk has failed.
pub fn what_is_stored_outlives_a_crash()
    ensures now { (v : LogValueView) (notes : List LogNote) (log : LogView) (h : History) (fs : List Frame) (image : List ℕ)
        → StandsFor v notes → v.log ≡ Some log → log.history ≡ Some h → IsLog v.opened.log.history v.opened.log.gate fs → MayLeave (device_of h) image → HasFirst fs (queued notes) (stored notes) image }
    ensures since { (v : LogValueView) (notes before later : List LogNote) (count : ℕ) (shown log : LogView) (fs : List Frame)
        → StandsFor v notes → v.log ≡ Some log → IsLog v.opened.log.history v.opened.log.gate fs → notes ≡ before ++ Stored count shown ∷ later → Leaves shown.history log.history (HasFirst fs (queued notes) count) }
    ensures opening { (v : LogValueView) (notes : List LogNote) (log : LogView) (fs : List Frame)
        → StandsFor v notes → v.log ≡ Some log → IsLog v.opened.log.history v.opened.log.gate fs → Leaves v.opened.log.history log.history (HasFirst fs (queued notes) 0) }
{}

/// Where at least what was said to be stored is left, each commit that is stored is there under its number,
/// and a moment that is no earlier than the one that is kept.
pub fn stored_commits_have_their_numbers()
    ensures { (o : Opened) (notes : List LogNote) (fs : List Frame) (image : List ℕ) → HasFirst fs (queued notes) (stored notes) image → KeepsStored o notes fs image }
{}
