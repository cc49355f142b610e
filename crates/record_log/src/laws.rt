//! Laws of logs, over their definitions alone.
ghost use Rattle.std.specs.Prelude.{◌≡◌, ◌≢◌, ◌+◌, ℕ, List, [], ◌∷◌, ◌++◌, length};
ghost use Rattle.disks.specs.Devices.{MayLeave};
ghost use Rattle.record_log.specs.Frames.{Frame, AllFit, open_gate, closed_gate, front_of, batch_of};
ghost use Rattle.record_log.specs.declared.log_record.LogRecord.{LogRecord as ARecord};
ghost use Rattle.record_log.specs.Images.{StandsFor, IsBeforeOrAfter};
ghost use Rattle.record_log.specs.Opened.{Say};
ghost use Rattle.record_log.specs.Openings.{IsBad};

/// An image stands for no other frames.
pub fn an_image_stands_for_one_list_of_frames()
    ensures { (image : List ℕ) (fs others waiting behind : List Frame) → AllFit fs → AllFit others → StandsFor image fs waiting → StandsFor image others behind → fs ≡ others }
{}

/// Bytes have one list of frames before a gate that is not open.
pub fn bytes_have_one_list_of_frames()
    ensures { (fs others : List Frame) (gate other_gate : ℕ) (behind other_behind : List ℕ) → AllFit fs → AllFit others → gate ≢ open_gate → other_gate ≢ open_gate
        → front_of fs ++ gate ∷ behind ≡ front_of others ++ other_gate ∷ other_behind → (fs ≡ others) × (gate ≡ other_gate) × (behind ≡ other_behind) }
{}

/// Where bytes have the frames of records up to a gate that is not open, no gate before it is missing, and
/// none has no record behind it.
pub fn records_are_not_refused()
    ensures { (fs others : List Frame) (rs records : List ARecord) (rest behind : List ℕ) (gate : ℕ) → Say fs rs → Say others records → gate ≢ open_gate
        → front_of fs ++ rest ≡ front_of others ++ gate ∷ behind → IsBad rest → ⊥ }
{}

/// While the gate of one batch is opened, the next may be written behind the gate at its end: one sync
/// then stores both, and until it does a crash leaves the frames before, or with the first batch.
pub fn one_sync_serves_two_batches()
    ensures { (fs more : List Frame) (text tail seen : List ℕ) (size limit : ℕ) (image : List ℕ) → open_gate ∷ text ≡ batch_of more
        → MayLeave (record { seen = seen; synced = front_of fs ++ closed_gate ∷ (text ++ tail); ranges = record { start = length (front_of fs) + length text + 1; size = size } ∷ record { start = length (front_of fs); size = 1 } ∷ []; limit = limit }) image
        → IsBeforeOrAfter fs more image }
{}
