//! What records say of a store.
ghost use Rattle.std.specs.Prelude.{◌≡◌, ◌-◌, ◌^◌, min};
ghost use Rattle.durable_book.specs.Journals.{changes_of, costs_of, journal_of, last_moment, moment_behind};

use record_log::LogRecord;

/// What the commits among records take of a capacity, in bytes. The greatest number of 64 bits stands for
/// any that is greater.
pub(crate) fn costs_of(records: &[LogRecord]) -> u64
    ensures { result ≡ min (costs_of (journal_of records.now)) (2 ^ 64 - 1) }
{
    let mut sum = 0u64;
    for said in records {
        sum = sum.saturating_add(cost_of(said));
    }
    sum
}

/// What a record takes of a capacity, in bytes: a moment takes nothing.
fn cost_of(said: &LogRecord) -> u64
    ensures { result ≡ costs_of (changes_of said.now) }
{
    match said {
        LogRecord::Commit { change, .. } => change.cost(),
        LogRecord::Moment { .. } => 0,
    }
}

/// The clock of the last moment among records, where there is one.
pub(crate) fn last_moment(records: &[LogRecord]) -> Option<u64>
    ensures { result ≡ last_moment records.now }
{
    let mut last = None;
    for said in records {
        last = moment_behind(last, said);
    }
    last
}

/// The last kept moment behind a record, by the one before it.
fn moment_behind(last: Option<u64>, said: &LogRecord) -> Option<u64>
    ensures { result ≡ moment_behind last said.now }
{
    match said {
        LogRecord::Commit { .. } => last,
        LogRecord::Moment { clock } => Some(*clock),
    }
}
