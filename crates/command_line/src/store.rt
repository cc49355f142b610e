//! The file of a store, by a command line.
ghost use Rattle.std.specs.Prelude.{IfErr, IfNone, IfOk, IfSome};
ghost use Rattle.clap.specs.Words.{found_of, rows_of};
ghost use Rattle.command_line.specs.Data.{AreData, DataAsk, IsSyncText, asked_data};
ghost use Rattle.command_line.specs.Words.{IsBadValue};
ghost use Rattle.disks.specs.declared.sync_policy.SyncPolicy.{SyncPolicy as APolicy};

use crate::numbers::number_within;
use crate::ranges::MOST_MILLIS;
use crate::refusal::BadValue;
use crate::words::value_of;
use clap::ArgMatches;
use disks::SyncPolicy;

/// The file that keeps a store, and what a sync of it waits for.
#[derive(Clone, Copy, Debug, PartialEq, Eq)]
pub struct Data<'a> {
    /// The name of the file.
    pub file: &'a str,
    /// What a sync waits for.
    pub sync: SyncPolicy,
}

/// The file of a store, where one is given. What a sync waits for is not given without one.
pub(crate) fn data_of<'a>(matches: &ArgMatches<'a>) -> Result<Option<Data<'a>>, BadValue<'a>>
    ensures ok { IfOk result (λ d. AreData (rows_of (found_of matches.now)) (asked_data d)) }
    ensures err { IfErr result (λ _. (d : DataAsk) → AreData (rows_of (found_of matches.now)) d → ⊥) }
    ensures value { IfErr result (IsBadValue (rows_of (found_of matches.now))) }
{
    let file = value_of(matches, "data");
    let sync = value_of(matches, "sync");
    match (file, sync) {
        (None, None) => Ok(None),
        (None, Some(_)) => Err(BadValue::NoData),
        (Some(file), None) => Ok(Some(Data {
            file,
            sync: SyncPolicy::Always,
        })),
        (Some(file), Some(found)) => match sync_of(found) {
            Some(sync) => Ok(Some(Data { file, sync })),
            None => Err(BadValue::NoSync { found }),
        },
    }
}

/// What a sync waits for, by its text: `always`, or `batch` and a number of milliseconds.
fn sync_of(text: &str) -> Option<SyncPolicy>
    ensures some { IfSome result (IsSyncText text.now) }
    ensures none { IfNone result ((s : APolicy) → IsSyncText text.now s → ⊥) }
{
    if text == "always" {
        return Some(SyncPolicy::Always);
    }
    let millis = text.strip_prefix("batch ")?;
    match number_within(millis, 1, MOST_MILLIS) {
        Some(millis) => Some(SyncPolicy::Batch { millis }),
        None => None,
    }
}
