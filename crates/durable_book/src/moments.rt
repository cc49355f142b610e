//! The kept moment: no read is answered at its clock or later before a later one is stored.
//!
//! A store that is opened again does not know the copies that it issued before. It knows the kept moment,
//! which is above the clocks of all reads, so no copy issued before is unexpired at the kept moment and the
//! longest lifetime together: this is the guard. Until the clock has reached it, pages have every bit set.
ghost use Rattle.std.specs.Prelude.{◌≡◌, min, ◌+◌, ◌≤◌, ◌^◌, option_map};
ghost use Rattle.durable_book.specs.Moments.{guard_at, guard_of, moment_to_keep};
ghost use Rattle.record_log.specs.Records.{greatest_clock};

use hub_core::Config;
use q_base::Moment;

/// For how many seconds a moment is kept ahead of the clock of the read that needs it.
pub const KEPT_AHEAD: u64 = 60;

/// The moment that is to be stored before a read at a clock is answered, where the kept one is too early.
pub fn moment_to_keep(clock: Moment, kept: u64) -> Option<u64>
    ensures { result ≡ moment_to_keep clock kept }
{
    let seconds = clock.seconds();
    if seconds < kept {
        None
    } else {
        Some(seconds + KEPT_AHEAD)
    }
}

/// The clock from which on no copy is unexpired that was issued before the last kept moment, where there is
/// one: it comes later by the longest lifetime of a copy.
pub fn guard_of(config: &Config, last: Option<u64>) -> u64
    ensures { result ≡ guard_of config.now last }
{
    match last {
        Some(moment) => {
            let longest = config.kept_for(config.ttl_high());
            moment.saturating_add(longest as u64)
        }
        None => 0,
    }
}
