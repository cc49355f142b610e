//! Up to where the command line has old changes dropped.
ghost use Rattle.std.specs.Prelude.{codes, IfErr, IfOk};
ghost use Rattle.clap.specs.Words.{first_of, found_of, rows_of};
ghost use Rattle.hub_desk.specs.declared.trim.Trim.{Trim as ATrim};
ghost use Rattle.command_line.specs.Words.{IsBadValue, IsTrim};

use crate::numbers::number_within;
use crate::ranges::MOST_KEPT;
use crate::refusal::BadValue;
use crate::words::value_of;
use clap::ArgMatches;
use hub_desk::Trim;

/// Up to where old changes are dropped: to the commits that are to be kept, or, where no number is given,
/// so that the store does not fill.
pub(crate) fn trim_of<'a>(matches: &ArgMatches<'a>) -> Result<Trim, BadValue<'a>>
    ensures ok { IfOk result (IsTrim (first_of (codes "keep") (rows_of (found_of matches.now)))) }
    ensures err { IfErr result (λ _. (trim : ATrim) → IsTrim (first_of (codes "keep") (rows_of (found_of matches.now))) trim → ⊥) }
    ensures value { IfErr result (IsBadValue (rows_of (found_of matches.now))) }
{
    match value_of(matches, "keep") {
        Some(found) => match number_within(found, 0, MOST_KEPT) {
            Some(commits) => Ok(Trim::Below { commits }),
            None => Err(BadValue::Number {
                option: "keep",
                found,
                least: 0,
                most: MOST_KEPT,
            }),
        },
        None => Ok(Trim::Full),
    }
}
