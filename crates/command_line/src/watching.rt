//! Who watches a server, by its command line.
ghost use Rattle.std.specs.Prelude.{◌≡◌, ◌↔◌, true, None, option_map, IfErr, IfOk, IsTrue};
ghost use Rattle.clap.specs.Words.{first_of, found_of, rows_of};
ghost use Rattle.command_line.specs.Watching.{WatchAsk, watch_of};
ghost use Rattle.command_line.specs.Words.{AreWatching, IsBadValue, is_given};

use crate::refusal::BadValue;
use crate::words::value_of;
use clap::ArgMatches;

/// Who watches a server.
#[derive(Clone, Copy, Debug, PartialEq, Eq)]
pub struct Watching<'a> {
    /// The address at which its figures are asked for.
    pub metrics: Option<&'a str>,
    /// The file that gets a line for each request; `-` is standard error.
    pub log: Option<&'a str>,
    /// Whether these lines are JSON.
    pub json: bool,
}

/// Where the figures of a server are asked for, where its requests are logged, and in which form. The form
/// of a log is not given without one.
pub(crate) fn watching_of<'a>(matches: &ArgMatches<'a>) -> Result<Watching<'a>, BadValue<'a>>
    ensures ok { IfOk result (λ w. AreWatching (rows_of (found_of matches.now)) (watch_of w)) }
    ensures err { IfErr result (λ _. (w : WatchAsk) → AreWatching (rows_of (found_of matches.now)) w → ⊥) }
    ensures value { IfErr result (IsBadValue (rows_of (found_of matches.now))) }
{
    let metrics = value_of(matches, "metrics");
    let log = value_of(matches, "log");
    let json = is_given(matches, "log-json");
    if is_alone(json, log) {
        Err(BadValue::NoLog)
    } else {
        Ok(Watching { metrics, log, json })
    }
}

/// Whether the form of a log is given, and no log.
fn is_alone(json: bool, log: Option<&str>) -> bool
    ensures { IsTrue result ↔ ((json ≡ true) × (option_map (λ s. s.now) log.entry ≡ None)) }
{
    json && log.is_none()
}

/// Whether an option without a value is given.
fn is_given(matches: &ArgMatches<'_>, option: &str) -> bool
    ensures { result ≡ is_given (first_of option.now (rows_of (found_of matches.now))) }
{
    match value_of(matches, option) {
        Some(found) => found == "true",
        None => false,
    }
}
