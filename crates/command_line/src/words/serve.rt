//! The words of the command `serve`.
ghost use Rattle.std.specs.Prelude.{◌≡◌, ℕ, true, [], Some, is_some, IfOk, IfErr, codes};
ghost use Rattle.clap.specs.Words.{first_of, found_of, rows_of};
ghost use Rattle.command_line.specs.declared.command_name.CommandName.TheVariants as name;
ghost use Rattle.q_outside.specs.declared.limits.Limits.{Limits as LimitsOf};
ghost use Rattle.command_line.specs.Words.{AreLimits, AreServeOptions, IsCount, IsFound, ServeAsk, asked_with, IsBadValue, IsServeOf, setting_with};

use crate::names::origins_of;
use crate::numbers::number_within;
use crate::options::{Invocation, Names, ServeOptions};
use crate::ranges::{
    DEFAULT_GRACE, DEFAULT_HEAD_TIME, DEFAULT_IDLE, DEFAULT_MATCHERS, DEFAULT_PLACES, DEFAULT_RATE,
    DEFAULT_REPLY_TIME, DEFAULT_WORKERS, MOST_CONNECTIONS, MOST_MATCHERS, MOST_PLACES, MOST_RATE,
    MOST_SECONDS, MOST_WORKERS,
};
use crate::refusal::{BadValue, Refusal};
use crate::store::data_of;
use crate::trim::trim_of;
use crate::watching::watching_of;
use crate::words::setting::{kept_config, setting_of, with_hosts};
use crate::words::{number_of, value_of, word_of};
use clap::ArgMatches;
use hub_core::Config;
use q_base::{Memory, SharedText};
use q_outside::Limits;
use std::alloc::Global;

/// What the words of `serve` ask for, by what clap found.
pub(crate) fn serve_found<'a>(
    alloc: Global,
    matches: &ArgMatches<'a>,
) -> Result<Invocation<'a>, Memory>
    requires { is_some (first_of (codes "ADDR") (rows_of (found_of matches.now))) ≡ true }
    ensures { IfOk result (IsFound name.Serve (rows_of (found_of matches.now))) }
{
    match serve_options(matches) {
        Ok((options, names)) => serve_with(alloc, options, names),
        Err(value) => Ok(Invocation::Invalid(Refusal::Value(value))),
    }
}

/// To serve by these options, with these names in their configuration.
fn serve_with<'a>(
    alloc: Global,
    options: ServeOptions<'a>,
    names: Names<'_>,
) -> Result<Invocation<'a>, Memory>
    requires origins { options.config.origins ≡ [] }
    requires hosts { options.config.hosts ≡ [] }
    ensures { IfOk result (IsServeOf (asked_with options.entry names.entry)) }
{
    Ok(Invocation::Serve(ServeOptions {
        config: with_names(alloc, options.config, names)?,
        ..options
    }))
}

/// The configuration with these names, which has none.
fn with_names(alloc: Global, config: Config, names: Names<'_>) -> Result<Config, Memory>
    requires origins { config.origins ≡ [] }
    requires hosts { config.hosts ≡ [] }
    ensures { IfOk result (λ c. c ≡ setting_with config names.entry) }
{
    let bound = with_hosts(alloc, config, names.hosts)?;
    with_origins(alloc, bound, names.origins)
}

/// The configuration with these origins of web pages, which names none.
fn with_origins(alloc: Global, config: Config, origins: &str) -> Result<Config, Memory>
    requires { config.origins ≡ [] }
    ensures { IfOk result (λ c. c ≡ record config { origins = origins.now }) }
{
    if origins.is_empty() {
        return Ok(config);
    }
    let text = SharedText::of(alloc, origins.as_bytes().to_vec(alloc)?)?;
    Ok(config.with_origins(text))
}

/// The address and the options of `serve` and its names, by what clap found.
fn serve_options<'a>(
    matches: &ArgMatches<'a>,
) -> Result<(ServeOptions<'a>, Names<'a>), BadValue<'a>>
    requires { is_some (first_of (codes "ADDR") (rows_of (found_of matches.now))) ≡ true }
    ensures ok { IfOk result (λ s. AreServeOptions (rows_of (found_of matches.now)) (asked_with s.0 s.1)) }
    ensures origins { IfOk result (λ s. s.0.config.origins ≡ []) }
    ensures hosts { IfOk result (λ s. s.0.config.hosts ≡ []) }
    ensures err { IfErr result (λ _. (ask : ServeAsk) → AreServeOptions (rows_of (found_of matches.now)) ask → ⊥) }
    ensures value { IfErr result (IsBadValue (rows_of (found_of matches.now))) }
{
    options_at(matches, word_of(matches, "ADDR"))
}

/// The options of `serve` at this address, and its names.
fn options_at<'a>(
    matches: &ArgMatches<'a>,
    address: &'a str,
) -> Result<(ServeOptions<'a>, Names<'a>), BadValue<'a>>
    requires { first_of (codes "ADDR") (rows_of (found_of matches.now)) ≡ Some address.now }
    ensures ok { IfOk result (λ s. AreServeOptions (rows_of (found_of matches.now)) (asked_with s.0 s.1)) }
    ensures origins { IfOk result (λ s. s.0.config.origins ≡ []) }
    ensures hosts { IfOk result (λ s. s.0.config.hosts ≡ []) }
    ensures err { IfErr result (λ _. (ask : ServeAsk) → AreServeOptions (rows_of (found_of matches.now)) ask → ⊥) }
    ensures value { IfErr result (IsBadValue (rows_of (found_of matches.now))) }
{
    let setting = setting_of(matches)?;
    let places = number_of(matches, "places", 1, MOST_PLACES, DEFAULT_PLACES)?;
    let workers = number_of(matches, "workers", 1, MOST_WORKERS, DEFAULT_WORKERS)?;
    let matchers = number_of(matches, "matchers", 1, MOST_MATCHERS, DEFAULT_MATCHERS)?;
    let trim = trim_of(matches)?;
    let connections = connections_of(matches)?;
    let limits = limits_of(matches)?;
    let origins = origins_of(matches)?;
    let watching = watching_of(matches)?;
    let store = data_of(matches)?;
    let options = ServeOptions {
        address,
        config: kept_config(setting.0, store),
        store,
        places: places as u32,
        workers: workers as u32,
        matchers: matchers as u32,
        trim,
        connections,
        limits,
        watching,
    };
    let names = Names {
        origins,
        hosts: setting.1,
    };
    Ok((options, names))
}

/// The limits of time that the options ask for.
fn limits_of<'a>(matches: &ArgMatches<'a>) -> Result<Limits, BadValue<'a>>
    ensures ok { IfOk result (AreLimits (rows_of (found_of matches.now))) }
    ensures err { IfErr result (λ _. (l : LimitsOf) → AreLimits (rows_of (found_of matches.now)) l → ⊥) }
    ensures value { IfErr result (IsBadValue (rows_of (found_of matches.now))) }
{
    let idle = number_of(matches, "idle", 0, MOST_SECONDS, DEFAULT_IDLE)?;
    let head_time = number_of(matches, "head-time", 1, MOST_SECONDS, DEFAULT_HEAD_TIME)?;
    let reply_time = number_of(matches, "reply-time", 1, MOST_SECONDS, DEFAULT_REPLY_TIME)?;
    let least_rate = number_of(matches, "least-rate", 1, MOST_RATE, DEFAULT_RATE)?;
    let grace = number_of(matches, "grace", 0, MOST_SECONDS, DEFAULT_GRACE)?;
    Ok(Limits {
        idle: idle as u32,
        head_time: head_time as u32,
        reply_time: reply_time as u32,
        least_rate: least_rate as u32,
        grace: grace as u32,
    })
}

/// The number of connections after which the server ends; the greatest number where none is given.
fn connections_of<'a>(matches: &ArgMatches<'a>) -> Result<u64, BadValue<'a>>
    ensures ok { IfOk result (IsCount (first_of (codes "connections") (rows_of (found_of matches.now)))) }
    ensures err { IfErr result (λ _. (n : ℕ) → IsCount (first_of (codes "connections") (rows_of (found_of matches.now))) n → ⊥) }
    ensures value { IfErr result (IsBadValue (rows_of (found_of matches.now))) }
{
    match value_of(matches, "connections") {
        Some(found) => match number_within(found, 1, MOST_CONNECTIONS) {
            Some(number) => Ok(number),
            None => Err(BadValue::Number {
                option: "connections",
                found,
                least: 1,
                most: MOST_CONNECTIONS,
            }),
        },
        None => Ok(u64::MAX),
    }
}
