//! The configuration of a store, by the options of `pipe` and `serve`.
ghost use Rattle.std.specs.Prelude.{◌≡◌, ◌||◌, ℕ, ◌≤◌, false, [], is_some, IfOk, IfErr, codes};
ghost use Rattle.clap.specs.Words.{first_of, found_of, rows_of};
ghost use Rattle.hub_model.specs.Setting.{Setting};
ghost use Rattle.command_line.specs.declared.ranges.TheConstants.{MOST_LIFETIME};
ghost use Rattle.command_line.specs.Words.{IsBadValue, IsConfiguration, IsLifetime, IsRange, IsSetting};

use crate::names::hosts_of;
use crate::numbers::number_within;
use crate::ranges::MOST_LIFETIME;
use crate::refusal::BadValue;
use crate::store::Data;
use crate::words::{number_of, value_of};
use clap::ArgMatches;
use hub_core::Config;
use q_base::{Memory, SharedText};
use std::alloc::Global;

/// The configuration that the options ask for, without its names, and the hosts that it is to name.
pub(crate) fn setting_of<'a>(matches: &ArgMatches<'a>) -> Result<(Config, &'a str), BadValue<'a>>
    ensures ok { IfOk result (λ s. IsSetting (rows_of (found_of matches.now)) (record s.0 { hosts = s.1.now; keeps = is_some (first_of (codes "data") (rows_of (found_of matches.now))) })) }
    ensures keeps { IfOk result (λ s. s.0.keeps ≡ false) }
    ensures origins { IfOk result (λ s. s.0.origins ≡ []) }
    ensures hosts { IfOk result (λ s. s.0.hosts ≡ []) }
    ensures err { IfErr result (λ _. (g : Setting) → IsSetting (rows_of (found_of matches.now)) g → ⊥) }
    ensures value { IfErr result (IsBadValue (rows_of (found_of matches.now))) }
{
    let config = config_of(matches)?;
    let absent = lifetime_of(matches, "ttl-absent")?;
    let shared = lifetime_of(matches, "ttl-shared")?;
    let hosts = hosts_of(matches)?;
    let lasting = with_lifetimes(config, absent, shared);
    Ok((lasting, hosts))
}

/// The configuration with these lifetimes of absent records and in shared caches.
fn with_lifetimes(config: Config, absent: u32, shared: u32) -> Config
    requires absent { absent ≤ MOST_LIFETIME }
    requires shared { shared ≤ MOST_LIFETIME }
    ensures { result ≡ record config { ttl_absent = absent; ttl_shared = shared } }
{
    match config.with_ttls(absent, shared) {
        Ok(lasting) => lasting,
        Err(_) => unreachable!(),
    }
}

/// The lifetime that an option shows, in seconds; 0 where none is given.
fn lifetime_of<'a>(matches: &ArgMatches<'a>, option: &'static str) -> Result<u32, BadValue<'a>>
    requires { IsRange option.now 1 MOST_LIFETIME }
    ensures ok { IfOk result (IsLifetime (first_of option.now (rows_of (found_of matches.now)))) }
    ensures most { IfOk result (λ n. n ≤ MOST_LIFETIME) }
    ensures err { IfErr result (λ _. (n : ℕ) → IsLifetime (first_of option.now (rows_of (found_of matches.now))) n → ⊥) }
    ensures value { IfErr result (IsBadValue (rows_of (found_of matches.now))) }
{
    match value_of(matches, option) {
        Some(found) => match number_within(found, 1, MOST_LIFETIME) {
            Some(number) => Ok(number as u32),
            None => Err(BadValue::Number {
                option,
                found,
                least: 1,
                most: MOST_LIFETIME,
            }),
        },
        None => Ok(0),
    }
}

/// The numbers that every configuration has, as the options ask for them, and else its defaults.
fn config_of<'a>(matches: &ArgMatches<'a>) -> Result<Config, BadValue<'a>>
    ensures ok { IfOk result (IsConfiguration (rows_of (found_of matches.now))) }
    ensures keeps { IfOk result (λ g. g.keeps ≡ false) }
    ensures guard { IfOk result (λ g. g.guard ≡ 0) }
    ensures origins { IfOk result (λ g. g.origins ≡ []) }
    ensures hosts { IfOk result (λ g. g.hosts ≡ []) }
    ensures err { IfErr result (λ _. (g : Setting) → IsConfiguration (rows_of (found_of matches.now)) g → ⊥) }
    ensures value { IfErr result (IsBadValue (rows_of (found_of matches.now))) }
{
    let log2_bits = number_of(matches, "bits", 10, 22, 17)?;
    let hashes = number_of(matches, "hashes", 1, 16, 6)?;
    let low = number_of(matches, "ttl-low", 1, 31_536_000, 1)?;
    let high = number_of(matches, "ttl-high", 1, 31_536_000, 3_600)?;
    let active = number_of(matches, "active", 0, 1_000_000, 10_000)?;
    let bytes = number_of(matches, "bytes", 65_792, 134_217_728, 134_217_728)?;
    if low > high {
        return Err(BadValue::Lifetimes { low, high });
    }
    let config = Config::new(
        log2_bits as u8,
        hashes as u8,
        low as u32,
        high as u32,
        active as u32,
        bytes,
    );
    match config {
        Ok(config) => Ok(config),
        Err(_) => unreachable!(),
    }
}

/// The configuration of a store that this file keeps, where there is one.
pub(crate) fn kept_config(config: Config, store: Option<Data<'_>>) -> Config
    ensures { result ≡ record config { keeps = config.keeps || is_some store.entry } }
{
    match store {
        Some(_) => {
            let guard = config.guard();
            config.kept(guard)
        }
        None => config,
    }
}

/// The configuration with these hosts, which names none.
pub(crate) fn with_hosts(alloc: Global, config: Config, hosts: &str) -> Result<Config, Memory>
    requires { config.hosts ≡ [] }
    ensures { IfOk result (λ c. c ≡ record config { hosts = hosts.now }) }
{
    if hosts.is_empty() {
        return Ok(config);
    }
    let text = SharedText::of(alloc, hosts.as_bytes().to_vec(alloc)?)?;
    Ok(config.with_hosts(text))
}
