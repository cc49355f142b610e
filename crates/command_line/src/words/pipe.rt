//! The words of the command `pipe`.
ghost use Rattle.std.specs.Prelude.{◌≡◌, ℕ, [], Option, IfOk, IfErr, codes};
ghost use Rattle.clap.specs.Words.{first_of, found_of, rows_of};
ghost use Rattle.command_line.specs.declared.command_name.CommandName.TheVariants as name;
ghost use Rattle.command_line.specs.Words.{ArePipeOptions, IsBadValue, IsClock, IsFound, IsPipeOf, PipeAsk, piped_with};

use crate::numbers::read_number;
use crate::options::{Invocation, PipeOptions};
use crate::refusal::{BadValue, Refusal};
use crate::store::data_of;
use crate::words::setting::{kept_config, setting_of, with_hosts};
use crate::words::value_of;
use clap::ArgMatches;
use q_base::Memory;
use std::alloc::Global;

/// What the options of `pipe` ask for, by what clap found.
pub(crate) fn pipe_found<'a>(
    alloc: Global,
    matches: &ArgMatches<'a>,
) -> Result<Invocation<'a>, Memory>
    ensures { IfOk result (IsFound name.Pipe (rows_of (found_of matches.now))) }
{
    match pipe_options(matches) {
        Ok((options, hosts)) => pipe_with(alloc, options, hosts),
        Err(value) => Ok(Invocation::Invalid(Refusal::Value(value))),
    }
}

/// To serve one connection by these options, with these hosts in their configuration.
fn pipe_with<'a>(
    alloc: Global,
    options: PipeOptions<'a>,
    hosts: &str,
) -> Result<Invocation<'a>, Memory>
    requires { options.config.hosts ≡ [] }
    ensures { IfOk result (IsPipeOf (piped_with options.entry hosts.now)) }
{
    let clock = options.clock;
    let store = options.store;
    let config = with_hosts(alloc, options.config, hosts)?;
    Ok(Invocation::Pipe(PipeOptions {
        config,
        store,
        clock,
    }))
}

/// The options of `pipe` and its hosts, by what clap found.
fn pipe_options<'a>(matches: &ArgMatches<'a>) -> Result<(PipeOptions<'a>, &'a str), BadValue<'a>>
    ensures ok { IfOk result (λ p. ArePipeOptions (rows_of (found_of matches.now)) (piped_with p.0 p.1.now)) }
    ensures none { IfOk result (λ p. p.0.config.hosts ≡ []) }
    ensures err { IfErr result (λ _. (ask : PipeAsk) → ArePipeOptions (rows_of (found_of matches.now)) ask → ⊥) }
    ensures value { IfErr result (IsBadValue (rows_of (found_of matches.now))) }
{
    let setting = setting_of(matches)?;
    let clock = clock_of(matches)?;
    let store = data_of(matches)?;
    let options = PipeOptions {
        config: kept_config(setting.0, store),
        store,
        clock,
    };
    Ok((options, setting.1))
}

/// The moment that the option `--clock` shows.
fn clock_of<'a>(matches: &ArgMatches<'a>) -> Result<Option<u64>, BadValue<'a>>
    ensures ok { IfOk result (IsClock (first_of (codes "clock") (rows_of (found_of matches.now)))) }
    ensures err { IfErr result (λ _. (at : Option ℕ) → IsClock (first_of (codes "clock") (rows_of (found_of matches.now))) at → ⊥) }
    ensures value { IfErr result (IsBadValue (rows_of (found_of matches.now))) }
{
    match value_of(matches, "clock") {
        Some(found) => match read_number(found) {
            Some(at) => Ok(Some(at)),
            None => Err(BadValue::Number {
                option: "clock",
                found,
                least: 0,
                most: u64::MAX,
            }),
        },
        None => Ok(None),
    }
}
