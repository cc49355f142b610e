//! The commands as clap reads them.
ghost use Rattle.std.specs.Prelude.{◌≡◌, false, IfOk};
ghost use Rattle.clap.specs.Words.{app_of, rule_of, with_rule};
ghost use Rattle.command_line.specs.declared.command_name.CommandName.TheVariants.{Simulate};
ghost use Rattle.command_line.specs.Commands.{app_named, flag_rule, name_of, option_rule, pipe_app, program_app, read_app, serve_app, simulation_app, versioned, with_data_rules, with_limit_rules, with_number_rules, with_setting_rules, with_watch_rules, word_rule};

use crate::command_name::{CommandName, Simulation};
use clap::{Arg, ArgAction, Command};
use std::alloc::{AllocError, Global};

/// The version, of the program and of each command: one that has a version takes `--version`.
const VERSION: &str = "0.1.0";

/// The program where no command is named.
pub(crate) fn program_command<'a>(alloc: Global) -> Result<Command<'a>, AllocError>
    ensures { IfOk result (λ c. app_of c ≡ program_app) }
{
    Command::new(alloc, "quaestor")
        .version(VERSION)
        .no_binary_name(true)
        .override_usage("quaestor COMMAND [OPTIONS]")
        .bin_name("quaestor")
}

/// The command of this name.
pub(crate) fn command_of<'a>(alloc: Global, name: CommandName) -> Result<Command<'a>, AllocError>
    ensures { IfOk result (λ c. app_of c ≡ app_named name) }
{
    match name {
        CommandName::Pipe => pipe_command(alloc),
        CommandName::Serve => serve_command(alloc),
        CommandName::Read => read_command(alloc),
        CommandName::Simulate(which) => simulation_command(alloc, which),
    }
}

/// The command `pipe`.
fn pipe_command<'a>(alloc: Global) -> Result<Command<'a>, AllocError>
    ensures { IfOk result (λ c. app_of c ≡ pipe_app) }
{
    let bare = bare_command(alloc, "pipe", "quaestor pipe")?;
    let config = with_config(alloc, bare)?;
    let clock = with_number(alloc, config, "clock")?;
    let store = with_data(alloc, clock)?;
    Ok(store)
}

/// The command `serve`.
fn serve_command<'a>(alloc: Global) -> Result<Command<'a>, AllocError>
    ensures { IfOk result (λ c. app_of c ≡ serve_app) }
{
    let bare = bare_command(alloc, "serve", "quaestor serve")?;
    let address = with_word(alloc, bare, "ADDR")?;
    let config = with_config(alloc, address)?;
    let places = with_number(alloc, config, "places")?;
    let workers = with_number(alloc, places, "workers")?;
    let matchers = with_number(alloc, workers, "matchers")?;
    let keep = with_number(alloc, matchers, "keep")?;
    let connections = with_number(alloc, keep, "connections")?;
    let limits = with_limits(alloc, connections)?;
    let origins = with_option(alloc, limits, "allow-origin", "ORIGINS")?;
    let watching = with_watching(alloc, origins)?;
    let store = with_data(alloc, watching)?;
    Ok(store)
}

/// The command `read`.
fn read_command<'a>(alloc: Global) -> Result<Command<'a>, AllocError>
    ensures { IfOk result (λ c. app_of c ≡ read_app) }
{
    let bare = bare_command(alloc, "read", "quaestor read")?;
    let address = with_word(alloc, bare, "ADDR")?;
    let level = with_word(alloc, address, "LEVEL")?;
    let key = with_word(alloc, level, "KEY")?;
    Ok(key)
}

/// The command of a simulation.
fn simulation_command<'a>(alloc: Global, which: Simulation) -> Result<Command<'a>, AllocError>
    ensures { IfOk result (λ c. app_of c ≡ simulation_app which) }
{
    let bare = bare_simulation(alloc, which)?;
    let seed = with_word(alloc, bare, "SEED")?;
    let steps = with_word(alloc, seed, "STEPS")?;
    Ok(steps)
}

/// The command with the options of the limits of time.
fn with_limits<'a>(alloc: Global, command: Command<'a>) -> Result<Command<'a>, AllocError>
    ensures { IfOk result (λ c. app_of c ≡ with_limit_rules (app_of command.entry)) }
{
    let idle = with_number(alloc, command, "idle")?;
    let head_time = with_number(alloc, idle, "head-time")?;
    let reply_time = with_number(alloc, head_time, "reply-time")?;
    let least_rate = with_number(alloc, reply_time, "least-rate")?;
    let grace = with_number(alloc, least_rate, "grace")?;
    Ok(grace)
}

/// The command with the options of who watches the server.
fn with_watching<'a>(alloc: Global, command: Command<'a>) -> Result<Command<'a>, AllocError>
    ensures { IfOk result (λ c. app_of c ≡ with_watch_rules (app_of command.entry)) }
{
    let metrics = with_option(alloc, command, "metrics", "ADDRESS")?;
    let log = with_option(alloc, metrics, "log", "FILE")?;
    let json = with_flag(alloc, log, "log-json")?;
    Ok(json)
}

/// The command with the options of a file that keeps the store.
fn with_data<'a>(alloc: Global, command: Command<'a>) -> Result<Command<'a>, AllocError>
    ensures { IfOk result (λ c. app_of c ≡ with_data_rules (app_of command.entry)) }
{
    let store = with_option(alloc, command, "data", "FILE")?;
    let sync = with_option(alloc, store, "sync", "WHEN")?;
    Ok(sync)
}

/// The command with the options of a configuration.
fn with_config<'a>(alloc: Global, command: Command<'a>) -> Result<Command<'a>, AllocError>
    ensures { IfOk result (λ c. app_of c ≡ with_setting_rules (app_of command.entry)) }
{
    let numbers = with_numbers(alloc, command)?;
    let absent = with_number(alloc, numbers, "ttl-absent")?;
    let shared = with_number(alloc, absent, "ttl-shared")?;
    let hosts = with_option(alloc, shared, "host", "NAMES")?;
    Ok(hosts)
}

/// The command with the options of the numbers that every configuration has.
fn with_numbers<'a>(alloc: Global, command: Command<'a>) -> Result<Command<'a>, AllocError>
    ensures { IfOk result (λ c. app_of c ≡ with_number_rules (app_of command.entry)) }
{
    let bits = with_number(alloc, command, "bits")?;
    let hashes = with_number(alloc, bits, "hashes")?;
    let low = with_number(alloc, hashes, "ttl-low")?;
    let high = with_number(alloc, low, "ttl-high")?;
    let active = with_number(alloc, high, "active")?;
    let bytes = with_number(alloc, active, "bytes")?;
    Ok(bytes)
}

/// The command with one more option, which has a number.
fn with_number<'a>(
    alloc: Global,
    command: Command<'a>,
    name: &'a str,
) -> Result<Command<'a>, AllocError>
    ensures { IfOk result (λ c. app_of c ≡ with_rule (app_of command.entry) (option_rule name.entry.now)) }
{
    with_option(alloc, command, name, "N")
}

/// The command with one more option, which has a value that is shown so.
fn with_option<'a>(
    alloc: Global,
    command: Command<'a>,
    name: &'a str,
    value: &'a str,
) -> Result<Command<'a>, AllocError>
    ensures { IfOk result (λ c. app_of c ≡ with_rule (app_of command.entry) (option_rule name.entry.now)) }
{
    command.arg(option_argument(alloc, name, value))
}

/// The command with one more option, which has no value.
fn with_flag<'a>(
    alloc: Global,
    command: Command<'a>,
    name: &'a str,
) -> Result<Command<'a>, AllocError>
    ensures { IfOk result (λ c. app_of c ≡ with_rule (app_of command.entry) (flag_rule name.entry.now)) }
{
    command.arg(flag_argument(alloc, name))
}

/// The command with one more word, which it needs.
fn with_word<'a>(
    alloc: Global,
    command: Command<'a>,
    name: &'a str,
) -> Result<Command<'a>, AllocError>
    ensures { IfOk result (λ c. app_of c ≡ with_rule (app_of command.entry) (word_rule name.entry.now)) }
{
    command.arg(word_argument(alloc, name))
}

/// The command of a simulation without its words.
fn bare_simulation<'a>(alloc: Global, which: Simulation) -> Result<Command<'a>, AllocError>
    ensures { IfOk result (λ c. app_of c ≡ versioned (name_of (Simulate which))) }
{
    match which {
        Simulation::World => bare_command(alloc, "world", "quaestor world"),
        Simulation::Crash => bare_command(alloc, "crash", "quaestor crash"),
    }
}

/// A command of this name, which is shown so, without its options and words.
fn bare_command<'a>(alloc: Global, name: &'a str, shown: &'a str) -> Result<Command<'a>, AllocError>
    ensures { IfOk result (λ c. app_of c ≡ versioned name.entry.now) }
{
    Command::new(alloc, name)
        .version(VERSION)
        .bin_name(shown)?
        .display_name("quaestor")
}

/// A word that a command needs.
fn word_argument<'a>(alloc: Global, name: &'a str) -> Arg<'a>
    ensures rule { rule_of result ≡ word_rule name.entry.now }
    ensures local { result.global ≡ false }
{
    Arg::new(alloc, name)
        .action(ArgAction::Set)
        .value_name(name)
        .required(true)
}

/// An option with a value that is shown so.
fn option_argument<'a>(alloc: Global, name: &'a str, value: &'a str) -> Arg<'a>
    ensures rule { rule_of result ≡ option_rule name.entry.now }
    ensures local { result.global ≡ false }
{
    Arg::new(alloc, name)
        .long(name)
        .action(ArgAction::Set)
        .value_name(value)
}

/// An option without a value.
fn flag_argument<'a>(alloc: Global, name: &'a str) -> Arg<'a>
    ensures rule { rule_of result ≡ flag_rule name.entry.now }
    ensures local { result.global ≡ false }
{
    Arg::new(alloc, name).long(name).action(ArgAction::SetTrue)
}
