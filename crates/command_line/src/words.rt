//! The words of a command line.
ghost use Rattle.std.specs.Prelude.{◌≡◌, ℕ, ◌≤◌, true, Some, is_some, option_map, map, string_bytes, IfOk, IfErr, IfNone, IfSome};
ghost use Rattle.clap.specs.Words.{first_of, found_of, kind_of, rows_of};
ghost use Rattle.command_line.specs.Commands.{IsNamed, NamesNone};
ghost use Rattle.command_line.specs.Words.{AreGiven, AreTaken, Asks, IsArgument, IsArgumentRange, IsNumberIn, IsAnswerOf, IsBadValue, IsFound, IsRange, IsReason};

use crate::command_name::CommandName;
use crate::commands::{command_of, program_command};
use crate::help::HelpText;
use crate::numbers::number_within;
use crate::options::Invocation;
use crate::refusal::{BadValue, Refusal};
use crate::words::pipe::pipe_found;
use crate::words::read::read_found;
use crate::words::serve::serve_found;
use crate::words::simulation::simulation_found;
use clap::error::ErrorKind;
use clap::{ArgMatches, Error};
use q_base::Memory;
use std::alloc::Global;

mod pipe;
mod read;
mod serve;
mod setting;
mod simulation;

/// What the words ask for.
pub fn read_words<'a>(alloc: Global, words: &'a [String]) -> Result<Invocation<'a>, Memory>
    ensures { IfOk result (Asks (map string_bytes words.entry.now)) }
{
    match named_by(words) {
        Some(command) => read_command(alloc, command, words),
        None => read_program(alloc, words),
    }
}

/// Why no command takes the words, for a message. None where one takes them.
pub fn refusal_of<'a>(alloc: Global, words: &'a [String]) -> Result<Option<Refusal<'a>>, Memory>
    ensures some { IfOk result (λ o. IfSome o (λ _. AreTaken (map string_bytes words.entry.now) → ⊥)) }
    ensures none { IfOk result (λ o. IfNone o (AreTaken (map string_bytes words.entry.now))) }
    ensures reason { IfOk result (λ o. IfSome o (IsReason (map string_bytes words.entry.now))) }
{
    match read_words(alloc, words)? {
        Invocation::Invalid(refusal) => Ok(Some(refusal)),
        Invocation::Pipe(_) => Ok(None),
        Invocation::Serve(_) => Ok(None),
        Invocation::Read(_) => Ok(None),
        Invocation::Simulate(_) => Ok(None),
        Invocation::Help(_) => Ok(None),
    }
}

/// The command that the first word names.
fn named_by(words: &[String]) -> Option<CommandName>
    ensures some { IfSome result (λ c. IsNamed c (map string_bytes words.now)) }
    ensures none { IfNone result (NamesNone (map string_bytes words.now)) }
{
    match words.first() {
        Some(first) => CommandName::of(first.as_str()),
        None => None,
    }
}

/// What the words ask for, which name this command.
fn read_command<'a>(
    alloc: Global,
    command: CommandName,
    words: &'a [String],
) -> Result<Invocation<'a>, Memory>
    requires { IsNamed command (map string_bytes words.now) }
    ensures { IfOk result (Asks (map string_bytes words.entry.now)) }
{
    match command_of(alloc, command)?.try_get_matches_from(words) {
        Ok(matches) => asked_by(alloc, command, &matches),
        Err(error) => answer_of(error, HelpText::of(command)),
    }
}

/// What the words of a command ask for, by what clap found.
fn asked_by<'a>(
    alloc: Global,
    command: CommandName,
    matches: &ArgMatches<'a>,
) -> Result<Invocation<'a>, Memory>
    requires { AreGiven command (rows_of (found_of matches.now)) }
    ensures { IfOk result (IsFound command (rows_of (found_of matches.now))) }
{
    match command {
        CommandName::Pipe => pipe_found(alloc, matches),
        CommandName::Serve => serve_found(alloc, matches),
        CommandName::Read => read_found(alloc, matches),
        CommandName::Simulate(which) => Ok(simulation_found(which, matches)),
    }
}

/// What the words ask for, where they name no command.
fn read_program<'a>(alloc: Global, words: &'a [String]) -> Result<Invocation<'a>, Memory>
    requires { NamesNone (map string_bytes words.now) }
    ensures { IfOk result (Asks (map string_bytes words.entry.now)) }
{
    match program_command(alloc)?.try_get_matches_from(words) {
        Ok(_) => Ok(Invocation::Invalid(Refusal::NoCommand)),
        Err(error) => answer_of(error, HelpText::Program),
    }
}

/// What clap's answer comes to where it gives no matches, for a command of which this is the help.
fn answer_of<'a>(error: Error, help: HelpText) -> Result<Invocation<'a>, Memory>
    ensures { IsAnswerOf help (kind_of error) result }
{
    match error.kind() {
        ErrorKind::OutOfMemory => Err(Memory),
        ErrorKind::DisplayHelp => Ok(Invocation::Help(help)),
        ErrorKind::DisplayVersion => Ok(Invocation::Help(HelpText::Version)),
        _ => Ok(Invocation::Invalid(Refusal::Words(error))),
    }
}

/// The number of a word.
pub(crate) fn argument_of<'a>(
    matches: &ArgMatches<'a>,
    word: &'static str,
    least: u64,
    most: u64,
) -> Result<u64, BadValue<'a>>
    requires given { is_some (first_of word.now (rows_of (found_of matches.now))) ≡ true }
    requires range { IsArgumentRange word.now least most }
    ensures ok { IfOk result (IsArgument (rows_of (found_of matches.now)) word.now least most) }
    ensures err { IfErr result (λ _. (n : ℕ) → IsArgument (rows_of (found_of matches.now)) word.now least most n → ⊥) }
    ensures value { IfErr result (IsBadValue (rows_of (found_of matches.now))) }
{
    let found = word_of(matches, word);
    match number_within(found, least, most) {
        Some(number) => Ok(number),
        None => Err(BadValue::Argument {
            word,
            found,
            least,
            most,
        }),
    }
}

/// The number of an option, or its default where it is not given.
pub(crate) fn number_of<'a>(
    matches: &ArgMatches<'a>,
    option: &'static str,
    least: u64,
    most: u64,
    default: u64,
) -> Result<u64, BadValue<'a>>
    requires default { (least ≤ default) × (default ≤ most) }
    requires range { IsRange option.now least most }
    ensures ok { IfOk result (IsNumberIn (rows_of (found_of matches.now)) option.now least most default) }
    ensures err { IfErr result (λ _. (n : ℕ) → IsNumberIn (rows_of (found_of matches.now)) option.now least most default n → ⊥) }
    ensures value { IfErr result (IsBadValue (rows_of (found_of matches.now))) }
{
    match value_of(matches, option) {
        Some(found) => match number_within(found, least, most) {
            Some(number) => Ok(number),
            None => Err(BadValue::Number {
                option,
                found,
                least,
                most,
            }),
        },
        None => Ok(default),
    }
}

/// The text that an option was given.
pub(crate) fn value_of<'a>(matches: &ArgMatches<'a>, option: &str) -> Option<&'a str>
    ensures { option_map (λ s. s.now) result ≡ first_of option.now (rows_of (found_of matches.now)) }
{
    matches.get_str(option)
}

/// The text of a word that clap has found.
pub(crate) fn word_of<'a>(matches: &ArgMatches<'a>, word: &str) -> &'a str
    requires { is_some (first_of word.now (rows_of (found_of matches.now))) ≡ true }
    ensures { first_of word.now (rows_of (found_of matches.now)) ≡ Some result.now }
{
    match value_of(matches, word) {
        Some(found) => found,
        None => unreachable!(),
    }
}
