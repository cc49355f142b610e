//! The words of the command `read`.
ghost use Rattle.std.specs.Prelude.{◌≡◌, true, is_some, IfSome, IfNone, IfOk, codes};
ghost use Rattle.clap.specs.Words.{first_of, found_of, rows_of};
ghost use Rattle.client_core.specs.declared.level.Level.{Level as ALevel};
ghost use Rattle.command_line.specs.declared.command_name.CommandName.TheVariants as name;
ghost use Rattle.command_line.specs.Words.{IsFound, level_word};

use crate::options::{Invocation, ReadOptions};
use crate::refusal::{BadValue, Refusal};
use crate::words::word_of;
use clap::ArgMatches;
use client_core::Level;
use q_base::Memory;
use query_lang::{KeyRefusal, read_key};
use std::alloc::Global;

/// What the words of `read` ask for, by what clap found.
pub(crate) fn read_found<'a>(
    alloc: Global,
    matches: &ArgMatches<'a>,
) -> Result<Invocation<'a>, Memory>
    requires address { is_some (first_of (codes "ADDR") (rows_of (found_of matches.now))) ≡ true }
    requires level { is_some (first_of (codes "LEVEL") (rows_of (found_of matches.now))) ≡ true }
    requires key { is_some (first_of (codes "KEY") (rows_of (found_of matches.now))) ≡ true }
    ensures { IfOk result (IsFound name.Read (rows_of (found_of matches.now))) }
{
    let address = word_of(matches, "ADDR");
    let written = word_of(matches, "LEVEL");
    let found = word_of(matches, "KEY");
    match level_of(written) {
        Some(level) => match read_key(alloc, found.as_bytes()) {
            Ok(key) => {
                // contracts learn from its text that it is a key
                let _text = key.text();
                Ok(Invocation::Read(ReadOptions {
                    address,
                    level,
                    key,
                }))
            }
            Err(KeyRefusal::BadKey { place }) => {
                Ok(Invocation::Invalid(Refusal::Value(BadValue::NoKey { found, place })))
            }
            Err(KeyRefusal::Memory) => Err(Memory),
        },
        None => Ok(Invocation::Invalid(Refusal::Value(BadValue::NoLevel { found: written }))),
    }
}

/// The level that a text shows.
fn level_of(text: &str) -> Option<Level>
    ensures some { IfSome result (λ l. text.now ≡ level_word l) }
    ensures none { IfNone result ((l : ALevel) → text.now ≡ level_word l → ⊥) }
{
    match text {
        "session" => Some(Level::Session),
        "causal" => Some(Level::Causal),
        "strong" => Some(Level::Strong),
        _ => None,
    }
}
