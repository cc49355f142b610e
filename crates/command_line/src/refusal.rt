//! Why no command takes the words.

use crate::ranges::MOST_MILLIS;
use clap::Error;
use std::fmt;

/// Why no command takes the words of a command line.
#[derive(Debug, Drop)]
pub enum Refusal<'a> {
    /// There is no word.
    NoCommand,
    /// A word is no option of the command, an option has no value or is given twice, or a word that the
    /// command needs is missing.
    Words(Error),
    /// The value of an option is refused.
    Value(BadValue<'a>),
}

/// The value of an option or of a word that is refused.
#[derive(Clone, Copy, Debug, PartialEq, Eq)]
pub enum BadValue<'a> {
    /// It is no decimal number, without a sign and without leading zeros, from the least to the greatest.
    Number {
        option: &'static str,
        found: &'a str,
        least: u64,
        most: u64,
    },
    /// The least lifetime is above the greatest.
    Lifetimes {
        low: u64,
        high: u64,
    },
    /// A word is no such number.
    Argument {
        word: &'static str,
        found: &'a str,
        least: u64,
        most: u64,
    },
    /// It is no level of a session.
    NoLevel {
        found: &'a str,
    },
    /// It is no text of a key.
    NoKey {
        found: &'a str,
        /// Where the text has all parts of a query's key, the offset of its first byte that is not as in
        /// that key's text; else 0.
        place: usize,
    },
    /// It is not `*`, and not origins of web pages with one space between two.
    NoOrigins {
        found: &'a str,
    },
    /// It is not names of hosts with one space between two.
    NoHosts {
        found: &'a str,
    },
    /// The form of a log is given, and no log.
    NoLog,
    /// It is not `always`, and not `batch` with a number of milliseconds.
    NoSync {
        found: &'a str,
    },
    /// What a sync waits for is given, and no file.
    NoData,
}

impl fmt::Display for BadValue<'_> {
    fn fmt<W: fmt::Write>(&self, f: &mut fmt::Formatter<W>) -> fmt::Result {
        match self {
            BadValue::Number {
                option,
                found,
                least,
                most,
            } => write!(
                f,
                "--{option} is a decimal number from {least} to {most}, not '{found}'"
            ),
            BadValue::Lifetimes { low, high } => {
                write!(f, "--ttl-low, {low}, is above --ttl-high, {high}")
            }
            BadValue::Argument {
                word,
                found,
                least,
                most,
            } => write!(
                f,
                "{word} is a decimal number from {least} to {most}, not '{found}'"
            ),
            BadValue::NoLevel { found } => {
                write!(f, "LEVEL is session, causal or strong, not '{found}'")
            }
            BadValue::NoKey { found, place } => write!(
                f,
                "KEY is r/COLLECTION/ID, or q/COLLECTION/KIND/f=FILTER;o=ORDER;s=SKIP;n=TAKE of a query in its normal form, and '{found}' is not from its byte {place} on"
            ),
            BadValue::NoOrigins { found } => write!(
                f,
                "--allow-origin is *, or origins such as https://example.com with a space between two, without a path or a slash at the end, not '{found}'"
            ),
            BadValue::NoHosts { found } => write!(
                f,
                "--host is names such as example.com or example.com:8080, of at most 255 bytes each, with a space between two, not '{found}'"
            ),
            BadValue::NoLog => write!(f, "--log-json is given without --log"),
            BadValue::NoSync { found } => write!(
                f,
                "--sync is always, or batch and a number of milliseconds from 1 to {MOST_MILLIS} as in 'batch 5', not '{found}'"
            ),
            BadValue::NoData => write!(f, "--sync is given without --data"),
        }
    }
}

impl fmt::Display for Refusal<'_> {
    fn fmt<W: fmt::Write>(&self, f: &mut fmt::Formatter<W>) -> fmt::Result {
        match self {
            Refusal::NoCommand => write!(f, "error: no command\n"),
            Refusal::Words(error) => write!(f, "{error}"),
            Refusal::Value(value) => write!(f, "error: {value}\n"),
        }
    }
}
