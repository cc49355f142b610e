//! Which copies a session takes: lines whose answers come from an independent model of the rules.

use client_core::{FloorRow, Floors, Level, Why, commit_with, is_accepted, why_of};
use flat_snapshot::{KeyMark, Sight};
use std::str::Split;
use std::test::Fail;

/// A line: the level, what the page says of the key, whether the key is whitelisted; five numbers, which are
/// the greatest commits of the session's writes, of its reads of all keys and of its reads of the key, the
/// copy's commit and its last second; why the server is asked, and else the commit of the answer.
pub(crate) type Line = (Level, Option<Sight>, bool, [u64; 5], Option<Why>, u64);

/// The lines: level, the page's front and moment and whether the key's bits are set, whether the key is
/// whitelisted, the five numbers, the cause, the commit.
pub(crate) const LINES: &str = "session - - - - 1 4 0 5 4 none 5
session 2 2 clear - 5 0 0 0 0 expired 0
strong 5 3 clear - 3 4 1 0 0 strong 0
causal 1 0 clear - 4 5 4 3 3 below_floor 0
strong 2 1 clear - 4 0 0 1 1 strong 0
strong - - - - 4 4 4 0 4 strong 0
session 5 0 clear - 1 4 3 3 0 expired 0
session 3 1 clear - 3 4 3 7 3 none 7
session 4 3 clear - 2 3 0 1 3 expired 0
strong - - - - 2 2 0 7 1 strong 0
strong 4 3 set - 3 4 1 5 0 strong 0
session 5 0 clear - 0 4 3 5 0 none 5
session - - - - 2 1 0 2 0 none 2
session 1 3 set - 4 4 1 5 3 flagged 0
session 2 0 clear - 2 3 3 2 4 below_floor 0
session 1 0 clear - 4 5 4 7 3 none 7
strong 5 2 set - 5 5 3 0 0 strong 0
strong 0 2 clear - 0 5 4 0 1 strong 0
session 5 3 clear - 2 0 0 0 4 none 5
strong - - - - 2 2 2 2 3 strong 0
strong 0 0 clear - 0 0 0 2 3 strong 0
session 1 0 set listed 1 2 2 7 1 none 7
session 3 3 set - 4 3 3 4 3 flagged 0
strong 4 1 set listed 5 1 1 0 3 strong 0
session 0 0 set listed 0 1 0 3 2 none 3
session 5 0 set listed 3 3 1 4 1 older 0
session - - - - 0 4 0 6 2 none 6
session 5 3 clear - 5 3 3 0 0 expired 0
causal 0 3 clear - 5 1 0 7 0 none 7
session - - - - 4 3 3 7 3 none 7
session 4 2 clear - 3 1 1 2 4 none 4
causal 3 1 clear - 5 0 0 1 1 expired 0
strong 5 2 set - 4 5 0 2 1 strong 0
session 2 2 clear - 1 0 0 2 1 none 2
causal 2 1 set - 0 5 4 2 1 flagged 0
causal - - - - 0 2 0 1 3 below_floor 0
session 3 1 set - 4 4 2 4 2 flagged 0
strong 5 3 clear - 5 3 1 2 3 strong 0
session 2 3 clear - 3 5 4 1 1 expired 0
strong 2 1 clear - 5 5 3 0 3 strong 0
strong 2 3 set - 2 4 2 5 0 strong 0
strong 0 0 set - 4 2 0 7 3 strong 0
strong 2 0 set - 4 2 0 7 0 strong 0
causal 5 3 set listed 5 4 0 0 4 older 0
session 3 1 clear - 5 1 0 0 2 below_floor 0
strong - - - - 2 4 3 5 2 strong 0
session 3 1 clear - 5 1 0 2 0 expired 0
session 0 3 clear - 2 0 0 3 3 none 3
session 3 3 set - 1 0 0 3 1 flagged 0
causal 0 2 clear - 4 2 2 4 0 none 4
strong 1 3 clear - 3 5 3 2 1 strong 0
session 5 3 clear - 1 2 1 6 4 none 6
session 0 3 set listed 1 2 2 3 3 none 3
session 2 0 clear - 4 3 3 5 2 none 5
causal 0 1 clear - 1 0 0 1 1 none 1
causal 0 2 set - 4 5 2 2 3 flagged 0
causal - - - - 5 3 3 5 4 none 5
causal 3 2 clear - 1 4 2 4 4 none 4
session 2 3 clear - 1 1 0 0 4 none 2
strong 0 1 set listed 4 3 3 3 3 strong 0
session 5 3 set - 1 2 0 1 1 flagged 0
session 0 0 set - 3 5 2 1 3 flagged 0
session 4 2 clear - 1 5 4 1 4 none 4
causal 2 0 set - 1 3 1 0 3 flagged 0
session 5 1 clear - 1 1 0 2 0 expired 0
causal 0 0 clear - 0 4 0 7 4 none 7
strong 2 0 clear - 5 1 0 5 2 strong 0
strong 2 3 set listed 5 4 4 5 1 strong 0
session 2 1 clear - 1 2 2 1 2 none 2
strong 0 2 set - 4 3 2 3 0 strong 0
session 0 2 set - 2 3 3 1 4 flagged 0
strong - - - - 4 4 1 3 3 strong 0
session 5 1 set - 0 5 1 6 1 flagged 0
causal 3 1 clear - 1 1 0 5 1 none 5
session 2 2 set listed 3 5 4 2 1 below_floor 0
strong 2 1 set - 5 1 0 0 1 strong 0
session 5 1 set - 4 4 3 5 0 flagged 0
session 0 2 clear - 4 2 1 7 3 none 7
session - - - - 2 2 2 3 1 none 3
causal 3 1 set - 1 1 0 3 3 flagged 0
session - - - - 3 0 0 5 4 none 5
causal 1 2 clear - 1 4 4 0 3 below_floor 0
session 2 0 set listed 5 4 0 0 2 older 0
session 4 1 set listed 4 0 0 5 0 none 5
session 2 3 clear - 5 4 4 7 2 none 7
causal 1 1 clear - 1 1 1 7 0 none 7
causal - - - - 0 5 2 7 2 none 7
session 3 0 set - 5 1 0 7 3 flagged 0
session 1 3 clear - 5 4 2 1 1 below_floor 0
session - - - - 0 1 0 6 2 none 6
strong 1 3 clear - 1 4 4 6 0 strong 0
causal 4 2 set - 0 1 1 7 1 flagged 0
session 4 1 set - 4 2 1 0 0 flagged 0
strong 0 0 clear - 1 2 0 7 2 strong 0
causal 0 3 set listed 5 0 0 1 1 below_floor 0
session 4 0 clear - 4 2 1 5 4 none 5
session 2 0 set listed 4 3 0 6 1 none 6
session 2 2 set listed 3 4 1 4 1 none 4
strong 5 1 clear - 1 1 0 5 3 strong 0
session 4 1 clear - 0 5 5 6 3 none 6
session 3 3 set - 3 4 0 6 0 flagged 0
causal 1 1 set listed 2 3 1 0 4 older 0
session 5 0 clear - 5 0 0 6 3 none 6
session 5 2 set - 2 5 3 0 4 flagged 0
session 5 2 set - 4 1 1 5 2 flagged 0
session - - - - 1 4 2 2 3 none 2
strong 4 2 clear - 0 0 0 3 1 strong 0
session 3 2 set - 2 4 2 6 0 flagged 0
strong 4 3 set listed 1 5 3 2 1 strong 0
causal 0 3 set - 4 3 0 0 4 flagged 0
causal 2 1 clear - 5 0 0 6 0 none 6
causal 2 1 clear - 3 5 5 0 3 below_floor 0
causal 3 2 clear - 3 1 1 3 3 none 3
strong 2 0 set - 2 3 2 4 4 strong 0
strong 5 2 clear - 1 1 1 1 0 strong 0
session 0 2 set listed 3 4 0 1 0 below_floor 0
causal 1 2 clear - 4 3 1 0 3 below_floor 0
session - - - - 4 0 0 3 3 below_floor 0
causal 0 3 clear - 2 4 3 4 4 none 4
session 1 0 set listed 2 3 2 1 2 below_floor 0
session 5 0 clear - 0 2 2 5 2 none 5
session 1 2 set - 0 0 0 2 1 flagged 0
causal 4 1 clear - 0 3 0 6 4 none 6
session 3 0 set listed 2 2 1 1 0 older 0
causal 1 0 clear - 2 0 0 5 0 none 5
session 2 2 clear - 4 5 2 0 3 below_floor 0
strong 5 2 set listed 3 2 1 1 2 strong 0
causal 3 3 clear - 1 5 4 2 2 expired 0
strong 2 0 clear - 1 3 3 6 3 strong 0
strong 5 3 set listed 5 5 1 0 2 strong 0
session 2 2 set - 0 3 2 1 0 flagged 0
causal 1 2 set - 5 4 2 6 2 flagged 0
session 5 0 clear - 1 2 2 6 1 none 6
strong 2 1 set listed 1 4 0 3 0 strong 0
session 2 1 clear - 2 3 0 1 1 expired 0
session 0 3 set - 2 0 0 6 0 flagged 0
strong 5 1 set listed 2 5 3 3 3 strong 0
session 0 1 clear - 2 5 4 6 2 none 6
session 4 3 clear - 1 4 2 3 3 expired 0
causal 1 3 clear - 0 0 0 5 2 none 5
causal 4 2 clear - 0 3 0 1 0 expired 0
session 4 0 clear - 3 1 1 4 3 none 4
strong 2 2 set - 1 3 0 5 1 strong 0
causal 4 0 set - 0 1 1 4 0 flagged 0
causal 1 3 set listed 3 0 0 5 0 none 5
session 4 1 set listed 0 5 5 2 0 older 0
causal 2 3 set listed 5 3 3 4 2 below_floor 0
strong 2 3 set listed 2 0 0 2 1 strong 0
session 1 1 clear - 4 4 3 3 1 below_floor 0
strong 0 3 set - 5 2 0 5 3 strong 0";

/// The next word of a line.
fn word<'a>(words: &mut Split<'a, char>) -> Result<&'a str, Fail> {
    match words.next() {
        Some(word) => Ok(word),
        None => Err(Fail::from("a word is missing")),
    }
}

/// The next word as a number.
fn number(words: &mut Split<'_, char>) -> Result<u64, Fail> {
    let word = word(words)?;
    word.parse().map_err(|_| Fail::from("a word is no number"))
}

fn level_of(word: &str) -> Result<Level, Fail> {
    match word {
        "session" => Ok(Level::Session),
        "causal" => Ok(Level::Causal),
        "strong" => Ok(Level::Strong),
        _ => Err(Fail::from("a word is no level")),
    }
}

fn why_named(word: &str) -> Result<Option<Why>, Fail> {
    match word {
        "none" => Ok(None),
        "strong" => Ok(Some(Why::Strong)),
        "flagged" => Ok(Some(Why::Flagged)),
        "older" => Ok(Some(Why::Older)),
        "expired" => Ok(Some(Why::Expired)),
        "below_floor" => Ok(Some(Why::BelowFloor)),
        _ => Err(Fail::from("a word is no cause")),
    }
}

/// What a page says of the key, if there is one.
fn sight_in(words: &mut Split<'_, char>) -> Result<Option<Sight>, Fail> {
    let (front, moment, bits) = (word(words)?, word(words)?, word(words)?);
    if bits == "-" {
        return Ok(None);
    }
    Ok(Some(Sight {
        front: front
            .parse()
            .map_err(|_| Fail::from("a front is no number"))?,
        moment: moment
            .parse()
            .map_err(|_| Fail::from("a moment is no number"))?,
        is_held: bits == "set",
    }))
}

/// A line as it is written.
pub(crate) fn line_of(text: &str) -> Result<Line, Fail> {
    let mut words = text.split(' ');
    let level = level_of(word(&mut words)?)?;
    let sight = sight_in(&mut words)?;
    let is_listed = word(&mut words)? == "listed";
    let written = number(&mut words)?;
    let read_any = number(&mut words)?;
    let read_key = number(&mut words)?;
    let copy = number(&mut words)?;
    let until = number(&mut words)?;
    let why = why_named(word(&mut words)?)?;
    let commit = number(&mut words)?;
    Ok((
        level,
        sight,
        is_listed,
        [written, read_any, read_key, copy, until],
        why,
        commit,
    ))
}

/// The floor of a session of one write, one read of another key and one read of the key.
fn floor_after(level: Level, written: u64, read_any: u64, read_key: u64) -> u64 {
    let key = KeyMark::of(b"r/shop/p1");
    let other = KeyMark::of(b"r/shop/p2");
    let mut rows = [FloorRow::BLANK; 4];
    let mut floors = Floors::new(&mut rows);
    floors.note_read(&mut rows, other, read_any);
    floors.note_read(&mut rows, key, read_key);
    floors.note_write(written);
    floors.floor(&rows, level, key)
}

/// Whether a line is answered as it must be.
fn is_answered(line: Line) -> bool {
    let (level, sight, is_listed, numbers, why, commit) = line;
    let [written, read_any, read_key, copy, until] = numbers;
    let floor = floor_after(level, written, read_any, read_key);
    let found = why_of(level, sight, is_listed, copy, until, floor);
    match found {
        None => why.is_none()
            && commit_with(sight, copy) == commit
            && is_accepted(sight, copy, until, floor),
        Some(_) => found == why,
    }
}

#[test]
fn copies_are_chosen_as_in_the_vectors(rt: HostRuntime) -> Result<(), Fail> {
    for text in LINES.lines() {
        assert!(rt; is_answered(line_of(text)?), "at {text}");
    }
    assert_eq!(rt; LINES.lines().count(), 150);
    Ok(())
}
