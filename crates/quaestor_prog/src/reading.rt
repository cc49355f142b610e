//! The command `read`, over any places: one page, and one read by a session that is new.
ghost use Rattle.std.specs.Prelude.{◌≡◌, ◌++◌, codes};
ghost use Rattle.q_outside.specs.Ends.{Gave};
ghost use Rattle.quaestor_prog.specs.Reading.{EndsRead, HasAnswered, HasRead, IsReadOnce, line_of_read, shown_body, text_of_read, way_word};
ghost use Rattle.command_line.specs.Words.{read_ask_of};

use crate::places::Places;
use crate::serving::give_line;
use crate::status::Status;
use client_core::{Level, Why};
use client_session::{Body, Link, ReadOut, Session, SessionRefusal, Way};
use command_line::ReadOptions;
use itoa::Buffer;
use q_outside::{Failed, Sink, give_all, give_both};
use query_normal::Key;
use std::alloc::Global;

/// How a read ended.
#[derive(Clone, Copy, Debug, PartialEq, Eq)]
pub enum ReadEnd {
    /// Its answer was written.
    Answered,
    /// The sink failed inside the answer.
    WriteFault,
    /// There was no answer.
    Refused(SessionRefusal),
}

/// Reaches the server at an address, reads a key over the link to it, and hands the link back to the places.
pub(crate) fn read_at<K: Sink, P: Places>(
    alloc: Global,
    options: &ReadOptions<'_>,
    sink: &mut K,
    places: &mut P,
) -> Status
    ensures { HasRead P.Link.at P.Link.answers P.at P.links (read_ask_of options.now) (K.at sink.old) (K.at sink.new) (K.ended sink.new) places.old places.new result }
{
    match places.reach(options.address) {
        Ok(mut link) => {
            let end = read_to_end(alloc, &mut link, sink, options.level, &options.key);
            sink.end();
            tell(places, end);
            places.keep_link(link);
            Status::of_read(end)
        }
        Err(_) => {
            sink.end();
            Status::PlaceFault
        }
    }
}

/// Lets the places hear why there is no answer.
fn tell<P: Places>(places: &mut P, end: ReadEnd)
    ensures { P.at places.new ≡ P.at places.old }
{
    match end {
        ReadEnd::Refused(refusal) => places.hear(refusal),
        _ => {}
    }
}

/// Fetches the page of the server once, reads a key by a new session of this level, and writes the answer:
/// its commit and its way on a line, and then the document or the list of the key, or `absent`.
pub fn read_once<L: Link, K: Sink>(
    alloc: Global,
    link: &mut L,
    sink: &mut K,
    level: Level,
    key: &Key,
) -> Status
    ensures { IsReadOnce L.at L.answers level key.now link.old link.new (K.at sink.old) (K.at sink.new) result }
{
    Status::of_read(read_to_end(alloc, link, sink, level, key))
}

/// The same read, and how it ended.
fn read_to_end<L: Link, K: Sink>(
    alloc: Global,
    link: &mut L,
    sink: &mut K,
    level: Level,
    key: &Key,
) -> ReadEnd
    ensures { EndsRead L.at L.answers level key.now link.old link.new (K.at sink.old) (K.at sink.new) result }
{
    match answer_of(alloc, link, level, key) {
        Ok(out) => match give_answer(sink, &out) {
            Ok(()) => ReadEnd::Answered,
            Err(_) => ReadEnd::WriteFault,
        },
        Err(refusal) => ReadEnd::Refused(refusal),
    }
}

/// What a new session reads after one page.
fn answer_of<L: Link>(
    alloc: Global,
    link: &mut L,
    level: Level,
    key: &Key,
) -> Result<ReadOut, SessionRefusal>
    ensures { HasAnswered L.at L.answers level key.now link.old link.new result }
{
    let mut session = Session::new(alloc, level)?;
    session.refresh(link)?;
    session.read(link, key)
}

/// Writes the answer of a read.
fn give_answer<K: Sink>(sink: &mut K, out: &ReadOut) -> Result<(), Failed>
    ensures { Gave (K.at sink.old) (K.at sink.new) (text_of_read out.now) result }
{
    match give_first(sink, out) {
        Ok(()) => give_both(sink, shown_body(&out.body), b"\n"),
        Err(_) => Err(Failed),
    }
}

/// Writes the first line of the answer of a read.
fn give_first<K: Sink>(sink: &mut K, out: &ReadOut) -> Result<(), Failed>
    ensures { Gave (K.at sink.old) (K.at sink.new) (line_of_read out.now) result }
{
    let mut digits = Buffer::new();
    give_words(
        sink,
        digits.format(out.commit).as_bytes(),
        way_word(out.way),
    )
}

/// Writes a line of two words.
fn give_words<K: Sink>(sink: &mut K, first: &[u8], second: &[u8]) -> Result<(), Failed>
    ensures { Gave (K.at sink.old) (K.at sink.new) (first.now ++ (codes " " ++ second.now ++ codes "\n")) result }
{
    match give_all(sink, first) {
        Ok(()) => give_line(sink, b" ", second),
        Err(_) => Err(Failed),
    }
}

/// How the way of a read is written.
fn way_word(way: Way) -> &'static [u8]
    ensures { result.now ≡ way_word way }
{
    match way {
        Way::Cached => b"cached",
        Way::Direct(Why::Strong) => b"strong",
        Way::Direct(Why::Flagged) => b"flagged",
        Way::Direct(Why::Older) => b"older",
        Way::Direct(Why::Expired) => b"expired",
        Way::Direct(Why::BelowFloor) => b"below_floor",
    }
}

/// How what a key has is written.
fn shown_body(body: &Body) -> &[u8]
    ensures { result.now ≡ shown_body body.now }
{
    match body {
        Body::Document { text, .. } => text.as_slice(),
        Body::List { text } => text.as_slice(),
        Body::Absent => b"absent",
    }
}
