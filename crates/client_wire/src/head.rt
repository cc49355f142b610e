//! The head of a reply, taken so that no byte behind it is taken: a line at a time where the source has
//! it in a buffer of its own, and otherwise byte by byte.
ghost use Rattle.std.specs.Prelude.{◌≡◌, ◌+◌, ◌<◌, ◌≤◌, true, false, [], length, take, IfOk, IfErr};
ghost use Rattle.q_outside.specs.Ends.{TookBytes};
ghost use Rattle.http_message.specs.HeadScan.{IsScanned};
ghost use Rattle.http_message.specs.Limits.{head_limit};
ghost use Rattle.client_wire.specs.Heads.{IsInLine, IsPieceTaken, IsSeen, IsCut, TakesHead};

use crate::room::HEAD_LIMIT;
use http_message::{HeadScan, TextEnd, begins_bare_cr, find_head_end, pass_empty_lines};
use memchr::memchr;
use q_outside::{Failed, Source};

/// Why no byte came.
#[derive(Clone, Copy, Debug, PartialEq, Eq)]
pub enum Cut {
    /// The source has ended.
    Ended,
    /// The source has failed.
    Failed,
}

/// What the bytes begin with.
#[derive(Clone, Copy, Debug, PartialEq, Eq)]
pub enum HeadFound {
    /// No head: behind the empty lines a CR that no LF follows, or as many bytes as a head may have.
    Unreadable,
    /// Behind the empty lines the text of a head, of this length.
    Text { empty_lines: usize, size: usize },
}

/// What was taken for a head.
#[derive(Clone, Copy, Debug, PartialEq, Eq)]
pub struct HeadTaken {
    /// The number of bytes.
    pub count: usize,
    /// What they begin with, or why no more came.
    pub found: Result<HeadFound, Cut>,
}

/// Takes bytes into the buffer until they show what they begin with.
pub(crate) fn take_head<S: Source>(source: &mut S, buffer: &mut [u8]) -> HeadTaken
    requires { length buffer.old ≡ head_limit }
    ensures len { length buffer.new ≡ length buffer.old }
    ensures takes { TakesHead (S.at source.old) (S.at source.new) buffer.new result }
{
    let mut count = 0;
    let mut scan = HeadScan {
        empty_lines: 0,
        passed: 0,
    };
    loop {
        match look(&buffer[..count], scan) {
            Ok(found) => {
                return HeadTaken {
                    count,
                    found: Ok(found),
                };
            }
            Err(further) => {
                let begun = has_begun(count, further);
                match take_piece(source, &mut buffer[count..], begun) {
                    Ok(size) => {
                        count += size;
                        scan = further;
                    }
                    Err(cut) => {
                        return HeadTaken {
                            count,
                            found: Err(cut),
                        };
                    }
                }
            }
        }
    }
}

/// Whether two bytes of the head have come, behind which only a line feed can decide.
fn has_begun(count: usize, scan: HeadScan) -> bool
    requires { scan.empty_lines ≤ count }
    ensures { result ≡ true → scan.empty_lines + 2 ≤ count }
{
    count - scan.empty_lines >= 2
}

/// Takes the next bytes to the start of the buffer, at least one: where a head has begun what the source
/// holds of its line, and otherwise one byte.
fn take_piece<S: Source>(source: &mut S, into: &mut [u8], begun: bool) -> Result<usize, Cut>
    requires { 0 < length into.old }
    ensures piece { IfOk result (λ size. IsPieceTaken (S.at source.old) (S.at source.new) begun into.new size) }
    ensures cut { IfErr result (λ cut. TookBytes (S.at source.old) (S.at source.new) [] × IsCut (S.at source.old) (S.at source.new) cut) }
{
    let most = piece_size(source.held(), begun).min(into.len());
    match source.take(&mut into[..most]) {
        Ok(0) => Err(Cut::Ended),
        Ok(size) => Ok(size),
        Err(Failed) => Err(Cut::Failed),
    }
}

/// The length of the bytes that are held of a line, up to and with its line feed, or 1 where a head has not
/// begun or none are held.
fn piece_size(held: &[u8], begun: bool) -> usize
    ensures some { 0 < result }
    ensures line { IsInLine held.now result }
    ensures one { begun ≡ false → result ≡ 1 }
{
    if !begun {
        return 1;
    }
    match memchr(b'\n', held) {
        Some(feed) => feed + 1,
        None => held.len().max(1),
    }
}

/// Looks at the bytes. Where more bytes are needed, it answers what the search goes on from.
fn look(held: &[u8], scan: HeadScan) -> Result<HeadFound, HeadScan>
    requires scanned { IsScanned held.now scan }
    requires within { length held.now ≤ head_limit }
    ensures { IsSeen held.now result }
{
    let scan = pass_empty_lines(held, scan);
    let rest = &held[scan.empty_lines..];
    if begins_bare_cr(rest) {
        return Ok(HeadFound::Unreadable);
    }
    match find_head_end(rest, scan.passed) {
        TextEnd::At(size) => Ok(HeadFound::Text {
            empty_lines: scan.empty_lines,
            size,
        }),
        TextEnd::Behind(_) if held.len() >= HEAD_LIMIT => Ok(HeadFound::Unreadable),
        TextEnd::Behind(passed) => Err(HeadScan {
            empty_lines: scan.empty_lines,
            passed,
        }),
    }
}
