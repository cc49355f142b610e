//! The search for the head of the next item in a source's bytes.
ghost use Rattle.std.specs.Prelude.{◌≡◌};
ghost use Rattle.http_message.specs.HeadFound.{IsFound, IsLook, IsUnread};
ghost use Rattle.http_message.specs.Input.{Grows};
ghost use Rattle.http_message.specs.HeadScan.{IsScanned};
ghost use Rattle.http_message.specs.Text.{window};

use crate::incomplete::Incomplete;
use crate::input::Input;
use crate::limits::HEAD_LIMIT;
use crate::scan::{HeadScan, TextEnd, begins_bare_cr, find_head_end, pass_empty_lines};
use q_outside::Source;

/// What the bytes begin with.
#[derive(Clone, Copy, Debug, PartialEq, Eq)]
pub enum HeadFound {
    /// Behind the empty lines a CR that no LF follows.
    BareCr { empty_lines: usize },
    /// Behind the empty lines the text of a head, of this length.
    Text { empty_lines: usize, size: usize },
    /// No head ends within the first `HEAD_LIMIT` bytes, and these are all there.
    TooLarge,
}

/// Takes bytes until the head of the next item is there.
pub fn find_head<S: Source>(source: &mut S, input: &mut Input) -> Result<HeadFound, Incomplete>
    ensures grows { Grows (S.at source.old) (S.at source.new) IsUnread input.old input.new }
    ensures found { IsFound (S.at source.old) (S.at source.new) input.new result }
{
    let mut scan = HeadScan::START;
    loop {
        match look(input.bytes(), scan) {
            Ok(found) => return Ok(found),
            Err(further) => {
                input.fill(source)?;
                scan = further;
            }
        }
    }
}

/// Looks at the bytes. Where more bytes are needed, it answers what the search goes on from.
fn look(bytes: &[u8], scan: HeadScan) -> Result<HeadFound, HeadScan>
    requires { IsScanned (window bytes.now) scan }
    ensures { IsLook bytes.now result }
{
    let window = window(bytes);
    let scan = pass_empty_lines(window, scan);
    let rest = &window[scan.empty_lines..];
    if begins_bare_cr(rest) {
        return Ok(HeadFound::BareCr {
            empty_lines: scan.empty_lines,
        });
    }
    match find_head_end(rest, scan.passed) {
        TextEnd::At(size) => Ok(HeadFound::Text {
            empty_lines: scan.empty_lines,
            size,
        }),
        TextEnd::Behind(_) if bytes.len() >= HEAD_LIMIT => Ok(HeadFound::TooLarge),
        TextEnd::Behind(passed) => Err(HeadScan {
            empty_lines: scan.empty_lines,
            passed,
        }),
    }
}

/// The bytes in which a head has to end.
fn window(bytes: &[u8]) -> &[u8]
    ensures { result.now ≡ window bytes.now }
{
    if bytes.len() > HEAD_LIMIT {
        return &bytes[..HEAD_LIMIT];
    }
    bytes
}
