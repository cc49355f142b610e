//! The search for the end of a head (RFC 9112, section 2.1). It goes on where it was when more bytes come.
ghost use Rattle.std.specs.Prelude.{◌≡◌, ℕ, ◌+◌, ◌<◌, ◌≤◌, length, drop, IfSome, IfNone, Option, None};
ghost use Rattle.http_message.specs.Text.{begins_bare_cr, empty_lines_at_start};
ghost use Rattle.http_message.specs.HeadScan.{IsLine, IsCut, Skips, Passes, IsScanned, IsFeed, IsEnd};

use memchr::memchr;

/// How far the search has come.
#[derive(Clone, Copy, Debug, PartialEq, Eq)]
pub struct HeadScan {
    /// The length of the empty lines at the start.
    pub empty_lines: usize,
    /// The number of bytes after these in which no head ends.
    pub passed: usize,
}

impl HeadScan {
    /// The search before its first look.
    pub const START: HeadScan = HeadScan {
        empty_lines: 0,
        passed: 0,
    };
}

/// Where a text ends: a head, a chunk's line, or trailers.
#[derive(Clone, Copy, Debug, PartialEq, Eq)]
pub enum TextEnd {
    /// The length of the text.
    At(usize),
    /// The length of the bytes in which it does not end.
    Behind(usize),
}

/// Passes over the empty lines that have come.
pub fn pass_empty_lines(bytes: &[u8], scan: HeadScan) -> HeadScan
    requires { IsScanned bytes.now scan }
    ensures empty_lines { result.empty_lines ≡ empty_lines_at_start bytes.now }
    ensures scanned { IsScanned bytes.now result }
{
    let empty_lines = skip_empty_lines(bytes, scan.empty_lines);
    if empty_lines == scan.empty_lines {
        return scan;
    }
    HeadScan {
        empty_lines,
        passed: 0,
    }
}

/// The length of the empty lines at the start, of which `known` bytes are known.
fn skip_empty_lines(bytes: &[u8], known: usize) -> usize
    requires { Skips bytes.now known }
    ensures empty_lines { result ≡ empty_lines_at_start bytes.now }
    ensures skips { Skips bytes.now result }
{
    let mut empty_lines = known;
    loop {
        match empty_line(&bytes[empty_lines..]) {
            None => return empty_lines,
            Some(0) => return empty_lines,
            Some(size) => empty_lines += size,
        }
    }
}

/// The length of the empty line at the start, 0 where there is none, or nothing where the next byte
/// decides.
pub fn empty_line(rest: &[u8]) -> Option<usize>
    ensures some { IfSome result (IsLine rest.now) }
    ensures none { IfNone result (IsCut rest.now) }
{
    if rest.is_empty() {
        return None;
    }
    if rest[0] == b'\n' {
        return Some(1);
    }
    if rest[0] != b'\r' {
        return Some(0);
    }
    if rest.len() == 1 {
        return None;
    }
    if rest[1] == b'\n' {
        return Some(2);
    }
    Some(0)
}

/// Whether the bytes begin with a bare CR: a CR that another byte than LF follows.
pub fn begins_bare_cr(rest: &[u8]) -> bool
    ensures { result ≡ begins_bare_cr rest.now }
{
    rest.len() >= 2 && rest[0] == b'\r' && rest[1] != b'\n'
}

/// Where the head ends, which it does not in the bytes that were passed. It serves for the head of a
/// request and for that of a response.
pub fn find_head_end(rest: &[u8], passed: usize) -> TextEnd
    requires { Passes rest.now passed }
    ensures { IsEnd rest.now result }
{
    let mut at = passed;
    loop {
        let Some(feed) = next_line_feed(rest, at) else {
            return TextEnd::Behind(rest.len());
        };
        match empty_line(&rest[feed + 1..]) {
            None => return TextEnd::Behind(feed),
            Some(0) => at = feed + 1,
            Some(size) => return TextEnd::At(feed + 1 + size),
        }
    }
}

/// The offset of the next line feed.
fn next_line_feed(rest: &[u8], passed: usize) -> Option<usize>
    requires { Passes rest.now passed }
    ensures some { IfSome result (λ feed. IsFeed rest.now feed × (passed ≤ feed)) }
    ensures none { IfNone result (Passes rest.now (length rest.now)) }
{
    match memchr(b'\n', &rest[passed..]) {
        None => None,
        Some(offset) => Some(passed + offset),
    }
}
