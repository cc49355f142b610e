//! Requests and what is none, in pieces of several sizes, and where the outside fails.
ghost use Rattle.std.specs.Prelude.{◌≡◌, ◌<◌};

use crate::asks::new_room;
use http_message::{FramingRefusal, Request, RequestRoom, Taken, next_request};
use q_base::Memory;
use q_outside::{ListSink, ListSource, Script, Sink, Source};
use std::alloc::Global;
use std::marker::Brand;
use std::process::Abort;
use std::sync::ledger::{Blank, Ledger};
use std::test::Fail;

/// The sizes of the pieces in which the bytes come.
pub(crate) const SIZES: [usize; 4] = [1, 2, 7, 1_000_000];

/// How the bytes are taken: in pieces of this size, and the call of this number fails.
#[derive(Clone, Copy)]
pub(crate) struct Way {
    size: usize,
    failing: Option<u64>,
}

/// No call fails.
pub(crate) const fn by(size: usize) -> Way {
    Way {
        size,
        failing: None,
    }
}

/// What the calls do.
fn script_of(alloc: Global, way: Way) -> Result<Script, Memory> {
    let mut failing = Vec::new(alloc);
    if let Some(call) = way.failing {
        failing.push(call)?;
    }
    let sizes = vec![in alloc; way.size]?;
    Ok(Script::of(failing, sizes))
}

/// A line for each item of the bytes, and then what the sink was given.
pub(crate) fn report(
    alloc: Global,
    bytes: &[u8],
    takes: Way,
    gives: Way,
) -> Result<Vec<u8>, Memory> {
    report_counted::<Brand>(alloc, bytes, takes, gives, Blank::new(1))
}

/// The same, over a sink whose faults are counted by this ledger.
fn report_counted<L: Ledger>(
    alloc: Global,
    bytes: &[u8],
    takes: Way,
    gives: Way,
    blank: Blank,
) -> Result<Vec<u8>, Memory>
    requires name { blank.name ≡ L.name }
    requires parts { blank.parts ≡ L.parts }
    requires some { 0 < L.parts }
{
    let mut source = source_of(alloc, bytes, takes)?;
    let mut room = new_room(alloc)?;
    let mut sink = ListSink::<L>::new(alloc, 1_000, script_of(alloc, gives)?, blank)?;
    let mut text = Vec::new(alloc);
    report_items(alloc, &mut *source, &mut sink, &mut room, &mut text)?;
    text.extend_from_slice(&sink.bytes)?;
    Ok(text)
}

/// A source of these bytes.
fn source_of(alloc: Global, bytes: &[u8], takes: Way) -> Result<Box<ListSource>, Memory> {
    let source = ListSource::of(Vec::from_slice(alloc, bytes)?, script_of(alloc, takes)?);
    Ok(Box::new(alloc, source)?)
}

/// Adds a line for each item of a source.
fn report_items<S: Source, K: Sink>(
    alloc: Global,
    source: &mut S,
    sink: &mut K,
    room: &mut RequestRoom,
    text: &mut Vec<u8>,
) -> Result<(), Memory> {
    room.clear();
    for _turn in 0..9_usize {
        match next_request(source, sink, room) {
            Taken::Request { place } => report_request(alloc, text, place, &room.request())?,
            Taken::Framing {
                refused,
                place,
                head,
            } => {
                report_refusal(alloc, text, refused, place, head)?;
                break;
            }
            Taken::InputEnd => {
                text.extend_from_slice(b"end\n")?;
                break;
            }
            Taken::Truncated => {
                text.extend_from_slice(b"truncated\n")?;
                break;
            }
            Taken::ReadFault => {
                text.extend_from_slice(b"read fault\n")?;
                break;
            }
            Taken::WriteFault => {
                text.extend_from_slice(b"write fault\n")?;
                break;
            }
        }
    }
    Ok(())
}

/// Adds the line of a request.
fn report_request(
    alloc: Global,
    text: &mut Vec<u8>,
    place: usize,
    request: &Request,
) -> Result<(), Memory> {
    text.extend_from_slice(format!(in alloc; "{place} ")?.as_bytes())?;
    text.extend_from_slice(request.method())?;
    text.push(b' ')?;
    text.extend_from_slice(request.target())?;
    let minor = request.minor();
    let fields = request.field_count();
    let closes = request.closes();
    text.extend_from_slice(format!(in alloc; " {minor} {fields} {closes}: ")?.as_bytes())?;
    text.extend_from_slice(request.body())?;
    text.push(b'\n')?;
    Ok(())
}

/// Adds the line of a refusal.
fn report_refusal(
    alloc: Global,
    text: &mut Vec<u8>,
    refused: FramingRefusal,
    place: usize,
    head: bool,
) -> Result<(), Memory> {
    let word = match refused {
        FramingRefusal::BadHead => "bad_head",
        FramingRefusal::HeadTooLarge => "head_too_large",
        FramingRefusal::BadLength => "bad_length",
        FramingRefusal::BadCoding => "bad_coding",
        FramingRefusal::BodyTooLarge => "body_too_large",
    };
    text.extend_from_slice(format!(in alloc; "{place} {word} {head}\n")?.as_bytes())?;
    Ok(())
}

/// Checks what these bytes are reported as, in pieces of this size.
fn check_report(
    rt: &impl Abort,
    alloc: Global,
    bytes: &[u8],
    want: &[u8],
    size: usize,
) -> Result<(), Memory> {
    let text = report(alloc, bytes, by(size), by(size))?;
    let count = bytes.len();
    assert_eq!(rt; text.as_slice(), want, "{count} bytes, pieces of {size}");
    Ok(())
}

#[test]
fn items_are_those_of_the_bytes_in_whatever_pieces(rt: HostRuntime) -> Result<(), Fail> {
    let rows: [(&[u8], &[u8]); 47] = [
        (
            b"\r\n\nGET /a HTTP/1.1\r\nHost: h\r\n\r\nHEAD /b HTTP/1.0\n\nPUT /c HTTP/1.1\nHost: h\nContent-Length: 03\n\nabc\r\n",
            b"0 GET /a 1 1 false: \n31 HEAD /b 0 0 true: \n49 PUT /c 1 2 false: abc\nend\n",
        ),
        (
            b"POST /d HTTP/1.1\r\nHost: h\r\nTransfer-Encoding: Chunked\r\n\r\n4\r\nWiki\r\n05;x=y\r\npedia\r\n0\r\nA: b\r\n\r\nGET /a HTTP/1.1\r\nHost: h\r\n\r\n",
            b"0 POST /d 1 2 false: Wikipedia\n92 GET /a 1 1 false: \nend\n",
        ),
        (
            b"POST /d HTTP/1.1\nTransfer-Encoding: chunked\n\n0\r\n\r\nPOST /d HTTP/1.1\nTransfer-Encoding: chunked\n\n0\r\n\n",
            b"0 POST /d 1 1 false: \n50 POST /d 1 1 false: \nend\n",
        ),
        (
            b"GET /a HTTP/1.1\r\nHost: a\r\nHost: b\r\nConnection: x, Close\r\n\r\nGET /a HTTP/1.1\r\nHost: h\r\n\r\n",
            b"0 GET /a 1 3 true: \n59 GET /a 1 1 false: \nend\n",
        ),
        (
            b"PUT /f HTTP/1.1\r\nExpect: 100-Continue\r\nContent-Length: 2\r\n\r\nabPUT /f HTTP/1.1\nexpect: 100-continue\nContent-Length: 0\n\nPUT /f HTTP/1.0\nExpect: 100-continue\nContent-Length: 1\n\nxPUT /f HTTP/1.1\nExpect: 100-continue, y\nContent-Length: 1\n\nxPUT /f HTTP/1.1\nExpect: 100-continue\nTransfer-Encoding: chunked\n\n0\r\n\r\n",
            b"0 PUT /f 1 2 false: ab\n62 PUT /f 1 2 false: \n118 PUT /f 0 2 true: x\n175 PUT /f 1 2 false: x\n235 PUT /f 1 2 false: \nend\nHTTP/1.1 100 Continue\r\n\r\nHTTP/1.1 100 Continue\r\n\r\n",
        ),
        (b"", b"end\n"),
        (b"\r\n\n\r", b"end\n"),
        (b"\n", b"end\n"),
        (b"x", b"truncated\n"),
        (b"GET / HTTP/1.1\r\nHost: a\r\n\r", b"truncated\n"),
        (b"PUT / HTTP/1.1\nContent-Length: 3\n\nab", b"truncated\n"),
        (b"\n\nG", b"truncated\n"),
        (
            b"PUT / HTTP/1.1\nExpect: 100-continue\nContent-Length: 3\n\nab",
            b"truncated\nHTTP/1.1 100 Continue\r\n\r\n",
        ),
        (
            b"PUT / HTTP/1.1\nExpect: 100-continue\nContent-Length: 3\n\n",
            b"truncated\nHTTP/1.1 100 Continue\r\n\r\n",
        ),
        (b"\rx", b"0 bad_head false\n"),
        (
            b"GET /a HTTP/1.1\r\nHost: h\r\n\r\n\n\r\rx",
            b"0 GET /a 1 1 false: \n28 bad_head false\n",
        ),
        (b"x\n\n", b"0 bad_head false\n"),
        (b"\nx\r\n\r\n", b"0 bad_head false\n"),
        (b"GET /a HTTP/1.2\r\n\r\n", b"0 bad_head false\n"),
        (b"GET /a\rb HTTP/1.1\n\n", b"0 bad_head false\n"),
        (
            b"PUT /a HTTP/1.1\nContent-Length: +1\n\nx",
            b"0 bad_length false\n",
        ),
        (
            b"PUT /a HTTP/1.1\nContent-Length: \n\nx",
            b"0 bad_length false\n",
        ),
        (
            b"PUT /a HTTP/1.1\nContent-Length: 1\nContent-Length: 1\n\nx",
            b"0 bad_length false\n",
        ),
        (
            b"PUT /a HTTP/1.1\nContent-Length: 00000000000000000001\n\nx",
            b"0 bad_length false\n",
        ),
        (
            b"PUT /a HTTP/1.1\nContent-Length: 1, 1\n\nx",
            b"0 bad_length false\n",
        ),
        (
            b"PUT /a HTTP/1.1\nContent-Length: 1\nTransfer-Encoding: chunked\n\nx",
            b"0 bad_length false\n",
        ),
        (
            b"PUT /a HTTP/1.0\nTransfer-Encoding: chunked\n\n0\r\n\r\n",
            b"0 bad_length false\n",
        ),
        (
            b"PUT /a HTTP/1.1\nExpect: 100-continue\nContent-Length: x\n\n",
            b"0 bad_length false\n",
        ),
        (
            b"PUT /a HTTP/1.1\nTransfer-Encoding: gzip\n\n0\r\n\r\n",
            b"0 bad_coding false\n",
        ),
        (
            b"PUT /a HTTP/1.1\nTransfer-Encoding: gzip, chunked\n\n0\r\n\r\n",
            b"0 bad_coding false\n",
        ),
        (
            b"PUT /a HTTP/1.1\nTransfer-Encoding: chunked\nTransfer-Encoding: chunked\n\n0\r\n\r\n",
            b"0 bad_coding false\n",
        ),
        (
            b"PUT /a HTTP/1.1\nContent-Length: 65537\n\n",
            b"0 body_too_large false\n",
        ),
        (
            b"PUT /a HTTP/1.1\nContent-Length: 9999999999999999999\n\n",
            b"0 body_too_large false\n",
        ),
        (
            b"PUT /a HTTP/1.1\nTransfer-Encoding: chunked\n\nzz\r\n",
            b"0 bad_length false\n",
        ),
        (
            b"PUT /a HTTP/1.1\nTransfer-Encoding: chunked\n\n1\nx\r\n",
            b"0 bad_length false\n",
        ),
        (
            b"PUT /a HTTP/1.1\nTransfer-Encoding: chunked\n\n\r\n",
            b"0 bad_length false\n",
        ),
        (
            b"PUT /a HTTP/1.1\nTransfer-Encoding: chunked\n\n1\r\nxyz",
            b"0 bad_length false\n",
        ),
        (
            b"PUT /a HTTP/1.1\nTransfer-Encoding: chunked\n\n1\r\nx\n0\r\n",
            b"0 bad_length false\n",
        ),
        (
            b"PUT /a HTTP/1.1\nTransfer-Encoding: chunked\n\n1\r\nx\r\r",
            b"0 bad_length false\n",
        ),
        (
            b"PUT /a HTTP/1.1\nTransfer-Encoding: chunked\n\n0\r\nA\r\n\r\n",
            b"0 bad_length false\n",
        ),
        (
            b"PUT /a HTTP/1.1\nTransfer-Encoding: chunked\n\n0\r\n: b\n\n",
            b"0 bad_length false\n",
        ),
        (
            b"PUT /a HTTP/1.1\nTransfer-Encoding: chunked\n\n11111111111111111\r\n",
            b"0 bad_length false\n",
        ),
        (
            b"PUT /a HTTP/1.1\nTransfer-Encoding: chunked\n\n10001\r\n",
            b"0 body_too_large false\n",
        ),
        (
            b"PUT /a HTTP/1.1\nTransfer-Encoding: chunked\n\nffffffffffffffff\r\n",
            b"0 body_too_large false\n",
        ),
        (
            b"PUT /a HTTP/1.1\nTransfer-Encoding: chunked\n\n1\r\nx\r\n10000\r\n",
            b"0 body_too_large false\n",
        ),
        (
            b"HEAD /a HTTP/1.1\nExpect: 100-continue\nTransfer-Encoding: chunked\n\nq\r\n",
            b"0 bad_length true\nHTTP/1.1 100 Continue\r\n\r\n",
        ),
        (
            b"HEAD /a HTTP/1.1\nTransfer-Encoding: x\n\n",
            b"0 bad_coding false\n",
        ),
    ];

    for (bytes, want) in rows {
        for size in SIZES {
            check_report(&rt, rt.alloc(), bytes, want, size)?;
        }
    }
    Ok(())
}

/// Empty lines, a request with a body, and one whose body is chunked.
const FIRST: &[u8] = b"\r\n\nPUT /a HTTP/1.1\r\nContent-Length: 2\r\n\r\nhi";

const SECOND: &[u8] =
    b"POST /b HTTP/1.1\nExpect: 100-continue\nTransfer-Encoding: chunked\n\n2\r\nok\r\n0\r\nA: b\r\n\r\n";

/// The length of the second's head.
const SECOND_HEAD: usize = 66;

/// The lines of their items.
const TOLD: [&[u8]; 2] = [b"0 PUT /a 1 1 false: hi\n", b"43 POST /b 1 2 false: ok\n"];

/// Both, with an empty line after them.
fn script_bytes(alloc: Global) -> Result<Vec<u8>, Memory> {
    let mut bytes = Vec::from_slice(alloc, FIRST)?;
    bytes.extend_from_slice(SECOND)?;
    bytes.push(b'\n')?;
    Ok(bytes)
}

/// The lines of these first bytes, and of their end.
fn expected_of(alloc: Global, size: usize) -> Result<Vec<u8>, Memory> {
    let both = FIRST.len() + SECOND.len();
    let mut want = Vec::new(alloc);
    if size >= FIRST.len() {
        want.extend_from_slice(TOLD[0])?;
    }
    if size >= both {
        want.extend_from_slice(TOLD[1])?;
    }
    let clean = size <= 3 || size == FIRST.len() || size >= both;
    want.extend_from_slice(if clean {
        b"end\n".as_slice()
    } else {
        b"truncated\n"
    })?;
    if size >= FIRST.len() + SECOND_HEAD {
        want.extend_from_slice(b"HTTP/1.1 100 Continue\r\n\r\n")?;
    }
    Ok(want)
}

/// Checks what the first bytes are reported as, in pieces of each size.
fn check_first(rt: &impl Abort, alloc: Global, bytes: &[u8]) -> Result<(), Memory> {
    let want = expected_of(alloc, bytes.len())?;
    for piece in SIZES {
        check_report(rt, alloc, bytes, &want, piece)?;
    }
    Ok(())
}

#[test]
fn a_stream_ends_behind_each_of_its_bytes(rt: HostRuntime) -> Result<(), Fail> {
    let bytes = script_bytes(rt.alloc())?;
    for size in 0..=bytes.len() {
        check_first(&rt, rt.alloc(), &bytes[..size])?;
    }
    Ok(())
}

/// The lines where the source fails behind these first bytes.
fn expected_of_taken(alloc: Global, taken: usize) -> Result<Vec<u8>, Memory> {
    let mut want = Vec::new(alloc);
    if taken >= FIRST.len() {
        want.extend_from_slice(TOLD[0])?;
    }
    if taken >= FIRST.len() + SECOND.len() {
        want.extend_from_slice(TOLD[1])?;
    }
    want.extend_from_slice(b"read fault\n")?;
    if taken >= FIRST.len() + SECOND_HEAD {
        want.extend_from_slice(b"HTTP/1.1 100 Continue\r\n\r\n")?;
    }
    Ok(want)
}

/// The lines where the call of this number fails of a source that gives byte by byte.
fn expected_of_take(alloc: Global, bytes: &[u8], call: u64) -> Result<Vec<u8>, Memory> {
    let taken = call as usize;
    if taken > bytes.len() {
        return expected_of(alloc, bytes.len());
    }
    expected_of_taken(alloc, taken)
}

/// Checks the lines where this call of the source fails.
fn check_take(rt: &impl Abort, alloc: Global, bytes: &[u8], call: u64) -> Result<(), Memory> {
    let takes = Way {
        size: 1,
        failing: Some(call),
    };
    let want = expected_of_take(alloc, bytes, call)?;
    let text = report(alloc, bytes, takes, by(1))?;
    assert_eq!(rt; text.as_slice(), want.as_slice(), "take {call}");
    Ok(())
}

/// The lines where this call of the sink fails.
fn expected_of_give(alloc: Global, call: usize) -> Result<Vec<u8>, Memory> {
    let mut want = Vec::from_slice(alloc, TOLD[0])?;
    want.extend_from_slice(b"write fault\n")?;
    let whole = b"HTTP/1.1 100 Continue\r\n\r\n".as_slice();
    want.extend_from_slice(whole.get(..call).unwrap_or(whole))?;
    Ok(want)
}

/// Checks them.
fn check_give(rt: &impl Abort, alloc: Global, bytes: &[u8], call: u64) -> Result<(), Memory> {
    let gives = Way {
        size: 1,
        failing: Some(call),
    };
    let want = expected_of_give(alloc, call as usize)?;
    let text = report(alloc, bytes, by(7), gives)?;
    assert_eq!(rt; text.as_slice(), want.as_slice(), "give {call}");
    Ok(())
}

#[test]
fn a_source_and_a_sink_fail_at_each_call(rt: HostRuntime) -> Result<(), Fail> {
    let bytes = script_bytes(rt.alloc())?;
    for call in 0..200 {
        check_take(&rt, rt.alloc(), &bytes, call)?;
    }
    for call in 0..25 {
        check_give(&rt, rt.alloc(), &bytes, call)?;
    }
    Ok(())
}
