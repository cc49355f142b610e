//! Requests at the limits of their heads and bodies, and one above, in pieces of several sizes.

use crate::requests::{SIZES, by, report};
use q_base::Memory;
use std::alloc::Global;
use std::test::Fail;

/// Adds as many of a byte.
fn fill(text: &mut Vec<u8>, byte: u8, count: usize) -> Result<(), Memory> {
    for _ in 0..count {
        text.push(byte)?;
    }
    Ok(())
}

/// A head of this length, after a number of empty lines.
fn long_head(alloc: Global, blank: usize, size: usize) -> Result<Vec<u8>, Memory> {
    let mut bytes = Vec::new(alloc);
    fill(&mut bytes, b'\n', blank)?;
    bytes.extend_from_slice(b"GET /a HTTP/1.1\r\nHost: ")?;
    fill(
        &mut bytes,
        b'a',
        size.saturating_sub(27).saturating_sub(blank),
    )?;
    bytes.extend_from_slice(b"\r\n\r\n")?;
    Ok(bytes)
}

/// A head with this number of fields.
fn wide_head(alloc: Global, fields: usize) -> Result<Vec<u8>, Memory> {
    let mut bytes = Vec::from_slice(alloc, b"GET /a HTTP/1.1\n")?;
    for _ in 0..fields {
        bytes.extend_from_slice(b"a:\n")?;
    }
    bytes.push(b'\n')?;
    Ok(bytes)
}

/// A request with a number of chunks of one byte, whose lines have these lengths.
fn long_coding(alloc: Global, lines: usize, last: usize) -> Result<Vec<u8>, Memory> {
    let mut bytes = Vec::from_slice(alloc, CHUNKED)?;
    for line in 0..=lines {
        bytes.extend_from_slice(b"1;")?;
        let size = if line == lines { last } else { 4_096 };
        fill(&mut bytes, b'e', size.saturating_sub(4))?;
        bytes.extend_from_slice(b"\r\nx\r\n")?;
    }
    bytes.extend_from_slice(b"0\r\n\r\n")?;
    Ok(bytes)
}

/// A request whose trailers have this length with their empty line.
fn long_trailers(alloc: Global, size: usize) -> Result<Vec<u8>, Memory> {
    let mut bytes = Vec::from_slice(alloc, CHUNKED)?;
    bytes.extend_from_slice(b"0\r\na:")?;
    fill(&mut bytes, b'b', size.saturating_sub(6))?;
    bytes.extend_from_slice(b"\r\n\r\n")?;
    Ok(bytes)
}

/// The head of a request whose body is chunked.
const CHUNKED: &[u8] = b"PUT /a HTTP/1.1\nTransfer-Encoding: chunked\n\n";

/// The lines of the bytes begin with this, in pieces of each size.
fn begins(alloc: Global, bytes: &[u8], want: &[u8]) -> Result<bool, Memory> {
    for size in SIZES {
        let text = report(alloc, bytes, by(size), by(size))?;
        if !text.as_slice().starts_with(want) {
            return Ok(false);
        }
    }
    Ok(true)
}

/// Whether the lines of such a head begin with this.
fn head_begins(alloc: Global, blank: usize, size: usize, want: &[u8]) -> Result<bool, Memory> {
    let bytes = long_head(alloc, blank, size)?;
    begins(alloc, &bytes, want)
}

/// The same of so many line feeds alone.
fn blank_begins(alloc: Global, count: usize, want: &[u8]) -> Result<bool, Memory> {
    let bytes = vec![in alloc; b'\n'; count]?;
    begins(alloc, &bytes, want)
}

/// The same of a head with so many fields.
fn wide_begins(alloc: Global, fields: usize, want: &[u8]) -> Result<bool, Memory> {
    let bytes = wide_head(alloc, fields)?;
    begins(alloc, &bytes, want)
}

/// The same of a request whose body has so many bytes as its head says.
fn sized_begins(alloc: Global, want: &[u8]) -> Result<bool, Memory> {
    let mut sized = Vec::from_slice(alloc, b"PUT /a HTTP/1.1\nContent-Length: 65536\n\n")?;
    fill(&mut sized, b'x', 65_536)?;
    begins(alloc, &sized, want)
}

#[test]
fn limits_are_kept_at_their_edge_and_one_above(rt: HostRuntime) -> Result<(), Fail> {
    let alloc = rt.alloc();
    let request = b"0 GET /a 1 1 false: \nend\n".as_slice();
    let large = b"0 head_too_large false\n".as_slice();
    assert!(rt; head_begins(alloc, 0, 16_384, request)?);
    assert!(rt; head_begins(alloc, 0, 16_385, large)?);
    assert!(rt; head_begins(alloc, 9, 16_384, request)?);
    assert!(rt; head_begins(alloc, 9, 16_385, large)?);
    assert!(rt; blank_begins(alloc, 16_383, b"end\n")?);
    assert!(rt; blank_begins(alloc, 16_384, large)?);
    assert!(rt; wide_begins(alloc, 64, b"0 GET /a 1 64 false: \nend\n")?);
    assert!(rt; wide_begins(alloc, 65, large)?);
    assert!(rt; sized_begins(alloc, b"0 PUT /a 1 1 false: xxx")?);
    Ok(())
}

/// A request with two chunks, which have as many bytes as a body may have, and what comes behind them.
fn full_chunks(alloc: Global, last: &[u8]) -> Result<Vec<u8>, Memory> {
    let mut chunked = Vec::from_slice(alloc, CHUNKED)?;
    chunked.extend_from_slice(b"ffff\r\n")?;
    fill(&mut chunked, b'x', 65_535)?;
    chunked.extend_from_slice(b"\r\n1\r\nx\r\n")?;
    chunked.extend_from_slice(last)?;
    Ok(chunked)
}

/// Whether its lines begin with this.
fn chunks_begin(alloc: Global, last: &[u8], want: &[u8]) -> Result<bool, Memory> {
    let bytes = full_chunks(alloc, last)?;
    begins(alloc, &bytes, want)
}

/// The same of a request with chunk lines of these lengths.
fn coding_begins(alloc: Global, lines: usize, last: usize, want: &[u8]) -> Result<bool, Memory> {
    let bytes = long_coding(alloc, lines, last)?;
    begins(alloc, &bytes, want)
}

/// The same of a request with trailers of this length.
fn trailers_begin(alloc: Global, size: usize, want: &[u8]) -> Result<bool, Memory> {
    let bytes = long_trailers(alloc, size)?;
    begins(alloc, &bytes, want)
}

#[test]
fn limits_of_chunks_are_kept_at_their_edge_and_one_above(rt: HostRuntime) -> Result<(), Fail> {
    let alloc = rt.alloc();
    let large = b"0 body_too_large false\n".as_slice();
    let bad = b"0 bad_length false\n".as_slice();
    assert!(rt; chunks_begin(alloc, b"0\r\n\r\n", b"0 PUT /a 1 1 false: xxx")?);
    assert!(rt; chunks_begin(alloc, b"1\r\n", large)?);
    assert!(rt; coding_begins(alloc, 0, 4_096, b"0 PUT /a 1 1 false: x\n")?);
    assert!(rt; coding_begins(alloc, 0, 4_097, bad)?);
    assert!(rt; trailers_begin(alloc, 4_096, b"0 PUT /a 1 1 false: \nend\n")?);
    assert!(rt; trailers_begin(alloc, 4_097, bad)?);
    assert!(rt; coding_begins(alloc, 127, 3_707, b"0 PUT /a 1 1 false: xxx")?);
    assert!(rt; coding_begins(alloc, 127, 3_708, large)?);
    Ok(())
}
