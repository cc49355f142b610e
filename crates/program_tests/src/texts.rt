//! What is put in, and what is to come out.

use crate::worked::PAGE_HEAD;
use itoa::Buffer;
use q_base::Memory;
use std::alloc::Global;

/// A request, and what its reply has before the date, between the length and the body, and as the body.
pub(crate) type Row<'a> = (&'a [u8], &'a [u8], &'a [u8], &'a [u8]);

/// One text behind another.
pub(crate) fn joined(alloc: Global, first: &[u8], second: &[u8]) -> Result<Vec<u8>, Memory> {
    let mut both = Vec::from_slice(alloc, first)?;
    both.extend_from_slice(second)?;
    Ok(both)
}

/// Texts one behind another.
pub(crate) fn all_of(alloc: Global, texts: &[&[u8]]) -> Result<Vec<u8>, Memory> {
    let mut all = Vec::new(alloc);
    for text in texts {
        all.extend_from_slice(text)?;
    }
    Ok(all)
}

/// The reply to a fetch at the moment 100, with these bits.
pub(crate) fn page_of(
    alloc: Global,
    front: u8,
    commits: u8,
    places: &[usize],
) -> Result<Vec<u8>, Memory> {
    let mut reply = joined(alloc, PAGE_HEAD, b"QSF1\x06\x11")?;
    for number in [front, commits, 100] {
        reply.extend_from_slice(&[0, 0, 0, 0, 0, 0, 0, number])?;
    }
    let mut bits = vec![in alloc; 0u8; 16_384]?;
    for place in places {
        if let Some(byte) = bits.get_mut(*place / 8) {
            *byte |= 1u8 << (*place % 8);
        }
    }
    reply.extend_from_slice(&bits)?;
    Ok(reply)
}

/// The text as often as this, one behind another.
pub(crate) fn repeated(alloc: Global, text: &[u8], times: usize) -> Result<Vec<u8>, Memory> {
    let mut all = Vec::new(alloc);
    for _ in 0..times {
        all.extend_from_slice(text)?;
    }
    Ok(all)
}

/// The reply of a row, at the moment 100. One to HEAD has no body.
pub(crate) fn reply_of(alloc: Global, row: &Row<'_>) -> Result<Vec<u8>, Memory> {
    let (request, begin, fields, body) = *row;
    let mut digits = Buffer::new();
    let texts = [
        begin,
        b"\r\nDate: Thu, 01 Jan 1970 00:01:40 GMT\r\nContent-Type: application/json\r\nContent-Length: ",
        digits.format(body.len()).as_bytes(),
        b"\r\n",
        fields,
        b"\r\n",
        if request.starts_with(b"HEAD ") {
            b""
        } else {
            body
        },
    ];
    all_of(alloc, &texts)
}
