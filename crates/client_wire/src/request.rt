//! The text of a client's request.
ghost use Rattle.std.specs.Prelude.{◌≡◌, ◌++◌, ◌<◌, true, IfOk, OnOk, codes, decimal};
ghost use Rattle.std.specs.List.{join_by};
ghost use Rattle.query_normal.specs.Keys.{kind_text};
ghost use Rattle.client_wire.specs.Requests.{is_unreserved, upper_digit, escaped_byte, escaped, record_target, filter_part, order_part, window_part, kind_part, target_of, host_part, beginning, no_cache_field, tag_text, condition_field, length_part, head_text, body_of, request_text};

use client_session::ClientAsk;
use hub_model::{Condition, Tags};
use itoa::Buffer;
use q_base::{Commit, Memory, Name, Text};
use query_core::{Kind, Query, print_filter, print_order};
use query_normal::{Key, KeyShape};
use std::alloc::{AllocError, Global};

/// The text of a request to a host.
pub fn write_request(alloc: Global, ask: &ClientAsk, host: &[u8]) -> Result<Text, Memory>
    ensures { IfOk result (λ text. text ≡ request_text ask.now host.now) }
{
    let body = body_of(ask);
    let mut text = Vec::with_capacity(alloc, body.len().saturating_add(room_for(host)))?;
    put_head(alloc, &mut text, ask, host)?;
    text.extend_from_slice(body)?;
    Ok(Text::of(text))
}

/// The head of a request, behind which its body is to be given.
pub(crate) fn write_head(alloc: Global, ask: &ClientAsk, host: &[u8]) -> Result<Text, Memory>
    ensures { IfOk result (λ head. head ≡ head_text ask.now host.now) }
{
    let mut head = Vec::with_capacity(alloc, room_for(host))?;
    put_head(alloc, &mut head, ask, host)?;
    Ok(Text::of(head))
}

/// The body of a request, where it lies.
pub(crate) fn body_of(ask: &ClientAsk) -> &[u8]
    ensures { result.now ≡ body_of ask.now }
{
    match ask {
        ClientAsk::Put { text, .. } => text.as_slice(),
        _ => b"",
    }
}

/// The number of bytes that are reserved for a head. That of a record's request fits, but for one that
/// names many commits.
fn room_for(host: &[u8]) -> usize {
    host.len().saturating_add(288)
}

/// Puts the head of a request behind what stands.
#[tactic(auto, unfolding(crate::specs::Requests::head_text))]
fn put_head(alloc: Global, out: &mut Vec<u8>, ask: &ClientAsk, host: &[u8]) -> Result<(), Memory>
    ensures { OnOk result (out.new.items ≡ out.old.items ++ head_text ask.now host.now) }
{
    match ask {
        ClientAsk::Read { key, no_cache } => put_read(alloc, out, key, *no_cache, host),
        ClientAsk::Page => Ok(put_page(out, host)?),
        ClientAsk::Put {
            collection,
            id,
            text,
            condition,
        } => Ok(put_write(out, collection, id, text.as_slice().len(), condition, host)?),
        ClientAsk::Delete {
            collection,
            id,
            condition,
        } => Ok(put_deletion(out, collection, id, condition, host)?),
    }
}

/// Asks for the result of a key.
fn put_read(
    alloc: Global,
    out: &mut Vec<u8>,
    key: &Key,
    no_cache: bool,
    host: &[u8],
) -> Result<(), Memory>
    ensures { OnOk result (out.new.items ≡ out.old.items ++ (beginning (codes "GET") (target_of key.now) host.now ++ no_cache_field no_cache ++ codes "\r\n")) }
{
    out.extend_from_slice(b"GET ")?;
    put_target(alloc, out, key)?;
    put_host(out, host)?;
    put_no_cache(out, no_cache)?;
    out.extend_from_slice(b"\r\n")?;
    Ok(())
}

/// Asks for the page.
fn put_page(out: &mut Vec<u8>, host: &[u8]) -> Result<(), AllocError>
    ensures { OnOk result (out.new.items ≡ out.old.items ++ (beginning (codes "GET") (codes "/v1/filter") host.now ++ no_cache_field true ++ codes "\r\n")) }
{
    out.extend_from_slice(b"GET /v1/filter")?;
    put_host(out, host)?;
    put_no_cache(out, true)?;
    out.extend_from_slice(b"\r\n")?;
    Ok(())
}

/// Asks that a record gets a document of this many bytes.
fn put_write(
    out: &mut Vec<u8>,
    collection: &Name,
    id: &Name,
    size: usize,
    condition: &Condition,
    host: &[u8],
) -> Result<(), AllocError>
    ensures { OnOk result (out.new.items ≡ out.old.items ++ (beginning (codes "PUT") (record_target collection.now id.now) host.now ++ condition_field condition.now ++ length_part size)) }
{
    out.extend_from_slice(b"PUT ")?;
    put_record_target(out, collection, id)?;
    put_host(out, host)?;
    put_condition(out, condition)?;
    put_length(out, size as u64)?;
    Ok(())
}

/// The length of a body, and the end of the head.
fn put_length(out: &mut Vec<u8>, size: u64) -> Result<(), AllocError>
    ensures { OnOk result (out.new.items ≡ out.old.items ++ length_part size) }
{
    out.extend_from_slice(b"Content-Length: ")?;
    put_number(out, size)?;
    out.extend_from_slice(b"\r\n\r\n")?;
    Ok(())
}

/// Asks that a record is deleted.
fn put_deletion(
    out: &mut Vec<u8>,
    collection: &Name,
    id: &Name,
    asked: &Condition,
    host: &[u8],
) -> Result<(), AllocError>
    ensures { OnOk result (out.new.items ≡ out.old.items ++ (beginning (codes "DELETE") (record_target collection.now id.now) host.now ++ condition_field asked.now ++ codes "\r\n")) }
{
    out.extend_from_slice(b"DELETE ")?;
    put_record_target(out, collection, id)?;
    put_host(out, host)?;
    put_condition(out, asked)?;
    out.extend_from_slice(b"\r\n")?;
    Ok(())
}

/// The end of the request line, and the field Host.
fn put_host(out: &mut Vec<u8>, host: &[u8]) -> Result<(), AllocError>
    ensures { OnOk result (out.new.items ≡ out.old.items ++ host_part host.now) }
{
    out.extend_from_slice(b" HTTP/1.1\r\nHost: ")?;
    out.extend_from_slice(host)?;
    out.extend_from_slice(b"\r\n")?;
    Ok(())
}

/// Says that caches are to ask the server, where they are (RFC 9111, section 5.2.1.4).
fn put_no_cache(out: &mut Vec<u8>, no_cache: bool) -> Result<(), AllocError>
    ensures { OnOk result (out.new.items ≡ out.old.items ++ no_cache_field no_cache) }
{
    if no_cache {
        return out.extend_from_slice(b"Cache-Control: no-cache\r\n");
    }
    Ok(())
}

/// The target of a key.
fn put_target(alloc: Global, out: &mut Vec<u8>, key: &Key) -> Result<(), Memory>
    ensures { OnOk result (out.new.items ≡ out.old.items ++ target_of key.now) }
{
    match key.shape() {
        KeyShape::Record { collection, id } => {
            put_record_target(out, collection, id)?;
            Ok(())
        }
        KeyShape::Query { kind, normal } => put_query_target(alloc, out, *kind, normal.query()),
    }
}

/// The target of a record.
fn put_record_target(out: &mut Vec<u8>, collection: &Name, id: &Name) -> Result<(), AllocError>
    ensures { OnOk result (out.new.items ≡ out.old.items ++ record_target collection.now id.now) }
{
    out.extend_from_slice(b"/v1/d/")?;
    out.extend_from_slice(collection.as_slice())?;
    out.extend_from_slice(b"/")?;
    out.extend_from_slice(id.as_slice())?;
    Ok(())
}

/// The target of a query.
fn put_query_target(
    alloc: Global,
    out: &mut Vec<u8>,
    kind: Kind,
    query: &Query,
) -> Result<(), Memory>
    ensures { OnOk result (out.new.items ≡ out.old.items ++ (filter_part query.now ++ order_part query.now ++ window_part query.now ++ kind_part kind)) }
{
    put_filter(alloc, out, query)?;
    put_order(alloc, out, query)?;
    put_window(out, query)?;
    put_kind(out, kind)?;
    Ok(())
}

/// The target of a query up to its filter.
fn put_filter(alloc: Global, out: &mut Vec<u8>, query: &Query) -> Result<(), Memory>
    ensures { OnOk result (out.new.items ≡ out.old.items ++ filter_part query.now) }
{
    let filter = print_filter(alloc, &query.filter)?;
    out.extend_from_slice(b"/v1/q/")?;
    out.extend_from_slice(query.collection.as_slice())?;
    out.extend_from_slice(b"?f=")?;
    put_escaped(out, filter.as_slice())?;
    Ok(())
}

/// The order of a query.
fn put_order(alloc: Global, out: &mut Vec<u8>, query: &Query) -> Result<(), Memory>
    ensures { OnOk result (out.new.items ≡ out.old.items ++ order_part query.now) }
{
    let order = print_order(alloc, &query.order)?;
    out.extend_from_slice(b"&o=")?;
    put_escaped(out, order.as_slice())?;
    Ok(())
}

/// How many rows a query passes over, and how many it takes.
fn put_window(out: &mut Vec<u8>, query: &Query) -> Result<(), AllocError>
    ensures { OnOk result (out.new.items ≡ out.old.items ++ window_part query.now) }
{
    out.extend_from_slice(b"&s=")?;
    put_number(out, u64::from(query.skip))?;
    out.extend_from_slice(b"&n=")?;
    put_number(out, u64::from(query.take))?;
    Ok(())
}

/// What the result of a query shows of its rows.
#[tactic(auto, unfolding(crate::specs::Requests::kind_part))]
fn put_kind(out: &mut Vec<u8>, kind: Kind) -> Result<(), AllocError>
    ensures { OnOk result (out.new.items ≡ out.old.items ++ kind_part kind) }
{
    out.extend_from_slice(b"&k=")?;
    out.extend_from_slice(kind_text(kind))?;
    Ok(())
}

/// The word of a kind.
fn kind_text(kind: Kind) -> &'static [u8]
    ensures { result.now ≡ kind_text kind }
{
    match kind {
        Kind::Objects => b"objects",
        Kind::Ids => b"ids",
    }
}

/// A text of a query, whose bytes are escaped where they do not stand for themselves.
fn put_escaped(out: &mut Vec<u8>, text: &[u8]) -> Result<(), AllocError>
    ensures { OnOk result (out.new.items ≡ out.old.items ++ escaped text.now) }
{
    for byte in text {
        put_byte(out, *byte)?;
    }
    Ok(())
}

/// A byte of it.
fn put_byte(out: &mut Vec<u8>, byte: u8) -> Result<(), AllocError>
    ensures { OnOk result (out.new.items ≡ out.old.items ++ escaped_byte byte) }
{
    if is_unreserved(byte) {
        out.push(byte)?;
        return Ok(());
    }
    let escape = [b'%', upper_digit(byte / 16), upper_digit(byte % 16)];
    out.extend_from_slice(&escape)
}

/// Whether a byte stands for itself.
fn is_unreserved(byte: u8) -> bool
    ensures { result ≡ is_unreserved byte }
{
    byte.is_ascii_alphanumeric() || byte == b'-' || byte == b'.' || byte == b'_' || byte == b'~'
}

/// A hexadecimal digit, in upper case.
fn upper_digit(value: u8) -> u8
    requires { value < 16 }
    ensures { result ≡ upper_digit value }
{
    if value < 10 { b'0' + value } else { 55 + value }
}

/// The field of a condition, where it has one.
fn put_condition(out: &mut Vec<u8>, condition: &Condition) -> Result<(), AllocError>
    ensures { OnOk result (out.new.items ≡ out.old.items ++ condition_field condition.now) }
{
    match condition {
        Condition::Always => Ok(()),
        Condition::Present => out.extend_from_slice(b"If-Match: *\r\n"),
        Condition::Absent => out.extend_from_slice(b"If-None-Match: *\r\n"),
        Condition::Unchanged(Tags::Any) => out.extend_from_slice(b"If-Match: *\r\n"),
        Condition::Unchanged(Tags::Listed(commits)) => put_tags(out, commits.as_slice()),
    }
}

/// The field of a condition that names commits.
fn put_tags(out: &mut Vec<u8>, commits: &[Commit]) -> Result<(), AllocError>
    ensures { OnOk result (out.new.items ≡ out.old.items ++ (codes "If-Match: " ++ join_by tag_text (codes ", ") commits.now ++ codes "\r\n")) }
{
    out.extend_from_slice(b"If-Match: ")?;
    put_tag_list(out, commits)?;
    out.extend_from_slice(b"\r\n")
}

/// The tags of these commits, parted by commas.
fn put_tag_list(out: &mut Vec<u8>, commits: &[Commit]) -> Result<(), AllocError>
    ensures { OnOk result (out.new.items ≡ out.old.items ++ join_by tag_text (codes ", ") commits.now) }
{
    let Some((first, rest)) = commits.split_first() else {
        return Ok(());
    };
    put_tag(out, *first)?;
    for commit in rest {
        out.extend_from_slice(b", ")?;
        put_tag(out, *commit)?;
    }
    Ok(())
}

/// The entity tag that names a commit.
fn put_tag(out: &mut Vec<u8>, commit: Commit) -> Result<(), AllocError>
    ensures { OnOk result (out.new.items ≡ out.old.items ++ tag_text commit) }
{
    out.push(b'"')?;
    put_number(out, commit)?;
    out.push(b'"')?;
    Ok(())
}

/// A decimal number.
fn put_number(out: &mut Vec<u8>, number: u64) -> Result<(), AllocError>
    ensures { OnOk result (out.new.items ≡ out.old.items ++ decimal number) }
{
    let mut buffer = Buffer::new();
    out.extend_from_slice(buffer.format(number).as_bytes())
}
