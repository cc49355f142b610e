//! Lists of purges, given in pieces of several sizes, also one that is longer than the buffer of replies.
ghost use Rattle.std.specs.Prelude.{◌≡◌, ◌<◌};

use crate::asks::asked;
use crate::replies::{Asked, HEAD, PLAIN, new_room};
use http_front::{Ask, Told, give_reply, write_body};
use hub_model::PurgeReply;
use q_base::{Memory, Moment};
use q_outside::{ListSink, Script};
use std::alloc::Global;
use std::marker::Brand;
use std::sync::ledger::{Blank, Ledger};
use std::test::Fail;

/// The sizes of the pieces in which a sink takes what it is given.
pub(crate) const SIZES: [usize; 4] = [1, 2, 7, WHOLE];

/// A size in which it takes all at once.
pub(crate) const WHOLE: usize = 1_000_000;

/// A call that is never made.
pub(crate) const NEVER: u64 = 1_000_000;

/// The head of the reply with two keys.
const TWO_HEAD: &[u8] =
    b"HTTP/1.1 200 OK\r\nDate: Thu, 01 Jan 1970 00:01:40 GMT\r\nContent-Type: application/json\r\nContent-Length: 88\r\nCache-Control: no-store\r\n\r\n";

/// Its body.
const TWO_BODY: &[u8] =
    b"{\"from\":2,\"front\":7,\"keys\":[\"r/shop/p1\",\"q/shop/ids/f=a = \\\"x\\\";o=;s=0;n=100\"],\"last\":3}";

/// The head of the reply with 1,000 keys.
const LONG_HEAD: &[u8] =
    b"HTTP/1.1 200 OK\r\nDate: Thu, 01 Jan 1970 00:01:40 GMT\r\nContent-Type: application/json\r\nContent-Length: 12041\r\nCache-Control: no-store\r\n\r\n";

/// Adds the key of the read that these bytes ask for.
fn add_key(alloc: Global, reply: &mut PurgeReply, bytes: &[u8]) -> Result<(), Memory> {
    let asked = asked(alloc, bytes)?;
    if let Ok(Ask::Read { key, .. }) = &*asked {
        reply.keys.push(key.clone()?)?;
    }
    Ok(())
}

/// Adds the first key again.
fn add_again(reply: &mut PurgeReply) -> Result<(), Memory> {
    if let Some(key) = reply.keys.as_slice().first() {
        let key = key.clone()?;
        reply.keys.push(key)?;
    }
    Ok(())
}

/// Purges without keys.
fn no_keys(alloc: Global, from: u64, last: u64, front: u64) -> PurgeReply {
    PurgeReply {
        from,
        last,
        front,
        clock: Moment::of(100),
        keys: Vec::new(alloc),
    }
}

/// Two purges from 2 on.
fn two_purges(alloc: Global) -> Result<Box<Told>, Memory> {
    let mut reply = no_keys(alloc, 2, 3, 7);
    add_key(
        alloc,
        &mut reply,
        b"GET /v1/d/shop/p1 HTTP/1.1\r\nHost: a\r\n\r\n",
    )?;
    add_key(
        alloc,
        &mut reply,
        b"GET /v1/q/shop?f=a+%3D+%22x%22&k=ids HTTP/1.1\r\nHost: a\r\n\r\n",
    )?;
    Ok(Box::new(alloc, Told::Purges(reply))?)
}

/// The first 1,000 of 1,500 purges.
fn many_purges(alloc: Global) -> Result<Box<Told>, Memory> {
    let mut reply = no_keys(alloc, 1, 1_500, 9);
    add_key(
        alloc,
        &mut reply,
        b"GET /v1/d/shop/p1 HTTP/1.1\r\nHost: a\r\n\r\n",
    )?;
    for _ in 1..1_000 {
        add_again(&mut reply)?;
    }
    Ok(Box::new(alloc, Told::Purges(reply))?)
}

/// The text of the body with these.
fn long_body(alloc: Global) -> Result<Vec<u8>, Memory> {
    let mut text = Vec::from_slice(alloc, b"{\"from\":1,\"front\":9,\"keys\":[")?;
    for _ in 1..1_000 {
        text.extend_from_slice(b"\"r/shop/p1\",")?;
    }
    text.extend_from_slice(b"\"r/shop/p1\"],\"last\":1500}")?;
    Ok(text)
}

/// One text behind another.
fn joined(alloc: Global, first: &[u8], second: &[u8]) -> Result<Vec<u8>, Memory> {
    let mut text = Vec::from_slice(alloc, first)?;
    text.extend_from_slice(second)?;
    Ok(text)
}

/// A sink that takes pieces of this size, and fails at this call.
fn sink_of<L: Ledger>(
    alloc: Global,
    size: usize,
    failing: u64,
    blank: Blank,
) -> Result<Box<ListSink<L>>, Memory>
    requires name { blank.name ≡ L.name }
    requires parts { blank.parts ≡ L.parts }
    requires some { 0 < L.parts }
{
    let calls = vec![in alloc; failing]?;
    let sizes = vec![in alloc; size]?;
    let sink = ListSink::<L>::new(alloc, 100_000, Script::of(calls, sizes), blank)?;
    Ok(Box::new(alloc, sink)?)
}

/// What a sink is given of a reply. It takes pieces of this size, and fails at this call.
pub(crate) fn reply_given(
    alloc: Global,
    told: &Told,
    asked: Asked,
    size: usize,
    failing: u64,
) -> Result<Vec<u8>, Memory> {
    reply_counted::<Brand>(alloc, told, asked, size, failing, Blank::new(1))
}

/// The same, of a sink whose faults are counted by this ledger.
fn reply_counted<L: Ledger>(
    alloc: Global,
    told: &Told,
    asked: Asked,
    size: usize,
    failing: u64,
    blank: Blank,
) -> Result<Vec<u8>, Memory>
    requires name { blank.name ≡ L.name }
    requires parts { blank.parts ≡ L.parts }
    requires some { 0 < L.parts }
{
    let mut room = new_room(alloc)?;
    let mut sink = sink_of::<L>(alloc, size, failing, blank)?;
    let _given = give_reply(&mut *sink, &mut room, &asked.shape(), told, b"", false);
    Ok(Vec::from_slice(alloc, &sink.bytes)?)
}

/// What a sink is given of the body alone.
pub(crate) fn body_given(alloc: Global, told: &Told) -> Result<Vec<u8>, Memory> {
    body_counted::<Brand>(alloc, told, Blank::new(1))
}

/// The same, of a sink whose faults are counted by this ledger.
fn body_counted<L: Ledger>(alloc: Global, told: &Told, blank: Blank) -> Result<Vec<u8>, Memory>
    requires name { blank.name ≡ L.name }
    requires parts { blank.parts ≡ L.parts }
    requires some { 0 < L.parts }
{
    let mut sink = sink_of::<L>(alloc, 7, NEVER, blank)?;
    let _given = write_body(&PLAIN.shape(), told, b"", &mut *sink);
    Ok(Vec::from_slice(alloc, &sink.bytes)?)
}

#[test]
fn purges_are_given_in_whatever_pieces(rt: HostRuntime) -> Result<(), Fail> {
    let told = two_purges(rt.alloc())?;
    let whole = joined(rt.alloc(), TWO_HEAD, TWO_BODY)?;
    for size in SIZES {
        assert_eq!(rt; reply_given(rt.alloc(), &told, PLAIN, size, NEVER)?, whole);
        assert_eq!(rt;
            reply_given(rt.alloc(), &told, HEAD, size, NEVER)?.as_slice(),
            TWO_HEAD
        );
    }
    assert_eq!(rt; body_given(rt.alloc(), &told)?.as_slice(), TWO_BODY);
    Ok(())
}

#[test]
fn a_short_list_of_purges_is_given_at_once(rt: HostRuntime) -> Result<(), Fail> {
    let told = two_purges(rt.alloc())?;
    let whole = joined(rt.alloc(), TWO_HEAD, TWO_BODY)?;
    assert_eq!(rt; reply_given(rt.alloc(), &told, PLAIN, WHOLE, 1)?, whole);
    Ok(())
}

#[test]
fn a_long_list_of_purges_passes_through_the_buffer(rt: HostRuntime) -> Result<(), Fail> {
    let told = many_purges(rt.alloc())?;
    let body = long_body(rt.alloc())?;
    let whole = joined(rt.alloc(), LONG_HEAD, &body)?;
    assert_eq!(rt; reply_given(rt.alloc(), &told, PLAIN, 7, NEVER)?, whole);
    // the buffer has 10,240 bytes, which are given first
    let part = reply_given(rt.alloc(), &told, PLAIN, WHOLE, 1)?;
    assert!(rt; part.len() > 10_000 && part.len() <= 10_240 && whole.starts_with(&part));
    assert_eq!(rt; body_given(rt.alloc(), &told)?, body);
    Ok(())
}
