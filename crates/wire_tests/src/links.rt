//! A link over bytes in memory: what it gives to its sink, and what it answers.
ghost use Rattle.std.specs.Prelude.{◌≡◌, ◌<◌};

use client_model::Reply;
use client_session::{ClientAsk, Link, LinkRefusal};
use client_wire::{WireLink, write_request};
use hub_model::Condition;
use q_base::{Name, Text};
use q_outside::{ListSink, PlainSource, Script};
use query_lang::read_key;
use query_normal::Key;
use std::alloc::Global;
use std::marker::Brand;
use std::sync::ledger::{Blank, Ledger};
use std::test::Fail;

/// The reply to the read of a record.
const REPLY: &[u8] = b"HTTP/1.1 200 OK\r\nDate: Thu, 01 Jan 1970 00:01:40 GMT\r\n\
Content-Type: application/json\r\nContent-Length: 7\r\nETag: \"1\"\r\nCache-Control: max-age=1\r\n\
Quaestor-Commit: 1\r\nQuaestor-Version: 1\r\nQuaestor-Until: 101\r\n\r\n{\"a\":1}";

/// The same without its commit.
const WITHOUT_COMMIT: &[u8] = b"HTTP/1.1 200 OK\r\nDate: Thu, 01 Jan 1970 00:01:40 GMT\r\n\
Content-Length: 2\r\nQuaestor-Version: 1\r\nQuaestor-Until: 101\r\n\r\n{}";

/// The request of the direct read of a record, of that for the page, and of a deletion.
const READ: &[u8] = b"GET /v1/d/shop/p1 HTTP/1.1\r\nHost: a\r\nCache-Control: no-cache\r\n\r\n";

const PAGE: &[u8] = b"GET /v1/filter HTTP/1.1\r\nHost: a\r\nCache-Control: no-cache\r\n\r\n";

const DELETION: &[u8] = b"DELETE /v1/d/shop/p1 HTTP/1.1\r\nHost: a\r\nIf-Match: *\r\n\r\n";

/// The text of a query's key, and the request of a read of it.
const QUERY_KEY: &[u8] = b"q/shop/objects/f=a = 1 and b = 2;o=;s=0;n=100";

const QUERY: &[u8] =
    b"GET /v1/q/shop?f=a%20%3D%201%20and%20b%20%3D%202&o=&s=0&n=100&k=objects HTTP/1.1\r\nHost: a\r\n\r\n";

/// The direct ask for the record `p1` of `shop`.
fn ask(alloc: Global) -> Result<ClientAsk, Fail> {
    let key = Key::record(
        alloc,
        Name::read(alloc, b"shop")?,
        Name::read(alloc, b"p1")?,
    )?;
    Ok(ClientAsk::Read {
        key,
        no_cache: true,
    })
}

/// What a direct read through a link came to.
#[derive(Drop)]
struct Told {
    reply: Result<Reply, LinkRefusal>,
    /// What the sink was given.
    given: Vec<u8>,
    bad_replies: u64,
}

/// A direct read through the link over these bytes, to the host `a`.
fn told_by(alloc: Global, bytes: &[u8]) -> Result<Told, Fail> {
    told_counted::<Brand>(alloc, bytes, Blank::new(1))
}

/// The same, over a sink whose faults are counted by this ledger.
fn told_counted<L: Ledger>(alloc: Global, bytes: &[u8], blank: Blank) -> Result<Told, Fail>
    requires name { blank.name ≡ L.name }
    requires parts { blank.parts ≡ L.parts }
    requires some { 0 < L.parts }
{
    let source = PlainSource::of(bytes.to_vec(alloc)?);
    let script = Script::of(Vec::new(alloc), Vec::new(alloc));
    let sink = ListSink::<L>::new(alloc, 1_000, script, blank)?;
    let host = Text::of(b"a".to_vec(alloc)?);
    let mut link = WireLink::new(alloc, source, sink, host);
    let reply = link.direct(&ask(alloc)?);
    let bad_replies = link.bad_replies;
    let (_, sink) = link.into_ends();
    Ok(Told {
        reply,
        given: sink.bytes,
        bad_replies,
    })
}

#[test]
fn requests_are_written_as_worked(rt: HostRuntime) -> Result<(), Fail> {
    let alloc = rt.alloc();
    let read = write_request(alloc, &ask(alloc)?, b"a")?;
    assert_eq!(rt; read.as_slice(), READ);
    let page = write_request(alloc, &ClientAsk::Page, b"a")?;
    assert_eq!(rt; page.as_slice(), PAGE);
    let deletion = ClientAsk::Delete {
        collection: Name::read(alloc, b"shop")?,
        id: Name::read(alloc, b"p1")?,
        condition: Condition::Present,
    };
    let deletion = write_request(alloc, &deletion, b"a")?;
    assert_eq!(rt; deletion.as_slice(), DELETION);
    Ok(())
}

#[test]
fn the_target_of_a_query_is_escaped(rt: HostRuntime) -> Result<(), Fail> {
    let alloc = rt.alloc();
    let Ok(key) = read_key(alloc, QUERY_KEY) else {
        return Err(Fail::from("no key"));
    };
    let ask = ClientAsk::Read {
        key,
        no_cache: false,
    };
    let read = write_request(alloc, &ask, b"a")?;
    assert_eq!(rt; read.as_slice(), QUERY);
    Ok(())
}

#[test]
fn a_reply_is_read_through_a_link(rt: HostRuntime) -> Result<(), Fail> {
    let alloc = rt.alloc();
    let told = told_by(alloc, REPLY)?;
    assert_eq!(rt; told.given.as_slice(), READ);
    let Ok(reply) = &told.reply else {
        return Err(Fail::from("no reply"));
    };
    assert_eq!(rt;
        (reply.status, reply.commit, reply.version),
        (200, 1, Some(1))
    );
    assert_eq!(rt;
        (reply.until, reply.tag, reply.max_age),
        (101, Some(1), Some(1))
    );
    assert_eq!(rt; reply.date.seconds(), 100);
    assert_eq!(rt; reply.body.as_slice(), b"{\"a\":1}".as_slice());
    Ok(())
}

#[test]
fn bad_replies_are_counted(rt: HostRuntime) -> Result<(), Fail> {
    let alloc = rt.alloc();
    let cases: [(&[u8], usize); 3] = [(b"", 0), (WITHOUT_COMMIT, 0), (&REPLY[..100], 100)];
    for (bytes, place) in &cases {
        let told = told_by(alloc, bytes)?;
        assert!(rt; matches!(&told.reply, Err(LinkRefusal::BadReply { place: at }) if at == place));
        assert_eq!(rt; told.bad_replies, 1);
    }
    Ok(())
}
