//! What no clause says: that a request is read into what it asks where there is memory. A function here
//! takes one step, and holds what is large in a box: each end of a function lets go of a value part by
//! part, which is long to prove, and of a box by one call.

use http_front::{
    ALL_ROUTES, Allow, Ask, DocumentReason, QueryField, QueryFields, Refused, Route, Routes,
    Served, ask_of, ask_to, fields_in,
};
use http_message::{RequestRoom, next_request};
use hub_model::{Condition, Tags};
use q_base::Memory;
use q_doc::ReadBuffer;
use q_outside::{EndlessSink, PlainSource};
use std::alloc::Global;
use std::process::Abort;
use std::test::Fail;

/// What a request asks, or its refusal.
pub(crate) type Asked = Result<Ask, Refused>;

/// Room for requests.
pub(crate) fn new_room(alloc: Global) -> Result<Box<RequestRoom>, Memory> {
    Ok(Box::new(alloc, RequestRoom::new(alloc)?)?)
}

/// Takes the first item of these bytes into a room.
fn take_first(alloc: Global, bytes: &[u8], room: &mut RequestRoom) -> Result<(), Memory> {
    let mut source = PlainSource::of(Vec::from_slice(alloc, bytes)?);
    let mut sink = EndlessSink;
    room.clear();
    let _taken = next_request(&mut source, &mut sink, room);
    Ok(())
}

/// A room with the request of these bytes.
fn room_of(alloc: Global, bytes: &[u8]) -> Result<Box<RequestRoom>, Memory> {
    let mut room = new_room(alloc)?;
    take_first(alloc, bytes, &mut room)?;
    Ok(room)
}

/// What the request in a room asks.
fn asked_in(alloc: Global, room: &RequestRoom, routes: &Routes) -> Result<Box<Asked>, Memory> {
    let asked = ask_of(alloc, &room.request(), routes, &mut ReadBuffer::new(alloc))?;
    Ok(Box::new(alloc, asked)?)
}

/// What the request of these bytes asks, where these routes are served.
fn asked_of(alloc: Global, bytes: &[u8], routes: &Routes) -> Result<Box<Asked>, Memory> {
    let room = room_of(alloc, bytes)?;
    asked_in(alloc, &room, routes)
}

/// All routes.
fn all_routes(alloc: Global) -> Result<Box<Routes>, Memory> {
    Ok(Box::new(alloc, Routes::new(alloc)?)?)
}

/// What the request of these bytes asks.
pub(crate) fn asked(alloc: Global, bytes: &[u8]) -> Result<Box<Asked>, Memory> {
    let routes = all_routes(alloc)?;
    asked_of(alloc, bytes, &routes)
}

/// The refusal, if it is one.
fn refusal_in(asked: &Asked) -> Option<Refused> {
    match asked {
        Ok(_) => None,
        Err(refused) => Some(*refused),
    }
}

/// The refusal of the request of these bytes.
fn refusal_of(alloc: Global, bytes: &[u8]) -> Result<Option<Refused>, Memory> {
    let asked = asked(alloc, bytes)?;
    Ok(refusal_in(&asked))
}

/// Checks that the request of these bytes is refused so.
pub(crate) fn refuses(
    rt: &impl Abort,
    alloc: Global,
    bytes: &[u8],
    wanted: Refused,
) -> Result<(), Memory> {
    assert_eq!(rt; refusal_of(alloc, bytes)?, Some(wanted));
    Ok(())
}

#[test]
fn the_first_cause_is_answered(rt: HostRuntime) -> Result<(), Fail> {
    let cases: [(&[u8], Refused); 17] = [
        (b"GET * HTTP/1.1\r\n\r\n", Refused::BadHost),
        (
            b"GET /v2 HTTP/1.1\r\nHost: a\r\nHost: b\r\n\r\n",
            Refused::BadHost,
        ),
        (b"GET * HTTP/1.1\r\nHost: a\r\n\r\n", Refused::BadTarget),
        (b"GET /v2 HTTP/1.1\r\nHost: a\r\n\r\n", Refused::NoRoute),
        (
            b"POST /v1/d/shop/Tea?x HTTP/1.1\r\nHost: a\r\n\r\n",
            Refused::BadMethod(Allow::Record),
        ),
        (
            b"PUT /v1/match HTTP/1.1\r\nHost: a\r\nContent-Length: 0\r\n\r\n",
            Refused::BadMethod(Allow::Post),
        ),
        (
            b"GET /v1/horizon HTTP/1.1\r\nHost: a\r\n\r\n",
            Refused::BadMethod(Allow::Post),
        ),
        (
            b"POST /v1/horizon?to=1 HTTP/1.1\r\nHost: a\r\n\r\n",
            Refused::BadTarget,
        ),
        (
            b"DELETE /v1/stats HTTP/1.1\r\nHost: a\r\n\r\n",
            Refused::BadMethod(Allow::Other),
        ),
        (
            b"PUT /v1/d/shop/Tea HTTP/1.1\r\nHost: a\r\n\r\n",
            Refused::BadTarget,
        ),
        (
            b"GET /v1/stats? HTTP/1.1\r\nHost: a\r\n\r\n",
            Refused::BadTarget,
        ),
        (
            b"GET /v1/q/shop?f=a+%3D+1&o=&f= HTTP/1.1\r\nHost: a\r\n\r\n",
            Refused::BadTarget,
        ),
        (
            b"PUT /v1/d/shop/p1 HTTP/1.1\r\nHost: a\r\nIf-Match: x\r\n\r\n",
            Refused::NoLength,
        ),
        (
            b"PUT /v1/d/shop/p1 HTTP/1.1\r\nHost: a\r\nContent-Encoding: gzip\r\nIf-Match: x\r\nContent-Length: 2\r\n\r\n{}",
            Refused::BadEncoding,
        ),
        (
            b"PUT /v1/d/shop/p1 HTTP/1.1\r\nHost: a\r\nIf-Match: x\r\nContent-Length: 1\r\n\r\n{",
            Refused::BadTag,
        ),
        (
            b"GET /v1/d/shop/p1 HTTP/1.1\r\nHost: a\r\nIf-None-Match: 1\r\n\r\n",
            Refused::BadTag,
        ),
        (
            b"PUT /v1/d/shop/p1 HTTP/1.1\r\nHost: a\r\nContent-Length: 9\r\n\r\n{\"a\":1.5}",
            Refused::BadDocument(DocumentReason::NotWhole),
        ),
    ];
    for (bytes, wanted) in cases {
        refuses(&rt, rt.alloc(), bytes, wanted)?;
    }
    Ok(())
}

/// What the request in a room asks of the hosts that a text names.
fn asked_of_hosts(
    alloc: Global,
    room: &RequestRoom,
    hosts: &[u8],
    routes: &Routes,
) -> Result<Box<Asked>, Memory> {
    let asked = ask_to(
        alloc,
        hosts,
        &room.request(),
        routes,
        &mut ReadBuffer::new(alloc),
    )?;
    Ok(Box::new(alloc, asked)?)
}

/// The refusal of the request of these bytes, where these hosts are named.
fn refusal_for(alloc: Global, bytes: &[u8], hosts: &[u8]) -> Result<Option<Refused>, Memory> {
    let room = room_of(alloc, bytes)?;
    let routes = all_routes(alloc)?;
    let asked = asked_of_hosts(alloc, &room, hosts, &routes)?;
    Ok(refusal_in(&asked))
}

/// The hosts that are named.
const HOSTS: &[u8] = b"shop.example desk.example:8080 [::1]";

#[test]
fn a_request_for_another_host_is_misdirected(rt: HostRuntime) -> Result<(), Fail> {
    let other = Some(Refused::Misdirected);
    let cases: [(&[u8], &[u8], Option<Refused>); 19] = [
        (
            HOSTS,
            b"GET /v1/stats HTTP/1.1\r\nHost: shop.example\r\n\r\n",
            None,
        ),
        (
            HOSTS,
            b"GET /v1/stats HTTP/1.1\r\nHost: SHOP.Example:80\r\n\r\n",
            None,
        ),
        (
            HOSTS,
            b"GET /v1/stats HTTP/1.1\r\nHost: shop.example:\r\n\r\n",
            None,
        ),
        (
            HOSTS,
            b"GET /v1/stats HTTP/1.1\r\nHost: desk.example:8080\r\n\r\n",
            None,
        ),
        (
            HOSTS,
            b"GET /v1/stats HTTP/1.1\r\nHost: [::1]:8080\r\n\r\n",
            None,
        ),
        (
            HOSTS,
            b"GET /v1/stats HTTP/1.0\r\nHost: shop.example\r\n\r\n",
            None,
        ),
        (
            HOSTS,
            b"GET /v1/stats HTTP/1.1\r\nHost: desk.example\r\n\r\n",
            other,
        ),
        (
            HOSTS,
            b"GET /v1/stats HTTP/1.1\r\nHost: desk.example:80\r\n\r\n",
            other,
        ),
        (
            HOSTS,
            b"GET /v1/stats HTTP/1.1\r\nHost: shop.example.evil\r\n\r\n",
            other,
        ),
        (
            HOSTS,
            b"GET /v1/stats HTTP/1.1\r\nHost: my.shop.example\r\n\r\n",
            other,
        ),
        (
            HOSTS,
            b"GET /v1/stats HTTP/1.1\r\nHost: shop.example:80a\r\n\r\n",
            other,
        ),
        (HOSTS, b"GET /v1/stats HTTP/1.1\r\nHost:\r\n\r\n", other),
        (HOSTS, b"GET /v1/stats HTTP/1.0\r\n\r\n", other),
        (
            HOSTS,
            b"HEAD /v2 HTTP/1.1\r\nHost: evil.example\r\n\r\n",
            other,
        ),
        (
            HOSTS,
            b"OPTIONS /v1/match HTTP/1.1\r\nHost: evil.example\r\n\r\n",
            other,
        ),
        (
            HOSTS,
            b"PUT /v1/d/shop/p1 HTTP/1.1\r\nHost: evil.example\r\nIf-Match: x\r\nContent-Length: 2\r\n\r\n{}",
            other,
        ),
        (
            HOSTS,
            b"GET /v1/stats HTTP/1.1\r\n\r\n",
            Some(Refused::BadHost),
        ),
        (
            b"",
            b"GET /v1/stats HTTP/1.1\r\nHost: evil.example\r\n\r\n",
            None,
        ),
        (b"", b"GET /v1/stats HTTP/1.0\r\n\r\n", None),
    ];
    for (hosts, bytes, wanted) in cases {
        assert_eq!(rt; refusal_for(rt.alloc(), bytes, hosts)?, wanted);
    }
    Ok(())
}

/// Whether it is a put to `shop` whose condition lists these commits.
fn is_put_after(asked: &Asked, wanted: &[u64]) -> bool {
    let Ok(Ask::Write { change, condition }) = asked else {
        return false;
    };
    let Condition::Unchanged(Tags::Listed(commits)) = condition else {
        return false;
    };
    change.collection.as_slice() == b"shop".as_slice()
        && change.document.is_some()
        && commits.as_slice() == wanted
}

#[test]
fn the_first_16_strong_tags_that_name_a_commit_count(rt: HostRuntime) -> Result<(), Fail> {
    let bytes =
        b"PUT /v1/d/sh%6Fp/p1 HTTP/1.1\r\nHost: a\r\nContent-Length: 2\r\nIf-Match: W/\"99\", \"a,b\", \"01\"\r\nIf-Match: \"1\",\"2\",\"3\",\"4\",\"5\",\"6\",\"7\",\"8\",\"9\",\"10\",\"11\",\"12\",\"13\",\"14\",\"15\",\"16\",\"17\"\r\n\r\n{}";
    let put = asked(rt.alloc(), bytes)?;
    let wanted: [u64; 16] = [1, 2, 3, 4, 5, 6, 7, 8, 9, 10, 11, 12, 13, 14, 15, 16];
    assert!(rt; is_put_after(&put, &wanted));
    Ok(())
}

/// Whether it is a read of a caller who knows the results of these commits.
fn is_read_after(asked: &Asked, wanted: &[u64]) -> bool {
    match asked {
        Ok(
            Ask::Read {
                tags: Tags::Listed(commits),
                ..
            },
        ) => commits.as_slice() == wanted,
        _ => false,
    }
}

#[test]
fn a_read_keeps_the_tags_that_its_caller_knows(rt: HostRuntime) -> Result<(), Fail> {
    let read = asked(
        rt.alloc(),
        b"GET /v1/d/shop/p1 HTTP/1.1\r\nHost: a\r\nIf-None-Match: \"3\", W/\"5\"\r\nIf-None-Match: \"x\"\r\n\r\n",
    )?;
    assert!(rt; is_read_after(&read, &[3, 5]));
    Ok(())
}

/// What a caller asks, in words; the first that holds.
fn words_for(asked: &Asked) -> &'static str {
    match asked {
        Ok(
            Ask::Read {
                tags: Tags::Any,
                head: true,
                ..
            },
        ) => "the head of what is read, whatever is known",
        Ok(Ask::Read { head: true, .. }) => "the head of what is read",
        Ok(
            Ask::Write {
                condition: Condition::Always,
                ..
            },
        ) => "a write in any case",
        Ok(Ask::Fetch { head: false }) => "the page",
        Ok(Ask::MatchAll) => "a match",
        Ok(Ask::Horizon) => "a drop",
        Ok(Ask::Stats { head: false }) => "the numbers",
        _ => "another",
    }
}

/// What the request of these bytes asks, in words.
fn words_of(alloc: Global, bytes: &[u8]) -> Result<&'static str, Memory> {
    let asked = asked(alloc, bytes)?;
    Ok(words_for(&asked))
}

#[test]
fn each_call_is_asked(rt: HostRuntime) -> Result<(), Fail> {
    let cases: [(&[u8], &str); 7] = [
        (
            b"HEAD /v1/q/shop HTTP/1.1\r\nHost: a\r\nIf-None-Match: *\r\n\r\n",
            "the head of what is read, whatever is known",
        ),
        (
            b"HEAD /v1/d/shop/p1 HTTP/1.1\r\nHost: a\r\nIf-Match: \"7\"\r\n\r\n",
            "the head of what is read",
        ),
        (
            b"DELETE /v1/d/shop/p1 HTTP/1.1\r\nHost: a\r\n\r\n",
            "a write in any case",
        ),
        (
            b"GET http://b/v1/filter HTTP/1.1\r\nHost: a\r\n\r\n",
            "the page",
        ),
        (b"POST /v1/match HTTP/1.0\r\n\r\n", "a match"),
        (b"POST /v1/horizon HTTP/1.0\r\n\r\n", "a drop"),
        (b"GET /v1/stats HTTP/1.1\r\nHost: a\r\n\r\n", "the numbers"),
    ];
    for (bytes, wanted) in cases {
        assert_eq!(rt; words_of(rt.alloc(), bytes)?, wanted);
    }
    Ok(())
}

/// Whether they are the filter `a = 1` and the order `-year`.
fn are_filter_and_order(fields: &QueryFields) -> bool {
    let values = fields.as_slice();
    values.len() == 2
        && values[0].field() == QueryField::Filter
        && values[0].value() == "a = 1"
        && values[1].field() == QueryField::Order
        && values[1].value() == "-year"
        && fields.value_of(QueryField::Order) == Some("-year")
        && fields.value_of(QueryField::Skip).is_none()
}

/// Whether this text of a query has that filter and that order.
fn has_filter_and_order(alloc: Global, query: &[u8]) -> Result<bool, Memory> {
    match fields_in(alloc, Route::Query, Some(query))? {
        Some(fields) => Ok(are_filter_and_order(&fields)),
        None => Ok(false),
    }
}

#[test]
fn the_fields_of_a_query_are_decoded(rt: HostRuntime) -> Result<(), Fail> {
    assert!(rt; has_filter_and_order(rt.alloc(), b"f=a+%3D+1&o=%2Dyear")?);
    Ok(())
}

/// Whether purges from this number on are asked for, or the head of the reply alone.
fn is_for_purges(asked: &Asked, start: u64, to_head: bool) -> bool {
    match asked {
        Ok(Ask::Purges { from, head }) => *from == start && *head == to_head,
        _ => false,
    }
}

#[test]
fn purges_are_asked_for_from_a_number_on(rt: HostRuntime) -> Result<(), Fail> {
    let cases: [(&[u8], u64, bool); 3] = [
        (b"GET /v1/purges HTTP/1.1\r\nHost: a\r\n\r\n", 1, false),
        (
            b"HEAD /v1/purges?from=7 HTTP/1.1\r\nHost: a\r\n\r\n",
            7,
            true,
        ),
        (
            b"GET /v1/purges?from=%39223372036854775808 HTTP/1.1\r\nHost: a\r\n\r\n",
            9_223_372_036_854_775_808,
            false,
        ),
    ];
    for (bytes, start, to_head) in cases {
        let purges = asked(rt.alloc(), bytes)?;
        assert!(rt; is_for_purges(&purges, start, to_head));
    }
    Ok(())
}

/// The routes without that of records.
fn other_routes(alloc: Global) -> Result<Box<Routes>, Memory> {
    let served = Served {
        records: false,
        ..ALL_ROUTES
    };
    Ok(Box::new(alloc, Routes::of(alloc, served)?)?)
}

/// The refusal of a request for a record where these routes are served.
fn refusal_of_record(alloc: Global, routes: &Routes) -> Result<Option<Refused>, Memory> {
    let bytes = b"GET /v1/d/shop/p1 HTTP/1.1\r\nHost: a\r\n\r\n";
    let asked = asked_of(alloc, bytes, routes)?;
    Ok(refusal_in(&asked))
}

#[test]
fn a_part_of_the_routes_is_served(rt: HostRuntime) -> Result<(), Fail> {
    let routes = other_routes(rt.alloc())?;
    assert_eq!(rt;
        refusal_of_record(rt.alloc(), &routes)?,
        Some(Refused::NoRoute)
    );
    Ok(())
}
