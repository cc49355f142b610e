//! Caches: that calls succeed where there is memory, and worked moments, whose answers come from the rules of
//! freshness, not from the program.
use cache_model::{Answer, Cache, Lookup, Manner};
use client_model::Reply;
use q_base::{Moment, Name, SharedText};
use query_normal::Key;
use std::alloc::Global;
use std::test::Fail;

/// The key of a record of the collection shop.
fn key_of(alloc: Global, id: &[u8]) -> Result<Key, Fail> {
    let collection = Name::read(alloc, b"shop")?;
    let id = Name::read(alloc, id)?;
    Ok(Key::record(alloc, collection, id)?)
}

/// A reply of this status and commit, made at a moment, with a lifetime; its tag is its commit.
fn reply_of(
    alloc: Global,
    status: u16,
    commit: u64,
    date: u64,
    max_age: Option<u32>,
) -> Result<Reply, Fail> {
    Ok(Reply {
        status,
        commit,
        version: Some(1),
        until: 0,
        date: Moment::of(date),
        max_age,
        tag: Some(commit),
        body: SharedText::of(alloc, b"{}".to_vec(alloc)?)?,
    })
}

/// A cache of two replies that holds one of the key p1 from 100 on for 60 seconds.
fn cache_of(alloc: Global, manner: Manner) -> Result<Box<Cache>, Fail> {
    let mut cache = Cache::new(alloc, 2, manner)?;
    let key = key_of(alloc, b"p1")?;
    let reply = reply_of(alloc, 200, 1, 100, Some(60))?;
    cache.offer(&key, &reply)?;
    Ok(Box::new(alloc, cache)?)
}

/// What a cache of this manner answers for the key p1 at a moment.
fn answer_at(alloc: Global, manner: Manner, moment: u64, no_cache: bool) -> Result<Answer, Fail> {
    let mut cache = cache_of(alloc, manner)?;
    let key = key_of(alloc, b"p1")?;
    Ok(cache.touch(Moment::of(moment), &key, no_cache))
}

#[test]
fn a_reply_is_fresh_for_its_lifetime(rt: HostRuntime) -> Result<(), Fail> {
    let alloc = rt.alloc();
    let honest = Manner::Honest;
    let late = Manner::Late { seconds: 5 };
    let careless = Manner::IgnoresNoCache;
    let asks = Answer::Validate { tag: 1 };
    let rows = [
        (honest, 159, false, Answer::Hit),
        (honest, 160, false, asks),
        (honest, 99, false, Answer::Hit),
        (honest, 159, true, asks),
        (late, 164, false, Answer::Hit),
        (late, 165, false, asks),
        (late, 100, true, asks),
        (careless, 159, true, Answer::Hit),
        (careless, 160, true, asks),
    ];
    for row in rows {
        assert_eq!(rt; answer_at(alloc, row.0, row.1, row.2)?, row.3);
    }
    Ok(())
}

#[test]
fn a_full_cache_drops_the_least_recently_used_reply(rt: HostRuntime) -> Result<(), Fail> {
    let alloc = rt.alloc();
    let mut cache = cache_of(alloc, Manner::Honest)?;
    let (first, second, third) = (
        key_of(alloc, b"p1")?,
        key_of(alloc, b"p2")?,
        key_of(alloc, b"p3")?,
    );
    let reply = reply_of(alloc, 404, 2, 100, Some(60))?;
    let moment = Moment::of(100);
    assert!(rt; cache.offer(&second, &reply)?);
    assert_eq!(rt; cache.touch(moment, &first, false), Answer::Hit);
    assert!(rt; cache.offer(&third, &reply)?);
    assert_eq!(rt; cache.touch(moment, &second, false), Answer::Miss);
    assert_eq!(rt; cache.touch(moment, &first, false), Answer::Hit);
    assert!(rt; cache.drop_last());
    assert_eq!(rt; cache.touch(moment, &third, false), Answer::Miss);
    assert!(rt; cache.purge(&first));
    assert!(rt; !cache.purge(&first));
    assert!(rt; !cache.drop_last());
    Ok(())
}

#[test]
fn a_304_gives_a_reply_a_new_lifetime(rt: HostRuntime) -> Result<(), Fail> {
    let alloc = rt.alloc();
    let mut cache = cache_of(alloc, Manner::Honest)?;
    let key = key_of(alloc, b"p1")?;
    let mut told = reply_of(alloc, 304, 7, 200, Some(30))?;
    assert!(rt; !cache.freshen(&key, &told));
    told.tag = Some(1);
    assert!(rt; cache.freshen(&key, &told));
    let Lookup::Hit { reply } = cache.lookup(Moment::of(229), &key, false) else {
        return Err(Fail::from("the reply is fresh again"));
    };
    assert_eq!(rt;
        (reply.commit, reply.status, reply.version),
        (7, 200, Some(1))
    );
    assert_eq!(rt;
        cache.touch(Moment::of(230), &key, false),
        Answer::Validate { tag: 1 }
    );
    Ok(())
}
