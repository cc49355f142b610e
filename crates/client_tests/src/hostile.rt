//! Sessions over links that give kept and earlier replies in place of new ones. What the reads must give
//! comes from worked cases, and from the list of the writes so far.
use cache_model::Manner;
use client_core::{Level, Why};
use client_session::{Body, ReadOut, Refreshed, Session, SessionRefusal, Way};
use hub_core::Config;
use hub_model::Condition;
use q_base::Name;
use q_doc::Doc;
use query_lang::read_key;
use query_normal::Key;
use std::alloc::Global;
use std::test::Fail;
use world_core::{HostileLink, Move};

/// How many records a run has.
const RECORDS: u64 = 4;

/// The ids of all records.
const ALL_IDS: &[u8] = b"q/shop/ids/f=true;o=;s=0;n=10";

/// How many steps a run has.
const STEPS: u64 = 300;

/// A link whose store's copies are served for a minute, with these moves behind so many asks.
fn link_of(
    alloc: Global,
    manner: Manner,
    asks: usize,
    moves: &[Move],
) -> Result<Box<HostileLink>, Fail> {
    let config = Config::new(10, 8, 60, 60, 10_000, 134_217_728)?;
    let mut all = Vec::new(alloc);
    for _ in 0..asks {
        all.push(Move::Ask)?;
    }
    for next in moves {
        all.push(*next)?;
    }
    Ok(Box::new(alloc, HostileLink::new(alloc, config, manner, all)?)?)
}

fn session_of(alloc: Global, level: Level) -> Result<Box<Session>, Fail> {
    Ok(Box::new(alloc, Session::new(alloc, level)?)?)
}

/// The id of a record.
fn id_of(alloc: Global, record: u64) -> Result<Name, Fail> {
    let text = format!(in alloc; "p{record}")?;
    Ok(Name::read(alloc, text.as_bytes())?)
}

/// The key of a record of the collection shop.
fn key_of(alloc: Global, record: u64) -> Result<Box<Key>, Fail> {
    let collection = Name::read(alloc, b"shop")?;
    let id = id_of(alloc, record)?;
    Ok(Box::new(alloc, Key::record(alloc, collection, id)?)?)
}

/// Puts a document with a number, and gives the commit.
fn put(
    alloc: Global,
    session: &mut Session,
    link: &mut HostileLink,
    record: u64,
    number: u64,
) -> Result<u64, Fail> {
    let collection = Name::read(alloc, b"shop")?;
    let id = id_of(alloc, record)?;
    let text = format!(in alloc; "{{\"a\":{number}}}")?;
    let doc = Doc::read(alloc, text.as_bytes())?;
    Ok(session.put(link, &collection, &id, &doc, &Condition::Always)?)
}

/// Deletes a record, and gives the commit.
fn delete(
    alloc: Global,
    session: &mut Session,
    link: &mut HostileLink,
    record: u64,
) -> Result<u64, Fail> {
    let collection = Name::read(alloc, b"shop")?;
    let id = id_of(alloc, record)?;
    Ok(session.delete(link, &collection, &id, &Condition::Always)?)
}

/// Which way a read goes, and its commit.
fn outcome_of(
    session: &mut Session,
    link: &mut HostileLink,
    key: &Key,
) -> Result<(Way, u64), SessionRefusal> {
    let out = session.read(link, key)?;
    Ok((out.way, out.commit))
}

#[test]
fn a_kept_reply_is_no_answer_behind_a_write(rt: HostRuntime) -> Result<(), Fail> {
    let alloc = rt.alloc();
    let mut link = link_of(alloc, Manner::IgnoresNoCache, 0, &[])?;
    let mut session = session_of(alloc, Level::Session)?;
    let mut other = session_of(alloc, Level::Session)?;
    let key = key_of(alloc, 1)?;
    for number in 1..8 {
        assert_eq!(rt; put(alloc, &mut other, &mut link, 1, number)?, number);
    }
    link.match_all()?;
    assert_eq!(rt; session.refresh(&mut *link)?, Refreshed::Newer);
    assert_eq!(rt; put(alloc, &mut other, &mut link, 1, 8)?, 8);
    assert_eq!(rt;
        outcome_of(&mut other, &mut link, &key),
        Ok((Way::Cached, 8))
    );
    assert_eq!(rt; put(alloc, &mut session, &mut link, 2, 9)?, 9);
    let behind = Err(SessionRefusal::Behind { floor: 9, got: 8 });
    assert_eq!(rt; outcome_of(&mut session, &mut link, &key), behind);
    // The session is as it was: its floor, and what it makes of the same copy.
    assert_eq!(rt; session.floor(&key), 9);
    assert_eq!(rt; outcome_of(&mut session, &mut link, &key), behind);
    // A cache that holds nothing asks the store.
    link.turn_to(2);
    assert_eq!(rt;
        outcome_of(&mut session, &mut link, &key),
        Ok((Way::Cached, 9))
    );
    Ok(())
}

#[test]
fn an_expired_copy_is_asked_for_each_time(rt: HostRuntime) -> Result<(), Fail> {
    let alloc = rt.alloc();
    let moves = [
        Move::Again { back: 1 },
        Move::Ask,
        Move::Again { back: 2 },
        Move::Ask,
        Move::Again { back: 2 },
        Move::Ask,
    ];
    // Six asks: five puts, and a read.
    let late = Manner::Late { seconds: 1_000 };
    let mut link = link_of(alloc, late, 6, moves.as_slice())?;
    let mut session = session_of(alloc, Level::Session)?;
    let mut other = session_of(alloc, Level::Session)?;
    let key = key_of(alloc, 1)?;
    link.advance(100);
    for number in 1..4 {
        assert_eq!(rt; put(alloc, &mut other, &mut link, 1, number)?, number);
    }
    assert_eq!(rt;
        outcome_of(&mut other, &mut link, &key),
        Ok((Way::Cached, 3))
    );
    for number in 4..6 {
        assert_eq!(rt; put(alloc, &mut other, &mut link, 2, number)?, number);
    }
    link.advance(100);
    link.match_all()?;
    assert_eq!(rt; session.refresh(&mut *link)?, Refreshed::Newer);
    for _ in 0..3 {
        assert_eq!(rt;
            outcome_of(&mut session, &mut link, &key),
            Ok((Way::Direct(Why::Expired), 5))
        );
    }
    // Behind the last move the cache is asked, which has what the last read made fresh.
    assert_eq!(rt;
        outcome_of(&mut session, &mut link, &key),
        Ok((Way::Cached, 5))
    );
    Ok(())
}

/// A write: which record, and the number in its document, or none where it was deleted.
#[derive(Clone, Copy)]
struct Write {
    record: u64,
    number: Option<u64>,
}

/// What a record has behind these writes: the commit of its document, and its number.
fn found(writes: &[Write], record: u64) -> Option<(u64, u64)> {
    let mut found = None;
    for index in 0..writes.len() {
        let write = writes[index];
        if write.record == record {
            found = match write.number {
                Some(number) => Some((index as u64 + 1, number)),
                None => None,
            };
        }
    }
    found
}

/// The ids of the records that there are behind these writes, as the result of the query.
fn ids_of(alloc: Global, writes: &[Write]) -> Result<String, Fail> {
    let mut text = String::new(alloc);
    text.push_str("[")?;
    for record in 0..RECORDS {
        if found(writes, record).is_some() {
            if text.len() > 1 {
                text.push_str(",")?;
            }
            let id = format!(in alloc; "\"p{record}\"")?;
            text.push_str(&id)?;
        }
    }
    text.push_str("]")?;
    Ok(text)
}

/// Whether a body is that of a record behind these writes, or, from the last record on, that of the query.
fn is_result(alloc: Global, body: &Body, writes: &[Write], target: u64) -> Result<bool, Fail> {
    if target >= RECORDS {
        let ids = ids_of(alloc, writes)?;
        return Ok(match body {
            Body::List { text } => text.as_slice() == ids.as_bytes(),
            _ => false,
        });
    }
    let Some((commit, number)) = found(writes, target) else {
        return Ok(match body {
            Body::Absent => true,
            _ => false,
        });
    };
    let wanted = format!(in alloc; "{{\"a\":{number}}}")?;
    Ok(match body {
        Body::Document { version, text } => {
            *version == commit && text.as_slice() == wanted.as_bytes()
        }
        _ => false,
    })
}

/// Numbers that look random.
#[derive(Drop)]
struct Draws {
    number: u64,
}

impl Draws {
    /// A number below a bound, which is above 0.
    fn draw(&mut self, bound: u64) -> u64 {
        self.number = self
            .number
            .wrapping_mul(6_364_136_223_846_793_005)
            .wrapping_add(1_442_695_040_888_963_407);
        (self.number >> 33) % bound.max(1)
    }
}

/// How the reads of a run ended.
#[derive(Clone, Copy, Debug, PartialEq, Eq)]
struct Ends {
    /// At the last commit.
    last: u64,
    /// At an earlier one.
    earlier: u64,
    /// Refused, since the reply was behind what the session has seen.
    behind: u64,
}

/// Whether a read gave the result at its commit, not below the floor; and how it ended.
fn is_read(
    alloc: Global,
    told: &Result<ReadOut, SessionRefusal>,
    writes: &[Write],
    target: u64,
    floor: u64,
    ends: &mut Ends,
) -> Result<bool, Fail> {
    let out = match told {
        Ok(out) => out,
        Err(SessionRefusal::Behind { floor: lowest, got }) => {
            ends.behind = ends.behind.saturating_add(1);
            return Ok(got < lowest && *lowest >= floor);
        }
        Err(_) => return Ok(false),
    };
    let Some(before) = writes.get(..out.commit as usize) else {
        return Ok(false);
    };
    if before.len() == writes.len() {
        ends.last = ends.last.saturating_add(1);
    } else {
        ends.earlier = ends.earlier.saturating_add(1);
    }
    Ok(out.commit >= floor && is_result(alloc, &out.body, before, target)?)
}

/// Reads a record or the query. Whether the read gave what it must.
fn read(
    alloc: Global,
    session: &mut Session,
    link: &mut HostileLink,
    writes: &[Write],
    target: u64,
    ends: &mut Ends,
) -> Result<bool, Fail> {
    let key = if target < RECORDS {
        key_of(alloc, target)?
    } else {
        Box::new(alloc, read_key(alloc, ALL_IDS)?)?
    };
    let floor = session.floor(&key);
    let told = session.read(link, &key);
    is_read(alloc, &told, writes, target, floor, ends)
}

/// Puts or deletes a record. Whether that was the next commit.
fn make_write(
    alloc: Global,
    session: &mut Session,
    link: &mut HostileLink,
    writes: &mut Vec<Write>,
    next: Write,
) -> Result<bool, Fail> {
    writes.push(next)?;
    let commit = match next.number {
        Some(number) => put(alloc, session, link, next.record, number)?,
        None => delete(alloc, session, link, next.record)?,
    };
    Ok(commit == writes.len() as u64 && link.commits() == commit)
}

/// A step of a run: in six of ten cases a read. Whether it went as it must.
fn step(
    alloc: Global,
    session: &mut Session,
    link: &mut HostileLink,
    writes: &mut Vec<Write>,
    draws: &mut Draws,
    ends: &mut Ends,
) -> Result<bool, Fail> {
    let record = draws.draw(RECORDS);
    match draws.draw(20) {
        0..=3 => {
            let number = Some(draws.draw(1_000));
            make_write(alloc, session, link, writes, Write { record, number })
        }
        4 => make_write(
            alloc,
            session,
            link,
            writes,
            Write {
                record,
                number: None,
            },
        ),
        5 => {
            session.refresh(link)?;
            Ok(true)
        }
        6 => {
            link.match_all()?;
            Ok(true)
        }
        7 => {
            link.advance(u32::try_from(draws.draw(30)).unwrap_or(0));
            Ok(true)
        }
        _ => {
            let target = draws.draw(RECORDS + 1);
            read(alloc, session, link, writes, target, ends)
        }
    }
}

/// Runs two sessions through both caches, where each call gives one of the last replies again. How the reads
/// ended, if each gave what it must.
fn ends_of(alloc: Global, manner: Manner, seed: u64) -> Result<Ends, Fail> {
    let mut draws = Draws { number: seed };
    let mut moves = Vec::new(alloc);
    for _ in 0..2 * STEPS {
        let back = draws.draw(6) as usize;
        moves.push(Move::Again { back })?;
    }
    let mut link = link_of(alloc, manner, 0, moves.as_slice())?;
    let mut first = session_of(alloc, Level::Session)?;
    let mut second = session_of(alloc, Level::Causal)?;
    let mut writes = Vec::new(alloc);
    let mut ends = Ends {
        last: 0,
        earlier: 0,
        behind: 0,
    };
    for _ in 0..STEPS {
        let client = if draws.draw(2) == 0 { 0 } else { 2 };
        link.turn_to(client);
        let session: &mut Session = if client == 0 {
            &mut *first
        } else {
            &mut *second
        };
        if !step(
            alloc,
            session,
            &mut link,
            &mut writes,
            &mut draws,
            &mut ends,
        )? {
            return Err(Fail::from("a step went otherwise"));
        }
    }
    Ok(ends)
}

#[test]
fn each_read_is_the_result_at_its_commit_whatever_is_repeated(rt: HostRuntime) -> Result<(), Fail> {
    let manners = [
        Manner::Honest,
        Manner::Late { seconds: 1_000 },
        Manner::IgnoresNoCache,
    ];
    for manner in manners {
        let ends = ends_of(rt.alloc(), manner, 7)?;
        assert!(rt;
            ends.last > 0 && ends.earlier > 0 && ends.behind > 0,
            "{ends:?}"
        );
    }
    Ok(())
}
