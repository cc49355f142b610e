//! Sessions over lists of answers: which way a read goes, and the commit that it is answered at.
use crate::choices::{LINES, Line, line_of};
use client_core::{Level, Why};
use client_model::Reply;
use client_session::{LinkAnswer, ListLink, Refreshed, Session, SessionRefusal, Way};
use flat_snapshot::{Page, write_head};
use hub_model::Condition;
use q_base::{Moment, Name, SharedText};
use query_normal::Key;
use std::alloc::Global;
use std::test::Fail;

/// An answer of a link.
#[derive(Clone, Copy)]
enum Row {
    /// A page of a front and a moment, in which each byte of bits is the third number.
    Page(u64, u64, u8),
    /// A reply of a commit, whose copies are served until a second.
    Reply(u64, u64),
    /// A reply of another status.
    Status(u16),
}

/// What a read gives: the way and the commit.
type Outcome = Result<(Way, u64), SessionRefusal>;

fn page_of(alloc: Global, front: u64, moment: u64, bits: u8) -> Result<LinkAnswer, Fail> {
    let mut text = [0u8; 158];
    write_head(&mut text, 10, 8, front, front, Moment::of(moment));
    text[30..].fill(bits);
    Ok(LinkAnswer::Page(Page::read(alloc, text.as_slice())?))
}

fn reply_of(alloc: Global, status: u16, commit: u64, until: u64) -> Result<LinkAnswer, Fail> {
    Ok(LinkAnswer::Reply(Reply {
        status,
        commit,
        version: Some(1),
        until,
        date: Moment::of(100),
        max_age: None,
        tag: Some(commit),
        body: SharedText::of(alloc, b"{}".to_vec(alloc)?)?,
    }))
}

/// A link that gives these answers in turn.
fn link_of(alloc: Global, rows: &[Row]) -> Result<ListLink, Fail> {
    let mut answers = Vec::new(alloc);
    for row in rows {
        let answer = match *row {
            Row::Page(front, moment, bits) => page_of(alloc, front, moment, bits)?,
            Row::Reply(commit, until) => reply_of(alloc, 200, commit, until)?,
            Row::Status(code) => reply_of(alloc, code, 0, 0)?,
        };
        answers.push(answer)?;
    }
    answers.reverse();
    Ok(ListLink::new(answers))
}

/// The key of a record of the collection shop.
fn key_of(alloc: Global, id: &[u8]) -> Result<Key, Fail> {
    let collection = Name::read(alloc, b"shop")?;
    let id = Name::read(alloc, id)?;
    Ok(Key::record(alloc, collection, id)?)
}

/// Reads r/shop/p1.
fn read(alloc: Global, session: &mut Session, link: &mut ListLink) -> Result<Outcome, Fail> {
    let key = key_of(alloc, b"p1")?;
    match session.read(link, &key) {
        Ok(out) => Ok(Ok((out.way, out.commit))),
        Err(refusal) => Ok(Err(refusal)),
    }
}

/// Deletes r/shop/p2, and gives the commit.
fn delete(alloc: Global, session: &mut Session, link: &mut ListLink) -> Result<u64, Fail> {
    let collection = Name::read(alloc, b"shop")?;
    let id = Name::read(alloc, b"p2")?;
    Ok(session.delete(link, &collection, &id, &Condition::Always)?)
}

/// Whether the reads of a new session give these outcomes, after a refresh and after a write, if one is made.
fn are_read(
    alloc: Global,
    rows: &[Row],
    written: Option<u64>,
    wanted: &[Outcome],
) -> Result<bool, Fail> {
    let mut link = link_of(alloc, rows)?;
    let mut session = Session::new(alloc, Level::Session)?;
    session.refresh(&mut link)?;
    if written.is_some() && written != Some(delete(alloc, &mut session, &mut link)?) {
        return Ok(false);
    }
    for outcome in wanted {
        if read(alloc, &mut session, &mut link)? != *outcome {
            return Ok(false);
        }
    }
    Ok(true)
}

#[test]
fn copies_that_the_page_allows_are_accepted(rt: HostRuntime) -> Result<(), Fail> {
    let rows = [
        Row::Page(5, 200, 0),
        Row::Reply(6, 300),
        Row::Reply(3, 160),
        Row::Reply(7, 300),
    ];
    let wanted = [Ok((Way::Cached, 6)), Ok((Way::Direct(Why::Expired), 7))];
    assert!(rt; are_read(rt.alloc(), rows.as_slice(), None, wanted.as_slice())?);
    Ok(())
}

#[test]
fn a_session_reads_its_own_writes(rt: HostRuntime) -> Result<(), Fail> {
    let rows = [
        Row::Page(7, 200, 0),
        Row::Reply(9, 0),
        Row::Reply(8, 300),
        Row::Reply(9, 300),
        Row::Reply(8, 300),
        Row::Reply(8, 300),
    ];
    let wanted = [
        Ok((Way::Direct(Why::BelowFloor), 9)),
        Err(SessionRefusal::Behind { floor: 9, got: 8 }),
    ];
    assert!(rt; are_read(rt.alloc(), rows.as_slice(), Some(9), wanted.as_slice())?);
    Ok(())
}

#[test]
fn a_flagged_key_is_asked_for_once_for_each_page(rt: HostRuntime) -> Result<(), Fail> {
    let rows = [
        Row::Page(10, 200, 255),
        Row::Reply(12, 300),
        Row::Reply(5, 300),
        Row::Reply(12, 300),
        Row::Reply(12, 300),
    ];
    let wanted = [
        Ok((Way::Direct(Why::Flagged), 12)),
        Ok((Way::Direct(Why::Older), 12)),
        Ok((Way::Cached, 12)),
    ];
    assert!(rt; are_read(rt.alloc(), rows.as_slice(), None, wanted.as_slice())?);
    Ok(())
}

/// Reads a record where there is a commit, which is that of the answer.
fn read_at(alloc: Global, session: &mut Session, id: &[u8], commit: u64) -> Result<(), Fail> {
    if commit > 0 {
        let mut link = link_of(alloc, &[Row::Reply(commit, 9)])?;
        session.read(&mut link, &key_of(alloc, id)?)?;
    }
    Ok(())
}

/// A session with the past of a line.
fn session_of(alloc: Global, line: Line) -> Result<Session, Fail> {
    let (level, sight, is_listed, numbers, _, _) = line;
    let [written, read_any, read_key, _, _] = numbers;
    let mut session = Session::new(alloc, level)?;
    read_at(alloc, &mut session, b"p1", read_key)?;
    read_at(alloc, &mut session, b"p2", read_any)?;
    if written > 0 {
        let mut link = link_of(alloc, &[Row::Reply(written, 0)])?;
        delete(alloc, &mut session, &mut link)?;
    }
    if let Some(sight) = sight {
        let bits = if sight.is_held { 255 } else { 0 };
        let mut link = link_of(alloc, &[Row::Page(sight.front, sight.moment, bits)])?;
        session.refresh(&mut link)?;
        if is_listed {
            let floor = session.floor(&key_of(alloc, b"p1")?);
            let mut link = link_of(alloc, &[Row::Reply(floor.max(sight.front), 9)])?;
            session.read(&mut link, &key_of(alloc, b"p1")?)?;
        }
    }
    Ok(session)
}

/// What such a session answers, where the caches have the line's copy and the server is at commit 100.
fn outcome_of(alloc: Global, line: Line) -> Result<Outcome, Fail> {
    let (level, sight, is_listed, numbers, _, _) = line;
    let mut session = session_of(alloc, line)?;
    let is_flagged = sight.is_some_and(|sight| sight.is_held) && !is_listed;
    let mut link = if level == Level::Strong || is_flagged {
        link_of(alloc, &[Row::Reply(100, 0)])?
    } else {
        link_of(
            alloc,
            &[Row::Reply(numbers[3], numbers[4]), Row::Reply(100, 0)],
        )?
    };
    read(alloc, &mut session, &mut link)
}

#[test]
fn sessions_choose_as_in_the_vectors(rt: HostRuntime) -> Result<(), Fail> {
    for text in LINES.lines() {
        let line = line_of(text)?;
        let wanted = match line.4 {
            Some(why) => Ok((Way::Direct(why), 100)),
            None => Ok((Way::Cached, line.5)),
        };
        assert_eq!(rt; outcome_of(rt.alloc(), line)?, wanted);
    }
    Ok(())
}

#[test]
fn a_refusal_leaves_a_session_as_it_was(rt: HostRuntime) -> Result<(), Fail> {
    let alloc = rt.alloc();
    let mut session = Session::new(alloc, Level::Session)?;
    let mut link = link_of(alloc, &[Row::Page(7, 200, 0), Row::Page(7, 200, 0)])?;
    assert_eq!(rt; session.refresh(&mut link)?, Refreshed::Newer);
    assert_eq!(rt; session.refresh(&mut link)?, Refreshed::Older);
    assert_eq!(rt;
        read(alloc, &mut session, &mut link)?,
        Err(SessionRefusal::LinkFault)
    );
    let mut refused = link_of(alloc, &[Row::Status(503)])?;
    assert_eq!(rt;
        read(alloc, &mut session, &mut refused)?,
        Err(SessionRefusal::Status { code: 503 })
    );
    let mut answered = link_of(alloc, &[Row::Reply(7, 300)])?;
    assert_eq!(rt;
        read(alloc, &mut session, &mut answered)?,
        Ok((Way::Cached, 7))
    );
    Ok(())
}
