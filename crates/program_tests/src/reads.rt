//! Reads over a link in memory.

use crate::calls::{AMPLE, Outcome, read_over};
use client_model::Reply;
use client_session::{LinkAnswer, SessionRefusal};
use flat_snapshot::Page;
use q_base::{Moment, SharedText};
use quaestor_prog::Status;
use std::alloc::Global;
use std::rt;
use std::sync::Wait;
use std::test::Fail;
use std::thread::Threads;

/// The length of the head of a page, and of a page of 1,024 bits.
const HEAD: usize = 30;

const PAGE: usize = 158;

/// The bytes of a page of 1,024 bits and 8 positions for a key, at the moment 100: its front, which is also
/// the number of its commits, and the byte of all its bits.
fn page_bytes(front: u8, bits: u8) -> [u8; PAGE] {
    let mut bytes = [0u8; PAGE];
    for (at, byte) in b"QSF1\x08\x0a".iter().enumerate() {
        bytes[at] = *byte;
    }
    bytes[13] = front;
    bytes[21] = front;
    bytes[29] = 100;
    for byte in bytes[HEAD..].iter_mut() {
        *byte = bits;
    }
    bytes
}

/// Such a page as an answer.
fn page_of(alloc: Global, front: u8, bits: u8) -> Result<LinkAnswer, Fail> {
    Ok(LinkAnswer::Page(Page::read(alloc, &page_bytes(front, bits))?))
}

/// The reply to a read, as an answer: its status, its commit, the version that it has and its body. It was
/// made at the moment 100 for one second.
fn reply_of(
    alloc: Global,
    status: u16,
    commit: u64,
    version: Option<u64>,
    body: &[u8],
) -> Result<LinkAnswer, Fail> {
    Ok(LinkAnswer::Reply(Reply {
        status,
        commit,
        version,
        until: 101,
        date: Moment::of(100),
        max_age: Some(1),
        tag: Some(commit),
        body: SharedText::of(alloc, body.to_vec(alloc)?)?,
    }))
}

/// The program reads a key at a level, where a link gives these answers in turn.
fn read_with<R: Threads + Wait + rt::Clock + Copy + Send + AllocGlobal + 'static>(
    rt: &R,
    level: &str,
    key: &str,
    answers: Vec<LinkAnswer>,
    capacity: usize,
) -> Result<Outcome, Fail> {
    let mut last_first = answers;
    last_first.reverse();
    Ok(read_over(
        rt,
        &["read", "here", level, key],
        Some(last_first),
        capacity,
    )?)
}

/// The document of the first commit.
const ONE: &[u8] = b"{\"a\":1}";

/// A read whose copy is accepted, and what it writes.
const READ: &[u8] = b"1 cached\n{\"a\":1}\n";

#[test]
fn a_read_writes_its_commit_its_way_and_what_the_key_has(rt: HostRuntime) -> Result<(), Fail> {
    let alloc = rt.alloc();
    // The level, the key, the front and the bits of the page, the replies, and what is written.
    let list = "q/shop/objects/f=a = 1;o=;s=0;n=100";
    let rows: [(&str, &str, u8, u8, &[(u16, u64, Option<u64>, &[u8])], &[u8]); 8] = [
        (
            "session",
            "r/shop/p1",
            0,
            0,
            &[(200, 1, Some(1), ONE)],
            READ,
        ),
        ("causal", "r/shop/p1", 1, 0, &[(200, 1, Some(1), ONE)], READ),
        (
            "session",
            "r/shop/p1",
            3,
            0,
            &[(200, 1, Some(1), ONE)],
            b"3 cached\n{\"a\":1}\n",
        ),
        (
            "strong",
            "r/shop/p1",
            0,
            0,
            &[(200, 2, Some(1), ONE)],
            b"2 strong\n{\"a\":1}\n",
        ),
        (
            "session",
            "r/shop/p1",
            1,
            255,
            &[(200, 2, Some(2), ONE)],
            b"2 flagged\n{\"a\":1}\n",
        ),
        (
            "session",
            "r/shop/p1",
            0,
            0,
            &[(404, 1, None, b"{\"error\":\"absent\"}")],
            b"1 cached\nabsent\n",
        ),
        (
            "session",
            list,
            0,
            0,
            &[(200, 1, None, b"[{\"a\":1}]")],
            b"1 cached\n[{\"a\":1}]\n",
        ),
        (
            "strong",
            list,
            0,
            0,
            &[(200, 7, None, b"[]")],
            b"7 strong\n[]\n",
        ),
    ];
    for (at, (level, key, front, bits, replies, written)) in rows.into_iter().enumerate() {
        let mut answers = Vec::new(alloc);
        answers.push(page_of(alloc, front, bits)?)?;
        for (status, commit, version, body) in replies {
            answers.push(reply_of(alloc, *status, *commit, *version, body)?)?;
        }
        let outcome = read_with(&rt, level, key, answers, AMPLE)?;
        assert_eq!(rt; outcome.status, Status::Done, "at {at}");
        assert_eq!(rt; outcome.written.as_slice(), written, "at {at}");
        assert_eq!(rt; outcome.kept.left, Some(0), "at {at}");
        assert_eq!(rt; outcome.kept.heard, None, "at {at}");
    }
    Ok(())
}

/// A read whose copy has expired, and what it writes.
const EXPIRED: &[u8] = b"5 expired\n{\"a\":1}\n";

#[test]
fn an_expired_copy_is_asked_of_the_server(rt: HostRuntime) -> Result<(), Fail> {
    let alloc = rt.alloc();
    let mut bytes = page_bytes(5, 0);
    bytes[29] = 200;
    let mut answers = Vec::new(alloc);
    answers.push(LinkAnswer::Page(Page::read(alloc, &bytes)?))?;
    answers.push(reply_of(alloc, 200, 1, Some(1), b"{}")?)?;
    answers.push(reply_of(alloc, 200, 5, Some(4), ONE)?)?;
    let outcome = read_with(&rt, "session", "r/shop/p1", answers, AMPLE)?;
    assert_eq!(rt; outcome.status, Status::Done);
    assert_eq!(rt; outcome.written.as_slice(), EXPIRED);
    Ok(())
}

/// What the first answer of a link is in place of a page, and what the next is in place of a reply.
#[derive(Clone, Copy)]
enum Wrong {
    Fault,
    BadReply,
    Status(u16),
    Behind,
}

/// A wrong answer.
fn wrong_of(alloc: Global, wrong: Wrong) -> Result<LinkAnswer, Fail> {
    match wrong {
        Wrong::Fault => Ok(LinkAnswer::Fault),
        Wrong::BadReply => Ok(LinkAnswer::BadReply { place: 9 }),
        Wrong::Status(code) => reply_of(alloc, code, 1, None, b""),
        Wrong::Behind => reply_of(alloc, 200, 3, Some(1), ONE),
    }
}

#[test]
fn a_refused_read_writes_nothing_and_says_why(rt: HostRuntime) -> Result<(), Fail> {
    let alloc = rt.alloc();
    // Whether a page comes first, the wrong answer, the status, and the reason.
    let rows = [
        (
            false,
            Wrong::Fault,
            Status::LinkFault,
            SessionRefusal::LinkFault,
        ),
        (
            false,
            Wrong::BadReply,
            Status::Refused,
            SessionRefusal::BadReply { place: 9 },
        ),
        (
            false,
            Wrong::Status(503),
            Status::Refused,
            SessionRefusal::Status { code: 503 },
        ),
        (
            true,
            Wrong::Fault,
            Status::LinkFault,
            SessionRefusal::LinkFault,
        ),
        (
            true,
            Wrong::BadReply,
            Status::Refused,
            SessionRefusal::BadReply { place: 9 },
        ),
        (
            true,
            Wrong::Status(500),
            Status::Refused,
            SessionRefusal::Status { code: 500 },
        ),
        (
            true,
            Wrong::Behind,
            Status::Refused,
            SessionRefusal::Behind { floor: 5, got: 3 },
        ),
    ];
    for (at, (is_paged, wrong, status, refusal)) in rows.into_iter().enumerate() {
        let mut answers = Vec::new(alloc);
        if is_paged {
            answers.push(page_of(alloc, 5, 0)?)?;
        }
        answers.push(wrong_of(alloc, wrong)?)?;
        let outcome = read_with(&rt, "strong", "r/shop/p1", answers, AMPLE)?;
        assert_eq!(rt; outcome.status, status, "at {at}");
        assert_eq!(rt; outcome.kept.heard, Some(refusal), "at {at}");
        assert_eq!(rt; outcome.written.len(), 0, "at {at}");
        assert_eq!(rt; outcome.kept.left, Some(0), "at {at}");
    }
    Ok(())
}

#[test]
fn a_server_that_cannot_be_reached_is_a_fault_of_the_places(rt: HostRuntime) -> Result<(), Fail> {
    let rows: [(&str, Option<Vec<LinkAnswer>>); 2] = [
        ("here", None),
        ("there", Some(Vec::new(rt.alloc()))),
    ];
    for (address, answers) in rows {
        let outcome = read_over(
            &rt,
            &["read", address, "session", "r/shop/p1"],
            answers,
            AMPLE,
        )?;
        assert_eq!(rt; outcome.status, Status::PlaceFault, "at {address}");
        assert_eq!(rt; outcome.written.len(), 0, "at {address}");
        assert_eq!(rt; outcome.kept.left, None, "at {address}");
    }
    Ok(())
}

#[test]
fn a_sink_that_fails_ends_a_read(rt: HostRuntime) -> Result<(), Fail> {
    let alloc = rt.alloc();
    for capacity in 0..=READ.len() {
        let mut answers = Vec::new(alloc);
        answers.push(page_of(alloc, 0, 0)?)?;
        answers.push(reply_of(alloc, 200, 1, Some(1), ONE)?)?;
        let outcome = read_with(&rt, "session", "r/shop/p1", answers, capacity)?;
        let status = if capacity == READ.len() {
            Status::Done
        } else {
            Status::WriteFault
        };
        assert_eq!(rt; outcome.status, status, "at {capacity}");
        assert_eq!(rt;
            outcome.written.as_slice(),
            READ.get(..capacity).unwrap_or(READ),
            "at {capacity}"
        );
        assert_eq!(rt; outcome.kept.left, Some(0), "at {capacity}");
        assert_eq!(rt; outcome.kept.heard, None, "at {capacity}");
    }
    Ok(())
}
