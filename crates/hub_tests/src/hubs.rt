//! What no clause says: that calls succeed where there is memory, which calls take none, and worked
//! histories, whose answers come from the definitions, not from the program.
ghost use Rattle.std.specs.Prelude.{◌≡◌, IfOk};
ghost use Rattle.hub_model.specs.Setting.{default_setting};
ghost use Rattle.hub_core.specs.PageRoom.{IsRoomFor};

use crate::acts::has_few;
use flat_snapshot::{set_bit, write_head};
use hub_core::{Config, Hub, PageRoom};
use hub_model::{Change, Commits, Condition, Found, Outcome, Tags, Written};
use q_base::{Memory, Moment, Name};
use q_doc::Doc;
use query_normal::Key;
use std::alloc::Global;
use std::test::Fail;

/// One call over the record p1 of the collection shop, with the answer that it must give.
#[derive(Clone, Copy)]
enum HubCall {
    /// The moment, the document, the commit, and what is found.
    Put(u64, &'static [u8], u64, Found),
    /// The moment, the commit, the lifetime, and the document.
    Read(u64, u64, u32, &'static [u8]),
    /// The moment, and the last commit.
    Match(u64, u64),
    /// The moment, the front, the number of commits, and the positions of the page's bits.
    Fetch(u64, u64, u64, &'static [u32]),
}

/// The positions of `r/shop/p1` among 2^17 bits for 6 hashes.
const OUTDATED: &[u32] = &[6848, 19872, 42872, 78896, 101896, 114920];

/// A new hub, in a box, so that letting it go is one call wherever a function may end.
pub(crate) fn new_hub(alloc: Global, config: Config) -> Result<Box<Hub>, Fail>
    ensures { IfOk result (λ hub. hub.value.setting ≡ config) }
{
    Ok(Box::new(alloc, Hub::new(alloc, config)?)?)
}

#[test]
fn worked_histories_are_answered(rt: HostRuntime) -> Result<(), Fail> {
    let alloc = rt.alloc();
    let first = HubCall::Put(100, br#"{"a":1}"#, 1, Found::Missing);
    let read = HubCall::Read(100, 1, 60, br#"{"a":1}"#);
    let second = HubCall::Put(110, br#"{"a":2}"#, 2, Found::At(1));
    let covered = HubCall::Match(110, 2);
    let there = HubCall::Fetch(159, 2, 2, OUTDATED);
    let gone = HubCall::Fetch(160, 2, 2, &[]);
    // The copy of commit 1 is outdated until 160.
    assert!(rt;
        follow(
            alloc,
            (60, 60),
            &[first, read, second, covered, there, gone]
        )?
    );
    // Without the match of commit 2 nothing is.
    let before = HubCall::Fetch(159, 0, 2, &[]);
    assert!(rt; follow(alloc, (60, 60), &[first, read, second, before])?);
    let short = HubCall::Match(110, 1);
    let between = HubCall::Fetch(159, 1, 2, &[]);
    assert!(rt; follow(alloc, (60, 60), &[first, read, second, short, between])?);
    // A later copy neither takes the key out nor keeps it in.
    let later = HubCall::Read(120, 2, 60, br#"{"a":2}"#);
    assert!(rt;
        follow(
            alloc,
            (60, 60),
            &[first, read, second, covered, later, there, gone]
        )?
    );
    // A read at the moment of another changes nothing, and a later one keeps the key in for longer.
    assert!(rt;
        follow(
            alloc,
            (60, 60),
            &[first, read, read, second, covered, there, gone]
        )?
    );
    let again = HubCall::Read(101, 1, 60, br#"{"a":1}"#);
    let still = HubCall::Fetch(160, 2, 2, OUTDATED);
    let left = HubCall::Fetch(161, 2, 2, &[]);
    assert!(rt;
        follow(
            alloc,
            (60, 60),
            &[first, read, again, again, second, covered, still, left]
        )?
    );
    // With lifetimes from one second to an hour, what was just written may be kept for a second.
    let read = HubCall::Read(100, 1, 1, br#"{"a":1}"#);
    let second = HubCall::Put(100, br#"{"a":2}"#, 2, Found::At(1));
    let covered = HubCall::Match(100, 2);
    let there = HubCall::Fetch(100, 2, 2, OUTDATED);
    let gone = HubCall::Fetch(101, 2, 2, &[]);
    assert!(rt;
        follow(
            alloc,
            (1, 3_600),
            &[first, read, second, covered, there, gone]
        )?
    );
    Ok(())
}

/// Makes the calls over a new hub with these least and greatest lifetimes; whether all answers are right.
fn follow(alloc: Global, lifetimes: (u32, u32), steps: &[HubCall]) -> Result<bool, Fail> {
    let config = Config::new(17, 6, lifetimes.0, lifetimes.1, 10_000, 134_217_728)?;
    let mut room = PageRoom::new(alloc, &config)?;
    let mut hub = new_hub(alloc, config)?;
    for step in steps {
        if !is_right(alloc, &mut hub, &mut room, *step)? {
            return Ok(false);
        }
    }
    Ok(true)
}

/// Makes one call; whether its answer is right.
fn is_right(alloc: Global, hub: &mut Hub, room: &mut PageRoom, step: HubCall) -> Result<bool, Fail>
    requires { IsRoomFor hub.old.setting room.old }
    ensures { IsRoomFor hub.new.setting room.new }
{
    match step {
        HubCall::Put(moment, text, commit, found) => {
            let change = change_to(alloc, text)?;
            has_few(hub)?;
            let written = hub.write(Moment::of(moment), &change, &Condition::Always)?;
            Ok(match written {
                Written::Done {
                    commit: number,
                    before,
                    ..
                } => number == commit && before == found,
                _ => false,
            })
        }
        HubCall::Read(moment, commit, ttl, text) => {
            let answer = hub.read(
                Moment::of(moment),
                &key(alloc)?,
                &Tags::Listed(Commits::new(alloc)),
            )?;
            let is_same = answer.commit == commit && answer.ttl == ttl;
            Ok(is_same && is_text(alloc, &answer.result, text)?)
        }
        HubCall::Match(moment, to) => {
            if to <= hub.front() || hub.commits() < to {
                return Ok(false);
            }
            Ok(hub.match_to(Moment::of(moment), to)?.front == to)
        }
        HubCall::Fetch(moment, front, commits, bits) => {
            hub.fetch(Moment::of(moment), room);
            let held = hub.holds(&key(alloc)?) && hub.record_count() == 1;
            let page = page_of(alloc, moment, front, commits, bits)?;
            Ok(
                held != bits.is_empty()
                    && room.moment() == Moment::of(moment)
                    && room.bytes() == page.as_slice(),
            )
        }
    }
}

/// The key of the record.
fn key(alloc: Global) -> Result<Key, Fail> {
    let collection = Name::read(alloc, b"shop")?;
    Ok(Key::record(alloc, collection, Name::read(alloc, b"p1")?)?)
}

/// Puts a document.
fn change_to(alloc: Global, text: &[u8]) -> Result<Change, Fail> {
    Ok(Change {
        collection: Name::read(alloc, b"shop")?,
        id: Name::read(alloc, b"p1")?,
        document: Some(Doc::read(alloc, text)?),
    })
}

/// Whether the outcome is a result of this text.
pub(crate) fn is_text(alloc: Global, outcome: &Outcome, text: &[u8]) -> Result<bool, Memory> {
    match outcome {
        Outcome::Whole { text: found, .. } => Ok(found.to_shared(alloc)?.as_slice() == text),
        Outcome::Same { .. } | Outcome::Absent => Ok(false),
    }
}

/// The bytes of the page with these numbers, and bits at these positions alone.
fn page_of(
    alloc: Global,
    moment: u64,
    front: u64,
    commits: u64,
    bits: &[u32],
) -> Result<Vec<u8>, Fail> {
    let mut page = vec![in alloc; 0u8; 16_414]?;
    write_head(&mut page, 17, 6, front, commits, Moment::of(moment));
    for position in bits {
        if *position < 131_072 {
            set_bit(&mut page, *position);
        }
    }
    Ok(page)
}

/// The reply to a write, without its clock.
#[derive(Clone, Copy, Debug, PartialEq, Eq)]
pub(crate) enum WriteReply {
    Done(u64, Found),
    Precondition(Found),
    Full(u64),
}

/// What a write asks: nothing, a document, none, or the one of a commit.
#[derive(Clone, Copy)]
pub(crate) enum Asks {
    Nothing,
    Present,
    Absent,
    Since(u64),
}

/// The digit of a record, p1 or the like, what is asked of it, and the reply. Each write puts
/// {"a":1}.
type Case = (u8, Asks, WriteReply);

/// The condition of what is asked.
fn condition(alloc: Global, asks: Asks) -> Result<Condition, Fail> {
    match asks {
        Asks::Nothing => Ok(Condition::Always),
        Asks::Present => Ok(Condition::Present),
        Asks::Absent => Ok(Condition::Absent),
        Asks::Since(commit) => {
            let mut tags = Commits::new(alloc);
            tags.push(commit)?;
            Ok(Condition::Unchanged(Tags::Listed(tags)))
        }
    }
}

/// Writes a document to the record of a digit, or deletes it.
pub(crate) fn write(
    alloc: Global,
    hub: &mut Hub,
    digit: u8,
    document: Option<Doc>,
    asks: Asks,
) -> Result<WriteReply, Fail> {
    let change = Change {
        collection: Name::read(alloc, b"shop")?,
        id: Name::read(alloc, &[b'p', digit])?,
        document,
    };
    let condition = condition(alloc, asks)?;
    has_few(hub)?;
    Ok(match hub.write(Moment::of(100), &change, &condition)? {
        Written::Done { commit, before, .. } => WriteReply::Done(commit, before),
        Written::Precondition { found, .. } => WriteReply::Precondition(found),
        Written::Full { bytes, .. } => WriteReply::Full(bytes),
    })
}

/// Whether each write gets its reply.
fn are_answered(alloc: Global, hub: &mut Hub, cases: &[Case]) -> Result<bool, Fail> {
    for case in cases {
        if !is_answered(alloc, hub, *case)? {
            return Ok(false);
        }
    }
    Ok(true)
}

/// Whether a write gets its reply.
fn is_answered(alloc: Global, hub: &mut Hub, case: Case) -> Result<bool, Fail> {
    let document = Doc::read(alloc, br#"{"a":1}"#)?;
    Ok(write(alloc, hub, case.0, Some(document), case.1)? == case.2)
}

/// Writes to the record of each digit.
pub(crate) fn write_all(alloc: Global, hub: &mut Hub, digits: &[u8]) -> Result<(), Fail> {
    for digit in digits {
        let document = Doc::read(alloc, br#"{"a":1}"#)?;
        write(alloc, hub, *digit, Some(document), Asks::Nothing)?;
    }
    Ok(())
}

/// Behind seven commits, of which 1 and 4 put p1, and the others p2.
const FOUND: &[Case] = &[
    (b'1', Asks::Since(3), WriteReply::Precondition(Found::At(4))),
    (b'1', Asks::Since(5), WriteReply::Done(8, Found::At(4))),
    (b'1', Asks::Absent, WriteReply::Precondition(Found::At(8))),
    (
        b'3',
        Asks::Present,
        WriteReply::Precondition(Found::Missing),
    ),
];

/// Behind 65,606 of 65,792 bytes. Each write takes 77, and a condition that is not met comes first.
const TAKEN: &[Case] = &[
    (b'2', Asks::Nothing, WriteReply::Done(2, Found::Missing)),
    (b'2', Asks::Nothing, WriteReply::Done(3, Found::At(2))),
    (b'2', Asks::Nothing, WriteReply::Full(65_837)),
    (b'2', Asks::Absent, WriteReply::Precondition(Found::At(3))),
];

/// Whether the replies have what writes find.
fn found(alloc: Global) -> Result<bool, Fail> {
    let mut hub = new_hub(alloc, Config::default())?;
    write_all(alloc, &mut hub, b"1221222")?;
    are_answered(alloc, &mut hub, FOUND)
}

/// Whether the deletion of nothing is a commit.
fn deleted(alloc: Global) -> Result<bool, Fail> {
    let mut hub = new_hub(alloc, Config::default())?;
    let reply = write(alloc, &mut hub, b'3', None, Asks::Nothing)?;
    Ok(reply == WriteReply::Done(1, Found::Missing))
}

/// Whether the replies have what writes would take.
fn taken(alloc: Global) -> Result<bool, Fail> {
    let mut hub = new_hub(alloc, Config::new(10, 6, 1, 60, 10_000, 65_792)?)?;
    let document = long_document(alloc)?;
    write(alloc, &mut hub, b'1', Some(document), Asks::Nothing)?;
    are_answered(alloc, &mut hub, TAKEN)
}

/// A document whose one text has 65,528 letters.
fn long_document(alloc: Global) -> Result<Doc, Fail> {
    let mut text = Vec::new(alloc);
    text.extend_from_slice(br#"{"a":""#)?;
    for _ in 0..65_528 {
        text.push(b'x')?;
    }
    text.extend_from_slice(br#""}"#)?;
    Ok(Doc::read(alloc, &text)?)
}

#[test]
fn writes_are_judged_by_what_they_find_and_take(rt: HostRuntime) -> Result<(), Fail> {
    let alloc = rt.alloc();
    assert!(rt; found(alloc)?);
    assert!(rt; deleted(alloc)?);
    assert!(rt; taken(alloc)?);
    Ok(())
}

/// Writes a change, and reads its record.
fn write_and_read(hub: &mut Hub, change: &Change, key: &Key) -> Result<(), Fail>
    ensures { hub.new.setting ≡ hub.old.setting }
{
    has_few(hub)?;
    hub.write(Moment::of(1), change, &Condition::Always)?;
    hub.read(Moment::of(1), key, &Tags::Any)?;
    Ok(())
}

/// Matches all commits, where the front is behind.
pub(crate) fn match_all(hub: &mut Hub) -> Result<(), Fail>
    ensures { hub.new.setting ≡ hub.old.setting }
{
    let to = hub.commits();
    if hub.front() < to {
        hub.match_to(Moment::of(1), to)?;
    }
    Ok(())
}

/// Writes a change, and matches it.
fn write_and_match(hub: &mut Hub, change: &Change) -> Result<(), Fail>
    ensures { hub.new.setting ≡ hub.old.setting }
{
    has_few(hub)?;
    hub.write(Moment::of(1), change, &Condition::Always)?;
    match_all(hub)
}

/// Leaves an outdated copy of the record of a change.
fn outdate(hub: &mut Hub, change: &Change, key: &Key) -> Result<(), Fail>
    ensures { hub.new.setting ≡ hub.old.setting }
{
    write_and_read(hub, change, key)?;
    write_and_match(hub, change)
}

/// A hub with an outdated copy of the record of a change.
fn outdated(alloc: Global, change: &Change, key: &Key) -> Result<Box<Hub>, Fail>
    ensures { IfOk result (λ hub. hub.value.setting ≡ default_setting) }
{
    let mut hub = new_hub(alloc, Config::default())?;
    outdate(&mut hub, change, key)?;
    Ok(hub)
}

/// Whether a fetch finds the key in the record, and a tick leaves it out when its copy has expired.
fn is_served(hub: &mut Hub, room: &mut PageRoom, key: &Key) -> bool
    requires { IsRoomFor hub.old.setting room.old }
{
    hub.fetch(Moment::of(1), room);
    let held = hub.holds(key) && hub.record_count() == 1;
    let stats = hub.tick(Moment::of(3_601));
    held && !hub.holds(key) && stats.commits == 2
}

/// The allocation at the end is the first one after the set-up.
#[test]
fn fetch_tick_and_holds_take_no_memory(rt: HostRuntime) -> Result<(), Fail> {
    let alloc = rt.alloc();
    let key = key(alloc)?;
    let change = change_to(alloc, br#"{"a":1}"#)?;
    let mut room = PageRoom::new(alloc, &Config::default())?;
    let mut hub = outdated(alloc, &change, &key)?;
    assert!(rt; is_served(&mut hub, &mut room, &key));
    let next = Vec::<u8>::with_capacity(alloc, 1);
    assert!(rt; next.is_ok(), "the next allocation was refused");
    Ok(())
}

/// What a reader of the record p1 is told: of a known commit, with the version, or the whole.
fn told(alloc: Global, hub: &mut Hub, listed: &[u64]) -> Result<Option<(u64, Option<u64>)>, Fail> {
    let mut tags = Commits::new(alloc);
    for commit in listed {
        if !tags.is_full() {
            tags.push(*commit)?;
        }
    }
    let answer = hub.read(Moment::of(100), &key(alloc)?, &Tags::Listed(tags))?;
    Ok(match answer.result {
        Outcome::Same { tag, version } => Some((tag, version)),
        Outcome::Whole { .. } | Outcome::Absent => None,
    })
}

/// What a reader is told of the record p1 that lists these commits.
type Told = (&'static [u64], Option<(u64, Option<u64>)>);

/// Behind seven commits, of which 1 and 4 put p1, and the others p2.
const TOLD: &[Told] = &[
    (&[3, 5], Some((5, Some(4)))),
    (&[4, 6, 5, 8], Some((6, Some(4)))),
    (&[3, 8], None),
    (&[], None),
];

/// Whether each reader is told what it knows.
fn are_told(alloc: Global, hub: &mut Hub, cases: &[Told]) -> Result<bool, Fail> {
    for case in cases {
        if told(alloc, hub, case.0)? != case.1 {
            return Ok(false);
        }
    }
    Ok(true)
}

#[test]
fn a_reader_is_told_the_greatest_commit_that_it_knows(rt: HostRuntime) -> Result<(), Fail> {
    let alloc = rt.alloc();
    let mut hub = new_hub(alloc, Config::default())?;
    write_all(alloc, &mut hub, b"1221222")?;
    assert!(rt; are_told(alloc, &mut hub, TOLD)?);
    Ok(())
}
