//! Desks at the seats of one turnstile over a hub.
ghost use Rattle.std.specs.Prelude.{◌≡◌, IfOk, Contains};
ghost use Rattle.hub_model.specs.declared.entry.Condition.TheVariants.{Always};
ghost use Rattle.hub_model.specs.declared.entry.Tags.TheVariants.{Any};
ghost use Rattle.hub_model.specs.declared.entry.Entry.TheVariants.{Write, Read};
ghost use Rattle.turnstile.specs.Seats.{IsSeatOf, IsSame, IsIdle, seen};
ghost use Rattle.hub_desk.specs.HubValue.{hub_setting};

use commit_book::Change;
use hub_desk::{
    Answer, Condition, Config, Desk, HubValue, Outcome, PurgeReply, Seat, Seated, Tags, Turnstile,
    Written,
};
use q_base::{Memory, Moment, Name};
use q_doc::Doc;
use query_normal::Key;
use std::alloc::Global;
use std::rt::Clock;
use std::sync::Wait;
use std::test::Fail;
use turnstile::Stands;

/// A turnstile of a new hub, and its first seat.
fn open(alloc: Global) -> Result<(Turnstile<HubValue>, Seat<HubValue>), Memory>
    ensures { IfOk result (λ r. IsSeatOf hub_setting r.0 r.1 × IsIdle r.1) }
{
    Turnstile::open(alloc, HubValue::new(alloc, Config::default())?)
}

/// Puts a document into a record of the collection shop.
fn put(alloc: Global, id: &[u8]) -> Result<Change, Fail> {
    Ok(Change {
        collection: Name::read(alloc, b"shop")?,
        id: Name::read(alloc, id)?,
        document: Some(Doc::read(alloc, br#"{"a":1}"#)?),
    })
}

/// The key of a record of the collection shop.
fn key(alloc: Global, id: &[u8]) -> Result<Key, Fail> {
    let collection = Name::read(alloc, b"shop")?;
    Ok(Key::record(alloc, collection, Name::read(alloc, id)?)?)
}

/// The replies to two seats, and the one seat that is left of them.
#[derive(Drop)]
struct Meeting {
    written: Written,
    answer: Answer,
    seat: Seat<HubValue>,
}

/// The first seat writes, the second one reads, and they are joined.
fn write_and_read<R: Wait + Clock>(
    rt: &R,
    turnstile: &Turnstile<HubValue>,
    first: Seat<HubValue>,
    second: Seat<HubValue>,
    change: Change,
    key: Key,
) -> Result<Meeting, Memory>
    requires first { IsSeatOf hub_setting turnstile.now first × IsIdle first }
    requires second { IsSeatOf hub_setting turnstile.now second × IsIdle second }
    ensures own { IfOk result (λ m. IsSeatOf hub_setting turnstile.now m.seat × IsIdle m.seat) }
    ensures wrote { IfOk result (λ m. Contains (seen m.seat) (Write 100 change Always)) }
    ensures read { IfOk result (λ m. Contains (seen m.seat) (Read 101 key Any m.answer.commit)) }
{
    let mut writer = Seated::new(rt, turnstile, first);
    let mut reader = Seated::new(rt, turnstile, second);
    let written = writer.write(Moment::of(100), change, Condition::Always)?;
    let answer = reader.read(Moment::of(101), key, Tags::Any)?;
    let mut seat = writer.into_seat();
    turnstile.join(&mut seat, reader.into_seat());
    Ok(Meeting {
        written,
        answer,
        seat,
    })
}

#[test]
fn a_seat_reads_what_another_wrote(rt: HostRuntime) -> Result<(), Fail> {
    let alloc = rt.alloc();
    let (turnstile, mut first) = open(alloc)?;
    let second = turnstile.split(&mut first);
    let meeting = write_and_read(
        &rt,
        &turnstile,
        first,
        second,
        put(alloc, b"p1")?,
        key(alloc, b"p1")?,
    )?;
    assert!(rt; matches!(meeting.written, Written::Done { commit: 1, .. }));
    assert_eq!(rt; meeting.answer.commit, 1);
    assert!(rt;
        matches!(
            &meeting.answer.result,
            Outcome::Same {
                tag: 1,
                version: Some(1),
            }
        )
    );
    let value = turnstile.close(meeting.seat).ok_or("the turn is free")?;
    assert_eq!(rt; (value.entries(), value.hub().commits()), (2, 1));
    Ok(())
}

/// Writes at any desk; whether memory sufficed.
fn write<D: Desk>(desk: &mut D, change: Change) -> bool
    ensures { D.anchor desk.new ≡ D.anchor desk.old }
{
    if desk.ready().is_err() {
        return false;
    }
    desk.write(Moment::of(100), change, Condition::Always)
        .is_ok()
}

/// Reads the record p1 of the collection shop at any desk; whether memory sufficed.
fn read<D: Desk>(desk: &mut D, alloc: Global) -> Result<bool, Fail>
    ensures { D.anchor desk.new ≡ D.anchor desk.old }
{
    let key = key(alloc, b"p1")?;
    if desk.ready().is_err() {
        return Ok(false);
    }
    Ok(desk.read(Moment::of(100), key, Tags::Any).is_ok())
}

/// Matches all commits at any desk; whether memory sufficed.
fn match_all<D: Desk>(desk: &mut D) -> bool
    ensures { D.anchor desk.new ≡ D.anchor desk.old }
{
    if desk.ready().is_err() {
        return false;
    }
    desk.match_all(Moment::of(100)).is_ok()
}

/// Asks any desk for the purges from a number on.
fn purges<D: Desk>(desk: &mut D, from: u64) -> Option<PurgeReply>
    ensures { D.anchor desk.new ≡ D.anchor desk.old }
{
    if desk.ready().is_err() {
        return None;
    }
    desk.purges(Moment::of(100), from).ok()
}

#[test]
fn a_seat_tells_the_purges(rt: HostRuntime) -> Result<(), Fail> {
    let alloc = rt.alloc();
    let (turnstile, first) = open(alloc)?;
    let mut desk = Seated::new(&rt, &turnstile, first);
    assert!(rt; write(&mut desk, put(alloc, b"p1")?) && read(&mut desk, alloc)?);
    assert!(rt; write(&mut desk, put(alloc, b"p1")?) && match_all(&mut desk));
    let all = purges(&mut desk, 1).ok_or("memory suffices")?;
    assert_eq!(rt;
        (all.from, all.last, all.front, all.clock),
        (1, 1, 2, Moment::of(100))
    );
    assert_eq!(rt;
        all.keys.first().map(Key::text),
        Some(b"r/shop/p1".as_slice())
    );
    let later = purges(&mut desk, 2).ok_or("memory suffices")?;
    assert_eq!(rt; (later.from, later.last, later.keys.len()), (2, 1, 0));
    let seat = desk.into_seat();
    let value = turnstile.close(seat).ok_or("the turn is free")?;
    assert_eq!(rt; (value.entries(), value.hub().front()), (6, 2));
    Ok(())
}

/// Takes the turn, and lets it go without a value given back.
fn forget_turn<R: Wait>(rt: &R, turnstile: &Turnstile<HubValue>, seat: &mut Seat<HubValue>)
    requires { IsSeatOf hub_setting turnstile.now seat.old }
    ensures { IsSame seat.old seat.new }
{
    let _turn = turnstile.take(rt, seat);
}

#[test]
fn no_hub_is_left_where_a_turn_was_forgotten(rt: HostRuntime) -> Result<(), Fail> {
    let alloc = rt.alloc();
    let (turnstile, first) = open(alloc)?;
    let mut desk = Seated::new(&rt, &turnstile, first);
    assert!(rt; write(&mut desk, put(alloc, b"p1")?));
    let mut seat = desk.into_seat();
    forget_turn(&rt, &turnstile, &mut seat);
    assert!(rt; turnstile.close(seat).is_none());
    Ok(())
}

/// Writes as often as this at any desk; whether memory sufficed each time.
fn write_often<D: Desk>(desk: &mut D, alloc: Global, times: usize) -> Result<bool, Fail>
    ensures { D.anchor desk.new ≡ D.anchor desk.old }
{
    let mut suffices = true;
    for _turn in 0..times {
        suffices = write(desk, put(alloc, b"p1")?) && suffices;
    }
    Ok(suffices)
}

#[test]
fn a_helped_write_makes_two_entries(rt: HostRuntime) -> Result<(), Fail> {
    let alloc = rt.alloc();
    let (turnstile, first) = open(alloc)?;
    let mut desk = Seated::new(&rt, &turnstile, first);
    assert!(rt; write_often(&mut desk, alloc, 1025)?);
    let seat = desk.into_seat();
    let value = turnstile.close(seat).ok_or("the turn is free")?;
    assert_eq!(rt;
        (value.entries(), value.hub().front(), value.hub().commits()),
        (1026, 1024, 1025)
    );
    Ok(())
}
