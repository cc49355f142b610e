//! Servers at an address in memory.

use crate::calls::{AMPLE, Comers, Outcome, WHOLE, calls_of, run_at};
use q_base::Memory;
use q_outside::{Limits, Served, Why};
use quaestor_prog::Status;
use std::rt;
use std::sync::Wait;
use std::test::Fail;
use std::thread::Threads;

/// So many connections come, and then none.
fn coming(connections: usize) -> Option<Comers> {
    Some(Comers {
        connections,
        failing: None,
    })
}

/// The doors fail where the second connection would come.
const FAILING: Option<Comers> = Some(Comers {
    connections: 3,
    failing: Some(1),
});

/// How many connections the places have back, where they have doors.
fn count_of(outcome: &Outcome) -> Option<usize> {
    outcome.kept.handed.as_ref().map(|handed| handed.len())
}

/// Runs a server to which one connection comes.
fn run_served<R: Threads + Wait + rt::Clock + Copy + Send + AllocGlobal + 'static>(
    rt: &R,
    line: &[&str],
) -> Result<Outcome, Memory> {
    run_at(
        rt,
        line,
        b"",
        calls_of(WHOLE),
        AMPLE,
        calls_of(WHOLE),
        coming(1),
    )
}

#[test]
fn a_server_says_what_it_does(rt: HostRuntime) -> Result<(), Fail> {
    let rows: [(&[&str], Option<Comers>, Status, &[u8], Option<usize>); 8] = [
        (
            &["serve", "here", "--connections", "2"],
            coming(2),
            Status::Done,
            b"listening on here\nserved 2\n",
            Some(2),
        ),
        (
            &["serve", "--connections=2", "here", "--workers", "1"],
            coming(1),
            Status::Done,
            b"listening on here\nserved 1\n",
            Some(1),
        ),
        (
            &["serve", "--matchers", "2", "--", "here"],
            coming(0),
            Status::Done,
            b"listening on here\nserved 0\n",
            Some(0),
        ),
        (
            &["serve", "here", "--active", "0", "--connections", "1"],
            coming(3),
            Status::Done,
            b"listening on here\nserved 1\n",
            Some(1),
        ),
        (
            &["serve", "here"],
            FAILING,
            Status::PlaceFault,
            b"listening on here\nserved 1\n",
            Some(1),
        ),
        (&["serve", "here"], None, Status::PlaceFault, b"", None),
        (
            &["serve", "there"],
            coming(2),
            Status::PlaceFault,
            b"",
            None,
        ),
        (&["serve", ""], coming(2), Status::PlaceFault, b"", None),
    ];
    let well = Served {
        requests: 1,
        why: Why::InputEnd,
    };
    for (at, (line, comers, status, written, count)) in rows.into_iter().enumerate() {
        let outcome = run_at(
            &rt,
            line,
            b"x",
            calls_of(WHOLE),
            AMPLE,
            calls_of(WHOLE),
            comers,
        )?;
        assert_eq!(rt; outcome.status, status, "at {at}");
        assert_eq!(rt; outcome.written.as_slice(), written, "at {at}");
        assert_eq!(rt; count_of(&outcome), count, "at {at}");
        if let Some(handed) = &outcome.kept.handed {
            for served in handed {
                assert_eq!(rt; *served, Some(well), "at {at}");
            }
        }
    }
    Ok(())
}

/// What a server writes that has served one connection.
const ONE: &[u8] = b"listening on here\nserved 1\n";

/// The length of the first line.
const FIRST: usize = 18;

#[test]
fn a_server_ends_by_the_first_fault(rt: HostRuntime) -> Result<(), Fail> {
    for capacity in [0, 5, FIRST - 1, FIRST, FIRST + 8, ONE.len()] {
        for (comers, ended) in [(coming(1), Status::Done), (FAILING, Status::PlaceFault)] {
            let outcome = run_at(
                &rt,
                &["serve", "here", "--workers", "1"],
                b"",
                calls_of(WHOLE),
                capacity,
                calls_of(WHOLE),
                comers,
            )?;
            let is_announced = capacity >= FIRST;
            let status = if capacity == ONE.len() || (is_announced && ended != Status::Done) {
                ended
            } else {
                Status::WriteFault
            };
            let written = ONE.get(..capacity).unwrap_or(ONE);
            let count = if is_announced { 1 } else { 0 };
            assert_eq!(rt; outcome.status, status, "at {capacity}");
            assert_eq!(rt; outcome.written.as_slice(), written, "at {capacity}");
            assert_eq!(rt; count_of(&outcome), Some(count), "at {capacity}");
        }
    }
    Ok(())
}

#[test]
fn the_places_get_the_limits_of_time(rt: HostRuntime) -> Result<(), Fail> {
    let defaults = Limits {
        idle: 30,
        head_time: 10,
        reply_time: 10,
        least_rate: 1_000,
        grace: 10,
    };
    let rows: [(&[&str], Option<Limits>); 3] = [
        (&["serve", "here"], Some(defaults)),
        (
            &[
                "serve",
                "here",
                "--idle",
                "7",
                "--head-time=8",
                "--reply-time",
                "9",
                "--least-rate",
                "20000",
                "--grace=0",
            ],
            Some(Limits {
                idle: 7,
                head_time: 8,
                reply_time: 9,
                least_rate: 20_000,
                grace: 0,
            }),
        ),
        (&["serve", "there"], None),
    ];
    for (line, limits) in rows {
        let outcome = run_served(&rt, line)?;
        assert_eq!(rt; outcome.kept.limits, limits);
    }
    Ok(())
}

/// What a server is watched by goes to the places, as it is written.
#[test]
fn the_places_are_told_who_watches(rt: HostRuntime) -> Result<(), Fail> {
    let rows: [(&[&str], Option<&str>, Option<&str>, bool); 4] = [
        (&["serve", "here"], None, None, false),
        (
            &["serve", "here", "--metrics", "127.0.0.1:9090"],
            Some("127.0.0.1:9090"),
            None,
            false,
        ),
        (&["serve", "here", "--log=-"], None, Some("-"), false),
        (
            &[
                "serve",
                "here",
                "--log",
                "a.log",
                "--log-json",
                "--metrics=there:0",
            ],
            Some("there:0"),
            Some("a.log"),
            true,
        ),
    ];
    for (line, metrics, log, json) in rows {
        let outcome = run_served(&rt, line)?;
        let Some(watched) = &outcome.kept.watched else {
            return Err(Fail::from("the places were not asked"));
        };
        assert_eq!(rt; watched.metrics.as_deref(), metrics);
        assert_eq!(rt; watched.log.as_deref(), log);
        assert_eq!(rt; watched.json, json);
    }
    Ok(())
}
