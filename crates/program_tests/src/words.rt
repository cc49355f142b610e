//! The words of a command line: which are taken, and what the others are answered.

use crate::calls::{AMPLE, Outcome, WHOLE, assert_run, calls_of, run_over, words_of};
use crate::texts::{all_of, joined};
use crate::worked::{FOUND, GET, LAST, PUT, STORED, USAGE};
use q_base::Memory;
use quaestor_prog::{Status, refusal_of};
use std::alloc::Global;
use std::rt;
use std::sync::Wait;
use std::test::Fail;
use std::thread::Threads;

#[test]
fn words_are_taken_or_refused(rt: HostRuntime) -> Result<(), Fail> {
    let input = joined(rt.alloc(), PUT, GET)?;
    let replies = joined(rt.alloc(), STORED, FOUND)?;
    let rows: [(&[&str], Status, &[u8]); 12] = [
        (&["pipe", "--clock", "100"], Status::Done, &replies),
        (
            &["pipe", "--clock", "18446744073709551615"],
            Status::Done,
            LAST,
        ),
        (&["pipe"], Status::Done, LAST),
        (&["pipe", "--clock", "01"], Status::Words, USAGE),
        (&["pipe", "--clock", "-1"], Status::Words, USAGE),
        (&["pipe", "--clock", "+1"], Status::Words, USAGE),
        (
            &["pipe", "--clock", "18446744073709551616"],
            Status::Words,
            USAGE,
        ),
        (
            &["pipe", "--clock", "1", "--clock", "2"],
            Status::Words,
            USAGE,
        ),
        (&["pipe", "--clock"], Status::Words, USAGE),
        (&["pipe", "--clock", ""], Status::Words, USAGE),
        (&["serve"], Status::Words, USAGE),
        (&[], Status::Words, USAGE),
    ];
    for (at, (line, status, written)) in rows.into_iter().enumerate() {
        let outcome = run_over(&rt, line, &input, calls_of(WHOLE), AMPLE, calls_of(WHOLE))?;
        assert_run(&rt, &outcome, status, written, at);
    }
    Ok(())
}

/// Runs the program with the words of this line over a document that is put and read.
pub(crate) fn run_line<R: Threads + Wait + rt::Clock + Copy + Send + AllocGlobal + 'static>(
    rt: &R,
    line: &str,
) -> Result<Outcome, Memory> {
    let alloc = rt.alloc();
    let mut words = Vec::new(alloc);
    for word in line.split(' ') {
        words.push(word)?;
    }
    let input = joined(alloc, PUT, GET)?;
    run_over(rt, &words, &input, calls_of(WHOLE), AMPLE, calls_of(WHOLE))
}

#[test]
fn options_are_numbers_within_their_limits(rt: HostRuntime) -> Result<(), Fail> {
    let rows = [
        ("pipe --bits 9", Status::Words),
        ("pipe --bits=10 --hashes 16", Status::Done),
        ("pipe --bits 23", Status::Words),
        ("pipe --hashes 0", Status::Words),
        ("pipe --hashes 17", Status::Words),
        ("pipe --ttl-low 0", Status::Words),
        ("pipe --ttl-low 61 --ttl-high 60", Status::Words),
        ("pipe --ttl-low=60 --ttl-high 60", Status::Done),
        ("pipe --ttl-low 3601", Status::Words),
        ("pipe --ttl-high 31536001", Status::Words),
        ("pipe --active 0", Status::Done),
        ("pipe --active 1000001", Status::Words),
        ("pipe --active +5", Status::Words),
        ("pipe --bytes 65791", Status::Words),
        ("pipe --bytes 65792 --clock=5", Status::Done),
        ("pipe --bytes 134217729", Status::Words),
        ("pipe x", Status::Words),
        ("pipe --frobnicate 1", Status::Words),
        ("world 7 0", Status::Words),
        ("world 7 1000001", Status::Words),
        ("world 07 10", Status::Words),
        ("world 18446744073709551616 1", Status::Words),
        ("world 7", Status::Words),
        ("world 7 1 1", Status::Words),
        ("world --seed 7 1", Status::Words),
        ("world 18446744073709551615 1", Status::Done),
        ("crash 7 0", Status::Words),
        ("crash 7 100001", Status::Words),
        ("crash 7", Status::Words),
        ("crash 18446744073709551615 1", Status::Done),
        ("read here session", Status::Words),
        ("read here Session r/shop/p1", Status::Words),
        ("read here weak r/shop/p1", Status::Words),
        ("read here session r/shop", Status::Words),
        (
            "read here session q/shop/objects/f=true;o=;s=0;n=0100",
            Status::Words,
        ),
        ("read here session r/shop/p1 r/shop/p2", Status::Words),
        ("read here session r/shop/p1 --clock 5", Status::Words),
        ("serve here there", Status::Words),
        ("serve here --clock 5", Status::Words),
        ("serve here --bits 9", Status::Words),
        ("serve here --workers 0", Status::Words),
        ("serve here --workers 65", Status::Words),
        ("serve here --matchers 0", Status::Words),
        ("serve here --matchers 17", Status::Words),
        ("serve here --connections 0", Status::Words),
        ("serve here --connections 1099511627777", Status::Words),
        ("serve here --places 0", Status::Words),
        ("serve here --places 32769", Status::Words),
        ("serve here --idle 3601", Status::Words),
        ("serve here --head-time 0", Status::Words),
        ("serve here --reply-time 3601", Status::Words),
        ("serve here --least-rate 1000001", Status::Words),
        ("serve here --grace 3601", Status::Words),
        ("serve here --idle 1 --idle 1", Status::Words),
        ("serve here --frobnicate 1", Status::Words),
        ("serve here --allow-origin", Status::Words),
        (
            "serve here --allow-origin https://a.example/",
            Status::Words,
        ),
        (
            "serve here --allow-origin https://a.example --allow-origin https://b.example",
            Status::Words,
        ),
        ("pipe --allow-origin https://a.example", Status::Words),
        (
            "pipe --ttl-absent 60 --ttl-shared=31536000 --host a",
            Status::Done,
        ),
        ("pipe --ttl-absent 0", Status::Words),
        ("pipe --ttl-absent 1 --ttl-absent 1", Status::Words),
        ("pipe --ttl-shared 31536001", Status::Words),
        ("pipe --host", Status::Words),
        ("pipe --host a/b", Status::Words),
        ("pipe --host a --host b", Status::Words),
        ("pipe --metrics 127.0.0.1:9090", Status::Words),
        ("pipe --log -", Status::Words),
        ("pipe --log-json", Status::Words),
        ("serve here --ttl-shared x", Status::Words),
        ("serve here --host a,b", Status::Words),
        ("serve here --metrics", Status::Words),
        ("serve here --metrics a --metrics b", Status::Words),
        ("serve here --log", Status::Words),
        ("serve here --log-json", Status::Words),
        ("serve here --log - --log-json --log-json", Status::Words),
        ("serve here --log - --log-json=true", Status::Words),
    ];
    for (at, (line, status)) in rows.into_iter().enumerate() {
        let outcome = run_line(&rt, line)?;
        assert_eq!(rt; outcome.status, status, "at {at}");
        if status == Status::Words {
            assert_eq!(rt; outcome.written.as_slice(), USAGE, "at {at}");
        }
    }
    Ok(())
}

/// The last number of a command line is taken from the least to the greatest, and not beyond.
#[test]
fn numbers_are_taken_up_to_their_limits(rt: HostRuntime) -> Result<(), Fail> {
    // The words ahead of the number, two numbers that are taken, and two that are not.
    let rows: [(&[&str], [&str; 2], [&str; 2]); 22] = [
        (&["pipe", "--bits"], ["10", "22"], ["9", "23"]),
        (&["pipe", "--hashes"], ["1", "16"], ["0", "17"]),
        (&["pipe", "--ttl-low"], ["1", "3600"], ["0", "3601"]),
        (
            &["pipe", "--ttl-high"],
            ["1", "31536000"],
            ["0", "31536001"],
        ),
        (
            &["pipe", "--ttl-high", "31536000", "--ttl-low"],
            ["1", "31536000"],
            ["0", "31536001"],
        ),
        (&["pipe", "--active"], ["0", "1000000"], ["00", "1000001"]),
        (
            &["pipe", "--bytes"],
            ["65792", "134217728"],
            ["65791", "134217729"],
        ),
        (
            &["serve", "here", "--places"],
            ["1", "32768"],
            ["0", "32769"],
        ),
        (&["serve", "here", "--workers"], ["1", "64"], ["0", "65"]),
        (&["serve", "here", "--matchers"], ["1", "16"], ["0", "17"]),
        (
            &["serve", "here", "--connections"],
            ["1", "1099511627776"],
            ["0", "1099511627777"],
        ),
        (&["serve", "here", "--idle"], ["0", "3600"], ["00", "3601"]),
        (
            &["serve", "here", "--head-time"],
            ["1", "3600"],
            ["0", "3601"],
        ),
        (
            &["serve", "here", "--reply-time"],
            ["1", "3600"],
            ["0", "3601"],
        ),
        (
            &["serve", "here", "--least-rate"],
            ["1", "1000000"],
            ["0", "1000001"],
        ),
        (&["serve", "here", "--grace"], ["0", "3600"], ["00", "3601"]),
        (
            &["pipe", "--ttl-absent"],
            ["1", "31536000"],
            ["0", "31536001"],
        ),
        (
            &["pipe", "--ttl-shared"],
            ["1", "31536000"],
            ["0", "31536001"],
        ),
        (
            &["serve", "here", "--ttl-absent"],
            ["1", "31536000"],
            ["00", "31536001"],
        ),
        (
            &["serve", "here", "--ttl-shared"],
            ["1", "31536000"],
            ["00", "31536001"],
        ),
        (&["world", "7"], ["1", "1000000"], ["0", "1000001"]),
        (&["crash", "7"], ["1", "100000"], ["0", "100001"]),
    ];
    for (words, within, beyond) in rows {
        for number in within {
            assert!(rt; is_taken(rt.alloc(), words, number)?, "{number}");
        }
        for number in beyond {
            assert!(rt; !is_taken(rt.alloc(), words, number)?, "{number}");
        }
    }
    Ok(())
}

/// Whether a command takes these words with this one behind them.
pub(crate) fn is_taken<'a>(
    alloc: Global,
    words: &'a [&'a str],
    last: &'a str,
) -> Result<bool, Memory> {
    let mut line = Vec::from_slice(alloc, words)?;
    line.push(last)?;
    let words = words_of(alloc, &line)?;
    Ok(refusal_of(alloc, &words)?.is_none())
}

/// A record that is never written is read.
const GET_ELSEWHERE: &[u8] = b"GET /v1/d/shop/p2 HTTP/1.1\r\nHost: a\r\n\r\n";

/// Ahead of what the reply to the read of a document says of its lifetime, at the moment 100.
const BEFORE_LIFETIME: &[u8] =
    b"HTTP/1.1 200 OK\r\nDate: Thu, 01 Jan 1970 00:01:40 GMT\r\nContent-Type: application/json\r\nContent-Length: 7\r\nETag: \"1\"\r\nCache-Control: ";

/// The same of the read of a record that is never written.
const BEFORE_OTHER: &[u8] =
    b"HTTP/1.1 404 Not Found\r\nDate: Thu, 01 Jan 1970 00:01:40 GMT\r\nContent-Type: application/json\r\nContent-Length: 18\r\nCache-Control: ";

/// A record that is read in the second of its write has the least lifetime, and one that is never
/// written the greatest; there is none where as many keys are active as may be.
#[test]
fn lifetimes_are_within_their_limits(rt: HostRuntime) -> Result<(), Fail> {
    // The line, and twice the lifetime and its end.
    let rows: [(&[&str], &[u8], &[u8], &[u8], &[u8]); 7] = [
        (&[], b"max-age=1", b"101", b"max-age=3600", b"3700"),
        (
            &["--ttl-low", "60"],
            b"max-age=60",
            b"160",
            b"max-age=3600",
            b"3700",
        ),
        (
            &["--ttl-high", "600"],
            b"max-age=1",
            b"101",
            b"max-age=600",
            b"700",
        ),
        (
            &["--ttl-low=30", "--ttl-high=30"],
            b"max-age=30",
            b"130",
            b"max-age=30",
            b"130",
        ),
        (&["--active", "0"], b"no-store", b"100", b"no-store", b"100"),
        (
            &["--active", "1"],
            b"max-age=1",
            b"101",
            b"no-store",
            b"100",
        ),
        (
            &["--active", "2"],
            b"max-age=1",
            b"101",
            b"max-age=3600",
            b"3700",
        ),
    ];
    let alloc = rt.alloc();
    let input = all_of(alloc, &[PUT, GET, GET_ELSEWHERE])?;
    for (at, (options, age, until, other_age, other_until)) in rows.into_iter().enumerate() {
        let mut line = Vec::from_slice(alloc, &["pipe", "--clock", "100"])?;
        line.extend_from_slice(options)?;
        let written = all_of(
            alloc,
            &[
                STORED,
                BEFORE_LIFETIME,
                age,
                b"\r\nQuaestor-Commit: 1\r\nQuaestor-Version: 1\r\nQuaestor-Until: ",
                until,
                b"\r\n\r\n{\"a\":1}",
                BEFORE_OTHER,
                other_age,
                b"\r\nQuaestor-Commit: 1\r\nQuaestor-Until: ",
                other_until,
                b"\r\n\r\n{\"error\":\"absent\"}",
            ],
        )?;
        let outcome = run_over(&rt, &line, &input, calls_of(WHOLE), AMPLE, calls_of(WHOLE))?;
        assert_run(&rt, &outcome, Status::Done, &written, at);
    }
    Ok(())
}

#[test]
fn help_and_version_are_written(rt: HostRuntime) -> Result<(), Fail> {
    for line in [
        "--help",
        "-h",
        "pipe --help",
        "pipe -h",
        "serve --help",
        "read --help",
        "world -h",
        "crash -h",
    ] {
        let outcome = run_line(&rt, line)?;
        assert_eq!(rt; outcome.status, Status::Done, "of {line}");
        assert!(rt; outcome.written.len() > USAGE.len(), "of {line}");
    }
    for line in [
        "--version",
        "-V",
        "pipe --version",
        "serve -V",
        "read -V",
        "world -V",
        "crash -V",
    ] {
        let outcome = run_line(&rt, line)?;
        assert_run(&rt, &outcome, Status::Done, b"quaestor 0.1.0\n", 0);
    }
    Ok(())
}

#[test]
fn refused_words_have_a_message(rt: HostRuntime) -> Result<(), Fail> {
    let rows: [(&[&str], &str); 15] = [
        (
            &["world", "7", "0"],
            "error: STEPS is a decimal number from 1 to 1000000, not '0'\n",
        ),
        (
            &["world", "07", "10"],
            "error: SEED is a decimal number from 0 to 18446744073709551615, not '07'\n",
        ),
        (
            &["read", "here", "weak", "r/shop/p1"],
            "error: LEVEL is session, causal or strong, not 'weak'\n",
        ),
        (
            &["read", "here", "causal", "q/shop/ids/f=(true);o=;s=0;n=100"],
            "error: KEY is r/COLLECTION/ID, or q/COLLECTION/KIND/f=FILTER;o=ORDER;s=SKIP;n=TAKE of a query in its normal form, and 'q/shop/ids/f=(true);o=;s=0;n=100' is not from its byte 13 on\n",
        ),
        (
            &["read", "here", "causal"],
            "error: the following required arguments were not provided:\n  <KEY>\n",
        ),
        (
            &["pipe", "--bits", "9"],
            "error: --bits is a decimal number from 10 to 22, not '9'\n",
        ),
        (
            &["serve", "here", "--workers", "65"],
            "error: --workers is a decimal number from 1 to 64, not '65'\n",
        ),
        (
            &["serve", "here", "--idle=x"],
            "error: --idle is a decimal number from 0 to 3600, not 'x'\n",
        ),
        (
            &["serve", "here", "--least-rate", "0"],
            "error: --least-rate is a decimal number from 1 to 1000000, not '0'\n",
        ),
        (
            &["serve", "--workers", "2"],
            "error: the following required arguments were not provided:\n  <ADDR>\n",
        ),
        (
            &["serve", "here", "--allow-origin", "https://a.example/"],
            "error: --allow-origin is *, or origins such as https://example.com with a space between two, without a path or a slash at the end, not 'https://a.example/'\n",
        ),
        (
            &["serve", "here", "--host", "https://a.example"],
            "error: --host is names such as example.com or example.com:8080, of at most 255 bytes each, with a space between two, not 'https://a.example'\n",
        ),
        (
            &["serve", "here", "--ttl-absent", "0"],
            "error: --ttl-absent is a decimal number from 1 to 31536000, not '0'\n",
        ),
        (
            &["pipe", "--ttl-shared", "31536001"],
            "error: --ttl-shared is a decimal number from 1 to 31536000, not '31536001'\n",
        ),
        (
            &["serve", "here", "--log-json"],
            "error: --log-json is given without --log\n",
        ),
    ];
    for (line, message) in rows {
        let words = words_of(rt.alloc(), line)?;
        let Some(refusal) = refusal_of(rt.alloc(), &words)? else {
            return Err(Fail::from("the words are taken"));
        };
        let text = format!(in rt.alloc(); "{refusal}")?;
        assert!(rt; text.starts_with(message), "{text}");
    }
    Ok(())
}
