//! What options take that are no numbers, and the helps that have them.

use crate::calls::words_of;
use crate::words::{is_taken, run_line};
use quaestor_prog::refusal_of;
use std::test::Fail;

/// The origins of web pages: a star alone, or origins with one space between two.
#[test]
fn origins_are_taken_or_refused(rt: HostRuntime) -> Result<(), Fail> {
    let rows = [
        ("*", true),
        ("https://a.example", true),
        ("http://localhost:8080", true),
        ("https://a.example http://[::1]:8080", true),
        ("https://a.example/", false),
        ("https://a.example/x", false),
        ("https://a.example,https://b.example", false),
        ("https://*.example", false),
        ("https://a.example  https://b.example", false),
        (" https://a.example", false),
        ("* https://a.example", false),
        ("https://", false),
        ("a.example", false),
        ("ftp://a.example", false),
        ("null", false),
        ("", false),
    ];
    for (origins, taken) in rows {
        let words = words_of(rt.alloc(), &["serve", "here", "--allow-origin", origins])?;
        let refusal = refusal_of(rt.alloc(), &words)?;
        assert_eq!(rt; refusal.is_none(), taken, "of '{origins}'");
    }
    Ok(())
}

/// The names of hosts: with one space between two, each of 1 to 255 bytes, with or without a port.
#[test]
fn hosts_are_taken_or_refused(rt: HostRuntime) -> Result<(), Fail> {
    let rows = [
        ("a.example", true),
        ("a.example:8080", true),
        ("[::1]:8080 localhost", true),
        ("a.example b.example c.example", true),
        ("", false),
        (" a.example", false),
        ("a.example ", false),
        ("a.example  b.example", false),
        ("a.example,b.example", false),
        ("https://a.example", false),
        ("a.example/", false),
        ("*", false),
        ("*.example", false),
    ];
    for (hosts, taken) in rows {
        let alloc = rt.alloc();
        assert_eq!(rt;
            is_taken(alloc, &["serve", "here", "--host"], hosts)?,
            taken,
            "of '{hosts}'"
        );
        assert_eq!(rt;
            is_taken(alloc, &["pipe", "--host"], hosts)?,
            taken,
            "of '{hosts}'"
        );
    }
    Ok(())
}

/// A server may be watched by an address, by a log, or by both; the form of a log needs one.
#[test]
fn watching_is_taken_or_refused(rt: HostRuntime) -> Result<(), Fail> {
    let rows: [(&[&str], &str, bool); 8] = [
        (&["serve", "here", "--metrics"], "127.0.0.1:9090", true),
        (&["serve", "here", "--log"], "quaestor.log", true),
        (&["serve", "here", "--log"], "-", true),
        (&["serve", "here", "--log", "-"], "--log-json", true),
        (&["serve", "--log-json", "here"], "--log=-", true),
        (&["serve", "here"], "--log-json", false),
        (
            &["serve", "here", "--metrics", "there"],
            "--log-json",
            false,
        ),
        (&["pipe"], "--log=-", false),
    ];
    for (words, last, taken) in rows {
        assert_eq!(rt; is_taken(rt.alloc(), words, last)?, taken, "of '{last}'");
    }
    Ok(())
}

/// A store may be kept in a file; what a sync waits for needs one, and is nothing or a second at most.
#[test]
fn files_are_taken_or_refused(rt: HostRuntime) -> Result<(), Fail> {
    let rows: [(&[&str], &str, bool); 12] = [
        (&["serve", "here", "--data"], "store.qsj", true),
        (&["pipe", "--data"], "store.qsj", true),
        (&["pipe", "--data", "store.qsj", "--sync"], "always", true),
        (&["pipe", "--data", "store.qsj", "--sync"], "batch 1", true),
        (&["pipe", "--sync", "batch 1000"], "--data=s", true),
        (&["pipe", "--data", "store.qsj", "--sync"], "batch 0", false),
        (&["pipe", "--data=s", "--sync"], "batch 1001", false),
        (&["pipe", "--data=s", "--sync"], "batch 05", false),
        (&["pipe", "--data=s", "--sync"], "batch", false),
        (&["pipe", "--data=s", "--sync"], "never", false),
        (&["serve", "here", "--sync"], "always", false),
        (&["world", "1", "1", "--data"], "store.qsj", false),
    ];
    for (words, last, taken) in rows {
        assert_eq!(rt; is_taken(rt.alloc(), words, last)?, taken, "of '{last}'");
    }
    Ok(())
}

/// The help of a command has each of its options, in lines of 100 columns at most.
#[test]
fn help_has_each_option(rt: HostRuntime) -> Result<(), Fail> {
    let rows: [(&str, &[&str]); 2] = [
        (
            "pipe --help",
            &[
                "--ttl-absent <N>",
                "--ttl-shared <N>",
                "--host <NAMES>",
                "--data <FILE>",
                "--sync <WHEN>",
            ],
        ),
        (
            "serve --help",
            &[
                "--ttl-absent <N>",
                "--ttl-shared <N>",
                "--host <NAMES>",
                "--metrics <ADDRESS>",
                "--log <FILE>",
                "--log-json",
                "--data <FILE>",
                "--sync <WHEN>",
            ],
        ),
    ];
    for (line, options) in rows {
        let outcome = run_line(&rt, line)?;
        let Ok(text) = str::from_utf8(&outcome.written) else {
            return Err(Fail::from("the help is no text"));
        };
        for option in options {
            assert!(rt; text.contains(*option), "{line} has {option}");
        }
        for shown in text.split('\n') {
            assert!(rt; shown.len() <= 100, "{shown}");
        }
    }
    Ok(())
}
