//! Worlds, and runs with crashes: their texts.

use crate::calls::{AMPLE, WHOLE, assert_run, calls_of, run_over};
use quaestor_prog::Status;
use std::test::Fail;

/// A world of one step, which is no read.
const FIRST: &[u8] = b"steps 1\ncommits 2000\nreads 0\ncached 0\ndirect 0\nrecord 0\n";

/// A run with crashes of one step, which is no crash.
const FIRST_CRASH: &[u8] = b"open 0 0 0\nsteps 1\ncommits 0\ncrashes 0\n";

#[test]
fn the_text_of_a_run_is_written_or_a_beginning_of_it(rt: HostRuntime) -> Result<(), Fail> {
    let rows = [
        ("world", FIRST, AMPLE, Status::Done),
        ("world", FIRST, FIRST.len(), Status::Done),
        ("world", FIRST, FIRST.len() - 1, Status::WriteFault),
        ("world", FIRST, 0, Status::WriteFault),
        ("crash", FIRST_CRASH, AMPLE, Status::Done),
        ("crash", FIRST_CRASH, FIRST_CRASH.len(), Status::Done),
        (
            "crash",
            FIRST_CRASH,
            FIRST_CRASH.len() - 1,
            Status::WriteFault,
        ),
        ("crash", FIRST_CRASH, 0, Status::WriteFault),
    ];
    for (command, text, capacity, status) in rows {
        let outcome = run_over(
            &rt,
            &[command, "7", "1"],
            b"x",
            calls_of(WHOLE),
            capacity,
            calls_of(WHOLE),
        )?;
        assert_run(
            &rt,
            &outcome,
            status,
            text.get(..capacity).unwrap_or(text),
            capacity,
        );
    }
    Ok(())
}
