//! Writes far behind the front.

use crate::calls::{AMPLE, WHOLE, calls_of, pipe_over};
use crate::texts::repeated;
use crate::worked::PUT;
use quaestor_prog::Status;
use std::test::Fail;

/// The numbers of the store are asked for.
const STATS: &[u8] = b"GET /v1/stats HTTP/1.1\r\nHost: a\r\n\r\n";

/// The 1,025th write that is not matched is helped by a match of the 1,024 before it.
#[test]
fn a_write_behind_1024_unmatched_commits_is_helped(rt: HostRuntime) -> Result<(), Fail> {
    let alloc = rt.alloc();
    let rows: [(usize, &[u8]); 2] = [
        (1024, br#"{"clock":100,"commits":1024,"front":0}"#),
        (1025, br#"{"clock":100,"commits":1025,"front":1024}"#),
    ];
    for (writes, numbers) in rows {
        let mut input = repeated(alloc, PUT, writes)?;
        input.extend_from_slice(STATS)?;
        let outcome = pipe_over(&rt, &input, calls_of(WHOLE), AMPLE, calls_of(WHOLE))?;
        assert_eq!(rt; outcome.status, Status::Done);
        assert!(rt; outcome.written.ends_with(numbers));
    }
    Ok(())
}
