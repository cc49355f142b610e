//! The text of a run with crashes, from a program of its own.

use crash_core::crash_text;
use std::test::Fail;

/// The text of the run of 300 steps that the seed 7 gives.
const TEXT: &[u8] = b"open 0 0 0
open 9 3 1003660
open 107 45 1003797
open 274 123 1004034
steps 300
commits 139
crashes 3
";

#[test]
fn a_run_has_the_text_of_its_draws(rt: HostRuntime) -> Result<(), Fail> {
    let text = crash_text(rt.alloc(), 7, 300)?;
    assert_eq!(rt; text.as_slice(), TEXT);
    Ok(())
}
