//! The lines that a run writes.
ghost use Rattle.std.specs.Prelude.{◌≡◌, ◌-◌, ◌++◌, length, IfOk, OnOk};
ghost use Rattle.crash_core.specs.Lines.{line_text, lines_text, numbers_text};

use q_base::{Commit, Memory};
use std::alloc::{AllocError, Global};
use world_core::{push_count, push_word};

/// What an opening found.
#[derive(Clone, Copy, Debug, PartialEq, Eq)]
pub struct OpenLine {
    /// The number of the step, from 1; 0 is before the first.
    pub step: u32,
    /// The number of commits that the image of the disk stands for.
    pub commits: Commit,
    /// The clock from which on no copy is unexpired that was issued before.
    pub guard: u64,
}

/// The text of a run of so many steps: a line for each opening, and then the numbers of the run. All openings
/// but the first come behind a crash.
pub(crate) fn text_of(
    alloc: Global,
    steps: u32,
    lines: &[OpenLine],
    commits: Commit,
) -> Result<Vec<u8>, Memory>
    ensures { IfOk result (λ text. text.items ≡ lines_text lines.now ++ numbers_text steps commits (length lines.now - 1)) }
{
    let mut text = Vec::new(alloc);
    push_lines(&mut text, lines)?;
    push_count(&mut text, b"steps", steps as u64)?;
    push_count(&mut text, b"commits", commits)?;
    push_count(&mut text, b"crashes", lines.len().saturating_sub(1) as u64)?;
    Ok(text)
}

/// Appends the lines of openings.
fn push_lines(text: &mut Vec<u8>, lines: &[OpenLine]) -> Result<(), AllocError>
    ensures { OnOk result (text.new.items ≡ text.old.items ++ lines_text lines.now) }
{
    for line in lines {
        push_line(text, line)?;
    }
    Ok(())
}

/// Appends the line of an opening.
fn push_line(text: &mut Vec<u8>, line: &OpenLine) -> Result<(), AllocError>
    ensures { OnOk result (text.new.items ≡ text.old.items ++ line_text line.now) }
{
    push_word(text, b"open", line.step as u64)?;
    push_word(text, b"", line.commits)?;
    push_word(text, b"", line.guard)?;
    text.extend_from_slice(b"\n")
}
