//! The text of a run.
ghost use Rattle.std.specs.Prelude.{◌≡◌, ◌++◌, All, IfOk, OnOk, count_by, length};
ghost use Rattle.world_core.specs.Steps.{IsInRange};
ghost use Rattle.world_core.specs.Text.{blank_and, count_text, is_cached, line_text, lines_text, numbers_text, rest_text, start_text, way_word, word_and, IsRunText, IsWorldText};
ghost use Rattle.world_core.specs.World.{commits_of, record_of_world};

use crate::line::ReadLine;
use crate::product::push_number;
use crate::step::{Step, steps_of};
use crate::watch::Watch;
use crate::world::World;
use client_core::Why;
use client_session::Way;
use q_base::Memory;
use std::alloc::{AllocError, Global};
use std::mem::ManuallyDrop;

/// The text of the run of a seed: a line for each read, and then the numbers of the run. Who watches is
/// told how far it has come.
pub fn world_text<W: Watch>(
    alloc: Global,
    seed: u64,
    count: u32,
    watch: &mut W,
) -> Result<Vec<u8>, Memory>
    ensures { IfOk result (λ text. IsWorldText seed count text.items) }
{
    let steps = steps_of(alloc, seed, count)?;
    let mut world = World::new(alloc)?;
    let text = run_text(alloc, count, &steps, &mut world, watch);
    // The process ends next, which returns the world's memory at once.
    let _left = ManuallyDrop::new(world);
    text
}

/// Makes these steps, and gives the text of their run.
fn run_text<W: Watch>(
    alloc: Global,
    count: u32,
    steps: &[Step],
    world: &mut World,
    watch: &mut W,
) -> Result<Vec<u8>, Memory>
    requires count { length steps.now ≡ count }
    requires range { All IsInRange steps.now }
    ensures { IfOk result (λ text. IsRunText count steps.now world.old world.new text.items) }
{
    let lines = world.run_watched(steps, watch)?;
    text_of(alloc, count, world, &lines)
}

/// The text of a run that made these lines.
fn text_of(alloc: Global, steps: u32, world: &World, lines: &[ReadLine]) -> Result<Vec<u8>, Memory>
    ensures { IfOk result (λ text. text.items ≡ lines_text lines.now ++ numbers_text steps (commits_of world.now) lines.now (record_of_world world.now)) }
{
    let mut text = Vec::new(alloc);
    push_lines(&mut text, lines)?;
    push_numbers(&mut text, steps, world, lines)?;
    Ok(text)
}

/// Appends the lines of reads.
fn push_lines(text: &mut Vec<u8>, lines: &[ReadLine]) -> Result<(), AllocError>
    ensures { OnOk result (text.new.items ≡ text.old.items ++ lines_text lines.now) }
{
    for line in lines {
        push_line(text, line)?;
    }
    Ok(())
}

/// Appends the line of a read.
fn push_line(text: &mut Vec<u8>, line: &ReadLine) -> Result<(), AllocError>
    ensures { OnOk result (text.new.items ≡ text.old.items ++ line_text line.now) }
{
    push_start(text, line)?;
    push_rest(text, line)
}

/// Appends the line of a read up to its way.
fn push_start(text: &mut Vec<u8>, line: &ReadLine) -> Result<(), AllocError>
    ensures { OnOk result (text.new.items ≡ text.old.items ++ start_text line.now) }
{
    push_word(text, b"read", line.step as u64)?;
    push_word(text, b"", line.client as u64)?;
    push_word(text, b"", line.commit)?;
    push_text(text, way_word(line.way))
}

/// Appends the line of a read from its length on.
fn push_rest(text: &mut Vec<u8>, line: &ReadLine) -> Result<(), AllocError>
    ensures { OnOk result (text.new.items ≡ text.old.items ++ rest_text line.now) }
{
    push_word(text, b"", line.length as u64)?;
    push_text(text, line.digest.as_slice())?;
    push_text(text, line.key.text())?;
    text.extend_from_slice(b"\n")
}

/// Appends a blank and a text.
fn push_text(text: &mut Vec<u8>, piece: &[u8]) -> Result<(), AllocError>
    ensures { OnOk result (text.new.items ≡ text.old.items ++ blank_and piece.now) }
{
    text.extend_from_slice(b" ")?;
    text.extend_from_slice(piece)
}

/// Appends a word, a blank and a number.
pub fn push_word(text: &mut Vec<u8>, word: &[u8], number: u64) -> Result<(), AllocError>
    ensures { OnOk result (text.new.items ≡ text.old.items ++ word_and word.now number) }
{
    text.extend_from_slice(word)?;
    text.extend_from_slice(b" ")?;
    push_number(text, number)
}

/// The word for the way of a read.
fn way_word(way: Way) -> &'static [u8]
    ensures { result.now ≡ way_word way }
{
    match way {
        Way::Cached => b"cached",
        Way::Direct(Why::Strong) => b"strong",
        Way::Direct(Why::Flagged) => b"flagged",
        Way::Direct(Why::Older) => b"older",
        Way::Direct(Why::Expired) => b"expired",
        Way::Direct(Why::BelowFloor) => b"below_floor",
    }
}

/// Appends the numbers of a run.
fn push_numbers(
    text: &mut Vec<u8>,
    steps: u32,
    world: &World,
    lines: &[ReadLine],
) -> Result<(), AllocError>
    ensures { OnOk result (text.new.items ≡ text.old.items ++ numbers_text steps (commits_of world.now) lines.now (record_of_world world.now)) }
{
    let cached = cached_count(lines);
    push_count(text, b"steps", steps as u64)?;
    push_count(text, b"commits", world.commits())?;
    push_count(text, b"reads", lines.len() as u64)?;
    push_count(text, b"cached", cached as u64)?;
    push_count(text, b"direct", (lines.len() - cached) as u64)?;
    push_count(text, b"record", world.record_count() as u64)
}

/// Appends the line of a number.
pub fn push_count(text: &mut Vec<u8>, word: &[u8], number: u64) -> Result<(), AllocError>
    ensures { OnOk result (text.new.items ≡ text.old.items ++ count_text word.now number) }
{
    push_word(text, word, number)?;
    text.extend_from_slice(b"\n")
}

/// The number of the lines of accepted copies.
fn cached_count(lines: &[ReadLine]) -> usize
    ensures { result ≡ count_by is_cached lines.now }
{
    lines.iter().filter(|line| line.is_cached()).count()
}
