//! A run, and its text.
ghost use Rattle.std.specs.Prelude.{◌≡◌, ◌<◌, IfOk};
ghost use Rattle.crash_core.specs.Run.{IsRunOf, StepsInto};
ghost use Rattle.crash_core.specs.Told.{IsCrashText};

use crate::expected::Expected;
use crate::lines::{OpenLine, text_of};
use crate::machine::{FIRST_CLOCK, Machine};
use crate::step::{CrashStep, next_step};
use disks::MemoryDisk;
use hub_core::{Config, PageRoom};
use q_base::{Commit, Memory};
use std::alloc::Global;
use std::marker::Brand;
use std::sync::ledger::{Blank, Ledger};
use world_core::Generator;

/// What a run came to.
#[derive(Debug, Drop)]
pub(crate) struct Ran {
    /// The line of the empty disk, and those behind the crashes.
    pub lines: Vec<OpenLine>,
    /// The number of commits at the end.
    pub commits: Commit,
}

/// The text of the run that a seed gives: a line for each opening of the store, and then the numbers of the
/// run.
pub fn crash_text(alloc: Global, seed: u64, count: u32) -> Result<Vec<u8>, Memory>
    ensures { IfOk result (λ text. IsCrashText seed count text.items) }
{
    let ran = run_of(alloc, seed, count)?;
    text_of(alloc, count, &ran.lines, ran.commits)
}

/// The run, with a ledger of its own for the faults of its disk.
fn run_of(alloc: Global, seed: u64, count: u32) -> Result<Ran, Memory>
    ensures { IfOk result (IsRunOf seed count) }
{
    run_counted::<Brand>(alloc, seed, count, Blank::new(1))
}

/// Makes the steps that a seed gives on a machine with an empty disk.
fn run_counted<L: Ledger>(alloc: Global, seed: u64, count: u32, blank: Blank) -> Result<Ran, Memory>
    requires name { blank.name ≡ L.name }
    requires parts { blank.parts ≡ L.parts }
    requires some { 0 < L.parts }
    ensures { IfOk result (IsRunOf seed count) }
{
    let disk = MemoryDisk::<L>::new(alloc, Vec::new(alloc), Vec::new(alloc), blank);
    let room = PageRoom::new(alloc, &Config::default())?;
    let nothing = Expected::nothing();
    let (mut machine, line) = Machine::open(alloc, disk, room, FIRST_CLOCK, nothing, 0)?;
    let mut lines = Vec::new(alloc);
    lines.push(line)?;
    let mut generator = Generator { number: seed };
    for step in 0..count {
        machine = step_into(machine, &mut generator, step + 1, &mut lines)?;
    }
    let commits = machine.commits()?;
    Ok(Ran { lines, commits })
}

/// Makes the next step that is drawn, and appends the line that it writes, if any.
fn step_into<L: Ledger>(
    mut machine: Machine<L>,
    generator: &mut Generator,
    number: u32,
    lines: &mut Vec<OpenLine>,
) -> Result<Machine<L>, Memory>
    requires { 0 < L.parts }
    ensures { IfOk result (λ after. StepsInto number machine generator.old.number lines.old.items after generator.new.number lines.new.items) }
{
    match next_step(generator) {
        CrashStep::Crash(stopped) => {
            let stop = machine.stop(stopped)?;
            let (next, line) = machine.restart(generator, number, stop, stopped.calls)?;
            lines.push(line)?;
            Ok(next)
        }
        CrashStep::Quiet(quiet) => {
            machine.make(quiet)?;
            Ok(machine)
        }
    }
}
