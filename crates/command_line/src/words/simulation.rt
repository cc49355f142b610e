//! The words of the commands `world` and `crash`.
ghost use Rattle.std.specs.Prelude.{◌≡◌, ℕ, true, is_some, IfOk, IfErr, codes};
ghost use Rattle.clap.specs.Words.{first_of, found_of, rows_of};
ghost use Rattle.command_line.specs.declared.command_name.CommandName.TheVariants as name;
ghost use Rattle.command_line.specs.Words.{AreSimulationOptions, IsBadValue, IsFound};

use crate::command_name::Simulation;
use crate::options::{Invocation, SimulationOptions};
use crate::ranges::MOST_SEED;
use crate::refusal::{BadValue, Refusal};
use crate::words::argument_of;
use clap::ArgMatches;

/// What the words of this simulation ask for, by what clap found.
pub(crate) fn simulation_found<'a>(which: Simulation, matches: &ArgMatches<'a>) -> Invocation<'a>
    requires seed { is_some (first_of (codes "SEED") (rows_of (found_of matches.now))) ≡ true }
    requires steps { is_some (first_of (codes "STEPS") (rows_of (found_of matches.now))) ≡ true }
    ensures { IsFound (name.Simulate which) (rows_of (found_of matches.now)) result }
{
    match simulation_options(which, matches) {
        Ok(options) => Invocation::Simulate(options),
        Err(value) => Invocation::Invalid(Refusal::Value(value)),
    }
}

/// The two words of this simulation, by what clap found.
fn simulation_options<'a>(
    which: Simulation,
    matches: &ArgMatches<'a>,
) -> Result<SimulationOptions, BadValue<'a>>
    requires seed { is_some (first_of (codes "SEED") (rows_of (found_of matches.now))) ≡ true }
    requires steps { is_some (first_of (codes "STEPS") (rows_of (found_of matches.now))) ≡ true }
    ensures ok { IfOk result (λ s. AreSimulationOptions which (rows_of (found_of matches.now)) s.seed s.steps) }
    ensures which { IfOk result (λ s. s.which ≡ which) }
    ensures err { IfErr result (λ _. (seed steps : ℕ) → AreSimulationOptions which (rows_of (found_of matches.now)) seed steps → ⊥) }
    ensures value { IfErr result (IsBadValue (rows_of (found_of matches.now))) }
{
    let seed = argument_of(matches, "SEED", 0, MOST_SEED)?;
    let steps = argument_of(matches, "STEPS", 1, which.most_steps())?;
    Ok(SimulationOptions {
        which,
        seed,
        steps: steps as u32,
    })
}
