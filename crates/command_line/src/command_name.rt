//! The commands of the program, by their names.
ghost use Rattle.std.specs.Prelude.{◌≡◌, ◌≤◌, IfNone, IfSome};
ghost use Rattle.command_line.specs.declared.command_name.CommandName.{CommandName as AName};
ghost use Rattle.command_line.specs.declared.ranges.TheConstants.{MOST_WORLD_STEPS};
ghost use Rattle.command_line.specs.Commands.{most_steps, name_of};

use crate::ranges::{MOST_CRASH_STEPS, MOST_WORLD_STEPS};

/// What is run by the numbers that a seed gives.
#[derive(Clone, Copy, Debug, PartialEq, Eq)]
pub enum Simulation {
    /// A server, two caches and three clients: the command `world`.
    World,
    /// A store on a disk that crashes: the command `crash`.
    Crash,
}

impl Simulation {
    /// How many steps it may have.
    pub(crate) fn most_steps(self) -> u64
        ensures value { result ≡ most_steps self }
        ensures most { result ≤ MOST_WORLD_STEPS }
    {
        match self {
            Simulation::World => MOST_WORLD_STEPS,
            Simulation::Crash => MOST_CRASH_STEPS,
        }
    }
}

/// A command.
#[derive(Clone, Copy, Debug, PartialEq, Eq)]
pub(crate) enum CommandName {
    /// The command `pipe`.
    Pipe,
    /// The command `serve`.
    Serve,
    /// The command `read`.
    Read,
    /// The command of a simulation.
    Simulate(Simulation),
}

impl CommandName {
    /// The command of this name.
    pub(crate) fn of(word: &str) -> Option<CommandName>
        ensures some { IfSome result (λ c. word.now ≡ name_of c) }
        ensures none { IfNone result ((c : AName) → word.now ≡ name_of c → ⊥) }
    {
        match word {
            "pipe" => Some(CommandName::Pipe),
            "serve" => Some(CommandName::Serve),
            "read" => Some(CommandName::Read),
            "world" => Some(CommandName::Simulate(Simulation::World)),
            "crash" => Some(CommandName::Simulate(Simulation::Crash)),
            _ => None,
        }
    }
}
