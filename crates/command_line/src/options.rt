//! What the words of each command ask for.
ghost use Rattle.std.specs.Prelude.{◌≡◌, is_some};

use crate::command_name::Simulation;
use crate::help::HelpText;
use crate::refusal::Refusal;
use crate::store::Data;
use crate::watching::Watching;
use client_core::Level;
use hub_core::Config;
use hub_desk::Trim;
use q_outside::Limits;
use query_normal::Key;

/// The options of the command `pipe`.
#[derive(Debug, Drop)]
pub struct PipeOptions<'a> {
    /// The limits and defaults of the store.
    pub config: Config,
    /// The file that keeps it, where one does.
    pub store: Option<Data<'a>>,
    /// The moment of the clock, in seconds since 1970; where there is none, the given clock is asked.
    pub clock: Option<u64>,
    ghost told: { config.keeps ≡ is_some store },
}

/// The options of the command `serve`.
#[derive(Debug, Drop)]
pub struct ServeOptions<'a> {
    /// The address to listen at.
    pub address: &'a str,
    /// The limits and defaults of the store.
    pub config: Config,
    /// The file that keeps it, where one does.
    pub store: Option<Data<'a>>,
    /// How many connections are there at the same time.
    pub places: u32,
    /// How many of them are served at the same time.
    pub workers: u32,
    /// How many threads match.
    pub matchers: u32,
    /// Up to where they drop old changes.
    pub trim: Trim,
    /// How many connections are served in all; 2^64 - 1 where no number was given.
    pub connections: u64,
    /// The limits of time.
    pub limits: Limits,
    /// Who watches.
    pub watching: Watching<'a>,
}

/// The names that go into a configuration, each text empty where none is given.
#[derive(Clone, Copy, Debug, PartialEq, Eq)]
pub(crate) struct Names<'a> {
    /// The origins of web pages that may read replies, with a space between two.
    pub(crate) origins: &'a str,
    /// The names of hosts that are served, with a space between two.
    pub(crate) hosts: &'a str,
}

/// The words of the command `read`.
#[derive(Debug, Drop)]
pub struct ReadOptions<'a> {
    /// The address of the server.
    pub address: &'a str,
    /// The level of the session that reads.
    pub level: Level,
    /// What is read.
    pub key: Key,
}

/// The words of the commands `world` and `crash`.
#[derive(Clone, Copy, Debug, PartialEq, Eq)]
pub struct SimulationOptions {
    /// What is run.
    pub which: Simulation,
    /// The number that gives the steps.
    pub seed: u64,
    /// How many steps are made.
    pub steps: u32,
}

/// What the words of a command line ask for.
#[derive(Debug, Drop)]
pub enum Invocation<'a> {
    /// To serve one connection.
    Pipe(PipeOptions<'a>),
    /// To serve the connections of an address.
    Serve(ServeOptions<'a>),
    /// To read a key.
    Read(ReadOptions<'a>),
    /// To run a world, or a store on a disk that crashes.
    Simulate(SimulationOptions),
    /// To show this text, of a help or of the version.
    Help(HelpText),
    /// Nothing, since no command takes them.
    Invalid(Refusal<'a>),
}
