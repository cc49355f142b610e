//! The texts of `--help` and of `--version`.
ghost use Rattle.std.specs.Prelude.{◌≡◌};
ghost use Rattle.command_line.specs.Help.{help_of, text_of_help};

use crate::command_name::{CommandName, Simulation};

/// What `--version` shows, of the program and of each command.
const VERSION_LINE: &[u8] = b"quaestor 0.1.0\n";

/// The help of the program.
const PROGRAM_HELP: &[u8] = b"Usage: quaestor COMMAND [OPTIONS]

Options:
  -h, --help     Print help
  -V, --version  Print version

Commands:
  pipe   Serves standard input as one connection
  serve  Serves the connections that come to an address
  read   Reads a key at the server of an address
  world  Runs a server, two caches and three clients by numbers that a seed gives
  crash  Runs a store on a disk that crashes, by numbers that a seed gives

quaestor COMMAND --help shows the options of a command.
";

/// The help of `pipe`.
const PIPE_HELP: &[u8] =
    b"Serves standard input as one connection, over a store that begins empty or with a file

Usage: quaestor pipe [OPTIONS]

Options:
      --bits <N>        2^N bits in a page, 10 to 22 [default: 17]
      --hashes <N>      N positions of a key, 1 to 16 [default: 6]
      --ttl-low <N>     Least lifetime, 1 to 31536000 seconds [default: 1]
      --ttl-high <N>    Greatest lifetime, 1 to 31536000 seconds [default: 3600]
      --active <N>      At most N active keys, 0 to 1000000 [default: 10000]
      --bytes <N>       Capacity, 65792 to 134217728 bytes [default: 134217728]
      --ttl-absent <N>  Greatest lifetime of an absent record, 1 to 31536000 seconds
                        [default: --ttl-high]
      --ttl-shared <N>  Shared caches may keep a reply for N seconds, 1 to 31536000
                        [default: as all others]
      --host <NAMES>    Only requests to these hosts are served, with a space between two
                        [default: all are]
      --clock <N>       The clock stays at N seconds since 1970 [default: the clock of the system]
      --data <FILE>     Keeps the store in this file, and begins with what it has [default: none]
      --sync <WHEN>     always, or 'batch N': a sync waits N milliseconds for further writes, 1 to
                        1000 [default: always]
  -h, --help            Print help
  -V, --version         Print version
";

/// The help of `serve`.
const SERVE_HELP: &[u8] =
    b"Serves the connections that come to an address, over one store, which begins empty or with a file

Usage: quaestor serve [OPTIONS] <ADDR>

Arguments:
  <ADDR>  The address, such as 127.0.0.1:8080; port 0 takes a free one

Options:
      --bits <N>                2^N bits in a page, 10 to 22 [default: 17]
      --hashes <N>              N positions of a key, 1 to 16 [default: 6]
      --ttl-low <N>             Least lifetime, 1 to 31536000 seconds [default: 1]
      --ttl-high <N>            Greatest lifetime, 1 to 31536000 seconds [default: 3600]
      --active <N>              At most N active keys, 0 to 1000000 [default: 10000]
      --bytes <N>               Capacity, 65792 to 134217728 bytes [default: 134217728]
      --ttl-absent <N>          Greatest lifetime of an absent record, 1 to 31536000 seconds
                                [default: --ttl-high]
      --ttl-shared <N>          Shared caches may keep a reply for N seconds, 1 to 31536000
                                [default: as all others]
      --host <NAMES>            Only requests to these hosts are served, with a space between two
                                [default: all are]
      --places <N>              At most N connections at the same time, 1 to 32768 [default: 4096]
      --workers <N>             At most N of them are served at the same time, 1 to 64
                                [default: 16]
      --matchers <N>            N threads look for outdated copies, 1 to 16 [default: 1]
      --keep <N>                Entity tags of the last N commits stay known, and older changes
                                are dropped, 0 to 1099511627776 [default: they are dropped
                                while more than three quarters of the capacity are full]
      --connections <N>         Ends after N connections, 1 to 1099511627776
                                [default: it does not end by their number]
      --idle <N>                A connection waits at most N seconds for its next request,
                                0 to 3600, 0 for any time [default: 30]
      --head-time <N>           A request has N seconds beside those of its bytes, 1 to 3600
                                [default: 10]
      --reply-time <N>          A reply has N seconds beside those of its bytes, 1 to 3600
                                [default: 10]
      --least-rate <N>          N bytes give a request or a reply a second more, 1 to 1000000
                                [default: 1000]
      --grace <N>               Told to end, it answers what it has begun for at most N seconds,
                                0 to 3600 [default: 10]
      --allow-origin <ORIGINS>  Web pages of these origins may read replies: * for all, or
                                https://HOST and the like, with a space between two
                                [default: none]
      --metrics <ADDRESS>       Answers GET /v1/health and /v1/metrics, and nothing else, at this
                                address [default: none]
      --log <FILE>              Writes a line for each request to this file, or to standard error
                                where it is - [default: none]
      --log-json                Writes these lines as JSON
      --data <FILE>             Keeps the store in this file, and begins with what it has
                                [default: none, and nothing outlives the program]
      --sync <WHEN>             always, or 'batch N': a sync waits N milliseconds for further
                                writes, 1 to 1000 [default: always]
  -h, --help                    Print help
  -V, --version                 Print version
";

/// The help of `read`.
const READ_HELP: &[u8] =
    b"Fetches the page of a server, reads a key by a new session, and writes its commit, its way
and what it has

Usage: quaestor read <ADDR> <LEVEL> <KEY>

Arguments:
  <ADDR>   The address of the server, such as 127.0.0.1:8080
  <LEVEL>  session or causal, which accept a copy of a cache that the server's page vouches for,
           or strong, which asks the server
  <KEY>    r/COLLECTION/ID, or q/COLLECTION/KIND/f=FILTER;o=ORDER;s=SKIP;n=TAKE, where KIND is
           objects or ids

Options:
  -h, --help     Print help
  -V, --version  Print version
";

/// The help of `world`.
const WORLD_HELP: &[u8] =
    b"Runs a server, two caches and three clients in memory, and writes a line for each read and
a summary

Usage: quaestor world <SEED> <STEPS>

Arguments:
  <SEED>   The number that gives all steps, 0 to 18446744073709551615
  <STEPS>  How many steps, 1 to 1000000

Options:
  -h, --help     Print help
  -V, --version  Print version
";

/// The help of `crash`.
const CRASH_HELP: &[u8] =
    b"Runs a store on a disk in memory that crashes, and writes a line for each opening and a
summary

Usage: quaestor crash <SEED> <STEPS>

Arguments:
  <SEED>   The number that gives all steps, 0 to 18446744073709551615
  <STEPS>  How many steps, 1 to 100000

Options:
  -h, --help     Print help
  -V, --version  Print version
";

/// A text that the program shows of itself.
#[derive(Clone, Copy, Debug, PartialEq, Eq)]
pub enum HelpText {
    /// The help of the program, where no command is named.
    Program,
    /// The help of `pipe`.
    Pipe,
    /// The help of `serve`.
    Serve,
    /// The help of `read`.
    Read,
    /// The help of `world`.
    World,
    /// The help of `crash`.
    Crash,
    /// The name of the program and its version.
    Version,
}

impl HelpText {
    /// The help of a command.
    pub(crate) fn of(command: CommandName) -> HelpText
        ensures { result ≡ help_of command }
    {
        match command {
            CommandName::Pipe => HelpText::Pipe,
            CommandName::Serve => HelpText::Serve,
            CommandName::Read => HelpText::Read,
            CommandName::Simulate(Simulation::World) => HelpText::World,
            CommandName::Simulate(Simulation::Crash) => HelpText::Crash,
        }
    }

    /// The text itself.
    #[tactic(auto, unfolding(crate::specs::Help::text_of_help))]
    pub fn text(self) -> &'static [u8]
        ensures { result.now ≡ text_of_help self }
    {
        match self {
            HelpText::Program => PROGRAM_HELP,
            HelpText::Pipe => PIPE_HELP,
            HelpText::Serve => SERVE_HELP,
            HelpText::Read => READ_HELP,
            HelpText::World => WORLD_HELP,
            HelpText::Crash => CRASH_HELP,
            HelpText::Version => VERSION_LINE,
        }
    }
}
