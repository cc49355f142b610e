//! The program: its words, standard input and output, the system's clock and its network.
#![tactic(auto)]

mod board;
mod clock;
mod link;
mod log_writer;
mod places;
mod posts;
mod store;
mod watching;

use clock::HostClock;
use places::TcpPlaces;
use posts::{may_watch, start_posts};
use q_outside::{ReadSource, WriteSink};
use quaestor_prog::{Status, refusal_of, run};
use std::env;
use std::io::{ErrorKind, IsTerminal};
use std::process::ExitCode;
use std::rt::Env;

/// The words behind the program's name. Where one of them is not UTF-8 there are none.
fn words_of<R: Env + AllocGlobal>(rt: &R) -> Result<Vec<String>, Status> {
    let mut words = Vec::new(rt.alloc());
    match env::args(rt) {
        Ok(args) => {
            for word in args.skip(1) {
                if words.push(word).is_err() {
                    return Err(Status::Memory);
                }
            }
        }
        Err(fault) if fault.kind() == ErrorKind::OutOfMemory => return Err(Status::Memory),
        Err(_) => {}
    }
    Ok(words)
}

/// Says on standard error why no command takes the words. A fault there changes nothing.
fn explain<R: Eprint + AllocGlobal>(rt: &R, words: &[String]) {
    if let Ok(Some(refusal)) = refusal_of(rt.alloc(), words) {
        let _ = eprint!(rt; "{refusal}");
    }
}

fn main(rt: HostRuntime) -> ExitCode {
    let status = match words_of(&rt) {
        Ok(words) => {
            let mut source = ReadSource::new(rt.stdin());
            let mut sink = WriteSink::new(rt.stdout());
            let mut clock = HostClock::new(rt);
            let posts = if may_watch(&words) {
                start_posts(rt).ok()
            } else {
                None
            };
            let mut places = TcpPlaces::new(rt, posts, rt.stderr().is_terminal());
            let status = run(
                &rt,
                rt.alloc(),
                &words,
                &mut source,
                &mut sink,
                &mut clock,
                &mut places,
            );
            if status == Status::Words {
                explain(&rt, &words);
            }
            status
        }
        Err(status) => status,
    };
    ExitCode::from(status.code())
}
