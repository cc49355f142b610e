//! A server: the connections that come through doors, each in a thread of its own, over one hub.
#![tactic(auto)]

mod begun;
mod crew;
mod endings;
mod hall;
mod matcher;
mod matchers;
mod matching;
mod monitor;
mod pool;
mod rounds;
mod running;
mod serve_end;
mod serving;
mod stop;
mod threads;
mod visits;

pub use crew::Crew;
pub use hub_desk::{Figures, Trim};
pub use matching::work_until_stopped;
pub use monitor::{Monitor, NoMonitor};
pub use serve_end::{ServeEnd, ServeWhy};
pub use serving::serve;
pub use stop::Stop;
