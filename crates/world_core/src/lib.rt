//! The world: a large run of clients, caches and a store in one process, which a number repeats.
#![tactic(auto)]

mod generator;
mod hostile;
mod line;
mod link;
mod product;
mod queries;
mod reply;
mod step;
mod store;
mod text;
mod watch;
mod world;

pub use generator::Generator;
pub use hostile::{HostileLink, Move};
pub use line::ReadLine;
pub use link::WorldLink;
pub use product::{collection, product_id, push_number};
pub use step::{Step, steps_of};
pub use text::{push_count, push_word, world_text};
pub use watch::{Silent, Watch};
pub use world::World;
