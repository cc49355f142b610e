//! What is answered at the address for those who watch a server: whether it is well, and its metrics.
#![tactic(auto)]

mod answers;
mod metrics;
mod ratio;
mod shown;
mod text;

pub use answers::{Shows, Watcher};
pub use metrics::metrics_of;
pub use shown::Shown;
