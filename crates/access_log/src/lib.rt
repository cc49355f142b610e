//! What is told of requests to an operator: by what they are counted, and their lines in the access log.
#![tactic(auto)]

mod cause;
mod counts;
mod line;
mod route;
mod status;

pub use cause::Cause;
pub use counts::{CELLS, Cell, Counts};
pub use line::{Form, Line, Told};
pub use route::Route;
pub use status::{STATUSES, status_at, status_cell};
