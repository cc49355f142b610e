//! How long replies may be kept: rates of writes, and an estimate for each active query key.
#![tactic(auto)]

mod clocks;
mod collection;
mod estimates;
mod estimator;
mod laws;
mod limits;
mod places;
mod records;

pub use estimator::Estimator;
pub use laws::{calls_leave_rates_and_estimates, calls_of_a_history_give_its_lifetimes};
pub use limits::Limits;
