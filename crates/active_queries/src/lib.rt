//! The active queries, each with its match set and the commits that changed its result.
#![tactic(auto)]

mod followed;
mod followers;
pub mod laws;
mod queries;
mod query;

pub use followed::Followed;
pub use queries::ActiveQueries;
pub use query::ActiveQuery;
