//! Tests of hubs.
#![tactic(auto)]

#[cfg(test)]
mod acts;
#[cfg(test)]
mod drops;
#[cfg(test)]
mod guards;
#[cfg(test)]
mod hubs;
#[cfg(test)]
mod lives;
#[cfg(test)]
mod queries;
#[cfg(test)]
mod results;
#[cfg(test)]
mod windows;
