//! Tests of the client's crates.
#![tactic(auto)]

#[cfg(test)]
mod caches;
#[cfg(test)]
mod choices;
#[cfg(test)]
mod hostile;
#[cfg(test)]
mod runs;
#[cfg(test)]
mod sessions;
