//! Tests of the parts of a hub, each by itself.
#![tactic(auto)]

#[cfg(test)]
mod commits;
#[cfg(test)]
mod copies;
#[cfg(test)]
mod counts;
#[cfg(test)]
mod estimates;
#[cfg(test)]
mod expiring_keys;
#[cfg(test)]
mod pages;
#[cfg(test)]
mod purges;
#[cfg(test)]
mod tags;
