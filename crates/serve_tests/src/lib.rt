//! Tests of the server.
#![tactic(auto)]

#[cfg(test)]
mod ends;
#[cfg(test)]
mod gates;
#[cfg(test)]
mod monitors;
#[cfg(test)]
mod order;
#[cfg(test)]
mod sinks;
