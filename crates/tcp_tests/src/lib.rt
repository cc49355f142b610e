//! Tests of a server over TCP.
#![tactic(auto)]

#[cfg(test)]
mod clients;
#[cfg(test)]
mod connections;
