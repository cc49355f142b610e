//! Tests of desks whose commits are kept on a disk in memory.
#![tactic(auto)]

#[cfg(test)]
mod keeps;
