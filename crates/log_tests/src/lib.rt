//! Tests of a disk in memory, of a log on it and of a base in front of one: bytes, a stop at each call, and
//! what is refused.
#![tactic(auto)]

#[cfg(test)]
mod bases;
#[cfg(test)]
mod logs;
#[cfg(test)]
mod refusals;
