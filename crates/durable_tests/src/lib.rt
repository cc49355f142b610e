//! Tests of a store on a disk in memory: its bytes, stops and faults at each call, and its guard.
#![tactic(auto)]

#[cfg(test)]
mod guards;
#[cfg(test)]
mod openings;
#[cfg(test)]
mod runs;
#[cfg(test)]
mod stops;
#[cfg(test)]
mod worked;
