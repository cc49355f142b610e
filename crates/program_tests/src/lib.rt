//! Tests of the whole program: its words, its replies and its statuses.
#![tactic(auto)]

#[cfg(test)]
mod calls;
#[cfg(test)]
mod clocks;
#[cfg(test)]
mod conversations;
#[cfg(test)]
mod documents;
#[cfg(test)]
mod ends;
#[cfg(test)]
mod faults;
#[cfg(test)]
mod helped;
#[cfg(test)]
mod horizon;
#[cfg(test)]
mod lifetimes;
#[cfg(test)]
mod limits;
#[cfg(test)]
mod options;
#[cfg(test)]
mod purges;
#[cfg(test)]
mod reads;
#[cfg(test)]
mod script;
#[cfg(test)]
mod serving;
#[cfg(test)]
mod tagged;
#[cfg(test)]
mod texts;
#[cfg(test)]
mod versions;
#[cfg(test)]
mod words;
#[cfg(test)]
mod worked;
#[cfg(test)]
mod worlds;
