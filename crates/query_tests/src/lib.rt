//! Tests of keys, queries, their results and the query language.
#![tactic(auto)]

#[cfg(test)]
mod keys;
#[cfg(test)]
mod language;
#[cfg(test)]
mod normal_forms;
#[cfg(test)]
mod queries;
#[cfg(test)]
mod results;
