//! Tests of match sets, of the index of queries, of buckets and of active queries.
#![tactic(auto)]

#[cfg(test)]
mod buckets;
#[cfg(test)]
mod following;
#[cfg(test)]
mod indexed;
#[cfg(test)]
mod newest;
#[cfg(test)]
mod slow;
#[cfg(test)]
mod store;
#[cfg(test)]
mod walks;
#[cfg(test)]
mod worked;
