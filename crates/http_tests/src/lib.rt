//! Tests of requests, dialogues, asks and replies.
#![tactic(auto)]

#[cfg(test)]
mod asks;
#[cfg(test)]
mod dialogues;
#[cfg(test)]
mod edges;
#[cfg(test)]
mod purges;
#[cfg(test)]
mod queries;
#[cfg(test)]
mod replies;
#[cfg(test)]
mod requests;
#[cfg(test)]
mod results;
