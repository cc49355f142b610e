//! Tests of the wire: requests, replies and the link over them.
#![tactic(auto)]

#[cfg(test)]
mod links;
#[cfg(test)]
mod replies;
