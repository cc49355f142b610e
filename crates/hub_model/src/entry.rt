//! The entries of a history, and the replies to them.
use crate::commits::Commits;
use commit_book::Change;
use q_base::{Commit, Moment};
use query_normal::Key;
use result_kinds::ResultText;

/// What a write asks of the record that it changes (RFC 9110, section 13.1).
#[derive(Debug, Drop)]
pub enum Condition {
    /// Nothing.
    Always,
    /// There is a document, as `If-Match: *` asks.
    Present,
    /// There is none, as `If-None-Match: *` asks.
    Absent,
    /// There is a document, and a tagged commit had it in the same version, as `If-Match` with entity
    /// tags asks.
    Unchanged(Tags),
}

/// The results that a caller knows, by their commits, which its entity tags have (RFC 9110,
/// section 8.8.3).
#[derive(Debug, Drop)]
pub enum Tags {
    /// Whichever there is.
    Any,
    /// Those of these commits. A read without tags lists none.
    Listed(Commits),
}

/// One event of the store. A history is a list of entries, the newest last.
#[derive(Drop)]
pub enum Entry {
    Write {
        moment: Moment,
        change: Change,
        condition: Condition,
    },
    /// The result of a key at a commit was read, by a caller that knows the tagged results.
    Read {
        moment: Moment,
        key: Key,
        tags: Tags,
        at: Commit,
    },
    /// The commits up to one were matched against the issued copies.
    Match {
        moment: Moment,
        to: Commit,
    },
    /// The page of the outdated keys was fetched.
    Fetch {
        moment: Moment,
    },
    /// The purges from a number on were asked for.
    Purges {
        moment: Moment,
        from: u64,
    },
    /// Time passed.
    Tick {
        moment: Moment,
    },
    /// The changes up to a commit were dropped, but the last of each record that has a document there.
    Horizon {
        moment: Moment,
        to: Commit,
    },
}

/// What a record has before a write.
#[derive(Clone, Copy, Debug, PartialEq, Eq)]
pub enum Found {
    Missing,
    /// A document that this commit put.
    At(Commit),
}

/// The reply to a write.
#[derive(Clone, Copy, Debug)]
pub enum Written {
    /// It was accepted as this commit.
    Done {
        commit: Commit,
        before: Found,
        /// The clock after the write.
        clock: Moment,
    },
    /// Its condition is not met by what was found (RFC 9110, section 15.5.13).
    Precondition {
        found: Found,
        /// The clock after the write.
        clock: Moment,
    },
    /// With it the store would take more bytes than the capacity.
    Full {
        /// What the store would take, in bytes.
        bytes: u64,
        /// The clock after the write.
        clock: Moment,
    },
}

/// The result that a read returns.
#[derive(Debug, Drop)]
pub enum Outcome {
    /// The text of the result, and the version of a record's document.
    Whole {
        text: ResultText,
        version: Option<Commit>,
    },
    /// The caller knows the result, as that of this commit, which its tags name. The version is that of
    /// a record's document.
    Same {
        tag: Commit,
        version: Option<Commit>,
    },
    /// There is no document.
    Absent,
}

/// The reply to a read.
#[derive(Debug, Drop)]
pub struct Answer {
    /// The commit whose result this is.
    pub commit: Commit,
    /// The clock after the read.
    pub clock: Moment,
    /// For how many seconds the reply may be kept: its freshness lifetime (RFC 9111, section 4.2.1).
    pub ttl: u32,
    /// For how many seconds shared caches may keep it (RFC 9111, section 5.2.2.10), or 0 where nothing is
    /// said of those, or where it may not be kept at all.
    pub shared: u32,
    pub result: Outcome,
}

/// The reply to a match.
#[derive(Clone, Copy, Debug, PartialEq, Eq)]
pub struct Matched {
    /// The last commit that was matched.
    pub front: Commit,
    /// The clock after the match.
    pub clock: Moment,
}

/// The reply to a caller who asks for the purges from a number on. A cache that can be purged drops its
/// replies for these keys, and then asks from the number after the last of them on.
#[derive(Debug, Drop)]
pub struct PurgeReply {
    /// The number from which on keys were asked for; 0 counts as 1.
    pub from: u64,
    /// The number of the last purge, which is the number of all purges.
    pub last: u64,
    /// The last commit that was matched.
    pub front: Commit,
    /// The clock after the request.
    pub clock: Moment,
    /// The purged keys from that number on, in the order of their numbers, at most 1,000 of them.
    pub keys: Vec<Key>,
}

/// The reply to a tick.
#[derive(Clone, Copy, Debug, PartialEq, Eq)]
pub struct Stats {
    /// The last commit that was matched.
    pub front: Commit,
    /// The number of commits.
    pub commits: Commit,
    /// The clock after the tick.
    pub clock: Moment,
}

/// The reply to a drop of old changes.
#[derive(Clone, Copy, Debug, PartialEq, Eq)]
pub struct Dropped {
    /// The commit from which on results are known, and below which none is.
    pub horizon: Commit,
    /// The clock after the drop.
    pub clock: Moment,
}
