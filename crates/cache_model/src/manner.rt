//! How a cache keeps the rules of freshness.
ghost use Rattle.std.specs.Prelude.{◌≡◌, ◌<◌, ◌^◌, Some};
ghost use Rattle.cache_model.specs.Cache.{answer_of, is_unwanted, lateness, may_hit, told_by};

use crate::lookup::Answer;
use client_model::Reply;
use q_base::Moment;

/// How a cache keeps the rules of freshness (RFC 9111, section 4.2).
#[derive(Clone, Copy, Debug, PartialEq, Eq)]
pub enum Manner {
    /// It keeps them.
    Honest,
    /// It takes each reply as fresh for some more seconds.
    Late {
        /// How many.
        seconds: u32,
    },
    /// It answers a request that asks for no stored reply as any other.
    IgnoresNoCache,
}

impl Manner {
    /// What a cache does with a request whose key has this reply.
    pub fn answer(self, moment: Moment, reply: &Reply, no_cache: bool) -> Answer
        ensures { result ≡ answer_of (told_by self moment no_cache (Some reply.now)) }
    {
        if self.may_hit(moment, reply, no_cache) {
            return Answer::Hit;
        }
        match reply.tag {
            Some(tag) => Answer::Validate { tag },
            None => Answer::Miss,
        }
    }

    /// Whether a reply may answer a request.
    fn may_hit(self, moment: Moment, reply: &Reply, no_cache: bool) -> bool
        ensures { result ≡ may_hit self moment no_cache reply.now }
    {
        if self.is_unwanted(no_cache) {
            return false;
        }
        let age = moment.seconds().saturating_sub(reply.date.seconds());
        match reply.max_age {
            Some(max_age) => age < max_age as u64 + self.lateness(),
            None => false,
        }
    }

    /// Whether a request asks this cache for no stored reply.
    fn is_unwanted(self, no_cache: bool) -> bool
        ensures { result ≡ is_unwanted self no_cache }
    {
        match self {
            Manner::IgnoresNoCache => false,
            _ => no_cache,
        }
    }

    /// For how many seconds longer a reply is taken as fresh.
    fn lateness(self) -> u64
        ensures same { result ≡ lateness self }
        ensures few { result < 2 ^ 32 }
    {
        match self {
            Manner::Late { seconds } => seconds as u64,
            _ => 0,
        }
    }
}
