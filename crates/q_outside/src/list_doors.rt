//! Doors over connections in memory.
ghost use Rattle.std.specs.Prelude.{◌≡◌, ◌+◌, ◌<◌, ◌≤◌, [], length, vec_len, vec_capacity, Some, IfOk};
ghost use Rattle.std.specs.VecDeque.{deque_len};

use crate::connections::{Back, Next};
use crate::doors::Doors;
use crate::environment::{Failed, Sink, Source};
use crate::faults::Faults;
use crate::script::{Script, ScriptStep};
use crate::served::Served;
use q_base::Memory;
use std::alloc::Global;
use std::collections::VecDeque;
use std::sync::ledger::{Blank, Ledger};

/// Doors that give a list of connections in order and are closed behind the last. They keep what is
/// handed back, in memory that was taken when they were made. A script says which calls fail. They show
/// all that they give and keep. What they gave is what was handed back and what is away.
#[derive(Drop)]
pub struct ListDoors<S: Drop, K: Drop, L: Ledger> {
    /// The connections that are left to give.
    pub left: VecDeque<(S, K)>,
    /// The connections that were handed back.
    pub handed: Vec<Back<S, K>>,
    /// The number of connections given and not yet handed back.
    pub away: usize,
    /// How often the doors were closed.
    pub closings: Faults<L>,
    /// The number of faults so far.
    pub faults: u64,
    /// What the calls do.
    pub script: Script,
    ghost memory: { deque_len left + vec_len handed + away ≤ vec_capacity handed },
}

impl<S: Drop, K: Drop, L: Ledger> ListDoors<S, K, L> {
    /// Doors that give these connections, and fail at the calls of the script that fail.
    pub fn new(
        alloc: Global,
        connections: VecDeque<(S, K)>,
        script: Script,
        blank: Blank,
    ) -> Result<ListDoors<S, K, L>, Memory>
        requires name { blank.name ≡ L.name }
        requires parts { blank.parts ≡ L.parts }
        requires some { 0 < L.parts }
        ensures left { IfOk result (λ d. d.left ≡ connections) }
        ensures handed { IfOk result (λ d. d.handed.items ≡ []) }
        ensures away { IfOk result (λ d. d.away ≡ 0) }
        ensures closings { IfOk result (λ d. d.closings ≡ 0) }
        ensures faults { IfOk result (λ d. d.faults ≡ 0) }
    {
        let handed = Vec::with_capacity(alloc, connections.len())?;
        Ok(ListDoors {
            left: connections,
            handed,
            away: 0,
            closings: Faults::new(blank),
            faults: 0,
            script,
        })
    }
}

impl<S, K, L: Ledger> Doors for ListDoors<S, K, L>
where
    S: Source + Send + Drop + 'static,
    K: Sink + Send + Drop + 'static,
{
    type From = S;

    type To = K;

    ghost at = { λ d. record {
      left = Some d.left.items;
      given = Some (length d.handed.items + d.away);
      handed = Some d.handed.items;
      away = Some d.away;
      closings = d.closings;
      faults = d.faults;
    } };

    fn next(&mut self) -> Result<Next<S, K>, Failed> {
        if self.script.next() == ScriptStep::Fails && self.faults < u64::MAX {
            self.faults += 1;
            return Err(Failed);
        }
        match self.left.pop_front() {
            Some((source, sink)) => {
                self.away += 1;
                Ok(Next::Connection { source, sink })
            }
            None => {
                self.closings.rise();
                Ok(Next::Closed)
            }
        }
    }

    fn back(&mut self, source: S, sink: K, served: Option<Served>) {
        let after = self.handed.len() + self.away;
        self.away -= 1;
        self.handed.push_reserved(Back {
            source,
            sink,
            served,
            after,
        });
    }
}
