//! Sinks over memory.
ghost use Rattle.std.specs.Prelude.{◌≡◌, ℕ, ◌+◌, ◌<◌, ◌≤◌, List, [], length, take, Some, None, option_map, unwrap_or, vec_capacity, IfOk, OnErr};

use crate::environment::{Failed, Sink};
use crate::faults::Faults;
use crate::note::Note;
use crate::script::{Script, ScriptStep};
use q_base::Memory;
use std::alloc::Global;
use std::sync::ledger::{Blank, Ledger};

/// A sink that never fails. It keeps no bytes and shows none.
#[derive(Clone, Copy, Debug)]
pub struct EndlessSink;

impl Sink for EndlessSink {
    ghost at = { λ _. record { bytes = None; faults = 0 } };

    ghost ended = { λ _. Some None };

    fn give(&mut self, bytes: &[u8]) -> Result<usize, Failed> {
        Ok(bytes.len())
    }

    fn end(&mut self) {}

    fn note(&mut self, _note: &Note<'_>) {}
}

/// A sink that stores what it is given in a buffer of fixed capacity. A script says which calls fail and
/// how much the others take. It also fails when the buffer is full. It shows its bytes.
#[derive(Drop)]
pub struct ListSink<L: Ledger> {
    /// The bytes that it was given.
    pub bytes: Vec<u8>,
    /// The number of faults so far.
    pub faults: Faults<L>,
    /// What its calls do.
    pub script: Script,
    /// The number of bytes that it held when it was ended last, or none where it never was.
    pub ended: Option<usize>,
    ghost within: { unwrap_or ended 0 ≤ length bytes.items },
}

impl<L: Ledger> ListSink<L> {
    /// An empty sink of this capacity, whose calls follow the script.
    pub fn new(
        alloc: Global,
        capacity: usize,
        script: Script,
        blank: Blank,
    ) -> Result<ListSink<L>, Memory>
        requires name { blank.name ≡ L.name }
        requires parts { blank.parts ≡ L.parts }
        requires some { 0 < L.parts }
        ensures empty { IfOk result (λ s. s.bytes.items ≡ []) }
        ensures faults { IfOk result (λ s. s.faults ≡ 0) }
        ensures capacity { IfOk result (λ s. capacity ≤ vec_capacity s.bytes) }
        ensures ended { IfOk result (λ s. s.ended ≡ None) }
    {
        let faults = Faults::new(blank);
        let bytes = Vec::with_capacity(alloc, capacity)?;
        Ok(ListSink {
            bytes,
            faults,
            script,
            ended: None,
        })
    }
}

impl<L: Ledger> Sink for ListSink<L> {
    ghost at = { λ s. record { bytes = Some s.bytes.items; faults = s.faults } };

    ghost ended = { λ s. option_map (λ n. Some (take n s.bytes.items)) s.ended };

    fn give(&mut self, bytes: &[u8]) -> Result<usize, Failed> {
        let space = self.bytes.capacity() - self.bytes.len();
        let most = match self.script.next() {
            ScriptStep::Fails => 0,
            ScriptStep::Moves(most) => most,
        };
        let count = space.min(most).min(bytes.len());
        if count == 0 || self.bytes.extend_from_slice(&bytes[..count]).is_err() {
            self.faults.rise();
            return Err(Failed);
        }
        Ok(count)
    }

    fn end(&mut self) {
        self.ended = Some(self.bytes.len());
    }

    fn note(&mut self, _note: &Note<'_>) {}
}
