//! Sources over bytes in memory.
ghost use Rattle.std.specs.Prelude.{◌≡◌, ℕ, ◌<◌, ◌≤◌, ◌+◌, ◌++◌, List, [], length, take, drop, Some, IfOk, OnErr};

use crate::environment::{Failed, Source};
use crate::script::{Script, ScriptStep};

/// A source that never fails and fills the buffer while it has bytes. It shows its bytes.
#[derive(Debug, Drop)]
pub struct PlainSource {
    /// All the bytes.
    pub bytes: Vec<u8>,
    /// The number of bytes that were taken.
    pub at: usize,
    ghost within: { at ≤ length bytes.items },
}

impl PlainSource {
    /// The source of these bytes.
    pub fn of(bytes: Vec<u8>) -> PlainSource
        ensures bytes { result.bytes ≡ bytes }
        ensures at { result.at ≡ 0 }
    {
        PlainSource { bytes, at: 0 }
    }
}

impl Source for PlainSource {
    ghost at = { λ s. record { bytes = Some (drop s.at s.bytes.items); faults = 0 } };

    fn held(&self) -> &[u8] {
        &[]
    }

    fn take(&mut self, into: &mut [u8]) -> Result<usize, Failed> {
        let taken = copy_piece(self.bytes.as_slice(), self.at, into, usize::MAX);
        self.at += taken;
        Ok(taken)
    }

    fn begin(&mut self, _held: bool) {}

    fn is_ready(&mut self) -> bool {
        true
    }

    fn wait(&mut self) {}

    fn is_stopping(&mut self) -> bool {
        false
    }
}

/// A source over bytes in memory. A script says which calls fail and how much the others give. It shows
/// its bytes.
#[derive(Debug, Drop)]
pub struct ListSource {
    /// All the bytes.
    pub bytes: Vec<u8>,
    /// The number of bytes that were taken.
    pub at: usize,
    /// The number of faults so far.
    pub faults: u64,
    /// What its calls do.
    pub script: Script,
    ghost within: { at ≤ length bytes.items },
}

impl ListSource {
    /// The source of these bytes, whose calls follow the script.
    pub fn of(bytes: Vec<u8>, script: Script) -> ListSource
        ensures bytes { result.bytes ≡ bytes }
        ensures at { result.at ≡ 0 }
        ensures faults { result.faults ≡ 0 }
    {
        ListSource {
            bytes,
            at: 0,
            faults: 0,
            script,
        }
    }
}

impl Source for ListSource {
    ghost at = { λ s. record { bytes = Some (drop s.at s.bytes.items); faults = s.faults } };

    fn held(&self) -> &[u8] {
        &[]
    }

    fn take(&mut self, into: &mut [u8]) -> Result<usize, Failed> {
        let step = self.script.next();
        if step == ScriptStep::Fails && self.faults < u64::MAX {
            self.faults += 1;
            return Err(Failed);
        }
        let most = step.most();
        let taken = copy_piece(self.bytes.as_slice(), self.at, into, most);
        self.at += taken;
        Ok(taken)
    }

    fn begin(&mut self, _held: bool) {}

    fn is_ready(&mut self) -> bool {
        true
    }

    fn wait(&mut self) {}

    fn is_stopping(&mut self) -> bool {
        false
    }
}

/// Copies at most `most` bytes from an offset on to the start of the buffer and returns their number.
pub(crate) fn copy_piece(bytes: &[u8], at: usize, into: &mut [u8], most: usize) -> usize
    requires some { 0 < most }
    requires from { at ≤ length bytes.now }
    ensures within { result ≤ length into.old }
    ensures left { at + result ≤ length bytes.now }
    ensures copied { drop at bytes.now ≡ take result into.new ++ drop (at + result) bytes.now }
    ensures end { 0 < length into.old → result ≡ 0 → length bytes.now ≤ at }
{
    let count = (bytes.len() - at).min(into.len()).min(most);
    into[..count].copy_from_slice(&bytes[at..at + count]);
    count
}
