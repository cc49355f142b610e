//! Which calls of a source or sink in memory fail, and how many bytes the others move.
ghost use Rattle.std.specs.Prelude.{◌≡◌, ◌<◌};
ghost use Rattle.q_outside.specs.Scripts.{most_of};

/// What the calls of a source or sink in memory do. It has the numbers of the calls that fail, counted
/// from 0 and rising, and the limits for the others, one a call. The last limit holds for all later
/// calls. A limit of 0 counts as 1. Without limits a call moves all that it can.
#[derive(Debug, Drop)]
pub struct Script {
    failing: Vec<u64>,
    failed: usize,
    pieces: Vec<usize>,
    piece: usize,
    calls: u64,
}

/// What one call does.
#[derive(Clone, Copy, Debug, PartialEq, Eq)]
pub enum ScriptStep {
    /// It fails.
    Fails,
    /// It moves at most this number of bytes.
    Moves(usize),
}

impl ScriptStep {
    /// The most bytes that it moves, at least one. One that fails has no limit: its source fails at
    /// most as often as it can count.
    pub fn most(self) -> usize
        ensures some { 0 < result }
        ensures most { result ≡ most_of self }
    {
        match self {
            ScriptStep::Fails => usize::MAX,
            ScriptStep::Moves(most) => most.max(1),
        }
    }
}

impl Script {
    /// The script with these failing calls and these limits.
    pub fn of(failing: Vec<u64>, pieces: Vec<usize>) -> Script {
        Script {
            failing,
            failed: 0,
            pieces,
            piece: 0,
            calls: 0,
        }
    }

    /// What the next call does.
    pub fn next(&mut self) -> ScriptStep {
        let call = self.calls;
        self.calls = call.saturating_add(1);
        if self.is_due(call) {
            self.failed = self.failed.saturating_add(1);
            return ScriptStep::Fails;
        }
        let size = self.pieces.get(self.piece).copied().unwrap_or(usize::MAX);
        if self.piece.saturating_add(1) < self.pieces.len() {
            self.piece = self.piece.saturating_add(1);
        }
        ScriptStep::Moves(size)
    }

    /// Whether this call is the next that fails.
    fn is_due(&self, call: u64) -> bool {
        self.failing.get(self.failed).copied() == Some(call)
    }
}
