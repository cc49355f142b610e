//! A source with a buffer of its own, over any source.
ghost use Rattle.std.specs.Prelude.{◌≡◌, ◌<◌, ◌≤◌, ◌++◌, [], length, take, slice_range, IfOk};
ghost use Rattle.q_outside.specs.Buffered.{Fills, over};

use crate::environment::{Failed, Source};
use crate::sources::copy_piece;
use q_base::Memory;
use std::alloc::Global;

/// The size of the buffer, in bytes.
const SIZE: usize = 8_192;

/// A source that takes as much as its buffer holds at a time from the one under it, and gives from there,
/// so that small pieces cost no call of that one each. It shows what that one shows, behind the bytes in
/// the buffer, and fails where that one does. The buffer is made by `new`.
#[derive(Drop)]
pub struct BufferedSource<S: Source + Drop> {
    source: S,
    buffer: Vec<u8>,
    at: usize,
    end: usize,
    ghost some: { 0 < length buffer.items },
    ghost ordered: { at ≤ end },
    ghost within: { end ≤ length buffer.items },
}

impl<S: Source + Drop> BufferedSource<S> {
    /// The source over this one, with nothing in the buffer yet.
    pub fn new(alloc: Global, source: S) -> Result<BufferedSource<S>, Memory>
        ensures source { IfOk result (λ b. b.source ≡ source) }
        ensures at { IfOk result (λ b. b.at ≡ 0) }
        ensures end { IfOk result (λ b. b.end ≡ 0) }
    {
        let buffer = vec![in alloc; 0; SIZE]?;
        Ok(BufferedSource {
            source,
            buffer,
            at: 0,
            end: 0,
        })
    }

    /// Fills the buffer, of which all was given.
    fn fill(&mut self) -> Result<(), Failed>
        requires { self.old.at ≡ self.old.end }
        ensures { Fills (S.at self.old.source) (S.at self.new.source) (slice_range self.new.buffer.items self.new.at self.new.end) result }
    {
        match self.source.take(&mut self.buffer) {
            Ok(count) => {
                self.at = 0;
                self.end = count;
                Ok(())
            }
            Err(failed) => Err(failed),
        }
    }

    /// Copies the first bytes of the buffer and returns their number.
    fn give(&mut self, into: &mut [u8]) -> usize
        ensures source { self.new.source ≡ self.old.source }
        ensures within { result ≤ length into.new }
        ensures given { slice_range self.old.buffer.items self.old.at self.old.end ≡ take result into.new ++ slice_range self.new.buffer.items self.new.at self.new.end }
        ensures some { 0 < length into.old → result ≡ 0 → self.old.at ≡ self.old.end }
    {
        let count = copy_piece(&self.buffer[..self.end], self.at, into, usize::MAX);
        self.at += count;
        count
    }
}

impl<S: Source + Drop> Source for BufferedSource<S> {
    ghost at = { λ s. over (slice_range s.buffer.items s.at s.end) (S.at s.source) };

    ghost buffered = { λ s. slice_range s.buffer.items s.at s.end };

    fn held(&self) -> &[u8] {
        &self.buffer[self.at..self.end]
    }

    fn take(&mut self, into: &mut [u8]) -> Result<usize, Failed> {
        if self.at < self.end {
            return Ok(self.give(into));
        }
        if into.len() >= self.buffer.len() {
            return self.source.take(into);
        }
        match self.fill() {
            Ok(()) => Ok(self.give(into)),
            Err(failed) => Err(failed),
        }
    }

    fn begin(&mut self, held: bool) {
        self.source.begin(held || self.at < self.end);
    }

    fn is_ready(&mut self) -> bool {
        self.at < self.end || self.source.is_ready()
    }

    fn wait(&mut self) {
        if self.at == self.end {
            self.source.wait();
        }
    }

    fn is_stopping(&mut self) -> bool {
        self.source.is_stopping()
    }
}
