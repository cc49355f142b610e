//! The bytes that were taken from a source and are not used yet.
ghost use Rattle.std.specs.Prelude.{◌≡◌, ◌+◌, ◌-◌, ◌<◌, ◌≤◌, [], length, take, drop, slice_range, vec_len, IfOk, IfErr};
ghost use Rattle.httparse.specs.Spans.{span_bytes};
ghost use Rattle.q_outside.specs.Ends.{TookBytes};
ghost use Rattle.http_message.specs.Input.{NoMoreBytes, Fills};
ghost use Rattle.http_message.specs.Limits.{head_limit};

use crate::incomplete::Incomplete;
use crate::limits::HEAD_LIMIT;
use httparse::spans::Span;
use q_base::Memory;
use q_outside::{Failed, Source};
use std::alloc::Global;
use std::marker::Model;

/// Bytes in a buffer that is as long as the longest head. Contracts see them as a list.
#[derive(Drop)]
pub struct Input {
    buffer: Vec<u8>,
    start: usize,
    end: usize,
}

impl Model for Input {
    ghost use Rattle.std.specs.Prelude.{ℕ, List, slice_range};
    ghost use Rattle.http_message.specs.BufferRange.{IsBufferRange};

    ghost Value = { List ℕ };

    ghost view = { λ i. slice_range i.buffer.items i.start i.end };

    ghost invariant = { λ i. IsBufferRange i.buffer.items i.start i.end };
}

impl Input {
    /// No bytes, in a buffer for them.
    pub fn new(alloc: Global) -> Result<Input, Memory>
        ensures { IfOk result (λ input. input ≡ []) }
    {
        let buffer = vec![in alloc; 0; HEAD_LIMIT]?;
        Ok(Input {
            buffer,
            start: 0,
            end: 0,
        })
    }

    /// The bytes.
    pub fn bytes(&self) -> &[u8]
        ensures { result.now ≡ self.now }
    {
        &self.buffer[self.start..self.end]
    }

    /// How many there are.
    pub fn len(&self) -> usize
        ensures { result ≡ length self.now }
    {
        self.end - self.start
    }

    /// Drops all of them.
    pub fn clear(&mut self)
        ensures { self.new ≡ [] }
    {
        self.start = 0;
        self.end = 0;
    }

    /// Drops the first of them. None is moved.
    pub fn skip(&mut self, count: usize)
        requires { count ≤ length self.old }
        ensures { self.new ≡ drop count self.old }
    {
        if self.start + count == self.end {
            self.start = 0;
            self.end = 0;
        } else {
            self.start += count;
        }
    }

    /// Takes more bytes behind these, at least one. They are moved to the start where the space behind
    /// them is used up.
    pub fn fill<S: Source>(&mut self, source: &mut S) -> Result<(), Incomplete>
        requires { length self.old < head_limit }
        ensures { Fills (S.at source.old) (S.at source.new) self.old self.new result }
    {
        let span = make_space(&mut self.buffer, self.start, self.end);
        self.start = span.start;
        self.end = span.end;
        let count = take_behind(source, &mut self.buffer, span.end)?;
        self.end = span.end + count;
        Ok(())
    }
}

/// Where the bytes are once there is space behind them. They are moved to the start if need be.
fn make_space(buffer: &mut Vec<u8>, start: usize, end: usize) -> Span
    requires ordered { start ≤ end }
    requires within { end ≤ vec_len buffer.old }
    requires some { end - start < vec_len buffer.old }
    ensures same { span_bytes buffer.new.items result ≡ slice_range buffer.old.items start end }
    ensures ordered { result.start ≤ result.end }
    ensures space { result.end < vec_len buffer.new }
    ensures len { vec_len buffer.new ≡ vec_len buffer.old }
{
    if end < buffer.len() {
        return Span { start, end };
    }
    buffer.copy_within(start..end, 0);
    Span {
        start: 0,
        end: end - start,
    }
}

/// Takes bytes from the offset `end` on, and answers how many came, at least one.
fn take_behind<S: Source>(
    source: &mut S,
    buffer: &mut Vec<u8>,
    end: usize,
) -> Result<usize, Incomplete>
    requires { end < vec_len buffer.old }
    ensures same_before { take end buffer.new.items ≡ take end buffer.old.items }
    ensures len { vec_len buffer.new ≡ vec_len buffer.old }
    ensures some { IfOk result (λ n. 0 < n) }
    ensures within { IfOk result (λ n. end + n ≤ vec_len buffer.new) }
    ensures took { IfOk result (λ n. TookBytes (S.at source.old) (S.at source.new) (slice_range buffer.new.items end (end + n))) }
    ensures incomplete { IfErr result (λ incomplete. TookBytes (S.at source.old) (S.at source.new) [] × NoMoreBytes (S.at source.old) (S.at source.new) incomplete) }
{
    match source.take(&mut buffer[end..]) {
        Ok(0) => Err(Incomplete::Truncated),
        Ok(count) => Ok(count),
        Err(Failed) => Err(Incomplete::ReadFault),
    }
}
