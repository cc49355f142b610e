//! The buffers for a connection's requests, and the requests that are taken into them.
ghost use Rattle.std.specs.Prelude.{◌≡◌, ◌==◌, ◌+◌, ◌<◌, ◌^◌, [], length, IfOk};
ghost use Rattle.http_message.specs.Taken.{IsTaken, WaitsForNone, item_limit};

use crate::buffers::Buffers;
use crate::last_request::LastRequest;
use crate::message::Request;
use crate::request::next_in;
use crate::taken::Taken;
use q_base::Memory;
use q_outside::{Sink, Source};
use std::alloc::Global;
use std::marker::Model;

/// The buffers for the requests of a connection: the bytes that were taken from its source and are not
/// used yet, and the last request. All memory is taken by `new`.
#[derive(Drop)]
pub struct RequestRoom {
    buffers: Buffers,
    last_request: LastRequest,
    offset: usize,
}

impl Model for RequestRoom {
    ghost use Rattle.http_message.specs.Room.{IsLastRequest, last_message, state_of};
    ghost use Rattle.http_message.specs.Taken.{RequestState};

    ghost Value = { RequestState };

    ghost view = { λ r. state_of r.buffers.bytes r.offset (last_message r.buffers r.last_request) };

    ghost invariant = { λ r. IsLastRequest r.buffers r.last_request };
}

impl RequestRoom {
    /// The buffers, which hold no byte.
    pub fn new(alloc: Global) -> Result<RequestRoom, Memory>
        ensures { IfOk result (λ buffer. (buffer.bytes ≡ []) × (buffer.offset ≡ 0)) }
    {
        let buffers = Buffers::new(alloc)?;
        Ok(RequestRoom {
            buffers,
            last_request: LastRequest::NONE,
            offset: 0,
        })
    }

    /// The last request that was taken.
    pub fn request(&self) -> Request<'_>
        ensures { result ≡ self.now.message }
    {
        self.buffers.request(self.last_request)
    }

    /// Drops what is left of a former connection.
    pub fn clear(&mut self)
        ensures bytes { self.new.bytes ≡ [] }
        ensures offset { self.new.offset ≡ 0 }
    {
        self.resume(0);
    }

    /// Drops what is left, for a connection of which this number of bytes was used already and no other
    /// was taken.
    pub fn resume(&mut self, offset: usize)
        ensures bytes { self.new.bytes ≡ [] }
        ensures offset { self.new.offset ≡ offset }
    {
        self.buffers.clear();
        self.offset = offset;
    }

    /// Whether no byte is held.
    pub fn is_empty(&self) -> bool
        ensures { result ≡ (length self.now.bytes == 0) }
    {
        self.buffers.input.len() == 0
    }

    /// The number of bytes that were used.
    pub fn offset(&self) -> usize
        ensures { result ≡ self.now.offset }
    {
        self.offset
    }
}

/// Takes the next item, first from the bytes that are held, then from the source, and says what it is.
/// `100 Continue` is given to the sink where the item's head expects it, before its body is taken.
/// It takes no memory.
pub fn next_request<S: Source, K: Sink>(
    source: &mut S,
    sink: &mut K,
    buffer: &mut RequestRoom,
) -> Taken
    requires { buffer.old.offset + item_limit < 2 ^ 64 }
    ensures taken { IsTaken (S.at source.old) (S.at source.new) (K.at sink.old) (K.at sink.new) buffer.old buffer.new result }
    ensures waits { WaitsForNone (S.at source.old) (S.at source.new) buffer.old.bytes }
{
    match next_in(source, sink, &mut buffer.buffers, buffer.offset) {
        Ok(next) => {
            buffer.offset = next.offset;
            buffer.last_request = next.last_request;
            next.taken
        }
        Err(incomplete) => {
            buffer.last_request = LastRequest::NONE;
            incomplete.taken()
        }
    }
}
