//! Connections of one request, whose sinks keep what they are given, and the statuses that are noted.

use q_base::Memory;
use q_outside::{Failed, HoldGate, Note, PlainSource, Served, Sink, Why};
use std::alloc::Global;
use std::collections::VecDeque;

/// A request.
pub(crate) const GET: &[u8] = b"GET /v1/stats HTTP/1.1\r\nHost: a\r\n\r\n";

/// How a connection of so many requests is served.
pub(crate) fn requests(count: u64) -> Served {
    Served {
        requests: count,
        why: Why::InputEnd,
    }
}

/// A sink that keeps what it is given while there is memory, and shows nothing. When it is ended, it
/// opens a gate, if it has one.
#[derive(Drop)]
pub(crate) struct KeptSink {
    pub bytes: Vec<u8>,
    pub faults: u64,
    /// The statuses that were noted.
    pub noted: Vec<u16>,
    pub opens: Option<HoldGate>,
}

impl Sink for KeptSink {
    ghost use Rattle.std.specs.Prelude.{Some, None};

    ghost at = { λ s. record { bytes = None; faults = s.faults } };

    ghost ended = { λ _. Some None };

    fn give(&mut self, bytes: &[u8]) -> Result<usize, Failed> {
        if self.bytes.extend_from_slice(bytes).is_err() && self.faults < u64::MAX {
            self.faults += 1;
            return Err(Failed);
        }
        Ok(bytes.len())
    }

    fn end(&mut self) {
        if let Some(gate) = &self.opens {
            gate.open();
        }
    }

    fn note(&mut self, note: &Note<'_>) {
        let _ = self.noted.push(note.status);
    }
}

/// A connection of so many requests.
pub(crate) fn connection_of(
    alloc: Global,
    count: usize,
    opens: Option<HoldGate>,
) -> Result<(PlainSource, KeptSink), Memory> {
    let mut bytes = Vec::new(alloc);
    for _ in 0..count {
        bytes.extend_from_slice(GET)?;
    }
    Ok(connection_from(alloc, bytes, opens))
}

/// A connection of these bytes.
pub(crate) fn connection_from(
    alloc: Global,
    bytes: Vec<u8>,
    opens: Option<HoldGate>,
) -> (PlainSource, KeptSink) {
    let sink = KeptSink {
        bytes: Vec::new(alloc),
        faults: 0,
        noted: Vec::new(alloc),
        opens,
    };
    (PlainSource::of(bytes), sink)
}

/// So many connections of one request each.
pub(crate) fn connections_of(
    alloc: Global,
    count: usize,
) -> Result<VecDeque<(PlainSource, KeptSink)>, Memory> {
    let mut connections = VecDeque::new(alloc);
    for _ in 0..count {
        connections.push_back(connection_of(alloc, 1, None)?)?;
    }
    Ok(connections)
}
