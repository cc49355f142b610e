//! Adapters to the operating system. Nothing is known of the bytes and moments that it gives.
//!
//! A count of faults is a number of 64 bits. At its greatest a further fault is reported as the end of
//! the source, or as bytes that the sink took, since neither shows its bytes.
ghost use Rattle.std.specs.Prelude.{◌≡◌, ℕ, Some, None};

use crate::environment::{Clock, Failed, Sink, Source};
use crate::note::Note;
use q_base::Moment;
use std::io::{Read, Write};
use std::rt;

/// The source over a reader of std, such as standard input.
#[derive(Debug, Drop)]
pub struct ReadSource<R: Read + Drop> {
    reader: R,
    faults: u64,
}

impl<R: Read + Drop> ReadSource<R> {
    /// The source over this reader, with no fault yet.
    pub fn new(reader: R) -> ReadSource<R>
        ensures { result.faults ≡ 0 }
    {
        ReadSource { reader, faults: 0 }
    }
}

impl<R: Read + Drop> Source for ReadSource<R> {
    ghost at = { λ s. record { bytes = None; faults = s.faults } };

    fn held(&self) -> &[u8] {
        &[]
    }

    fn take(&mut self, into: &mut [u8]) -> Result<usize, Failed> {
        match self.reader.read(into) {
            Ok(count) => Ok(count),
            Err(_) if self.faults < u64::MAX => {
                self.faults += 1;
                Err(Failed)
            }
            Err(_) => Ok(0),
        }
    }

    fn begin(&mut self, _held: bool) {}

    fn is_ready(&mut self) -> bool {
        true
    }

    fn wait(&mut self) {}

    fn is_stopping(&mut self) -> bool {
        false
    }
}

/// The sink over a writer of std, such as standard output.
#[derive(Debug, Drop)]
pub struct WriteSink<W: Write + Drop> {
    writer: W,
    faults: u64,
}

impl<W: Write + Drop> WriteSink<W> {
    /// The sink over this writer, with no fault yet.
    pub fn new(writer: W) -> WriteSink<W>
        ensures { result.faults ≡ 0 }
    {
        WriteSink { writer, faults: 0 }
    }
}

impl<W: Write + Drop> Sink for WriteSink<W> {
    ghost at = { λ s. record { bytes = None; faults = s.faults } };

    ghost ended = { λ _. Some None };

    fn give(&mut self, bytes: &[u8]) -> Result<usize, Failed> {
        match self.writer.write(bytes) {
            Ok(count) if count > 0 => Ok(count),
            _ if self.faults < u64::MAX => {
                self.faults += 1;
                Err(Failed)
            }
            _ => Ok(bytes.len()),
        }
    }

    fn end(&mut self) {
        let _ = self.writer.flush();
    }

    fn note(&mut self, _note: &Note<'_>) {}
}

/// The clock of the operating system. The moment is 0 where it fails or is before 1970.
#[derive(Debug, Drop)]
pub struct SystemClock<R: rt::Clock + Drop> {
    clock: R,
}

impl<R: rt::Clock + Drop> SystemClock<R> {
    /// The clock of this runtime.
    pub fn new(clock: R) -> SystemClock<R> {
        SystemClock { clock }
    }
}

impl<R: rt::Clock + Drop> Clock for SystemClock<R> {
    ghost tick = { λ _ _ _. Unit {0} };

    fn now(&mut self) -> Moment {
        match self.clock.since_1970() {
            Ok(passed) => Moment::of(passed.as_secs()),
            Err(_) => Moment::of(0),
        }
    }
}
