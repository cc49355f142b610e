//! The lines of the access log, until they are written.
//!
//! A thread that has given a reply puts its line into the first of a few buffers that nobody has in hand
//! and that has room. It waits for none of them, so no reply does: where there is no such buffer the line is
//! dropped. One thread takes the buffers and writes them, each by one call as a rule. It gives an empty one
//! for each that it takes, so nothing is copied under a lock, and no memory is taken. Lines that were put at
//! the same time may change their order.

use access_log::Form;
use std::alloc::{AllocError, Global};
use std::mem;
use std::sync::Mutex;
use std::sync::atomic::{AtomicBool, Ordering};

/// How many buffers there are.
const BUFFERS: usize = 4;

/// How many bytes one has.
const BUFFER_BYTES: usize = 262_144;

/// The lines that are still to be written.
#[derive(Drop)]
pub struct LogQueue {
    form: Form,
    buffers: Vec<Mutex<Vec<u8>>>,
    /// Whether no line comes any more.
    is_ended: AtomicBool,
    /// Whether all lines were written then.
    is_written: AtomicBool,
}

impl LogQueue {
    /// No line.
    pub fn new(alloc: Global, form: Form) -> Result<LogQueue, AllocError> {
        let mut buffers = Vec::with_capacity(alloc, BUFFERS)?;
        for _n in 0..BUFFERS {
            buffers.push(Mutex::new(LogQueue::buffer(alloc)?))?;
        }
        Ok(LogQueue {
            form,
            buffers,
            is_ended: AtomicBool::new(false),
            is_written: AtomicBool::new(false),
        })
    }

    /// An empty buffer, as `take` wants one.
    pub fn buffer(alloc: Global) -> Result<Vec<u8>, AllocError> {
        Vec::with_capacity(alloc, BUFFER_BYTES)
    }

    /// How the lines are written.
    pub(crate) fn form(&self) -> Form {
        self.form
    }

    /// Puts a line, or drops it. Whether it was put.
    pub(crate) fn put(&self, line: &[u8]) -> bool {
        for buffer in self.buffers.iter() {
            if let Some(mut bytes) = buffer.try_lock() {
                let room = bytes.capacity().saturating_sub(bytes.len());
                if line.len() <= room && bytes.extend_from_slice(line).is_ok() {
                    return true;
                }
            }
        }
        false
    }

    /// The number of buffers.
    pub fn count(&self) -> usize {
        self.buffers.len()
    }

    /// Takes what is in a buffer, and leaves this one there. Where somebody has it in hand this one comes
    /// back.
    pub fn take(&self, index: usize, empty: Vec<u8>) -> Vec<u8> {
        let mut taken = empty;
        if let Some(buffer) = self.buffers.get(index) {
            if let Some(mut bytes) = buffer.try_lock() {
                mem::swap(&mut *bytes, &mut taken);
            }
        }
        taken
    }

    /// Says that no line comes any more.
    pub fn end(&self) {
        self.is_ended.store(true, Ordering::SeqCst);
    }

    /// Whether no line comes any more.
    pub fn is_ended(&self) -> bool {
        self.is_ended.load(Ordering::SeqCst)
    }

    /// Says that all lines were written.
    pub fn tell_written(&self) {
        self.is_written.store(true, Ordering::SeqCst);
    }

    /// Whether all lines were written.
    pub fn is_written(&self) -> bool {
        self.is_written.load(Ordering::SeqCst)
    }
}
