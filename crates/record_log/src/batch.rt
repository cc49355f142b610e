//! A batch: records as the bytes that a log adds at once.
ghost use Rattle.std.specs.Prelude.{◌≡◌, ◌≤◌, ◌<◌, ◌^◌, ◌-◌, true, false, [], ◌∷◌, ◌++◌, length, take, IfOk, OnOk, OnErr};
ghost use Rattle.record_log.specs.Batches.{AddsFrame, IsBatch, IsFrameOf};
ghost use Rattle.record_log.specs.Frames.{closed_gate, opened, batch_of};
ghost use Rattle.commit_book.specs.Journal.{text_of};
ghost use Rattle.q_base.specs.Name.{IsName};
ghost use Rattle.record_log.specs.Puts.{CanPut, IsPut};
ghost use Rattle.record_log.specs.Records.{body_of, frame_of, greatest_clock};
ghost use Rattle.record_log.specs.declared.log_record.LogRecord.TheVariants.{Commit, Moment};

use crate::adding::{CLOSED, OPEN};
use crate::log_record::{COMMIT, MOMENT};
use commit_book::Change;
use q_base::{Memory, Name};
use q_doc::Doc;
use std::alloc::{AllocError, Global};
use std::marker::Model;

/// Records that a log is to add at once. Contracts see the bytes from the gate on behind which they go:
/// each record behind an open gate, and a closed gate.
#[derive(Drop)]
pub struct Batch {
    alloc: Global,
    bytes: Vec<u8>,
}

impl Model for Batch {
    ghost use Rattle.std.specs.Prelude.{List, ℕ};
    ghost use Rattle.record_log.specs.Batches.{IsBatch};

    ghost Value = { List ℕ };

    ghost view = { λ b. b.bytes.items };

    ghost invariant = { λ b. IsBatch b.bytes.items };
}

impl Batch {
    /// A batch without a record.
    pub fn new(alloc: Global) -> Result<Batch, Memory>
        ensures { IfOk result (λ b. b ≡ batch_of []) }
    {
        let mut bytes = Vec::new(alloc);
        bytes.push(CLOSED)?;
        Ok(Batch { alloc, bytes })
    }

    /// Whether it has no record.
    pub fn is_empty(&self) -> bool
        ensures empty { result ≡ true → self.now ≡ batch_of [] }
        ensures some { result ≡ false → self.now ≡ batch_of [] → ⊥ }
    {
        self.bytes.len() == 1
    }

    /// Lets its records go, and keeps the memory for others.
    pub fn clear(&mut self)
        ensures { self.new ≡ batch_of [] }
    {
        self.bytes.truncate(0);
        self.bytes.push_reserved(CLOSED);
    }

    /// The bytes.
    pub fn as_slice(&self) -> &[u8]
        ensures same { result.now ≡ self.now }
        ensures batch { IsBatch self.now }
    {
        &self.bytes
    }

    /// Adds the record that this change is a commit, made at a clock in seconds since 1970.
    pub fn add_commit(&mut self, clock: u64, change: &Change) -> Result<(), Memory>
        requires { clock ≤ greatest_clock }
        ensures added { OnOk result (AddsFrame self.old self.new (frame_of (Commit clock change.now))) }
        ensures read { OnOk result (IsFrameOf (frame_of (Commit clock change.now)) (Commit clock change.now)) }
        ensures not { OnErr result (self.new ≡ self.old) }
    {
        let body = body_of(self.alloc, change)?;
        self.add(COMMIT, clock, &body)
    }

    /// Adds the record that the change of this body is a commit, made at a clock in seconds since 1970.
    pub fn add_body(&mut self, clock: u64, body: &Body) -> Result<(), Memory>
        requires { clock ≤ greatest_clock }
        ensures added { OnOk result (AddsFrame self.old self.new (record { kind = 1; clock = clock; body = body.now })) }
        ensures not { OnErr result (self.new ≡ self.old) }
    {
        self.add(COMMIT, clock, body.as_slice())
    }

    /// Adds the record that a moment is kept, in seconds since 1970.
    pub fn add_moment(&mut self, clock: u64) -> Result<(), Memory>
        requires { clock ≤ greatest_clock }
        ensures added { OnOk result (AddsFrame self.old self.new (frame_of (Moment clock))) }
        ensures read { OnOk result (IsFrameOf (frame_of (Moment clock)) (Moment clock)) }
        ensures not { OnErr result (self.new ≡ self.old) }
    {
        self.add(MOMENT, clock, &[])
    }

    /// Adds a record of this kind.
    fn add(&mut self, kind: u8, clock: u64, body: &[u8]) -> Result<(), Memory>
        requires { length body.now < 2 ^ 32 }
        ensures added { OnOk result (AddsFrame self.old self.new (record { kind = kind; clock = clock; body = body.now })) }
        ensures not { OnErr result (self.new ≡ self.old) }
    {
        match put_record(self.alloc, &mut self.bytes, kind, clock, body) {
            Ok(()) => Ok(()),
            Err(_) => Err(Memory),
        }
    }
}

/// A change as the body of its record, which is made before its clock is known. Contracts see the bytes.
#[derive(Drop)]
pub struct Body {
    bytes: Vec<u8>,
}

impl Model for Body {
    ghost use Rattle.std.specs.Prelude.{List, ℕ, length, ◌<◌, ◌^◌};

    ghost Value = { List ℕ };

    ghost view = { λ b. b.bytes.items };

    ghost invariant = { λ b. length b.bytes.items < 2 ^ 32 };
}

impl Body {
    /// The body of a change.
    pub fn of(alloc: Global, change: &Change) -> Result<Body, Memory>
        ensures text { IfOk result (λ body. body ≡ body_of change.now) }
        ensures can { IfOk result (λ _. CanPut change.now) }
    {
        let bytes = body_of(alloc, change)?;
        Ok(Body { bytes })
    }

    /// The bytes.
    pub fn as_slice(&self) -> &[u8]
        ensures same { result.now ≡ self.now }
        ensures short { length self.now < 2 ^ 32 }
    {
        &self.bytes
    }
}

/// Puts a record in the place of the last byte, and a closed gate behind it.
fn put_record(
    alloc: Global,
    bytes: &mut Vec<u8>,
    kind: u8,
    clock: u64,
    body: &[u8],
) -> Result<(), AllocError>
    requires size { length body.now < 2 ^ 32 }
    requires some { 0 < length bytes.old.items }
    ensures added { OnOk result (bytes.new.items ≡ take (length bytes.old.items - 1) bytes.old.items ++ (opened (record { kind = kind; clock = clock; body = body.now }) ++ closed_gate ∷ [])) }
    ensures not { OnErr result (bytes.new.items ≡ bytes.old.items) }
{
    let mut text = opened(alloc, kind, clock, body)?;
    text.push(CLOSED)?;
    let last = bytes.len() - 1;
    bytes.reserve(text.len())?;
    bytes.truncate(last);
    match bytes.extend_from_slice(&text) {
        Ok(()) => Ok(()),
        Err(_) => unreachable!(),
    }
}

/// A record behind its open gate.
fn opened(alloc: Global, kind: u8, clock: u64, body: &[u8]) -> Result<Vec<u8>, AllocError>
    requires { length body.now < 2 ^ 32 }
    ensures { IfOk result (λ text. text.items ≡ opened (record { kind = kind; clock = clock; body = body.now })) }
{
    let mut text = Vec::new(alloc);
    text.push(OPEN)?;
    text.push(kind)?;
    text.extend_from_slice(&clock.to_be_bytes())?;
    text.extend_from_slice(&(body.len() as u32).to_be_bytes())?;
    text.extend_from_slice(body)?;
    Ok(text)
}

/// The body of a commit: the names, each behind its length in one byte, and the printed document.
#[tactic(auto, unfolding(crate::specs::Records::body_of))]
fn body_of(alloc: Global, change: &Change) -> Result<Vec<u8>, Memory>
    ensures text { IfOk result (λ body. body.items ≡ body_of change.now) }
    ensures can { IfOk result (λ _. CanPut change.now) }
{
    let mut body = Vec::new(alloc);
    put_name(&mut body, &change.collection)?;
    put_name(&mut body, &change.id)?;
    put_document(alloc, &mut body, &change.document)?;
    Ok(body)
}

/// Puts a name behind its length in one byte.
fn put_name(body: &mut Vec<u8>, name: &Name) -> Result<(), Memory>
    ensures text { OnOk result (body.new.items ≡ body.old.items ++ (length name.now ∷ name.now)) }
    ensures name { IsName name.now }
{
    let bytes = name.as_slice();
    body.push(bytes.len() as u8)?;
    body.extend_from_slice(bytes)?;
    Ok(())
}

/// Puts the printed text of a document, where there is one.
fn put_document(alloc: Global, body: &mut Vec<u8>, document: &Option<Doc>) -> Result<(), Memory>
    ensures text { OnOk result (body.new.items ≡ body.old.items ++ text_of document.now) }
    ensures put { OnOk result (IsPut document.now) }
{
    match document {
        Some(document) => {
            // Its root shows that it is an object, and not too long.
            let _root = document.root();
            let text = match document.print(alloc) {
                Ok(text) => text,
                Err(_) => return Err(Memory),
            };
            body.extend_from_slice(text.as_slice())?;
            Ok(())
        }
        None => Ok(()),
    }
}
