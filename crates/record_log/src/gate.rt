//! What stands at a gate: a record behind an open one, or a gate that is not open, which is closed.
ghost use Rattle.std.specs.Prelude.{◌≡◌, ◌<◌, ◌≤◌, ◌+◌, ◌^◌, ℕ, [], Err, Ok, OnErr};
ghost use Rattle.disks.specs.Histories.{Goes, IsWithin};
ghost use Rattle.record_log.specs.Gates.{HasGate};
ghost use Rattle.record_log.specs.Heads.{HasHead};
ghost use Rattle.record_log.specs.Stores.{HasClosed};
ghost use Rattle.record_log.specs.declared.gate.Gate.TheVariants.{Shut};
ghost use Rattle.record_log.specs.declared.head.AtGate.TheVariants.{Open};
ghost use Rattle.record_log.specs.declared.refusal.LogRefusal.TheVariants.{DiskFault};

use crate::adding::CLOSED;
use crate::head::{AtGate, HEAD, read_body, read_head};
use crate::log_record::{LogRecord, Unread, record_in};
use crate::refusal::LogRefusal;
use crate::store::store;
use disks::Disk;
use q_outside::Failed;
use std::alloc::Global;

/// What stands at a gate.
#[derive(Drop)]
pub(crate) enum Gate {
    /// A record behind an open gate. The next gate is behind the record.
    Open { says: LogRecord, next: u64 },
    /// A gate that is not open.
    Shut { gate: u8 },
}

/// Reads what stands at a gate. The buffer is for the record's body.
pub(crate) fn read_gate<D: Disk>(
    alloc: Global,
    disk: &mut D,
    place: u64,
    body: &mut Vec<u8>,
) -> Result<Gate, LogRefusal>
    ensures found { HasGate (D.at disk.old).history place result }
    ensures kept { Goes (D.at disk.old).history (D.at disk.new).history [] }
    ensures failed { result ≡ Err DiskFault → (D.at disk.old).faults < (D.at disk.new).faults }
    ensures faults { (D.at disk.old).faults ≤ (D.at disk.new).faults }
    ensures room { (gate : ℕ) → result ≡ Ok (Shut gate) → place + 1 < 2 ^ 64 }
{
    match read_head(disk, place) {
        Ok(AtGate::Open { kind, clock, size }) => {
            read_record(alloc, disk, place, kind, clock, size, body)
        }
        Ok(AtGate::Shut { gate }) => Ok(Gate::Shut { gate }),
        Ok(AtGate::Missing) => Err(LogRefusal::BadRecord { place }),
        Ok(AtGate::Short) => Err(LogRefusal::BadRecord { place }),
        Err(_) => Err(LogRefusal::DiskFault),
    }
}

/// Reads the record whose gate and head stand at a place.
fn read_record<D: Disk>(
    alloc: Global,
    disk: &mut D,
    place: u64,
    kind: u8,
    clock: u64,
    size: u32,
    body: &mut Vec<u8>,
) -> Result<Gate, LogRefusal>
    requires { HasHead (D.at disk.old).history place (Open kind clock size) }
    ensures found { HasGate (D.at disk.old).history place result }
    ensures kept { Goes (D.at disk.old).history (D.at disk.new).history [] }
    ensures failed { result ≡ Err DiskFault → (D.at disk.old).faults < (D.at disk.new).faults }
    ensures faults { (D.at disk.old).faults ≤ (D.at disk.new).faults }
    ensures opens { (gate : ℕ) → result ≡ Ok (Shut gate) → ⊥ }
{
    let from = place.saturating_add(HEAD as u64);
    match read_body(disk, from, size as usize, body) {
        Ok(true) => {}
        Ok(false) => return Err(LogRefusal::BadRecord { place }),
        Err(refusal) => return Err(refusal),
    }
    match record_in(alloc, kind, clock, body) {
        Ok(says) => Ok(Gate::Open {
            says,
            next: from.saturating_add(size as u64),
        }),
        Err(Unread::Bad) => Err(LogRefusal::BadRecord { place }),
        Err(Unread::Memory) => Err(LogRefusal::Memory),
    }
}

/// Closes the gate at a place, which is not open and has this byte.
pub(crate) fn close_gate<D: Disk>(disk: &mut D, place: u64, gate: u8) -> Result<(), Failed>
    requires { IsWithin (D.at disk.old).history place }
    ensures closed { HasClosed (D.at disk.old).history (D.at disk.new).history place gate result }
    ensures failed { OnErr result ((D.at disk.old).faults < (D.at disk.new).faults) }
    ensures faults { (D.at disk.old).faults ≤ (D.at disk.new).faults }
{
    if gate == CLOSED {
        return Ok(());
    }
    store(disk, place, &[CLOSED])
}
