//! What stands before a record's body: the gate, the kind, the clock and the length of the body.
ghost use Rattle.std.specs.Prelude.{◌≡◌, ◌<◌, ◌≤◌, ◌+◌, ◌^◌, length, slice_index, [], option_map, IfOk, OnOk, OnErr, Err};
ghost use Rattle.std.specs.Int.{w32, w64, to_be_bytes};
ghost use Rattle.disks.specs.Histories.{Goes};
ghost use Rattle.record_log.specs.Frames.{head_text};
ghost use Rattle.record_log.specs.Heads.{HasHead, HasBody};
ghost use Rattle.record_log.specs.declared.head.AtGate.TheVariants.{Missing};
ghost use Rattle.record_log.specs.declared.refusal.LogRefusal.TheVariants.{DiskFault};

use crate::adding::OPEN;
use crate::refusal::LogRefusal;
use disks::Disk;
use q_outside::Failed;

/// The number of bytes before a record's body.
pub(crate) const HEAD: usize = 14;

/// What stands at the place of a gate.
#[derive(Clone, Copy, Debug, PartialEq, Eq)]
pub(crate) enum AtGate {
    /// No byte.
    Missing,
    /// A gate that is not open.
    Shut { gate: u8 },
    /// An open gate, and behind it fewer bytes than any record has.
    Short,
    /// An open gate, and behind it the beginning of a record.
    Open { kind: u8, clock: u64, size: u32 },
}

/// Reads what stands at the place of a gate.
pub(crate) fn read_head<D: Disk>(disk: &mut D, place: u64) -> Result<AtGate, Failed>
    ensures head { IfOk result (λ at. HasHead (D.at disk.old).history place at) }
    ensures room { IfOk result (λ at. (at ≡ Missing → ⊥) → place + 1 < 2 ^ 64) }
    ensures kept { Goes (D.at disk.old).history (D.at disk.new).history [] }
    ensures failed { OnErr result ((D.at disk.old).faults < (D.at disk.new).faults) }
    ensures faults { (D.at disk.old).faults ≤ (D.at disk.new).faults }
{
    if place >= disk.len() {
        return Ok(AtGate::Missing);
    }
    let mut head = [0; HEAD];
    let count = match disk.read_at(place, &mut head) {
        Ok(count) => count,
        Err(_) => return Err(Failed),
    };
    if count == 0 {
        return Ok(AtGate::Missing);
    }
    let gate = head[0];
    if gate != OPEN {
        return Ok(AtGate::Shut { gate });
    }
    if count < HEAD {
        return Ok(AtGate::Short);
    }
    Ok(AtGate::Open {
        kind: head[1],
        clock: clock_in(&head[2..10]),
        size: size_in(&head[10..14]),
    })
}

/// Reads this many bytes from a place on. `false` says that there are fewer.
pub(crate) fn read_body<D: Disk>(
    disk: &mut D,
    place: u64,
    size: usize,
    body: &mut Vec<u8>,
) -> Result<bool, LogRefusal>
    ensures body { HasBody (D.at disk.old).history place size body.new.items result }
    ensures kept { Goes (D.at disk.old).history (D.at disk.new).history [] }
    ensures failed { result ≡ Err DiskFault → (D.at disk.old).faults < (D.at disk.new).faults }
    ensures faults { (D.at disk.old).faults ≤ (D.at disk.new).faults }
{
    if disk.len().saturating_sub(place) < size as u64 {
        return Ok(false);
    }
    body.clear();
    match body.resize(size, 0) {
        Ok(()) => {}
        Err(_) => return Err(LogRefusal::Memory),
    }
    match disk.read_at(place, body) {
        Ok(count) => Ok(count == size),
        Err(_) => Err(LogRefusal::DiskFault),
    }
}

/// Eight bytes as a number, the high byte first.
fn clock_in(bytes: &[u8]) -> u64
    requires { length bytes.now ≡ 8 }
    ensures { to_be_bytes w64 result ≡ bytes.now }
{
    match <[u8; 8]>::try_from(bytes) {
        Ok(word) => u64::from_be_bytes(word),
        Err(_) => unreachable!(),
    }
}

/// Four bytes as a number, the high byte first.
fn size_in(bytes: &[u8]) -> u32
    requires { length bytes.now ≡ 4 }
    ensures { to_be_bytes w32 result ≡ bytes.now }
{
    match <[u8; 4]>::try_from(bytes) {
        Ok(word) => u32::from_be_bytes(word),
        Err(_) => unreachable!(),
    }
}
