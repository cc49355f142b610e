//! A disk in memory, of which a list says which calls fail, which stops, and which can crash.
ghost use Rattle.std.specs.Prelude.{◌≡◌, ◌<◌, ◌≤◌, ℕ, [], ◌∷◌, Some, length, take, drop, count_by, IfOk, OnOk, OnErr};
ghost use Rattle.std.specs.List.{range_with_len};
ghost use Rattle.disks.specs.Devices.{over, is_open, drawn, is_open_by};
ghost use Rattle.disks.specs.Devices.{Wrote};
ghost use Rattle.disks.specs.Histories.{History, device_of, Goes, IsWithin, Tears, HasCrashed, Reads};

use crate::disk::Disk;
use crate::past::{Call, Past};
use crate::plan::{Fate, Plan};
use crate::range::{ByteRange, is_in_some};
use q_outside::{Failed, Faults};
use std::alloc::{AllocError, Global};
use std::marker::Model;
use std::snapshot::Snapshot;
use std::sync::ledger::{Blank, Ledger};

/// A disk in memory. The calls of a list fail, and a write that does leaves the first half of its bytes.
/// It also fails where it finds no memory, or has stopped, and then changes nothing. It shows its history.
#[derive(Drop)]
pub struct MemoryDisk<L: Ledger> {
    alloc: Global,
    bytes: Vec<u8>,
    /// The number of bytes at the last sync.
    synced: usize,
    /// What was written since the last sync, the newest first.
    ranges: Vec<ByteRange>,
    start: Snapshot<Vec<u8>>,
    past: Past,
    plan: Plan,
    faults: Faults<L>,
}

impl<L: Ledger> Model for MemoryDisk<L> {
    ghost use Rattle.std.specs.Prelude.{Some};
    ghost use Rattle.disks.specs.Devices.{device};
    ghost use Rattle.disks.specs.Histories.{DiskView};
    ghost use Rattle.disks.specs.MemoryDisks.{IsKept};

    ghost Value = { DiskView };

    ghost view = { λ d. record { history = Some (record { start = d.start.value.items; calls = d.past }); faults = d.faults } };

    ghost invariant = { λ d. IsKept (device d.start.value.items d.past) d.bytes.items d.synced d.ranges.items };
}

impl<L: Ledger> MemoryDisk<L> {
    /// A disk that holds these bytes at rest, and of which the calls of these numbers fail, counted from 0
    /// and rising. Each read, write and sync counts.
    pub fn new(alloc: Global, bytes: Vec<u8>, failing: Vec<u64>, blank: Blank) -> MemoryDisk<L>
        requires name { blank.name ≡ L.name }
        requires parts { blank.parts ≡ L.parts }
        requires some { 0 < L.parts }
        ensures history { result.history ≡ Some (record { start = bytes.items; calls = [] }) }
        ensures faults { result.faults ≡ 0 }
    {
        MemoryDisk {
            alloc,
            synced: bytes.len(),
            ranges: Vec::new(alloc),
            start: Snapshot::of(&bytes),
            bytes,
            past: Past::new(),
            plan: Plan::of(failing),
            faults: Faults::new(blank),
        }
    }

    /// The machine stops after this many calls more: each call after them fails and changes nothing.
    pub fn stop_after(&mut self, calls: u64)
        ensures { self.new ≡ self.old }
    {
        self.plan.stop_after(calls);
    }

    /// What reads give.
    pub fn bytes(&self) -> &[u8]
        ensures { (h : History) → self.now.history ≡ Some h → result.now ≡ (device_of h).seen }
    {
        &self.bytes
    }

    /// How many of the present bytes may be any after a crash.
    pub fn open_bytes(&self) -> usize
        ensures { (h : History) → self.now.history ≡ Some h → result ≡ count_by (is_open (device_of h)) (range_with_len 0 (length (device_of h).seen)) }
    {
        count_open(self.bytes.len(), self.synced, &self.ranges)
    }

    /// The machine crashes and starts again: the bytes that may be any are the drawn ones, in order of
    /// places, the length stays the present one, and the disk is at rest and runs.
    pub fn crash(&mut self, draws: &[u8])
        ensures { HasCrashed self.old self.new draws.now }
    {
        draw_open(&mut self.bytes, self.synced, &self.ranges, draws);
        self.synced = self.bytes.len();
        self.ranges.clear();
        self.start = Snapshot::of(&self.bytes);
        self.past = Past::new();
        self.plan.start();
    }

    /// Writes bytes. For want of memory it changes nothing.
    fn put(&mut self, place: usize, bytes: &[u8]) -> Result<(), AllocError>
        requires { IsWithin self.old.history place }
        ensures done { OnOk result (Goes self.old.history self.new.history (Wrote place bytes.now ∷ [])) }
        ensures not { OnErr result (self.new.history ≡ self.old.history) }
        ensures faults { self.new.faults ≡ self.old.faults }
    {
        let text = copy_of(self.alloc, bytes)?;
        let range = ByteRange {
            start: place,
            size: bytes.len(),
        };
        self.ranges.reserve(1)?;
        write_over(self.alloc, &mut self.bytes, place, bytes)?;
        match self.ranges.insert(0, range) {
            Ok(()) => {}
            Err(_) => unreachable!(),
        }
        let call = Call::Wrote { place, bytes: text };
        self.past.note(&call);
        Ok(())
    }

    /// Writes the first half of the bytes. For want of memory it changes nothing.
    fn put_half(&mut self, place: usize, bytes: &[u8]) -> Result<(), AllocError>
        requires { IsWithin self.old.history place }
        ensures torn { Tears self.old.history self.new.history place bytes.now }
        ensures faults { self.new.faults ≡ self.old.faults }
    {
        let text = copy_of(self.alloc, bytes)?;
        let mut left = copy_of(self.alloc, &self.bytes)?;
        write_over(self.alloc, &mut left, place, &bytes[..bytes.len() / 2])?;
        let next = copy_of(self.alloc, &left)?;
        let range = ByteRange {
            start: place,
            size: bytes.len(),
        };
        self.ranges.insert(0, range)?;
        self.bytes = next;
        let call = Call::Tore {
            place,
            bytes: text,
            left,
        };
        self.past.note(&call);
        Ok(())
    }
}

impl<L: Ledger> Disk for MemoryDisk<L> {
    ghost at = { λ d. d };

    fn len(&self) -> u64 {
        self.bytes.len() as u64
    }

    fn read_at(&mut self, place: u64, into: &mut [u8]) -> Result<usize, Failed> {
        match self.plan.next() {
            Fate::Done => Ok(copy_from(&self.bytes, place as usize, into)),
            Fate::Fails | Fate::Stopped => {
                self.faults.rise();
                Err(Failed)
            }
        }
    }

    fn write_at(&mut self, place: u64, bytes: &[u8]) -> Result<(), Failed> {
        let fate = self.plan.next();
        let ends = place.checked_add(bytes.len() as u64).is_some();
        if fate == Fate::Done && ends && self.put(place as usize, bytes).is_ok() {
            return Ok(());
        }
        if fate == Fate::Fails {
            let _ = self.put_half(place as usize, bytes);
        }
        self.faults.rise();
        Err(Failed)
    }

    fn sync(&mut self) -> Result<(), Failed> {
        match self.plan.next() {
            Fate::Done => {
                self.past.note(&Call::Synced);
                self.synced = self.bytes.len();
                self.ranges.clear();
                Ok(())
            }
            Fate::Fails | Fate::Stopped => {
                self.faults.rise();
                Err(Failed)
            }
        }
    }
}

/// Puts bytes in the place of those from a place on, and past the end.
fn write_over(
    alloc: Global,
    old: &mut Vec<u8>,
    place: usize,
    bytes: &[u8],
) -> Result<(), AllocError>
    requires { place ≤ length old.old.items }
    ensures done { OnOk result (old.new.items ≡ over old.old.items place bytes.now) }
    ensures not { OnErr result (old.new.items ≡ old.old.items) }
{
    let mut more = copy_of(alloc, bytes)?;
    if bytes.len() < old.len() - place {
        more.extend_from_slice(&old[place + bytes.len()..])?;
    }
    old.reserve(more.len())?;
    old.truncate(place);
    match old.extend_from_slice(&more) {
        Ok(()) => Ok(()),
        Err(_) => unreachable!(),
    }
}

/// Copies the bytes from a place on to the start of the buffer, and returns their number.
fn copy_from(bytes: &[u8], place: usize, into: &mut [u8]) -> usize
    ensures count { result ≡ length (take (length into.old) (drop place bytes.now)) }
    ensures copied { take result into.new ≡ take (length into.old) (drop place bytes.now) }
{
    let from = place.min(bytes.len());
    let count = (bytes.len() - from).min(into.len());
    into[..count].copy_from_slice(&bytes[from..from + count]);
    count
}

/// How many of the places below the length may hold any byte.
fn count_open(length: usize, synced: usize, ranges: &[ByteRange]) -> usize
    ensures { result ≡ count_by (is_open_by synced ranges.now) (range_with_len 0 length) }
{
    (0..length)
        .filter(|place| is_open_at(synced, ranges, *place))
        .count()
}

/// Whether the byte at a place may be any after a crash.
fn is_open_at(synced: usize, ranges: &[ByteRange], place: usize) -> bool
    ensures { result ≡ is_open_by synced ranges.now place }
{
    place >= synced || is_in_some(ranges, place)
}

/// Puts the drawn bytes in the place of those that may be any, while there is one.
fn draw_open(bytes: &mut [u8], synced: usize, ranges: &[ByteRange], draws: &[u8])
    ensures { bytes.new ≡ drawn (is_open_by synced ranges.now) 0 bytes.old draws.now }
{
    let mut used = 0;
    for place in 0..bytes.len() {
        if used == draws.len() {
            return;
        }
        let opens = is_open_at(synced, ranges, place);
        if opens {
            bytes[place] = draws[used];
            used += 1;
        }
    }
}

/// A copy of bytes.
fn copy_of(alloc: Global, bytes: &[u8]) -> Result<Vec<u8>, AllocError>
    ensures { IfOk result (λ copy. copy.items ≡ bytes.now) }
{
    bytes.to_vec(alloc)
}
