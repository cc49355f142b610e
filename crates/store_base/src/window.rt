//! A disk that is read from a place on, by large reads.
ghost use Rattle.std.specs.Prelude.{◌≡◌, ◌<◌, ◌≤◌, ◌+◌, ◌^◌, [], length, drop, Err, IfErr, OnOk, OnErr};
ghost use Rattle.disks.specs.Histories.{Goes};
ghost use Rattle.store_base.specs.Windows.{AreTaken, IsAhead, IsFilled, IsReadFault};
ghost use Rattle.store_base.specs.declared.refusal.BaseRefusal.TheVariants.{DiskFault};

use crate::refusal::BaseRefusal;
use disks::Disk;
use std::alloc::Global;
use std::marker::Model;

/// The greatest number of bytes that are read at once: 64 KiB, and what the longest row has besides.
pub(crate) const ROOM: usize = 65_792;

/// A disk, the place of the next byte, and the bytes that were read ahead from there on.
#[derive(Drop)]
pub(crate) struct Window<K: Disk> {
    disk: K,
    place: u64,
    buffer: Vec<u8>,
    /// The bytes of the buffer before the next one.
    used: usize,
}

impl<K: Disk> Model for Window<K> {
    ghost use Rattle.std.specs.Prelude.{◌-◌, ◌+◌, ◌<◌, ◌≤◌, ◌^◌, length, drop};
    ghost use Rattle.store_base.specs.Windows.{WindowView, IsAhead};

    ghost Value = { WindowView };

    ghost view = { λ w. record { history = (K.at w.disk).history; faults = (K.at w.disk).faults; place = w.place; ahead = drop w.used w.buffer.items } };

    ghost invariant = { λ w. (w.used ≤ length w.buffer.items) × (w.place + (length w.buffer.items - w.used) < 2 ^ 64) × IsAhead (K.at w.disk).history w.place (drop w.used w.buffer.items) };
}

impl<K: Disk> Window<K> {
    /// A disk from its first byte on.
    pub fn new(alloc: Global, disk: K) -> Window<K>
        ensures { result ≡ record { history = (K.at disk).history; faults = (K.at disk).faults; place = 0; ahead = [] } }
    {
        Window {
            disk,
            place: 0,
            buffer: Vec::new(alloc),
            used: 0,
        }
    }

    /// Reads ahead where fewer bytes are there than these, as far as the disk has them.
    pub fn fill(&mut self, count: usize) -> Result<(), BaseRefusal>
        requires { count ≤ ROOM }
        ensures filled { OnOk result (IsFilled self.new.history self.new.place self.new.ahead count) }
        ensures place { self.new.place ≡ self.old.place }
        ensures history { self.new.history ≡ self.old.history }
        ensures refused { IfErr result IsReadFault }
        ensures failed { result ≡ Err DiskFault → self.old.faults < self.new.faults }
        ensures faults { self.old.faults ≤ self.new.faults }
    {
        if self.buffer.len() - self.used >= count {
            return Ok(());
        }
        let left = self.disk.len().saturating_sub(self.place);
        let size = left.min(ROOM as u64) as usize;
        self.used = 0;
        read_into(&mut self.disk, self.place, size, &mut self.buffer)
    }

    /// The bytes that were read ahead.
    pub fn ahead(&self) -> &[u8]
        ensures same { result.now ≡ self.now.ahead }
        ensures ahead { IsAhead self.now.history self.now.place self.now.ahead }
        ensures room { self.now.place + length self.now.ahead < 2 ^ 64 }
    {
        &self.buffer[self.used..]
    }

    /// The place of the next byte.
    pub fn place(&self) -> u64
        ensures { result ≡ self.now.place }
    {
        self.place
    }

    /// Goes on behind so many bytes that were read ahead.
    pub fn skip(&mut self, count: usize)
        requires { count ≤ length self.old.ahead }
        ensures place { self.new.place ≡ self.old.place + count }
        ensures ahead { self.new.ahead ≡ drop count self.old.ahead }
        ensures history { self.new.history ≡ self.old.history }
        ensures faults { self.new.faults ≡ self.old.faults }
    {
        self.used += count;
        self.place += count as u64;
    }

    /// The disk.
    pub fn into_disk(self) -> K
        ensures history { (K.at result).history ≡ self.history }
        ensures faults { (K.at result).faults ≡ self.faults }
    {
        self.disk
    }
}

/// Reads so many bytes from a place on, or up to the end.
fn read_into<D: Disk>(
    disk: &mut D,
    place: u64,
    size: usize,
    buffer: &mut Vec<u8>,
) -> Result<(), BaseRefusal>
    ensures bytes { OnOk result (AreTaken (D.at disk.old).history place size buffer.new.items) }
    ensures none { OnErr result (buffer.new.items ≡ []) }
    ensures refused { IfErr result IsReadFault }
    ensures kept { Goes (D.at disk.old).history (D.at disk.new).history [] }
    ensures failed { result ≡ Err DiskFault → (D.at disk.old).faults < (D.at disk.new).faults }
    ensures faults { (D.at disk.old).faults ≤ (D.at disk.new).faults }
{
    buffer.clear();
    match buffer.resize(size, 0) {
        Ok(()) => {}
        Err(_) => return Err(BaseRefusal::Memory),
    }
    match disk.read_at(place, buffer) {
        Ok(count) => {
            buffer.truncate(count);
            Ok(())
        }
        Err(_) => {
            buffer.clear();
            Err(BaseRefusal::DiskFault)
        }
    }
}
