//! The trait of disks.
//!
//! A disk may show its history: what it held at rest, and the calls that changed it since then. Of one
//! that shows none nothing is claimed. It has a count of faults that never falls, and fails only where
//! that count rose.
//!
//! What is written may be lost until a sync that succeeds. A crash before that leaves any byte at each
//! place that was written since the last sync and at each place past the length at that sync, and any
//! length from that one to the greatest since. Bytes at other places stay.
ghost use Rattle.disks.specs.Histories.{DiskView, HasLength, IsWithin, HasRead, HasWritten, HasSynced};

use q_outside::Failed;

/// Bytes that outlive the program, from place 0 on.
pub trait Disk {
    /// What contracts see of the disk: its history, where it shows one, and its faults.
    ghost at: { Self → DiskView };

    /// The number of bytes.
    fn len(&self) -> u64
        ensures { HasLength (at self.now).history result };

    /// Copies the bytes from a place on to the start of the buffer, as many as it takes or up to the end,
    /// and returns their number.
    fn read_at(&mut self, place: u64, into: &mut [u8]) -> Result<usize, Failed>
        ensures { HasRead (at self.old) (at self.new) place into.new result };

    /// Puts bytes in the place of those from a place on, and past the end. A crash before the next sync
    /// may leave any bytes there.
    fn write_at(&mut self, place: u64, bytes: &[u8]) -> Result<(), Failed>
        requires { IsWithin (at self.old).history place }
        ensures { HasWritten (at self.old) (at self.new) place bytes.now result };

    /// Stores all that was written. From then on a crash leaves what reads give.
    fn sync(&mut self) -> Result<(), Failed>
        ensures { HasSynced (at self.old) (at self.new) result };
}
