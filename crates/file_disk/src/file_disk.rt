//! A file as a disk.
//!
//! Linux reports once that it could not store what was written, may drop it then, and gives it back on
//! reads all the same. So once a sync has failed nothing that reads give is known to be stored: each later
//! call fails, until the file is opened again. That opening drops what the kernel keeps of the file.
//!
//! Why the first call failed is said on standard error.
ghost use Rattle.std.specs.Prelude.{◌≡◌, ◌<◌, ◌≤◌, true, false, length, None, IfOk, OnOk, OnErr};

use disks::Disk;
use q_outside::Failed;
use std::fs::File;
use std::io;
use std::io::ErrorKind;
use std::os::unix::fs::FileExt;
use std::sync::Wait;

/// A file as a disk. It shows no history, so nothing is claimed of its bytes. At the greatest count of
/// faults, 2^64 - 1, a call that fails waits for ever in place of a further one.
#[derive(Drop)]
pub struct FileDisk<R: Wait + Eprint + Drop> {
    rt: R,
    file: File,
    /// Its name, for a message.
    path: String,
    /// The number of its bytes.
    size: u64,
    /// Whether a sync has failed.
    is_lost: bool,
    faults: u64,
}

impl<R: Wait + Eprint + Drop> FileDisk<R> {
    /// The disk over a file of this size, of which all is stored.
    pub(crate) fn over(rt: R, file: File, path: String, size: u64) -> FileDisk<R>
        ensures { result.faults ≡ 0 }
    {
        FileDisk {
            rt,
            file,
            path,
            size,
            is_lost: false,
            faults: 0,
        }
    }

    /// Fails where a sync has failed.
    fn is_known(&self) -> io::Result<()>
        ensures known { OnOk result (self.now.is_lost ≡ false) }
        ensures lost { OnErr result (self.now.is_lost ≡ true) }
    {
        if self.is_lost {
            return Err(io::Error::from(ErrorKind::Other));
        }
        Ok(())
    }

    /// Reads from a place on, as many bytes as the buffer takes or up to the end, and returns their number.
    fn read(&self, place: u64, into: &mut [u8]) -> io::Result<usize>
        ensures known { OnOk result (self.now.is_lost ≡ false) }
        ensures count { IfOk result (λ count. count ≤ length into.new) }
    {
        self.is_known()?;
        read_whole(&self.rt, &self.file, place, into)
    }

    /// Writes bytes from a place on.
    fn write(&self, place: u64, bytes: &[u8]) -> io::Result<()>
        ensures { OnOk result (self.now.is_lost ≡ false) }
    {
        self.is_known()?;
        self.file.write_all_at(bytes, place)
    }

    /// Stores all that was written. Where it cannot, each later call fails too.
    fn store(&mut self) -> io::Result<()>
        ensures known { OnOk result (self.old.is_lost ≡ false) }
        ensures lost { OnErr result (self.new.is_lost ≡ true) }
        ensures faults { self.new.faults ≡ self.old.faults }
    {
        self.is_known()?;
        let stored = self.file.sync_data();
        self.is_lost = stored.is_err();
        stored
    }

    /// Counts one fault more. Of the first one it is said what failed, and why.
    fn fail(&mut self, what: &str, why: &io::Error) -> Failed
        ensures { self.old.faults < self.new.faults }
    {
        if self.faults == 0 {
            let path = self.path.as_str();
            let _ = eprint!(self.rt; "quaestor: {path} cannot be {what}: {why}\n");
        }
        for _ in self.rt.forever() {
            if self.faults < u64::MAX {
                self.faults += 1;
                return Failed;
            }
        }
        unreachable!()
    }
}

impl<R: Wait + Eprint + Drop> Disk for FileDisk<R> {
    ghost at = { λ d. record { history = None; faults = d.faults } };

    fn len(&self) -> u64 {
        self.size
    }

    fn read_at(&mut self, place: u64, into: &mut [u8]) -> Result<usize, Failed> {
        match self.read(place, into) {
            Ok(count) => Ok(count),
            Err(error) => Err(self.fail("read", &error)),
        }
    }

    fn write_at(&mut self, place: u64, bytes: &[u8]) -> Result<(), Failed> {
        let Some(end) = place.checked_add(bytes.len() as u64) else {
            return Err(self.fail("written", &io::Error::from(ErrorKind::InvalidInput)));
        };
        match self.write(place, bytes) {
            Ok(()) => {
                self.size = self.size.max(end);
                Ok(())
            }
            Err(error) => Err(self.fail("written", &error)),
        }
    }

    fn sync(&mut self) -> Result<(), Failed> {
        match self.store() {
            Ok(()) => Ok(()),
            Err(error) => Err(self.fail("stored", &error)),
        }
    }
}

/// Reads from a place on, as many bytes as the buffer takes or up to the end, and returns their number. The
/// system may give fewer at a time.
fn read_whole<R: Wait>(rt: &R, file: &File, place: u64, into: &mut [u8]) -> io::Result<usize>
    ensures { IfOk result (λ count. count ≤ length into.new) }
{
    let mut count = 0;
    for _ in rt.forever() {
        let Some(from) = place.checked_add(count as u64) else {
            return Ok(count);
        };
        if count == into.len() {
            return Ok(count);
        }
        match file.read_at(&mut into[count..], from) {
            Ok(0) => return Ok(count),
            Ok(more) => count += more,
            Err(error) if error.kind() == ErrorKind::Interrupted => {}
            Err(error) => return Err(error),
        }
    }
    unreachable!()
}
