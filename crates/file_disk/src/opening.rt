//! Opening a file as a disk.
//!
//! 1. The file is opened, or made with its owner alone as its reader, and locked. A lock ends with the
//!    process that has it, however that ends.
//! 2. A file may have been replaced by another of its name between these two steps. So the name is looked at
//!    again behind the lock, and where it has another file the opening begins anew.
//! 3. All of it is synced, what the kernel keeps of it is dropped, so that reads give what is stored, and its
//!    folder is synced, which has the name of a file that was made.
ghost use Rattle.std.specs.Prelude.{◌≡◌, IfOk};

use crate::file_disk::FileDisk;
use crate::refusal::FileRefusal;
use std::fs::{File, Files, OpenOptions, TryLockError};
use std::os::fd::AsRawFd;
use std::os::unix::fs::{MetadataExt, OpenOptionsExt};
use std::sync::Wait;
use std::{fs, io};

/// How often an opening begins anew where the file was replaced meanwhile.
const TRIES: u32 = 100;

/// The access to a file that is made: its owner reads and writes it.
const MODE: u32 = 0o600;

impl<R> FileDisk<R>
where
    R: Files<File = File> + AllocGlobal + Wait + Eprint + Drop,
{
    /// Opens a file as a disk, or makes it. It is refused where another program has it as a disk.
    pub fn open(rt: R, path: &str) -> Result<FileDisk<R>, FileRefusal>
        ensures { IfOk result (λ d. d.faults ≡ 0) }
    {
        for _n in 0..TRIES {
            let file = locked(&rt, path)?;
            if has_name(&rt, &file, path)? {
                let size = settled(&rt, &file, path)?;
                let path = String::from_str(rt.alloc(), path)?;
                return Ok(FileDisk::over(rt, file, path, size));
            }
        }
        Err(FileRefusal::Busy)
    }
}

/// Opens a file or makes it, and locks it.
fn locked<R: Files<File = File>>(rt: &R, path: &str) -> Result<File, FileRefusal> {
    let mut how = OpenOptions::new();
    how.read(true);
    how.write(true);
    how.create(true);
    how.mode(MODE);
    let file = how.open(rt, path)?;
    if !file.metadata()?.is_file() {
        return Err(FileRefusal::NotAFile);
    }
    match file.try_lock() {
        Ok(()) => Ok(file),
        Err(TryLockError::WouldBlock) => Err(FileRefusal::Busy),
        Err(TryLockError::Error(error)) => Err(FileRefusal::System(error)),
    }
}

/// Whether an open file has this name still.
fn has_name<R: Files<File = File>>(rt: &R, file: &File, path: &str) -> io::Result<bool> {
    let found = file.metadata()?;
    match fs::metadata(rt, path) {
        Ok(named) => Ok(found.dev() == named.dev() && found.ino() == named.ino()),
        Err(error) if error.kind() == io::ErrorKind::NotFound => Ok(false),
        Err(error) => Err(error),
    }
}

/// Stores all of a file and its name, drops what the kernel keeps of it, and returns its size.
fn settled<R: Files<File = File> + AllocGlobal>(
    rt: &R,
    file: &File,
    path: &str,
) -> io::Result<u64> {
    file.sync_all()?;
    let advised = libc::posix_fadvise(file.as_raw_fd(), 0, 0, libc::POSIX_FADV_DONTNEED);
    if advised != 0 {
        return Err(io::Error::from_raw_os_error(advised));
    }
    sync_folder(rt, path)?;
    Ok(file.metadata()?.len())
}

/// Stores the names that the folder of a file has.
fn sync_folder<R: Files<File = File> + AllocGlobal>(rt: &R, path: &str) -> io::Result<()> {
    let mut folder = fs::canonicalize(rt, path)?;
    folder.pop();
    File::open(rt, folder.as_str())?.sync_all()
}
