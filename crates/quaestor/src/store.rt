//! The file of a store, and what is said of its opening on standard error.
ghost use Rattle.std.specs.Prelude.{◌≡◌, IfOk};

use file_disk::FileDisk;
use q_outside::Failed;
use quaestor_prog::{Data, LogKeeper, Notes, Unfilled};
use record_log::LogRefusal;
use std::alloc::AllocError;
use std::fs::{File, Files};
use std::rt::Clock;
use std::sync::Wait;
use std::sync::atomic::{AtomicU64, Ordering};

/// Who keeps a store in a file.
pub type FileKeeper<R> = LogKeeper<R, FileDisk<R>, FileNotes<R>>;

/// Says how the opening of a file goes: how many commits it has, in what time; while it is read, once a
/// second where somebody looks; and why it is refused, with the place and what to do.
#[derive(Drop)]
pub struct FileNotes<R: Drop> {
    rt: R,
    file: String,
    /// Whether someone looks at standard error.
    is_watched: bool,
    /// When it began, in milliseconds of a clock that does not go back.
    began: u64,
    /// The second since then in which it was last said how far it is.
    noted_at: AtomicU64,
}

impl<R: Clock + AllocGlobal + Drop> FileNotes<R> {
    /// Those of this file.
    fn new(rt: R, file: &str, is_watched: bool) -> Result<FileNotes<R>, AllocError> {
        let file = String::from_str(rt.alloc(), file)?;
        let began = millis_of(&rt);
        Ok(FileNotes {
            rt,
            file,
            is_watched,
            began,
            noted_at: AtomicU64::new(0),
        })
    }
}

impl<R: Clock + Eprint + Drop> Notes for FileNotes<R> {
    fn note(&self, commits: u64) {
        if !self.is_watched || commits % 1_024 != 0 {
            return;
        }
        let second = millis_of(&self.rt).saturating_sub(self.began) / 1_000;
        if self.noted_at.swap(second, Ordering::Relaxed) != second {
            let file = self.file.as_str();
            let _ = eprint!(self.rt; "quaestor: {file}: {commits} commits read\n");
        }
    }

    fn opened(&self, commits: u64) {
        let millis = millis_of(&self.rt).saturating_sub(self.began);
        let file = self.file.as_str();
        let _ = eprint!(self.rt; "quaestor: {file} has {commits} commits, read in {millis} ms\n");
    }

    fn refused(&self, refusal: Unfilled) {
        let file = self.file.as_str();
        let _ = eprint!(self.rt; "quaestor: cannot take {file}: {refusal}\n");
        match refusal {
            Unfilled::Log(LogRefusal::BadMark) => {
                let _ = eprint!(self.rt;
                    "quaestor: it is another file, and was not changed; name one that is to be made\n"
                );
            }
            Unfilled::Log(LogRefusal::BadRecord { place }) => {
                let _ = eprint!(self.rt;
                    "quaestor: it was not changed. No crash leaves this: look at the disk, and take the last copy. What is before byte {place} opens behind: cp {file} COPY && truncate -s {place} COPY && printf '\\0' >> COPY\n"
                );
            }
            Unfilled::TooSmall { .. } => {
                let _ = eprint!(self.rt; "quaestor: it was not changed; take a larger --bytes\n");
            }
            Unfilled::Log(_) | Unfilled::NotEmpty | Unfilled::Memory => {}
        }
    }
}

/// What a clock shows, in milliseconds, and 0 where it fails.
fn millis_of<R: Clock>(rt: &R) -> u64 {
    match rt.monotonic() {
        Ok(passed) => u64::try_from(passed.as_millis()).unwrap_or(u64::MAX),
        Err(_) => 0,
    }
}

/// Opens or makes the file of a store whose replies caches may keep for so many seconds. Why it cannot is
/// said.
pub(crate) fn keeper_of<R>(
    rt: R,
    data: Data<'_>,
    longest: u64,
    is_watched: bool,
) -> Result<FileKeeper<R>, Failed>
where
    R: Files<File = File> + AllocGlobal + Eprint + Wait + Clock + Copy + Drop,
    ensures { IfOk result (λ keeper. keeper.longest ≡ longest) }
{
    let file = data.file;
    let disk = match FileDisk::open(rt, file) {
        Ok(disk) => disk,
        Err(refusal) => {
            let _ = eprint!(rt; "quaestor: cannot open {file}: {refusal}\n");
            return Err(Failed);
        }
    };
    let Ok(notes) = FileNotes::new(rt, file, is_watched) else {
        return Err(Failed);
    };
    match LogKeeper::begin(rt, rt.alloc(), disk, data.sync, longest, notes) {
        Ok(keeper) => Ok(keeper),
        Err(_) => Err(Failed),
    }
}
