//! The kept moment of a read, and the guard of the store that is opened behind a crash.
ghost use Rattle.std.specs.Prelude.{◌≡◌, ◌<◌};

use crate::worked::{config, key, no_tags, open};
use disks::MemoryDisk;
use hub_core::PageRoom;
use q_base::{Memory, Moment};
use std::alloc::Global;
use std::marker::Brand;
use std::sync::ledger::{Blank, Ledger};
use std::test::Fail;

/// What a store that is opened behind a crash tells.
#[derive(Clone, Copy, Debug, PartialEq, Eq)]
struct Shown {
    guard: u64,
    /// Whether each bit of the page at 219 is set.
    before: bool,
    /// The same at 220.
    after: bool,
}

/// Whether each bit of a page is set.
fn is_full(page: &[u8]) -> bool {
    page.iter().skip(30).all(|byte| *byte == 255)
}

/// Whether each bit of the page that a store tells at a clock is set.
fn told_counted<L: Ledger>(alloc: Global, blank: Blank) -> Result<Shown, Memory>
    requires name { blank.name ≡ L.name }
    requires parts { blank.parts ≡ L.parts }
    requires some { 0 < L.parts }
{
    let disk = MemoryDisk::<L>::new(alloc, Vec::new(alloc), Vec::new(alloc), blank);
    let mut store = match open(alloc, config(), disk, 100) {
        Ok(store) => store,
        Err(_) => return Err(Memory),
    };
    if store
        .read(Moment::of(100), &key(alloc)?, &no_tags(alloc))
        .is_err()
    {
        return Err(Memory);
    }
    let mut disk = store.into_disk();
    disk.crash(&[]);
    let config = config();
    let mut room = PageRoom::new(alloc, &config)?;
    let mut store = match open(alloc, config, disk, 110) {
        Ok(store) => store,
        Err(_) => return Err(Memory),
    };
    if store.fetch(Moment::of(219), &mut room).is_err() {
        return Err(Memory);
    }
    let before = is_full(room.bytes());
    if store.fetch(Moment::of(220), &mut room).is_err() {
        return Err(Memory);
    }
    Ok(Shown {
        guard: store.guard(),
        before,
        after: is_full(room.bytes()),
    })
}

/// The same with a ledger of its own.
fn told(alloc: Global) -> Result<Shown, Memory> {
    told_counted::<Brand>(alloc, Blank::new(1))
}

#[test]
fn pages_are_full_until_the_copies_of_the_old_run_have_expired(
    rt: HostRuntime,
) -> Result<(), Fail> {
    let wanted = Shown {
        guard: 220,
        before: true,
        after: false,
    };
    assert_eq!(rt; told(rt.alloc())?, wanted);
    Ok(())
}
