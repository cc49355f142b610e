//! What the tests put, read and open.
ghost use Rattle.std.specs.Prelude.{◌≡◌, ◌<◌, ◌+◌, ◌^◌, IfOk};

use disks::MemoryDisk;
use durable_book::{KeptHub, KeptRefusal, OpenRefusal};
use hub_core::Config;
use hub_model::{Change, Commits, Condition, Tags};
use q_base::{Memory, Moment, Name};
use q_doc::Doc;
use query_normal::Key;
use std::alloc::Global;
use std::sync::ledger::Ledger;

/// The bytes of a store with a put of shop/p1 as `{"a":1}` at 100.
pub const PUT: [u8; 34] = [
    81, 83, 74, 49, 1, 1, 0, 0, 0, 0, 0, 0, 0, 100, 0, 0, 0, 15, 4, 115, 104, 111, 112, 2, 112, 49,
    123, 34, 97, 34, 58, 49, 125, 0,
];

/// The calls of opening an empty disk: a sync, a new store that is written and synced, and a read of its
/// gate.
pub const OPENING: u64 = 4;

/// The configuration of the tests: lifetimes are a minute.
pub fn config() -> Config {
    match Config::new(10, 4, 60, 60, 100, 65_792) {
        Ok(config) => config,
        Err(_) => Config::default(),
    }
}

/// The change that puts `{"a":1}` at shop/p1.
pub fn change(alloc: Global) -> Result<Change, Memory> {
    let collection = Name::read(alloc, b"shop");
    let id = Name::read(alloc, b"p1");
    let document = Doc::read(alloc, b"{\"a\":1}");
    match (collection, id, document) {
        (Ok(collection), Ok(id), Ok(document)) => Ok(Change {
            collection,
            id,
            document: Some(document),
        }),
        _ => Err(Memory),
    }
}

/// The key of shop/p1.
pub fn key(alloc: Global) -> Result<Key, Memory> {
    match (Name::read(alloc, b"shop"), Name::read(alloc, b"p1")) {
        (Ok(collection), Ok(id)) => Key::record(alloc, collection, id),
        _ => Err(Memory),
    }
}

/// What a read without tags knows.
pub fn no_tags(alloc: Global) -> Tags {
    Tags::Listed(Commits::new(alloc))
}

/// The store on a disk, opened at a moment.
pub fn open<L: Ledger>(
    alloc: Global,
    config: Config,
    disk: MemoryDisk<L>,
    seconds: u64,
) -> Result<KeptHub<MemoryDisk<L>>, (MemoryDisk<L>, OpenRefusal)>
    ensures { IfOk result (λ store. store.hub.setting ≡ config) }
{
    KeptHub::open(alloc, config, disk, Moment::of(seconds))
}

/// Puts shop/p1 at 100, and tells why it has no answer, where it has none.
pub fn put<L: Ledger>(
    alloc: Global,
    store: &mut KeptHub<MemoryDisk<L>>,
) -> Result<Option<KeptRefusal>, Memory>
    requires { store.old.hub.commits + 1 < 2 ^ 64 }
{
    let change = change(alloc)?;
    let answer = store.write(Moment::of(100), &change, &Condition::Always);
    Ok(answer.err())
}
