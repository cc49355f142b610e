//! What is noted of each key that was read, and the whitelisted keys. What is added after a `reserve` takes
//! no memory.
ghost use Rattle.std.specs.Prelude.{◌≡◌, ◌<◌};
ghost use Rattle.std.specs.List.{list_any};
ghost use Rattle.indexmap.specs.IndexMap.{spare as map_spare};
ghost use Rattle.indexmap.specs.IndexSet.{spare as set_spare};
ghost use Rattle.query_normal.specs.Keys.{same_key};
ghost use Rattle.client_session.specs.Noted.{noted, floor_at, AreMarked, IsNoted, IsListed};

use flat_snapshot::KeyMark;
use indexmap::{IndexMap, IndexSet};
use q_base::Commit;
use query_normal::Key;

/// What is noted of a key that was read.
#[derive(Clone, Copy, Debug, PartialEq, Eq)]
pub struct KeyFloor {
    /// The greatest commit at which it was read.
    pub commit: Commit,
    /// The mark of its text, so that a page is looked into without a hash of the text.
    pub mark: KeyMark,
}

/// The commit that was noted for a key, and 0 where none was.
pub fn noted(kept: &IndexMap<Key, KeyFloor>, key: &Key) -> Commit
    ensures { result ≡ noted kept.now.entries key.now }
{
    match kept.get(key) {
        Some(known) => known.commit,
        None => 0,
    }
}

/// What is noted of a key. The mark of one that was not read is made.
pub fn floor_at(kept: &IndexMap<Key, KeyFloor>, key: &Key) -> KeyFloor
    requires { AreMarked kept.now.entries }
    ensures { result ≡ floor_at kept.now.entries key.now }
{
    match kept.get(key) {
        Some(known) => *known,
        None => KeyFloor {
            commit: 0,
            mark: KeyMark::of(key.text()),
        },
    }
}

/// Notes a commit for a key of which this is noted, unless a greater one was.
pub fn note(kept: &mut IndexMap<Key, KeyFloor>, key: Key, known: KeyFloor, commit: Commit)
    requires space { 0 < map_spare kept.old }
    requires known { known ≡ floor_at kept.old.entries key }
    ensures commits { IsNoted kept.old.entries kept.new.entries key commit }
    ensures marks { AreMarked kept.old.entries → AreMarked kept.new.entries }
{
    let greatest = KeyFloor {
        commit: known.commit.max(commit),
        mark: known.mark,
    };
    match kept.insert(key, greatest) {
        Ok(_) => {}
        Err(_) => unreachable!(),
    }
}

/// Whether a key is whitelisted.
pub fn is_listed(keys: &IndexSet<Key>, key: &Key) -> bool
    ensures { result ≡ list_any (same_key key.now) keys.now.keys }
{
    !keys.is_empty() && keys.contains(key)
}

/// Whitelists a key, where it is flagged.
pub fn list(keys: &mut IndexSet<Key>, key: Key, is_flagged: bool)
    requires { 0 < set_spare keys.old }
    ensures { IsListed keys.old.keys keys.new.keys key is_flagged }
{
    if !is_flagged {
        return;
    }
    match keys.insert(key) {
        Ok(_) => {}
        Err(_) => unreachable!(),
    }
}
