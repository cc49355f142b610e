//! The order in which one match purges keys.
ghost use Rattle.std.specs.Prelude.{◌≡◌, OnOk, OnErr};
ghost use Rattle.std.specs.List.Sorted.{IsPermutation, IsSorted};
ghost use Rattle.purge_list.specs.Purged.{text_cmp};

use q_base::Memory;
use query_normal::Key;
use std::cmp::Ordering;

/// Puts the keys that one match purges into the byte order of their texts.
pub fn sort_by_text(keys: &mut Vec<Key>) -> Result<(), Memory>
    ensures sorted { OnOk result (IsSorted text_cmp keys.new.items) }
    ensures same { IsPermutation keys.old.items keys.new.items }
    ensures err { OnErr result (keys.new.items ≡ keys.old.items) }
{
    keys.sort_by(|a, b| compare(a, b))?;
    Ok(())
}

/// Compares two keys by the bytes of their texts.
fn compare(a: &Key, b: &Key) -> Ordering
    ensures { result ≡ text_cmp a.now b.now }
{
    a.text().cmp(b.text())
}
