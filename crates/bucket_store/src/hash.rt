//! The bucket of an id.
ghost use Rattle.std.specs.Prelude.{◌≡◌, ◌<◌};
ghost use Rattle.bucket_store.specs.Buckets.{bucket_of, bucket_count};

use q_base::Name;

/// The number of buckets of a collection.
pub const BUCKETS: usize = 256;

/// The bucket of an id, by its bytes alone: the same in each collection and in each run.
pub fn bucket_of(id: &Name) -> usize
    ensures value { result ≡ bucket_of id.now }
    ensures within { result < bucket_count }
{
    let mut sum = 0u32;
    for byte in id.as_slice() {
        sum = (sum * 31 + *byte as u32) % 65_521;
    }
    sum as usize % BUCKETS
}
