//! The counters of a counting Bloom filter (Fan et al. 2000), and a bit for each that is above 0.
ghost use Rattle.std.specs.Prelude.{◌≡◌, ℕ, ◌+◌, ◌-◌, ◌^◌, ◌<◌, ◌≤◌, All, length, slice_index, slice_set};
ghost use Rattle.query_normal.specs.Pages.{positions};
ghost use Rattle.expiring_filter.specs.Counts.{times, IsFlat};

use q_base::positions_of;
use query_normal::{Key, bits};

/// The counters of a filter, and the bits of those above 0.
#[derive(Debug, Drop)]
pub struct Counters {
    pub log2_bits: u8,
    pub hashes: u8,
    pub counts: Vec<u32>,
    pub bits: Vec<u8>,
}

impl Counters {
    /// Counts a key at its positions.
    pub fn count(&mut self, key: &Key)
        requires bits { self.old.log2_bits ≤ 22 }
        requires few { self.old.hashes ≤ 16 }
        requires sized { length self.old.counts.items ≡ 2 ^ self.old.log2_bits }
        requires fits { (j : ℕ) → slice_index self.old.counts.items j + times j (positions key.now self.old.log2_bits self.old.hashes) < 2 ^ 32 }
        requires flat { IsFlat self.old.counts.items self.old.bits.items }
        ensures counted { (j : ℕ) → j < length self.old.counts.items → slice_index self.new.counts.items j ≡ slice_index self.old.counts.items j + times j (positions key.now self.old.log2_bits self.old.hashes) }
        ensures flat { IsFlat self.new.counts.items self.new.bits.items }
        ensures len { length self.new.counts.items ≡ length self.old.counts.items }
        ensures log2_bits { self.new.log2_bits ≡ self.old.log2_bits }
        ensures hashes { self.new.hashes ≡ self.old.hashes }
    {
        let key_positions = positions_of(key.text(), self.log2_bits, self.hashes);
        raise(&mut self.counts, &mut self.bits, key_positions.as_slice());
    }

    /// Undoes the count of a key at its positions.
    pub fn uncount(&mut self, key: &Key)
        requires bits { self.old.log2_bits ≤ 22 }
        requires few { self.old.hashes ≤ 16 }
        requires sized { length self.old.counts.items ≡ 2 ^ self.old.log2_bits }
        requires enough { (j : ℕ) → j < length self.old.counts.items → times j (positions key.now self.old.log2_bits self.old.hashes) ≤ slice_index self.old.counts.items j }
        requires flat { IsFlat self.old.counts.items self.old.bits.items }
        ensures counted { (j : ℕ) → j < length self.old.counts.items → slice_index self.new.counts.items j + times j (positions key.now self.old.log2_bits self.old.hashes) ≡ slice_index self.old.counts.items j }
        ensures flat { IsFlat self.new.counts.items self.new.bits.items }
        ensures len { length self.new.counts.items ≡ length self.old.counts.items }
        ensures log2_bits { self.new.log2_bits ≡ self.old.log2_bits }
        ensures hashes { self.new.hashes ≡ self.old.hashes }
    {
        let key_positions = positions_of(key.text(), self.log2_bits, self.hashes);
        lower(&mut self.counts, &mut self.bits, key_positions.as_slice());
    }
}

/// Counts each position once, a repeated one once per repetition.
fn raise(counters: &mut [u32], bytes: &mut [u8], positions: &[u32])
    requires within { All (λ p. p < length counters.old) positions.now }
    requires fits { (j : ℕ) → slice_index counters.old j + times j positions.now < 2 ^ 32 }
    requires flat { IsFlat counters.old bytes.old }
    ensures counted { (j : ℕ) → j < length counters.old → slice_index counters.new j ≡ slice_index counters.old j + times j positions.now }
    ensures flat { IsFlat counters.new bytes.new }
{
    for position in positions {
        raise_one(counters, bytes, *position as usize);
    }
}

/// Lowers each position once, a repeated one once per repetition.
fn lower(counters: &mut [u32], bytes: &mut [u8], positions: &[u32])
    requires within { All (λ p. p < length counters.old) positions.now }
    requires enough { (j : ℕ) → j < length counters.old → times j positions.now ≤ slice_index counters.old j }
    requires flat { IsFlat counters.old bytes.old }
    ensures counted { (j : ℕ) → j < length counters.old → slice_index counters.new j + times j positions.now ≡ slice_index counters.old j }
    ensures flat { IsFlat counters.new bytes.new }
{
    for position in positions {
        lower_one(counters, bytes, *position as usize);
    }
}

/// Raises the counter of a position by one.
fn raise_one(counters: &mut [u32], bytes: &mut [u8], position: usize)
    requires within { position < length counters.old }
    requires fits { slice_index counters.old position + 1 < 2 ^ 32 }
    requires flat { IsFlat counters.old bytes.old }
    ensures counted { counters.new ≡ slice_set counters.old position (slice_index counters.old position + 1) }
    ensures flat { IsFlat counters.new bytes.new }
{
    let before = counters[position];
    counters[position] = before + 1;
    if before == 0 {
        bits::set(bytes, position);
    }
}

/// Lowers the counter of a position by one.
fn lower_one(counters: &mut [u32], bytes: &mut [u8], position: usize)
    requires within { position < length counters.old }
    requires some { 0 < slice_index counters.old position }
    requires flat { IsFlat counters.old bytes.old }
    ensures counted { counters.new ≡ slice_set counters.old position (slice_index counters.old position - 1) }
    ensures flat { IsFlat counters.new bytes.new }
{
    let after = counters[position] - 1;
    counters[position] = after;
    if after == 0 {
        bits::clear(bytes, position);
    }
}
