//! A segment tree of maxima over a row of numbers, in one list of twice the row's length.
//!
//! The row is the second half of the list. Index i, from 1 to the row's start, has the greater of the
//! numbers at indexes 2i and 2i + 1, so it covers all numbers below it:
//!
//! ```text
//!   index   0   1   2   3   4   5   6   7
//!               9   5   9   3   5   9   1      the row 3 5 9 1
//! ```
ghost use Rattle.std.specs.Prelude.{◌≡◌, ◌≢◌, ℕ, ◌+◌, ◌*◌, ◌/◌, ◌-◌, ◌%◌, ◌<◌, ◌≤◌, ◌==◌, ◌↔◌, if◌then◌else◌, length, slice_index};
ghost use Rattle.issued_expiries.specs.Maxima.{IsMaxima, IsMaximaBut, IsMaximaFrom, IsAtMost};

/// The greatest of the numbers from an index up to an end, or 0 where there is none.
pub fn greatest_between(tree: &[u64], first: usize, end: usize) -> u64
    requires maxima { IsMaxima tree.now }
    requires first { first < end → 1 ≤ first }
    requires end { end ≤ length tree.now }
    ensures { (n : ℕ) → IsAtMost tree.now first end n ↔ (result ≤ n) }
{
    let mut low = first;
    let mut high = end;
    let mut greatest = 0u64;
    while low < high {
        greatest = greatest
            .max(first_if_odd(tree, low))
            .max(last_if_odd(tree, high));
        low = (low + 1) / 2;
        high /= 2;
    }
    greatest
}

/// The number at an odd index, whose parent covers the number before it too; 0 at an even index.
fn first_if_odd(tree: &[u64], index: usize) -> u64
    requires { index < length tree.now }
    ensures { result ≡ (if index % 2 == 1 then slice_index tree.now index else 0) }
{
    if index % 2 == 1 { tree[index] } else { 0 }
}

/// The number before an odd end, whose parent covers the number after it too; 0 before an even end.
fn last_if_odd(tree: &[u64], end: usize) -> u64
    requires some { 1 ≤ end }
    requires within { end ≤ length tree.now }
    ensures { result ≡ (if end % 2 == 1 then slice_index tree.now (end - 1) else 0) }
{
    if end % 2 == 1 { tree[end - 1] } else { 0 }
}

/// Writes a number of the row.
pub fn set_number(tree: &mut [u64], index: usize, number: u64)
    requires maxima { IsMaxima tree.old }
    requires row { length tree.old ≤ 2 * index }
    requires within { index < length tree.old }
    ensures maxima { IsMaxima tree.new }
    ensures number { slice_index tree.new index ≡ number }
    ensures others { (i : ℕ) → length tree.old ≤ 2 * i → i ≢ index → slice_index tree.new i ≡ slice_index tree.old i }
{
    tree[index] = number;
    let mut node = index / 2;
    while node > 0 {
        let greatest = tree[2 * node].max(tree[2 * node + 1]);
        if tree[node] == greatest {
            return;
        }
        tree[node] = greatest;
        node /= 2;
    }
}

/// Builds the tree over a row.
pub fn build(tree: &mut [u64])
    requires { length tree.old % 2 ≡ 0 }
    ensures maxima { IsMaxima tree.new }
    ensures row { (i : ℕ) → length tree.old ≤ 2 * i → slice_index tree.new i ≡ slice_index tree.old i }
{
    let mut node = tree.len() / 2;
    while node > 1 {
        node -= 1;
        tree[node] = tree[2 * node].max(tree[2 * node + 1]);
    }
}

/// Inserts a number into the row at an index. The numbers from there up to an end move on by one.
pub fn insert_number(tree: &mut [u64], start: usize, end: usize, number: u64)
    requires maxima { IsMaxima tree.old }
    requires row { length tree.old ≤ 2 * start }
    requires order { start ≤ end }
    requires within { end < length tree.old }
    ensures maxima { IsMaxima tree.new }
    ensures number { slice_index tree.new start ≡ number }
    ensures moved { (i : ℕ) → start ≤ i → i < end → slice_index tree.new (i + 1) ≡ slice_index tree.old i }
    ensures before { (i : ℕ) → length tree.old ≤ 2 * i → i < start → slice_index tree.new i ≡ slice_index tree.old i }
    ensures behind { (i : ℕ) → end < i → slice_index tree.new i ≡ slice_index tree.old i }
{
    let mut index = end;
    while index > start {
        let before = tree[index - 1];
        set_number(tree, index, before);
        index -= 1;
    }
    set_number(tree, start, number);
}
