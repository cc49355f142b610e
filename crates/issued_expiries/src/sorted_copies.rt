//! Copies of one key in the order of their commits. A segment tree gives the greatest until in a range
//! of commits.
ghost use Rattle.std.specs.Prelude.{◌≡◌, ℕ, ◌+◌, ◌*◌, ◌^◌, ◌<◌, ◌≤◌, max, Bool, if◌then◌else◌, nat_lt, count_by, length, slice_index, filter, insert as insert_at, [], IfOk, IfErr, OnOk, OnErr};
ghost use Rattle.issued_expiries.specs.Maxima.{IsMaxima};
ghost use Rattle.std.specs.Vec.{vec_capacity, vec_len};
ghost use Rattle.issued_expiries.specs.Copies.{is_between};
ghost use Rattle.issued_expiries.specs.KeyCopies.{HasSpace, IsIndexFor, IsRising, greatest, is_later, paired};

use crate::maxima::{build, greatest_between, insert_number, set_number};
use q_base::Memory;
use std::alloc::Global;
use std::marker::Model;

/// The least capacity of a buffer that is allocated.
const MIN_CAPACITY: usize = 2;

/// Copies in the order of their commits, each commit once.
#[derive(Debug, Drop)]
pub struct SortedCopies {
    capacity: usize,
    commits: Vec<u64>,
    /// The untils, in the order of the commits, under their maxima.
    tree: Vec<u64>,
}

impl Model for SortedCopies {
    ghost use Rattle.std.specs.Prelude.{◌≤◌};
    ghost use Rattle.std.specs.Vec.{vec_capacity};
    ghost use Rattle.issued_expiries.specs.KeyCopies.{KeptCopies, IsOver, paired};

    ghost Value = { KeptCopies };

    ghost view = { λ c. record { copies = paired c.commits.items c.tree.items c.capacity; capacity = c.capacity } };

    ghost invariant = { λ c. record {
      over : IsOver c.capacity c.commits.items c.tree.items;
      reserved : c.capacity ≤ vec_capacity c.commits;
    } };
}

impl SortedCopies {
    /// No copy, and no capacity.
    pub fn new(alloc: Global) -> SortedCopies
        ensures { result ≡ record { copies = []; capacity = 0 } }
    {
        SortedCopies {
            capacity: 0,
            commits: Vec::new(alloc),
            tree: Vec::new(alloc),
        }
    }

    /// The greatest until of a copy at or above a commit and below another, or 0 without one, in
    /// logarithmic time.
    pub fn greatest(&self, from: u64, below: u64) -> u64
        ensures { result ≡ greatest (is_between from below) self.now.copies }
    {
        let first = first_from(&self.commits, from);
        let end = first_from(&self.commits, below);
        greatest_between(&self.tree, self.capacity + first, self.capacity + end)
    }

    /// Adds a copy, or gives the one at its commit the later until. It takes logarithmic time, and
    /// as much again for each copy at a later commit where the commit is new.
    pub fn put(&mut self, commit: u64, until: u64)
        requires { HasSpace self.old }
        ensures greatest { (test : ℕ → Bool) → greatest test self.new.copies ≡ max (greatest test self.old.copies) (if test commit then until else 0) }
        ensures capacity { self.new.capacity ≡ self.old.capacity }
        ensures len { length self.new.copies ≤ length self.old.copies + 1 }
    {
        match find(&self.commits, commit) {
            Ok(index) => {
                let before = self.tree[self.capacity + index];
                let after = before.max(until);
                set_number(&mut self.tree, self.capacity + index, after);
            }
            Err(index) => {
                let end = self.capacity + self.commits.len();
                insert_number(&mut self.tree, self.capacity + index, end, until);
                insert(&mut self.commits, index, commit);
            }
        }
    }

    /// Makes space for one more copy. A full buffer is replaced: the expired copies are dropped, and the
    /// new capacity is twice the number of those that are left. That is linear, and constant per copy on
    /// average; otherwise the call takes constant time.
    pub fn make_space(&mut self, alloc: Global, clock: u64) -> Result<(), Memory>
        ensures ok { OnOk result (HasSpace self.new) }
        ensures later { filter (is_later clock) self.new.copies ≡ filter (is_later clock) self.old.copies }
        ensures err { OnErr result (self.new ≡ self.old) }
    {
        if !self.has_space() {
            *self = self.without_expired(alloc, clock)?;
        }
        Ok(())
    }

    /// Whether there is space for one more copy.
    fn has_space(&self) -> bool
        ensures { result ≡ nat_lt (length self.now.copies) self.now.capacity }
    {
        self.commits.len() < self.capacity
    }

    /// The copies that expire later than the clock, in a new buffer.
    fn without_expired(&self, alloc: Global, clock: u64) -> Result<SortedCopies, Memory>
        ensures space { IfOk result (λ later. HasSpace later) }
        ensures later { IfOk result (λ later. later.copies ≡ filter (is_later clock) self.now.copies) }
    {
        let untils = &self.tree[self.capacity..self.capacity + self.commits.len()];
        let capacity = capacity_for(count_later(untils, clock))?;
        let mut commits = Vec::with_capacity(alloc, capacity)?;
        let mut tree = vec![in alloc; 0u64; 2 * capacity]?;
        fill(
            &self.commits,
            untils,
            clock,
            &mut commits,
            &mut tree,
            capacity,
        );
        Ok(SortedCopies {
            capacity,
            commits,
            tree,
        })
    }
}

/// The capacity for twice a number of copies.
fn capacity_for(count: usize) -> Result<usize, Memory>
    ensures { IfOk result (λ capacity. (count < capacity) × (2 * capacity < 2 ^ 64)) }
{
    let capacity = count.checked_mul(2).ok_or(Memory)?.max(MIN_CAPACITY);
    if capacity.checked_mul(2).is_none() {
        return Err(Memory);
    }
    Ok(capacity)
}

/// The number of untils that are later than the clock.
fn count_later(untils: &[u64], clock: u64) -> usize
    ensures { result ≡ count_by (λ until. nat_lt clock until) untils.now }
{
    untils.iter().filter(|until| clock < **until).count()
}

/// Writes the copies that expire later than the clock, with their untils in a row from a start on.
fn keep_later(
    commits: &[u64],
    untils: &[u64],
    clock: u64,
    kept: &mut Vec<u64>,
    tree: &mut [u64],
    start: usize,
)
    requires len { length commits.now ≡ length untils.now }
    requires rising { IsRising commits.now }
    requires empty { kept.old.items ≡ [] }
    requires space { count_by (is_later clock) (paired commits.now untils.now 0) ≤ vec_capacity kept.old }
    requires row { start + count_by (is_later clock) (paired commits.now untils.now 0) ≤ length tree.old }
    ensures copies { paired kept.new.items tree.new start ≡ filter (is_later clock) (paired commits.now untils.now 0) }
    ensures count { vec_len kept.new ≡ count_by (is_later clock) (paired commits.now untils.now 0) }
    ensures rising { IsRising kept.new.items }
    ensures capacity { vec_capacity kept.new ≡ vec_capacity kept.old }
{
    for i in 0..commits.len() {
        let until = untils[i];
        if clock < until {
            tree[start + kept.len()] = until;
            kept.push_reserved(commits[i]);
        }
    }
}

/// Writes the copies that expire later than the clock, with their untils in the row of a tree of maxima.
fn fill(
    commits: &[u64],
    untils: &[u64],
    clock: u64,
    kept: &mut Vec<u64>,
    tree: &mut [u64],
    start: usize,
)
    requires len { length commits.now ≡ length untils.now }
    requires rising { IsRising commits.now }
    requires empty { kept.old.items ≡ [] }
    requires space { count_by (λ until. nat_lt clock until) untils.now ≤ vec_capacity kept.old }
    requires row { start + count_by (λ until. nat_lt clock until) untils.now ≤ length tree.old }
    requires sized { length tree.old ≡ 2 * start }
    ensures copies { paired kept.new.items tree.new start ≡ filter (is_later clock) (paired commits.now untils.now 0) }
    ensures count { vec_len kept.new ≡ count_by (λ until. nat_lt clock until) untils.now }
    ensures rising { IsRising kept.new.items }
    ensures maxima { IsMaxima tree.new }
    ensures capacity { vec_capacity kept.new ≡ vec_capacity kept.old }
{
    keep_later(commits, untils, clock, kept, tree, start);
    build(tree);
}

/// The index of a commit among rising ones, or else the index at which to insert it.
fn find(commits: &[u64], commit: u64) -> Result<usize, usize>
    requires { IsRising commits.now }
    ensures found { IfOk result (λ index. (index < length commits.now) × (slice_index commits.now index ≡ commit)) }
    ensures absent { IfErr result (λ index. IsIndexFor commit commits.now index) }
{
    commits.binary_search(&commit)
}

/// The number of rising commits that are below one.
fn first_from(commits: &[u64], commit: u64) -> usize
    requires { IsRising commits.now }
    ensures within { result ≤ length commits.now }
    ensures below { (i : ℕ) → i < result → slice_index commits.now i < commit }
    ensures above { (i : ℕ) → result ≤ i → i < length commits.now → commit ≤ slice_index commits.now i }
{
    commits.partition_point(|other| *other < commit)
}

/// Inserts a commit at an index. It allocates nothing.
fn insert(commits: &mut Vec<u64>, index: usize, commit: u64)
    requires within { index ≤ vec_len commits.old }
    requires space { vec_len commits.old < vec_capacity commits.old }
    ensures items { commits.new.items ≡ insert_at commits.old.items index commit }
    ensures capacity { vec_capacity commits.old ≤ vec_capacity commits.new }
{
    match commits.insert(index, commit) {
        Ok(()) => {}
        Err(_) => unreachable!(),
    }
}
