//! The floors of a session and its whitelist, in a table of the caller.
//!
//! The table has a row for each key that was read, by the key's mark: the greatest commit at which it was
//! read, and the number of the page under which it was whitelisted. Rows lie in sets of eight, and a mark
//! stands only in its own set, which its first hash names, as in a set-associative cache. So a look-up
//! compares eight marks, however long the table is.
//!
//! ```text
//!   rows    | 0 1 2 3 4 5 6 7 | 8 9 10 11 12 13 14 15 | 16 ..
//!   sets    |        0        |           1           | 2 ..       set = first hash mod number of sets
//! ```
//!
//! Where all rows of its set are taken, a new mark gets the row of the least commit, and the common floor,
//! which counts for all keys, is raised to that commit. So a session whose table is small asks the server
//! more often, and never accepts what is below its floor:
//!
//! 1. The floor is never below that of the session's past, and never above the floor of level Causal.
//! 2. While no row was given away, it is that of the past exactly.
//! 3. A key is whitelisted only if it was listed since the last page.
//! 4. No row is given away while each set has room for the marks of the past.
//!
//! Keys of one mark (two equal hashes of 64 bits) share a row, which can only raise their floor.
ghost use Rattle.std.specs.Prelude.{◌≡◌, ◌≤◌, ◌<◌, ◌+◌, ◌*◌, ◌∷◌, [], ℕ, List, true, false, max, IsTrue, MatchOption, length};
ghost use Rattle.flat_snapshot.specs.declared.sight.KeyMark.{KeyMark as AMark};
ghost use Rattle.client_core.specs.declared.level.Level.TheVariants.{Causal};
ghost use Rattle.client_core.specs.declared.floors.FloorRow.{FloorRow as ARow};
ghost use Rattle.client_core.specs.Floor.{Event, wrote, read, listed, paged, keys_of, distinct, floor_of, is_listed, same_mark};
ghost use Rattle.client_core.specs.Table.{HasPast, HasRoomFor, HasSpace, Adds, IsRowOf, IsHome, IsAbsent, IsChoice, IsGiven, HoldsCommit, ways, set_size, set_of, row_at, joined, unlisted, floor_from};

use crate::level::Level;
use flat_snapshot::KeyMark;
use q_base::Commit;

/// The number of rows of a set. A table of fewer rows is one set; rows behind the last whole set are not
/// used.
pub const WAYS: usize = 8;

/// A row of the table: what a session knows of one mark.
#[derive(Clone, Copy, Debug, PartialEq, Eq)]
#[repr(C)]
pub struct FloorRow {
    /// The mark of the row's key.
    pub mark: KeyMark,
    /// The greatest commit at which the key was read.
    pub commit: Commit,
    /// The number of the page under which the key was whitelisted; 0 for none.
    pub listed_at: u64,
    /// Whether the row is a key's.
    pub is_taken: bool,
}

impl FloorRow {
    /// A row of no key.
    pub const BLANK: FloorRow = FloorRow {
        mark: KeyMark {
            first: 0,
            second: 0,
        },
        commit: 0,
        listed_at: 0,
        is_taken: false,
    };
}

/// The numbers beside the table.
#[derive(Clone, Copy, Debug, PartialEq, Eq)]
#[repr(C)]
pub struct Floors {
    /// The floor of all keys, to which rows that are given away raise it.
    pub common: Commit,
    /// The greatest commit of the session's writes.
    pub writes: Commit,
    /// The greatest commit of its reads of all keys.
    pub reads: Commit,
    /// The number of pages, counted from 1.
    pub pages: u64,
    /// Whether a row was given away that was a key's.
    pub has_dropped: bool,
}

impl Floors {
    /// The floors of a session that has done nothing yet. The rows are cleared.
    pub fn new(rows: &mut [FloorRow]) -> Floors
        ensures { HasPast result rows.new [] }
    {
        rows.fill(FloorRow::BLANK);
        Floors {
            common: 0,
            writes: 0,
            reads: 0,
            pages: 1,
            has_dropped: false,
        }
    }

    /// The floor of a key.
    pub fn floor(&self, rows: &[FloorRow], level: Level, mark: KeyMark) -> Commit
        ensures least { (past : List (Event AMark)) → HasPast self.now rows.now past → floor_of same_mark level past mark ≤ result }
        ensures most { (past : List (Event AMark)) → HasPast self.now rows.now past → result ≤ floor_of same_mark Causal past mark }
        ensures exact { (past : List (Event AMark)) → HasPast self.now rows.now past →
            self.now.has_dropped ≡ false → result ≡ floor_of same_mark level past mark }
        ensures fits { (past : List (Event AMark)) → HasPast self.now rows.now past →
            HasRoomFor (length rows.now) past → result ≡ floor_of same_mark level past mark }
    {
        let held = commit_of(rows, mark);
        floor_from(*self, level, held)
    }

    /// Whether a key is whitelisted: it was asked for again since the last page.
    pub fn is_listed(&self, rows: &[FloorRow], mark: KeyMark) -> bool
        ensures only { (past : List (Event AMark)) → HasPast self.now rows.now past → result ≡ true → is_listed same_mark past mark ≡ true }
        ensures exact { (past : List (Event AMark)) → HasPast self.now rows.now past →
            self.now.has_dropped ≡ false → result ≡ is_listed same_mark past mark }
        ensures fits { (past : List (Event AMark)) → HasPast self.now rows.now past →
            HasRoomFor (length rows.now) past → result ≡ is_listed same_mark past mark }
    {
        match find(rows, mark) {
            Some(i) => rows[i].listed_at == self.pages,
            None => false,
        }
    }

    /// A write of the session was accepted as this commit.
    pub fn note_write(&mut self, commit: Commit)
        ensures { (rows : List ARow) (past : List (Event AMark)) → HasPast self.old rows past → HasPast self.new rows (wrote commit ∷ past) }
    {
        self.writes = self.writes.max(commit);
    }

    /// A key was read at a commit.
    pub fn note_read(&mut self, rows: &mut [FloorRow], mark: KeyMark, commit: Commit)
        ensures past { (past : List (Event AMark)) → HasPast self.old rows.old past → HasPast self.new rows.new (read mark commit ∷ past) }

        // No row is given away while the mark's set has space, and else one of the least commit is.
        ensures space { HasSpace rows.old mark → (self.new.common ≡ self.old.common) × (self.new.has_dropped ≡ self.old.has_dropped) }
        ensures least { (i : ℕ) → IsHome rows.old mark i → self.new.common ≤ max self.old.common (row_at rows.old i).commit }
    {
        self.put(
            rows,
            FloorRow {
                mark,
                commit,
                listed_at: 0,
                is_taken: true,
            },
        );
    }

    /// A flagged key was asked for again, so that it is whitelisted until the next page.
    pub fn list(&mut self, rows: &mut [FloorRow], mark: KeyMark)
        ensures past { (past : List (Event AMark)) → HasPast self.old rows.old past → HasPast self.new rows.new (listed mark ∷ past) }

        // As for a read.
        ensures space { HasSpace rows.old mark → (self.new.common ≡ self.old.common) × (self.new.has_dropped ≡ self.old.has_dropped) }
        ensures least { (i : ℕ) → IsHome rows.old mark i → self.new.common ≤ max self.old.common (row_at rows.old i).commit }
    {
        let listed_at = self.pages;
        self.put(
            rows,
            FloorRow {
                mark,
                commit: 0,
                listed_at,
                is_taken: true,
            },
        );
    }

    /// A newer page is held, so that no key is whitelisted.
    pub fn new_page(&mut self, rows: &mut [FloorRow])
        ensures { (past : List (Event AMark)) → HasPast self.old rows.old past → HasPast self.new rows.new (paged ∷ past) }
    {
        match self.pages.checked_add(1) {
            Some(pages) => self.pages = pages,
            None => {
                unlist(rows);
                self.pages = 1;
            }
        }
    }

    /// Adds what is known of a mark to the table.
    fn put(&mut self, rows: &mut [FloorRow], row: FloorRow)
        ensures past { (past more : List (Event AMark)) → HasPast self.old rows.old past → Adds past more row self.old.pages →
            row.listed_at ≤ self.old.pages → row.is_taken ≡ true → HasPast self.new rows.new more }
        ensures space { HasSpace rows.old row.mark → (self.new.common ≡ self.old.common) × (self.new.has_dropped ≡ self.old.has_dropped) }
        ensures least { (i : ℕ) → IsHome rows.old row.mark i → self.new.common ≤ max self.old.common (row_at rows.old i).commit }
    {
        match find(rows, row.mark) {
            Some(i) => {
                self.reads = self.reads.max(row.commit);
                rows[i] = join(rows[i], row);
            }
            None => self.give(rows, row),
        }
    }

    /// Gives a row of its set to a mark that has none.
    fn give(&mut self, rows: &mut [FloorRow], row: FloorRow)
        ensures { IsGiven self.old self.new rows.old rows.new row }
    {
        self.reads = self.reads.max(row.commit);
        if rows.is_empty() {
            self.common = self.common.max(row.commit);
            self.has_dropped = true;
            return;
        }
        let i = choice(rows, row.mark);
        if rows[i].is_taken {
            self.common = self.common.max(rows[i].commit);
            self.has_dropped = true;
        }
        rows[i] = row;
    }
}

/// The floor of a key whose row holds this commit.
fn floor_from(floors: Floors, level: Level, held: Commit) -> Commit
    ensures { result ≡ floor_from floors level held }
{
    match level {
        Level::Session => floors.writes.max(floors.common.max(held)),
        Level::Causal | Level::Strong => floors.writes.max(floors.reads),
    }
}

/// Two rows of one mark as one.
fn join(old: FloorRow, row: FloorRow) -> FloorRow
    ensures { result ≡ joined old row }
{
    FloorRow {
        mark: row.mark,
        commit: old.commit.max(row.commit),
        listed_at: old.listed_at.max(row.listed_at),
        is_taken: true,
    }
}

/// The commit that a mark's row holds, and 0 where it has none.
fn commit_of(rows: &[FloorRow], mark: KeyMark) -> Commit
    ensures { HoldsCommit rows.now mark result }
{
    match find(rows, mark) {
        Some(i) => rows[i].commit,
        None => 0,
    }
}

/// The index of a mark's row.
fn find(rows: &[FloorRow], mark: KeyMark) -> Option<usize>
    ensures { MatchOption result (IsAbsent rows.now mark) (λ i. IsRowOf rows.now mark i) }
{
    let first = first_of(rows, mark);
    for i in first..first + rows.len().min(WAYS) {
        if rows[i].is_taken && rows[i].mark == mark {
            return Some(i);
        }
    }
    None
}

/// The index of the row that a new mark is given: one of its set that is not taken, and else one of the
/// least commit.
fn choice(rows: &[FloorRow], mark: KeyMark) -> usize
    requires { 0 < length rows.now }
    ensures { IsChoice rows.now mark result }
{
    let first = first_of(rows, mark);
    let mut least = first;
    for i in first..first + rows.len().min(WAYS) {
        if !rows[i].is_taken {
            return i;
        }
        if rows[i].commit < rows[least].commit {
            least = i;
        }
    }
    least
}

/// The index of the first row of a mark's set.
fn first_of(rows: &[FloorRow], mark: KeyMark) -> usize
    ensures set { result ≡ ways * set_of (length rows.now) mark }
    ensures within { result + set_size (length rows.now) ≤ length rows.now }
{
    let sets = (rows.len() / WAYS).max(1);
    WAYS * (mark.first % sets as u64) as usize
}

/// Takes each row off the whitelist.
fn unlist(rows: &mut [FloorRow])
    ensures length { length rows.new ≡ length rows.old }
    ensures rows { (i : ℕ) → row_at rows.new i ≡ unlisted (row_at rows.old i) }
{
    for row in rows.iter_mut() {
        row.listed_at = 0;
    }
}

/// A past of at most eight keys, and of no more than the table has rows, has room in it.
pub fn pasts_of_few_keys_have_room()
    ensures { (rows : ℕ) (past : List (Event AMark)) → distinct same_mark (keys_of past) ≤ set_size rows → HasRoomFor rows past }
{}
