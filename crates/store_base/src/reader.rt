//! Reading a base: the commits that it stands for, one after another.
//!
//! ```text
//!   rows          3        5              horizon 7, and the tail t
//!   commits  1 2  3     4  5    6 7
//!   given    - -  row   -  row  - -
//!            \_/        |       \_/
//!       of row 3's     of row   of t
//!         record       5's
//! ```
//!
//! What is given between the rows are deletions: of the record of the row behind them, and behind the last
//! row of the tail. They change no document, and cost no read.
ghost use Rattle.std.specs.Prelude.{◌≡◌, ◌<◌, ◌≤◌, ◌+◌, ◌-◌, ℕ, List, IfOk, IfErr, MatchResult, None, Some, Err};
ghost use Rattle.store_base.specs.Bases.{deletion};
ghost use Rattle.store_base.specs.Readings.{Begins, FindsNext, Gives, GivesOfRow, GivesOfTail, HasRead, IsSameBase, RefusesBase, Waits};
ghost use Rattle.store_base.specs.Rows.{HasNoRow};
ghost use Rattle.store_base.specs.Windows.{Shows};
ghost use Rattle.store_base.specs.declared.refusal.BaseRefusal.TheVariants.{DiskFault};
ghost use Rattle.store_base.specs.declared.base.BaseRow.{BaseRow as ARow};

use crate::base::{BaseHead, BaseRow, DatedChange};
use crate::head::read_head;
use crate::refusal::BaseRefusal;
use crate::rows::read_row;
use crate::window::Window;
use commit_book::Change;
use disks::Disk;
use q_base::{Commit, Memory, Name};
use std::alloc::Global;
use std::marker::Model;

/// A base that is being read. Contracts see it as a `ReaderView`.
#[derive(Drop)]
pub struct BaseReader<K: Disk> {
    alloc: Global,
    window: Window<K>,
    head: BaseHead,
    /// The size of the base by its head, in bytes.
    size: u64,
    /// The number of rows that are not read yet.
    left: u64,
    /// The commit that is given next.
    next: Commit,
    /// A row that was read and whose commit comes.
    waiting: Option<BaseRow>,
}

impl<K: Disk> Model for BaseReader<K> {
    ghost use Rattle.std.specs.Coded.{codes};
    ghost use Rattle.q_doc.specs.Code.{tree_code};
    ghost use Rattle.store_base.specs.Readings.{ReaderView, IsReader};

    ghost Value = { ReaderView };

    ghost coded = { Prim.hlevel (codes, tree_code) };

    ghost view = { λ r. record { history = r.window.history; faults = r.window.faults; place = r.window.place; size = r.size; head = r.head; left = r.left; next = r.next; waiting = r.waiting } };

    ghost invariant = { λ r. IsReader (record { history = r.window.history; faults = r.window.faults; place = r.window.place; size = r.size; head = r.head; left = r.left; next = r.next; waiting = r.waiting }) };
}

impl<K: Disk> BaseReader<K> {
    /// Reads the head of a base. A disk that does not begin with `QSJ2` has none: what is on it is a log.
    pub fn begin(alloc: Global, disk: K) -> Result<BaseReader<K>, (K, BaseRefusal)>
        ensures begun { IfOk result (λ r. (bytes : List ℕ) → Shows (K.at disk).history 0 bytes → Begins bytes r) }
        ensures refused { IfErr result (λ e. (bytes : List ℕ) → Shows (K.at disk).history 0 bytes → RefusesBase bytes e.1) }
        ensures history { MatchResult result (λ r. r.history ≡ (K.at disk).history) (λ e. (K.at e.0).history ≡ (K.at disk).history) }
        ensures faults { MatchResult result (λ r. (K.at disk).faults ≤ r.faults) (λ e. (K.at disk).faults ≤ (K.at e.0).faults) }
        ensures failed { IfErr result (λ e. e.1 ≡ DiskFault → (K.at disk).faults < (K.at e.0).faults) }
    {
        let mut window = Window::new(alloc, disk);
        match read_head(alloc, &mut window) {
            Ok(Some(found)) => Ok(BaseReader {
                alloc,
                window,
                head: found.head,
                size: found.size,
                left: found.count,
                next: 1,
                waiting: None,
            }),
            Ok(None) => Err((window.into_disk(), BaseRefusal::NoBase)),
            Err(refusal) => Err((window.into_disk(), refusal)),
        }
    }

    /// Gives the next commit; none behind the horizon, where the log begins.
    pub fn next(&mut self) -> Result<Option<DatedChange>, BaseRefusal>
        ensures found { (rest : List ℕ) → Shows self.old.history self.old.place rest → FindsNext self.old self.new rest result }
        ensures same { IsSameBase self.old self.new }
        ensures failed { result ≡ Err DiskFault → self.old.faults < self.new.faults }
        ensures faults { self.old.faults ≤ self.new.faults }
    {
        if self.waiting.is_none() && self.left > 0 {
            match self.read_next() {
                Ok(()) => {}
                Err(refusal) => return Err(refusal),
            }
        }
        self.give()
    }

    /// Reads the next row.
    fn read_next(&mut self) -> Result<(), BaseRefusal>
        requires none { self.old.waiting ≡ None }
        requires some { 0 < self.old.left }
        ensures found { (rest : List ℕ) → Shows self.old.history self.old.place rest → MatchResult result (λ _. (row : ARow) × (more : List ℕ) × HasRead self.old self.new rest row more) (HasNoRow (self.old.next - 1) self.old.head.horizon self.old.place rest) }
        ensures same { IsSameBase self.old self.new }
        ensures failed { result ≡ Err DiskFault → self.old.faults < self.new.faults }
        ensures faults { self.old.faults ≤ self.new.faults }
    {
        match read_row(
            self.alloc,
            &mut self.window,
            self.next - 1,
            self.head.horizon,
        ) {
            Ok(row) => {
                self.waiting = Some(row);
                self.left -= 1;
                Ok(())
            }
            Err(refusal) => Err(refusal),
        }
    }

    /// Gives the next commit by the row that waits.
    fn give(&mut self) -> Result<Option<DatedChange>, BaseRefusal>
        ensures given { Gives self.old self.new result }
        ensures same { IsSameBase self.old self.new }
        ensures place { self.new.place ≡ self.old.place }
        ensures left { self.new.left ≡ self.old.left }
        ensures faults { self.new.faults ≡ self.old.faults }
    {
        match self.waiting.take() {
            Some(row) => self.give_row(row),
            None => self.give_tail(),
        }
    }

    /// Gives the next commit, where this row comes.
    fn give_row(&mut self, row: BaseRow) -> Result<Option<DatedChange>, BaseRefusal>
        requires none { self.old.waiting ≡ None }
        requires waits { Waits self.old.head.horizon self.old.next (Some row) }
        ensures given { GivesOfRow self.old self.new row result }
        ensures same { IsSameBase self.old self.new }
        ensures place { self.new.place ≡ self.old.place }
        ensures left { self.new.left ≡ self.old.left }
        ensures faults { self.new.faults ≡ self.old.faults }
    {
        if row.commit == self.next {
            self.next += 1;
            let BaseRow { clock, change, .. } = row;
            return Ok(Some(DatedChange { clock, change }));
        }
        let given = deletion_of(&row.change.collection, &row.change.id, row.clock);
        self.waiting = Some(row);
        match given {
            Ok(given) => {
                self.next += 1;
                Ok(Some(given))
            }
            Err(_) => Err(BaseRefusal::Memory),
        }
    }

    /// Gives the next commit, where no row comes.
    fn give_tail(&mut self) -> Result<Option<DatedChange>, BaseRefusal>
        requires none { self.old.waiting ≡ None }
        ensures given { GivesOfTail self.old self.new result }
        ensures same { IsSameBase self.old self.new }
        ensures place { self.new.place ≡ self.old.place }
        ensures left { self.new.left ≡ self.old.left }
        ensures faults { self.new.faults ≡ self.old.faults }
    {
        let place = self.window.place();
        if self.next > self.head.horizon {
            if place != self.size {
                return Err(BaseRefusal::BadSize { place });
            }
            return Ok(None);
        }
        let given = match &self.head.tail {
            Some(name) => deletion_of(&name.collection, &name.id, self.head.clock),
            None => return Err(BaseRefusal::NoTail { place }),
        };
        match given {
            Ok(given) => {
                self.next += 1;
                Ok(Some(given))
            }
            Err(_) => Err(BaseRefusal::Memory),
        }
    }

    /// The place of the next byte: that of the log, once no commit is left.
    pub fn end(&self) -> u64
        ensures { result ≡ self.now.place }
    {
        self.window.place()
    }

    /// The disk, that of a base that is not read to its end too.
    pub fn into_disk(self) -> K
        ensures history { (K.at result).history ≡ self.history }
        ensures faults { (K.at result).faults ≡ self.faults }
    {
        self.window.into_disk()
    }
}

/// A deletion of a record.
fn deletion_of(collection: &Name, id: &Name, clock: u64) -> Result<DatedChange, Memory>
    ensures { IfOk result (λ c. c ≡ deletion clock (record { collection = collection.now; id = id.now })) }
{
    Ok(DatedChange {
        clock,
        change: Change {
            collection: collection.clone()?,
            id: id.clone()?,
            document: None,
        },
    })
}
