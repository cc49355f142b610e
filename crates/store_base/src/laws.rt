//! Laws of bases, over their definitions alone. Each function states one law, and does nothing.
ghost use Rattle.std.specs.Prelude.{◌≡◌, ◌≤◌, ℕ, List, [], ◌∷◌, ◌++◌, drop, length, map, take, Some, None, Ok};
ghost use Rattle.commit_book.specs.Journal.{bases, document_at};
ghost use Rattle.store_base.specs.declared.base.DatedChange.{DatedChange as ADatedChange};
ghost use Rattle.store_base.specs.Bases.{Base, base_of, changes_of, expanded, expanded_from};
ghost use Rattle.store_base.specs.declared.base.BaseRow.{BaseRow as ARow};
ghost use Rattle.store_base.specs.Readings.{FindsNext, IsReader, IsSameBase, ReaderView};
ghost use Rattle.store_base.specs.Remains.{Remains, RowsIn};
ghost use Rattle.store_base.specs.Sound.{IsBase, Stand};
ghost use Rattle.store_base.specs.Texts.{rows_text, text_of};
ghost use Rattle.store_base.specs.Windows.{Shows};

/// The rows of a base are the changes that the book keeps at the horizon.
pub fn rows_are_what_the_book_keeps()
    ensures { (journal : List ADatedChange) (horizon moment : ℕ) → map (λ r. r.change) (base_of journal horizon moment).rows ≡ bases (changes_of (take horizon journal)) }
{}

/// A base stands for as many commits as its horizon says.
pub fn a_base_has_the_commits_of_its_horizon()
    ensures { (journal : List ADatedChange) (horizon moment : ℕ) → horizon ≤ length journal → length (expanded (base_of journal horizon moment)) ≡ horizon }
{}

/// With a base in the place of the first commits, each record has from the horizon on the documents that
/// it had, put by the commits that put them.
pub fn documents_stay_from_the_horizon_on()
    ensures { (journal : List ADatedChange) (horizon moment n : ℕ) (collection id : List ℕ) → horizon ≤ n → n ≤ length journal
        → document_at (changes_of (expanded (base_of journal horizon moment) ++ drop horizon journal)) n collection id ≡ document_at (changes_of journal) n collection id }
{}

/// A base that is made behind a base is that of the whole journal.
pub fn a_base_of_a_base_is_that_of_the_journal()
    ensures { (journal : List ADatedChange) (horizon moment later kept : ℕ) → horizon ≤ later → later ≤ length journal
        → base_of (expanded (base_of journal horizon moment) ++ drop horizon journal) later kept ≡ base_of journal later kept }
{}

/// Bytes begin with at most one base, and where it ends is determined.
pub fn bytes_begin_with_one_base()
    ensures { (base other : Base) (rest more : List ℕ) → IsBase base → IsBase other → text_of base ++ rest ≡ text_of other ++ more → (base ≡ other) × (rest ≡ more) }
{}

/// Where the rows of a base are left to be read, a reader gives the commits that they stand for, one after
/// another, and at the end the bytes behind the base are next. The bytes of rows have those rows.
pub fn a_reader_gives_what_a_base_stands_for()
    ensures text { (last horizon : ℕ) (rows : List ARow) (behind : List ℕ) → Stand last horizon rows → RowsIn (length rows) last horizon (rows_text rows ++ behind) rows behind }
    ensures given { (old new : ReaderView) (rest behind : List ℕ) (rows : List ARow) (c : ADatedChange) → IsReader old → Shows old.history old.place rest → Remains old.waiting old rest rows behind
        → FindsNext old new rest (Ok (Some c)) → IsSameBase old new → (later : List ARow) × (more : List ℕ) × Shows new.history new.place more × Remains new.waiting new more later behind
        × (expanded_from old.head old.next rows ≡ c ∷ expanded_from old.head new.next later) }
    ensures ends { (old new : ReaderView) (rest behind : List ℕ) (rows : List ARow) → Shows old.history old.place rest → Remains old.waiting old rest rows behind
        → FindsNext old new rest (Ok None) → IsSameBase old new → (expanded_from old.head old.next rows ≡ []) × Shows new.history new.place behind }
{}
