//! What holds of all journals.
ghost use Rattle.std.specs.Prelude.{◌≡◌, ℕ, ◌≤◌, List, ◌++◌, length, option_map, Contains};
ghost use Rattle.std.specs.List.{list_any};
ghost use Rattle.commit_book.specs.declared.change.Change.{Change as AChange};
ghost use Rattle.commit_book.specs.Documents.{Row as ARow, docs, HasDocuments};
ghost use Rattle.commit_book.specs.Journal.{document_at, is_kept, is_of, kept, kept_document, kept_rows};

/// More changes leave the documents at the commits before them as they were.
pub fn older_commits_stay()
    ensures documents { (journal more : List AChange) (n : ℕ) (collection id : List ℕ) → n ≤ length journal → document_at (journal ++ more) n collection id ≡ document_at journal n collection id }
    ensures collections { (journal more : List AChange) (n : ℕ) (collection : List ℕ) → n ≤ length journal → docs (journal ++ more) n collection ≡ docs journal n collection }
{}

/// The documents of a collection are those of its records: of each id its document, if it has one.
pub fn collections_have_the_documents_of_their_records()
    ensures { (journal : List AChange) (n : ℕ) (collection : List ℕ) → HasDocuments (document_at journal n collection) (docs journal n collection) }
{}

/// A version is of one document, at whichever commits it is read: that which the commit of this number put.
pub fn versions_are_of_one_document()
    ensures { (journal : List AChange) (n m : ℕ) (collection : List ℕ) (x y : ARow) → Contains (docs journal n collection) x → Contains (docs journal m collection) y → x.1 ≡ y.1 → x ≡ y }
{}

/// What is kept takes no more bytes where more rows are dropped.
pub fn dropping_takes_no_bytes()
    ensures { (journal : List AChange) (horizon to : ℕ) → horizon ≤ to → to ≤ length journal → kept journal to ≤ kept journal horizon }
{}

/// A record has a kept row exactly where it has a document at the horizon, or a change above it.
pub fn kept_rows_are_of_the_records_that_matter()
    ensures { (journal : List AChange) (horizon : ℕ) (collection id : List ℕ) → list_any (is_of collection id) (kept_rows journal horizon) ≡ is_kept journal horizon collection id }
{}

/// The kept rows have the documents that the journal has from the horizon on.
pub fn kept_rows_have_the_documents_from_the_horizon_on()
    ensures { (journal : List AChange) (horizon n : ℕ) (collection id : List ℕ) → horizon ≤ n → n ≤ length journal → kept_document journal horizon n collection id ≡ option_map (λ d. d.1) (document_at journal n collection id) }
{}
