//! Laws of orders, windows and equality. Each is a function that does nothing; its contract is the
//! law.
ghost use Rattle.std.specs.Prelude.{◌≡◌, ◌≤◌, ℕ, List, true, length, map, filter, Contains, Option};
ghost use Rattle.std.specs.Bool.{Decides};
ghost use Rattle.std.specs.Cmp.{IsTotalOrder};
ghost use Rattle.std.specs.Str.{bytes_eq};
ghost use Rattle.query_core.specs.declared.query.Query.{Query as AQuery};
ghost use Rattle.query_core.specs.Changes.{IsChange, after_change, is_of, list_of, passes_by, tree_of_row};
ghost use Rattle.query_core.specs.Filters.{Filter as Test};
ghost use Rattle.query_core.specs.Same.{same_filter, same_query};
ghost use Rattle.query_core.specs.Window.{Row as ARow, Order as Paths, rows_cmp, matches, window};

/// The order of rows is total.
pub fn rows_are_ordered()
    ensures { (order : Paths) → IsTotalOrder (rows_cmp order) }
{}

/// The window does not depend on the order of the documents: it is the same over documents that
/// have the same rows under each id, in the same order where there are several.
pub fn window_depends_on_ids_alone()
    ensures { (q : AQuery) (docs others : List ARow)
        → ((id : List ℕ) → filter (λ row. bytes_eq id row.0) docs ≡ filter (λ row. bytes_eq id row.0) others)
        → window q docs ≡ window q others }
{}

/// Where a version determines its row, two windows are equal if their versions are.
pub fn windows_are_determined_by_versions()
    ensures { (q : AQuery) (docs others : List ARow)
        → ((a b : ARow) → Contains docs a → Contains others b → a.1 ≡ b.1 → a ≡ b)
        → map (λ row. row.1) (window q docs) ≡ map (λ row. row.1) (window q others) → window q docs ≡ window q others }
{}

/// A window has no more rows than the query takes.
pub fn window_is_cut_off()
    ensures { (q : AQuery) (docs : List ARow) → length (window q docs) ≤ q.take }
{}

/// After a change of one document the rows that satisfy, in order, are those of before, without the
/// old row, and with the new one inserted if it satisfies.
pub fn matches_follow_a_change()
    ensures { (q : AQuery) (docs others : List ARow) (id : List ℕ) (new : Option ARow) → IsChange id new docs others
        → matches q others ≡ after_change q id new (matches q docs) }
{}

/// A change of a document that satisfies neither before nor after leaves the rows that satisfy a
/// query as they were.
pub fn matches_stay_where_a_change_passes_by()
    ensures { (q : AQuery) (docs others : List ARow) (id : List ℕ) (old new : Option ARow) → IsChange id new docs others
        → filter (is_of id) docs ≡ list_of old → passes_by q q.collection (tree_of_row old) (tree_of_row new) ≡ true → matches q others ≡ matches q docs }
{}

/// The tests of equality are true exactly of equal filters and of equal queries.
pub fn equality_is_decided()
    ensures filters { (f g : Test) → Decides (same_filter f g) (f ≡ g) }
    ensures queries { (q r : AQuery) → Decides (same_query q r) (q ≡ r) }
{}
