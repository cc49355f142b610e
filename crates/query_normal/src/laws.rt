//! What holds of all keys and of all normal forms.
ghost use Rattle.std.specs.Prelude.{◌≡◌, ◌≤◌, ◌↔◌, List, false};
ghost use Rattle.q_doc.specs.Tree.{Tree};
ghost use Rattle.query_core.specs.declared.query.Query.{Query as AQuery};
ghost use Rattle.query_core.specs.Filters.{Filter, height};
ghost use Rattle.query_core.specs.Limits.{leaves, IsFilter, IsQuery};
ghost use Rattle.query_core.specs.Meaning.{satisfies};
ghost use Rattle.query_core.specs.Window.{Row as ARow, window};
ghost use Rattle.query_normal.specs.Normal.{normal_filter, normal_query};
ghost use Rattle.std.specs.Bool.{Decides};
ghost use Rattle.query_normal.specs.declared.key.KeyShape.{KeyShape as AKey};
ghost use Rattle.query_normal.specs.Keys.{key_text, same_key, IsKey, IsRecordKey};

/// A key of a record is equal to another key exactly where their texts are. That this holds of any two keys
/// is a law of `query_lang`, where printed queries are read again.
pub fn keys_of_records_are_equal_where_their_texts_are()
    ensures { (a b : AKey) → IsKey a → IsKey b → IsRecordKey a → (a ≡ b) ↔ (key_text a ≡ key_text b) }
{}

/// `same_key` is true exactly of equal keys.
pub fn same_key_is_equality()
    ensures { (a b : AKey) → Decides (same_key a b) (a ≡ b) }
{}

/// A document satisfies the normal form of a filter exactly where it satisfies the filter.
pub fn normal_forms_keep_their_meaning()
    ensures { (f : Filter) (t : Tree) → satisfies (normal_filter false f) t ≡ satisfies f t }
{}

/// The normal form of a query has the window of the query, over any documents.
pub fn normal_forms_keep_their_windows()
    ensures { (q : AQuery) (docs : List ARow) → window (normal_query q) docs ≡ window q docs }
{}

/// A normal form is its own normal form.
pub fn normal_forms_stay()
    ensures { (q : AQuery) → normal_query (normal_query q) ≡ normal_query q }
{}

/// The normal form of a query of the language is one.
pub fn normal_forms_are_queries()
    ensures { (q : AQuery) → IsQuery q → IsQuery (normal_query q) }
{}

/// A normal form has no more leaves than its filter.
pub fn leaves_do_not_grow()
    ensures { (f : Filter) → IsFilter f → leaves (normal_filter false f) ≤ leaves f }
{}

/// A normal form is no higher than its filter.
pub fn heights_do_not_grow()
    ensures { (f : Filter) → height (normal_filter false f) ≤ height f }
{}
