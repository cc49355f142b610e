//! What the reading of texts has to do with the grammar. Each law is the contract of an empty function.
ghost use Rattle.std.specs.Prelude.{◌≡◌, ◌≤◌, ◌↔◌, ℕ, Bool, false, List, Ok};
ghost use Rattle.query_core.specs.Filters.{Filter, height};
ghost use Rattle.query_core.specs.Limits.{leaves, most_leaves, most_height, IsQuery};
ghost use Rattle.query_core.specs.declared.query.Query.{Query};
ghost use Rattle.query_core.specs.declared.query.Kind.{Kind};
ghost use Rattle.query_core.specs.Window.{Order};
ghost use Rattle.query_normal.specs.declared.key.KeyShape.{KeyShape as AKey};
ghost use Rattle.query_normal.specs.Forms.{SameItems, forms, IsWithin};
ghost use Rattle.query_normal.specs.Keys.{key_text, IsKey};
ghost use Rattle.query_normal.specs.Normal.{normal_filter};
ghost use Rattle.query_lang.specs.FilterReading.{read_filter};
ghost use Rattle.query_lang.specs.FilterText.{IsFilterText, decided, IsWhole};
ghost use Rattle.query_lang.specs.declared.query.Fields.{Fields};
ghost use Rattle.query_lang.specs.KeyTexts.{read_key};
ghost use Rattle.query_lang.specs.Printed.{IsPrinted};
ghost use Rattle.query_lang.specs.Queries.{read_query};
ghost use Rattle.query_lang.specs.OrderText.{IsOrderText};

/// A filter of the grammar is read, or refused for the first limit of whole filters that it passes.
pub fn filters_are_read_by_the_grammar()
    ensures { (bytes : List ℕ) (filter : Filter) → IsFilterText bytes filter → read_filter bytes ≡ decided filter }
{}

/// The limits of whole filters are reported of filters of the grammar alone.
pub fn limits_are_reported_of_filters()
    ensures { (bytes : List ℕ) → IsWhole (read_filter bytes) → (filter : Filter) × IsFilterText bytes filter × (read_filter bytes ≡ decided filter) }
{}

/// A text within the limits means at most one filter.
pub fn a_filter_has_one_reading()
    ensures { (bytes : List ℕ) (f g : Filter) → IsFilterText bytes f → IsFilterText bytes g → leaves f ≤ most_leaves → height f ≤ most_height → f ≡ g }
{}

/// A text means at most one order.
pub fn an_order_has_one_reading()
    ensures { (bytes : List ℕ) (a b : Order) → IsOrderText bytes a → IsOrderText bytes b → a ≡ b }
{}

/// A query of the language is read again from its printed text, whose parts are given as fields.
pub fn printed_queries_are_read_again()
    ensures { (query : Query) (kind : Kind) (fields : Fields) → IsQuery query → IsPrinted fields query kind → read_query query.collection fields ≡ Ok (query, kind) }
{}

/// A key is read from its text.
pub fn keys_are_read_again()
    ensures { (key : AKey) → IsKey key → read_key (key_text key) ≡ Ok key }
{}

/// What is read of a text is a key of this text.
pub fn texts_that_are_read_are_those_of_keys()
    ensures { (text : List ℕ) (key : AKey) → read_key text ≡ Ok key → key_text key ≡ text }
{}

/// Two keys are equal exactly where their texts are.
pub fn keys_are_equal_where_their_texts_are()
    ensures { (a b : AKey) → IsKey a → IsKey b → (a ≡ b) ↔ (key_text a ≡ key_text b) }
{}

/// Filters that join the same operands by `and`, or by `or`, in any order, at any nesting and any number of
/// times, have one normal form. Operands are the same where their normal forms are.
pub fn operands_count_once_in_any_order()
    ensures { (is_and : Bool) (f g : Filter) → IsWithin f → IsWithin g → SameItems (forms is_and f) (forms is_and g) → normal_filter false f ≡ normal_filter false g }
{}
