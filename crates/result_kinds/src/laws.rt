//! Laws of results. Each is a function that does nothing; its contract is the law.
ghost use Rattle.std.specs.Prelude.{◌≡◌, List, true};
ghost use Rattle.std.specs.Bool.{Decides};
ghost use Rattle.query_core.specs.declared.query.Kind.{Kind as AKind};
ghost use Rattle.query_core.specs.Window.{Row as ARow};
ghost use Rattle.result_kinds.specs.Results.{result_of, text_of_result};
ghost use Rattle.result_kinds.specs.Same.{same_result, AreOfOneStore};

/// Of rows of one store, versions tell whether two results of kind objects are equal, and ids whether two of
/// kind ids are.
pub fn results_are_told_by_versions()
    ensures { (kind : AKind) (a b : List ARow) → AreOfOneStore a b → Decides (same_result kind a b) (result_of kind a ≡ result_of kind b) }
{}

/// Results that are told to be equal have equal texts.
pub fn equal_results_have_equal_texts()
    ensures { (kind : AKind) (a b : List ARow) → AreOfOneStore a b → same_result kind a b ≡ true → text_of_result (result_of kind a) ≡ text_of_result (result_of kind b) }
{}
