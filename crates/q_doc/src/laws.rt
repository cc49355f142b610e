//! Laws of documents and of the order of values. Each is an empty function whose contract is the law.
ghost use Rattle.std.specs.Prelude.{◌≡◌, ◌≤◌, ℕ, List, length, Option};
ghost use Rattle.std.specs.declared.cmp.Ordering.TheVariants.{Less, Equal};
ghost use Rattle.std.specs.Cmp.{IsTotalOrder};
ghost use Rattle.q_doc.specs.Tree.{Tree};
ghost use Rattle.q_doc.specs.Document.{IsPlainDocument, HasTexts};
ghost use Rattle.q_doc.specs.Judged.{judged};
ghost use Rattle.q_doc.specs.Order.{tree_cmp, value_cmp};
ghost use Rattle.q_doc.specs.Printed.{printed};
ghost use Rattle.q_doc.specs.Limits.{longest_document, deepest_document, most_segments};
ghost use Rattle.q_doc.specs.declared.doc.TheConstants.{MAX_LENGTH, MAX_DEPTH};
ghost use Rattle.q_doc.specs.declared.path.TheConstants.{MAX_SEGMENTS};

/// What is read is a document.
pub fn read_is_a_document()
    ensures { (bytes : List ℕ) (t : Tree) → judged bytes ≡ Ok t → IsPlainDocument t }
{}

/// A printed document that is not too long is read as that document.
pub fn printed_reads()
    ensures { (t : Tree) → IsPlainDocument t → HasTexts t → length (printed t) ≤ longest_document
        → judged (printed t) ≡ Ok t }
{}

/// The order of values is total, has an absent value first, and ties only equal values.
pub fn values_are_ordered()
    ensures total { IsTotalOrder value_cmp }
    ensures present_total { IsTotalOrder tree_cmp }
    ensures absent_first { (t : Tree) → value_cmp None (Some t) ≡ Less }
    ensures same { (a b : Option Tree) → value_cmp a b ≡ Equal → a ≡ b }
{}

/// What is read is no longer, printed, than the text that it was read from.
pub fn printed_is_no_longer()
    ensures { (bytes : List ℕ) (t : Tree) → judged bytes ≡ Ok t → length (printed t) ≤ length bytes }
{}

/// The limits are the stated numbers.
pub fn limits_are_as_stated()
    ensures length { MAX_LENGTH ≡ longest_document }
    ensures depth { MAX_DEPTH ≡ deepest_document }
    ensures segments { MAX_SEGMENTS ≡ most_segments }
{}
