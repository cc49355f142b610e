//! The law of pages and their texts.
ghost use Rattle.std.specs.Prelude.{◌≡◌, ◌↔◌, ◌^◌, ◌<◌, ℕ, List, All, Ok};
ghost use Rattle.query_normal.specs.Pages.{Page as APage};
ghost use Rattle.flat_snapshot.specs.PageText.{IsPage, page_text};
ghost use Rattle.flat_snapshot.specs.Reading.{read_page};

/// Bytes are read as a page exactly where they are the text of that page and the page is within its
/// limits: each page has one encoding, and no other bytes are accepted.
pub fn pages_have_one_encoding()
    ensures { (bytes : List ℕ) (page : APage) → All (λ b. b < 2 ^ 8) bytes →
        (read_page bytes ≡ Ok page) ↔ (IsPage page × (bytes ≡ page_text page)) }
{}
