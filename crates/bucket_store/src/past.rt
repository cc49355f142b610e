//! The changes that were made, which only contracts read.
ghost use Rattle.std.specs.Prelude.{◌≡◌, ◌++◌, ◌∷◌, []};

use commit_book::Change;
use std::marker::Model;
use std::snapshot::Snapshot;

/// All changes that were noted, in order. It has no memory of them: it is by this list that contracts
/// still speak of rows that were dropped.
#[derive(Drop)]
pub struct Past {
    noted: Option<(Snapshot<Past>, Snapshot<Change>)>,
}

impl Model for Past {
    ghost use Rattle.std.specs.Prelude.{List, [], ◌∷◌, ◌++◌, length};
    ghost use Rattle.std.specs.Option.{option_map_or};
    ghost use Rattle.std.specs.Coded.{codes};
    ghost use Rattle.q_doc.specs.Code.{tree_code};
    ghost use Rattle.commit_book.specs.declared.change.Change.{Change};

    ghost Value = { List Change };

    ghost coded = { Prim.hlevel (codes, tree_code) };

    ghost view = { λ p. option_map_or (λ n. n.0.value ++ n.1.value ∷ []) p.noted [] };

    ghost size = { λ xs. length xs };
}

impl Past {
    /// Nothing was noted.
    pub fn new() -> Past
        ensures { result ≡ [] }
    {
        Past { noted: None }
    }

    /// Notes a change.
    pub fn note(&mut self, change: &Change)
        ensures { self.new ≡ self.old ++ change.now ∷ [] }
    {
        let before = Snapshot::of(&*self);
        self.noted = Some((before, Snapshot::of(change)));
    }
}
