//! A count of faults without an upper limit.
//!
//! A full sink fails at every further call, and its count must rise each time, so a number of a fixed
//! width is not enough. The count is that of a ledger of std: only contracts see it, and it takes no bytes.
ghost use Rattle.std.specs.Prelude.{◌≡◌, ◌+◌, ◌<◌};

use std::marker::Model;
use std::sync::ledger::{Blank, Book, Ledger, Share};

/// The number of faults so far. Contracts see the number.
#[derive(Drop)]
pub struct Faults<L: Ledger> {
    book: Book<L>,
    share: Share<L>,
}

impl<L: Ledger> Model for Faults<L> {
    ghost use Rattle.std.specs.Prelude.{ℕ, ◌<◌};

    ghost Value = { ℕ };

    ghost view = { λ f. f.book.total };

    ghost invariant = { λ f. 0 < f.share.parts };
}

impl<L: Ledger> Faults<L> {
    /// No fault yet. The blank ledger, which has the name and the parts of `L`, is opened as `L`.
    pub fn new(blank: Blank) -> Faults<L>
        requires name { blank.name ≡ L.name }
        requires parts { blank.parts ≡ L.parts }
        requires some { 0 < L.parts }
        ensures { result ≡ 0 }
    {
        let (book, share) = blank.open::<L>();
        Faults { book, share }
    }

    /// Counts one fault more.
    pub fn rise(&mut self)
        ensures { self.new ≡ self.old + 1 }
    {
        self.book.add(&mut self.share, 1);
    }
}
