//! What the value of a turnstile stands for.
ghost use Rattle.std.specs.Prelude.{◌≡◌, List, length};

/// A value that stands for a list of entries, as a store does for the calls that were made of it.
pub trait Stands {
    /// What clauses see of an entry. No value of it is made.
    type Entry;

    /// What a value was made with, which no entry changes. No value of it is made.
    type Setting;

    ghost setting: { Self → Self.Setting };

    // the lists that may be under a setting
    ghost legal: { Self.Setting → List Self.Entry → Type 0 };

    ghost stands: { Self → List Self.Entry → Type 0 };

    /// How many entries the value stands for.
    fn entries(&self) -> u64
        ensures { (l : List Self.Entry) → stands self.now l → result ≡ length l };

    ghost is_legal: { (x : Self) (l : List Self.Entry) → stands x l → legal (setting x) l };
}

/// The entries that were made in one turn. Each call of `give` picks them.
pub trait Made<E> {
    ghost made: { List E };
}
