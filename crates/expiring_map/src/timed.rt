//! A value with the second at which its key expires.
ghost use Rattle.std.specs.Prelude.{◌≡◌};
ghost use Rattle.std.specs.Borrow.{Lends, sem};

/// A value, and the second at which its key expires.
#[derive(Debug, Drop)]
pub struct Timed<V> {
    /// The second at which the key expires.
    pub until: u64,
    /// The value.
    pub value: V,
}

impl<V> Timed<V> {
    ghost use Rattle.expiring_map.specs.contracts.timed.Timed.{the_row};
    ghost use Rattle.expiring_map.specs.Entries.{with_value};

    /// The value, for writing. The second stays the same.
    pub fn value_mut(&mut self) -> &mut V
        ensures* writes_back { sem 𝓛 (Lends (the_row V.row) V.row self.entry result (with_value self.old)) }
        ensures value { result.now ≡ self.old.value }
    {
        &mut self.value
    }
}
