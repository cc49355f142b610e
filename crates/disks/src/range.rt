//! Ranges of places.
ghost use Rattle.std.specs.Prelude.{◌≡◌};
ghost use Rattle.std.specs.List.{list_any};
ghost use Rattle.disks.specs.Ranges.{is_in};

/// The `size` places from `start` on.
#[derive(Clone, Copy, Debug, PartialEq, Eq)]
pub struct ByteRange {
    pub start: usize,
    pub size: usize,
}

impl ByteRange {
    /// Whether the place is in the range.
    pub fn has(self, place: usize) -> bool
        ensures { result ≡ is_in place self }
    {
        place >= self.start && place - self.start < self.size
    }
}

/// Whether the place is in one of the ranges.
pub fn is_in_some(ranges: &[ByteRange], place: usize) -> bool
    ensures { result ≡ list_any (is_in place) ranges.now }
{
    ranges.iter().any(|range| range.has(place))
}
