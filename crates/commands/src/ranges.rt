ghost use Rattle.std.specs.Prelude.{◌≡◌, ◌≤◌, length, slice_get};

use std::marker::Model;
use uid_ranges::UidRange;

/// Ranges of UIDs, as a command names them. They may meet each other.
#[derive(Debug, Drop)]
pub struct Ranges {
    list: Vec<UidRange>,
}

impl Model for Ranges {
    ghost use Rattle.std.specs.Prelude.{List};
    ghost use Rattle.uid_ranges.specs.declared.range.UidRange.{UidRange};

    ghost Value = { List UidRange };

    ghost view = { λ ranges. ranges.list.items };
}

impl Ranges {
    /// These ranges.
    pub fn of(list: Vec<UidRange>) -> Ranges
        ensures { result ≡ list.items }
    {
        Ranges { list }
    }

    /// How many ranges there are.
    pub fn len(&self) -> usize
        ensures { result ≡ length self.now }
    {
        self.list.len()
    }

    /// The range at a place, from 0.
    pub fn at(&self, place: usize) -> Option<UidRange>
        ensures { result ≡ slice_get self.now place }
    {
        self.list.get(place).copied()
    }

    pub fn as_slice(&self) -> &[UidRange]
        ensures { result.now ≡ self.now }
    {
        self.list.as_slice()
    }
}
