//! `KeyRange`: which keys are searched.

ghost use Rattle.std.specs.Prelude.{◌≡◌, ◌<◌, ◌≤◌, ◌⊎◌, ◌↔◌, ℕ};

/// Keys by their places among the patterns: from `first` on up to, and without, `end`. An `end` of 255 is no end.
#[derive(Clone, Copy, Debug, PartialEq, Eq)]
pub struct KeyRange {
    pub first: u8,
    pub end: u8,
}

impl KeyRange {
    /// All keys.
    pub const ALL: KeyRange = KeyRange {
        first: 0,
        end: u8::MAX,
    };

    /// Of so many keys, how many stand before the end.
    pub(crate) fn end_among(self, count: usize) -> usize
        ensures few { result ≤ count }
        ensures exact { (key : ℕ) → key < count → ((key < result) ↔ ((self.end ≡ 255) ⊎ (key < self.end))) }
    {
        if self.end == u8::MAX {
            return count;
        }
        count.min(self.end as usize)
    }
}
