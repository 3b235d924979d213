//! A text that is lent.

ghost use Rattle.std.specs.Prelude.{◌≡◌};

use std::marker::Model;

/// A text that stands elsewhere. Contracts see the list of its bytes.
#[derive(Drop)]
pub struct LentText<'a> {
    bytes: &'a [u8],
}

impl<'a> Model for LentText<'a> {
    ghost use Rattle.std.specs.Prelude.{List, ℕ};

    ghost Value = { List ℕ };

    ghost view = { λ t. t.bytes.now };
}

impl<'a> LentText<'a> {
    /// These bytes, lent.
    #[inline]
    pub fn new(bytes: &'a [u8]) -> LentText<'a>
        ensures { result ≡ bytes.now }
    {
        LentText { bytes }
    }

    /// Its bytes.
    #[inline]
    pub fn bytes(&self) -> &'a [u8]
        ensures { result.now ≡ self.now }
    {
        self.bytes
    }
}
