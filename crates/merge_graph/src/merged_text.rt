//! The text of a merged graph.

ghost use Rattle.std.specs.Prelude.{◌≡◌};

use std::marker::Model;

/// The text of a merged graph, seen as the list of its bytes.
#[derive(Debug, Drop)]
pub struct MergedText {
    bytes: Vec<u8>,
}

impl Model for MergedText {
    ghost use Rattle.std.specs.Prelude.{List, ℕ};

    ghost Value = { List ℕ };

    ghost view = { λ t. t.bytes.items };
}

impl MergedText {
    /// The text of these bytes. It takes no memory.
    pub(crate) fn from_vec(bytes: Vec<u8>) -> MergedText
        ensures { result ≡ bytes.items }
    {
        MergedText { bytes }
    }

    /// Its bytes.
    pub fn bytes(&self) -> &[u8]
        ensures { result.now ≡ self.now }
    {
        &self.bytes
    }

    /// Its bytes, which it gives up. It takes no memory.
    pub fn into_vec(self) -> Vec<u8>
        ensures { result.items ≡ self }
    {
        let MergedText { bytes } = self;
        bytes
    }
}
