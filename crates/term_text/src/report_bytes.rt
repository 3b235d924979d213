//! The text of a report.

ghost use Rattle.std.specs.Prelude.{◌≡◌};

use std::marker::Model;

/// The text of a report, seen as the list of its bytes.
#[derive(Debug, Drop)]
pub struct Report {
    bytes: Vec<u8>,
}

impl Model for Report {
    ghost use Rattle.std.specs.Prelude.{List, ℕ};

    ghost Value = { List ℕ };

    ghost view = { λ r. r.bytes.items };
}

impl Report {
    /// The report of these bytes. It takes no memory.
    pub(crate) fn from_vec(bytes: Vec<u8>) -> Report
        ensures { result ≡ bytes.items }
    {
        Report { bytes }
    }

    /// Its bytes.
    pub fn bytes(&self) -> &[u8]
        ensures { result.now ≡ self.now }
    {
        &self.bytes
    }

    /// Its bytes, which it gives up. It takes no memory.
    pub fn into_vec(self) -> Vec<u8>
        ensures { result.items ≡ self }
    {
        let Report { bytes } = self;
        bytes
    }
}
