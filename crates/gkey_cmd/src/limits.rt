//! How large the inputs of a run may be, by its words.

ghost use Rattle.std.specs.Prelude.{◌≡◌, ◌<◌, ◌^◌, ℕ, Some};
ghost use Rattle.gkey_cmd.specs.Commands.{Demonstrating, wanted};
ghost use Rattle.gkey_cmd.specs.Limits.{AreProgramLimits, CanBeKept, limits_for};

use crate::words::are_large;
use gk_base::{Limits, Text};

/// What runs without and with `--large` are held to.
#[derive(Clone, Copy, Debug, PartialEq, Eq)]
pub struct ProgramLimits {
    /// Without it.
    pub plain: Limits,
    /// With it.
    pub large: Limits,
}

impl ProgramLimits {
    /// The limits of the program. As many pairs as with `--large` no chase has.
    pub const STANDARD: ProgramLimits = ProgramLimits {
        plain: Limits::STANDARD,
        large: Limits {
            bytes: 1 << 40,
            key_bytes: 1 << 20,
            triples: 1 << 30,
            pairs: u64::MAX,
        },
    };

    /// The limits that these words ask for.
    pub(crate) fn of_words(&self, words: &[Text]) -> Limits
        requires { AreProgramLimits self.now }
        ensures limits { result ≡ limits_for words.now self.now }
        ensures kept { CanBeKept result }
        ensures counted { (n : ℕ) → wanted words.now ≡ Some (Demonstrating n) → result.pairs < 2 ^ 32 }
    {
        if are_large(words) {
            self.large
        } else {
            self.plain
        }
    }
}
