//! What the test of a valid key says. The functions do nothing: their contracts are the laws.

ghost use Rattle.std.specs.Prelude.{◌↔◌};
ghost use Rattle.key_file.specs.KeyShape.{KeyShape};
ghost use Rattle.key_file.specs.Key.{IsKey, KeyFacts};

/// A key passes the test of a valid key exactly where each of the facts holds.
pub fn law_key()
    ensures { (key : KeyShape) → IsKey key ↔ KeyFacts key }
{}
