//! The law of a sifted graph. Whoever has more triples than one machine holds can let a database keep those that keys may
//! look at, and match what is left: names are the same over it exactly if they are the same over the whole.
#![tactic(auto)]

ghost use Rattle.std.specs.Prelude.{List, ℕ, ◌↔◌};
ghost use Rattle.chase_laws.specs.declared.entry.Entry.{Entry};
ghost use Rattle.chase_laws.specs.Shape.{Shape};
ghost use Rattle.chase_laws.specs.Graph.{NumberedGraph};
ghost use Rattle.chase_laws.specs.Chase.{IsDerivation, AreSame};
ghost use Rattle.sifted_graph.specs.Sifted.{IsSifted};

use chase_laws::laws::{law_rows, law_signature, law_step_grows};

/// Let F be a part of G that has every row of each valuation some key has at an entity which shares, by that key, all of its
/// values with another entity. Then the keys make the same names the same over F and over G, and a derivation over F is one
/// over G, so that a proof of the part is one of the whole. To keep more rows is never wrong.
pub fn law_sifted()
    ensures same { (G F : NumberedGraph) (K : List Shape) → IsSifted K G F → (a b : ℕ) → AreSame F K a b ↔ AreSame G K a b }
    ensures derivation { (G F : NumberedGraph) (K : List Shape) → IsSifted K G F → (H : List Entry) → IsDerivation F K H → IsDerivation G K H }
{
    law_rows();
    law_signature();
    law_step_grows();
}
