//! Key patterns, and what holds of each of them because it is valid.

ghost use Rattle.std.specs.Prelude.{◌≡◌, ℕ, All, Some, slice_get};
ghost use Rattle.chase_laws.specs.declared.pattern.Slot.TheVariants.{Entity};
ghost use Rattle.chase_laws.specs.Shape.{Shape, IsPattern, PatternFacts};

use crate::laws::law_pattern;
use std::marker::Model;

/// What a slot of a pattern stands for. The numbers are names.
#[derive(Clone, Copy, Debug, PartialEq, Eq)]
pub enum Slot {
    /// An entity variable: an entity of this type.
    Entity(u32),
    /// A wildcard: any entity of this type.
    Any(u32),
    /// A value variable: a literal.
    Value,
    /// A folded value variable: a literal, compared without regard to case.
    Folded,
    /// A constant: this very name.
    Fixed(u32),
}

/// A triple of a pattern: two slots, by their places, and the name of the predicate.
#[derive(Clone, Copy, Debug, PartialEq, Eq)]
pub struct Edge {
    pub from: u8,
    pub pred: u32,
    pub to: u8,
}

/// A key's graph pattern. Slot 0 is the variable that the key identifies.
///
/// The type keeps that a pattern is valid: it has 1 to 16 slots, slot 0 an `Entity`, and 1 to 32 different edges,
/// whose ends are slots and whose `from` is an `Entity` or an `Any`; each slot stands on an edge, and the pattern is
/// connected.
#[derive(Drop)]
pub struct Pattern {
    pub slots: Vec<Slot>,
    pub edges: Vec<Edge>,
}

impl Model for Pattern {
    ghost use Rattle.chase_laws.specs.Shape.{Shape, IsPattern};

    ghost Value = { Shape };

    ghost view = { λ p. record { slots = p.slots.items; edges = p.edges.items } };

    ghost invariant = { λ p. IsPattern (record { slots = p.slots.items; edges = p.edges.items }) };
}

impl Pattern {
    /// The slots, of which slot 0 is the variable that the key identifies. What the type keeps is said fact by fact.
    pub fn slots(&self) -> &[Slot]
        ensures slots { result.now ≡ self.now.slots }
        ensures valid { IsPattern self.now }
        ensures facts { PatternFacts self.now }
    {
        law_pattern();
        &self.slots
    }

    /// The edges. What the type keeps is said fact by fact.
    pub fn edges(&self) -> &[Edge]
        ensures edges { result.now ≡ self.now.edges }
        ensures facts { PatternFacts self.now }
    {
        law_pattern();
        &self.edges
    }

    /// The type that the key designates: that of slot 0.
    pub fn designated_type(&self) -> u32
        ensures { slice_get self.now.slots 0 ≡ Some (Entity result) }
    {
        match self.slots()[0] {
            Slot::Entity(t) => t,
            Slot::Any(_) | Slot::Value | Slot::Folded | Slot::Fixed(_) => unreachable!(),
        }
    }
}

/// Says for proofs that each of some patterns is valid. It does nothing.
pub fn all_valid(patterns: &[Pattern])
    ensures valid { All IsPattern patterns.now }
    ensures facts { (key : ℕ) (Q : Shape) → slice_get patterns.now key ≡ Some Q → PatternFacts Q }
{
    law_pattern();
    for pattern in patterns {
        let _ = pattern.slots();
    }
}
