//! Variables and constants of a key.

use gk_base::{Term, Text};

/// What a slot of a key stands for. A variable has its name without the sigil, and a type where it has one.
#[derive(Debug, PartialEq, Eq, Drop)]
pub enum KeySlot {
    /// An entity variable: an entity of this type.
    Entity(Text, Term),
    /// A wildcard: any entity of this type.
    Any(Text, Term),
    /// A value variable: a literal.
    Value(Text),
    /// A folded value variable: a literal, compared without regard to case.
    Folded(Text),
    /// A constant: this very term.
    Fixed(Term),
}
