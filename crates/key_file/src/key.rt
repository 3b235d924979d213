//! A key: its name, its slots and its edges, which its type keeps valid.

ghost use Rattle.std.specs.Prelude.{◌≡◌};
ghost use Rattle.key_file.specs.Key.{IsKey};

use crate::{KeyEdge, KeySlot};
use gk_base::Text;
use std::marker::Model;

/// A key: its name, its slots, of which slot 0 is the variable that the key identifies, and its triples. Contracts see
/// it as the record of these three.
///
/// The type keeps that a key is valid: it has 1 to 16 different slots, slot 0 an `Entity`, and 1 to 32 different edges,
/// whose ends are slots and whose `from` is an `Entity` or an `Any`; each slot stands on an edge, and the key is
/// connected.
#[derive(Drop)]
pub struct KeyDef {
    pub name: Text,
    pub slots: Vec<KeySlot>,
    pub edges: Vec<KeyEdge>,
}

impl Model for KeyDef {
    ghost use Rattle.key_file.specs.KeyShape.{KeyShape};
    ghost use Rattle.key_file.specs.Key.{IsKey};

    ghost Value = { KeyShape };

    ghost view = { λ k. record { name = k.name; slots = k.slots.items; edges = k.edges.items } };

    ghost invariant = { λ k. IsKey (record { name = k.name; slots = k.slots.items; edges = k.edges.items }) };
}

impl KeyDef {
    /// The key of these parts. It takes no memory.
    pub fn new(name: Text, slots: Vec<KeySlot>, edges: Vec<KeyEdge>) -> KeyDef
        requires { IsKey (record { name = name; slots = slots.items; edges = edges.items }) }
        ensures { result ≡ record { name = name; slots = slots.items; edges = edges.items } }
    {
        KeyDef { name, slots, edges }
    }
}
