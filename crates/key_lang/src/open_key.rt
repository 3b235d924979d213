//! A key that has begun and not yet ended.

use gk_base::{Term, Text};
use key_file::{KeyFile, KeySlot};
use std::marker::Model;

/// Where a triple of an open key leads.
#[derive(Clone, Copy, Debug, PartialEq, Eq)]
pub enum End {
    /// To the variable at this place among the key's variables.
    Variable(usize),
    /// To the constant at this place among the key's constants.
    Constant(usize),
}

/// A triple of an open key, from the variable at this place.
#[derive(Debug, PartialEq, Eq, Drop)]
pub struct OpenEdge {
    pub from: usize,
    pub pred: Term,
    pub to: End,
}

/// An object as a line names it.
#[derive(Debug, PartialEq, Eq, Drop)]
pub enum Object {
    /// The declared variable at this place.
    Declared(usize),
    /// This constant.
    Given(Term),
}

/// A key that has begun and not yet ended. How many constants come before its last variable is not known yet, so its
/// triples lead to variables and constants by their own places.
#[derive(Drop)]
pub struct OpenKey {
    pub name: Text,
    /// In order of declaration; the first is `?x`.
    pub variables: Vec<KeySlot>,
    /// All different, in order of their first triples.
    pub constants: Vec<Term>,
    /// All different, in order of first appearance.
    pub edges: Vec<OpenEdge>,
}

impl Model for OpenKey {
    ghost use Rattle.key_lang.specs.OpenKey.{OpenShape};

    ghost Value = { OpenShape };

    ghost view = { λ k. record { name = k.name; variables = k.variables.items; constants = k.constants.items; edges = k.edges.items } };
}

/// A key file as far as it was read: the keys that have ended, and the open one.
#[derive(Drop)]
pub struct Progress {
    pub keys: KeyFile,
    pub current: Option<OpenKey>,
}

impl Model for Progress {
    ghost use Rattle.key_lang.specs.OpenKey.{KeyState};

    ghost Value = { KeyState };

    ghost view = { λ p. record { keys = p.keys; current = p.current } };
}
