//! Keys as patterns over numbers.

ghost use Rattle.std.specs.Prelude.{◌≡◌, ◌+◌, ◌-◌, ◌<◌, ◌^◌, length, map, IfOk, OnOk};
ghost use Rattle.std.specs.List.{flat_map};
ghost use Rattle.term_table.specs.Numbering.{with_term, with_terms, place_of, AreDistinct};
ghost use Rattle.key_file.specs.Compile.{slot_terms, terms_of_key, key_terms, slot_of, numbered_edge, shape_of, patterns_of, HasMoreNames};

use crate::{KeyDef, KeyEdge, KeyFile, KeySlot};
use chase_laws::{Edge, Pattern, Slot};
use gk_base::{NoMemory, Term};
use std::alloc::Global;
use term_table::Names;

/// The number of a term, which becomes a name.
fn number(term: &Term, names: &mut Names) -> Result<u32, NoMemory>
    requires room { length names.old < 2 ^ 32 - 1 }
    ensures names { OnOk result (names.new ≡ with_term names.old term.now) }
    ensures number { IfOk result (λ n. n ≡ place_of names.new term.now) }
    ensures grown { HasMoreNames names.old names.new }
{
    let number = names.intern(term.copy()?)?;
    Ok(number)
}

/// A slot with the number of its type or of its constant, which becomes a name.
fn slot(slot: &KeySlot, names: &mut Names) -> Result<Slot, NoMemory>
    requires room { length names.old + length (slot_terms slot.now) < 2 ^ 32 - 1 }
    ensures names { OnOk result (names.new ≡ with_terms names.old (slot_terms slot.now)) }
    ensures slot { IfOk result (λ s. s ≡ slot_of names.new slot.now) }
    ensures grown { HasMoreNames names.old names.new }
{
    Ok(match slot {
        KeySlot::Entity(_, kind) => Slot::Entity(number(kind, names)?),
        KeySlot::Any(_, kind) => Slot::Any(number(kind, names)?),
        KeySlot::Value(_) => Slot::Value,
        KeySlot::Folded(_) => Slot::Folded,
        KeySlot::Fixed(constant) => Slot::Fixed(number(constant, names)?),
    })
}

/// The slots of a key, whose terms become names.
fn slots(alloc: Global, slots: &[KeySlot], names: &mut Names) -> Result<Vec<Slot>, NoMemory>
    requires room { length names.old + length (flat_map slot_terms slots.now) < 2 ^ 32 - 1 }
    ensures names { OnOk result (names.new ≡ with_terms names.old (flat_map slot_terms slots.now)) }
    ensures slots { IfOk result (λ made. made.items ≡ map (slot_of names.new) slots.now) }
    ensures grown { HasMoreNames names.old names.new }
{
    let mut made = Vec::with_capacity(alloc, slots.len())?;
    for part in slots {
        made.push(slot(part, names)?)?;
    }
    Ok(made)
}

/// The edges of a key, whose predicates become names.
fn edges(alloc: Global, edges: &[KeyEdge], names: &mut Names) -> Result<Vec<Edge>, NoMemory>
    requires room { length names.old + length edges.now < 2 ^ 32 - 1 }
    ensures names { OnOk result (names.new ≡ with_terms names.old (map (λ e. e.pred) edges.now)) }
    ensures edges { IfOk result (λ made. made.items ≡ map (numbered_edge names.new) edges.now) }
    ensures grown { HasMoreNames names.old names.new }
{
    let mut made = Vec::with_capacity(alloc, edges.len())?;
    for edge in edges {
        let pred = number(&edge.pred, names)?;
        made.push(Edge {
            from: edge.from,
            pred,
            to: edge.to,
        })?;
    }
    Ok(made)
}

/// The pattern of a key, whose terms become names.
fn pattern(alloc: Global, key: &KeyDef, names: &mut Names) -> Result<Pattern, NoMemory>
    requires room { length names.old + length (terms_of_key key.now) < 2 ^ 32 - 1 }
    ensures names { OnOk result (names.new ≡ with_terms names.old (terms_of_key key.now)) }
    ensures pattern { IfOk result (λ pattern. pattern ≡ shape_of names.new key.now) }
    ensures grown { HasMoreNames names.old names.new }
{
    let slots = slots(alloc, &key.slots, names)?;
    let edges = edges(alloc, &key.edges, names)?;
    Ok(Pattern { slots, edges })
}

/// The patterns of keys, whose terms become names.
fn all_patterns(alloc: Global, keys: &[KeyDef], names: &mut Names) -> Result<Vec<Pattern>, NoMemory>
    requires room { length names.old + length (key_terms keys.now) < 2 ^ 32 - 1 }
    ensures names { OnOk result (names.new ≡ with_terms names.old (key_terms keys.now)) }
    ensures patterns { IfOk result (λ patterns. patterns.items ≡ patterns_of names.new keys.now) }
    ensures grown { HasMoreNames names.old names.new }
{
    let mut patterns = Vec::with_capacity(alloc, keys.len())?;
    for key in keys {
        patterns.push(pattern(alloc, key, names)?)?;
    }
    Ok(patterns)
}

/// Names are all different. It is here for the proof of `compile`, and does nothing.
fn names_differ(names: &Names)
    ensures { AreDistinct names.now }
{
    let _ = names.len();
}

/// The patterns of the keys, in their order. The keys' terms become names, key by key: first the type or the constant of
/// each slot, in the slots' order, then the predicate of each edge, in the edges' order. After `NoMemory` there may be
/// more names behind those that were there.
pub fn compile(alloc: Global, keys: &KeyFile, names: &mut Names) -> Result<Vec<Pattern>, NoMemory>
    requires room { length names.old + length (key_terms keys.now) < 2 ^ 32 - 1 }
    ensures names { OnOk result (names.new ≡ with_terms names.old (key_terms keys.now)) }
    ensures patterns { IfOk result (λ patterns. patterns.items ≡ patterns_of names.new keys.now) }
    ensures grown { HasMoreNames names.old names.new }
    ensures distinct { AreDistinct names.new }
{
    let patterns = all_patterns(alloc, keys.keys(), names);
    names_differ(names);
    patterns
}
