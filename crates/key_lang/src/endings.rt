//! An open key that ends.

ghost use Rattle.std.specs.Prelude.{◌≡◌, ◌++◌, ◌<◌, ◌≤◌, All, length, map, IfOk};
ghost use Rattle.std.specs.List.{list_all, range_with_len};
ghost use Rattle.key_file.specs.declared.slot.KeySlot.TheVariants.{Fixed};
ghost use Rattle.key_file.specs.Key.{is_used};
ghost use Rattle.gk_base.specs.Answers.{IsSo};
ghost use Rattle.key_lang.specs.Answers.{Is};
ghost use Rattle.key_lang.specs.OpenKey.{slot_of_end, key_edge, finish};
ghost use Rattle.key_lang.specs.Fair.{IsFair, IsFairBeside};
ghost use Rattle.key_lang.specs.Statements.{KeyEndSays};

use crate::fault::{KeyFault, LineStop};
use crate::open_key::{End, OpenEdge, OpenKey, Progress};
use crate::tokens::closes;
use gk_base::{NoMemory, Term};
use key_file::{KeyDef, KeyEdge, KeyFile, KeySlot, is_connected, is_used};
use std::alloc::Global;

/// The slots of a key: its variables, then its constants.
fn slots(variables: Vec<KeySlot>, constants: Vec<Term>) -> Result<Vec<KeySlot>, NoMemory>
    ensures { IfOk result (λ slots. slots.items ≡ variables.items ++ map Fixed constants.items) }
{
    let mut slots = variables;
    for term in constants {
        slots.push(KeySlot::Fixed(term))?;
    }
    Ok(slots)
}

/// The slot of an end, where a key has so many variables.
fn slot_of_end(variables: usize, end: End) -> usize
    requires { slot_of_end variables end < 256 }
    ensures { result ≡ slot_of_end variables end }
{
    match end {
        End::Variable(place) => place,
        End::Constant(place) => variables + place,
    }
}

/// A triple between slots, where a key has so many variables.
fn key_edge(variables: usize, edge: OpenEdge) -> KeyEdge
    requires from { edge.from < 256 }
    requires to { slot_of_end variables edge.to < 256 }
    ensures { result ≡ key_edge variables edge }
{
    let OpenEdge { from, pred, to } = edge;
    KeyEdge {
        from: from as u8,
        pred,
        to: slot_of_end(variables, to) as u8,
    }
}

/// The triples between slots, where a key has so many variables.
fn key_edges(
    alloc: Global,
    variables: usize,
    edges: Vec<OpenEdge>,
) -> Result<Vec<KeyEdge>, NoMemory>
    requires { All (λ e. (e.from < 256) × (slot_of_end variables e.to < 256)) edges.items }
    ensures { IfOk result (λ made. made.items ≡ map (key_edge variables) edges.items) }
{
    let mut made = Vec::with_capacity(alloc, edges.len())?;
    for edge in edges {
        made.push(key_edge(variables, edge))?;
    }
    Ok(made)
}

/// Whether each of so many slots stands in a triple.
fn all_used(edges: &[KeyEdge], slots: usize) -> bool
    ensures { result ≡ list_all (is_used edges.now) (range_with_len 0 slots) }
{
    (0..slots).all(|slot| is_used(edges, slot))
}

/// The key that ends.
fn finish(alloc: Global, key: OpenKey) -> Result<KeyDef, LineStop>
    requires { IsFair key }
    ensures { IsSo (Is (finish key)) result }
{
    if key.edges.as_slice().is_empty() {
        return Err(LineStop::Fault(KeyFault::KeyWithoutTriples));
    }
    let OpenKey {
        name,
        variables,
        constants,
        edges,
    } = key;
    let edges = key_edges(alloc, variables.as_slice().len(), edges)?;
    let slots = slots(variables, constants)?;
    let count = slots.as_slice().len();
    if !all_used(&edges, count) {
        return Err(LineStop::Fault(KeyFault::VariableNotUsed));
    }
    if !is_connected(count, &edges) {
        return Err(LineStop::Fault(KeyFault::NotConnected));
    }
    Ok(KeyDef::new(name, slots, edges))
}

/// `end`, from the place after it.
pub(crate) fn end_statement(
    alloc: Global,
    keys: KeyFile,
    key: OpenKey,
    line: &[u8],
    at: usize,
) -> Result<Progress, LineStop>
    requires inside { at ≤ length line.now }
    requires fair { IsFairBeside keys key }
    ensures { IsSo (KeyEndSays keys key line.now at) result }
{
    if !closes(line, at) {
        return Err(LineStop::Fault(KeyFault::UnknownStatement));
    }
    let whole = finish(alloc, key)?;
    let mut keys = keys;
    keys.push(whole)?;
    Ok(Progress {
        keys,
        current: None,
    })
}
