//! The variables of an open key.

ghost use Rattle.std.specs.Prelude.{◌≡◌, ◌≤◌, ◌++◌, ◌∷◌, [], Err, IfOk, MatchOption, Ok, length, position};
ghost use Rattle.std.specs.List.{list_any};
ghost use Rattle.gk_base.specs.Answers.{IsSo};
ghost use Rattle.key_lang.specs.Answers.{Is};
ghost use Rattle.key_lang.specs.OpenKey.{nodes, sigil_of, slot_name, is_named_so, declare};
ghost use Rattle.key_lang.specs.Statements.{DeclaredSays};

use crate::fault::{KeyFault, LineStop};
use crate::open_key::OpenKey;
use crate::tokens::word_end;
use key_file::{KeySlot, is_name};

/// How many variables and constants a key may have.
pub(crate) const MOST_NODES: usize = 16;

/// How many variables and constants a key has.
pub(crate) fn nodes(key: &OpenKey) -> usize
    ensures { result ≡ nodes key.now }
{
    key.variables.len() + key.constants.len()
}

/// The sigil of a variable.
fn sigil_of(slot: &KeySlot) -> u8
    ensures { result ≡ sigil_of slot.now }
{
    match slot {
        KeySlot::Entity(_, _) => b'?',
        KeySlot::Any(_, _) => b'_',
        KeySlot::Value(_) | KeySlot::Folded(_) => b'$',
        KeySlot::Fixed(_) => 0,
    }
}

/// The name of a variable, without the sigil.
fn slot_name(slot: &KeySlot) -> &[u8]
    ensures { result.now ≡ slot_name slot.now }
{
    match slot {
        KeySlot::Entity(name, _) | KeySlot::Any(name, _) => name.bytes(),
        KeySlot::Value(name) | KeySlot::Folded(name) => name.bytes(),
        KeySlot::Fixed(_) => b"",
    }
}

/// Whether a slot is the variable with this sigil and this name.
fn is_named_so(sigil: u8, name: &[u8], slot: &KeySlot) -> bool
    ensures { result ≡ is_named_so sigil name.now slot.now }
{
    sigil_of(slot) == sigil && slot_name(slot) == name
}

/// Whether one of the variables has this sigil and this name.
fn has_variable(variables: &[KeySlot], sigil: u8, name: &[u8]) -> bool
    ensures { result ≡ list_any (is_named_so sigil name.now) variables.now }
{
    variables.iter().any(|slot| is_named_so(sigil, name, slot))
}

/// The place of the variable with this sigil and this name.
fn place_of(variables: &[KeySlot], sigil: u8, name: &[u8]) -> Option<usize>
    ensures { result ≡ position (is_named_so sigil name.now) variables.now }
{
    variables
        .iter()
        .position(|slot| is_named_so(sigil, name, slot))
}

/// What is wrong with one more variable, if anything is.
fn declaration_fault(key: &OpenKey, slot: &KeySlot) -> Option<KeyFault>
    ensures { MatchOption result (declare key.now slot.now ≡ Ok (record key.now { variables = key.now.variables ++ slot.now ∷ [] })) (λ fault. declare key.now slot.now ≡ Err fault) }
{
    if has_variable(&key.variables, sigil_of(slot), slot_name(slot)) {
        Some(KeyFault::VariableDeclaredTwice)
    } else if nodes(key) >= MOST_NODES {
        Some(KeyFault::TooManyNodes)
    } else {
        None
    }
}

/// The key with one more variable.
pub(crate) fn declare(key: OpenKey, slot: KeySlot) -> Result<OpenKey, LineStop>
    ensures { IsSo (Is (declare key slot)) result }
{
    match declaration_fault(&key, &slot) {
        Some(fault) => Err(LineStop::Fault(fault)),
        None => {
            let mut key = key;
            key.variables.push(slot)?;
            Ok(key)
        }
    }
}

/// Reads the declared variable at `at`, and gives its place among the variables and the place after it.
pub(crate) fn read_declared(
    key: &OpenKey,
    line: &[u8],
    at: usize,
) -> Result<(usize, usize), LineStop>
    requires { at ≤ length line.now }
    ensures so { IsSo (DeclaredSays key.now line.now at) result }
    ensures within { IfOk result (λ r. r.1 ≤ length line.now) }
{
    let end = word_end(line, at);
    let Some((sigil, name)) = line[at..end].split_first() else {
        return Err(LineStop::Fault(KeyFault::BadName));
    };
    if !is_name(name) {
        return Err(LineStop::Fault(KeyFault::BadName));
    }
    match place_of(&key.variables, *sigil, name) {
        Some(place) => Ok((place, end)),
        None => Err(LineStop::Fault(KeyFault::VariableNotDeclared)),
    }
}
