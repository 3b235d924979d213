//! Declarations, and the line that begins a key.

ghost use Rattle.std.specs.Prelude.{◌≡◌, ◌≤◌, length, IsUtf8};
ghost use Rattle.gk_base.specs.Answers.{IsSo};
ghost use Rattle.key_lang.specs.Answers.{Is};
ghost use Rattle.key_lang.specs.OpenKey.{begin};
ghost use Rattle.key_lang.specs.Statements.{KeySays, TypedSays, typed_slot, ValueSays, slot_of_value};

use crate::fault::{KeyFault, LineStop};
use crate::open_key::{OpenKey, Progress};
use crate::tokens::{closes, read_name, read_type, read_variable};
use crate::variables::declare;
use gk_base::{Term, Text};
use key_file::{KeyFile, KeySlot};
use std::alloc::Global;

/// The file with a key that begins.
fn begin(alloc: Global, keys: KeyFile, name: Text, kind: Term) -> Result<Progress, LineStop>
    ensures { IsSo (Is (begin keys name kind)) result }
{
    if keys.has_name(name.bytes()) {
        return Err(LineStop::Fault(KeyFault::NameUsedTwice));
    }
    let mut variables = Vec::new(alloc);
    variables.push(KeySlot::Entity(Text::from_bytes(alloc, b"x")?, kind))?;
    let key = OpenKey {
        name,
        variables,
        constants: Vec::new(alloc),
        edges: Vec::new(alloc),
    };
    Ok(Progress {
        keys,
        current: Some(key),
    })
}

/// `key NAME <type>`, from the place after `key`.
pub(crate) fn key_statement(
    alloc: Global,
    keys: KeyFile,
    line: &[u8],
    at: usize,
) -> Result<Progress, LineStop>
    requires inside { at ≤ length line.now }
    requires utf8 { IsUtf8 line.now }
    ensures { IsSo (KeySays keys line.now at) result }
{
    let (name, end) = read_name(alloc, line, at)?;
    let (kind, end) = read_type(alloc, line, end)?;
    if !closes(line, end) {
        return Err(LineStop::Fault(KeyFault::UnknownStatement));
    }
    begin(alloc, keys, name, kind)
}

/// A variable of this type: an entity variable or a wildcard, by its sigil.
fn typed_slot(sigil: u8, name: Text, kind: Term) -> KeySlot
    ensures { result ≡ typed_slot sigil name kind }
{
    if sigil == b'?' {
        KeySlot::Entity(name, kind)
    } else {
        KeySlot::Any(name, kind)
    }
}

/// `entity ?y <type>` or `any _w <type>`, from the place after the first word.
pub(crate) fn typed_statement(
    alloc: Global,
    sigil: u8,
    key: OpenKey,
    line: &[u8],
    at: usize,
) -> Result<OpenKey, LineStop>
    requires inside { at ≤ length line.now }
    requires utf8 { IsUtf8 line.now }
    ensures { IsSo (TypedSays sigil key line.now at) result }
{
    let (name, end) = read_variable(alloc, sigil, line, at)?;
    let (kind, end) = read_type(alloc, line, end)?;
    if !closes(line, end) {
        return Err(LineStop::Fault(KeyFault::UnknownStatement));
    }
    declare(key, typed_slot(sigil, name, kind))
}

/// A value variable, folded or not.
fn slot_of_value(folded: bool, name: Text) -> KeySlot
    ensures { result ≡ slot_of_value folded name }
{
    if folded {
        KeySlot::Folded(name)
    } else {
        KeySlot::Value(name)
    }
}

/// `value $n` or `folded $n`, from the place after the first word.
pub(crate) fn value_statement(
    alloc: Global,
    folded: bool,
    key: OpenKey,
    line: &[u8],
    at: usize,
) -> Result<OpenKey, LineStop>
    requires { at ≤ length line.now }
    ensures { IsSo (ValueSays folded key line.now at) result }
{
    let (name, end) = read_variable(alloc, b'$', line, at)?;
    if !closes(line, end) {
        return Err(LineStop::Fault(KeyFault::UnknownStatement));
    }
    declare(key, slot_of_value(folded, name))
}
