//! The triples of an open key.

ghost use Rattle.std.specs.Prelude.{◌≡◌, ◌≤◌, length, position, IsUtf8, IfOk};
ghost use Rattle.std.specs.List.{list_any};
ghost use Rattle.term_table.specs.Numbering.{same_term};
ghost use Rattle.gk_base.specs.Answers.{IsSo};
ghost use Rattle.key_lang.specs.Answers.{Is};
ghost use Rattle.key_lang.specs.Tokens.{Skipping};
ghost use Rattle.key_lang.specs.OpenKey.{same_end, same_triple, add, placed_constant, link};
ghost use Rattle.key_lang.specs.Statements.{is_sigil, DeclaredObjectSays, GivenObjectSays, KeySubjectSays, ObjectSays, TripleSays};

use crate::fault::{KeyFault, LineStop};
use crate::open_key::{End, Object, OpenEdge, OpenKey};
use crate::tokens::{byte_at, closes, read_constant, read_type};
use crate::variables::{MOST_NODES, nodes, read_declared};
use gk_base::Term;
use nt_lex::skip_space;
use std::alloc::Global;

/// How many triples a key may have.
const MOST_TRIPLES: usize = 32;

/// Whether two ends are the same.
fn same_end(one: End, other: End) -> bool
    ensures { result ≡ same_end one other }
{
    match one {
        End::Variable(place) => other == End::Variable(place),
        End::Constant(place) => other == End::Constant(place),
    }
}

/// Whether two triples are the same.
fn same_triple(one: &OpenEdge, other: &OpenEdge) -> bool
    ensures { result ≡ same_triple one.now other.now }
{
    one.from == other.from && one.pred == other.pred && same_end(one.to, other.to)
}

/// Whether the triple is one of these.
fn has_triple(edges: &[OpenEdge], edge: &OpenEdge) -> bool
    ensures { result ≡ list_any (same_triple edge.now) edges.now }
{
    edges.iter().any(|other| same_triple(edge, other))
}

/// The place of a constant.
fn place_of(constants: &[Term], term: &Term) -> Option<usize>
    ensures { result ≡ position (same_term term.now) constants.now }
{
    constants.iter().position(|other| term == other)
}

/// The key with this triple, which it may have already.
fn add(key: OpenKey, edge: OpenEdge) -> Result<OpenKey, LineStop>
    ensures { IsSo (Is (add key edge)) result }
{
    if has_triple(&key.edges, &edge) {
        return Ok(key);
    }
    if key.edges.len() >= MOST_TRIPLES {
        return Err(LineStop::Fault(KeyFault::TooManyTriplesInKey));
    }
    let mut key = key;
    key.edges.push(edge)?;
    Ok(key)
}

/// The key with this constant, which it may have already, and the constant's place.
fn with_constant(key: OpenKey, term: Term) -> Result<(OpenKey, usize), LineStop>
    ensures { IsSo (Is (placed_constant key term)) result }
{
    if let Some(place) = place_of(&key.constants, &term) {
        return Ok((key, place));
    }
    if nodes(&key) >= MOST_NODES {
        return Err(LineStop::Fault(KeyFault::TooManyNodes));
    }
    let place = key.constants.len();
    let mut key = key;
    key.constants.push(term)?;
    Ok((key, place))
}

/// The key with a triple to this object.
fn link(key: OpenKey, from: usize, pred: Term, object: Object) -> Result<OpenKey, LineStop>
    ensures { IsSo (Is (link key from pred object)) result }
{
    match object {
        Object::Declared(place) => {
            let to = End::Variable(place);
            add(key, OpenEdge { from, pred, to })
        }
        Object::Given(term) => {
            let (key, place) = with_constant(key, term)?;
            let to = End::Constant(place);
            add(key, OpenEdge { from, pred, to })
        }
    }
}

/// Reads the subject of a triple, and gives its place among the variables.
fn read_subject(key: &OpenKey, line: &[u8], at: usize) -> Result<(usize, usize), LineStop>
    requires { at ≤ length line.now }
    ensures so { IsSo (KeySubjectSays key.now line.now at) result }
    ensures within { IfOk result (λ r. r.1 ≤ length line.now) }
{
    match byte_at(line, at) {
        b'?' | b'_' => read_declared(key, line, at),
        _ => Err(LineStop::Fault(KeyFault::SubjectMustBeAnEntityVariableOrWildcard)),
    }
}

/// Whether a variable begins with this byte.
fn is_sigil(byte: u8) -> bool
    ensures { result ≡ is_sigil byte }
{
    byte == b'?' || byte == b'_' || byte == b'$'
}

/// Reads an object that is a variable.
fn read_declared_object(key: &OpenKey, line: &[u8], at: usize) -> Result<(Object, usize), LineStop>
    requires { at ≤ length line.now }
    ensures so { IsSo (DeclaredObjectSays key.now line.now at) result }
    ensures within { IfOk result (λ r. r.1 ≤ length line.now) }
{
    let (place, end) = read_declared(key, line, at)?;
    Ok((Object::Declared(place), end))
}

/// Reads an object that is an IRI or a literal.
fn read_given_object(alloc: Global, line: &[u8], at: usize) -> Result<(Object, usize), LineStop>
    requires { IsUtf8 line.now }
    ensures so { IsSo (GivenObjectSays line.now at) result }
    ensures within { IfOk result (λ r. r.1 ≤ length line.now) }
{
    let (term, end) = read_constant(alloc, line, at)?;
    Ok((Object::Given(term), end))
}

/// Reads the object after tabs and spaces.
fn read_object(
    alloc: Global,
    key: &OpenKey,
    line: &[u8],
    at: usize,
) -> Result<(Object, usize), LineStop>
    requires inside { at ≤ length line.now }
    requires utf8 { IsUtf8 line.now }
    ensures so { IsSo (Skipping line.now at (ObjectSays key.now line.now)) result }
    ensures within { IfOk result (λ r. r.1 ≤ length line.now) }
{
    let begin = skip_space(line, at);
    if is_sigil(byte_at(line, begin)) {
        read_declared_object(key, line, begin)
    } else {
        read_given_object(alloc, line, begin)
    }
}

/// Reads a triple at `at`, and adds it to the key.
pub(crate) fn triple_statement(
    alloc: Global,
    key: OpenKey,
    line: &[u8],
    at: usize,
) -> Result<OpenKey, LineStop>
    requires inside { at ≤ length line.now }
    requires utf8 { IsUtf8 line.now }
    ensures { IsSo (TripleSays key line.now at) result }
{
    let (from, end) = read_subject(&key, line, at)?;
    let (pred, end) = read_type(alloc, line, end)?;
    let (object, end) = read_object(alloc, &key, line, end)?;
    if !closes(line, end) {
        return Err(LineStop::Fault(KeyFault::UnknownStatement));
    }
    link(key, from, pred, object)
}
