//! The entities of a graph that words name.

ghost use Rattle.std.specs.Prelude.{◌≡◌, ℕ, Some, IfOk, IfSome, IfNone, slice_get};
ghost use Rattle.gk_base.specs.declared.term.Term.{Term as AnyTerm};
ghost use Rattle.chase_laws.specs.Graph.{IsEntity};
ghost use Rattle.nt_lex.specs.Spelling.{Spells};
ghost use Rattle.gkey_cmd.specs.Why.{SpellsNumber};

use gk_base::{NoMemory, Stop, Text};
use nt_lex::{LexedTerm, lex_object};
use std::alloc::Global;
use term_table::Names;
use typed_graph::Graph;

/// The term that the whole word spells, and `None` exactly where it spells none: it may have no more than the term, no space
/// around it either.
fn spelled<'w>(alloc: Global, word: &'w [u8]) -> Result<Option<LexedTerm<'w>>, NoMemory>
    ensures spelled { IfOk result (λ o. IfSome o (λ term. Spells word.now term)) }
    ensures only { IfOk result (λ o. IfSome o (λ term. (other : AnyTerm) → Spells word.now other → other ≡ term)) }
    ensures none { IfOk result (λ o. IfNone o ((term : AnyTerm) → ¬ (Spells word.now term))) }
{
    if !simdutf8::is_utf8(word) {
        return Ok(None);
    }
    match lex_object(alloc, word, 0) {
        Ok((term, end)) => {
            if end == word.len() {
                Ok(Some(term))
            } else {
                Ok(None)
            }
        }
        Err(Stop::NoMemory) => Err(NoMemory),
        Err(Stop::Fault(_)) => Ok(None),
    }
}

/// The number of the entity of the graph that is this term, and `None` exactly where it is none.
fn entity_number(term: &LexedTerm<'_>, names: &Names, graph: &Graph) -> Option<u32>
    ensures name { IfSome result (λ n. slice_get names.now n ≡ Some term.now) }
    ensures entity { IfSome result (λ n. IsEntity graph.now n) }
    ensures none { IfNone result ((n : ℕ) → slice_get names.now n ≡ Some term.now → ¬ (IsEntity graph.now n)) }
{
    let _distinct = names.len();
    match names.find_ref(&term.lent()) {
        Some(n) => { if graph.is_entity(n) { Some(n) } else { None } }
        None => None,
    }
}

/// The number of the entity of the graph that the whole word spells, as a file of N-Triples would, and `None` exactly where it
/// spells none.
pub(crate) fn entity(
    alloc: Global,
    word: &Text,
    names: &Names,
    graph: &Graph,
) -> Result<Option<u32>, NoMemory>
    ensures spelled { IfOk result (λ o. IfSome o (λ n. SpellsNumber graph.now names.now word.now n)) }
    ensures none { IfOk result (λ o. IfNone o ((n : ℕ) → ¬ (SpellsNumber graph.now names.now word.now n))) }
{
    match spelled(alloc, word.bytes())? {
        Some(term) => Ok(entity_number(&term, names, graph)),
        None => Ok(None),
    }
}
