//! Asks a journal why two names are the same.

ghost use Rattle.std.specs.Prelude.{◌≡◌, ◌<◌, ◌↔◌, List, IfOk, IfSome, IsSome, length, map};
ghost use Rattle.gk_base.specs.declared.term.Triple.{Triple};
ghost use Rattle.chase_laws.specs.Chase.{IsDerivation};
ghost use Rattle.chase_laws.specs.Joined.{Joined};
ghost use Rattle.key_file.specs.KeyShape.{KeyShape};
ghost use Rattle.key_file.specs.KeyFile.{IsKeyFile};
ghost use Rattle.key_file.specs.Compile.{patterns_of};
ghost use Rattle.key_file.specs.Numbered.{names_for, graph_of};
ghost use Rattle.proof_check.specs.Verdict.{verdict};
ghost use Rattle.proof_check.specs.declared.verdict.Verdict.TheVariants.{Accepted};
ghost use Rattle.proof_file.specs.Steps.{term_at, NoneTwice, NoneTwiceInSupports};
ghost use Rattle.proof_file.specs.Tells.{AreSupported};
ghost use Rattle.why_pair.specs.Why.{StepsLead, AllReached, TellsPart};

use crate::Why;
use crate::keeping::{kept, places_kept, step_numbers};
use crate::marking::marks;
use crate::relinking::relink;
use chase_laws::{Entry, Pattern, all_valid};
use gk_base::{NoMemory, Text};
use proof_check::law_proof;
use proof_graph::{Ways, build_proof};
use std::alloc::Global;
use term_table::Names;

/// How many entries a journal may have: steps are numbered from 1, by four bytes.
const MOST_ENTRIES: usize = 4294967295;

/// Why two names are the same, for a journal in which each entry is supported by those before it, as in every lean
/// derivation, and patterns each with the name of its key. `None` comes exactly where the journal does not join the two.
///
/// The proof has the steps of some of the journal's entries, in their order: those on the way from the one name to the
/// other, and what they rest on. So it may be much shorter than the proof of the whole journal, but it is not said that no
/// shorter one exists. Where the names are equal there are no steps.
///
/// `NoMemory` comes also where there are more entries than can be numbered.
pub fn why(
    alloc: Global,
    journal: &[Entry],
    names: &Names,
    patterns: &[Pattern],
    key_names: &[Text],
    a: u32,
    b: u32,
) -> Result<Option<Why>, NoMemory>
    requires supported { AreSupported (length names.now) patterns.now journal.now }
    requires named { length key_names.now ≡ length patterns.now }
    requires a { a < length names.now }
    requires b { b < length names.now }
    ensures joined { IfOk result (λ o. IsSome o ↔ Joined journal.now a b) }

    // The goal's steps lead from the first name to the second.
    ensures leads { IfOk result (λ o. IfSome o (λ w. StepsLead w.proof w.goal.items (term_at names.now a) (term_at names.now b))) }

    // No number stands twice in the goal, nor in a support.
    ensures once { IfOk result (λ o. IfSome o (λ w. NoneTwice w.goal.items)) }
    ensures supports_once { IfOk result (λ o. IfSome o (λ w. NoneTwiceInSupports w.proof)) }

    // Each step is reached from the goal.
    ensures reached { IfOk result (λ o. IfSome o (λ w. AllReached w.proof w.goal.items)) }

    // The steps are those of some of the journal's entries, each with supports that lead along the ones before it.
    ensures tells { IfOk result (λ o. IfSome o (λ w. TellsPart names.now patterns.now key_names.now journal.now w.proof)) }

    // The checker accepts the proof over each graph and key file that have these names, patterns and key names, and of which
    // the journal is a derivation.
    ensures accepted { (triples : List Triple) (keys : List KeyShape) → IsKeyFile keys → names.now ≡ names_for triples keys →
        patterns.now ≡ patterns_of (names_for triples keys) keys → key_names.now ≡ map (λ (k : KeyShape). k.name) keys →
        IsDerivation (graph_of (names_for triples keys) triples) patterns.now journal.now →
        IfOk result (λ o. IfSome o (λ w. verdict triples keys w.proof ≡ Accepted (length w.proof))) }
{
    if journal.len() > MOST_ENTRIES {
        return Err(NoMemory);
    }
    law_proof();
    all_valid(patterns);
    let _distinct = names.len();
    let ways = Ways::new(alloc, journal)?;
    if !ways.joins(a, b) {
        return Ok(None);
    }
    let mut way = Vec::new(alloc);
    ways.put(alloc, a, b, &mut way)?;
    let marks = marks(alloc, &ways, journal, patterns, &way)?;
    let entries = kept(alloc, journal, &marks)?;
    let places = places_kept(alloc, &marks)?;
    let proof = build_proof(alloc, &entries, names, patterns, key_names)?;
    let proof = relink(alloc, &ways, &places, &entries, proof)?;
    let goal = step_numbers(alloc, &places, &way)?;
    Ok(Some(Why { proof, goal }))
}
