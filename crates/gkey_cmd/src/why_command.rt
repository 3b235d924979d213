//! `why`: a proof that two entities are the same, with only the steps that it needs, from the files of a graph and its keys,
//! and the words for the two.

ghost use Rattle.std.specs.Prelude.{◌≡◌, ◌<◌, List, map, length, IfOk, IfSome, IfNone, MatchResult};
ghost use Rattle.gk_base.specs.declared.term.Triple.{Triple as AnyTriple};
ghost use Rattle.chase_laws.specs.Chase.{AreSame};
ghost use Rattle.key_file.specs.KeyShape.{KeyShape};
ghost use Rattle.graph_rows.specs.Rows.{StandFor, AreFew};
ghost use Rattle.gkey_cmd.specs.Commands.{Explaining};
ghost use Rattle.gkey_cmd.specs.ChaseOptions.{AreInRange};
ghost use Rattle.gkey_cmd.specs.Told.{IsFinished};
ghost use Rattle.gkey_cmd.specs.Why.{not_the_same, SpellTwo, TellsPair};
ghost use Rattle.gkey_cmd.specs.ChaseEnds.{WhyEnds};
ghost use Rattle.gkey_cmd.specs.Endings.{Stopped};

use crate::chased::{ChaseOptions, chase_numbered};
use crate::ending::{Answer, Asked, Ending, Refusal};
use crate::entities::entity;
use crate::prove_command::key_names;
use crate::reading::{ReadFiles, read_graph_and_keys};
use crate::words::WhyWords;
use chase_laws::all_valid;
use chase_laws::laws::{law_chase, law_rows};
use chase_ways::Finished;
use gk_base::{NoMemory, Text};
use gk_io::Shelf;
use graph_rows::{Numbered, number};
use key_file::KeyDef;
use proof_check::law_proof;
use proof_file::{law_proof_read_back, put_proof};
use std::alloc::Global;
use std::sync::Wait;
use std::thread::Threads;
use steal_pool::Gate;
use term_table::Names;
use why_pair::why;

/// What is printed of two entities that are not the same.
const NOT_THE_SAME: &[u8] = b"not the same\n";

/// The text for two entities that are not the same.
fn not_the_same(alloc: Global) -> Result<Vec<u8>, NoMemory>
    ensures { IfOk result (λ text. text.items ≡ not_the_same) }
{
    Ok(NOT_THE_SAME.to_vec(alloc)?)
}

/// The numbers of the entities that two words spell, or the refusal of the first word that spells none: the second is looked
/// for only where the first one is found.
fn two_entities(
    alloc: Global,
    numbered: &Numbered,
    first: &Text,
    second: &Text,
) -> Result<(u32, u32), Ending>
    ensures { SpellTwo numbered.now.graph numbered.now.names first.now second.now result }
{
    let names = &numbered.names;
    let graph = &numbered.graph;
    let Some(a) = entity(alloc, first, names, graph)? else {
        return Err(Ending::Refused(Refusal::NoSuchEntity(Asked::First)));
    };
    let Some(b) = entity(alloc, second, names, graph)? else {
        return Err(Ending::Refused(Refusal::NoSuchEntity(Asked::Second)));
    };
    Ok((a, b))
}

/// The text of a proof that two names are the same, out of the journal of a finished chase, and `None` exactly where they are not.
fn pair_text(
    alloc: Global,
    names: &Names,
    finished: &Finished,
    keys: &[KeyDef],
    pair: (u32, u32),
) -> Result<Option<Vec<u8>>, NoMemory>
    requires finished { IsFinished finished.now.ground finished.now.labels.items finished.now.journal.items }
    requires named { length finished.now.ground.graph.literal ≡ length names.now }
    requires one_each { length keys.now ≡ length finished.now.ground.patterns }
    requires a { pair.0 < length names.now }
    requires b { pair.1 < length names.now }
    ensures told { IfOk result (λ o. IfSome o (λ text.
        TellsPair finished.now.ground.graph finished.now.ground.patterns names.now (map (λ (k : KeyShape). k.name) keys.now) pair.0 pair.1 text.items)) }
    ensures apart { IfOk result (λ o. IfNone o (¬ (AreSame finished.now.ground.graph finished.now.ground.patterns pair.0 pair.1))) }
{
    law_chase();
    law_proof_read_back();
    let patterns = finished.ground.patterns();
    all_valid(patterns);
    // For the proof alone: what a graph and its names are.
    let graph = finished.ground.graph();
    let _names = graph.names();
    let _distinct = names.len();
    let (a, b) = pair;
    let key_names = key_names(alloc, keys)?;
    let Some(told) = why(alloc, &finished.journal, names, patterns, &key_names, a, b)? else {
        return Ok(None);
    };
    let mut text = Vec::new(alloc);
    put_proof(&mut text, &told.proof)?;
    Ok(Some(text))
}

/// The answer of `why` with its text, or the ending of a run that has none, once its files are read. The first of the two words
/// is looked for in the graph before the second, and both before the candidate pairs are counted.
fn why_text<Rt: Threads + Wait + Sync, G: Gate>(
    rt: &Rt,
    alloc: Global,
    read: ReadFiles,
    words: &WhyWords<'_>,
    options: &ChaseOptions<'_, G>,
) -> Result<(Answer, Vec<u8>), Ending>
    requires few { AreFew read.rows }
    requires options { AreInRange options.now.limits.now options.now.workers }
    ensures { (triples : List AnyTriple) → StandFor read.rows triples → WhyEnds triples read.keys words.now.first.now words.now.second.now options.now.limits.now.pairs result }
{
    law_rows();
    law_proof();
    let ReadFiles { rows, keys } = read;
    let numbered = number(rt, alloc, options.workers, rows, &keys)?;
    let pair = two_entities(alloc, &numbered, words.first, words.second)?;
    let (names, finished) = chase_numbered(rt, alloc, numbered, options)?;
    match pair_text(alloc, &names, &finished, keys.keys(), pair)? {
        Some(text) => Ok((Answer::Given, text)),
        None => Ok((Answer::NotTheSame, not_the_same(alloc)?)),
    }
}

/// The answer of `why` and its text, or the ending of a run that has none: the files come as for `match`, then the words for
/// the two entities, then the chase.
pub(crate) fn why_command<Rt: Threads + Wait + Sync, S: Shelf, G: Gate>(
    rt: &Rt,
    alloc: Global,
    shelf: &mut S,
    words: &WhyWords<'_>,
    options: &ChaseOptions<'_, G>,
) -> Result<(Answer, Vec<u8>), Ending>
    requires { AreInRange options.now.limits.now options.now.workers }
    ensures { let Stops = Stopped S.Shelf shelf.old shelf.new (Explaining words.now.files.graph.now words.now.files.keys.now words.now.first.now words.now.second.now) options.now.limits.now in
        MatchResult result (λ r. Stops (Ending.Done r.0 r.1)) Stops }
{
    let read = read_graph_and_keys(rt, alloc, shelf, &words.files, options)?;
    why_text(rt, alloc, read, words, options)
}
