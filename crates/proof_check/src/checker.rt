//! The checker: what is made of a graph and keys before a proof is there, and what is said of the proof then.

ghost use Rattle.std.specs.Prelude.{◌≡◌, ◌<◌, ◌^◌, List, IfOk, OnOk, length, map};
ghost use Rattle.gk_base.specs.declared.term.Triple.{Triple};
ghost use Rattle.key_file.specs.Numbered.{rdf_type};
ghost use Rattle.term_table.specs.Numbering.{place_of, with_terms};
ghost use Rattle.proof_check.specs.Verdict.{verdict};
ghost use Rattle.proof_check.specs.Rows.{IsGraphInNumbers};
ghost use Rattle.proof_check.specs.Ready.{IsReady};

use crate::checking::judge_all;
use crate::ends::ends_of;
use crate::numbers::{MOST_NUMBERED, in_numbers};
use crate::rows::SortedRows;
use crate::verdict::Verdict;
use chase_laws::Pattern;
use gk_base::{NoMemory, Term, Text};
use key_file::{KeyFile, compile};
use proof_file::Proof;
use std::alloc::Global;
use term_list::{Terms, Triples};
use term_table::Names;

/// How many names a graph may have: behind them come rdf:type and the terms of 64 keys, of which each has at most 48.
const MOST_OF_A_GRAPH: usize = MOST_NUMBERED - 64 * 48 - 3;

/// The term rdf:type.
fn type_term(alloc: Global) -> Result<Term, NoMemory>
    ensures { IfOk result (λ t. t ≡ rdf_type) }
{
    Ok(Term::Iri(Text::from_bytes(alloc, b"http://www.w3.org/1999/02/22-rdf-syntax-ns#type")?))
}

/// A graph in numbers with the patterns of keys, ready for a proof. All that can be made before a proof is there is made.
#[derive(Drop)]
pub struct Checker {
    /// The terms of the graph, then rdf:type and the terms of the keys.
    pub(crate) names: Names,
    /// The triples.
    pub(crate) rows: SortedRows,
    /// For each name, whether it is subject or object of a triple. A name without a flag is none.
    pub(crate) known: Vec<bool>,
    /// The number of rdf:type.
    pub(crate) kind: u32,
    pub(crate) patterns: Vec<Pattern>,
}

impl Checker {
    /// What is needed of a graph and of keys to check proofs over them. The names are the distinct terms of the graph's triples
    /// in their order, and there is a row for each triple, with the places of its subject, its predicate and its object among
    /// the names. `NoMemory` comes also where there are more names than four bytes can number, with room for the terms of a
    /// key file behind them.
    pub fn new(
        alloc: Global,
        rows: Vec<[u32; 3]>,
        mut names: Names,
        keys: &KeyFile,
    ) -> Result<Checker, NoMemory>
        ensures { IfOk result (λ checker. (triples : List Triple) → IsGraphInNumbers names rows.items triples → IsReady checker triples keys.now) }
    {
        if names.len() as usize > MOST_OF_A_GRAPH {
            return Err(NoMemory);
        }
        let _keys = keys.keys();
        let kind = names.intern(type_term(alloc)?)?;
        let patterns = compile(alloc, keys, &mut names)?;
        let count = names.len() as usize;
        let known = ends_of(alloc, &rows, count)?;
        let rows = SortedRows::new(alloc, rows, count)?;
        Ok(Checker {
            names,
            rows,
            known,
            kind,
            patterns,
        })
    }

    /// The numbers of a proof's terms. Nearly all of them are names; one that is none becomes one, of which no triple is known.
    fn number(&mut self, terms: &Terms) -> Result<Vec<u32>, NoMemory>
        ensures numbers { IfOk result (λ numbers. numbers.items ≡ map (place_of self.new.names) terms.now) }
        ensures grown { OnOk result (self.new ≡ record self.old { names = with_terms self.old.names terms.now }) }
    {
        if terms.len() >= MOST_NUMBERED - self.names.len() as usize {
            return Err(NoMemory);
        }
        self.names.intern_all(terms)
    }

    /// What is to be said of a proof, over the graph and the keys that the checker is ready for: that each step holds, or which
    /// is the first that does not, and the first test that it fails. `NoMemory` comes also where the names and the terms of the
    /// proof are together 2^32 or more.
    pub fn check(
        mut self,
        alloc: Global,
        keys: &KeyFile,
        proof: &Proof,
    ) -> Result<Verdict, NoMemory>
        requires { length proof.now < 2 ^ 32 }
        ensures { IfOk result (λ v. (triples : List Triple) → IsReady self triples keys.now → v ≡ verdict triples keys.now proof.now) }
    {
        let numbers = self.number(&proof.terms)?;
        judge_all(alloc, &self, keys.keys(), &numbers, &proof.steps)
    }
}

/// What is to be said of a proof, over a graph in numbers and the keys: that each step holds, or which is the first that does
/// not, and the first test that it fails. The names are the distinct terms of the graph's triples in their order, and there is
/// a row for each triple, with the places of its subject, its predicate and its object among the names. `NoMemory` comes also
/// where the names with rdf:type and the terms of a key file, and the terms of the proof, are together 2^32 or more.
pub fn check_rows(
    alloc: Global,
    rows: Vec<[u32; 3]>,
    names: Names,
    keys: &KeyFile,
    proof: &Proof,
) -> Result<Verdict, NoMemory>
    requires { length proof.now < 2 ^ 32 }
    ensures { IfOk result (λ v. (triples : List Triple) → IsGraphInNumbers names rows.items triples → v ≡ verdict triples keys.now proof.now) }
{
    Checker::new(alloc, rows, names, keys)?.check(alloc, keys, proof)
}

/// What is to be said of a proof, over the triples of a graph and the keys: that each step holds, or which is the first that
/// does not, and the first test that it fails. `NoMemory` comes also where the triples have 2^32 terms, and where `check_rows`
/// gives it.
pub fn check(
    alloc: Global,
    triples: &Triples,
    keys: &KeyFile,
    proof: &Proof,
) -> Result<Verdict, NoMemory>
    requires { length proof.now < 2 ^ 32 }
    ensures { IfOk result (λ v. v ≡ verdict triples.now keys.now proof.now) }
{
    let graph = in_numbers(alloc, triples)?;
    check_rows(alloc, graph.rows, graph.names, keys, proof)
}
