//! The keys in numbers over the names of a graph, with what every graph over these names has beside its rows.

ghost use Rattle.std.specs.Prelude.{◌≡◌, ◌≢◌, ◌<◌, ◌≤◌, ◌+◌, ◌-◌, ◌^◌, ℕ, List, map, length, slice_get, slice_index, Some, false, IsTrue, IfOk};
ghost use Rattle.gk_base.specs.Term.{is_literal};
ghost use Rattle.chase_laws.specs.Graph.{IsFolding};
ghost use Rattle.chase_laws.specs.SameRows.{AreUnfolded};
ghost use Rattle.chase_laws.specs.declared.pattern.Slot.TheVariants.{Folded};
ghost use Rattle.term_table.specs.Folding.{IsLiteralAt};
ghost use Rattle.term_table.specs.Numbering.{with_terms};
ghost use Rattle.key_file.specs.Compile.{key_terms, patterns_of};
ghost use Rattle.key_file.specs.Numbered.{type_number};
ghost use Rattle.graph_rows.specs.Numbered.{AreAlikeFor};

use chase_laws::{Pattern, Slot};
use gk_base::{NoMemory, Term, Text};
use key_lang::{KeyFile, compile};
use std::alloc::Global;
use std::thread::Threads;
use term_table::Names;

/// The IRI of `rdf:type`.
const RDF_TYPE: &[u8] = b"http://www.w3.org/1999/02/22-rdf-syntax-ns#type";

/// A flag for each name that tells whether it is a literal.
pub(crate) fn literal_flags(alloc: Global, names: &Names) -> Result<Vec<bool>, NoMemory>
    ensures { IfOk result (λ flags. flags.items ≡ map is_literal names.now) }
{
    let mut flags = Vec::with_capacity(alloc, names.len() as usize)?;
    for place in 0..names.len() {
        flags.push(names.term(place).is_literal())?;
    }
    Ok(flags)
}

/// The number of `rdf:type`, where it is a name.
pub(crate) fn type_number(alloc: Global, names: &Names) -> Result<Option<u32>, NoMemory>
    ensures { IfOk result (λ number. number ≡ type_number names.now) }
{
    let rdf_type = Term::Iri(Text::from_bytes(alloc, RDF_TYPE)?);
    Ok(names.find(&rdf_type))
}

/// Whether some slot is a folded value variable.
fn has_folded(slots: &[Slot]) -> bool
    ensures some { IsTrue result → (s : ℕ) × (slice_get slots.now s ≡ Some Folded) }
    ensures none { result ≡ false → (s : ℕ) → slice_get slots.now s ≢ Some Folded }
{
    for slot in slots {
        if let Slot::Folded = slot {
            return true;
        }
    }
    false
}

/// Whether some key has a folded value variable.
fn have_folded(patterns: &[Pattern]) -> bool
    ensures some { IsTrue result → ¬ (AreUnfolded patterns.now) }
    ensures none { result ≡ false → AreUnfolded patterns.now }
{
    for pattern in patterns {
        if has_folded(&pattern.slots) {
            return true;
        }
    }
    false
}

/// For each name its own number.
fn own_numbers(alloc: Global, count: u32) -> Result<Vec<u32>, NoMemory>
    ensures len { IfOk result (λ numbers. length numbers.items ≡ count) }
    ensures own { IfOk result (λ numbers. (n : ℕ) → n < count → slice_index numbers.items n ≡ n) }
{
    Ok((0..count).collect(alloc)?)
}

/// What each name is alike to. Only folded value variables ask for it, so where the keys have none, each name is alike to
/// itself alone, and no literal is folded. `threads` says how many threads may be used, the caller's among them.
pub(crate) fn alike_for<R: Threads + Sync>(
    rt: &R,
    alloc: Global,
    threads: u32,
    names: &Names,
    patterns: &[Pattern],
) -> Result<Vec<u32>, NoMemory>
    ensures value { IfOk result (λ numbers. AreAlikeFor names.now patterns.now numbers.items) }
    ensures one_each { IfOk result (λ numbers. length numbers.items ≡ length names.now) }
    ensures not_above { IfOk result (λ numbers. (n : ℕ) → n < length names.now → slice_index numbers.items n ≤ n) }
    ensures itself { IfOk result (λ numbers. (n : ℕ) → n < length names.now →
        slice_index numbers.items (slice_index numbers.items n) ≡ slice_index numbers.items n) }
    ensures literals { IfOk result (λ numbers. (n : ℕ) →
        IsLiteralAt names.now n → IsLiteralAt names.now (slice_index numbers.items n)) }
    ensures others { IfOk result (λ numbers. (n : ℕ) → n < length names.now →
        ¬ (IsLiteralAt names.now n) → slice_index numbers.items n ≡ n) }
{
    if have_folded(patterns) {
        names.alike(rt, threads)
    } else {
        own_numbers(alloc, names.len())
    }
}

/// Keys in numbers, and what every graph over their names has beside its rows.
#[derive(Drop)]
pub(crate) struct NumberedKeys {
    /// The names that there were, and behind them those that only keys have.
    pub(crate) names: Names,
    /// A pattern for each key, in the order of the keys.
    pub(crate) patterns: Vec<Pattern>,
    /// A flag for each name that tells whether it is a literal.
    pub(crate) literal: Vec<bool>,
    /// The number of `rdf:type`, where it is a name.
    pub(crate) rdf_type: Option<u32>,
    /// What each name is alike to, as far as the keys ask for it.
    pub(crate) alike: Vec<u32>,
}

/// The keys in numbers over these names. The keys' terms that are no names yet become names behind the others. `threads` says how
/// many threads may be used, the caller's among them; the answer is the same. Only want of memory stops it.
pub(crate) fn number_keys<R: Threads + Sync>(
    rt: &R,
    alloc: Global,
    threads: u32,
    names: Names,
    keys: &KeyFile,
) -> Result<NumberedKeys, NoMemory>
    requires room { length names + length (key_terms keys.now) < 2 ^ 32 - 1 }
    ensures names { IfOk result (λ k. k.names ≡ with_terms names (key_terms keys.now)) }
    ensures patterns { IfOk result (λ k. k.patterns.items ≡ patterns_of k.names keys.now) }
    ensures literal { IfOk result (λ k. k.literal.items ≡ map is_literal k.names) }
    ensures rdf_type { IfOk result (λ k. k.rdf_type ≡ type_number k.names) }
    ensures alike { IfOk result (λ k. AreAlikeFor k.names k.patterns.items k.alike.items) }
    ensures folding { IfOk result (λ k. (rows : List (List ℕ)) →
        IsFolding (record { rows = rows; literal = k.literal.items; rdf_type = k.rdf_type; alike = k.alike.items })) }
{
    let mut names = names;
    let patterns = compile(alloc, keys, &mut names)?;
    let literal = literal_flags(alloc, &names)?;
    let rdf_type = type_number(alloc, &names)?;
    let alike = alike_for(rt, alloc, threads, &names, &patterns)?;
    Ok(NumberedKeys {
        names,
        patterns,
        literal,
        rdf_type,
        alike,
    })
}
