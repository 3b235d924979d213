//! What holds of the grammar for every line. The functions do nothing: their contracts are the laws.

ghost use Rattle.std.specs.Prelude.{◌≡◌, ℕ, List, Result, IsUtf8};
ghost use Rattle.std.specs.Str.{IsCharBoundary};
ghost use Rattle.gk_base.specs.declared.term.Term.{Term};
ghost use Rattle.gk_base.specs.declared.lex_fault.LexFault.{LexFault};
ghost use Rattle.gk_base.specs.Answers.{HasOne};
ghost use Rattle.nt_lex.specs.Reading.{Reads, Says};

/// A spelling has one reading: the line and the place determine the term and where it ends.
pub fn law_one_reading()
    ensures { (line : List ℕ) (at end other : ℕ) (term another : Term) → Reads line at term end → Reads line at another other → (term ≡ another) × (end ≡ other) }
{}

/// At each place at most one answer is to be given: no place both reads and fails, and none fails by two faults.
pub fn law_one_answer()
    ensures { (line : List ℕ) (at : ℕ) → HasOne (Says line at) }
{}

/// At each place of a text an answer is to be given: it reads or it fails.
pub fn law_reads_or_fails()
    ensures { (line : List ℕ) (at : ℕ) → IsUtf8 line → IsCharBoundary line at → (answer : Result (Term × ℕ) LexFault) × Says line at answer }
{}

/// A piece of a text that spells a term does not end inside a character.
pub fn law_ends_at_a_character()
    ensures { (line : List ℕ) (at end : ℕ) (term : Term) → IsUtf8 line → IsCharBoundary line at → Reads line at term end → IsCharBoundary line end }
{}
