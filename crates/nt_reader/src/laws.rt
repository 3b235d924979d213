//! What holds of lines and files for every text. The functions do nothing: their contracts are the laws.

ghost use Rattle.std.specs.Prelude.{◌≡◌, ℕ, List, Option, Result};
ghost use Rattle.gk_base.specs.declared.lex_fault.LexFault.{LexFault};
ghost use Rattle.gk_base.specs.declared.limits.Limits.{Limits};
ghost use Rattle.gk_base.specs.declared.term.Triple.{Triple};
ghost use Rattle.gk_base.specs.declared.read_fault.ReadRefusal.{ReadRefusal};
ghost use Rattle.gk_base.specs.Answers.{HasOne};
ghost use Rattle.nt_reader.specs.Line.{LineSays};
ghost use Rattle.nt_reader.specs.Lines.{cut_of, Lined};
ghost use Rattle.nt_reader.specs.File.{FileSays};

/// A line says something: nothing, a triple or a fault, whatever its bytes are.
pub fn law_each_line_answers()
    ensures { (line : List ℕ) → (answer : Result (Option Triple) LexFault) × LineSays line answer }
{}

/// A file says something under limits, whatever its bytes are.
pub fn law_each_file_answers()
    ensures { (limits : Limits) (bytes : List ℕ) → (answer : Result (List Triple) ReadRefusal) × FileSays limits bytes answer }
{}

/// A line says one thing.
pub fn law_one_line_answer()
    ensures { (line : List ℕ) → HasOne (LineSays line) }
{}

/// A file says one thing under limits: the triples of its lines, or one refusal.
pub fn law_one_file_answer()
    ensures { (limits : Limits) (bytes : List ℕ) → HasOne (FileSays limits bytes) }
{}

/// The lines of a text and its rest are those of the grammar.
pub fn law_lines_of_the_grammar()
    ensures { (bytes : List ℕ) → Lined (cut_of bytes).ended (cut_of bytes).rest bytes }
{}

/// By the grammar a text has one list of lines and one rest.
pub fn law_one_list_of_lines()
    ensures { (lines others : List (List ℕ)) (rest last bytes : List ℕ) → Lined lines rest bytes → Lined others last bytes → (lines ≡ others) × (rest ≡ last) }
{}
