//! What holds of proof files for every text. The functions do nothing: their contracts are the laws.

ghost use Rattle.std.specs.Prelude.{◌≡◌, ◌<◌, ◌≤◌, ◌↔◌, ◌^◌, ℕ, List, Result, Ok, All, true, length};
ghost use Rattle.gk_base.specs.Answers.{HasOne};
ghost use Rattle.gk_base.specs.declared.term.Term.{Term};
ghost use Rattle.chase_laws.specs.declared.entry.Entry.{Entry};
ghost use Rattle.chase_laws.specs.Shape.{Shape, IsPattern};
ghost use Rattle.key_file.specs.Name.{is_name};
ghost use Rattle.term_text.specs.ReadBack.{CanBeSpelled};
ghost use Rattle.proof_file.specs.Tells.{AreSupported, TellsAll};
ghost use Rattle.proof_file.specs.Steps.{StepShape};
ghost use Rattle.proof_file.specs.ProofText.{ProofSays};
ghost use Rattle.proof_file.specs.CanonicalProof.{proof_text, CanBeRead};
ghost use Rattle.proof_file.specs.declared.fault.ProofRefusal.{ProofRefusal};

use chase_laws::laws::law_pattern;

/// A proof file says one thing under a limit: its steps, or one refusal.
pub fn law_one_proof_answer()
    ensures one { (limit : ℕ) (bytes : List ℕ) → HasOne (ProofSays limit bytes) }
    ensures some { (limit : ℕ) (bytes : List ℕ) → (answer : Result (List StepShape) ProofRefusal) × ProofSays limit bytes answer }
{}

/// The text that is written of a proof is read as this proof under exactly the limits that the text fits, if the proof can be
/// read at all. Each proof that a file says under a limit below 2 ^ 32 can be read. So can each that tells a journal of fewer
/// than 2 ^ 32 entries, where the names are as few and can be spelled, and the keys have names as in a key file.
pub fn law_proof_read_back()
    ensures back { (limit : ℕ) (steps : List StepShape) → CanBeRead steps →
        (length (proof_text steps) ≤ limit) ↔ ProofSays limit (proof_text steps) (Ok steps) }
    ensures said { (limit : ℕ) (bytes : List ℕ) (steps : List StepShape) → limit < 2 ^ 32 → ProofSays limit bytes (Ok steps) → CanBeRead steps }
    ensures told { (names : List Term) (K : List Shape) (key_names : List (List ℕ)) (H : List Entry) (steps : List StepShape) →
        All CanBeSpelled names → All IsPattern K → All (λ name. is_name name ≡ true) key_names →
        length names < 2 ^ 32 → length H < 2 ^ 32 → AreSupported (length names) K H → TellsAll names K key_names H steps → CanBeRead steps }
{
    law_pattern();
}
